//! Laws of what compiled code means: each holds of the definitions, and its function computes
//! nothing.

ghost use Rattle.dif_codegen.specs.{Correct.end_of_outcome, Meaning.value_of};
ghost use Rattle.dif_codegen.specs.Vocabulary.{Firing, Object, Variables};
ghost use Rattle.dif_machine.specs.Runs.{Runs};
ghost use Rattle.dif_validate.specs.Validity.{IsValid};

/// A run of a valid object ends as its value says.
pub fn values_are_of_runs()
    ensures { (o : Object) (f : Firing) (vars : Variables) → IsValid o
        → Runs o f vars (end_of_outcome (value_of f o vars)) }
{}
