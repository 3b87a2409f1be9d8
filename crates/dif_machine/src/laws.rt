//! Laws of runs.

ghost use Rattle.std.specs.Prelude.{◌≡◌, ◌≢◌, ◌↔◌, ◌<◌, ◌^◌, ℕ, Some, slice_get};
ghost use Rattle.dif_validate.specs.{Flow.before, declared.shape.Shape.Shape};
ghost use Rattle.dif_machine.specs.Vocabulary.{Firing, Instr, IsValid, Object, Operator, Value};
ghost use Rattle.dif_machine.specs.Vocabulary.{Variables, kind_of, return_kind};
ghost use Rattle.dif_machine.specs.{Changes.Changes, Known.FitsShape, Operators.result_of};
ghost use Rattle.dif_machine.specs.{Plain.plain_of};
ghost use Rattle.dif_machine.specs.Frames.{Frame, start};
ghost use Rattle.dif_machine.specs.Semantics.{Stuck, step_of};
ghost use Rattle.dif_machine.specs.Runs.{Comes, End, EndsBy, IsOver, Returns, Runs};

/// An instruction goes to the next index or to its target. It changes the register that it writes,
/// a comparison the comparison, a push or `flushts` the tuple and a store the variables, and
/// nothing else. A step that ends the run changes no variable.
#[tactic(auto, using(crate::proofs::Changing::step_changes))]
pub fn one_instruction_changes()
    ensures { (o : Object) (f : Firing) (s : Frame) (vars : Variables) (i : Instr)
        → slice_get o.code s.pc ≡ Some i → Changes i s vars (step_of o f s vars) }
{}

/// A run of a valid object is never stuck: it ends, after at most as many steps as the object has
/// instructions.
#[tactic(auto, using(crate::proofs::Ending::is_over))]
pub fn runs_end()
    ensures { (o : Object) (f : Firing) (vars : Variables) → IsValid o → IsOver o f vars }
{}

/// The value that it returns is of the object's kind.
#[tactic(auto, using(crate::proofs::Ending::is_kinded))]
pub fn values_are_of_the_kind()
    ensures { (o : Object) (f : Firing) (vars after : Variables) (value : Value) → IsValid o
        → Runs o f vars (Returns value after) → return_kind o ≡ Some (kind_of value) }
{}

/// A run ends in one way.
#[tactic(auto, using(crate::proofs::Ending::one_end))]
pub fn one_end()
    ensures { (o : Object) (f : Firing) (vars : Variables) (a b : End)
        → Runs o f vars a → Runs o f vars b → a ≡ b }
{}

/// A run ends as a state says that it comes to.
pub fn runs_end_at_states()
    ensures { (o : Object) (f : Firing) (first : Variables) (end : End) → Runs o f first end
        ↔ ((s : Frame) × (vars : Variables) × Comes o f start first s vars
        × EndsBy (step_of o f s vars) end) }
{}

/// No state that a run of a valid object comes to is stuck; and what is known before its
/// instruction is so there, whichever way led to it.
#[tactic(auto, using(crate::proofs::Progress::not_stuck, crate::proofs::Progress::has_known))]
pub fn never_stuck()
    ensures steps { (o : Object) (f : Firing) (first vars : Variables) (s : Frame) → IsValid o
        → Comes o f start first s vars → step_of o f s vars ≢ Stuck }
    ensures known { (o : Object) (f : Firing) (first vars : Variables) (s : Frame) → IsValid o
        → Comes o f start first s vars
        → (shape : Shape) × (before o.code s.pc ≡ Some shape) × FitsShape shape s }
{}

/// On numbers of 64 bits each operator is plain arithmetic.
pub fn operators_are_plain()
    ensures { (operator : Operator) (a b : ℕ) → a < 2 ^ 64 → b < 2 ^ 64
        → result_of operator a b ≡ plain_of operator a b }
{}
