//! Laws of validity: each holds of the definitions, and its function computes nothing.

ghost use Rattle.std.specs.Prelude.{◌≡◌, ◌≢◌, ◌↔◌, ◌⊎◌, ℕ, List, Some};
ghost use Rattle.dif_validate.specs.Vocabulary.{DifFault, Instr, Memory, Object, Shape};
ghost use Rattle.dif_validate.specs.{Flow.before, Ways.IsOfAllWays, Ways.Way};
ghost use Rattle.dif_validate.specs.Validity.{IsInvalid, IsValid};

/// Something is known before an instruction exactly if a way leads to it. It is what all such ways
/// make known, and no more.
pub fn known_on_all_ways()
    ensures reached { (code : List Instr) (pc : ℕ) → ((s : Shape) × (before code pc ≡ Some s))
        ↔ ((s : Shape) × Way code pc s) }
    ensures known { (code : List Instr) (pc : ℕ) (s : Shape) → before code pc ≡ Some s
        → IsOfAllWays code pc s }
{}

/// Each object is valid or has a first fault.
pub fn has_verdict()
    ensures { (o : Object)
        → IsValid o ⊎ ((fault : DifFault) × (fault ≢ Memory) × IsInvalid o fault) }
{}

/// A valid object has no fault, and each other has one.
pub fn one_verdict()
    ensures valid { (o : Object) (fault : DifFault) → fault ≢ Memory
        → IsValid o → IsInvalid o fault → ⊥ }
    ensures fault { (o : Object) (a b : DifFault) → a ≢ Memory → b ≢ Memory
        → IsInvalid o a → IsInvalid o b → a ≡ b }
{}
