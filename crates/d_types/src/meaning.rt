//! Laws of what expressions mean.

ghost use Rattle.std.specs.Prelude.{◌≡◌, ◌↔◌, ℕ, false, All};
ghost use Rattle.d_types.specs.{Storage.Variables, Clauses.run_of, Wholes.ClauseIs, Laws.in_place};
ghost use Rattle.d_types.specs.{Scripts.IsMeant};
ghost use Rattle.d_types.specs.Vocabulary.{IntType, blank, narrow, Firing, Step, Answer};
ghost use Rattle.d_types.specs.Vocabulary.{Operation, Variable, DType};
ghost use Rattle.d_types.specs.Typed.{Typed, Typeds, type_of, ClauseMeant, ScriptMeant};
ghost use Rattle.d_types.specs.Expressions.{number_outcome, eval};
ghost use Rattle.d_types.specs.Held.{AreTyped, AreTypedLocals, AreTypedOwn, EndsTyped};
ghost use Rattle.d_types.specs.Held.{HasTypedBuiltIns};
ghost use Rattle.d_types.specs.Held.{IsConsistent, IsOf, IsWord, Slots, slots_of};
ghost use Rattle.d_types.specs.Laws as spec;

use firings::Firing;

/// Without an assignment, `++` or `--`, evaluation leaves the variables as they were.
pub fn only_assignments_change_variables()
    ensures { (f : Firing) (e : Typed) (vars : Variables) → spec.assigns e ≡ false
        → spec.variables_after (eval f e vars) ≡ vars }
{}

/// Without a `/` or `%`, evaluation gives a value.
pub fn only_divisions_fault()
    ensures { (f : Firing) (e : Typed) (vars : Variables) → spec.has_division e ≡ false
        → spec.is_fault (eval f e vars) ≡ false }
{}

/// A value of an integer type is the word of a number of that type, and a value of type text a text
/// of at most 255 bytes. Variables that hold values of their types do so after the expression, also
/// after a fault. The words of a type are those that conversion to it leaves as they are.
pub fn values_are_of_their_types()
    ensures values { (slots : Slots) (f : Firing) (e : Typed) (vars : Variables)
        → HasTypedBuiltIns f → IsConsistent slots e → AreTyped slots vars
        → EndsTyped slots (IsOf (type_of e)) (eval f e vars) }
    ensures words { (t : IntType) (word : ℕ) → IsWord t word ↔ (narrow t word ≡ word) }
{}

/// Variables that hold values of their types do so after each run of a clause. Those of one storage
/// do so before anything was assigned to it.
pub fn variables_keep_their_types()
    ensures run { (slots : Slots) (f : Firing) (index : ℕ) (clause : ClauseMeant) (vars : Variables)
        → HasTypedBuiltIns f → ClauseIs (IsConsistent slots) clause → AreTyped slots vars
        → AreTyped slots (run_of f index clause vars).variables }
    ensures locals { (slots : Slots) → AreTypedLocals slots (λ var. blank var.kind) }
    ensures own { (slots : Slots) → AreTypedOwn slots (λ var key. blank var.kind) }
{}

/// The built-ins of every firing are values of their types, as its fields are of theirs. This reads
/// them for its proof alone: nothing of it is left in a program.
pub fn built_ins_are_of_their_types(firing: &Firing)
    ensures { HasTypedBuiltIns firing.now }
{
    let _ = firing.execname.count();
    let _ = firing.provider.count();
    let _ = firing.probemod.count();
    let _ = firing.probefunc.count();
    let _ = firing.name.count();
    for number in 0..10 {
        let _ = firing.args.nth(number);
    }
    let _ = firing.args.stored();
    let (_time, _cpu, _pid, _thread) = (firing.time, firing.cpu, firing.pid, firing.thread);
}

/// The trees of a typed script are consistent with the types of its variables.
pub fn scripts_are_consistent()
    ensures { (m : ScriptMeant) → ∥ IsMeant m ∥₁
        → All (ClauseIs (IsConsistent (slots_of m))) m.clauses }
{}

/// `x[keys] op= e`, of an integer variable that holds values of its type, is `x[keys] = x[keys] op
/// e`, if evaluating the keys twice is evaluating them once: so it is if nothing is assigned
/// in them, as in constants, built-ins, variables and operators on them, and where there are none.
/// `x[keys]` is read before e is evaluated, and both are converted as in the operation. `++x[keys]`
/// is `x[keys] += 1`, and `--x[keys]` is `x[keys] -= 1`, whatever the keys. After x they make the
/// same change, and give the value that it had.
pub fn changes_in_place_are_assignments()
    ensures update { (f : Firing) (t : IntType) (o : Operation) (x : Variable) (keys : Typeds)
        (e : Typed) (vars : Variables)
        → x.holds ≡ DType.Int t → spec.AreRepeatable f keys vars → spec.HoldsItsType f x keys vars
        → eval f (Typed.Update o x keys e) vars
        ≡ eval f (Typed.Assign x keys (in_place o t x keys e)) vars }
    ensures repeatable { (f : Firing) (keys : Typeds) (vars : Variables)
        → spec.assigns_in keys ≡ false → spec.AreRepeatable f keys vars }
    ensures new { (f : Firing) (t : IntType) (by : Step) (x : Variable) (keys : Typeds)
        (vars : Variables)
        → x.holds ≡ DType.Int t
        → eval f (Typed.Count by Answer.New x keys) vars
        ≡ eval f (spec.changed_by_one by t x keys) vars }
    ensures old { (f : Firing) (by : Step) (x : Variable) (keys : Typeds) (vars : Variables)
        → eval f (Typed.Count by Answer.Old x keys) vars
        ≡ spec.with_after (spec.variables_after (eval f (Typed.Count by Answer.New x keys) vars))
        (number_outcome (eval f (Typed.Read x keys) vars)) }
{}
