//! Laws of typing: what checks, typed scripts and formats have in common.

ghost use Rattle.std.specs.Prelude.{◌≡◌, ◌≤◌, ◌^◌, ℕ, List, Result, Err, length};
ghost use Rattle.d_types.specs.Vocabulary.{MAX_BYTES, in_all, Firing, Piece, ItemTree, TypeFault};
ghost use Rattle.d_types.specs.{Checking.IsChecked, Clauses.run_of, Fitting.ScriptFits};
ghost use Rattle.d_types.specs.{Proper.IsProperScript, Scripts.IsMeant, Spelling.SpellsFormat};
ghost use Rattle.d_types.specs.{Storage.Variables};
ghost use Rattle.d_types.specs.Sizes.{HasAtMost, most_runs};
ghost use Rattle.d_types.specs.Typed.{ClauseMeant, ScriptMeant};

/// Every script has a meaning or a first fault, and no more than one of them. That memory ran out
/// is no fault of a script.
pub fn one_answer()
    ensures some { (source : List ItemTree)
        → ∥ ((answer : Result ScriptMeant TypeFault) × IsChecked source answer) ∥₁ }
    ensures only { (source : List ItemTree) (a b : Result ScriptMeant TypeFault)
        → IsChecked source a → IsChecked source b
        → a ≡ b }
    ensures named { (source : List ItemTree) → ¬ IsChecked source (Err TypeFault.Memory) }
{}

/// Every whole expression of a typed script needs six registers at most.
pub fn six_registers()
    ensures { (m : ScriptMeant) → ∥ IsMeant m ∥₁ → ScriptFits m }
{}

/// A typed script has at most 65,536 descriptions, as many statements, and as many places of
/// variables, all clauses together.
pub fn sizes_kept()
    ensures { (m : ScriptMeant) → ∥ IsMeant m ∥₁ → HasAtMost MAX_BYTES m }
{}

/// In a typed script predicates and statuses are integers, each conversion has an argument of its
/// kind, and each aggregation statement names one of the script's aggregations, with its keys, at
/// most 8, and what its function takes.
pub fn statements_are_proper()
    ensures { (m : ScriptMeant) → ∥ IsMeant m ∥₁ → IsProperScript m }
{}

/// A run of a clause makes one contribution at most for each of its statements, whatever the
/// clause. In a typed script at most 2^32 statements run at one firing, if each clause runs once
/// for each of its descriptions.
pub fn contributions_are_few()
    ensures run { (f : Firing) (index : ℕ) (clause : ClauseMeant) (vars : Variables)
        → length (run_of f index clause vars).contributions ≤ length clause.statements }
    ensures firing { (m : ScriptMeant) → ∥ IsMeant m ∥₁ → in_all most_runs m.clauses ≤ 2 ^ 32 }
{}

/// A format is spelled by one list of pieces at most.
pub fn one_format()
    ensures { (format : List ℕ) (ps qs : List Piece) → SpellsFormat ps format
        → SpellsFormat qs format
        → ps ≡ qs }
{}
