//! What holds of all data and of its lines.

ghost use Rattle.std.specs.Prelude.{◌≡◌, ◌++◌, ℕ, List, Option};
ghost use Rattle.std.specs.List.{AllByRecursion};
ghost use Rattle.replay_core.specs.Layouts.{IsDeterministic};
ghost use Rattle.data_lines.specs.Vocabulary.{AggFn, Aggs, Entry, KeyPart};
ghost use Rattle.data_lines.specs.{Layout.IsDataOf, Texts.text_value};
ghost use Rattle.data_lines.specs.Values.{FitsHeld, FitsPart, key_value};
ghost use Rattle.data_lines.specs.Lines.{EndsOnce, entry_head, entry_line, first_line, last_line};
ghost use Rattle.data_lines.specs.Lines.{text_line};
ghost use Rattle.data_lines.specs.Runs.{IsData, WholeRun};

/// What a run made has its data in one form at most.
pub fn one_data()
    ensures { (aggregations : Aggs) (run : WholeRun) (xs ys : List ℕ)
        → IsData aggregations run xs → IsData aggregations run ys → xs ≡ ys }
{}

/// What a run made has its data.
pub fn has_data()
    ensures { (aggregations : Aggs) (run : WholeRun)
        → (bytes : List ℕ) × IsData aggregations run bytes }
{}

/// Each run has its data, and no other.
pub fn each_run_has_data()
    ensures { IsDeterministic IsDataOf }
{}

/// Each line has one line feed, at its end.
pub fn lines_end_once()
    ensures first { EndsOnce first_line }
    ensures text { (text : ℕ × List ℕ) → EndsOnce (text_line text) }
    ensures entry { (index : ℕ) (name : List ℕ) (function : AggFn) (entry : Entry)
        → EndsOnce (entry_line (entry_head index name function) entry) }
    ensures last { (exit : Option (ℕ × ℕ)) (firings : ℕ) → EndsOnce (last_line exit firings) }
{}

/// A text can be read back, and is seen to end whatever follows.
pub fn texts_read_back()
    ensures { (x y after_x after_y : List ℕ)
        → text_value x ++ after_x ≡ text_value y ++ after_y → (x ≡ y) × (after_x ≡ after_y) }
{}

/// A key can be read back, and is seen to end whatever follows.
pub fn keys_read_back()
    ensures { (x y : List KeyPart) (after_x after_y : List ℕ)
        → AllByRecursion FitsPart x → AllByRecursion FitsPart y
        → key_value x ++ after_x ≡ key_value y ++ after_y → (x ≡ y) × (after_x ≡ after_y) }
{}

/// An entry can be read back from its line: entries of an aggregation whose lines are equal are
/// equal.
pub fn entries_read_back()
    ensures { (head : List ℕ) (function : AggFn) (x y : Entry)
        → AllByRecursion FitsPart x.0 → AllByRecursion FitsPart y.0
        → FitsHeld function x.1 → FitsHeld function y.1
        → entry_line head x ≡ entry_line head y → x ≡ y }
{}
