//! What holds of every listing, of every output and of every entry's line.

ghost use Rattle.std.specs.Prelude.{◌≡◌, ◌+◌, ◌<◌, ◌≤◌, ◌++◌, ℕ, ℤ, List, Some, All, length};
ghost use Rattle.std.specs.Prelude.{codes, replicate, slice_get, sum_by};
ghost use Rattle.std.specs.Str.{byte};
ghost use Rattle.replay_core.specs.Layouts.{IsDeterministic};
ghost use Rattle.report.specs.Vocabulary.{AggFn, Contribution, Held, KeyPart, Name, Single};
ghost use Rattle.report.specs.Vocabulary.{figure_of, signed_decimal};
ghost use Rattle.report.specs.{Output.IsOutput, Report.IsReport};
ghost use Rattle.report.specs.Columns.{FitsColumn, column_width};
ghost use Rattle.report.specs.Entry.{Entry, number_bytes, part_bytes, entry_bytes};
ghost use Rattle.report.specs.Listing.{IsListing, ComesBefore};

/// An aggregation has at most one listing of the same contributions.
pub fn one_listing()
    ensures { (function : AggFn) (agg : ℕ) (contributions : List Contribution) (xs ys : List Entry)
        → IsListing function agg contributions xs → IsListing function agg contributions ys
        → xs ≡ ys }
{}

/// Texts and contributions have at most one output.
pub fn one_output()
    ensures { (functions : List AggFn) (texts : List (ℕ × List ℕ))
        (contributions : List Contribution) (xs ys : List ℕ)
        → IsOutput functions texts contributions xs → IsOutput functions texts contributions ys
        → xs ≡ ys }
{}

/// Any texts and contributions have an output.
pub fn has_output()
    ensures { (functions : List AggFn) (texts : List (ℕ × List ℕ))
        (contributions : List Contribution)
        → (bytes : List ℕ) × IsOutput functions texts contributions bytes }
{}

/// Each run has one report.
pub fn each_run_has_a_report()
    ensures { IsDeterministic IsReport }
{}

/// The first of two entries of a listing has the lower rank, or the same rank and the lower key.
pub fn listings_ascend()
    ensures { (function : AggFn) (agg : ℕ) (contributions : List Contribution)
        (entries : List Entry)
        → IsListing function agg contributions entries → (i j : ℕ) (x y : Entry) → i < j
        → slice_get entries i ≡ Some x → slice_get entries j ≡ Some y → ComesBefore x y }
{}

/// Parts that fit fill columns, and so does the number after them.
pub fn entries_stand_in_columns()
    ensures { (key : List KeyPart) (held : Held) (number : ℤ)
        → All FitsColumn key → figure_of held ≡ Single number → length (signed_decimal number) ≤ 16
        → length (entry_bytes (key, held)) ≡ sum_by column_width key + 18 }
{}

/// A number is spaces, one at least, and then all its digits.
pub fn numbers_stand_whole()
    ensures { (number : ℤ) → (blank : ℕ) × (0 < blank)
        × (number_bytes number ≡ replicate blank (byte " ") ++ signed_decimal number) }
{}

/// A name is two spaces, the whole text and perhaps more spaces.
pub fn names_stand_whole()
    ensures { (text : List ℕ) → (blank : ℕ)
        × (part_bytes (Name text) ≡ codes "  " ++ text ++ replicate blank (byte " ")) }
{}
