//! What the definitions of firings say in other words: each law is the contract of a function that
//! has nothing to do.

ghost use Rattle.std.specs.Prelude.{List};
ghost use Rattle.firings.specs.Ends.{begin_of, end_of};
ghost use Rattle.firings.specs.Firings.{HasRanges, IsTrace};
ghost use Rattle.firings.specs.declared.firing.Firing.{Firing};

/// The fields of BEGIN and END are in the ranges of fields.
pub fn ends_have_ranges()
    ensures { (fs : List Firing) → IsTrace fs → HasRanges (begin_of fs) × HasRanges (end_of fs) }
{}
