//! What holds of all values and tables, in other words than the definitions'.

ghost use Rattle.std.specs.Prelude.{◌≡◌, ◌≢◌, ℕ, ◌<◌, ◌==◌, List, [], ℤ};
ghost use Rattle.aggregations.specs.Vocabulary.{AggFn, Scale};
ghost use Rattle.aggregations.specs.{declared.held.Held.Held, Values.IsValue};
ghost use Rattle.aggregations.specs.Buckets.{buckets, is_in};
ghost use Rattle.aggregations.specs.Table.{Aggregation, Contribution, SameItems, StandsFor};

/// A table that stands for a list stands for it in any other order.
pub fn order_plays_no_part()
    ensures { (table : List Aggregation) (xs ys : List Contribution)
        → SameItems xs ys → StandsFor table xs → StandsFor table ys }
{}

/// Arguments, if there are any, have a value.
#[tactic(auto, using(crate::proofs::ValueLemmas::value_exists))]
pub fn has_value()
    ensures { (function : AggFn) (args : List ℤ)
        → args ≢ [] → (held : Held) × IsValue function held args }
{}

/// Arguments have one value at most.
#[tactic(auto, using(crate::proofs::EntryLemmas::one_value))]
pub fn one_value()
    ensures { (function : AggFn) (args : List ℤ) (x y : Held)
        → IsValue function x args → IsValue function y args → x ≡ y }
{}

/// Each number is in one bucket of a scale, and in no other.
#[tactic(auto, using(crate::proofs::BucketLemmas::one_bucket))]
pub fn one_bucket()
    ensures { (scale : Scale) (x : ℤ) → (bucket : ℕ) × (bucket < buckets scale)
        × ((b : ℕ) → b < buckets scale → is_in scale b x ≡ (b == bucket)) }
{}
