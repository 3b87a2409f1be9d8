//! The scales of histograms: their buckets and what these are called by.

ghost use Rattle.std.specs.Prelude.{◌≡◌, ℕ, ◌+◌, ◌<◌, ◌≤◌, ◌^◌, ◌==◌};
ghost use Rattle.aggregations.specs.Vocabulary.{Powers, Steps};
ghost use Rattle.aggregations.specs.Buckets as spec;

use crate::linear_range::LinearRange;

/// How a histogram divides the numbers into buckets.
#[derive(Clone, Copy, Debug, PartialEq, Eq)]
pub enum Scale {
    /// Powers of two, zero, and powers of two with a minus: the scale of `quantize`.
    Powers,
    /// The levels of a range, what is below them and what is above: the scale of `lquantize`.
    Steps(LinearRange),
}

impl Scale {
    /// How many buckets there are.
    ///
    /// ```text
    /// Scale::Powers.buckets(); // 127
    /// ```
    pub fn buckets(self) -> u32
        ensures { result ≡ spec.buckets self }
    {
        match self {
            Scale::Powers => 127,
            Scale::Steps(range) => u32::from(range.levels()) + 2,
        }
    }

    /// The number that labels a bucket.
    ///
    /// ```text
    /// Scale::Powers.label(63); // 0
    /// Scale::Powers.label(66); // 4: the bucket of 4 to 7
    /// ```
    pub fn label(self, bucket: u32) -> i64
        requires { bucket < spec.buckets self }
        ensures { result ≡ spec.label self bucket }
    {
        match self {
            Scale::Powers => power_label(bucket),
            Scale::Steps(range) => step_label(range, bucket),
        }
    }

    /// The bucket that the number is in, and no other.
    pub(crate) fn bucket_of(self, x: i64) -> u32
        ensures within { result < spec.buckets self }
        ensures only { (b : ℕ) → b < spec.buckets self → spec.is_in self b x ≡ (b == result) }
    {
        match self {
            Scale::Powers => power_bucket(x),
            Scale::Steps(range) => step_bucket(range, x),
        }
    }
}

fn power_label(bucket: u32) -> i64
    requires { bucket < spec.buckets Powers }
    ensures { result ≡ spec.label Powers bucket }
{
    if bucket < 63 {
        -(1i64 << (62 - bucket))
    } else if bucket == 63 {
        0
    } else {
        1i64 << (bucket - 64)
    }
}

fn step_label(range: LinearRange, bucket: u32) -> i64
    ensures { result ≡ spec.label (Steps range) bucket }
{
    if bucket == 0 {
        i64::from(range.lower()) - 1
    } else {
        i64::from(range.lower()) + i64::from(bucket - 1) * i64::from(range.step())
    }
}

// The bucket of powers that the number is in, and no other.
fn power_bucket(x: i64) -> u32
    ensures within { result < spec.buckets Powers }
    ensures only { (b : ℕ) → b < spec.buckets Powers → spec.is_in Powers b x ≡ (b == result) }
{
    if x < 0 {
        62 - top_bit(x.unsigned_abs()).min(62)
    } else if x == 0 {
        63
    } else {
        64 + top_bit(x.unsigned_abs())
    }
}

// The bucket of the range that the number is in, and no other.
fn step_bucket(range: LinearRange, x: i64) -> u32
    ensures within { result < spec.buckets (Steps range) }
    ensures only { (b : ℕ) → b < spec.buckets (Steps range)
        → spec.is_in (Steps range) b x ≡ (b == result) }
{
    let lower = i64::from(range.lower());
    if x < lower {
        0
    } else {
        let steps = x.abs_diff(lower) / u64::from(range.step());
        steps.min(u64::from(range.levels())) as u32 + 1
    }
}

// The index of a number's highest bit.
fn top_bit(n: u64) -> u32
    requires { 0 < n }
    ensures at_least { 2 ^ result ≤ n }
    ensures below { n < 2 ^ (result + 1) }
    ensures small { result < 64 }
{
    63 - n.leading_zeros()
}
