//! What an entry holds of its arguments.

ghost use Rattle.std.specs.Prelude.{◌≡◌, ◌+◌, ◌≤◌, ◌^◌};
ghost use Rattle.aggregations.specs.Steps.Held as spec;

use crate::histogram::Histogram;

/// The total of some arguments, wrapped into 64 bits, and their number.
#[derive(Drop)]
pub(crate) struct Mean {
    pub(crate) sum: i64,
    pub(crate) count: u64,
}

/// What is held of some arguments, for each of the functions.
#[derive(Drop)]
pub(crate) enum Held {
    /// How many there were.
    Counted(u64),
    /// Their total, wrapped into 64 bits.
    Summed(i64),
    /// The least.
    Least(i64),
    /// The greatest.
    Greatest(i64),
    /// What their mean is made of.
    Mean(Mean),
    /// How many were in each bucket.
    Counts(Histogram),
}

impl Held {
    /// How many there were, if that is held.
    pub(crate) fn count(&self) -> u64
        ensures { result ≡ spec.count_of self.now }
    {
        match self {
            Held::Counted(n) => *n,
            Held::Mean(mean) => mean.count,
            Held::Summed(_) | Held::Least(_) | Held::Greatest(_) | Held::Counts(_) => 0,
        }
    }

    /// Their total, the least or the greatest.
    pub(crate) fn number(&self) -> i64
        ensures { result ≡ spec.number_of self.now }
    {
        match self {
            Held::Summed(x) | Held::Least(x) | Held::Greatest(x) => *x,
            Held::Mean(mean) => mean.sum,
            Held::Counted(_) | Held::Counts(_) => 0,
        }
    }

    /// Takes this many more arguments, all equal to this number. A histogram stays as it is.
    #[tactic(auto, using(std::proofs::lemmas::Int::wrapping_add_is))]
    pub(crate) fn take(&mut self, number: i64, count: u64)
        requires { spec.count_of self.old + count ≤ 2 ^ 52 }
        ensures { self.new ≡ spec.after self.old number count }
    {
        match self {
            Held::Counted(n) => *n += count,
            Held::Summed(sum) => *sum = sum.wrapping_add(number),
            Held::Least(least) => *least = (*least).min(number),
            Held::Greatest(greatest) => *greatest = (*greatest).max(number),
            Held::Mean(mean) => {
                mean.sum = mean.sum.wrapping_add(number);
                mean.count += count;
            }
            Held::Counts(_) => {}
        }
    }
}
