//! Entries: a value made from the arguments that came.

ghost use Rattle.std.specs.Prelude.{◌≡◌, ◌+◌, ◌<◌, ◌≤◌, ◌^◌, ◌∷◌, [], IfOk, OnOk};
ghost use Rattle.std.specs.Prelude.{option_copied};

use crate::function::AggFn;
use crate::held::{Held, Mean};
use crate::histogram::Histogram;
use std::alloc::{AllocError, Global};
use std::marker::Model;

/// The value of an entry, as far as its arguments have come.
#[derive(Drop)]
pub struct Partial {
    held: Held,
}

impl Model for Partial {
    ghost use Rattle.aggregations.specs.{declared.held.Held.Held, Values.IsKept};

    ghost Value = { Held };

    ghost view = { λ p. p.held };

    ghost invariant = { λ p. IsKept p.held };
}

impl Partial {
    ghost use Rattle.aggregations.specs.Figures.{count_at, figure_of, histogram_in, mean_in};
    ghost use Rattle.aggregations.specs.Figures.{rank_of, single_in};
    ghost use Rattle.aggregations.specs.Vocabulary.{AllOrNothing};
    ghost use Rattle.aggregations.specs.Values.{IsValue, count_in};
    ghost use Rattle.aggregations.specs.Steps.Values.{TakesBoth, TakesOne};

    /// The value of one argument.
    #[tactic(auto, using(crate::proofs::ValueLemmas::sum_none))]
    pub(crate) fn of_one(alloc: Global, function: AggFn, arg: i64) -> Result<Partial, AllocError>
        ensures value { IfOk result (λ p. IsValue function p (arg ∷ [])) }
        ensures count { IfOk result (λ p. count_in p ≤ 1) }
    {
        if let Some(scale) = function.scale() {
            let mut histogram = Histogram::new(alloc, scale);
            histogram.note(arg)?;
            return Ok(Partial {
                held: Held::Counts(histogram),
            });
        }
        let held = match function {
            AggFn::Count => Held::Counted(1),
            AggFn::Sum => Held::Summed(arg),
            AggFn::Min => Held::Least(arg),
            AggFn::Max => Held::Greatest(arg),
            AggFn::Avg => Held::Mean(Mean { sum: arg, count: 1 }),
            AggFn::Quantize | AggFn::Lquantize(_) => unreachable!(),
        };
        Ok(Partial { held })
    }

    /// Takes one more argument.
    pub(crate) fn note(&mut self, arg: i64) -> Result<(), AllocError>
        requires { count_in self.old < 2 ^ 52 }
        ensures value { AllOrNothing result self.old self.new (TakesOne self.old arg self.new) }
        ensures count { count_in self.new ≤ count_in self.old + 1 }
    {
        if let Held::Counts(histogram) = &mut self.held {
            return histogram.note(arg);
        }
        self.held.take(arg, 1);
        Ok(())
    }

    /// Takes the arguments of another entry of the function too.
    pub(crate) fn join(&mut self, other: &Partial) -> Result<(), AllocError>
        requires { count_in self.old + count_in other.now ≤ 2 ^ 52 }
        ensures value { OnOk result (TakesBoth self.old other.now self.new) }
        ensures count { count_in self.new ≤ count_in self.old + count_in other.now }
    {
        if let Held::Counts(histogram) = &mut self.held {
            let Some(more) = other.histogram() else {
                return Ok(());
            };
            return histogram.join(more);
        }
        self.held.take(other.held.number(), other.held.count());
        Ok(())
    }

    /// The number that the entry shows. None for a histogram.
    ///
    /// ```text
    /// partial.single(); // for `avg` of 1, 2 and 6: Some(3)
    /// ```
    pub fn single(&self) -> Option<i64>
        ensures { result ≡ single_in (figure_of self.now) }
    {
        match &self.held {
            Held::Counted(n) => Some(*n as i64),
            Held::Summed(x) | Held::Least(x) | Held::Greatest(x) => Some(*x),
            Held::Mean(mean) => Some(mean.sum / mean.count as i64),
            Held::Counts(_) => None,
        }
    }

    /// The total, wrapped into 64 bits, and the number of the arguments whose mean the entry shows.
    /// None if it shows no mean.
    ///
    /// ```text
    /// partial.mean(); // for `avg` of 1, 2 and 6: Some((9, 3))
    /// ```
    pub fn mean(&self) -> Option<(i64, u64)>
        ensures { result ≡ mean_in self.now }
    {
        match &self.held {
            Held::Mean(mean) => Some((mean.sum, mean.count)),
            Held::Counted(_)
            | Held::Summed(_)
            | Held::Least(_)
            | Held::Greatest(_)
            | Held::Counts(_) => None,
        }
    }

    /// The histogram that the entry shows. None for a number.
    ///
    /// ```text
    /// // of `quantize`, after the argument 3
    /// if let Some(histogram) = partial.histogram() {
    ///     histogram.total(); // 1
    /// }
    /// ```
    pub fn histogram(&self) -> Option<&Histogram>
        ensures { option_copied result ≡ histogram_in (figure_of self.now) }
    {
        match &self.held {
            Held::Counts(histogram) => Some(histogram),
            Held::Counted(_)
            | Held::Summed(_)
            | Held::Least(_)
            | Held::Greatest(_)
            | Held::Mean(_) => None,
        }
    }

    /// How many arguments a bucket of the histogram has: 0 if the entry shows a number.
    ///
    /// ```text
    /// // of `quantize`, after the arguments 2 and 3
    /// partial.count_at(65); // 2: the bucket of 2
    /// ```
    pub fn count_at(&self, bucket: u32) -> u64
        ensures { result ≡ count_at (figure_of self.now) bucket }
    {
        match &self.held {
            Held::Counts(histogram) => histogram.count_at(bucket),
            Held::Counted(_)
            | Held::Summed(_)
            | Held::Least(_)
            | Held::Greatest(_)
            | Held::Mean(_) => 0,
        }
    }

    /// The number that entries are ordered by: the one shown, or the sum of label times count.
    ///
    /// ```text
    /// partial.rank(); // for `avg` of 1, 2 and 6: 3
    /// ```
    pub fn rank(&self) -> i128
        ensures { result ≡ rank_of (figure_of self.now) }
    {
        match &self.held {
            Held::Counted(n) => i128::from(*n),
            Held::Summed(x) | Held::Least(x) | Held::Greatest(x) => i128::from(*x),
            Held::Mean(mean) => i128::from(mean.sum / mean.count as i64),
            Held::Counts(histogram) => histogram.rank(),
        }
    }
}
