//! Histograms.

ghost use Rattle.std.specs.Prelude.{◌≡◌, ◌+◌, ◌<◌, ◌≤◌, ◌^◌, ℤ, OnOk, OnErr, MatchOption, List, []};
ghost use Rattle.std.specs.Prelude.{◌∷◌, ◌++◌, Some, length, nat_eq, slice_index, sum, true};
ghost use Rattle.indexmap.specs.IndexMap.{IsUnique, Updates};
ghost use Rattle.aggregations.specs.Histograms.{used_at};
ghost use Rattle.aggregations.specs.Vocabulary.{AllOrNothing, IsAt, IsFound};

use crate::scale::Scale;
use indexmap::IndexMap;
use std::alloc::{AllocError, Global};
use std::marker::Model;

// The first few buckets are compared one by one, which costs less than a look-up.
const MAX_COMPARED: usize = 8;

/// How many arguments each bucket of a scale has. Only buckets that have arguments take room.
#[derive(Drop)]
pub struct Histogram {
    scale: Scale,
    used: IndexMap<u32, u64>,
}

impl Model for Histogram {
    ghost use Rattle.aggregations.specs.Histograms as spec;

    ghost Value = { spec.Histogram };

    ghost view = { λ h. record {
      scale = h.scale;
      counts = spec.counts_used h.scale h.used.entries;
    } };

    ghost invariant = { λ h. spec.AreUsed h.scale h.used.entries };
}

impl Histogram {
    ghost use Rattle.aggregations.specs.Buckets.{buckets};
    ghost use Rattle.aggregations.specs.Figures.{Figure, rank_of};
    ghost use Rattle.aggregations.specs.Histograms.{IsSpan, histogram_of};
    ghost use Rattle.aggregations.specs.Steps.Histograms.{with_more};

    /// A histogram without arguments.
    #[tactic(auto, using(crate::proofs::HistogramLemmas::kept_none))]
    pub(crate) fn new(alloc: Global, scale: Scale) -> Histogram
        ensures { result ≡ histogram_of scale [] }
    {
        Histogram {
            scale,
            used: IndexMap::new(alloc),
        }
    }

    /// The scale whose buckets it counts.
    ///
    /// ```text
    /// histogram.scale(); // Scale::Powers
    /// ```
    #[tactic(auto, using(crate::proofs::HistogramLemmas::table_long))]
    pub fn scale(&self) -> Scale
        ensures value { result ≡ self.now.scale }
        ensures long { length self.now.counts ≡ buckets result }
    {
        self.scale
    }

    /// How many arguments a bucket has: none if the scale has no such bucket.
    ///
    /// ```text
    /// // of `quantize`, after the arguments 2 and 3
    /// histogram.count_at(65); // 2: the bucket of 2
    /// ```
    #[tactic(auto, using(crate::proofs::HistogramLemmas::count_kept))]
    pub fn count_at(&self, bucket: u32) -> u64
        ensures { result ≡ slice_index self.now.counts bucket }
    {
        self.used.get(&bucket).copied().unwrap_or(0)
    }

    /// How many arguments there are, at most 2^52.
    ///
    /// ```text
    /// histogram.total(); // 2, after the arguments 2 and 3
    /// ```
    #[tactic(auto, using(crate::proofs::HistogramLemmas::sum_used))]
    pub fn total(&self) -> u64
        ensures value { result ≡ sum self.now.counts }
        ensures few { result ≤ 2 ^ 52 }
    {
        self.used.values().copied().sum()
    }

    /// The first and the last bucket that have arguments. None without arguments.
    ///
    /// ```text
    /// // of `quantize`, after the arguments 0 and 3
    /// histogram.span(); // Some((63, 65)): the buckets of 0 and of 2
    /// ```
    pub fn span(&self) -> Option<(u32, u32)>
        ensures { MatchOption result (sum self.now.counts ≡ 0)
            (λ s. IsSpan self.now.counts s.0 s.1) }
    {
        let first = self.used.keys().copied().min()?;
        let last = self.used.keys().copied().max()?;
        Some((first, last))
    }

    /// The sum of label times count.
    ///
    /// ```text
    /// histogram.rank(); // of `quantize`, after the arguments 2, 3 and 4: 2 + 2 + 4
    /// ```
    pub fn rank(&self) -> i128
        ensures { result ≡ rank_of (Figure.Distribution self.now) }
    {
        let mut rank = 0;
        for (bucket, count) in &self.used {
            rank += i128::from(self.scale.label(*bucket)) * i128::from(*count);
        }
        rank
    }

    // Counts more arguments for a bucket.
    fn add(&mut self, bucket: u32, more: u64) -> Result<(), AllocError>
        requires bucket { bucket < buckets self.old.scale }
        requires some { 0 < more }
        requires room { sum self.old.counts + more ≤ 2 ^ 52 }
        ensures { AllOrNothing result self.old self.new
            (self.new ≡ with_more self.old bucket more) }
    {
        put_more(&mut self.used, bucket, more)
    }

    /// Takes one more argument.
    pub(crate) fn note(&mut self, arg: i64) -> Result<(), AllocError>
        requires { sum self.old.counts < 2 ^ 52 }
        ensures value { AllOrNothing result self.old self.new ((scale : Scale) (args : List ℤ)
            → self.old ≡ histogram_of scale args
            → self.new ≡ histogram_of scale (args ++ arg ∷ [])) }
        ensures count { sum self.new.counts ≤ sum self.old.counts + 1 }
    {
        let bucket = self.scale.bucket_of(arg);
        self.add(bucket, 1)
    }

    /// Takes the arguments of another histogram of the scale too.
    pub(crate) fn join(&mut self, other: &Histogram) -> Result<(), AllocError>
        requires { sum self.old.counts + sum other.now.counts ≤ 2 ^ 52 }
        ensures value { OnOk result ((scale : Scale) (xs ys : List ℤ)
            → self.old ≡ histogram_of scale xs
            → other.now ≡ histogram_of scale ys → self.new ≡ histogram_of scale (xs ++ ys)) }
        ensures count { sum self.new.counts ≤ sum self.old.counts + sum other.now.counts }
    {
        if other.scale.buckets() == self.scale.buckets() {
            for (bucket, more) in &other.used {
                self.add(*bucket, *more)?;
            }
        }
        Ok(())
    }
}

// Adds to what a bucket has.
#[tactic(auto, using(std::proofs::lemmas::Option::gets))]
fn put_more(used: &mut IndexMap<u32, u64>, bucket: u32, more: u64) -> Result<(), AllocError>
    requires { used_at used.old.entries bucket + more < 2 ^ 64 }
    ensures ok { OnOk result (Updates nat_eq used.old used.new bucket
        (Some (used_at used.old.entries bucket + more)) × IsUnique nat_eq used.new) }
    ensures err { OnErr result (used.new.entries ≡ used.old.entries) }
{
    let Some(index) = index_of(used, bucket) else {
        used.insert(bucket, more)?;
        return Ok(());
    };
    let (_, count) = used.pair_mut(index);
    *count += more;
    Ok(())
}

// The index of the bucket's count.
fn index_of(used: &IndexMap<u32, u64>, bucket: u32) -> Option<usize>
    ensures { IsFound nat_eq used.now.entries bucket result }
{
    for index in 0..used.len().min(MAX_COMPARED) {
        if is_at(used, index, bucket) {
            return Some(index);
        }
    }
    index_by_hash(used, bucket)
}

// The index of the bucket's count, by its hash.
#[inline(never)]
fn index_by_hash(used: &IndexMap<u32, u64>, bucket: u32) -> Option<usize>
    ensures { IsFound nat_eq used.now.entries bucket result }
{
    let (index, _, _) = used.get_full(&bucket)?;
    Some(index)
}

// Whether the bucket's count has this index.
fn is_at(used: &IndexMap<u32, u64>, index: usize, bucket: u32) -> bool
    ensures { result ≡ true → IsAt nat_eq used.now.entries index bucket }
{
    match used.get_index(index) {
        Some((there, _)) => *there == bucket,
        None => false,
    }
}
