ghost use Rattle.std.specs.Prelude.{◌≡◌, ◌+◌, ◌<◌, ◌≤◌, ◌^◌, ◌∷◌, [], IfOk, length};
ghost use Rattle.aggregations.specs.Table.{functions_of, count_held};

use aggregations::{AggFn, AggTable, LinearRange, Partial};
use d_values::{Key, KeyPart, Text};
use std::alloc::{AllocError, Global};
use std::test::Fail;

// Whether an entry is of the key, and has this count.
fn is_count((held, partial): (&Key, &Partial), key: &Key, count: i64) -> bool {
    *held == *key && partial.single() == Some(count)
}

// The key with this one text.
fn key_of(alloc: Global, name: &str) -> Result<Key, AllocError>
    ensures { IfOk result (λ k. length k ≡ 1) }
{
    let mut key = Key::new(alloc);
    let text = Text::from_slice(alloc, name.as_bytes())?;
    key.push(KeyPart::Name(text))?;
    Ok(key)
}

// Whether one of the entries is of the key with this one text, and has this count.
fn has_count(
    alloc: Global,
    entries: &[(&Key, &Partial)],
    name: &str,
    count: i64,
) -> Result<bool, AllocError> {
    let key = key_of(alloc, name)?;
    Ok(entries.iter().any(|entry| is_count(*entry, &key, count)))
}

// Whether the entries have just these counts, each of the key with this one text. The texts differ,
// so as many entries as counts are one for each text.
fn are_counts(
    alloc: Global,
    entries: &[(&Key, &Partial)],
    counts: &[(&str, i64)],
) -> Result<bool, AllocError> {
    for (name, count) in counts {
        let is_held = has_count(alloc, entries, name, *count)?;
        if !is_held {
            return Ok(false);
        }
    }
    Ok(entries.len() == counts.len())
}

// Whether the entries of an aggregation have just these counts.
fn has_counts(
    alloc: Global,
    table: &AggTable,
    agg: usize,
    counts: &[(&str, i64)],
) -> Result<bool, AllocError>
    requires { agg < length (functions_of table.now) }
{
    let entries = table.entries(alloc, agg)?;
    are_counts(alloc, &entries, counts)
}

// One more argument for the key with this one text.
fn add(table: &mut AggTable, key: &mut Key, agg: usize, name: &[u8]) -> Result<(), AllocError>
    requires agg { agg < length (functions_of table.old) }
    requires room { count_held table.old < 2 ^ 52 }
    requires index { 0 < length key.old }
    ensures functions { functions_of table.new ≡ functions_of table.old }
    ensures held { count_held table.new ≤ count_held table.old + 1 }
    ensures index { length key.new ≡ length key.old }
{
    key.set_name(0, name)?;
    table.add(agg, key, 0)
}

// Adds for three keys, in the first and the last of three aggregations.
fn add_rows(table: &mut AggTable, key: &mut Key) -> Result<(), AllocError>
    requires functions { length (functions_of table.old) ≡ 3 }
    requires room { count_held table.old ≡ 0 }
    requires index { 0 < length key.old }
    ensures { functions_of table.new ≡ functions_of table.old }
{
    add(table, key, 0, b"sh")?;
    add(table, key, 2, b"cat")?;
    add(table, key, 0, b"cat")?;
    add(table, key, 0, b"sh")?;
    add(table, key, 0, b"")
}

// Adds these rows, with a key for them.
fn fill(alloc: Global, table: &mut AggTable) -> Result<(), AllocError>
    requires functions { length (functions_of table.old) ≡ 3 }
    requires room { count_held table.old ≡ 0 }
    ensures { functions_of table.new ≡ functions_of table.old }
{
    let mut key = key_of(alloc, "")?;
    add_rows(table, &mut key)
}

// An empty table of three counts.
fn three_counts(alloc: Global) -> Result<AggTable, AllocError>
    ensures functions { IfOk result (λ t. length (functions_of t) ≡ 3) }
    ensures held { IfOk result (λ t. count_held t ≡ 0) }
{
    let functions = vec![in alloc; AggFn::Count; 3]?;
    AggTable::new(alloc, functions)
}

// A table of three counts, with these rows.
fn counted(alloc: Global) -> Result<AggTable, AllocError>
    ensures { IfOk result (λ t. length (functions_of t) ≡ 3) }
{
    let mut table = three_counts(alloc)?;
    fill(alloc, &mut table)?;
    Ok(table)
}

// Whether the three aggregations have the counts of these rows.
fn has_all_counts(alloc: Global, table: &AggTable) -> Result<bool, AllocError>
    requires { length (functions_of table.now) ≡ 3 }
{
    let first = has_counts(alloc, table, 0, &[("cat", 1), ("sh", 2), ("", 1)])?;
    let second = has_counts(alloc, table, 1, &[])?;
    let third = has_counts(alloc, table, 2, &[("cat", 1)])?;
    Ok(first && second && third)
}

#[test]
fn counts_by_key(rt: HostRuntime) -> Result<(), Fail> {
    let table = counted(rt.alloc())?;
    assert!(rt; table.len() == 3 && table.function(2) == AggFn::Count);
    let is_counted = has_all_counts(rt.alloc(), &table)?;
    assert!(rt; is_counted);
    Ok(())
}

// How many levels the range has, if it is one, and it has these bounds and this step.
fn levels_of(lower: i32, upper: i32, step: u16) -> Option<u16> {
    let range = LinearRange::new(lower, upper, step)?;
    if (range.lower(), range.upper(), range.step()) != (lower, upper, step) {
        return None;
    }
    Some(range.levels())
}

// Bounds and steps, and how many levels these give.
const RANGES: [(i32, i32, u16, Option<u16>); 15] = [
    // one level for each whole step
    (0, 1, 1, Some(1)),
    (0, 10, 3, Some(3)),
    (0, 10, 10, Some(1)),
    (-5, 5, 2, Some(5)),
    (-1, 0, 1, Some(1)),
    (-2147483648, -2147483647, 1, Some(1)),
    // the most levels, by the narrowest and by the widest step
    (0, 65535, 1, Some(65535)),
    (-2147483648, 2147418111, 65535, Some(65535)),
    // a level too many, two too many, none
    (0, 65536, 1, None),
    (-2147483648, 2147418112, 65535, None),
    (-2147483648, 2147483647, 65535, None),
    (0, 10, 11, None),
    // equal bounds, bounds the other way round, no step
    (10, 10, 1, None),
    (10, 0, 1, None),
    (0, 10, 0, None),
];

#[test]
fn linear_ranges(rt: HostRuntime) {
    for (lower, upper, step, levels) in RANGES {
        let found = levels_of(lower, upper, step);
        assert_eq!(rt; found, levels, "{lower} {upper} {step}");
    }
}

// Adds each argument for the key.
fn add_all(table: &mut AggTable, key: &Key, args: &[i64]) -> Result<(), AllocError>
    requires agg { 0 < length (functions_of table.old) }
    requires few { length args.now ≤ 8 }
    requires room { count_held table.old ≡ 0 }
    ensures functions { functions_of table.new ≡ functions_of table.old }
    ensures held { count_held table.new ≤ 8 }
{
    for arg in args {
        table.add(0, key, *arg)?;
    }
    Ok(())
}

// A table of one function, with these arguments for the key of no parts.
fn table_of(alloc: Global, function: AggFn, args: &[i64]) -> Result<AggTable, AllocError>
    requires { length args.now ≤ 8 }
    ensures functions { IfOk result (λ t. functions_of t ≡ function ∷ []) }
    ensures held { IfOk result (λ t. count_held t ≤ 8) }
{
    let functions = vec![in alloc; function]?;
    let mut table = AggTable::new(alloc, functions)?;
    let key = Key::new(alloc);
    add_all(&mut table, &key, args)?;
    Ok(table)
}

// Merges a table with these arguments for the key of no parts.
fn merge_more(
    alloc: Global,
    table: &mut AggTable,
    function: AggFn,
    args: &[i64],
) -> Result<(), AllocError>
    requires functions { functions_of table.old ≡ function ∷ [] }
    requires held { count_held table.old ≤ 8 }
    requires few { length args.now ≤ 8 }
    ensures { functions_of table.new ≡ functions_of table.old }
{
    let more = table_of(alloc, function, args)?;
    table.merge(more)
}

// A table of one function with arguments, half of them merged.
fn table_of_both(
    alloc: Global,
    function: AggFn,
    first: &[i64],
    second: &[i64],
) -> Result<AggTable, AllocError>
    requires first { length first.now ≤ 8 }
    requires second { length second.now ≤ 8 }
    ensures { IfOk result (λ t. functions_of t ≡ function ∷ []) }
{
    let mut table = table_of(alloc, function, first)?;
    merge_more(alloc, &mut table, function, second)?;
    Ok(table)
}

// Whether the partial value shows this number.
fn shows(partial: &Partial, value: i64) -> bool {
    partial.single() == Some(value)
        && partial.rank() == i128::from(value)
        && partial.count_at(0) == 0
}

// Whether the first aggregation has one entry, which shows this number.
fn has_value(alloc: Global, table: &AggTable, value: i64) -> Result<bool, AllocError>
    requires { 0 < length (functions_of table.now) }
{
    let entries = table.entries(alloc, 0)?;
    let is_shown = entries.iter().all(|(_, partial)| shows(partial, value));
    Ok(is_shown && entries.len() == 1 && table.map(0).len() == 1)
}

// Whether a function makes this number of arguments, half of them merged.
fn gives(
    alloc: Global,
    function: AggFn,
    (first, second): (&[i64], &[i64]),
    value: i64,
) -> Result<bool, AllocError> {
    if first.len() > 8 || second.len() > 8 {
        return Ok(false);
    }
    let table = table_of_both(alloc, function, first, second)?;
    has_value(alloc, &table, value)
}

// A function, its arguments, and the number that it makes of them.
const VALUES: [(AggFn, (&[i64], &[i64]), i64); 10] = [
    (AggFn::Count, (&[7, 8, 9], &[7]), 4),
    (AggFn::Sum, (&[i64::MAX], &[1]), i64::MIN),
    (AggFn::Min, (&[7], &[5]), 5),
    (AggFn::Min, (&[7], &[]), 7),
    (AggFn::Min, (&[], &[7]), 7),
    (AggFn::Max, (&[-7], &[]), -7),
    (AggFn::Max, (&[-7, -9], &[-8]), -7),
    (AggFn::Avg, (&[-3], &[1, 1]), 0),
    (AggFn::Avg, (&[10], &[0, 0, 0]), 2),
    (AggFn::Avg, (&[-10], &[0, 0, 0]), -2),
];

#[test]
fn values_of_arguments(rt: HostRuntime) -> Result<(), Fail> {
    for (function, args, value) in VALUES {
        let is_value = gives(rt.alloc(), function, args, value)?;
        assert!(rt; is_value, "{function:?} {args:?}");
    }
    Ok(())
}

// Whether a bucket has this label and this count.
fn is_bucket(function: AggFn, partial: &Partial, (bucket, label, count): (u32, i64, u64)) -> bool {
    bucket < function.buckets()
        && function.label(bucket) == label
        && partial.count_at(bucket) == count
}

// Whether the histogram has these buckets and no more.
fn has_just(function: AggFn, partial: &Partial, buckets: &[(u32, i64, u64)]) -> bool {
    let Some(histogram) = partial.histogram() else {
        return false;
    };
    let Some((first, last)) = histogram.span() else {
        return false;
    };
    let mut all = 0u64;
    for (_, _, count) in buckets {
        all = all.wrapping_add(*count);
    }
    function.scale() == Some(histogram.scale())
        && histogram.total() == all
        && buckets.first().is_some_and(|bucket| bucket.0 == first)
        && buckets.last().is_some_and(|bucket| bucket.0 == last)
}

// Whether the partial value is the histogram of these buckets, and has this rank.
fn is_histogram(
    function: AggFn,
    partial: &Partial,
    buckets: &[(u32, i64, u64)],
    rank: i128,
) -> bool {
    partial.single().is_none()
        && partial.rank() == rank
        && has_just(function, partial, buckets)
        && buckets
            .iter()
            .all(|bucket| is_bucket(function, partial, *bucket))
}

// Whether each entry of the first aggregation is this histogram.
fn has_histogram(
    alloc: Global,
    table: &AggTable,
    function: AggFn,
    buckets: &[(u32, i64, u64)],
    rank: i128,
) -> Result<bool, AllocError>
    requires { 0 < length (functions_of table.now) }
{
    let entries = table.entries(alloc, 0)?;
    Ok(entries.iter().all(|(_, partial)| is_histogram(function, partial, buckets, rank)))
}

// Whether the histogram of the arguments, half of them merged, has these buckets and no more.
fn has_buckets(
    alloc: Global,
    function: AggFn,
    args: (&[i64], &[i64]),
    buckets: &[(u32, i64, u64)],
    rank: i128,
) -> Result<bool, AllocError> {
    let (first, second) = args;
    if first.len() > 8 || second.len() > 8 {
        return Ok(false);
    }
    let table = table_of_both(alloc, function, first, second)?;
    has_histogram(alloc, &table, function, buckets, rank)
}

#[test]
fn powers_of_two(rt: HostRuntime) -> Result<(), Fail> {
    let quantize = AggFn::Quantize;
    let few = [(63, 0, 1), (64, 1, 1), (65, 2, 2), (66, 4, 1)];
    let args = (&[0, 1, 2][..], &[3, 4][..]);
    let has_few = has_buckets(rt.alloc(), quantize, args, &few, 9)?;
    assert!(rt; has_few);
    let wide = [
        (0, -4611686018427387904, 1),
        (61, -2, 2),
        (62, -1, 1),
        (126, 4611686018427387904, 1),
    ];
    let args = (&[-1, -2, i64::MIN][..], &[i64::MAX, -3][..]);
    let has_wide = has_buckets(rt.alloc(), quantize, args, &wide, -5)?;
    assert!(rt; has_wide);
    Ok(())
}

#[test]
fn levels_of_a_range(rt: HostRuntime) -> Result<(), Fail> {
    let range = LinearRange::new(0, 10, 3).expect(&rt, "a range");
    let linear = AggFn::Lquantize(range);
    let levels = [(0, -1, 1), (1, 0, 1), (3, 6, 1), (4, 9, 2)];
    let args = (&[-1, 0, 8, 9][..], &[100][..]);
    let has_levels = has_buckets(rt.alloc(), linear, args, &levels, 23)?;
    assert!(rt; has_levels);
    assert_eq!(rt; linear.buckets(), 5);
    Ok(())
}

#[test]
fn histograms_have_buckets(rt: HostRuntime) {
    assert_eq!(rt; AggFn::Quantize.buckets(), 127);
    assert_eq!(rt; AggFn::Count.buckets(), 0);
    assert_eq!(rt; AggFn::Count.scale(), None);
}

// Whether each entry of the first aggregation counts one number in this bucket.
fn counts_one(alloc: Global, table: &AggTable, bucket: u32) -> Result<bool, AllocError>
    requires { 0 < length (functions_of table.now) }
{
    let entries = table.entries(alloc, 0)?;
    let is_counted = entries
        .iter()
        .all(|(_, partial)| partial.count_at(bucket) == 1);
    Ok(is_counted && entries.len() == 1)
}

// Whether one number is counted in this bucket.
fn is_in_bucket(
    alloc: Global,
    function: AggFn,
    number: i64,
    bucket: u32,
) -> Result<bool, AllocError> {
    let table = table_of(alloc, function, &[number])?;
    counts_one(alloc, &table, bucket)
}

const POWERS: [(i64, u32); 14] = [
    (i64::MIN, 0),
    (-4611686018427387904, 0),
    (-4611686018427387903, 1),
    (-3, 61),
    (-2, 61),
    (-1, 62),
    (0, 63),
    (1, 64),
    (2, 65),
    (3, 65),
    (4, 66),
    (4611686018427387903, 125),
    (4611686018427387904, 126),
    (i64::MAX, 126),
];

const LEVELS: [(i64, u32); 7] = [(-1, 0), (0, 1), (2, 1), (3, 2), (8, 3), (9, 4), (100, 4)];

// The first of these numbers that is counted in another bucket.
fn first_elsewhere(
    alloc: Global,
    function: AggFn,
    rows: &[(i64, u32)],
) -> Result<Option<i64>, AllocError> {
    for (number, bucket) in rows {
        let is_counted = is_in_bucket(alloc, function, *number, *bucket)?;
        if !is_counted {
            return Ok(Some(*number));
        }
    }
    Ok(None)
}

#[test]
fn buckets_of_numbers(rt: HostRuntime) -> Result<(), Fail> {
    let elsewhere = first_elsewhere(rt.alloc(), AggFn::Quantize, &POWERS)?;
    assert_eq!(rt; elsewhere, None);
    let range = LinearRange::new(0, 10, 3).expect(&rt, "a range");
    let elsewhere = first_elsewhere(rt.alloc(), AggFn::Lquantize(range), &LEVELS)?;
    assert_eq!(rt; elsewhere, None);
    Ok(())
}
