//! The bytes of a histogram.

ghost use Rattle.std.specs.Prelude.{◌≡◌, ◌<◌, ◌≤◌, ◌^◌, ◌+◌, ◌++◌, OnOk, length, replicate, sum};
ghost use Rattle.report.specs.Vocabulary.{buckets, decimal, flat_map, signed_decimal};
ghost use Rattle.report.specs.Columns.{at_left, at_right};
ghost use Rattle.report.specs.Histograms as spec;

use crate::columns::put_spaces;
use aggregations::{Histogram, Scale};
use itoa::Buffer;
use std::alloc::AllocError;

const HEADER: &[u8] = b"           value  ------------- Distribution ------------- count    \n";

const LABEL_WIDTH: usize = 16;

const BAR_WIDTH: usize = 40;

const COUNT_WIDTH: usize = 9;

const SIGNS: [u8; BAR_WIDTH] = [b'@'; BAR_WIDTH];

/// Puts a histogram: a line feed, the header, a row for each bucket that is shown, and a line feed.
pub fn put_histogram(out: &mut Vec<u8>, histogram: &Histogram) -> Result<(), AllocError>
    ensures { OnOk result (out.new.items ≡ out.old.items ++ spec.histogram_bytes histogram.now) }
{
    out.push(b'\n')?;
    out.extend_from_slice(HEADER)?;
    put_rows(out, histogram)?;
    out.extend_from_slice(b"\n")
}

// Puts the rows from one bucket before the first that has arguments to one after the last.
fn put_rows(out: &mut Vec<u8>, histogram: &Histogram) -> Result<(), AllocError>
    ensures { OnOk result (out.new.items
        ≡ out.old.items ++ flat_map
        (spec.row_bytes histogram.now.scale (sum histogram.now.counts))
        (spec.rows histogram.now)) }
{
    let Some((first, last)) = histogram.span() else {
        return Ok(());
    };
    let scale = histogram.scale();
    let all = histogram.total();
    let start = first.saturating_sub(1);
    let end = last.saturating_add(2).min(scale.buckets());
    for bucket in start..end {
        put_row(out, scale, bucket, histogram.count_at(bucket), all)?;
    }
    Ok(())
}

// Puts the row of a bucket, whose count is a part of all arguments.
fn put_row(
    out: &mut Vec<u8>,
    scale: Scale,
    bucket: u32,
    count: u64,
    all: u64,
) -> Result<(), AllocError>
    requires bucket { bucket < buckets scale }
    requires some { 0 < all }
    requires few { all ≤ 2 ^ 52 }
    requires share { count ≤ all }
    ensures { OnOk result (out.new.items
        ≡ out.old.items ++ spec.row_bytes scale all (bucket, count)) }
{
    put_label(out, scale, bucket)?;
    out.extend_from_slice(b" |")?;
    put_signs(out, ((80 * count + all) / (2 * all)) as usize)?;
    out.push(b' ')?;
    put_count(out, count)?;
    out.extend_from_slice(b"\n")
}

// The mark before the number of a bucket's label, and that number.
fn label(scale: Scale, bucket: u32) -> (&'static [u8], i64)
    requires { bucket < buckets scale }
    ensures value { spec.label_bytes scale bucket ≡ result.0.now ++ signed_decimal result.1 }
    ensures short { length result.0.now ≤ 3 }
{
    match scale {
        Scale::Powers => (b"".as_slice(), scale.label(bucket)),
        Scale::Steps(range) => {
            if bucket == 0 {
                (b"< ".as_slice(), i64::from(range.lower()))
            } else if bucket + 1 == scale.buckets() {
                (b">= ".as_slice(), scale.label(bucket))
            } else {
                (b"".as_slice(), scale.label(bucket))
            }
        }
    }
}

// Puts the label of a bucket at the right of its column.
fn put_label(out: &mut Vec<u8>, scale: Scale, bucket: u32) -> Result<(), AllocError>
    requires { bucket < buckets scale }
    ensures { OnOk result (out.new.items
        ≡ out.old.items ++ at_right 16 (spec.label_bytes scale bucket)) }
{
    let (mark, number) = label(scale, bucket);
    let mut buffer = Buffer::new();
    let digits = buffer.format(number).as_bytes();
    put_spaces(
        out,
        LABEL_WIDTH
            .saturating_sub(mark.len())
            .saturating_sub(digits.len()),
    )?;
    out.extend_from_slice(mark)?;
    out.extend_from_slice(digits)
}

// Puts a bar of this many signs.
fn put_signs(out: &mut Vec<u8>, signs: usize) -> Result<(), AllocError>
    requires { signs ≤ 40 }
    ensures { OnOk result (out.new.items ≡ out.old.items ++ at_left 40 (replicate signs 64)) }
{
    out.extend_from_slice(&SIGNS[..signs])?;
    put_spaces(out, BAR_WIDTH - signs)
}

// Puts a count at the left of its column.
fn put_count(out: &mut Vec<u8>, count: u64) -> Result<(), AllocError>
    ensures { OnOk result (out.new.items ≡ out.old.items ++ at_left 9 (decimal count)) }
{
    let mut buffer = Buffer::new();
    let digits = buffer.format(count).as_bytes();
    out.extend_from_slice(digits)?;
    put_spaces(out, COUNT_WIDTH.saturating_sub(digits.len()))
}
