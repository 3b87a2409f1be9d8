//! Keys and what entries hold, as JSON values.

ghost use Rattle.std.specs.Prelude.{◌≡◌, ◌++◌, OnOk};
ghost use Rattle.data_lines.specs.{Json.comma_list};
ghost use Rattle.data_lines.specs.Values as spec;

use crate::numbers::put_number;
use crate::texts::put_text;
use aggregations::{Histogram, Partial, Scale};
use d_values::{Key, KeyPart};
use itoa::Integer;
use std::alloc::AllocError;

// Puts a part of a key.
fn put_part(out: &mut Vec<u8>, part: &KeyPart) -> Result<(), AllocError>
    ensures { OnOk result (out.new.items ≡ out.old.items ++ spec.part_value part.now) }
{
    match part {
        KeyPart::Number(number) => put_number(out, *number),
        KeyPart::Name(text) => put_text(out, text.as_bytes()),
    }
}

// Puts parts with commas between them.
fn put_parts(out: &mut Vec<u8>, parts: &[KeyPart]) -> Result<(), AllocError>
    ensures { OnOk result (out.new.items ≡ out.old.items ++ comma_list spec.part_value parts.now) }
{
    let [first, rest @ ..] = parts else {
        return Ok(());
    };
    put_part(out, first)?;
    for part in rest {
        out.push(b',')?;
        put_part(out, part)?;
    }
    Ok(())
}

/// Puts a key: an array of its parts.
pub fn put_key(out: &mut Vec<u8>, key: &Key) -> Result<(), AllocError>
    ensures { OnOk result (out.new.items ≡ out.old.items ++ spec.key_value key.now) }
{
    out.push(b'[')?;
    put_parts(out, key.parts())?;
    out.extend_from_slice(b"]")
}

// Puts a member that is a number, and a comma.
fn put_member<I: Integer>(out: &mut Vec<u8>, name: &[u8], number: I) -> Result<(), AllocError>
    ensures { OnOk result
        (out.new.items ≡ out.old.items ++ spec.number_member name.now (I.text number)) }
{
    out.push(b'"')?;
    out.extend_from_slice(name)?;
    out.extend_from_slice(b"\":")?;
    put_number(out, number)?;
    out.extend_from_slice(b",")
}

// Puts the members that give the levels of a range.
fn put_range(out: &mut Vec<u8>, scale: Scale) -> Result<(), AllocError>
    ensures { OnOk result (out.new.items ≡ out.old.items ++ spec.range_members scale) }
{
    let Scale::Steps(range) = scale else {
        return Ok(());
    };
    put_member(out, b"lower", range.lower())?;
    put_member(out, b"upper", range.upper())?;
    put_member(out, b"step", range.step())?;
    put_member(out, b"levels", range.levels())
}

// Puts a bucket: its label and its count.
fn put_bucket(out: &mut Vec<u8>, label: i64, count: u64) -> Result<(), AllocError>
    ensures { OnOk result (out.new.items ≡ out.old.items ++ spec.pair_value label count) }
{
    out.push(b'[')?;
    put_number(out, label)?;
    out.push(b',')?;
    put_number(out, count)?;
    out.extend_from_slice(b"]")
}

// Puts the buckets that have arguments, with commas between them.
fn put_buckets(out: &mut Vec<u8>, histogram: &Histogram) -> Result<(), AllocError>
    ensures { OnOk result (out.new.items ≡ out.old.items
        ++ comma_list (spec.bucket_value histogram.now) (spec.used_buckets histogram.now.counts)) }
{
    let Some((first, last)) = histogram.span() else {
        return Ok(());
    };
    let scale = histogram.scale();
    put_bucket(out, scale.label(first), histogram.count_at(first))?;
    let end = last.saturating_add(1).min(scale.buckets());
    for bucket in first + 1..end {
        let count = histogram.count_at(bucket);
        if count > 0 {
            out.push(b',')?;
            put_bucket(out, scale.label(bucket), count)?;
        }
    }
    Ok(())
}

// Puts a histogram.
fn put_histogram(out: &mut Vec<u8>, histogram: &Histogram) -> Result<(), AllocError>
    ensures { OnOk result (out.new.items ≡ out.old.items ++ spec.histogram_value histogram.now) }
{
    out.extend_from_slice(b"{")?;
    put_range(out, histogram.scale())?;
    out.extend_from_slice(b"\"counts\":[")?;
    put_buckets(out, histogram)?;
    out.extend_from_slice(b"]}")
}

// Puts a mean: its total and its number of arguments.
fn put_mean(out: &mut Vec<u8>, sum: i64, count: u64) -> Result<(), AllocError>
    ensures { OnOk result (out.new.items ≡ out.old.items ++ spec.mean_value sum count) }
{
    out.extend_from_slice(b"{\"sum\":")?;
    put_number(out, sum)?;
    out.extend_from_slice(b",\"count\":")?;
    put_number(out, count)?;
    out.extend_from_slice(b"}")
}

/// Puts the whole of what an entry holds.
pub fn put_value(out: &mut Vec<u8>, value: &Partial) -> Result<(), AllocError>
    ensures { OnOk result (out.new.items ≡ out.old.items ++ spec.entry_value value.now) }
{
    if let Some((sum, count)) = value.mean() {
        put_mean(out, sum, count)
    } else if let Some(number) = value.single() {
        put_number(out, number)
    } else if let Some(histogram) = value.histogram() {
        put_histogram(out, histogram)
    } else {
        Ok(())
    }
}
