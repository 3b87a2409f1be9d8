//! The bytes of an entry.

ghost use Rattle.std.specs.Prelude.{◌≡◌, ◌++◌, OnOk};
ghost use Rattle.report.specs.Vocabulary.{figure_of, flat_map};
ghost use Rattle.report.specs.Entry.{number_bytes, part_bytes, value_bytes, entry_bytes};

use crate::columns::put_spaces;
use crate::histograms::put_histogram;
use aggregations::Partial;
use d_values::{Key, KeyPart};
use itoa::Buffer;
use std::alloc::AllocError;

const NAME_WIDTH: usize = 50;

const NUMBER_WIDTH: usize = 16;

// Puts a text in its column.
fn put_name(out: &mut Vec<u8>, text: &[u8]) -> Result<(), AllocError>
    ensures { OnOk result (out.new.items ≡ out.old.items ++ part_bytes (KeyPart.Name text.now)) }
{
    out.extend_from_slice(b"  ")?;
    out.extend_from_slice(text)?;
    put_spaces(out, NAME_WIDTH.saturating_sub(text.len()))
}

// Puts a number in its column.
fn put_number(out: &mut Vec<u8>, number: i64) -> Result<(), AllocError>
    ensures { OnOk result (out.new.items ≡ out.old.items ++ number_bytes number) }
{
    let mut buffer = Buffer::new();
    let digits = buffer.format(number).as_bytes();
    out.push(b' ')?;
    put_spaces(out, NUMBER_WIDTH.saturating_sub(digits.len()))?;
    out.extend_from_slice(digits)
}

// Puts a part of a key.
fn put_part(out: &mut Vec<u8>, part: &KeyPart) -> Result<(), AllocError>
    ensures { OnOk result (out.new.items ≡ out.old.items ++ part_bytes part.now) }
{
    match part {
        KeyPart::Number(number) => put_number(out, *number),
        KeyPart::Name(text) => put_name(out, text.as_bytes()),
    }
}

// Puts the parts of a key one after the other.
fn put_key(out: &mut Vec<u8>, key: &Key) -> Result<(), AllocError>
    ensures { OnOk result (out.new.items ≡ out.old.items ++ flat_map part_bytes key.now) }
{
    for part in key.parts() {
        put_part(out, part)?;
    }
    Ok(())
}

// Puts what an entry shows: a number and a line feed, or a histogram.
fn put_value(out: &mut Vec<u8>, value: &Partial) -> Result<(), AllocError>
    ensures { OnOk result (out.new.items ≡ out.old.items ++ value_bytes (figure_of value.now)) }
{
    if let Some(number) = value.single() {
        put_number(out, number)?;
        out.extend_from_slice(b"\n")
    } else if let Some(histogram) = value.histogram() {
        put_histogram(out, histogram)
    } else {
        Ok(())
    }
}

/// Puts an entry: the parts of its key, and what it shows.
pub fn put_entry(out: &mut Vec<u8>, key: &Key, value: &Partial) -> Result<(), AllocError>
    ensures { OnOk result (out.new.items ≡ out.old.items ++ entry_bytes (key.now, value.now)) }
{
    put_key(out, key)?;
    put_value(out, value)
}
