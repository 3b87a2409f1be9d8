//! The rows of a trace as they are written.

ghost use Rattle.std.specs.Prelude.{◌≡◌, ◌<◌, ◌^◌, ◌∷◌, ◌++◌, [], All, codes, map, OnOk};
ghost use Rattle.std.specs.Fmt.{decimal};
ghost use Rattle.recording_rows.specs.Steps.Rows.{IsArgument, IsRow, after_commas, argument_text};
ghost use Rattle.recording_rows.specs.Steps.Rows.{line_of, owner_fields, row_fields, side_word};

use crate::row::{Owner, Row, Side};
use itoa::{Buffer, Integer};
use std::alloc::AllocError;

impl Side {
    // The name of its probe.
    fn word(self) -> &'static [u8]
        ensures { result.now ≡ side_word self }
    {
        match self {
            Side::Entry => b"entry",
            Side::Return => b"return",
        }
    }
}

// Puts a number in decimal.
#[inline(always)]
fn put_number<I: Integer>(out: &mut Vec<u8>, number: I) -> Result<(), AllocError>
    ensures { OnOk result (out.new.items ≡ out.old.items ++ I.text number) }
{
    let mut buffer = Buffer::new();
    out.extend_from_slice(buffer.format(number).as_bytes())
}

// Puts a field that has this number.
#[inline(always)]
fn put_count(out: &mut Vec<u8>, number: u64) -> Result<(), AllocError>
    ensures bytes { OnOk result
        (out.new.items ≡ out.old.items ++ after_commas (decimal number ∷ [])) }
    ensures fits { number < 2 ^ 64 }
{
    out.push(b',')?;
    put_number(out, number)
}

// Puts a field that has this text.
#[inline(always)]
fn put_text(out: &mut Vec<u8>, text: &[u8]) -> Result<(), AllocError>
    ensures { OnOk result (out.new.items ≡ out.old.items ++ after_commas (text.now ∷ [])) }
{
    out.push(b',')?;
    out.extend_from_slice(text)
}

// Puts an argument's field, which is empty if there is none.
#[inline(always)]
fn put_argument(out: &mut Vec<u8>, argument: Option<i64>) -> Result<(), AllocError>
    ensures bytes { OnOk result
        (out.new.items ≡ out.old.items ++ after_commas (argument_text argument ∷ [])) }
    ensures fits { IsArgument argument }
{
    out.push(b',')?;
    match argument {
        Some(number) => put_number(out, number),
        None => Ok(()),
    }
}

// Puts the fields of arguments.
fn put_arguments(out: &mut Vec<u8>, arguments: &[Option<i64>]) -> Result<(), AllocError>
    ensures bytes { OnOk result (out.new.items
        ≡ out.old.items ++ after_commas (map argument_text arguments.now)) }
    ensures fit { OnOk result (All IsArgument arguments.now) }
{
    for argument in arguments {
        put_argument(out, *argument)?;
    }
    Ok(())
}

// Puts the fields from cpu to execname.
fn put_owner(out: &mut Vec<u8>, owner: &Owner<'_>) -> Result<(), AllocError>
    ensures { OnOk result
        (out.new.items ≡ out.old.items ++ after_commas (owner_fields owner.now)) }
{
    out.extend_from_slice(b",0")?;
    put_count(out, owner.thread.number)?;
    put_count(out, owner.process.number)?;
    put_text(out, owner.program.bytes)
}

// Puts the fields from time to name.
fn put_probe(out: &mut Vec<u8>, row: &Row<'_>) -> Result<(), AllocError>
    ensures time { row.now.time < 2 ^ 64 }
    ensures bytes { OnOk result (out.new.items ≡ out.old.items ++ after_commas (decimal row.now.time
        ∷ codes "syscall" ∷ [] ∷ row.now.call.bytes.now ∷ side_word row.now.side ∷ [])) }
{
    put_count(out, row.time)?;
    out.extend_from_slice(b",syscall,")?;
    put_text(out, row.call.bytes)?;
    put_text(out, row.side.word())
}

/// Puts the row with this number.
pub(crate) fn put_row(out: &mut Vec<u8>, number: u64, row: &Row<'_>) -> Result<(), AllocError>
    ensures bytes { OnOk result
        (out.new.items ≡ out.old.items ++ line_of (row_fields number row.now)) }
    ensures types { OnOk result (IsRow row.now) }
{
    put_number(out, number)?;
    put_owner(out, &row.owner)?;
    put_probe(out, row)?;
    put_arguments(out, &row.arguments)?;
    out.extend_from_slice(b"\n")
}
