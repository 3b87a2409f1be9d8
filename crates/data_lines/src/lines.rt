//! The lines of a run.

ghost use Rattle.std.specs.Prelude.{◌≡◌, ◌++◌, IfOk, OnOk};
ghost use Rattle.data_lines.specs.{Texts.text_value};
ghost use Rattle.data_lines.specs.Lines as spec;

use crate::numbers::put_number;
use crate::texts::put_text;
use crate::values::{put_key, put_value};
use aggregations::{AggFn, Partial};
use d_values::Key;
use std::alloc::{AllocError, Global};

/// The first line.
pub const FIRST_LINE: &[u8] = b"{\"format\":\"dreplay-data\",\"version\":1}\n";

/// Puts the line of a text.
pub fn put_text_line(out: &mut Vec<u8>, firing: u64, text: &[u8]) -> Result<(), AllocError>
    ensures { OnOk result (out.new.items ≡ out.old.items ++ spec.text_line (firing, text.now)) }
{
    out.extend_from_slice(b"{\"kind\":\"text\",\"firing\":")?;
    put_number(out, firing)?;
    out.extend_from_slice(b",\"text\":")?;
    put_text(out, text)?;
    out.extend_from_slice(b"}\n")
}

// The function's word in scripts.
fn function_word(function: AggFn) -> &'static [u8]
    ensures { result.now ≡ spec.function_word function }
{
    match function {
        AggFn::Count => b"count",
        AggFn::Sum => b"sum",
        AggFn::Min => b"min",
        AggFn::Max => b"max",
        AggFn::Avg => b"avg",
        AggFn::Quantize => b"quantize",
        AggFn::Lquantize(_) => b"lquantize",
    }
}

// An aggregation's name in scripts.
fn written_name(alloc: Global, name: &[u8]) -> Result<Vec<u8>, AllocError>
    ensures { IfOk result (λ written. written.items ≡ spec.written_name name.now) }
{
    let mut written = Vec::from_slice(alloc, b"@")?;
    if name != b"_".as_slice() {
        written.extend_from_slice(name)?;
    }
    Ok(written)
}

// Puts an aggregation's name, as scripts write it.
fn put_name(alloc: Global, out: &mut Vec<u8>, name: &[u8]) -> Result<(), AllocError>
    ensures { OnOk result
        (out.new.items ≡ out.old.items ++ text_value (spec.written_name name.now)) }
{
    let written = written_name(alloc, name)?;
    put_text(out, &written)
}

// Puts what the lines of an aggregation begin with.
fn put_entry_head(
    alloc: Global,
    out: &mut Vec<u8>,
    index: usize,
    name: &[u8],
    function: AggFn,
) -> Result<(), AllocError>
    ensures { OnOk result
        (out.new.items ≡ out.old.items ++ spec.entry_head index name.now function) }
{
    out.extend_from_slice(b"{\"kind\":\"entry\",\"aggregation\":")?;
    put_number(out, index)?;
    out.extend_from_slice(b",\"name\":")?;
    put_name(alloc, out, name)?;
    out.extend_from_slice(b",\"function\":\"")?;
    out.extend_from_slice(function_word(function))?;
    out.extend_from_slice(b"\",\"key\":")
}

/// What the lines of an aggregation begin with.
pub fn entry_head(
    alloc: Global,
    index: usize,
    name: &[u8],
    function: AggFn,
) -> Result<Vec<u8>, AllocError>
    ensures { IfOk result (λ head. head.items ≡ spec.entry_head index name.now function) }
{
    let mut head = Vec::new(alloc);
    put_entry_head(alloc, &mut head, index, name, function)?;
    Ok(head)
}

/// Puts the line of an entry, after what the lines of its aggregation begin with.
pub fn put_entry_line(
    out: &mut Vec<u8>,
    head: &[u8],
    key: &Key,
    value: &Partial,
) -> Result<(), AllocError>
    ensures { OnOk result
        (out.new.items ≡ out.old.items ++ spec.entry_line head.now (key.now, value.now)) }
{
    out.extend_from_slice(head)?;
    put_key(out, key)?;
    out.extend_from_slice(b",\"value\":")?;
    put_value(out, value)?;
    out.extend_from_slice(b"}\n")
}

// Puts an exit: its firing and its status.
fn put_exit(out: &mut Vec<u8>, exit: Option<(u64, u8)>) -> Result<(), AllocError>
    ensures { OnOk result (out.new.items ≡ out.old.items ++ spec.exit_value exit) }
{
    let Some((firing, status)) = exit else {
        return out.extend_from_slice(b"null");
    };
    out.extend_from_slice(b"{\"firing\":")?;
    put_number(out, firing)?;
    out.extend_from_slice(b",\"status\":")?;
    put_number(out, status)?;
    out.extend_from_slice(b"}")
}

/// Puts the last line.
pub fn put_last_line(
    out: &mut Vec<u8>,
    exit: Option<(u64, u8)>,
    firings: u128,
) -> Result<(), AllocError>
    ensures { OnOk result (out.new.items ≡ out.old.items ++ spec.last_line exit firings) }
{
    out.extend_from_slice(b"{\"kind\":\"end\",\"exit\":")?;
    put_exit(out, exit)?;
    out.extend_from_slice(b",\"firings\":")?;
    put_number(out, firings)?;
    out.extend_from_slice(b"}\n")
}
