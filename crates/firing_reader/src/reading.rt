//! Reading the rows of a trace.

ghost use Rattle.std.specs.Prelude.{◌≡◌, ◌≢◌, ◌⊎◌, ◌+◌, ◌++◌, ◌∷◌, [], Ok, Err, IfOk, IfErr};
ghost use Rattle.std.specs.Prelude.{MatchBool, MatchOption, drop};
ghost use Rattle.csv.specs.Reading.{records as records_of, default_config, strip_bom};
ghost use Rattle.firing_reader.specs.{Vocabulary.Memory};
ghost use Rattle.firing_reader.specs.Steps.Blocks.{Begins, IsFaultOf};
ghost use Rattle.firing_reader.specs.Steps.Left.{IsBetween, records_left};
ghost use Rattle.firing_reader.specs.Gives.{Gives, GivesBy};
ghost use Rattle.firing_reader.specs.Plain.{BeginsAtEnd, rows_after, rows_in};
ghost use Rattle.firing_reader.specs.Trace.{trace_of};

use crate::builder::FiringsBuilder;
use crate::fault::TraceFault;
use crate::header::{MARK, MIN_HEADER, after_mark, is_header};
use crate::plain::front::{begins_at_end, ends_at};
use crate::plain::take_plain;
use crate::records::{read_record, records_of};
use crate::row::read_next;
use crate::row_ends::end_of_rows;
use csv::{ByteRecord, Reader};
use firings::{MAX_ROWS, Trace};
use keyed_hash::HashKey;
use std::alloc::Global;

// Reads the records that are left, after firings that were read before.
fn read_by_csv(
    records: &mut Reader<&[u8]>,
    fields: &mut ByteRecord,
    firings: &mut FiringsBuilder,
) -> Result<(), TraceFault>
    requires { IsBetween records.old }
    ensures { GivesBy (λ _. firings.new) result
        (rows_after firings.old (records_left records.old)) }
{
    let mut args = [0; 10];
    for row in firings.len()..MAX_ROWS as usize {
        if !read_record(records, fields)? {
            return Ok(());
        }
        let firing = read_next(fields, &mut args, row as u32 + 1, firings.last_number())?;
        let Some(()) = firings.push(&firing) else {
            return Err(TraceFault::Memory);
        };
    }
    if read_record(records, fields)? {
        return Err(TraceFault::TooMany);
    }
    Ok(())
}

/// Reads all rows that are left, after firings that were read before: plain ones where they lie,
/// from the first other one on by csv. They begin at the end of the row before the first of them.
pub(crate) fn read_rest(firings: &mut FiringsBuilder, rows: &[u8]) -> Result<(), TraceFault>
    requires { BeginsAtEnd rows.now }
    ensures { GivesBy (λ _. firings.new) result (rows_in firings.old rows.now) }
{
    let rest = take_plain(firings, rows);
    let mut records = records_of(firings.alloc(), rest);
    let mut fields = ByteRecord::new(firings.alloc());
    read_by_csv(&mut records, &mut fields, firings)
}

// Reads the header and rows by csv. It returns false if there is no record.
fn read_records(firings: &mut FiringsBuilder, bytes: &[u8]) -> Result<bool, TraceFault>
    requires empty { firings.old ≡ [] }
    ensures read { IfOk result (λ found. MatchBool found (trace_of bytes.now ≡ Ok firings.new)
        ((records_of default_config (strip_bom bytes.now) ≡ []) × (firings.new ≡ []))) }
    ensures faulty { IfErr result (λ e. (e ≡ Memory) ⊎ ((trace_of bytes.now ≡ Err e)
        × (records_of default_config (strip_bom bytes.now) ≢ []))) }
{
    let mut records = records_of(firings.alloc(), bytes);
    let mut fields = ByteRecord::new(firings.alloc());
    if !read_record(&mut records, &mut fields)? {
        return Ok(false);
    }
    if !is_header(&fields) {
        return Err(TraceFault::Header);
    }
    read_by_csv(&mut records, &mut fields, firings)?;
    Ok(true)
}

/// Reads the header, after empty lines. It returns the index of the byte that ends its row, or None
/// if it isn't whole yet.
pub(crate) fn read_header(
    firings: &mut FiringsBuilder,
    bytes: &[u8],
) -> Result<Option<usize>, TraceFault>
    requires { firings.old ≡ [] }
    ensures found { IfOk result (λ found. MatchOption found (firings.new ≡ [])
        (λ end. Begins bytes.now firings.new (10 ∷ drop (end + 1) bytes.now)
        × BeginsAtEnd (drop end bytes.now))) }
    ensures fault { IfErr result (λ e. IsFaultOf e (λ tail. trace_of (bytes.now ++ tail))) }
{
    if bytes.len() <= MIN_HEADER {
        return Ok(None);
    }
    let text = after_mark(bytes);
    let enough = ends_at(text).saturating_add(MIN_HEADER);
    let end = bytes.len() - text.len() + end_of_rows(text, enough);
    if end <= MARK.len() || !begins_at_end(&bytes[end - 1..]) {
        return Ok(None);
    }
    if !read_records(firings, &bytes[..end])? {
        return Ok(None);
    }
    Ok(Some(end - 1))
}

/// Reads the bytes of a whole trace. If no row ends after the header, it is the last record, and
/// csv finds its end.
pub(crate) fn read_whole(firings: &mut FiringsBuilder, bytes: &[u8]) -> Result<(), TraceFault>
    requires empty { firings.old ≡ [] }
    ensures { GivesBy (λ _. firings.new) result (trace_of bytes.now) }
{
    if let Some(end) = read_header(firings, bytes)? {
        return read_rest(firings, &bytes[end..]);
    }
    if !read_records(firings, bytes)? {
        return Err(TraceFault::Header);
    }
    Ok(())
}

/// Reads a trace: CSV as the crate `csv` reads it by default, with the header and at most
/// `MAX_ROWS` rows. The answer is the trace that the bytes write, or its first fault, or
/// `TraceFault::Memory`. One worker reads it, and maps hash by a fixed key: a `Reader` takes a key
/// and a number of workers.
///
/// ```text
/// let trace = read_trace(alloc, &bytes)?; // the header and two rows
/// trace.firings().len(); // 2
/// read_trace(alloc, b""); // Err(TraceFault::Header)
/// ```
pub fn read_trace(alloc: Global, bytes: &[u8]) -> Result<Trace, TraceFault>
    ensures { Gives result (trace_of bytes.now) }
{
    let mut firings = FiringsBuilder::new(alloc, HashKey::of_seed(&[]))?;
    read_whole(&mut firings, bytes)?;
    Ok(Trace::of(firings.finish()))
}
