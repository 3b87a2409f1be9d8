//! The trace so far, of which a block is held.

ghost use Rattle.std.specs.Prelude.{◌≡◌, IfOk, OnOk, []};
ghost use Rattle.std.specs.Io.KnownBytes.{Appends};

use crate::fault::{ConvertFault, End};
use crate::fields::put_row;
use crate::row::{Made, Row};
use firings::MAX_ROWS;
use std::alloc::{AllocError, Global};
use std::io::Write;

// The first line of a trace.
const HEADER: &[u8] = b"number,cpu,thread,pid,execname,time,provider,module,function,name,\
arg0,arg1,arg2,arg3,arg4,arg5,arg6,arg7,arg8,arg9\n";

// The bytes of a block that is written.
const ENOUGH: usize = 1 << 16;

/// The end of a trace that hasn't been written.
#[derive(Drop)]
pub(crate) struct Rows {
    block: Vec<u8>,
    // How many rows the trace has.
    count: u64,
}

impl Rows {
    ghost use Rattle.recording_rows.specs.Steps.Blocks.{Continues, Ends, Sends};

    /// A trace without rows.
    pub(crate) fn new(alloc: Global) -> Result<Rows, AllocError>
        ensures { IfOk result (λ r. Ends [] r) }
    {
        Ok(Rows {
            block: Vec::from_slice(alloc, HEADER)?,
            count: 0,
        })
    }

    /// Adds the rows of a line, and returns whether there was room for them.
    #[inline(always)]
    pub(crate) fn add(&mut self, made: &Made<'_>) -> Result<bool, AllocError>
        ensures { OnOk result (Continues self.old self.new) }
    {
        if !self.put(&made.entry)? {
            return Ok(false);
        }
        self.put(&made.back)
    }

    // Adds a row, if there is one. A trace that has as many as it may is full.
    fn put(&mut self, row: &Option<Row<'_>>) -> Result<bool, AllocError>
        ensures { OnOk result (Continues self.old self.new) }
    {
        let Some(row) = row else {
            return Ok(true);
        };
        if self.count >= u64::from(MAX_ROWS) {
            return Ok(false);
        }
        self.count += 1;
        put_row(&mut self.block, self.count, row)?;
        Ok(true)
    }

    /// Writes the block if it is large enough.
    #[inline(always)]
    pub(crate) fn send_block<W: Write>(&mut self, output: &mut W) -> Result<(), ConvertFault>
        ensures { OnOk result
            (Sends (W.contents output.old) (W.contents output.new) self.old self.new) }
    {
        if self.block.len() < ENOUGH {
            return Ok(());
        }
        self.send(output)
    }

    // Writes the block.
    fn send<W: Write>(&mut self, output: &mut W) -> Result<(), ConvertFault>
        ensures bytes { OnOk result
            (Appends (W.contents output.old) (W.contents output.new) self.old.block.items) }
        ensures empty { OnOk result (self.new.block.items ≡ []) }
        ensures count { self.new.count ≡ self.old.count }
    {
        match output.write_all(&self.block) {
            Ok(()) => {
                self.block.clear();
                Ok(())
            }
            Err(_) => Err(ConvertFault::Write),
        }
    }

    /// Writes all that is left, so that none stays in a buffer, and gives the end that this is.
    pub(crate) fn end<W: Write>(&mut self, output: &mut W, end: End) -> Result<End, ConvertFault>
        ensures bytes { OnOk result
            (Appends (W.contents output.old) (W.contents output.new) self.old.block.items) }
        ensures end { IfOk result (λ e. e ≡ end) }
    {
        self.send(output)?;
        match output.flush() {
            Ok(()) => Ok(end),
            Err(_) => Err(ConvertFault::Write),
        }
    }
}
