//! From a recording to a trace.

ghost use Rattle.std.specs.Prelude.{OnOk, []};
ghost use Rattle.recording_rows.specs.Steps.Blocks.{Continues, Ends};
ghost use Rattle.recording_rows.specs.Written.{WritesOneTrace};

use crate::arguments::numbers;
use crate::call::{Call, Change, call_of, is_named};
use crate::fault::{ConvertFault, End, Halt};
use crate::ids::Id;
use crate::limits::{MAX_BETWEEN, MAX_BYTES};
use crate::line::{Event, Line};
use crate::processes::Processes;
use crate::resumed::{Rest, rests};
use crate::row::{ARGUMENTS, Arguments, Made, Owner, Row, Side};
use crate::rows::Rows;
use crate::words::Word;
use memchr::memchr_iter;
use std::alloc::{AllocError, Global};
use std::collections::BTreeMap;
use std::io;
use std::io::{ErrorKind, Read, Write};

/// Reads a recording to its end, and writes the rows of its lines up to the first that isn't known.
/// What is written is a trace, whatever was read. A recording is held whole, and a block of the
/// trace.
///
/// ```text
/// let end = convert(alloc, input, &mut output)?; // End::Whole, if all lines are known
/// ```
pub fn convert<R: Read + Drop, W: Write>(
    alloc: Global,
    input: R,
    output: &mut W,
) -> Result<End, ConvertFault>
    ensures { OnOk result (WritesOneTrace (W.contents output.old) (W.contents output.new)) }
{
    let recording = read(alloc, input)?;
    convert_recording(alloc, &recording, output)
}

// Reads a recording, up to the most bytes that are held.
fn read<R: Read + Drop>(alloc: Global, input: R) -> Result<Vec<u8>, ConvertFault> {
    let mut recording = Vec::new(alloc);
    let mut limited = input.take(MAX_BYTES);
    match limited.read_to_end(&mut recording) {
        Ok(_) => Ok(recording),
        Err(fault) => Err(read_fault(&fault)),
    }
}

// Why reading failed.
fn read_fault(fault: &io::Error) -> ConvertFault {
    match fault.kind() {
        ErrorKind::OutOfMemory => ConvertFault::Memory,
        _ => ConvertFault::Read,
    }
}

// Writes the trace that a recording makes.
fn convert_recording<W: Write>(
    alloc: Global,
    recording: &[u8],
    output: &mut W,
) -> Result<End, ConvertFault>
    ensures { OnOk result (WritesOneTrace (W.contents output.old) (W.contents output.new)) }
{
    let mut rows = Rows::new(alloc)?;
    let mut conversion = Conversion::new(alloc, recording)?;
    convert_lines(&mut conversion, &mut rows, recording, output)
}

// Writes the rows of a recording's lines.
fn convert_lines<'a, W: Write>(
    conversion: &mut Conversion<'a>,
    rows: &mut Rows,
    recording: &'a [u8],
    output: &mut W,
) -> Result<End, ConvertFault>
    requires { Ends [] rows.old }
    ensures { OnOk result (WritesOneTrace (W.contents output.old) (W.contents output.new)) }
{
    let mut line: u64 = 0;
    let mut begin = 0;
    for feed in memchr_iter(b'\n', recording) {
        let shown = recording.get(begin..feed).unwrap_or(b"");
        begin = feed.saturating_add(1);
        line = line.saturating_add(1);
        if !convert_line(conversion, rows, shown)? {
            return rows.end(output, End::Stopped { line });
        }
        rows.send_block(output)?;
    }
    let is_whole = begin >= recording.len() && (recording.len() as u64) < MAX_BYTES;
    let line = line.saturating_add(1);
    let end = if is_whole {
        End::Whole
    } else {
        End::Stopped { line }
    };
    rows.end(output, end)
}

// Adds the rows of a line, and returns whether that could be done.
#[inline(always)]
fn convert_line<'a>(
    conversion: &mut Conversion<'a>,
    rows: &mut Rows,
    shown: &'a [u8],
) -> Result<bool, AllocError>
    ensures { OnOk result (Continues rows.old rows.new) }
{
    match conversion.take(shown) {
        Ok(made) => rows.add(&made),
        Err(Halt::Unknown) => Ok(false),
        Err(Halt::Memory) => Err(AllocError),
    }
}

// A call that hasn't returned: when it began, and what is known of it.
#[derive(Clone, Copy)]
struct Begun<'a> {
    time: u64,
    call: Call<'a>,
}

// What lines say of those after them.
#[derive(Drop)]
struct Conversion<'a> {
    alloc: Global,
    rests: Vec<Option<Rest<'a>>>,
    processes: Processes<'a>,
    // The call that hasn't returned, by the number of its thread.
    begun: BTreeMap<u64, Begun<'a>>,
}

impl<'a> Conversion<'a> {
    // The start of a recording.
    fn new(alloc: Global, recording: &'a [u8]) -> Result<Conversion<'a>, AllocError> {
        Ok(Conversion {
            alloc,
            rests: rests(alloc, recording)?,
            processes: Processes::new(alloc),
            begun: BTreeMap::new(alloc),
        })
    }

    // The rows of the next line.
    fn take(&mut self, shown: &'a [u8]) -> Result<Made<'a>, Halt> {
        let line = Line::of(shown).ok_or(Halt::Unknown)?;
        match line.event {
            Event::Whole(name, shown) => self.whole(line, name, shown),
            Event::Begun(name, shown) => self.begin(line, name, shown),
            Event::Resumed(..) => self.resume(line.thread),
            Event::Ended => {
                self.begun.remove(&line.thread.number);
                Ok(Made::nothing())
            }
            Event::Signal => Ok(Made::nothing()),
        }
    }

    // A call on one line.
    fn whole(&mut self, line: Line<'a>, name: Word<'a>, shown: &'a [u8]) -> Result<Made<'a>, Halt> {
        if self.begun.contains_key(&line.thread.number) {
            return Err(Halt::Unknown);
        }
        let (arguments, call) = call_of(name, shown, shown).ok_or(Halt::Unknown)?;
        let entry = self.enter(line, name, call.change, arguments)?;
        let back = self.leave(entry.owner, line.time, call)?;
        Ok(Made {
            entry: Some(entry),
            back,
        })
    }

    // The first line of a call, whose entry shows what both of its lines do.
    fn begin(&mut self, line: Line<'a>, name: Word<'a>, shown: &'a [u8]) -> Result<Made<'a>, Halt> {
        if self.begun.contains_key(&line.thread.number) {
            return Err(Halt::Unknown);
        }
        let Some(Some(rest)) = self.rests.pop() else {
            return self.begin_alone(line, name, shown);
        };
        if rest.name != name.bytes || (is_named(name.bytes) && rest.lines > MAX_BETWEEN) {
            return Err(Halt::Unknown);
        }
        let mut whole = Vec::from_slice(self.alloc, shown)?;
        whole.extend_from_slice(rest.shown)?;
        let (arguments, call) = call_of(name, shown, &whole).ok_or(Halt::Unknown)?;
        let entry = self.enter(line, name, call.change, arguments)?;
        let time = line.time;
        self.begun.insert(line.thread.number, Begun { time, call })?;
        Ok(Made::entry(entry))
    }

    // The first line of a call that has no second one.
    fn begin_alone(
        &mut self,
        line: Line<'a>,
        name: Word<'a>,
        shown: &[u8],
    ) -> Result<Made<'a>, Halt> {
        if is_named(name.bytes) {
            return Err(Halt::Unknown);
        }
        let (arguments, rest) = numbers(shown).ok_or(Halt::Unknown)?;
        if rest.is_some() {
            return Err(Halt::Unknown);
        }
        let entry = self.enter(line, name, Change::None, arguments)?;
        Ok(Made::entry(entry))
    }

    // The second line of a call.
    fn resume(&mut self, thread: Id) -> Result<Made<'a>, Halt> {
        let Some(begun) = self.begun.remove(&thread.number) else {
            return Err(Halt::Unknown);
        };
        let owner = self.processes.owner(thread)?;
        let back = self.leave(owner, begun.time, begun.call)?;
        Ok(Made { entry: None, back })
    }

    // The entry of a call.
    fn enter(
        &mut self,
        line: Line<'a>,
        call: Word<'a>,
        change: Change<'a>,
        arguments: Arguments,
    ) -> Result<Row<'a>, Halt> {
        self.processes.enter(line.thread, change)?;
        let owner = self.processes.owner(line.thread)?;
        Ok(Row {
            owner,
            time: line.time,
            call,
            side: Side::Entry,
            arguments,
        })
    }

    // The return of a call that its owner began at this time, if it returns.
    fn leave(
        &mut self,
        owner: Owner<'a>,
        began: u64,
        call: Call<'a>,
    ) -> Result<Option<Row<'a>>, Halt> {
        let Some((value, error)) = call.outcome.returned else {
            return Ok(None);
        };
        let took = call.outcome.took.ok_or(Halt::Unknown)?;
        let time = began.checked_add(took).ok_or(Halt::Unknown)?;
        let owner = self.processes.return_from(owner, call.change)?;
        let mut arguments = [None; ARGUMENTS];
        arguments[0] = Some(value);
        arguments[1] = Some(error);
        Ok(Some(Row {
            owner,
            time,
            call: call.name,
            side: Side::Return,
            arguments,
        }))
    }
}
