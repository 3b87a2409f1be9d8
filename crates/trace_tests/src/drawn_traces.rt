//! Random traces, each read in every way: by one worker, by csv alone, and in pieces.

ghost use Rattle.std.specs.Prelude.{◌≤◌};

use crate::traces::{HEADER, add_number, is_read, is_same, is_same_by_csv, whole_trace};
use firing_reader::{Reader, TraceFault, read_trace};
use firings::Trace;
use keyed_hash::HashKey;
use std::alloc::{AllocError, Global};
use std::ops::Range;
use std::random::RandomSource;
use std::test::Fail;
use std::thread::Threads;

/// How many traces are drawn.
const TRACES: u64 = 600;

/// Draws random numbers. The same seed gives the same numbers.
#[derive(Drop)]
pub(crate) struct Chance {
    pub(crate) state: u64,
}

impl Chance {
    /// A number below this, or 0.
    pub(crate) fn below(&mut self, most: usize) -> usize
        ensures { result ≤ most }
    {
        self.state = self
            .state
            .wrapping_mul(6_364_136_223_846_793_005)
            .wrapping_add(1_442_695_040_888_963_407);
        let drawn = (self.state >> 33) as usize;
        if most == 0 { 0 } else { drawn % most }
    }

    // Draws one of some choices.
    fn one_of(&mut self, choices: &[&'static str]) -> &'static str {
        let at = self.below(choices.len());
        *choices.get(at).unwrap_or(&"")
    }
}

// A field that a plain row has in a column.
fn plain(chance: &mut Chance, column: usize) -> &'static str {
    match column {
        2 | 4 => chance.one_of(&["0", "1", "007", "2147483647"]),
        3 => chance.one_of(&["1", "2", "19", "2147483647"]),
        6 => chance.one_of(&["0", "5", "18446744073709551609"]),
        7 => chance.one_of(&["syscall", "fbt", "p"]),
        5 | 8 | 9 | 10 => chance.one_of(&["", "a", "read", "ext4_file_read_iter", "a b", "µ-é"]),
        _ => chance.one_of(&[
            "",
            "",
            "0",
            "-1",
            "42",
            "00",
            "9223372036854775807",
            "-9223372036854775808",
        ]),
    }
}

// A field that is quoted, at a limit, or faulty.
fn other(chance: &mut Chance, column: usize) -> &'static str {
    match column {
        1 => chance.one_of(&[
            "0",
            "",
            "x",
            "-1",
            "4611686018427387905",
            "99999999999999999999",
        ]),
        2 | 3 | 4 => chance.one_of(&["\"1\"", "2147483648", "", "+1", " 1", "1\""]),
        6 => chance.one_of(&["18446744073709551615", "18446744073709551616", "\"7\"", ""]),
        7 => chance.one_of(&["dtrace", "\"dtrace\"", "dtrace\0"]),
        5 | 8 | 9 | 10 => chance.one_of(&[
            "\"a,b\"",
            "\"x\"\"y\"",
            "\"two\nlines\"",
            "a\0b",
            "a\"b",
            "\"open",
        ]),
        _ => chance.one_of(&[
            "\"-7\"",
            "-",
            "9223372036854775808",
            "-9223372036854775809",
            "1 ",
            "\"\"",
        ]),
    }
}

// A field of a row with this number. One in `rare` isn't plain.
fn field<'a>(chance: &mut Chance, column: usize, number: &'a str, rare: usize) -> &'a str {
    if chance.below(rare) == 1 {
        other(chance, column)
    } else if column == 1 {
        number
    } else {
        plain(chance, column)
    }
}

// Adds the fields of a row with this number.
fn add_fields(
    bytes: &mut Vec<u8>,
    chance: &mut Chance,
    number: &str,
    rare: usize,
) -> Result<(), AllocError> {
    let fields = if chance.below(rare) == 1 {
        19 + chance.below(3)
    } else {
        20
    };
    for column in 1..fields + 1 {
        let separator = if column == 1 { "" } else { "," };
        bytes.extend_from_slice(separator.as_bytes())?;
        let field = field(chance, column, number, rare);
        bytes.extend_from_slice(field.as_bytes())?;
    }
    Ok(())
}

// Adds a row with this number. The end of one row in `rare` isn't plain.
fn add_row(
    bytes: &mut Vec<u8>,
    chance: &mut Chance,
    number: &str,
    rare: usize,
) -> Result<(), AllocError> {
    let begin: &[u8] = if chance.below(rare) == 1 {
        b"\xef\xbb\xbf"
    } else {
        b""
    };
    bytes.extend_from_slice(begin)?;
    add_fields(bytes, chance, number, rare)?;
    let end = if chance.below(rare) == 1 {
        chance.one_of(&["\r\n", "\n\n", "\r", "", ",\n"])
    } else {
        "\n"
    };
    bytes.extend_from_slice(end.as_bytes())
}

// Adds up to 40 rows.
fn add_rows(
    alloc: Global,
    bytes: &mut Vec<u8>,
    chance: &mut Chance,
    rare: usize,
) -> Result<(), AllocError> {
    let mut number: u64 = 0;
    for _ in 0..chance.below(41) {
        let same = chance.below(rare) == 1;
        number = number.wrapping_add(if same { 0 } else { 1 + chance.below(3) as u64 });
        let digits = number.to_string(alloc)?;
        add_row(bytes, chance, &digits, rare)?;
    }
    Ok(())
}

/// A trace of up to 40 rows.
pub(crate) fn drawn_trace(alloc: Global, seed: u64) -> Result<Vec<u8>, AllocError> {
    let mut chance = Chance { state: seed };
    let rare = match seed % 4 {
        0 => 1,
        1 => 1000,
        2 => 300,
        _ => 60,
    };
    let mut bytes = whole_trace(alloc, HEADER, b"", b"")?;
    add_rows(alloc, &mut bytes, &mut chance, rare)?;
    Ok(bytes)
}

// Whether a drawn trace is read as csv alone reads it.
fn is_drawn_as_by_csv(alloc: Global, seed: u64) -> Result<bool, AllocError> {
    let bytes = drawn_trace(alloc, seed)?;
    match bytes.strip_prefix(HEADER) {
        Some(rows) => is_same_by_csv(alloc, rows),
        None => Ok(false),
    }
}

#[test]
fn drawn_traces_read_as_by_csv_alone(rt: HostRuntime) -> Result<(), Fail> {
    for seed in 0..TRACES {
        let is_same = is_drawn_as_by_csv(rt.alloc(), seed)?;
        assert!(rt; is_same, "trace {seed}");
    }
    Ok(())
}

// What as many workers as this read of a trace that a reader is given at once.
fn read_by<R: Threads + RandomSource>(
    rt: &R,
    alloc: Global,
    bytes: &[u8],
    workers: u32,
) -> Result<Trace, TraceFault> {
    let mut reader = Reader::new(alloc, HashKey::random(rt), workers, 1)?;
    reader.take(rt, bytes)?;
    reader.finish(rt)
}

// Whether a trace is read the same by as many workers as this, and by `read_trace`.
fn is_same_by<R: Threads + Sync + RandomSource>(
    rt: &R,
    alloc: Global,
    bytes: &[u8],
    workers: u32,
) -> bool {
    let alone = read_trace(alloc, bytes);
    let parted = read_by(rt, alloc, bytes, workers);
    is_same(&alone, &parted)
}

// The first of these numbers of workers by whom a trace is read otherwise than by one.
fn other_workers<R: Threads + Sync + RandomSource>(
    rt: &R,
    alloc: Global,
    bytes: &[u8],
    numbers: Range<u32>,
) -> Option<u32> {
    for workers in numbers {
        if !is_same_by(rt, alloc, bytes, workers) {
            return Some(workers);
        }
    }
    None
}

// The first number of up to 8 workers by whom a drawn trace is read otherwise than by one.
fn other_workers_of_drawn<R: Threads + Sync + RandomSource>(
    rt: &R,
    alloc: Global,
    seed: u64,
) -> Result<Option<u32>, AllocError> {
    let bytes = drawn_trace(alloc, seed)?;
    Ok(other_workers(rt, alloc, &bytes, 1..9))
}

#[test]
fn drawn_traces_read_the_same_in_pieces(rt: HostRuntime) -> Result<(), Fail> {
    for seed in 0..TRACES {
        let other = other_workers_of_drawn(&rt, rt.alloc(), seed)?;
        assert_eq!(rt; other, None, "trace {seed}");
    }
    Ok(())
}

// Whether a drawn trace has a fault.
fn is_refused(alloc: Global, seed: u64) -> Result<bool, AllocError> {
    let bytes = drawn_trace(alloc, seed)?;
    Ok(!is_read(alloc, &bytes))
}

#[test]
fn some_drawn_traces_have_a_fault(rt: HostRuntime) -> Result<(), Fail> {
    let mut refused: u32 = 0;
    for seed in 0..TRACES {
        let is_refused = is_refused(rt.alloc(), seed)?;
        if is_refused {
            refused = refused.wrapping_add(1);
        }
    }
    assert!(rt; 100 < refused && refused < 500, "{refused} refused");
    Ok(())
}

// How many rows are cut.
const ROWS: u64 = 200;

// Adds the plain fields of a row, after its number.
fn add_plain_fields(bytes: &mut Vec<u8>, chance: &mut Chance) -> Result<(), AllocError> {
    for column in 2..21 {
        bytes.push(b',')?;
        bytes.extend_from_slice(plain(chance, column).as_bytes())?;
    }
    bytes.push(b'\n')?;
    Ok(())
}

// A trace of `ROWS` plain rows, whose texts, times and arguments come again and again: pieces of it
// have some of their texts in common.
fn varied_rows(alloc: Global) -> Result<Vec<u8>, AllocError> {
    let mut chance = Chance { state: 7 };
    let mut bytes = whole_trace(alloc, HEADER, b"", b"")?;
    for number in 1..ROWS + 1 {
        add_number(alloc, &mut bytes, number)?;
        add_plain_fields(&mut bytes, &mut chance)?;
    }
    Ok(bytes)
}

// Whether the varied rows are read, and by up to 16 workers the same.
fn are_varied_rows_same<R: Threads + Sync + RandomSource>(
    rt: &R,
    alloc: Global,
) -> Result<bool, AllocError> {
    let bytes = varied_rows(alloc)?;
    Ok(is_read(alloc, &bytes) && other_workers(rt, alloc, &bytes, 1..17).is_none())
}

#[test]
fn plain_rows_read_the_same_in_pieces(rt: HostRuntime) -> Result<(), Fail> {
    let is_same = are_varied_rows_same(&rt, rt.alloc())?;
    assert!(rt; is_same);
    Ok(())
}

// A trace of `ROWS` plain rows.
fn plain_rows(alloc: Global) -> Result<Vec<u8>, AllocError> {
    let mut bytes = whole_trace(alloc, HEADER, b"", b"")?;
    for number in 1..ROWS + 1 {
        add_number(alloc, &mut bytes, number)?;
        bytes.extend_from_slice(b",0,1,1,a,0,p,,f,hit,0,7,,,,,,,,\n")?;
    }
    Ok(bytes)
}

// The first length at which a trace that ends there is read otherwise by four workers.
fn other_end<R: Threads + Sync + RandomSource>(
    rt: &R,
    alloc: Global,
    bytes: &[u8],
) -> Option<usize> {
    for end in HEADER.len()..bytes.len() + 1 {
        if !is_same_by(rt, alloc, &bytes[..end], 4) {
            return Some(end);
        }
    }
    None
}

// The first length at which a trace of plain rows that ends there is read otherwise by four
// workers.
fn other_end_of_rows<R: Threads + Sync + RandomSource>(
    rt: &R,
    alloc: Global,
) -> Result<Option<usize>, AllocError> {
    let bytes = plain_rows(alloc)?;
    Ok(other_end(rt, alloc, &bytes))
}

#[test]
fn cut_rows_read_the_same_in_four_pieces(rt: HostRuntime) -> Result<(), Fail> {
    let end = other_end_of_rows(&rt, rt.alloc())?;
    assert_eq!(rt; end, None);
    Ok(())
}
