//! Traces that come in blocks, each cut in many ways: what is read is what `read_trace` reads of
//! all bytes at once.

use crate::drawn_traces::{Chance, drawn_trace};
use crate::traces::{
    HEADER, MIXED, OTHER_HEADER, QUOTED_HEADER, SECOND, is_read, is_same, whole_trace,
};
use firing_reader::{Reader, TraceFault, read_trace};
use firings::Trace;
use keyed_hash::HashKey;
use std::alloc::{AllocError, Global};
use std::test::Fail;
use std::thread::Threads;

// Reads a trace that comes in these blocks by this number of workers.
fn in_blocks_by<R: Threads>(
    rt: &R,
    alloc: Global,
    workers: u32,
    blocks: &[&[u8]],
    least: usize,
) -> Result<Trace, TraceFault> {
    let mut reader = Reader::new(alloc, HashKey::of_seed(&[]), workers, least)?;
    for block in blocks {
        reader.take(rt, block)?;
    }
    reader.finish(rt)
}

// Takes a block as the program does that reads the rows before it meanwhile.
fn take_beside<R: Threads>(
    rt: &R,
    reader: &mut Reader,
    kept: &mut Vec<u8>,
    block: &[u8],
) -> Result<(), AllocError> {
    reader.take_out_row(kept)?;
    kept.extend_from_slice(block)?;
    reader.read(rt)?;
    reader.take_block(kept)
}

// Reads the same, but each block comes while the rows before it are read.
fn in_blocks_beside<R: Threads>(
    rt: &R,
    alloc: Global,
    workers: u32,
    blocks: &[&[u8]],
    least: usize,
) -> Result<Trace, TraceFault> {
    let mut reader = Reader::new(alloc, HashKey::of_seed(&[]), workers, least)?;
    let mut kept = Vec::new(alloc);
    for block in blocks {
        take_beside(rt, &mut reader, &mut kept, block)?;
    }
    reader.finish(rt)
}

// How many workers read, how long each block is, and how many bytes are read at once at least.
type Way = (u32, usize, usize);

// Whether a trace that comes in these blocks is read as all of it at once.
fn is_same_in<R: Threads>(
    rt: &R,
    alloc: Global,
    bytes: &[u8],
    blocks: &[&[u8]],
    (workers, _, least): Way,
) -> bool {
    let whole = read_trace(alloc, bytes);
    let found = in_blocks_by(rt, alloc, workers, blocks, least);
    let beside = in_blocks_beside(rt, alloc, workers, blocks, least);
    is_same(&whole, &found) && is_same(&whole, &beside)
}

// Cuts a trace into blocks of this size.
fn blocks_of(alloc: Global, bytes: &[u8], size: usize) -> Result<Vec<&[u8]>, AllocError> {
    bytes.chunks(size.max(1)).collect(alloc)
}

// Cuts a trace into blocks of drawn sizes. Some are empty.
fn drawn_blocks<'a>(
    alloc: Global,
    chance: &mut Chance,
    bytes: &'a [u8],
) -> Result<Vec<&'a [u8]>, AllocError> {
    let mut blocks = Vec::new(alloc);
    let mut left = bytes;
    for _ in 0..bytes.len() {
        let (block, rest) = left.split_at(chance.below(200).min(left.len()));
        blocks.push(block)?;
        left = rest;
    }
    blocks.push(left)?;
    Ok(blocks)
}

// Whether a trace is read the same in this way.
fn is_same_by<R: Threads>(
    rt: &R,
    alloc: Global,
    bytes: &[u8],
    way: Way,
) -> Result<bool, AllocError> {
    let blocks = blocks_of(alloc, bytes, way.1)?;
    Ok(is_same_in(rt, alloc, bytes, &blocks, way))
}

// The first of these ways in which a trace is read otherwise.
fn other_way<R: Threads>(
    rt: &R,
    alloc: Global,
    bytes: &[u8],
    ways: &[Way],
) -> Result<Option<Way>, AllocError> {
    for way in ways {
        let is_same = is_same_by(rt, alloc, bytes, *way)?;
        if !is_same {
            return Ok(Some(*way));
        }
    }
    Ok(None)
}

// The first of these ways in which a drawn trace is read otherwise.
fn other_way_of_drawn<R: Threads>(
    rt: &R,
    alloc: Global,
    seed: u64,
    ways: &[Way],
) -> Result<Option<Way>, AllocError> {
    let bytes = drawn_trace(alloc, seed)?;
    other_way(rt, alloc, &bytes, ways)
}

const BY_ONE: [Way; 7] = [
    (1, 1, 1),
    (1, 2, 1),
    (1, 3, 1),
    (1, 7, 1),
    (1, 7, 300),
    (1, 64, 1),
    (1, 1000, 1),
];

#[test]
fn drawn_traces_read_the_same_in_blocks(rt: HostRuntime) -> Result<(), Fail> {
    for seed in 0..300 {
        let other = other_way_of_drawn(&rt, rt.alloc(), seed, &BY_ONE)?;
        assert_eq!(rt; other, None, "trace {seed}");
    }
    Ok(())
}

// Whether a drawn trace is read the same in blocks of drawn sizes.
fn is_same_in_drawn_blocks<R: Threads>(
    rt: &R,
    alloc: Global,
    seed: u64,
) -> Result<bool, AllocError> {
    let bytes = drawn_trace(alloc, seed)?;
    let mut chance = Chance { state: seed };
    let least = chance.below(100);
    let blocks = drawn_blocks(alloc, &mut chance, &bytes)?;
    Ok(is_same_in(rt, alloc, &bytes, &blocks, (1, 0, least)))
}

#[test]
fn drawn_traces_read_the_same_in_drawn_blocks(rt: HostRuntime) -> Result<(), Fail> {
    for seed in 0..300 {
        let is_same = is_same_in_drawn_blocks(&rt, rt.alloc(), seed)?;
        assert!(rt; is_same, "trace {seed}");
    }
    Ok(())
}

const BY_SEVERAL: [Way; 3] = [(2, 64, 300), (3, 1000, 1), (4, 1000, 2000)];

// Several workers read blocks of few rows, and of many.
#[test]
fn drawn_traces_read_the_same_in_blocks_by_several(rt: HostRuntime) -> Result<(), Fail> {
    for seed in 0..100 {
        let other = other_way_of_drawn(&rt, rt.alloc(), seed, &BY_SEVERAL)?;
        assert_eq!(rt; other, None, "trace {seed}");
    }
    Ok(())
}

// The first position at which a trace, cut in two there, is read otherwise.
fn first_other_cut<R: Threads>(rt: &R, alloc: Global, bytes: &[u8]) -> Option<usize> {
    for cut in 0..bytes.len() {
        let blocks = [&bytes[..cut], &bytes[cut..]];
        if !is_same_in(rt, alloc, bytes, &blocks, (1, 0, 1)) {
            return Some(cut);
        }
    }
    None
}

// The first position at which a trace of three pieces, cut in two there, is read otherwise.
fn first_other_cut_of<R: Threads>(
    rt: &R,
    alloc: Global,
    [head, first, rest]: [&[u8]; 3],
) -> Result<Option<usize>, AllocError> {
    let bytes = whole_trace(alloc, head, first, rest)?;
    Ok(first_other_cut(rt, alloc, &bytes))
}

const HEADED: [[&[u8]; 3]; 7] = [
    [b"", HEADER, MIXED],
    [b"\xef\xbb\xbf", HEADER, MIXED],
    [b"\xef\xbb\xbf", QUOTED_HEADER, MIXED],
    [b"\n\r\n\n", HEADER, MIXED],
    [
        b"\n\r\n\n",
        QUOTED_HEADER,
        b"1,0,1,1,a,0,p,,f,hit,\"\n\",0,0,0,0,0,0,0,0,0\n",
    ],
    [b"", OTHER_HEADER, MIXED],
    [HEADER, b"\xef\xbb\xbf", MIXED],
];

// A byte order mark, a header and rows, one of which has quotes, are cut at each byte.
#[test]
fn headers_and_rows_are_cut_anywhere(rt: HostRuntime) -> Result<(), Fail> {
    for (row, pieces) in HEADED.iter().enumerate() {
        let cut = first_other_cut_of(&rt, rt.alloc(), *pieces)?;
        assert_eq!(rt; cut, None, "row {row}");
    }
    Ok(())
}

// A row: how it begins, a byte that it has many times, how often, and how it ends.
type LongRow = (&'static [u8], u8, usize, &'static [u8]);

// A trace of this row and another.
fn long_row(alloc: Global, (front, byte, count, back): LongRow) -> Result<Vec<u8>, AllocError> {
    let mut bytes = whole_trace(alloc, HEADER, front, b"")?;
    for _ in 0..count {
        bytes.push(byte)?;
    }
    bytes.extend_from_slice(back)?;
    bytes.extend_from_slice(SECOND)?;
    Ok(bytes)
}

const IN_SHORT_BLOCKS: [Way; 3] = [(1, 1, 1), (1, 7, 1), (1, 64, 1)];

// Whether the trace of a long row is read, and the same in blocks that are shorter than the row.
fn is_long_row_same<R: Threads>(rt: &R, alloc: Global, row: LongRow) -> Result<bool, AllocError> {
    let bytes = long_row(alloc, row)?;
    let other = other_way(rt, alloc, &bytes, &IN_SHORT_BLOCKS)?;
    Ok(is_read(alloc, &bytes) && other.is_none())
}

const LONG_ROWS: [LongRow; 2] = [
    (
        b"1,0,1,1,a,0,p,,f,hit,",
        b'0',
        3000,
        b"7,0,0,0,0,0,0,0,0,0\n",
    ),
    (
        b"1,0,1,1,a,0,p,,\"",
        b'\n',
        200,
        b"\",hit,0,0,0,0,0,0,0,0,0,0\n",
    ),
];

// A row is longer than many blocks: one has a number after many zeros, one a text of line feeds in
// quotes.
#[test]
fn a_row_is_longer_than_blocks(rt: HostRuntime) -> Result<(), Fail> {
    for (at, row) in LONG_ROWS.iter().enumerate() {
        let is_same = is_long_row_same(&rt, rt.alloc(), *row)?;
        assert!(rt; is_same, "row {at}");
    }
    Ok(())
}
