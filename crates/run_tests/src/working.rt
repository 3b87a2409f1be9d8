//! One worker by itself, by calls that lend what it made.

use crate::replays::FOUR_HITS;
use consumer::{Refusal, read_script};
use d_types::{TypedScript, check};
use firing_reader::read_trace;
use firings::Trace;
use replay_core::{OpenGate, Piece, TreeLanes, work, work_until};
use shard_queue::{ClaimBoard, Groups};
use std::alloc::{AllocError, Global};
use std::sync::Wait;
use std::test::Fail;

const EXITS: &[u8] = b":::hit { trace(arg0); @ = count(); } :::hit / arg0 == 0 / { exit(1); }";

// The pieces of both threads' groups, by one worker, whether or not it ends at the first exit.
fn worked<R: Wait>(
    rt: &R,
    alloc: Global,
    script: &TypedScript,
    trace: &Trace,
    ends: bool,
) -> Result<Vec<(u32, Piece)>, AllocError> {
    let lanes = TreeLanes::new(script);
    let groups = Groups::deal(alloc, trace, 2)?;
    let (board, mut seats) = ClaimBoard::open(alloc, groups.len() as u32, 1)?;
    let Some(seat) = seats.pop() else {
        return Err(AllocError);
    };
    let (pieces, _) = if ends {
        work_until(rt, alloc, &board, seat, &lanes, trace, &groups, &OpenGate)?
    } else {
        work(rt, alloc, &board, seat, &lanes, trace, &groups, &OpenGate)?
    };
    Ok(pieces)
}

// The numbers that the first piece has, how many texts and aggregations, and its exit.
type Lent = (Vec<u64>, usize, usize, Option<(u64, u8)>);

fn lent(alloc: Global, pieces: &[(u32, Piece)]) -> Result<Lent, AllocError> {
    let Some((_, piece)) = pieces.first() else {
        return Err(AllocError);
    };
    let numbers = Vec::from_slice(alloc, piece.taken())?;
    Ok((
        numbers,
        piece.events().len(),
        piece.table().len(),
        piece.exit(),
    ))
}

// What the piece of the first thread lends.
fn lent_by<R: Wait>(rt: &R, alloc: Global, ends: bool) -> Result<Lent, Refusal> {
    let tree = read_script(alloc, EXITS)?;
    let script = check(alloc, tree)?;
    let trace = read_trace(alloc, FOUR_HITS)?;
    let pieces = worked(rt, alloc, &script, &trace, ends)?;
    let lent = lent(alloc, &pieces)?;
    Ok(lent)
}

#[test]
fn a_worker_makes_a_piece_of_all_firings(rt: HostRuntime) -> Result<(), Fail> {
    let (numbers, texts, tables, exit) = lent_by(&rt, rt.alloc(), false)?;
    assert_eq!(rt; numbers.as_slice(), [10, 20, 40].as_slice());
    assert_eq!(rt; texts, 3);
    assert_eq!(rt; tables, 1);
    assert!(rt; matches!(exit, Some((10, 1))));
    Ok(())
}

#[test]
fn a_watching_worker_ends_a_group_at_its_exit(rt: HostRuntime) -> Result<(), Fail> {
    let (numbers, texts, tables, exit) = lent_by(&rt, rt.alloc(), true)?;
    assert_eq!(rt; numbers.as_slice(), [10].as_slice());
    assert_eq!(rt; texts, 1);
    assert_eq!(rt; tables, 1);
    assert!(rt; matches!(exit, Some((10, 1))));
    Ok(())
}
