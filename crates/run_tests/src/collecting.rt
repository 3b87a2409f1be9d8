//! Calls of the collector that no run of the program shows: pieces of any groups.

ghost use Rattle.std.specs.Prelude.{IfOk};
ghost use Rattle.replay_core.specs.Collecting.{tables_of};
ghost use Rattle.replay_core.specs.Tables.{CanMerge};

use consumer::{Refusal, read_script};
use d_types::{TypedScript, check};
use keyed_hash::HashKey;
use replay_core::{CollectFault, Engine, Piece, collect, tree_lane};
use std::alloc::{AllocError, Global};
use std::test::Fail;

const COUNTS: &[u8] = b":::hit { @[execname] = count(); }";

// The groups that pieces are of, and why they are no whole of two groups.
const COLLECTED: [(&[u32], Option<CollectFault>); 5] = [
    (&[0, 0], Some(CollectFault::Twice { group: 0 })),
    (&[0, 2, 0], Some(CollectFault::Stranger { group: 2 })),
    (&[1], Some(CollectFault::Missing { group: 0 })),
    (&[0, 1], None),
    (&[1, 0], None),
];

// A piece of no firing for each of these groups.
fn pieces_of(
    alloc: Global,
    script: &TypedScript,
    groups: &[u32],
) -> Result<Vec<(u32, Piece)>, AllocError>
    ensures { IfOk result (λ pieces. CanMerge (tables_of pieces.items)) }
{
    let mut pieces = Vec::new(alloc);
    for group in groups {
        let lane = tree_lane(alloc, HashKey::of_seed(&[]), script)?;
        pieces.push((*group, lane.finish()))?;
    }
    Ok(pieces)
}

// Why pieces of these groups aren't a whole of two groups, if they aren't one.
fn fault_of(
    alloc: Global,
    script: &TypedScript,
    groups: &[u32],
) -> Result<Option<CollectFault>, AllocError> {
    let pieces = pieces_of(alloc, script, groups)?;
    Ok(collect(alloc, pieces, 2).err())
}

// The typed script of this text.
fn typed(alloc: Global, script: &[u8]) -> Result<TypedScript, Refusal> {
    let tree = read_script(alloc, script)?;
    let script = check(alloc, tree)?;
    Ok(script)
}

// The first row of the table that is collected otherwise.
fn first_wrong(alloc: Global, script: &TypedScript) -> Result<Option<usize>, AllocError> {
    for (row, (groups, fault)) in COLLECTED.iter().enumerate() {
        let found = fault_of(alloc, script, groups)?;
        if found != *fault {
            return Ok(Some(row));
        }
    }
    Ok(None)
}

#[test]
fn pieces_are_collected_by_their_groups(rt: HostRuntime) -> Result<(), Fail> {
    let script = typed(rt.alloc(), COUNTS)?;
    let wrong = first_wrong(rt.alloc(), &script)?;
    assert_eq!(rt; wrong, None);
    Ok(())
}
