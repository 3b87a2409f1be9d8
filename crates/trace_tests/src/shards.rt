//! Groups, boards and queues, at tables of calls and by real threads.

ghost use Rattle.std.specs.Prelude.{◌≡◌, ◌<◌, ◌≤◌, All, IfOk, vec_len};
ghost use Rattle.shard_queue.specs.Boards.{IsAt};
ghost use Rattle.shard_queue.specs.Queues.{IsIn};

use firing_reader::{TraceFault, read_trace};
use firings::Trace;
use shard_queue::{ClaimBoard, ClaimSeat, GroupFault, GroupQueue, Groups, QueueSeat};
use std::alloc::{AllocError, Global};
use std::process::Abort;
use std::sync::Wait;
use std::test::Fail;
use std::thread;

const HEADER: &str =
    "number,cpu,thread,pid,execname,time,provider,module,function,name,arg0,arg1,arg2,arg3,arg4,\
    arg5,arg6,arg7,arg8,arg9\n";

// A header, and a row of each of these threads.
fn rows_of(alloc: Global, threads: &[i32]) -> Result<String, AllocError> {
    let mut text = String::from_str(alloc, HEADER)?;
    for (i, thread) in threads.iter().enumerate() {
        let row = format!(in alloc; "{i}1,0,{thread},1,a,0,p,,f,hit,,,,,,,,,,\n")?;
        text.push_str(&row)?;
    }
    Ok(text)
}

// A trace in which these threads fire, in this order.
fn trace_of(alloc: Global, threads: &[i32]) -> Result<Trace, TraceFault> {
    let text = rows_of(alloc, threads)?;
    read_trace(alloc, text.as_bytes())
}

fn lists_of(alloc: Global, lists: &[&[i32]]) -> Result<Vec<Vec<i32>>, AllocError> {
    let mut all = Vec::new(alloc);
    for list in lists {
        let list = Vec::from_slice(alloc, list)?;
        all.push(list)?;
    }
    Ok(all)
}

// Threads that fired, into how many groups they are dealt, a thread, its group, and that group's
// indices.
const DEALT: [(&[i32], u32, i32, Option<u32>, &[u32]); 12] = [
    (&[9, 3, 9, 5], 2, 3, Some(0), &[1, 2, 3]),
    (&[9, 3, 9, 5], 2, 5, Some(1), &[4]),
    (&[9, 3, 9, 5], 2, 9, Some(0), &[1, 2, 3]),
    (&[9, 3, 9, 5], 2, 0, Some(2), &[0, 5]),
    (&[9, 3, 9, 5], 2, 4, None, &[]),
    (&[9, 3, 9, 5], 1, 5, Some(0), &[1, 2, 3, 4]),
    (&[9, 3, 9, 5], 1, 0, Some(1), &[0, 5]),
    (&[9, 3, 9, 5], 4096, 9, Some(2), &[1, 3]),
    (&[9, 3, 9, 5], 4096, 0, Some(4096), &[0, 5]),
    (&[2147483647, 1], 2, 2147483647, Some(1), &[1]),
    (&[], 2, 0, Some(2), &[0, 1]),
    (&[], 2, 1, None, &[]),
];

// The groups into which these threads are dealt.
fn deal(alloc: Global, fired: &[i32], groups: u32) -> Result<Groups, TraceFault>
    requires { (0 < groups) × (groups ≤ 4096) }
{
    let trace = trace_of(alloc, fired)?;
    let groups = Groups::deal(alloc, &trace, groups)?;
    Ok(groups)
}

// The group of a thread, if it has one, and the indices of that group.
fn group_and_indices(groups: &Groups, thread: i32) -> (Option<u32>, &[u32]) {
    match groups.group_of(thread) {
        Some(group) => (Some(group), groups.indices(group)),
        None => (None, &[]),
    }
}

#[test]
fn threads_are_dealt_in_turn(rt: HostRuntime) -> Result<(), Fail> {
    for (fired, count, thread, group, indices) in DEALT {
        let groups = deal(rt.alloc(), fired, count)?;
        let is_dealt = groups.len() == count as usize + 1
            && group_and_indices(&groups, thread) == (group, indices);
        assert!(rt; is_dealt, "thread {thread} of {count} groups");
    }
    Ok(())
}

// Threads that fired, lists of threads, and the fault of these, if they have one.
const LISTED: [(&[i32], &[&[i32]], Option<GroupFault>); 16] = [
    (
        &[1, 2],
        &[&[1], &[2, 1]],
        Some(GroupFault::Doubled { thread: 1 }),
    ),
    (&[1, 2], &[&[1]], Some(GroupFault::Missing { thread: 2 })),
    (
        &[1, 2],
        &[&[1], &[3], &[2]],
        Some(GroupFault::Stranger { thread: 3 }),
    ),
    (&[1, 2], &[&[], &[2], &[], &[1]], None),
    (&[1, 2], &[&[2, 1]], None),
    (&[1, 2], &[], Some(GroupFault::Missing { thread: 1 })),
    (&[], &[], None),
    (&[], &[&[1]], Some(GroupFault::Stranger { thread: 1 })),
    (
        &[1, 2],
        &[&[0, 1, 2]],
        Some(GroupFault::Stranger { thread: 0 }),
    ),
    (
        &[1, 2],
        &[&[1, 2], &[-1]],
        Some(GroupFault::Stranger { thread: -1 }),
    ),
    (
        &[1, 2],
        &[&[1, 1], &[3]],
        Some(GroupFault::Doubled { thread: 1 }),
    ),
    (
        &[1, 2],
        &[&[3], &[1, 1]],
        Some(GroupFault::Stranger { thread: 3 }),
    ),
    (
        &[1, 2],
        &[&[2], &[3, 3]],
        Some(GroupFault::Stranger { thread: 3 }),
    ),
    (&[1, 2], &[&[2, 2]], Some(GroupFault::Doubled { thread: 2 })),
    (&[3, 2, 1], &[&[3]], Some(GroupFault::Missing { thread: 1 })),
    (
        &[3, 2, 1],
        &[&[1], &[], &[2]],
        Some(GroupFault::Missing { thread: 3 }),
    ),
];

// The groups of a trace in which these threads fire, by these lists.
fn group_by(alloc: Global, fired: &[i32], lists: &[Vec<i32>]) -> Result<Groups, GroupFault> {
    let Ok(trace) = trace_of(alloc, fired) else {
        return Err(GroupFault::Memory);
    };
    Groups::from_lists(alloc, &trace, lists)
}

// The fault of these lists.
fn fault_of(
    alloc: Global,
    fired: &[i32],
    lists: &[&[i32]],
) -> Result<Option<GroupFault>, AllocError> {
    let lists = lists_of(alloc, lists)?;
    Ok(group_by(alloc, fired, &lists).err())
}

#[test]
fn lists_group_threads_or_have_a_first_fault(rt: HostRuntime) -> Result<(), Fail> {
    for (i, (fired, lists, fault)) in LISTED.iter().enumerate() {
        let found = fault_of(rt.alloc(), fired, lists)?;
        assert_eq!(rt; found, *fault, "row {i}");
    }
    Ok(())
}

// The groups of the threads 2, 1 and 2 by four lists, two of which are empty.
fn groups_of_two(alloc: Global) -> Result<Groups, GroupFault> {
    let lists = lists_of(alloc, &[&[], &[2], &[], &[1]])?;
    group_by(alloc, &[2, 1, 2], &lists)
}

#[test]
fn threads_are_in_the_group_of_their_list(rt: HostRuntime) -> Result<(), Fail> {
    let groups = groups_of_two(rt.alloc())?;
    assert_eq!(rt; groups.len(), 5);
    for (thread, found) in [
        (0, (Some(4), &[0, 4][..])),
        (1, (Some(3), &[2][..])),
        (2, (Some(1), &[1, 3][..])),
        (3, (None, &[][..])),
    ] {
        assert!(rt;
            group_and_indices(&groups, thread) == found,
            "thread {thread}"
        );
    }
    for group in [0, 2] {
        assert!(rt; groups.len() > 2 && groups.indices(group).is_empty());
    }
    Ok(())
}

// A list of the thread 1, and empty ones: as many lists as this.
fn many_lists(alloc: Global, count: usize) -> Result<Vec<Vec<i32>>, AllocError> {
    let mut lists = lists_of(alloc, &[&[1]])?;
    for _ in 1..count {
        lists.push(Vec::new(alloc))?;
    }
    Ok(lists)
}

// How many groups as many lists as this give.
fn count_groups(alloc: Global, count: usize) -> Result<usize, GroupFault> {
    let lists = many_lists(alloc, count)?;
    let groups = group_by(alloc, &[1], &lists)?;
    Ok(groups.len())
}

// The fault of 4,096 lists and one of a thread that is a stranger.
fn fault_of_a_list_too_many(alloc: Global) -> Result<Option<GroupFault>, AllocError> {
    let mut lists = many_lists(alloc, 4096)?;
    let list = Vec::from_slice(alloc, &[7])?;
    lists.push(list)?;
    Ok(group_by(alloc, &[1], &lists).err())
}

#[test]
fn more_than_4096_lists_are_too_many(rt: HostRuntime) -> Result<(), Fail> {
    assert_eq!(rt; count_groups(rt.alloc(), 4096), Ok(4097));
    // a list too many comes before a thread that is a stranger
    let fault = fault_of_a_list_too_many(rt.alloc())?;
    assert_eq!(rt; fault, Some(GroupFault::TooMany));
    Ok(())
}

// Two seats claim in turn.
fn claims_in_turn(board: &ClaimBoard, a: &mut ClaimSeat, b: &mut ClaimSeat) -> [Option<u32>; 6]
    requires a { IsAt board.now a.old }
    requires b { IsAt board.now b.old }
    ensures a { IsAt board.now a.new }
    ensures b { IsAt board.now b.new }
{
    [
        board.claim(a),
        board.claim(b),
        board.claim(a),
        board.claim(b),
        board.claim(b),
        board.claim(a),
    ]
}

const IN_TURN: [Option<u32>; 6] = [Some(0), Some(1), Some(2), None, None, None];

// Whether there are two lists, which have these numbers.
fn are_lists(lists: &[Vec<u32>], first: &[u32], second: &[u32]) -> bool {
    lists.len() == 2 && lists[0].as_slice() == first && lists[1].as_slice() == second
}

// What the two seats of a board claim in turn.
fn claimed_by_two(
    rt: &impl Abort,
    board: &ClaimBoard,
    seats: &mut Vec<ClaimSeat>,
) -> Result<[Option<u32>; 6], AllocError>
    requires at { All (IsAt board.now) seats.old.items }
    requires two { vec_len seats.old ≡ 2 }
    ensures at { IfOk result (λ _. All (IsAt board.now) seats.new.items) }
    ensures two { IfOk result (λ _. vec_len seats.new ≡ 2) }
{
    let mut b = seats.pop().expect(rt, "two seats");
    let mut a = seats.pop().expect(rt, "two seats");
    let claimed = claims_in_turn(board, &mut a, &mut b);
    seats.push(a)?;
    seats.push(b)?;
    Ok(claimed)
}

#[test]
fn two_seats_claim_three_groups(rt: HostRuntime) -> Result<(), Fail> {
    let (board, mut seats) = ClaimBoard::open(rt.alloc(), 3, 2)?;
    let claimed = claimed_by_two(&rt, &board, &mut seats)?;
    let closed = board.close(rt.alloc(), seats)?;
    assert!(rt; claimed == IN_TURN && closed.least == u64::MAX);
    assert!(rt; are_lists(&closed.lists, &[0, 2], &[1]));
    Ok(())
}

// What the first seat reads at first, and what both read after each has lowered the least number.
fn least_in_turn(board: &ClaimBoard, a: &mut ClaimSeat, b: &mut ClaimSeat) -> [u64; 3]
    requires a { IsAt board.now a.old }
    requires b { IsAt board.now b.old }
    ensures a { IsAt board.now a.new }
    ensures b { IsAt board.now b.new }
{
    let first = board.least(a);
    board.lower(a, 40);
    board.lower(b, 12);
    board.lower(a, 20);
    [first, board.least(a), board.least(b)]
}

// What the two seats of a board read, as `least_in_turn` has it.
fn least_by_two(
    rt: &impl Abort,
    board: &ClaimBoard,
    seats: &mut Vec<ClaimSeat>,
) -> Result<[u64; 3], AllocError>
    requires at { All (IsAt board.now) seats.old.items }
    requires two { vec_len seats.old ≡ 2 }
    ensures at { IfOk result (λ _. All (IsAt board.now) seats.new.items) }
    ensures two { IfOk result (λ _. vec_len seats.new ≡ 2) }
{
    let mut b = seats.pop().expect(rt, "two seats");
    let mut a = seats.pop().expect(rt, "two seats");
    let least = least_in_turn(board, &mut a, &mut b);
    seats.push(a)?;
    seats.push(b)?;
    Ok(least)
}

#[test]
fn least_is_shared_by_the_seats(rt: HostRuntime) -> Result<(), Fail> {
    let (board, mut seats) = ClaimBoard::open(rt.alloc(), 1, 2)?;
    let least = least_by_two(&rt, &board, &mut seats)?;
    let closed = board.close(rt.alloc(), seats)?;
    assert!(rt; least == [u64::MAX, 12, 12] && closed.least == 12);
    Ok(())
}

// Two seats take in turn.
fn takes_in_turn<R: Wait>(
    rt: &R,
    queue: &GroupQueue,
    a: &mut QueueSeat,
    b: &mut QueueSeat,
) -> [Option<u32>; 6]
    requires a { IsIn queue.now a.old }
    requires b { IsIn queue.now b.old }
    ensures a { IsIn queue.now a.new }
    ensures b { IsIn queue.now b.new }
{
    [
        queue.take(rt, a),
        queue.take(rt, b),
        queue.take(rt, a),
        queue.take(rt, b),
        queue.take(rt, b),
        queue.take(rt, a),
    ]
}

// What the two seats of a queue take in turn.
fn taken_by_two<R: Abort + Wait>(
    rt: &R,
    queue: &GroupQueue,
    seats: &mut Vec<QueueSeat>,
) -> Result<[Option<u32>; 6], AllocError>
    requires at { All (IsIn queue.now) seats.old.items }
    requires two { vec_len seats.old ≡ 2 }
    ensures at { IfOk result (λ _. All (IsIn queue.now) seats.new.items) }
    ensures two { IfOk result (λ _. vec_len seats.new ≡ 2) }
{
    let mut b = seats.pop().expect(rt, "two seats");
    let mut a = seats.pop().expect(rt, "two seats");
    let taken = takes_in_turn(rt, queue, &mut a, &mut b);
    seats.push(a)?;
    seats.push(b)?;
    Ok(taken)
}

#[test]
fn two_seats_take_three_groups(rt: HostRuntime) -> Result<(), Fail> {
    let (queue, mut seats) = GroupQueue::open(&rt, rt.alloc(), 3, 2)?;
    let taken = taken_by_two(&rt, &queue, &mut seats)?;
    let lists = queue.close(rt.alloc(), seats)?;
    assert!(rt; taken == IN_TURN && are_lists(&lists, &[0, 2], &[1]));
    Ok(())
}

// Claims until it is at the end.
fn claims_all(board: &ClaimBoard, mut seat: ClaimSeat) -> ClaimSeat
    requires { IsAt board.now seat }
    ensures { IsAt board.now result }
{
    for _ in 0..5000 {
        if board.claim(&mut seat).is_none() {
            break;
        }
    }
    seat
}

// Takes until it is at the end.
fn takes_all<R: Wait>(rt: &R, queue: &GroupQueue, mut seat: QueueSeat) -> QueueSeat
    requires { IsIn queue.now seat }
    ensures { IsIn queue.now result }
{
    for _ in 0..5000 {
        if queue.take(rt, &mut seat).is_none() {
            break;
        }
    }
    seat
}

// Whether the lists have the numbers below `end`, each once.
fn are_all_below(alloc: Global, lists: &[Vec<u32>], end: usize) -> Result<bool, AllocError> {
    let mut all = Vec::new(alloc);
    for list in lists {
        all.extend_from_slice(list)?;
    }
    all.sort()?;
    Ok(
        all.len() == end
            && all
                .iter()
                .enumerate()
                .all(|(i, number)| *number as usize == i),
    )
}

// Claims three times, whatever it is given.
fn claims_thrice(board: &ClaimBoard, mut seat: ClaimSeat) -> ClaimSeat
    requires { IsAt board.now seat }
    ensures { IsAt board.now result }
{
    let _ = board.claim(&mut seat);
    let _ = board.claim(&mut seat);
    let _ = board.claim(&mut seat);
    seat
}

#[test]
fn sixteen_seats_claim_one_group(rt: HostRuntime) -> Result<(), Fail> {
    let alloc = rt.alloc();
    let (board, seats) = ClaimBoard::open(alloc, 1, 16)?;
    let seats = thread::map_vec(&rt, seats, &|seat| claims_thrice(&board, seat))?;
    let closed = board.close(alloc, seats)?;
    assert_eq!(rt; closed.lists.len(), 16);
    let are_all = are_all_below(alloc, &closed.lists, 1)?;
    assert!(rt; are_all);
    Ok(())
}

#[test]
fn sixteen_threads_claim_each_group_once(rt: HostRuntime) -> Result<(), Fail> {
    let alloc = rt.alloc();
    for _ in 0..100 {
        let (board, seats) = ClaimBoard::open(alloc, 4096, 16)?;
        let seats = thread::map_vec(&rt, seats, &|seat| claims_all(&board, seat))?;
        let closed = board.close(alloc, seats)?;
        let are_all = are_all_below(alloc, &closed.lists, 4096)?;
        assert!(rt; are_all);
    }
    Ok(())
}

#[test]
fn sixteen_threads_take_each_group_once(rt: HostRuntime) -> Result<(), Fail> {
    let alloc = rt.alloc();
    for _ in 0..20 {
        let (queue, seats) = GroupQueue::open(&rt, alloc, 4096, 16)?;
        let seats = thread::map_vec(&rt, seats, &|seat| takes_all(&rt, &queue, seat))?;
        let lists = queue.close(alloc, seats)?;
        let are_all = are_all_below(alloc, &lists, 4096)?;
        assert!(rt; are_all);
    }
    Ok(())
}
