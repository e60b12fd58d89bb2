// The planner with a search beside it: the proved method's plan is made, a search looks for another one within a fixed budget, and the one
// with the shorter timetable stays: crate `comparing` says when that is the search's. `make` is the entry point, and promises what the
// proved method promises.
#![tactic(auto)]

ghost use Rattle.std.specs.Prelude.{◌≤◌, length, IfSome};
ghost use Rattle.planner.specs.Planner.{PlanMade, answer_of};

use answers::Refusal;

// So many bytes of the buffer are kept while the proved method's plan stands there, at the most. A longer plan stays.
const KEPT: usize = 262144;

// The bytes of the longest record that the search's moves are listed in.
const RECORD: usize = 9219;

// The moves that were found as a plan record of edition two, each with the rack that it takes, and how many bytes it has, unless a move
// takes none. Whether they make a plan is not judged here.
fn list(found: &[u16; 4096], k: usize, starts: [u8; 64], room: &mut [u8]) -> Option<usize>
    requires { (k ≤ 4096) × (9219 ≤ length room.old) }
    ensures { IfSome result (λ n. n ≤ length room.new) }
{
    let mut racks = starts;
    for j in 0..k {
        let step = found[j];
        let a = field::first_of(step);
        let b = field::second_of(step);
        let rack = racks[a];
        let number = usize::from(rack);
        if number == 0 || number > 64 {
            return None;
        }
        recording::put_listed(&mut room[3..], true, j, a, b, number);
        racks[a] = 0;
        racks[b] = rack;
    }
    recording::put_head(room, k, 1);
    Some(3 + (9 * k + 3) / 4)
}

// The record of what the search finds for an order on n positions, from what it was decoded to, and how many bytes it has, if it finds
// anything.
fn candidate(
    n: usize,
    rows: &[u64; 64],
    starts: [u8; 64],
    goals: &[u8; 64],
    room: &mut [u8; RECORD],
) -> Option<usize>
    ensures { IfSome result (λ n. n ≤ length room.new) }
{
    let mut found = [0u16; 4096];
    let k = searching::search(n, rows, &starts, goals, &mut found);
    if k == 0 {
        return None;
    }
    list(&found, k, starts, room)
}

// How many bytes of a buffer are kept for an order: as many as a plan for it may take, if there is room for them. None for a ring, which
// has as many edges as positions: there is no search there, since the proved method drives each rack straight to its goal.
fn kept_length(order: &[u8], length: usize) -> usize
    ensures { (result ≤ length) × (result ≤ 262144) }
{
    if order.len() < 3 {
        return 0;
    }
    let counts = order::counts_of(order);
    let n = counts.positions;
    if counts.edges == n {
        return 0;
    }
    (18 * (n * (n * n)) + 3).min(KEPT).min(length)
}

// The proved method's plan, or the search's. What stands in the buffer where the method writes its plan is kept first, as many bytes as
// are asked for, so that nothing of that plan stays behind a shorter one; a plan that takes more of them stays. The order is decoded once,
// for the method and the search.
fn make_beside(
    order: &[u8],
    saved: usize,
    kept: &mut [u8],
    buffer: &mut [u8],
) -> Result<usize, Refusal>
    requires { (saved ≤ length kept.old) × (saved ≤ length buffer.old) }
    ensures { PlanMade order.now buffer.old (answer_of result) buffer.new }
{
    kept[..saved].copy_from_slice(&buffer[..saved]);
    let mut rows = [0u64; 64];
    let mut starts = [0u8; 64];
    let mut goals = [0u8; 64];
    let k = planner::make_on(order, &mut rows, &mut starts, &mut goals, buffer)?;
    let length = 3 + (9 * k + 3) / 4;
    if saved < length || k == 0 {
        return Ok(k);
    }
    let mut room = [0u8; RECORD];
    let n = order::counts_of(order).positions;
    let Some(found) = candidate(n, &rows, starts, &goals, &mut room) else {
        return Ok(k);
    };
    let moves = comparing::take_better(order, &kept[..length], &room[..found], k, buffer);
    Ok(moves)
}

// 10 to 14, 20, 21, 24, 26 and 23, or a plan: its record at the front of the buffer, in edition two, and how many moves it has.
pub fn make(order: &[u8], buffer: &mut [u8]) -> Result<usize, Refusal>
    ensures { PlanMade order.now buffer.old (answer_of result) buffer.new }
{
    let saved = kept_length(order, buffer.len());
    if saved == 0 {
        return planner::make(order, buffer);
    }
    let mut kept = [0u8; KEPT];
    make_beside(order, saved, &mut kept, buffer)
}
