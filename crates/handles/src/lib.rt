// The handles of a floor, settled one after another, the last first: racks are pushed into a handle like a stack, by bringing each to the
// handle's left end and turning a cycle through the handle by one place.
#![tactic(auto)]

ghost use Rattle.std.specs.Prelude.{true, ◌↔◌, ◌≡◌, ◌+◌, ◌-◌, ◌*◌, length};
ghost use Rattle.graph.specs.Rows.{row, Edge, Rows};
ghost use Rattle.breakdown.specs.Part.{Places};
ghost use Rattle.breakdown.specs.Answer.{BreaksDown};
ghost use Rattle.moving.specs.Journey.{Room, Space, Trip};
ghost use Rattle.moving.specs.Table.{Table};
ghost use Rattle.lane.specs.Lane.{BesideEnd, Agreed, Filled};
ghost use Rattle.lane.specs.Lane.{LaneOn, LaneClosed, LanePlacing};
ghost use Rattle.lane.specs.Lane.{LaneSettled};
ghost use Rattle.lane.specs.Moves.{place_moves, lane_moves};

use breakdown::Breakdown;
use graph::Route;
use lane::Lane;
use moving::{Log, State};

// A position of the stage beside the right end that is neither end.
fn beside_end(rows: &[u64; 64], lane: Lane) -> usize
    requires rows { Rows lane.positions rows.now }
    requires lane_on { LaneOn (Edge rows.now) lane }
    ensures { BesideEnd (Edge rows.now) (row lane.order) lane.start lane.left lane.right result }
{
    let stage = breakdown::part(&lane.order, 0, lane.start);
    sets::lowest(sets::without(rows[lane.right] & stage, lane.left))
}

// The cycle through the handle: its inner positions, then a shortest way from its right end to its left end through the stage.
fn close_cycle(rows: &[u64; 64], lane: Lane) -> Route
    requires rows { Rows lane.positions rows.now }
    requires lane_on { LaneOn (Edge rows.now) lane }
    ensures { LaneClosed (Edge rows.now) lane result }
{
    let s = lane.start;
    let stage = breakdown::part(&lane.order, 0, s);
    let Some(route) = graph::search(rows, stage, sets::only(lane.left), lane.right) else {
        unreachable!();
    };
    let way = route.at;
    let size = route.size;
    let inner = lane.end - s;
    let mut at = [0u8; 64];
    at[..inner].copy_from_slice(&lane.order[s..lane.end]);
    at[inner..inner + size].copy_from_slice(&way[..size]);
    Route {
        at,
        size: inner + size,
    }
}

// Do the places from s up to e hold what the goal has there?
fn is_settled(order: &[u8; 64], s: usize, e: usize, goal: &[u8; 64], racks: &[u8; 64]) -> bool
    requires { Places (row order.now) e }
    ensures { (result ≡ true) ↔ Agreed (row order.now) (row goal.now) (row racks.now) s e }
{
    for i in s..e {
        let p = order[i] as usize;
        if racks[p] != goal[p] {
            return false;
        }
    }
    true
}

// Settles a handle.
fn settle_handle(
    rows: &[u64; 64],
    lane: Lane,
    goal: &[u8; 64],
    state: State,
    log: &mut Log,
    tail: &mut [u8],
) -> State
    requires rows { Rows lane.positions rows.now }
    requires lane_on { LaneOn (Edge rows.now) lane }
    requires lane_placing { LanePlacing lane (row goal.now) 0 (row state.racks) }
    requires room { Room state log.old tail.old (lane_moves lane) }
    ensures trip { Trip rows.now (lane_moves lane) state tail.old result tail.new }
    ensures lane_settled { LaneSettled lane (row goal.now) (row result.racks) }
    ensures log_len_unchanged { length log.new ≡ length log.old }
{
    let s = lane.start;
    let e = lane.end;
    if is_settled(&lane.order, s, e, goal, &state.racks) {
        return state;
    }
    let lane = Lane {
        beside: beside_end(rows, lane),
        ..lane
    };
    let cycle = close_cycle(rows, lane);
    let mut state = state;
    for k in 0..e - s {
        state = lane::place(rows, lane, cycle, k, goal, state, log, tail);
    }
    state
}

// Settles all the handles of a breakdown, the last first.
pub fn settle_handles(
    rows: &[u64; 64],
    n: usize,
    breakdown: Breakdown,
    goal: &[u8; 64],
    state: State,
    tail: &mut [u8],
) -> State
    requires rows { Rows n rows.now }
    requires breaks_down { BreaksDown n (Edge rows.now) breakdown }
    requires table { Table n (row state.racks) }
    requires table_2 { Table n (row goal.now) }
    requires filled { Filled (row breakdown.order) (row goal.now) breakdown.ring n }
    requires space { Space state tail.old ((n - breakdown.ring) * place_moves n) }
    ensures trip { Trip rows.now ((n - breakdown.ring) * place_moves n) state tail.old result tail.new }
    ensures table_3 { Table n (row result.racks) }
    ensures agreed { Agreed (row breakdown.order) (row goal.now) (row result.racks) breakdown.ring n }
{
    let mut log = [0u16; moving::LOG];
    let mut state = state;
    for i in (0..breakdown.handles).rev() {
        let lane = Lane {
            order: breakdown.order,
            positions: n,
            start: breakdown.start[i] as usize,
            end: breakdown.start[i + 1] as usize,
            left: breakdown.left[i] as usize,
            right: breakdown.right[i] as usize,
            // Kept as a placeholder: `settle_handle` looks for that position, and only where the handle is not settled yet.
            beside: 0,
        };
        state = settle_handle(rows, lane, goal, state, &mut log, tail);
    }
    state
}
