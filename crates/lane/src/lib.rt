// A rack pushed into a handle: it is brought to the handle's left end, and the cycle through the handle is turned by one place.
// specs/Lane.antt says what a handle's lane is and what holds of its racks, specs/Moves.antt how many moves that takes; `place` is the
// entry point.
#![tactic(auto)]

ghost use Rattle.std.specs.Prelude.{◌≡◌, ◌+◌, ◌-◌, ◌≤◌, ◌<◌, length};
ghost use Rattle.graph.specs.Rows.{row, Edge, Rows};
ghost use Rattle.breakdown.specs.Part.{Places};
ghost use Rattle.moving.specs.Journey.{Room, Trip};
ghost use Rattle.shunting.specs.Cleared.{Vacancy};
ghost use Rattle.lane.specs.Lane.{After};
ghost use Rattle.lane.specs.Lane.{LaneOn, LaneBeside, LaneClosed, LaneStage, LanePlacing, LaneFetched, LaneStacked, LaneKept};
ghost use Rattle.lane.specs.Lane.{next_rack, InLane, LaneOpen, LaneCarriable, LaneCarried};
ghost use Rattle.lane.specs.Moves.{open_moves, end_moves, carry_moves, fetch_moves, place_moves};

use graph::Route;
use moving::{Log, State};

// A handle: the row of the breakdown, how many positions the floor has, the places of the row from `start` up to `end` at which the
// handle's inner positions stand, its ends, `left` beside the first of them and `right` beside the last, and a position of the stage beside
// the right end.
#[derive(Clone, Copy)]
pub struct Lane {
    pub order: [u8; 64],
    pub positions: usize,
    pub start: usize,
    pub end: usize,
    pub left: usize,
    pub right: usize,
    pub beside: usize,
}

// Makes sure that the stage has a vacancy: where it has none, the right end is cleared, which lies in it.
fn open_stage(
    rows: &[u64; 64],
    lane: Lane,
    k: usize,
    state: State,
    log: &mut Log,
    tail: &mut [u8],
) -> State
    requires rows { Rows lane.positions rows.now }
    requires lane_on { LaneOn (Edge rows.now) lane }
    requires lane_stacked { LaneStacked lane k (row state.racks) }
    requires room { Room state log.old tail.old (open_moves lane.positions) }
    ensures trip { Trip rows.now (open_moves lane.positions) state tail.old result tail.new }
    ensures lane_kept { LaneKept lane k (row state.racks) (row result.racks) }
    ensures vacancy { Vacancy (LaneStage lane) (row result.racks) }
    ensures log_len_unchanged { length log.new ≡ length log.old }
{
    let n = lane.positions;
    let s = lane.start;
    let stage = breakdown::part(&lane.order, 0, s);
    if shunting::vacancies(&state.racks, n) & stage != 0 {
        return state;
    }
    let region = stage | breakdown::part(&lane.order, s + k, lane.end);
    let begun = State { logged: 0, ..state };
    shunting::clear_within(rows, n, region, lane.right, begun, log, tail)
}

// The position after place i of the handle that ends before place `end`: the next place's, or its right end.
fn after(order: &[u8; 64], i: usize, end: usize, right: usize) -> usize
    requires i_lt_end { i < end }
    requires end_bound { end ≤ 64 }
    ensures { After (row order.now) end right i result }
{
    if end <= i + 1 {
        return right;
    }
    usize::from(order[i + 1])
}

// Carries the rack at place q of the handle to the position beside the right end, and leaves everything else as it stands: the rack goes
// along the handle to the right end and on, and what else was moved for that is taken back.
fn carry(
    rows: &[u64; 64],
    lane: Lane,
    q: usize,
    state: State,
    log: &mut Log,
    tail: &mut [u8],
) -> State
    requires rows { Rows lane.positions rows.now }
    requires lane_on { LaneOn (Edge rows.now) lane }
    requires lane_beside { LaneBeside (Edge rows.now) lane }
    requires in_lane { InLane lane q }
    requires lane_carriable { LaneCarriable lane q (row state.racks) }
    requires room { Room state log.old tail.old (carry_moves lane.positions) }
    ensures trip { Trip rows.now (carry_moves lane.positions) state tail.old result tail.new }
    ensures lane_carried { LaneCarried lane q (row state.racks) (row result.racks) }
    ensures log_len_unchanged { length log.new ≡ length log.old }
{
    let n = lane.positions;
    let end = lane.end;
    let right = lane.right;
    let beside = lane.beside;
    let upper = sets::without(breakdown::part(&lane.order, 0, end), beside);
    let mut state = State { logged: 0, ..state };
    for i in q..end {
        let here = lane.order[i] as usize;
        let next = after(&lane.order, i, end, right);
        let free = sets::without(upper, here);
        state = shunting::clear_within(rows, n, free, next, state, log, tail);
        state = moving::make_move(here, next, state, log, tail);
    }
    let logged = state.logged;
    state = moving::make_move(right, beside, state, log, tail);
    turning::undo(0, logged, state, log, tail)
}

// The rack that comes next for the handle: the goal has it at the last place that is not stacked for.
fn next_rack(lane: Lane, k: usize, goal: &[u8; 64]) -> u8
    requires places { Places (row lane.order) lane.end }
    requires k_bound { k < lane.end - lane.start }
    ensures { result ≡ next_rack lane (row goal.now) k }
{
    let at = lane.end - k - 1;
    goal[lane.order[at] as usize]
}

// Clears the position beside the right end, and then the right end, with the stack and what lies behind the handle held.
fn open_end(
    rows: &[u64; 64],
    lane: Lane,
    k: usize,
    state: State,
    log: &mut Log,
    tail: &mut [u8],
) -> State
    requires rows { Rows lane.positions rows.now }
    requires lane_on { LaneOn (Edge rows.now) lane }
    requires lane_beside { LaneBeside (Edge rows.now) lane }
    requires lane_stacked { LaneStacked lane k (row state.racks) }
    requires room { Room state log.old tail.old (end_moves lane.positions) }
    ensures trip { Trip rows.now (end_moves lane.positions) state tail.old result tail.new }
    ensures lane_kept { LaneKept lane k (row state.racks) (row result.racks) }
    ensures lane_open { LaneOpen lane (row result.racks) }
    ensures log_len_unchanged { length log.new ≡ length log.old }
{
    let n = lane.positions;
    let s = lane.start;
    let beside = lane.beside;
    let stage = breakdown::part(&lane.order, 0, s);
    let region = stage | breakdown::part(&lane.order, s + k, lane.end);
    let begun = State { logged: 0, ..state };
    let aside = shunting::clear_within(rows, n, region, beside, begun, log, tail);
    let free = sets::without(region, beside);
    shunting::clear_within(rows, n, free, lane.right, aside, log, tail)
}

// Brings the next rack for the handle into the stage, where it is not there already. The k racks that are stacked stay, and so does what
// lies behind the handle.
fn fetch(
    rows: &[u64; 64],
    lane: Lane,
    k: usize,
    goal: &[u8; 64],
    state: State,
    log: &mut Log,
    tail: &mut [u8],
) -> State
    requires rows { Rows lane.positions rows.now }
    requires lane_on { LaneOn (Edge rows.now) lane }
    requires lane_beside { LaneBeside (Edge rows.now) lane }
    requires lane_placing { LanePlacing lane (row goal.now) k (row state.racks) }
    requires k_bound { k < lane.end - lane.start }
    requires vacancy { Vacancy (LaneStage lane) (row state.racks) }
    requires room { Room state log.old tail.old (fetch_moves lane.positions) }
    ensures trip { Trip rows.now (fetch_moves lane.positions) state tail.old result tail.new }
    ensures lane_fetched { LaneFetched lane (row goal.now) k (row result.racks) }
    ensures log_len_unchanged { length log.new ≡ length log.old }
{
    let n = lane.positions;
    let s = lane.start;
    let rack = next_rack(lane, k, goal);
    let stage = breakdown::part(&lane.order, 0, s);
    if sets::has(stage, moving::where_is(&state.racks, n, rack)) {
        return state;
    }
    let open = open_end(rows, lane, k, state, log, tail);
    let at = moving::where_is(&open.racks, n, rack);
    if sets::has(stage, at) {
        return open;
    }
    let q = breakdown::place_of(&lane.order, s, lane.end, at);
    carry(rows, lane, q, open, log, tail)
}

// Puts the next rack into the handle: brought to the left end, it enters the handle's first place as the cycle through the handle turns by
// one, and the stack moves up.
pub fn place(
    rows: &[u64; 64],
    lane: Lane,
    cycle: Route,
    k: usize,
    goal: &[u8; 64],
    state: State,
    log: &mut Log,
    tail: &mut [u8],
) -> State
    requires rows { Rows lane.positions rows.now }
    requires lane_on { LaneOn (Edge rows.now) lane }
    requires lane_beside { LaneBeside (Edge rows.now) lane }
    requires lane_closed { LaneClosed (Edge rows.now) lane cycle }
    requires lane_placing { LanePlacing lane (row goal.now) k (row state.racks) }
    requires k_bound { k < lane.end - lane.start }
    requires room { Room state log.old tail.old (place_moves lane.positions) }
    ensures trip { Trip rows.now (place_moves lane.positions) state tail.old result tail.new }
    ensures lane_placing_2 { LanePlacing lane (row goal.now) (k + 1) (row result.racks) }
    ensures log_len_unchanged { length log.new ≡ length log.old }
{
    let n = lane.positions;
    let left = lane.left;
    let rack = next_rack(lane, k, goal);
    let stage = breakdown::part(&lane.order, 0, lane.start);
    let opened = open_stage(rows, lane, k, state, log, tail);
    let fetched = fetch(rows, lane, k, goal, opened, log, tail);
    let begun = State {
        logged: 0,
        ..fetched
    };
    let from = moving::where_is(&begun.racks, n, rack);
    let brought = shunting::bring(rows, n, stage, from, left, begun, log, tail);
    let cleared = shunting::clear_within(
        rows,
        n,
        sets::without(stage, left),
        lane.right,
        brought,
        log,
        tail,
    );
    turning::turn(&cycle.at, cycle.size, cleared, log, tail)
}
