// From one arrangement of a floor to another: the heart of the planner. Whatever the two are, a floor with a breakdown leads from the one
// to the other in at most 4 × n × n × n moves.
#![tactic(auto)]

ghost use Rattle.std.specs.Prelude.{◌≡◌, ◌+◌, ◌-◌, ◌*◌, ◌≤◌, length};
ghost use Rattle.graph.specs.Connected.{BiConnected};
ghost use Rattle.graph.specs.Rows.{row, Edge, Rows};
ghost use Rattle.breakdown.specs.Answer.{BreaksDown};
ghost use Rattle.moving.specs.Went.{Same};
ghost use Rattle.moving.specs.Journey.{Room, Space, Trip};
ghost use Rattle.moving.specs.Table.{Table};
ghost use Rattle.base_ring.specs.Circle.{Open};
ghost use Rattle.base_ring.specs.From.{circle_of};
ghost use Rattle.solving.specs.Shift.{aimed, TwoPositions, Shift};
ghost use Rattle.solving.specs.Placed.{Placed, Filled, with_stand_ins};
ghost use Rattle.solving.specs.Moves.{shift_moves, settle_moves, solve_moves};

use base_ring::Circle;
use breakdown::Breakdown;
use moving::{Log, State};

// Shifts the goal so that x and `next` are vacant in it. What leads there is logged, and no move of it is written: no rack is real here.
fn shift_goal(
    rows: &[u64; 64],
    n: usize,
    x: usize,
    next: usize,
    goal: &[u8; 64],
    back: &mut Log,
    tail: &mut [u8],
) -> State
    requires rows { Rows n rows.now }
    requires bi_connected { BiConnected n (Edge rows.now) }
    requires two_positions { TwoPositions n x next }
    requires table { Table n (row goal.now) }
    requires room { Room (aimed goal.now) back.old tail.old (shift_moves n) }
    ensures shift { Shift n rows.now x next goal.now result back.new }
    ensures tail_unchanged { tail.new ≡ tail.old }
{
    let aim = State {
        racks: *goal,
        real: 0,
        written: 0,
        logged: 0,
    };
    let all = sets::below(n);
    let cleared = shunting::clear_within(rows, n, all, x, aim, back, tail);
    shunting::clear_within(rows, n, sets::without(all, x), next, cleared, back, tail)
}

// Fills the vacancies beyond two with stand-ins, racks m + 1 and up, the lowest position first.
pub fn fill(n: usize, m: usize, racks: &mut [u8; 64])
    requires n_bound { n ≤ 64 }
    requires m_bound { m + 2 ≤ n }
    requires placed { Placed n m (row racks.old) }
    requires racks_len { length racks.old ≡ 64 }
    ensures table { Table n (row racks.new) }
    ensures filled { Filled m (row racks.old) (row racks.new) }
    ensures racks_len_2 { length racks.new ≡ 64 }
    ensures racks_after { racks.new ≡ with_stand_ins n m racks.old }
{
    let mut vacant = shunting::vacancies(racks, n);
    for stand_in in m + 1..n - 1 {
        let p = sets::lowest(vacant);
        racks[p] = stand_in as u8;
        vacant = sets::without(vacant, p);
    }
}

// Settles the handles, then the ring, where the goal has the ring's first two places vacant.
fn settle(
    rows: &[u64; 64],
    n: usize,
    breakdown: Breakdown,
    circle: Circle,
    goal: &[u8; 64],
    state: State,
    tail: &mut [u8],
) -> State
    requires rows { Rows n rows.now }
    requires breaks_down { BreaksDown n (Edge rows.now) breakdown }
    requires circle_value { circle ≡ circle_of n breakdown }
    requires table { Table n (row state.racks) }
    requires fact { Open circle (row goal.now) }
    requires space { Space state tail.old (settle_moves n breakdown.ring) }
    ensures trip { Trip rows.now (settle_moves n breakdown.ring) state tail.old result tail.new }
    ensures same { Same (row result.racks) (row goal.now) }
{
    let handled = handles::settle_handles(rows, n, breakdown, goal, state, tail);
    base_ring::settle_ring(rows, circle, goal, handled, tail)
}

// Moves the racks from where they stand to where the goal has them. The goal is shifted first, so that two neighbours on the base ring are
// vacant in it; the handles are settled, then the ring; and the shift is taken back.
pub fn solve(
    rows: &[u64; 64],
    n: usize,
    breakdown: Breakdown,
    goal: &[u8; 64],
    state: State,
    tail: &mut [u8],
) -> State
    requires rows { Rows n rows.now }
    requires breaks_down { BreaksDown n (Edge rows.now) breakdown }
    requires table { Table n (row state.racks) }
    requires table_2 { Table n (row goal.now) }
    requires goal_len { length goal.now ≡ 64 }
    requires space { Space state tail.old (solve_moves n) }
    ensures trip { Trip rows.now (solve_moves n) state tail.old result tail.new }
    ensures same { Same (row result.racks) (row goal.now) }
{
    let circle = base_ring::circle_of(breakdown, n);
    let mut back = [0u16; moving::LOG];
    let shifted = shift_goal(
        rows,
        n,
        circle.at[0] as usize,
        circle.at[1] as usize,
        goal,
        &mut back,
        tail,
    );
    let settled = settle(rows, n, breakdown, circle, &shifted.racks, state, tail);
    turning::undo(0, shifted.logged, settled, &back, tail)
}
