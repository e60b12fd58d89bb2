// The proved method on tables: the moves of a plan for an order that can be planned, by the floor's breakdown, or round a ring.
// specs/Moves.antt says what is promised of them; `plan_moves` is the entry point.
#![tactic(auto)]

ghost use Rattle.std.specs.Prelude.{◌≢◌, ◌≡◌, ◌*◌, ◌≤◌, length};
ghost use Rattle.graph.specs.Rows.{row};
ghost use Rattle.method.specs.Moves.{Differ, SomeTables, MovesMade};

use moving::State;

// The moves of a plan on a floor that is no ring: vacancies beyond two are filled with stand-ins, and the breakdown leads from the one
// arrangement to the other. Yields how many there are.
fn broken_down(
    n: usize,
    e: usize,
    m: usize,
    rows: &[u64; 64],
    starts: [u8; 64],
    goals: [u8; 64],
    tail: &mut [u8],
) -> usize
    requires some_tables { SomeTables n e m rows.now starts goals }
    requires differ { Differ starts goals }
    requires e_nonzero { e ≢ n }
    requires n_in_bounds { 18 * (n * (n * n)) ≤ length tail.old }
    ensures { MovesMade n e m rows.now starts goals tail.old tail.new result }
{
    let mut start = starts;
    let mut goal = goals;
    solving::fill(n, m, &mut start);
    solving::fill(n, m, &mut goal);
    let Some(found) = breakdown::break_down(rows, n) else {
        unreachable!();
    };
    let state = State {
        racks: start,
        real: m,
        written: 0,
        logged: 0,
    };
    let end = solving::solve(rows, n, found, &goal, state, tail);
    end.written
}

// The moves of a plan on a ring: its racks are driven round it. Yields how many there are.
fn round(
    n: usize,
    e: usize,
    m: usize,
    rows: &[u64; 64],
    starts: [u8; 64],
    goals: [u8; 64],
    tail: &mut [u8],
) -> usize
    requires some_tables { SomeTables n e m rows.now starts goals }
    requires differ { Differ starts goals }
    requires e_value { e ≡ n }
    requires n_in_bounds { 18 * (n * (n * n)) ≤ length tail.old }
    ensures { MovesMade n e m rows.now starts goals tail.old tail.new result }
{
    let circle = ring::circle(rows, n);
    let begun = State {
        racks: starts,
        real: m,
        written: 0,
        logged: 0,
    };
    let end = circling::solve(&circle, n, &goals, begun, tail);
    end.written
}

// The moves of a plan for an order of n positions, e edges and m racks that can be planned, from what it was decoded to, packed at the
// front of the plan's bytes behind its head. Where each start is its goal there are none. A bi-connected floor with n edges is a ring.
// Yields how many moves there are.
pub fn plan_moves(
    n: usize,
    e: usize,
    m: usize,
    rows: &[u64; 64],
    starts: [u8; 64],
    goals: [u8; 64],
    tail: &mut [u8],
) -> usize
    requires some_tables { SomeTables n e m rows.now starts goals }
    requires n_in_bounds { 18 * (n * (n * n)) ≤ length tail.old }
    ensures { MovesMade n e m rows.now starts goals tail.old tail.new result }
{
    if starts == goals {
        return 0;
    }
    if e == n {
        return round(n, e, m, rows, starts, goals, tail);
    }
    broken_down(n, e, m, rows, starts, goals, tail)
}
