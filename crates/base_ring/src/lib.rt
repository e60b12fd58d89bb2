// The base ring of a floor, settled when all else is: racks on it are exchanged in pairs through a position beside it.
#![tactic(auto)]

ghost use Rattle.std.specs.Prelude.{◌≡◌, ◌+◌, ◌≤◌, ◌<◌, length};
ghost use Rattle.graph.specs.Rows.{row, Edge, Rows};
ghost use Rattle.moving.specs.Went.{Same};
ghost use Rattle.moving.specs.Journey.{Fits, Room, Space, Trip, Journey, JourneyOn};
ghost use Rattle.moving.specs.OnePlace.{Passed};
ghost use Rattle.moving.specs.Table.{Table};
ghost use Rattle.base_ring.specs.Circle.{BaseRing, OnRing, TwoOnRing, RestHeld, Open, Aside, Ready, Exchanged, RestSettled, Ringing};
ghost use Rattle.base_ring.specs.From.{ring_from, circle_of};
ghost use Rattle.base_ring.specs.Moves.{aside_moves, next_moves, exchange_moves, open_moves, ring_moves};
ghost use Rattle.base_ring.specs.Swap.{PassableBy, JoinsBy, Swappable, Joined, Swapped};

use breakdown::Breakdown;
use moving::{Log, State};

// A base ring of `size` positions in the order round it, on a floor that has so many positions, and a position beside its place 0 that is
// not on it.
#[derive(Clone, Copy)]
pub struct Circle {
    pub at: [u8; 64],
    pub positions: usize,
    pub size: usize,
    pub beside: usize,
}

// Moves the rack at `from` by way of x to `to`.
fn pass_by(from: usize, x: usize, to: usize, state: State, log: &mut Log, tail: &mut [u8]) -> State
    requires passable_by { PassableBy from x to (row state.racks) }
    requires fits { Fits state log.old tail.old 2 }
    ensures journey_on { JourneyOn (JoinsBy from x to) 2 state log.old tail.old result log.new tail.new }
    ensures passed { Passed from to (row state.racks) (row result.racks) }
{
    let there = moving::make_move(from, x, state, log, tail);
    moving::make_move(x, to, there, log, tail)
}

// Exchanges the racks at `next` and at y by way of x, which both are beside, and of `last`, beside x too: x and `last` are vacant before
// and after. Six moves.
fn swap(
    x: usize,
    next: usize,
    last: usize,
    y: usize,
    state: State,
    log: &mut Log,
    tail: &mut [u8],
) -> State
    requires swappable { Swappable x next last y (row state.racks) }
    requires fits { Fits state log.old tail.old 6 }
    ensures journey_on { JourneyOn (Joined x next last y) 6 state log.old tail.old
        result log.new tail.new }
    ensures swapped { Swapped next y (row state.racks) (row result.racks) }
{
    let away = pass_by(next, x, last, state, log, tail);
    let there = pass_by(y, x, next, away, log, tail);
    pass_by(last, x, y, there, log, tail)
}

// Brings a rack of the ring aside, while the places 0 and 1 are vacant: the rack beside place 0 steps onto the ring, the other is brought
// to place 0 and steps to where that one stood.
fn bring_aside(
    rows: &[u64; 64],
    circle: Circle,
    rack: u8,
    state: State,
    log: &mut Log,
    tail: &mut [u8],
) -> State
    requires rows { Rows circle.positions rows.now }
    requires base_ring { BaseRing (Edge rows.now) circle }
    requires fact { Open circle (row state.racks) }
    requires on_ring { OnRing circle rack (row state.racks) }
    requires fits { Fits state log.old tail.old (aside_moves circle.size) }
    ensures journey { Journey rows.now (aside_moves circle.size) state log.old tail.old
        result log.new tail.new }
    ensures aside { Aside circle rack (row state.racks) (row result.racks) }
{
    let n = circle.positions;
    let x = circle.at[0] as usize;
    let y = circle.beside;
    let ring = breakdown::part(&circle.at, 0, circle.size);
    let stepped = moving::make_move(y, x, state, log, tail);
    let stands = moving::where_is(&stepped.racks, n, rack);
    let brought = shunting::bring(rows, n, ring, stands, x, stepped, log, tail);
    moving::make_move(x, y, brought, log, tail)
}

// Brings a rack of the ring to its place 1, and clears its place 0 and its last place. All vacancies are on the ring.
fn bring_next(
    rows: &[u64; 64],
    circle: Circle,
    rack: u8,
    state: State,
    log: &mut Log,
    tail: &mut [u8],
) -> State
    requires rows { Rows circle.positions rows.now }
    requires base_ring { BaseRing (Edge rows.now) circle }
    requires table { Table circle.positions (row state.racks) }
    requires rest_held { RestHeld circle (row state.racks) }
    requires on_ring { OnRing circle rack (row state.racks) }
    requires fits { Fits state log.old tail.old (next_moves circle.size) }
    ensures journey { Journey rows.now (next_moves circle.size) state log.old tail.old
        result log.new tail.new }
    ensures ready { Ready circle rack (row state.racks) (row result.racks) }
{
    let n = circle.positions;
    let x = circle.at[0] as usize;
    let next = circle.at[1] as usize;
    let last = circle.at[circle.size - 1] as usize;
    let ring = breakdown::part(&circle.at, 0, circle.size);
    let stands = moving::where_is(&state.racks, n, rack);
    let brought = shunting::bring(rows, n, ring, stands, next, state, log, tail);
    let free = sets::without(ring, next);
    let cleared = shunting::clear_within(rows, n, free, x, brought, log, tail);
    shunting::clear_within(rows, n, sets::without(free, x), last, cleared, log, tail)
}

// Exchanges the racks a and b, which stand on the ring, while its places 0 and 1 are vacant: a is brought aside and b to place 1, six moves
// exchange the two, and all that was done before is taken back.
fn exchange(
    rows: &[u64; 64],
    circle: Circle,
    a: u8,
    b: u8,
    state: State,
    log: &mut Log,
    tail: &mut [u8],
) -> State
    requires rows { Rows circle.positions rows.now }
    requires base_ring { BaseRing (Edge rows.now) circle }
    requires fact { Open circle (row state.racks) }
    requires two_on_ring { TwoOnRing circle a b (row state.racks) }
    requires room { Room state log.old tail.old (exchange_moves circle.size) }
    ensures trip { Trip rows.now (exchange_moves circle.size) state tail.old result tail.new }
    ensures exchanged { Exchanged a b (row state.racks) (row result.racks) }
    ensures log_len_unchanged { length log.new ≡ length log.old }
{
    let x = circle.at[0] as usize;
    let next = circle.at[1] as usize;
    let last = circle.at[circle.size - 1] as usize;
    let y = circle.beside;
    let begun = State { logged: 0, ..state };
    let aside = bring_aside(rows, circle, a, begun, log, tail);
    let ready = bring_next(rows, circle, b, aside, log, tail);
    let logged = ready.logged;
    let swapped = swap(x, next, last, y, ready, log, tail);
    turning::undo(0, logged, swapped, log, tail)
}

// Settles place i of the ring, 2 or above: where its rack is another than the goal's, the two are exchanged.
fn settle_place(
    rows: &[u64; 64],
    circle: Circle,
    i: usize,
    goal: &[u8; 64],
    state: State,
    log: &mut Log,
    tail: &mut [u8],
) -> State
    requires rows { Rows circle.positions rows.now }
    requires base_ring { BaseRing (Edge rows.now) circle }
    requires le_i { (2 ≤ i) × (i < circle.size) }
    requires ringing { Ringing circle (row goal.now) i (row state.racks) }
    requires room { Room state log.old tail.old (exchange_moves circle.size) }
    ensures trip { Trip rows.now (exchange_moves circle.size) state tail.old result tail.new }
    ensures ringing_2 { Ringing circle (row goal.now) (i + 1) (row result.racks) }
    ensures log_len_unchanged { length log.new ≡ length log.old }
{
    let p = circle.at[i] as usize;
    let a = goal[p];
    let b = state.racks[p];
    if a == b {
        return state;
    }
    exchange(rows, circle, a, b, state, log, tail)
}

// Clears the places 0 and 1 of the ring, where all else holds what the goal has there.
fn open_ring(
    rows: &[u64; 64],
    circle: Circle,
    goal: &[u8; 64],
    state: State,
    log: &mut Log,
    tail: &mut [u8],
) -> State
    requires rows { Rows circle.positions rows.now }
    requires base_ring { BaseRing (Edge rows.now) circle }
    requires rest_settled { RestSettled circle (row goal.now) (row state.racks) }
    requires room { Room state log.old tail.old (open_moves circle.size) }
    ensures trip { Trip rows.now (open_moves circle.size) state tail.old result tail.new }
    ensures ringing { Ringing circle (row goal.now) 2 (row result.racks) }
    ensures log_len_unchanged { length log.new ≡ length log.old }
{
    let n = circle.positions;
    let x = circle.at[0] as usize;
    let next = circle.at[1] as usize;
    let ring = breakdown::part(&circle.at, 0, circle.size);
    let begun = State { logged: 0, ..state };
    let cleared = shunting::clear_within(rows, n, ring, x, begun, log, tail);
    shunting::clear_within(rows, n, sets::without(ring, x), next, cleared, log, tail)
}

// Settles the ring, where all else holds what the goal has there.
pub fn settle_ring(
    rows: &[u64; 64],
    circle: Circle,
    goal: &[u8; 64],
    state: State,
    tail: &mut [u8],
) -> State
    requires rows { Rows circle.positions rows.now }
    requires base_ring { BaseRing (Edge rows.now) circle }
    requires rest_settled { RestSettled circle (row goal.now) (row state.racks) }
    requires space { Space state tail.old (ring_moves circle.size) }
    ensures trip { Trip rows.now (ring_moves circle.size) state tail.old
        result tail.new }
    ensures same { Same (row result.racks) (row goal.now) }
{
    let mut log = [0u16; moving::LOG];
    let mut state = open_ring(rows, circle, goal, state, &mut log, tail);
    for i in 2..circle.size {
        state = settle_place(rows, circle, i, goal, state, &mut log, tail);
    }
    state
}

// The base ring of a breakdown from x on, in the order round it.
fn ring_from(order: &[u8; 64], size: usize, x: usize) -> [u8; 64]
    requires { (0 < size) × (size ≤ 64) }
    ensures { result ≡ ring_from order.now size x }
{
    let z = breakdown::place_of(order, 0, size, x);
    let mut circle = [0u8; 64];
    // Place by place: to turn a copy round would take `memmove` from whoever links the library.
    for j in 0..size {
        circle[j] = order[(z + j) % size];
    }
    circle
}

// The base ring of a breakdown of a floor of n, from the left end of its first handle on. It is the ring that `settle_ring` asks for:
// proofs/FromLaws.antt.
pub fn circle_of(breakdown: Breakdown, n: usize) -> Circle
    requires { (0 < breakdown.ring) × (breakdown.ring < 64) }
    ensures { result ≡ circle_of n breakdown }
{
    let size = breakdown.ring;
    let first = breakdown.left[0] as usize;
    Circle {
        at: ring_from(&breakdown.order, size, first),
        positions: n,
        size,
        beside: breakdown.order[size] as usize,
    }
}
