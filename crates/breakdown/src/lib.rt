// The breakdown of a floor into a base ring and handles, shortest first.
#![tactic(auto)]

ghost use Rattle.std.specs.Prelude.{◌≡◌, ◌+◌, ◌≤◌, ◌<◌, length};
ghost use Rattle.sets.specs.Sets.{Has};
ghost use Rattle.graph.specs.Connected.{Except, Below, BiConnected};
ghost use Rattle.graph.specs.Rows.{row, Edge, Rows};
ghost use Rattle.graph.specs.Nearest.{NearestRoute};
ghost use Rattle.breakdown.specs.Choice.{RingWay, Before, BetterOf, Chosen, RingChoice, HandleChoice};
ghost use Rattle.breakdown.specs.Building.{Settled, Fresh, Extended, BuildingOf};
ghost use Rattle.breakdown.specs.Answer.{HandledOf, AnswerOf};
ghost use Rattle.breakdown.specs.Part.{Places, Part, place_of};

use graph::Route;

// Two joined positions, and how many positions the way has that leads on from the second, at least one.
#[derive(Clone, Copy)]
struct Pair {
    from: usize,
    to: usize,
    size: usize,
}

// The base ring and the handles. `order` has every position once: first the ring's, in their order round it, then those inside handle 0,
// inside handle 1, and so on. The inside of handle i is at the places from `start[i]` up to `start[i + 1]`; its ends are `left[i]`, beside
// the first inner position, and `right[i]`, beside the last.
#[derive(Clone, Copy)]
pub struct Breakdown {
    pub ring: usize,
    pub handles: usize,
    pub order: [u8; 64],
    pub start: [u8; 64],
    pub left: [u8; 64],
    pub right: [u8; 64],
}

// A shortest way to a target that avoids x.
fn way_round(rows: &[u64; 64], n: usize, x: usize, targets: u64, from: usize) -> Option<Route>
    requires rows { Rows n rows.now }
    requires x_lt_n { (x < n) × (from < n) }
    ensures { NearestRoute (Edge rows.now) (Except (Below n) x) (Has targets) from result }
{
    graph::search(rows, sets::without(sets::below(n), x), targets, from)
}

// The better of the best pair so far, if there is one, and another.
fn better(best: Option<Pair>, pair: Pair) -> Pair
    ensures { BetterOf best pair result }
{
    match best {
        Some(old) if old.size <= pair.size => old,
        _ => pair,
    }
}

// The way round of a cycle through the edge from a to b: on from b to another neighbour of a, avoiding a.
fn ring_way(rows: &[u64; 64], n: usize, a: usize, b: usize) -> Option<Route>
    requires rows { Rows n rows.now }
    requires a_lt_n { (a < n) × (b < n) }
    ensures { RingWay n (Edge rows.now) a b result }
{
    way_round(rows, n, a, sets::without(rows[a], b), b)
}

// The choice among the edges that begin before a, and those that begin at a.
fn choose_ring_at(rows: &[u64; 64], n: usize, a: usize, best: Option<Pair>) -> Option<Pair>
    requires rows { Rows n rows.now }
    requires a_lt_n { a < n }
    requires ring_choice { Chosen (RingChoice n rows.now (Before a)) best }
    ensures { Chosen (RingChoice n rows.now (Before (a + 1))) result }
{
    let mut best = best;
    let mut rest = rows[a];
    while rest != 0 {
        let b = sets::lowest(rest);
        if let Some(way) = ring_way(rows, n, a, b) {
            let pair = Pair {
                from: a,
                to: b,
                size: way.size,
            };
            best = Some(better(best, pair));
        }
        rest = sets::without(rest, b);
    }
    best
}

// An edge on a shortest cycle.
fn choose_ring(rows: &[u64; 64], n: usize) -> Option<Pair>
    requires { Rows n rows.now }
    ensures { Chosen (RingChoice n rows.now (Edge rows.now)) result }
{
    let mut best = None;
    for a in 0..n {
        best = choose_ring_at(rows, n, a, best);
    }
    best
}

// The choice among the edges that leave the settled positions before u, and those that leave from u: by the way on from w to a settled
// position, avoiding u. No handle is shorter than one inner position and an end.
fn choose_handle_at(
    rows: &[u64; 64],
    n: usize,
    settled: u64,
    u: usize,
    best: Option<Pair>,
) -> Option<Pair>
    requires rows { Rows n rows.now }
    requires u_lt_n { u < n }
    requires handle_choice { Chosen (HandleChoice n rows.now settled (Before u)) best }
    ensures { Chosen (HandleChoice n rows.now settled (Before (u + 1))) result }
{
    let mut best = best;
    if !sets::has(settled, u) {
        return best;
    }
    let mut rest = sets::minus(rows[u], settled);
    while rest != 0 {
        if best.is_some_and(|pair| pair.size == 2) {
            return best;
        }
        let w = sets::lowest(rest);
        if let Some(way) = way_round(rows, n, u, settled, w) {
            let pair = Pair {
                from: u,
                to: w,
                size: way.size,
            };
            best = Some(better(best, pair));
        }
        rest = sets::without(rest, w);
    }
    best
}

// The edge by which a shortest handle leaves the settled positions.
fn choose_handle(rows: &[u64; 64], n: usize, settled: u64) -> Option<Pair>
    requires { Rows n rows.now }
    ensures { Chosen (HandleChoice n rows.now settled (Edge rows.now)) result }
{
    let mut best = None;
    for u in 0..n {
        best = choose_handle_at(rows, n, settled, u, best);
    }
    best
}

// Puts the positions of `at` into the row from place m on, and settles them.
fn extend(at: &[u8], m: usize, order: &mut [u8; 64], settled: &mut u64)
    requires settled { Settled m order.old settled.old }
    requires fresh { Fresh at.now (length at.now) settled.old }
    ensures { Extended at.now (length at.now) m order.old order.new settled.new }
{
    for (i, &p) in at.iter().enumerate() {
        order[m + i] = p;
        *settled = sets::with(*settled, p as usize);
    }
}

// The base ring by the chosen pair (a, b): the way round from b, then a.
fn lay_ring(rows: &[u64; 64], n: usize, pair: Pair, settled: &mut u64) -> Breakdown
    requires rows { Rows n rows.now }
    requires size_nonzero { 0 < pair.size }
    requires ring_choice { RingChoice n rows.now (Edge rows.now) pair.from pair.to pair.size }
    requires settled_value { settled.old ≡ 0 }
    ensures building_of { BuildingOf n (Edge rows.now) result settled.new }
    ensures ring_value { result.ring ≡ pair.size + 1 }
{
    let a = pair.from;
    let Some(route) = ring_way(rows, n, a, pair.to) else {
        unreachable!();
    };
    let size = route.size;
    let mut order = [0u8; 64];
    extend(&route.at[..size], 0, &mut order, settled);
    extend(&[a as u8], size, &mut order, settled);
    let mut start = [0u8; 64];
    start[0] = (size + 1) as u8;
    Breakdown {
        ring: size + 1,
        handles: 0,
        order,
        start,
        left: [0u8; 64],
        right: [0u8; 64],
    }
}

// One handle more, by the chosen pair.
fn add_handle(rows: &[u64; 64], n: usize, pair: Pair, settled: &mut u64, b: Breakdown) -> Breakdown
    requires rows { Rows n rows.now }
    requires size_nonzero { 0 < pair.size }
    requires handle_choice { HandleChoice n rows.now settled.old (Edge rows.now) pair.from pair.to pair.size }
    requires building_of { BuildingOf n (Edge rows.now) b settled.old }
    ensures building_of_2 { BuildingOf n (Edge rows.now) result settled.new }
    ensures ring_value { result.ring ≡ b.ring }
    ensures handles_bound { row b.start b.handles < row result.start result.handles }
{
    let u = pair.from;
    let handles = b.handles;
    let mut order = b.order;
    let mut start = b.start;
    let mut left = b.left;
    let mut right = b.right;
    let m = start[handles] as usize;
    let Some(route) = way_round(rows, n, u, *settled, pair.to) else {
        unreachable!();
    };
    let inner = route.size - 1;
    extend(&route.at[..inner], m, &mut order, settled);
    start[handles + 1] = (m + inner) as u8;
    left[handles] = u as u8;
    right[handles] = route.at[inner];
    Breakdown {
        ring: b.ring,
        handles: handles + 1,
        order,
        start,
        left,
        right,
    }
}

// The handles on a base ring, one after another, until every position is settled; none where no handle is left to add before.
fn add_handles(rows: &[u64; 64], n: usize, settled: &mut u64, b: Breakdown) -> Option<Breakdown>
    requires rows { Rows n rows.now }
    requires ring_lt_n { b.ring < n }
    requires building_of { BuildingOf n (Edge rows.now) b settled.old }
    ensures { HandledOf n (Edge rows.now) result }
{
    let mut b = b;
    while (b.start[b.handles] as usize) < n {
        let pair = choose_handle(rows, n, *settled)?;
        b = add_handle(rows, n, pair, settled, b);
    }
    Some(b)
}

// The breakdown of a floor, for every floor that is bi-connected and no ring; for any other none. A base ring through every position
// leaves nowhere to exchange racks: a shortest ring that long is the whole floor.
pub fn break_down(rows: &[u64; 64], n: usize) -> Option<Breakdown>
    requires { Rows n rows.now }
    ensures { AnswerOf n rows.now result }
{
    let pair = choose_ring(rows, n)?;
    let mut settled: u64 = 0;
    let b = lay_ring(rows, n, pair, &mut settled);
    if n <= b.ring {
        return None;
    }
    add_handles(rows, n, &mut settled, b)
}

// The positions at the places from `from` up to `to` of a row, as a set.
pub fn part(order: &[u8; 64], from: usize, to: usize) -> u64
    requires { Places (row order.now) to }
    ensures { Part (row order.now) from to result }
{
    let mut set: u64 = 0;
    for i in from..to {
        set = sets::with(set, order[i] as usize);
    }
    set
}

// The place at which p stands, of the places from s up to e; the last of them where it stands at none.
pub fn place_of(order: &[u8; 64], s: usize, e: usize, p: usize) -> usize
    requires { (s < e) × (e ≤ 64) }
    ensures { result ≡ place_of (row order.now) s e p }
{
    match order[s..e].iter().position(|&q| q as usize == p) {
        Some(i) => s + i,
        None => e - 1,
    }
}
