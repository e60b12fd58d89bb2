// The floor as a graph: one breadth-first search, and the decisions that rest on it. A floor is a row of sets: `rows[a]` has the positions
// that edges join to a.
#![tactic(auto)]

ghost use Rattle.std.specs.Prelude.{true, ◌↔◌, ◌≡◌, ℕ, ◌+◌, ◌-◌, ◌≤◌, ◌<◌, length};
ghost use Rattle.sets.specs.Sets.{Has};
ghost use Rattle.graph.specs.Walk.{Symmetric};
ghost use Rattle.graph.specs.Connected.{Whole, Connected, ConnectedWithout, BiConnected, Ring};
ghost use Rattle.graph.specs.EdgeCount.{edge_count, FourSided};
ghost use Rattle.graph.specs.Rows.{Edge, Rows};
ghost use Rattle.graph.specs.Levels.{Touches, Spread, OrZero, Descent, Traced};
ghost use Rattle.graph.specs.Nearest.{NearestRoute};

// The positions that edges join to a position of the set.
fn around(rows: &[u64; 64], set: u64) -> u64
    requires { Symmetric (Edge rows.now) }
    ensures { (v : ℕ) → Has result v ↔ Touches (Edge rows.now) set v }
{
    let mut joined: u64 = 0;
    let mut rest = set;
    while rest != 0 {
        let w = sets::lowest(rest);
        joined = joined | rows[w];
        rest = sets::without(rest, w);
    }
    joined
}

// How a search ended: the number of its levels where the last has a position of the goal, none where none has; and what was never reached.
#[derive(Clone, Copy)]
struct Reach {
    depth: Option<usize>,
    left: u64,
}

// Breadth-first from the targets, level by level, until a level has a position of the goal or there is nothing more to reach. Each level
// but the first is what touches the one before it and was not reached yet.
fn spread(rows: &[u64; 64], free: u64, targets: u64, goal: u64, levels: &mut [u64; 64]) -> Reach
    requires symmetric { Symmetric (Edge rows.now) }
    requires levels_len { length levels.old ≡ 64 }
    ensures { OrZero (λ depth. Spread (Edge rows.now) (Has free) (Has targets) (Has goal) levels.new depth result.left) result.depth }
{
    let mut fresh = free & targets;
    let mut left = sets::minus(free, targets);
    if fresh == 0 {
        return Reach { depth: None, left };
    }
    levels[0] = fresh;
    let mut depth: usize = 1;
    loop {
        if fresh & goal != 0 {
            return Reach {
                depth: Some(depth),
                left,
            };
        }
        fresh = around(rows, fresh) & left;
        if fresh == 0 {
            return Reach { depth: None, left };
        }
        levels[depth] = fresh;
        left = sets::minus(left, fresh);
        depth += 1;
    }
}

// From `from`, which is on the last of `depth` levels, down to the first: the lowest position joined on each.
fn trace(rows: &[u64; 64], levels: &[u64; 64], depth: usize, from: usize) -> [u8; 64]
    requires { Descent (Edge rows.now) levels.now depth from }
    ensures { Traced (Edge rows.now) levels.now depth from result }
{
    let mut path = [0u8; 64];
    path[0] = from as u8;
    let mut v = from;
    for k in 1..depth {
        v = sets::lowest(rows[v] & levels[depth - 1 - k]);
        path[k] = v as u8;
    }
    path
}

// A way: how many positions it has, at least one, and the positions, `at[0]` to `at[size - 1]`.
#[derive(Clone, Copy)]
pub struct Route {
    pub size: usize,
    pub at: [u8; 64],
}

// A shortest way from `from` to the nearest of the targets, both ends included, through free positions alone: of several, the one that
// enters the lower position where they first differ. None, exactly where there is no way.
pub fn search(rows: &[u64; 64], free: u64, targets: u64, from: usize) -> Option<Route>
    requires symmetric { Symmetric (Edge rows.now) }
    requires from_bound { from < 64 }
    ensures { NearestRoute (Edge rows.now) (Has free) (Has targets) from result }
{
    let mut levels = [0u64; 64];
    let reach = spread(rows, free, targets, sets::only(from), &mut levels);
    let size = reach.depth?;
    let at = trace(rows, &levels, size, from);
    Some(Route { size, at })
}

// Do the positions of the set hang together?
fn is_whole(rows: &[u64; 64], set: u64) -> bool
    requires { Symmetric (Edge rows.now) }
    ensures { (result ≡ true) ↔ Whole (Edge rows.now) (Has set) }
{
    if set == 0 {
        return true;
    }
    let base = sets::only(sets::lowest(set));
    let mut levels = [0u64; 64];
    let reach = spread(rows, set, base, 0, &mut levels);
    reach.left == 0
}

// Is the floor connected? One position alone is.
pub fn is_connected(rows: &[u64; 64], n: usize) -> bool
    requires { Rows n rows.now }
    ensures { (result ≡ true) ↔ Connected n (Edge rows.now) }
{
    is_whole(rows, sets::below(n))
}

// Is the floor connected when x is taken away?
pub fn is_connected_without(rows: &[u64; 64], n: usize, x: usize) -> bool
    requires rows { Rows n rows.now }
    requires x_lt_n { x < n }
    ensures { (result ≡ true) ↔ ConnectedWithout n (Edge rows.now) x }
{
    is_whole(rows, sets::without(sets::below(n), x))
}

// Is the floor bi-connected? With three positions or more, connected without any one is connected too: n searches are enough.
pub fn is_biconnected(rows: &[u64; 64], n: usize) -> bool
    requires { Rows n rows.now }
    ensures { (result ≡ true) ↔ BiConnected n (Edge rows.now) }
{
    if n < 3 {
        return false;
    }
    (0..n).all(|x| is_connected_without(rows, n, x))
}

// Is the floor a ring? `e` is the number of its edges.
pub fn is_ring(rows: &[u64; 64], n: usize, e: usize) -> bool
    requires rows { Rows n rows.now }
    requires e_value { e ≡ edge_count rows.now n }
    ensures { (result ≡ true) ↔ Ring n (Edge rows.now) (edge_count rows.now n) }
{
    if e != n {
        return false;
    }
    is_biconnected(rows, n)
}

// Is no position joined to more than four others?
pub fn is_four_sided(rows: &[u64; 64], n: usize) -> bool
    requires { Rows n rows.now }
    ensures { (result ≡ true) ↔ FourSided n rows.now }
{
    rows[..n].iter().all(|&joined| sets::size(joined) <= 4)
}
