// The circle of a ring floor, and the order of the racks round it. A floor is a row of sets: `rows[a]` has the positions that edges join
// to a. A circle is a row of its positions in their order round it; places on it are counted from 0.
#![tactic(auto)]

ghost use Rattle.std.specs.Prelude.{true, ◌↔◌, ◌≢◌, ◌≡◌, ℕ, ◌≤◌, ◌<◌, get_or};
ghost use Rattle.graph.specs.Connected.{Ring};
ghost use Rattle.graph.specs.EdgeCount.{edge_count};
ghost use Rattle.graph.specs.Rows.{row, Edge, Rows};
ghost use Rattle.ring.specs.Circle.{Circle, round_of, edge_in, next as next_of};
ghost use Rattle.ring.specs.Order.{Rack, Places, SameOrder, Keeps, ahead as ahead_of, distance as distance_of};
ghost use Rattle.ring.specs.Standing.{Standing};

// The positions of a ring in their order round it: from 0 to the lowest position joined to it, and on, never straight back.
pub fn circle(rows: &[u64; 64], n: usize) -> [u8; 64]
    requires rows { Rows n rows.now }
    requires ring { Ring n (Edge rows.now) (edge_count rows.now n) }
    ensures circle { Circle n (Edge rows.now) (row result) }
    ensures by_index { (i : ℕ) → i < n → row result i ≡ get_or (round_of n (edge_in rows.now)) i 0 }
{
    let mut at = [0u8; 64];
    let mut last: usize = 0;
    let mut onward = rows[0];
    for k in 1..n {
        let v = sets::lowest(onward);
        at[k] = v as u8;
        onward = sets::without(rows[v], last);
        last = v;
    }
    at
}

// The place after place i of n: after the last comes the first.
pub fn next(n: usize, i: usize) -> usize
    requires { i < n }
    ensures { result ≡ next_of n i }
{
    if i + 1 == n {
        return 0;
    }
    i + 1
}

// How many places on from place i place j is.
pub fn ahead(n: usize, i: usize, j: usize) -> usize
    requires n_bound { n ≤ 64 }
    requires i_lt_n { (i < n) × (j < n) }
    ensures { result ≡ ahead_of n i j }
{
    if i <= j {
        return j - i;
    }
    j + n - i
}

// The place of each rack.
pub fn places(circle: &[u8; 64], n: usize, racks: &[u8; 64]) -> [u8; 64]
    requires { Standing n (row circle.now) (row racks.now) }
    ensures by_index { (i : ℕ) → i < n → row racks.now (row circle.now i) ≢ 0
        → row result (row racks.now (row circle.now i)) ≡ i }
    ensures by_index_2 { (q : ℕ) → row result q < n }
{
    let mut place = [0u8; 64];
    for (i, &p) in circle[..n].iter().enumerate() {
        let rack = racks[p as usize] as usize;
        place[rack] = i as u8;
    }
    place
}

// How many places on from rack 1 rack r is.
pub fn distance(n: usize, m: usize, p: &[u8; 64], r: usize) -> usize
    requires n_bound { (n ≤ 64) × (m < n) }
    requires rack { Rack m r }
    requires places { Places n m (row p.now) }
    ensures { result ≡ distance_of n (row p.now) r }
{
    ahead(n, p[1] as usize, p[r] as usize)
}

// Is each rack that comes behind rack r, read round from rack 1, by the places p behind it by the places g?
fn keeps(n: usize, m: usize, p: &[u8; 64], g: &[u8; 64], r: usize) -> bool
    requires n_bound { (n ≤ 64) × (m < n) }
    requires rack { Rack m r }
    requires places { Places n m (row p.now) }
    requires places_2 { Places n m (row g.now) }
    ensures { (result ≡ true) ↔ Keeps n m (row p.now) (row g.now) r }
{
    let from = distance(n, m, p, r);
    let to = distance(n, m, g, r);
    // Not `1..=m`, here and below: the library has no law yet of `all` over such a range.
    (1..m + 1).all(|q| distance(n, m, p, q) <= from || to < distance(n, m, g, q))
}

// Do the racks 1 to m stand in the same order round a circle of n places, by the places p and by the places g?
pub fn same_order(n: usize, m: usize, p: &[u8; 64], g: &[u8; 64]) -> bool
    requires n_bound { (n ≤ 64) × (m < n) }
    requires places { Places n m (row p.now) }
    requires places_2 { Places n m (row g.now) }
    ensures { (result ≡ true) ↔ SameOrder m (row p.now) (row g.now) }
{
    (1..m + 1).all(|r| keeps(n, m, p, g, r))
}
