// A ring planned: its racks are driven round the circle, each straight to its goal. Which way each goes, and how far, is settled first:
// of the ways to take all racks round without changing their order, the one with the fewest moves. Then those that go on are driven on,
// and those that go back, back. specs/Drive.antt and specs/Needs.antt say what that means; `solve` is the entry point.
#![tactic(auto)]

ghost use Rattle.std.specs.Prelude.{◌≡◌, ℕ, ◌*◌, ◌≤◌, ◌<◌, length};
ghost use Rattle.ring.specs.Order.{Rack, Places};
ghost use Rattle.graph.specs.Rows.{row};
ghost use Rattle.ring.specs.Standing.{OnCircle};
ghost use Rattle.moving.specs.Journey.{Space};
ghost use Rattle.circling.specs.Lands.{mirror, total};
ghost use Rattle.circling.specs.Drive.{Circled, Found, Driveable, Driven, TripRound, TripOnRing};
ghost use Rattle.circling.specs.Needs.{Bases, Numbered, Aimed, Needs, RoundAlike, round_moves};

use moving::State;

// The circle read the other way.
fn reversed(circle: &[u8; 64], n: usize) -> [u8; 64]
    requires { n ≤ 64 }
    ensures { (j : ℕ) → j < n → row result j ≡ row circle.now (mirror n j) }
{
    let mut back = [0u8; 64];
    back[0] = circle[0];
    for j in 1..n {
        back[j] = circle[n - j];
    }
    back
}

// The first place whose rack needs to go on, and may: the next place is vacant.
fn find(circle: &[u8; 64], n: usize, need: &[u16; 64], racks: &[u8; 64]) -> Option<usize>
    requires n_bound { n ≤ 64 }
    requires by_index { (i : ℕ) → i < n → row circle.now i < n }
    requires by_index_2 { (i : ℕ) → i < n → row racks.now (row circle.now i) < 64 }
    ensures { Found n (row circle.now) (row need.now) (row racks.now) result }
{
    for i in 0..n {
        let a = circle[i] as usize;
        let b = circle[ring::next(n, i)] as usize;
        let rack = racks[a] as usize;
        if racks[b] == 0 && need[rack] != 0 {
            return Some(i);
        }
    }
    None
}

// Drives each rack on round the circle by as many places as it needs: again and again one that may go on does.
fn drive(circle: &[u8; 64], n: usize, need: [u16; 64], state: &mut State, tail: &mut [u8])
    requires circled { Circled n (row circle.now) }
    requires driveable { Driveable n state.old.real (row circle.now) (row need) (row state.old.racks) }
    requires need_len { length need ≡ 64 }
    requires space { Space state.old tail.old (total need) }
    ensures trip_round { TripRound n (row circle.now) (total need) state.old tail.old state.new tail.new }
    ensures driven { Driven n (row circle.now) (row need) (row state.old.racks) (row state.new.racks) }
    ensures on_circle { OnCircle n state.old.real (row circle.now) (row state.new.racks) }
{
    let mut need = need;
    while let Some(i) = find(circle, n, &need, &state.racks) {
        let a = circle[i] as usize;
        let b = circle[ring::next(n, i)] as usize;
        let rack = state.racks[a] as usize;
        need[rack] -= 1;
        moving::move_rack(a, b, state, tail);
    }
}

// The number of rack r, where rack 1 has the number `base` and p are the places.
fn reach(n: usize, m: usize, base: usize, p: &[u8; 64], r: usize) -> usize
    requires n_bound { (n ≤ 64) × (m < n) }
    requires base_bound { base ≤ 320 }
    requires rack { Rack m r }
    requires places { Places n m (row p.now) }
    ensures { Numbered n base (row p.now) r result }
{
    base + ring::distance(n, m, p, r)
}

// What each rack needs to go on from the places p, where rack 1 has the number `from`, to the places g, where it has the number `to`.
fn needs(n: usize, m: usize, from: usize, p: &[u8; 64], to: usize, g: &[u8; 64]) -> [u16; 64]
    requires n_bound { (n ≤ 64) × (m < n) }
    requires bases { Bases n from to }
    requires places { Places n m (row p.now) }
    requires places_2 { Places n m (row g.now) }
    ensures { Needs n m from (row p.now) to (row g.now) result }
{
    let mut need = [0u16; 64];
    for r in 1..=m {
        let x = reach(n, m, from, p, r);
        let y = reach(n, m, to, g, r);
        need[r] = y.saturating_sub(x) as u16;
    }
    need
}

// How many moves it takes to go on and back as far as the racks need.
fn cost(n: usize, m: usize, from: usize, p: &[u8; 64], to: usize, g: &[u8; 64]) -> usize
    requires n_bound { (n ≤ 64) × (m < n) }
    requires bases { Bases n from to }
    requires places { Places n m (row p.now) }
    requires places_2 { Places n m (row g.now) }
{
    let mut sum: usize = 0;
    for r in 1..=m {
        let x = reach(n, m, from, p, r);
        let y = reach(n, m, to, g, r);
        sum += x.abs_diff(y);
    }
    sum
}

// The number to give rack 1 at its goal, where it has the number `from` at its start: of five that land there, the one that takes the
// fewest moves.
fn aim(n: usize, m: usize, from: usize, p: &[u8; 64], g: &[u8; 64]) -> usize
    requires n_bound { (n ≤ 64) × (m < n) }
    requires n_bound_2 { (2 * n ≤ from) × (from < 3 * n) }
    requires g_bound { row g.now 1 < n }
    requires places { Places n m (row p.now) }
    requires places_2 { Places n m (row g.now) }
    ensures { Aimed n from (row g.now 1) result }
{
    let mut best = g[1] as usize;
    let mut least = cost(n, m, from, p, best, g);
    for lap in 1..5 {
        let to = g[1] as usize + n * lap;
        let moves = cost(n, m, from, p, to, g);
        if moves < least {
            least = moves;
            best = to;
        }
    }
    best
}

// Moves the racks round the circle from where they stand to where the goal has them.
pub fn solve(circle: &[u8; 64], n: usize, goal: &[u8; 64], state: State, tail: &mut [u8]) -> State
    requires le_n { (3 ≤ n) × (n ≤ 64) }
    requires circled { Circled n (row circle.now) }
    requires real_lt_n { state.real < n }
    requires on_circle { OnCircle n state.real (row circle.now) (row state.racks) }
    requires on_circle_2 { OnCircle n state.real (row circle.now) (row goal.now) }
    requires round_alike { RoundAlike n state.real (row circle.now) (row state.racks) (row goal.now) }
    requires space { Space state tail.old (round_moves n) }
    ensures trip_on_ring { TripOnRing n (row circle.now) (round_moves n) state tail.old result tail.new }
    ensures by_index { (i : ℕ) → i < n
        → row result.racks (row circle.now i) ≡ row goal.now (row circle.now i) }
{
    let mut state = state;
    let p = ring::places(circle, n, &state.racks);
    let g = ring::places(circle, n, goal);
    let from = p[1] as usize + 2 * n;
    let to = aim(n, state.real, from, &p, &g);
    let on = needs(n, state.real, from, &p, to, &g);
    let back = needs(n, state.real, to, &g, from, &p);
    drive(circle, n, on, &mut state, tail);
    let other = reversed(circle, n);
    drive(&other, n, back, &mut state, tail);
    state
}
