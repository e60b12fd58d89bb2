// The two positions of a floor that are farthest apart: the balls of moves round every position grow together, one move at a time, until
// none misses a position. specs/Balls.antt says what that means; `dearest` is the entry point.
#![tactic(auto)]

ghost use Rattle.std.specs.Prelude.{ℕ, ◌≤◌, ◌<◌, ◌↔◌, MatchOption};
ghost use Rattle.sets.specs.Sets.{Has};
ghost use Rattle.graph.specs.Connected.{Connected};
ghost use Rattle.graph.specs.Rows.{Edge, Rows};
ghost use Rattle.farthest.specs.Balls.{Alone, Grows, Grown, Missed, Dearest};

// A carry of one rack alone: from where to where, in how many moves.
#[derive(Clone, Copy)]
pub struct Carry {
    pub start: usize,
    pub goal: usize,
    pub moves: usize,
}

// Balls of no moves: each position alone. The ball of a position has the positions that so many moves reach from it.
fn alone(n: usize) -> [u64; 64]
    requires { n ≤ 64 }
    ensures { Alone n result }
{
    let mut balls = [0u64; 64];
    for u in 0..n {
        balls[u] = sets::only(u);
    }
    balls
}

// The ball of u, one move larger: what is in its ball or in a neighbour's.
fn grown_ball(rows: &[u64; 64], balls: &[u64; 64], u: usize) -> u64
    requires { u < 64 }
    ensures { (v : ℕ) → Has result v ↔ Grows rows.now balls.now u v }
{
    let mut ball = balls[u];
    let mut rest = rows[u];
    while rest != 0 {
        let w = sets::lowest(rest);
        ball = ball | balls[w];
        rest = sets::without(rest, w);
    }
    ball
}

// All balls, one move larger.
fn grown(rows: &[u64; 64], balls: &[u64; 64], n: usize) -> [u64; 64]
    requires { n ≤ 64 }
    ensures { Grown n rows.now balls.now result }
{
    let mut larger = [0u64; 64];
    for u in 0..n {
        larger[u] = grown_ball(rows, balls, u);
    }
    larger
}

// A start and a goal.
#[derive(Clone, Copy)]
struct Trip {
    start: usize,
    goal: usize,
}

// The lowest position whose ball misses a position of the floor, and the lowest one that it misses; none where every ball is full.
fn first_missed(balls: &[u64; 64], n: usize) -> Option<Trip>
    requires { n ≤ 64 }
    ensures { MatchOption result (Missed n balls.now n 0) (λ trip. (trip.start < n) × Missed n balls.now trip.start trip.goal) }
{
    let all = sets::below(n);
    for start in 0..n {
        let missed = sets::minus(all, balls[start]);
        if missed != 0 {
            return Some(Trip {
                start,
                goal: sets::lowest(missed),
            });
        }
    }
    None
}

// The dearest carry of a connected floor. All balls grow move by move. As long as one is not full, the lowest pair that is missed is dearer
// than all before it; once all are full no pair is dearer than the last one missed.
pub fn dearest(rows: &[u64; 64], n: usize) -> Carry
    requires { (0 < n) × Rows n rows.now × Connected n (Edge rows.now) }
    ensures { Dearest n (Edge rows.now) result.start result.goal result.moves }
{
    let mut balls = alone(n);
    let mut trip = Trip { start: 0, goal: 0 };
    let mut moves: usize = 0;
    while let Some(farther) = first_missed(&balls, n) {
        trip = farther;
        balls = grown(rows, &balls, n);
        moves += 1;
    }
    Carry {
        start: trip.start,
        goal: trip.goal,
        moves,
    }
}
