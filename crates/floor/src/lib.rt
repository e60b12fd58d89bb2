// The planner's judgement of an order before it measures its buffer: whether its floor can be planned at all. specs/FloorAnswer.antt says
// what each number means; `judge` is the entry point: it decodes the order and hands on what it knows. `check` is the verdict alone.
#![tactic(auto)]

ghost use Rattle.std.specs.Prelude.{true, ◌↔◌, ◌≡◌, List, [], ℕ};
ghost use Rattle.answers.specs.Answer.{accepted, pass_up};
ghost use Rattle.order.specs.Order.{counts, floor_of, starts_of, goals_of};
ghost use Rattle.order.specs.Tables.{decoded_rows, decoded_starts, decoded_goals};
ghost use Rattle.floor.specs.FloorAnswer.{SameRound, floor_answer};
ghost use Rattle.floor.specs.RingTables.{RingTables, SomeRing};
ghost use Rattle.floor.specs.Verdict.{answer_of, handed_on};

use answers::{Fault, Refusal};
use order::Counts;

// Do the racks of an order on a ring stand in the same order round it at start and goal?
fn same_round(rows: &[u64; 64], starts: &[u8; 64], goals: &[u8; 64], n: usize, m: usize) -> bool
    requires { SomeRing n m rows.now starts.now goals.now }
    ensures { (o : List ℕ) → RingTables o n m rows.now starts.now goals.now
        → (result ≡ true) ↔ SameRound (floor_of o) m (starts_of o) (goals_of o) }
{
    let circle = ring::circle(rows, n);
    let from = ring::places(&circle, n, starts);
    let to = ring::places(&circle, n, goals);
    ring::same_order(n, m, &from, &to)
}

// 10 to 14, 20, 21, 24 and 26: the verdict on any byte string as an order that is to be planned. Off rings 20 needs no search of the floor;
// on a ring each position has two edges. An acceptance hands on the order's counts; the tables are what decoding the order leaves.
pub fn judge(
    order: &[u8],
    rows: &mut [u64; 64],
    starts: &mut [u8; 64],
    goals: &mut [u8; 64],
) -> Result<Counts, Refusal>
    ensures result_value { answer_of result ≡ floor_answer order.now }
    ensures result_value_2 { handed_on result ≡ pass_up (floor_answer order.now) (accepted (counts order.now)) }
    ensures rows_after { rows.new ≡ decoded_rows order.now }
    ensures starts_after { starts.new ≡ decoded_starts order.now }
    ensures goals_after { goals.new ≡ decoded_goals order.now }
{
    let counts = decoding::decode(order, rows, starts, goals)?;
    let n = counts.positions;
    let m = counts.racks;
    if graph::is_ring(rows, n, counts.edges) {
        if n <= m {
            return Err(Refusal(Fault::FloorCrowded, 0));
        }
        if !same_round(rows, starts, goals, n, m) {
            return Err(Refusal(Fault::FloorOrder, 0));
        }
        return Ok(counts);
    }
    if n < m + 2 {
        return Err(Refusal(Fault::FloorCrowded, 0));
    }
    if !graph::is_biconnected(rows, n) {
        return Err(Refusal(Fault::FloorNotBiconnected, 0));
    }
    if !graph::is_four_sided(rows, n) {
        return Err(Refusal(Fault::FloorSides, 0));
    }
    Ok(counts)
}

// The verdict alone.
pub fn check(order: &[u8]) -> Result<Counts, Refusal>
    ensures { answer_of result ≡ floor_answer order.now }
{
    let mut rows = [0u64; 64];
    let mut starts = [0u8; 64];
    let mut goals = [0u8; 64];
    judge(order, &mut rows, &mut starts, &mut goals)
}
