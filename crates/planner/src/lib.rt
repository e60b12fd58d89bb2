// The planner: an order is judged, the buffer measured, and the plan's moves are made behind its head, by crate `method`.
// specs/Planner.antt has the answers and the buffer afterwards; `make` is the entry point.
#![tactic(auto)]

ghost use Rattle.std.specs.Prelude.{[], ◌∷◌};
ghost use Rattle.answers.specs.Answer.{accepted};
ghost use Rattle.floor.specs.Verdict.{answer_of as floor_answer_of};
ghost use Rattle.planner.specs.Planner.{PlanMade, answer_of};

use answers::{Fault, Refusal};

// 10 to 14, 20, 21, 24, 26 and 23, or a plan: its record at the front of the buffer, in edition two, which has the spare bits 01, and how
// many moves it has. The tables are lent for what the order is decoded to, so that a search beside the method has it too; nothing is
// promised of them, since such a search is trusted with nothing.
pub fn make_on(
    order: &[u8],
    rows: &mut [u64; 64],
    starts: &mut [u8; 64],
    goals: &mut [u8; 64],
    buffer: &mut [u8],
) -> Result<usize, Refusal>
    ensures { PlanMade order.now buffer.old (answer_of result) buffer.new }
{
    let counts = floor::judge(order, rows, starts, goals)?;
    let n = counts.positions;
    let e = counts.edges;
    let m = counts.racks;
    if buffer.len() < 18 * (n * (n * n)) + 3 {
        return Err(Refusal(Fault::PlanBuffer, 0));
    }
    let k = method::plan_moves(n, e, m, rows, *starts, *goals, &mut buffer[3..]);
    recording::put_head(buffer, k, 1);
    Ok(k)
}

// The same, for those who have no use for the tables.
pub fn make(order: &[u8], buffer: &mut [u8]) -> Result<usize, Refusal>
    ensures { PlanMade order.now buffer.old (answer_of result) buffer.new }
{
    let mut rows = [0u64; 64];
    let mut starts = [0u8; 64];
    let mut goals = [0u8; 64];
    make_on(order, &mut rows, &mut starts, &mut goals, buffer)
}
