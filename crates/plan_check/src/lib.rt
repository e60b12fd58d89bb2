// The plan checker: a plan of either edition is judged for an order by 10 to 14 and 30 to 36. What a plan record is and what each number
// means stands in crate `plan`; specs/Solutions.antt says which byte strings are accepted, in Surynek's words. `check` is the entry point.
#![tactic(auto)]

ghost use Rattle.std.specs.Prelude.{◌≡◌, cond, [], ◌∷◌, ◌+◌, ◌*◌, ◌^◌, ◌≤◌, ◌<◌, length};
ghost use Rattle.answers.specs.Answer.{accepted};
ghost use Rattle.field.specs.Listed.{move_size, listed_moves};
ghost use Rattle.motion.specs.Move.{misnamed};
ghost use Rattle.order.specs.Verdict.{answer_of as order_answer_of};
ghost use Rattle.tables.specs.Tables.{listed_entries};
ghost use Rattle.tables.specs.MovesOn.{replay_on};
ghost use Rattle.tables.specs.Ending.{end_of};
ghost use Rattle.plan.specs.Plan.{named, plan_answer};
ghost use Rattle.plan.specs.Verdict.{answer_of};
ghost use Rattle.plan_check.specs.Judging.{table_answer, fault_of};

use answers::{Fault, Refusal};

// Does a move name another rack than the one that stands there?
fn misnames(rack: usize, there: u8) -> bool
    ensures { misnamed rack there ≡ cond result 36 0 }
{
    if rack == 0 {
        return false;
    }
    rack != usize::from(there)
}

// A move's fault, 32, 34, 35 or 36 in this order, from what the tables have: the entry of the matrix for its two positions, the rack at
// the position left and the rack at the position entered; and from the rack that it names. Positions of n or more have no edge.
fn move_fault(edge: u8, left: u8, entered: u8, rack: usize) -> Result<(), Fault>
    ensures { fault_of result ≡ listed_entries edge left entered rack }
{
    let another = misnames(rack, left);
    if edge == 0 {
        return Err(Fault::PlanMove);
    }
    if left == 0 {
        return Err(Fault::PlanNoRack);
    }
    if entered != 0 {
        return Err(Fault::PlanOccupied);
    }
    if another {
        return Err(Fault::PlanRack);
    }
    Ok(())
}

// Replays the k moves of a plan's tail on the table of racks: to the first that is not legal, or names another rack.
fn replay(
    tail: &[u8],
    named: bool,
    k: usize,
    matrix: &[u8; 4096],
    racks: &mut [u8; 64],
) -> Result<(), Refusal>
    requires k_bound { k < 2 ^ 22 }
    requires k_bound_2 { 6 * (move_size named * k) ≤ 8 * length tail.now }
    ensures { end_of result racks.new
        ≡ replay_on matrix.now racks.old (listed_moves named tail.now 0 k) }
{
    for j in 0..k {
        let listed = field::listed_at(tail, named, j);
        let step = listed.step;
        let a = step / 64;
        let b = step % 64;
        let rack = racks[a];
        if let Err(fault) = move_fault(matrix[step], rack, racks[b], listed.rack) {
            return Err(Refusal(fault, (j + 1) as u32));
        }
        racks[a] = 0;
        racks[b] = rack;
    }
    Ok(())
}

// The replay's fault, then 33, by tables: a matrix of the floor's edges, and the rack at each position.
fn judge(
    order: &[u8],
    e: usize,
    m: usize,
    plan: &[u8],
    named: bool,
    k: usize,
) -> Result<usize, Refusal>
    requires e_bound { (e < 256) × (m ≤ 64) × (12 * (e + m) ≤ 8 * length order.now) }
    requires k_bound { (k < 2 ^ 22) × (6 * (move_size named * k) ≤ 8 * length plan.now) }
    ensures { answer_of result ≡ table_answer order.now e m plan.now named k }
{
    let mut matrix = [0u8; 4096];
    decoding::mark_edges(order, e, &mut matrix);
    let mut racks = [0u8; 64];
    decoding::place_racks(order, 2 * e, m, &mut racks);
    replay(plan, named, k, &matrix, &mut racks)?;
    if let Some(rack) = tables::misplaced(order, 2 * e + m, m, &racks) {
        return Err(Refusal(Fault::PlanGoal, rack as u32));
    }
    Ok(k)
}

// 10 to 14 and 30 to 36: the verdict on any byte string as a plan for any byte string as an order.
pub fn check(order: &[u8], plan: &[u8]) -> Result<usize, Refusal>
    ensures { answer_of result ≡ plan_answer order.now plan.now }
{
    let counts = order::read(order)?;
    let k = plan::read_record(plan)?;
    let e = counts.edges;
    let m = counts.racks;
    let named = plan::names_racks(plan);
    judge(&order[3..], e, m, &plan[3..], named, k)
}
