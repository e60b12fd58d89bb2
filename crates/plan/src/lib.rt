// The plan record and its reader: any byte string is judged by 30 and 31 of document 01's table, in either edition. specs/Plan.antt says
// what a plan record is and what each number means; `read_record` is the entry point. Crate `plan_check` judges a plan for an order.
#![tactic(auto)]

ghost use Rattle.std.specs.Prelude.{◌≡◌, ◌*◌, ◌^◌, ◌≤◌, ◌<◌, length};
ghost use Rattle.field.specs.Listed.{move_size};
ghost use Rattle.plan.specs.Plan.{spare_bits, named};
ghost use Rattle.plan.specs.Readers.{record_answer};
ghost use Rattle.plan.specs.Verdict.{answer_of};

use answers::{Fault, Refusal};

// Do a plan's moves name their racks? The spare bits tell the edition.
pub fn names_racks(plan: &[u8]) -> bool
    requires { 3 ≤ length plan.now }
    ensures { result ≡ named plan.now }
{
    field::spare_at_head(plan) == 1
}

// How many fields of 6 bits k moves have: three each where they name their racks, else two.
pub fn units(named: bool, k: usize) -> usize
    requires { k < 2 ^ 22 }
    ensures { (result ≡ move_size named * k) × (result < 2 ^ 32) }
{
    if named {
        return 3 * k;
    }
    2 * k
}

// The spare bits of the edition whose moves name their racks, or of the other.
pub fn spare_bits(named: bool) -> usize
    ensures { (result ≡ spare_bits named) × (result < 4) }
{
    if named {
        return 1;
    }
    0
}

// 30 and 31.
pub fn read_record(plan: &[u8]) -> Result<usize, Refusal>
    ensures { answer_of result ≡ record_answer plan.now }
{
    if plan.len() < 3 {
        return Err(Refusal(Fault::PlanLength, 0));
    }
    let k = field::count_at_head(plan);
    let q = units(names_racks(plan), k);
    if !field::units_fit(plan, q) {
        return Err(Refusal(Fault::PlanLength, 0));
    }
    if field::spare_at_head(plan) > 1 {
        return Err(Refusal(Fault::PlanPadding, 0));
    }
    if !field::pad_clear(plan, q) {
        return Err(Refusal(Fault::PlanPadding, 0));
    }
    Ok(k)
}
