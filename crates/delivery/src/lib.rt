// Demand 3 in one function: the planner on an order, the timetable maker on that order and the plan just written, and the timetable
// checker on that order and the timetable just written. specs/Delivery.antt says what the three calls answer and leave (`Called`), and
// that demand 3 (specs/Theorems.antt) is then true in their answers (`DeliversBy`).
#![tactic(auto)]

ghost use Rattle.delivery.specs.Delivery.{Called, DeliversBy, answers_of};

use answers::Refusal;
use timetable::Counts;

// The answers of the three calls, side by side. A refusal by the maker is no refusal of them all: the plan stays written.
#[derive(Clone, Copy)]
pub struct Delivery {
    pub plan: Result<usize, Refusal>,
    pub timetable: Option<Result<usize, Refusal>>,
    pub check: Option<Result<Counts, Refusal>>,
}

// Makes the three calls in turn, as far as none refuses, with a buffer lent for the plan and one for the timetable. Each record is handed
// on alone, from its buffer's first byte to the record's last.
pub fn deliver(order: &[u8], plan: &mut [u8], timetable: &mut [u8]) -> Delivery
    ensures called { Called order.now plan.old timetable.old (answers_of result) plan.new
        timetable.new }
    ensures delivered { DeliversBy order.now plan.old timetable.old (answers_of result)
        plan.new timetable.new }
{
    let planned = choosing::make(order, plan);
    let Ok(moves) = planned else {
        return Delivery {
            plan: planned,
            timetable: None,
            check: None,
        };
    };
    let plan_end = 3 + (6 * (3 * moves) + 7) / 8;
    let made = scheduling::make(order, &plan[..plan_end], timetable);
    let Ok(steps) = made else {
        return Delivery {
            plan: planned,
            timetable: Some(made),
            check: None,
        };
    };
    let Some(timetable_end) = timetable::record_length(timetable) else {
        unreachable!()
    };
    let checked = timetable_check::check(order, &timetable[..timetable_end]);
    Delivery {
        plan: Ok(moves),
        timetable: Some(Ok(steps)),
        check: Some(checked),
    }
}
