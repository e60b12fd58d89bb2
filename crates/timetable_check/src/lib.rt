// The timetable checker: a byte string is judged for an order, by 10 to 14, 40 and 41, and its steps are replayed on tables, for 42 and 43.
// What each number means stands in crate `timetable`; specs/Solutions.antt says which byte strings are accepted, in Surynek's words.
// `check` is the entry point.
#![tactic(auto)]

ghost use Rattle.std.specs.Prelude.{◌≡◌, false, [], ◌∷◌, ◌+◌, ◌*◌, ◌^◌, ◌≤◌, ◌<◌, length, get_or};
ghost use Rattle.answers.specs.Answer.{accepted};
ghost use Rattle.order.specs.Verdict.{answer_of as order_answer_of};
ghost use Rattle.tables.specs.Ending.{end_of};
ghost use Rattle.chains.specs.StepOn.{legal_step_on, ran_on};
ghost use Rattle.trains.specs.StepsOn.{replay_steps_on};
ghost use Rattle.timetable.specs.Timetable.{step_length, wrong_timetable_length, step_count, step_moves, steps_of};
ghost use Rattle.timetable.specs.Timetable.{timetable_answer};
ghost use Rattle.timetable.specs.Checking.{told, answer_of_check};
ghost use Rattle.timetable_check.specs.Judging.{table_answer};

use answers::{Fault, Refusal};
use timetable::Counts;

// Judges a step by a matrix of the floor's edges and the rack at each position, and makes it if it is legal. The step is the whole part,
// from its count byte to its pad.
fn run_part(step: &[u8], matrix: &[u8; 4096], racks: &mut [u8; 64]) -> bool
    requires { length step.now ≡ step_length (get_or step.now 0 0) }
    ensures judged { result ≡ legal_step_on matrix.now racks.old (step_moves step.now) }
    ensures made { racks.new ≡ ran_on matrix.now racks.old (step_moves step.now) }
{
    trains::run_step(&step[1..], usize::from(step[0]), matrix, racks)
}

// Replays the steps of a timetable on the table of racks: to the first that is not legal.
fn replay(
    timetable: &[u8],
    count: usize,
    matrix: &[u8; 4096],
    racks: &mut [u8; 64],
) -> Result<(), Refusal>
    requires { (wrong_timetable_length timetable.now ≡ false) × (count ≡ step_count timetable.now) × (count < 2 ^ 22) }
    ensures { end_of result racks.new ≡
        replay_steps_on matrix.now racks.old (steps_of timetable.now) }
{
    let mut at = 3;
    for i in 0..count {
        let next = at + timetable::step_length(timetable[at]);
        if !run_part(&timetable[at..next], matrix, racks) {
            return Err(Refusal(Fault::TimetableStep, (i + 1) as u32));
        }
        at = next;
    }
    Ok(())
}

// The replay's fault, then 43, by tables: a matrix of the floor's edges, and the rack at each position.
fn judge(
    order: &[u8],
    e: usize,
    m: usize,
    timetable: &[u8],
    counts: Counts,
) -> Result<Counts, Refusal>
    requires e_bound { (e < 256) × (m ≤ 64) × (12 * (e + m) ≤ 8 * length order.now) }
    requires timetable_value { (wrong_timetable_length timetable.now ≡ false) × (counts.steps ≡ step_count timetable.now)
        × (counts.steps < 2 ^ 22) }
    ensures { answer_of_check result ≡ table_answer order.now e m timetable.now (told counts) }
{
    let mut matrix = [0u8; 4096];
    decoding::mark_edges(order, e, &mut matrix);
    let mut racks = [0u8; 64];
    decoding::place_racks(order, 2 * e, m, &mut racks);
    replay(timetable, counts.steps, &matrix, &mut racks)?;
    if let Some(rack) = tables::misplaced(order, 2 * e + m, m, &racks) {
        return Err(Refusal(Fault::TimetableGoal, rack as u32));
    }
    Ok(counts)
}

// 10 to 14 and 40 to 43: the verdict on any byte string as a timetable for any byte string as an order.
pub fn check(order: &[u8], timetable: &[u8]) -> Result<Counts, Refusal>
    ensures { answer_of_check result ≡ timetable_answer order.now timetable.now }
{
    let read = order::read(order)?;
    let counts = timetable::read(timetable)?;
    judge(&order[3..], read.edges, read.racks, timetable, counts)
}
