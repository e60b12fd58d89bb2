// The C interface: include/wichteab.h says the same in C's words. Every function takes byte strings as pointer and length and
// returns one number; none changes a byte that it was lent to read, and a refusal changes no byte at all. The number is an answer, packed,
// or a length. The season report is five numbers more, in an array that the caller lends. The last four functions take the live floor's
// picture, a struct that the caller holds.
#![tactic(auto)]

ghost use Rattle.std.specs.Prelude.{ℕ, ◌<◌, ◌^◌, ◌≡◌, [], length, IfOk};
ghost use Rattle.answers.specs.Answer.{Answer, the_count, answer_by};
ghost use Rattle.answers.specs.Found.{found};
ghost use Rattle.order.specs.Order.{order_answer};
ghost use Rattle.order.specs.RecordLength.{whole_order_length};
ghost use Rattle.floor.specs.FloorAnswer.{floor_answer};
ghost use Rattle.models.specs.Expansion.{expand_answer, buffer_after as order_buffer_after};
ghost use Rattle.parity.specs.OneVacancy.{vacancy_answer};
ghost use Rattle.plan.specs.Plan.{plan_answer};
ghost use Rattle.converting.specs.Converter.{converter_answer, buffer_after as converted_buffer_after};
ghost use Rattle.planner.specs.Planner.{PlanMade};
ghost use Rattle.scheduling.specs.Maker.{maker_answer, buffer_after};
ghost use Rattle.carry.specs.CarryAnswer.{carry_answer, buffer_after as carry_buffer_after};
ghost use Rattle.season.specs.Season.{season_answer, told_by, told};
ghost use Rattle.shortening.specs.Shortener.{shortener_answer, buffer_after as plan_buffer_after};
ghost use Rattle.timetable.specs.Timetable.{timetable_answer, step_answer};
ghost use Rattle.timetable.specs.RecordLength.{whole_timetable_length};
ghost use Rattle.live.specs.Roles.{role_of, opening, reading, running, taking_back};
ghost use Rattle.live.specs.Calls.{call_answer, by_answer, picture_after, answer_of as live_answer_of};
ghost use Rattle.packing.specs.Packed.{packed, nothing, one_count, steps_and_moves, length_and_offset, start_goal_moves};
ghost use Rattle.controller.specs.Report.{numbers, or_none, report_after};
ghost use Rattle.packing.specs.Unpacked.{Tells, uncounted, nothing_of, plan_moves_of, made_steps_of, steps_and_moves_of};
ghost use Rattle.packing.specs.Unpacked.{offset_and_length_of, record_length_of, judgement_of, floor_steps_of, start_goal_moves_of};

use answers::Refusal;
use live::{Floor, Role};
use parity::Hope;
use season::{Summary, Totals};
use timetable::{Counts, Part};

// A judgement as one number, without what an accepted input yields.
fn judged<T: Copy>(judgement: Result<T, Refusal>) -> u64
    ensures { result ≡ packed nothing (answer_by (λ x. []) judgement) }
{
    match judgement {
        Ok(_) => 0,
        Err(refusal) => packing::refusal(refusal),
    }
}

// A count, or why there is none, as one number.
fn counted(count: Result<usize, Refusal>) -> u64
    requires { IfOk count (λ n. n < 2 ^ 56) }
    ensures { result ≡ packed one_count (answer_by the_count count) }
{
    match count {
        Ok(n) => packing::one_count(n),
        Err(why) => packing::refusal(why),
    }
}

// The same of the steps that the live floor counts.
// Kept as a match: on its branch the count is known to have 32 bits, which the proof needs.
fn floor_counted(steps: Result<u32, Refusal>) -> u64
    ensures { Tells one_count floor_steps_of (live_answer_of steps) result }
{
    match steps {
        Ok(run) => packing::one_count(run as usize),
        Err(refusal) => packing::refusal(refusal),
    }
}

// Judges an order by 10 to 14.
#[unsafe(no_mangle)]
pub extern "C" fn wichteab_order_check(order: &[u8]) -> u64
    ensures { Tells nothing nothing_of (uncounted (order_answer order.now)) result }
{
    judged(order::read(order))
}

// Judges an order by 10 to 14, 20, 21, 24 and 26: whether its floor can be planned at all.
#[unsafe(no_mangle)]
pub extern "C" fn wichteab_floor_check(order: &[u8]) -> u64
    ensures { Tells nothing nothing_of (floor_answer order.now) result }
{
    judged(floor::check(order))
}

// Writes a short order out as a full one to the front of the buffer, judged by 50, 51, 14 and 52. Accepted, it gives the full order's
// length.
#[unsafe(no_mangle)]
pub extern "C" fn wichteab_order_expand(short: &[u8], buffer: &mut [u8]) -> u64
    ensures tells { Tells one_count record_length_of (expand_answer short.now (length buffer.old)) result }
    ensures buffer_after { buffer.new ≡ order_buffer_after short.now buffer.old }
{
    counted(models::expand(short, buffer))
}

// Tells whether an order with one vacant position is hopeless, judged by 10 to 14, 29 and 21. Accepted, it gives 1 for impossible and 0 for
// not judged.
#[unsafe(no_mangle)]
pub extern "C" fn wichteab_one_vacancy(order: &[u8]) -> u64
    ensures { Tells one_count judgement_of (vacancy_answer order.now) result }
{
    match parity::one_vacancy(order) {
        Ok(Hope::Impossible) => 256,
        Ok(Hope::NotJudged) => 0,
        Err(refusal) => packing::refusal(refusal),
    }
}

// Makes a plan for an order and writes it to the front of the buffer, judged by 10 to 14, 20, 21, 24, 26 and 23. Accepted, it gives the
// plan's moves.
#[unsafe(no_mangle)]
pub extern "C" fn wichteab_plan_make(order: &[u8], buffer: &mut [u8]) -> u64
    ensures { (a : Answer) × Tells one_count plan_moves_of a result
        × PlanMade order.now buffer.old a buffer.new }
{
    counted(choosing::make(order, buffer))
}

// Judges a plan for an order by 10 to 14 and 30 to 36. Accepted, it gives the plan's moves.
#[unsafe(no_mangle)]
pub extern "C" fn wichteab_plan_check(order: &[u8], plan: &[u8]) -> u64
    ensures { Tells one_count plan_moves_of (plan_answer order.now plan.now) result }
{
    counted(plan_check::check(order, plan))
}

// Takes the moves that cancel out of a plan for an order and writes what is left to the front of the buffer, judged by 10 to 14, 30 to 36
// and 37. Accepted, it gives the moves written.
#[unsafe(no_mangle)]
pub extern "C" fn wichteab_plan_shorten(order: &[u8], plan: &[u8], buffer: &mut [u8]) -> u64
    ensures tells { Tells one_count plan_moves_of
        (shortener_answer order.now plan.now (length buffer.old)) result }
    ensures buffer_after { buffer.new ≡ plan_buffer_after order.now plan.now buffer.old }
{
    counted(shortening::shorten(order, plan, buffer))
}

// Writes a plan for an order in the other edition to the front of the buffer, judged by 10 to 14, 30 to 36 and 38. Accepted, it gives the
// plan's moves.
#[unsafe(no_mangle)]
pub extern "C" fn wichteab_plan_convert(order: &[u8], plan: &[u8], buffer: &mut [u8]) -> u64
    ensures tells { Tells one_count plan_moves_of
        (converter_answer order.now plan.now (length buffer.old)) result }
    ensures buffer_after { buffer.new ≡ converted_buffer_after order.now plan.now buffer.old }
{
    counted(converting::convert(order, plan, buffer))
}

// Writes the plan of the dearest carry of one rack alone on an order's floor to the front of the buffer, judged by 10 to 14, 27 and 28.
// Accepted, it gives the start, the goal and the plan's moves.
#[unsafe(no_mangle)]
pub extern "C" fn wichteab_dearest_carry(order: &[u8], buffer: &mut [u8]) -> u64
    ensures tells { Tells start_goal_moves start_goal_moves_of (carry_answer order.now (length buffer.old)) result }
    ensures buffer_after { buffer.new ≡ carry_buffer_after order.now buffer.old }
{
    match carry::make(order, buffer) {
        Ok(carry) => packing::start_goal_moves(carry.start, carry.goal, carry.moves),
        Err(refusal) => packing::refusal(refusal),
    }
}

// Judges a timetable for an order by 10 to 14 and 40 to 43. Accepted, it gives the timetable's steps and moves.
#[unsafe(no_mangle)]
pub extern "C" fn wichteab_timetable_check(order: &[u8], timetable: &[u8]) -> u64
    ensures { Tells steps_and_moves steps_and_moves_of (timetable_answer order.now timetable.now) result }
{
    match timetable_check::check(order, timetable) {
        Ok(Counts { steps, moves }) => packing::steps_and_moves(steps, moves),
        Err(refusal) => packing::refusal(refusal),
    }
}

// Makes the timetable of a plan for an order and writes it to the front of the buffer, judged by 10 to 14, 30 to 36 and 44. Accepted, it
// gives the timetable's steps.
#[unsafe(no_mangle)]
pub extern "C" fn wichteab_timetable_make(order: &[u8], plan: &[u8], buffer: &mut [u8]) -> u64
    ensures tells { Tells one_count made_steps_of (maker_answer order.now plan.now (length buffer.old)) result }
    ensures buffer_after { buffer.new ≡ buffer_after order.now plan.now buffer.old }
{
    counted(scheduling::make(order, plan, buffer))
}

// Finds a step of a timetable, judged by 40, 41 and 45. Accepted, it gives the step's length and where it begins.
#[unsafe(no_mangle)]
pub extern "C" fn wichteab_timetable_step(timetable: &[u8], number: u64) -> u64
    ensures { Tells length_and_offset offset_and_length_of (step_answer timetable.now number) result }
{
    match timetable::find_step(timetable, number as usize) {
        Ok(Part { offset, len }) => packing::length_and_offset(offset, len),
        Err(missing) => packing::refusal(missing),
    }
}

// A parallelism as one number; all ones where there is none.
fn parallelism_number(p: Option<u64>) -> u64
    ensures { result ≡ or_none (told_by p) }
{
    p.unwrap_or(u64::MAX)
}

// The five numbers of a report, and 0 for an accepted season.
fn put_report(made: Summary, report: &mut [u64; 5]) -> u64
    ensures value { result ≡ 0 }
    ensures report_after { report.new ≡ numbers (told made) }
{
    let Totals {
        accepted,
        refused,
        steps,
        moves,
    } = made.totals;
    let last = parallelism_number(made.parallelism);
    *report = [accepted, refused, steps, moves, last];
    0
}

// Reports on a season, order and timetable pairs one after another, judged by 46 and 47. Accepted, it writes the five numbers.
#[unsafe(no_mangle)]
pub extern "C" fn wichteab_season_report(bytes: &[u8], report: &mut [u64; 5]) -> u64
    ensures tells { Tells nothing nothing_of (uncounted (season_answer bytes.now)) result }
    ensures report_after { report.new ≡ report_after (season_answer bytes.now) report.old }
{
    match season::report(bytes) {
        Ok(made) => put_report(made, report),
        Err(refusal) => packing::refusal(refusal),
    }
}

// A length as one number; 0 where there is none.
fn or_zero(length: Option<usize>) -> u64
    ensures { (n : ℕ) → length ≡ found n → result ≡ n }
{
    length.unwrap_or(0) as u64
}

// The length of the order that the bytes begin with, by its counts alone; 0 where the bytes end before it does.
#[unsafe(no_mangle)]
pub extern "C" fn wichteab_order_length(bytes: &[u8]) -> u64
    ensures { result ≡ whole_order_length bytes.now }
{
    or_zero(order::record_length(bytes))
}

// The length of the timetable that the bytes begin with, by its step count and its count bytes alone; 0 where the bytes end before it
// does.
#[unsafe(no_mangle)]
pub extern "C" fn wichteab_timetable_length(bytes: &[u8]) -> u64
    ensures { result ≡ whole_timetable_length bytes.now }
{
    or_zero(timetable::record_length(bytes))
}

// Opens the live floor with an order and a timetable, judged by 60, 10 to 14 and 40 to 43: each rack stands at its start. Accepted, it
// gives 0, the steps run.
#[unsafe(no_mangle)]
pub extern "C" fn wichteab_floor_open(
    floor: &mut Floor,
    role: u32,
    order: &[u8],
    timetable: &[u8],
) -> u64
    ensures { Tells one_count floor_steps_of
        (call_answer opening (role_of role) floor.old order.now timetable.now) result
        × (floor.new ≡ picture_after opening (role_of role) floor.old order.now timetable.now) }
{
    floor_counted(live::open(floor, Role::from(role), order, timetable))
}

// Reads the live floor, judged by 60, 10 to 14 and 40 to 43. Accepted, the table has the rack at each position, and it gives the steps run
// and not taken back.
#[unsafe(no_mangle)]
pub extern "C" fn wichteab_floor_read(
    floor: &Floor,
    role: u32,
    order: &[u8],
    timetable: &[u8],
    racks: &mut [u8; 64],
) -> u64
    ensures { Tells one_count floor_steps_of
        (call_answer reading (role_of role) floor.now order.now timetable.now) result
        × (racks.new ≡ by_answer
        (call_answer reading (role_of role) floor.now order.now timetable.now)
        floor.now.racks racks.old) }
{
    floor_counted(live::read(floor, Role::from(role), order, timetable, racks))
}

// Runs the next step of the lent timetable on the live floor, judged by 60, 10 to 14, 40 to 43 and 61. Accepted, it gives the steps run and
// not taken back.
#[unsafe(no_mangle)]
pub extern "C" fn wichteab_floor_run(
    floor: &mut Floor,
    role: u32,
    order: &[u8],
    timetable: &[u8],
) -> u64
    ensures { Tells one_count floor_steps_of
        (call_answer running (role_of role) floor.old order.now timetable.now) result
        × (floor.new ≡ picture_after running (role_of role) floor.old order.now timetable.now) }
{
    floor_counted(live::run(floor, Role::from(role), order, timetable))
}

// Takes the last step back, as the lent timetable has it, judged by 60, 10 to 14, 40 to 43 and 62. Accepted, it gives the steps run and not
// taken back.
#[unsafe(no_mangle)]
pub extern "C" fn wichteab_floor_take_back(
    floor: &mut Floor,
    role: u32,
    order: &[u8],
    timetable: &[u8],
) -> u64
    ensures { Tells one_count floor_steps_of
        (call_answer taking_back (role_of role) floor.old order.now timetable.now) result
        × (floor.new ≡ picture_after taking_back (role_of role) floor.old order.now timetable.now) }
{
    floor_counted(live::take_back(floor, Role::from(role), order, timetable))
}
