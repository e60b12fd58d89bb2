// For the tests: a breakdown as bytes, a position cleared, the part that the step reader gives back byte by byte, and a delivery, through
// C's conventions. This is no part of the product's interface, and include/wichteab.h does not declare it.
#![tactic(auto)]

ghost use Rattle.std.specs.Prelude.{ℕ, ◌≡◌, ◌+◌, ◌≤◌, ◌<◌, List, length, get_or};
ghost use Rattle.graph.specs.Rows.{row};
ghost use Rattle.answers.specs.Answer.{Answer, the_count, answer_by};
ghost use Rattle.timetable.specs.Reading.{part_given};
ghost use Rattle.timetable.specs.Checking.{told};
ghost use Rattle.planner.specs.Planner.{PlanMade};
ghost use Rattle.delivery.specs.Delivery.{answered, call_of};
ghost use Rattle.inspection.specs.Inspection.{up_to, Copied, LaidOut, Inspected, shown_byte};
ghost use Rattle.inspection.specs.Clear.{clear_number, ClearLeft};
ghost use Rattle.inspection.specs.Told.{chosen, value_of, Told};

use answers::Refusal;
use breakdown::Breakdown;
use moving::State;
use timetable::Counts;

// Copies a row into the buffer from byte `at` on: its first `count` bytes, and zeros up to 64.
fn copy_row(bytes: &[u8; 64], count: usize, at: usize, buffer: &mut [u8])
    requires { at + 64 ≤ length buffer.old }
    ensures { Copied (up_to count (row bytes.now)) at 64 buffer.old buffer.new }
{
    let used = count.min(64);
    buffer[at..at + used].copy_from_slice(&bytes[..used]);
    buffer[at + used..at + 64].fill(0);
}

// The four rows of a breakdown of n positions, one after another.
fn lay_out(b: Breakdown, n: usize, buffer: &mut [u8])
    requires { (256 ≤ length buffer.old) × (b.handles < 64) }
    ensures { LaidOut (up_to n (row b.order)) (up_to (b.handles + 1) (row b.start)) (up_to b.handles (row b.left))
        (up_to b.handles (row b.right)) buffer.old buffer.new }
{
    let order = b.order;
    let start = b.start;
    let left = b.left;
    let right = b.right;
    let handles = b.handles;
    copy_row(&order, n, 0, buffer);
    copy_row(&start, handles + 1, 64, buffer);
    copy_row(&left, handles, 128, buffer);
    copy_row(&right, handles, 192, buffer);
}

// The breakdown of an order's floor: the answer has the size of its ring in the low 8 bits and the number of its handles above them, and
// its rows stand in the first 256 bytes of the buffer, each with zeros behind what is used of it. 0, and nothing written, where there is
// none, or the order is refused, or the buffer is shorter.
#[unsafe(no_mangle)]
pub extern "C" fn wichteab_inspect_breakdown(order: &[u8], buffer: &mut [u8]) -> u64
    ensures { Inspected order.now buffer.old buffer.new result }
{
    if buffer.len() < 256 {
        return 0;
    }
    let mut rows = [0u64; 64];
    let mut starts = [0u8; 64];
    let mut goals = [0u8; 64];
    let Ok(counts) = decoding::decode(order, &mut rows, &mut starts, &mut goals) else {
        return 0;
    };
    let n = counts.positions;
    let Some(found) = breakdown::break_down(&rows, n) else {
        return 0;
    };
    lay_out(found, n, buffer);
    (found.ring + found.handles * 256) as u64
}

// Clears a position of an order's floor by the nearest vacancy, with the positions of `held` held and the racks at their starts. The answer
// is 0 where no vacancy has a way to it, else one more than the moves, and the first 64 bytes of the buffer are then the rack at each
// position. 0, and nothing written, where the order is refused or the buffer is shorter too.
#[unsafe(no_mangle)]
pub extern "C" fn wichteab_inspect_clear(
    order: &[u8],
    held: u64,
    position: u64,
    buffer: &mut [u8],
) -> u64
    ensures value { result ≡ clear_number order.now held position (length buffer.old) }
    ensures clear_left { ClearLeft order.now held position buffer.old buffer.new }
{
    if buffer.len() < 64 {
        return 0;
    }
    let mut rows = [0u64; 64];
    let mut starts = [0u8; 64];
    let mut goals = [0u8; 64];
    let Ok(counts) = decoding::decode(order, &mut rows, &mut starts, &mut goals) else {
        return 0;
    };
    if 64 <= position {
        return 0;
    }
    let p = position as usize;
    let state = State {
        racks: starts,
        real: counts.racks,
        written: 0,
        logged: 0,
    };
    let mut log = [0u16; moving::LOG];
    let mut tail = [0u8; 144];
    let clearing = shunting::clear(&rows, counts.positions, held, p, state, &mut log, &mut tail);
    let Some(moves) = clearing.moves else {
        return 0;
    };
    copy_row(&clearing.state.racks, 64, 0, buffer);
    (moves + 1) as u64
}

// The byte at `index` of the part of a timetable that the step reader gives back; 256 from the part's end on. No exported function may
// return a part, so that it is looked at through this one.
#[unsafe(no_mangle)]
pub extern "C" fn wichteab_inspect_step(timetable: &[u8], number: u64, index: u64) -> u64
    ensures { result ≡ shown_byte (part_given timetable.now number) index }
{
    let part = timetable::step(timetable, number as usize);
    let at = index as usize;
    if part.len() <= at {
        return 256;
    }
    usize::from(part[at]) as u64
}

// The first, the second or the third of three numbers.
fn choose(v: u64, x: u64, y: u64, z: u64) -> u64
    ensures { result ≡ chosen v x y z }
{
    match v {
        0 => x,
        1 => y,
        _ => z,
    }
}

// What an accepted answer counts: its first two numbers, 0 for those that it lacks.
trait Counted: Copy {
    ghost values: { Self → List ℕ };

    fn first_two(self) -> (u64, u64)
        ensures { (result.0 ≡ get_or (values self) 0 0) × (result.1 ≡ get_or (values self) 1 0) };
}

impl Counted for usize {
    ghost values = { the_count };

    fn first_two(self) -> (u64, u64) {
        (self as u64, 0)
    }
}

impl Counted for Counts {
    ghost values = { told };

    fn first_two(self) -> (u64, u64) {
        (self.steps as u64, self.moves as u64)
    }
}

// A value of a call: of its answer, if it was reached.
fn call_value<T: Counted>(v: u64, call: Option<Result<T, Refusal>>) -> u64
    ensures { result ≡ value_of v (call_of (answer_by T.values) call) }
{
    match call {
        None => choose(v, 255, 0, 0),
        Some(Ok(counts)) => {
            let (first, second) = counts.first_two();
            choose(v, 0, first, second)
        }
        Some(Err(Refusal(fault, place))) => choose(v, fault.number(), place as u64, 0),
    }
}

// Plans an order by the proved method alone, without the search beside it, and writes the plan to the front of the buffer. The answer is
// one value of the planner's: its number, 0 where it is accepted, or its count of moves or its place (`value` 0, 1).
#[unsafe(no_mangle)]
pub extern "C" fn wichteab_inspect_method(order: &[u8], buffer: &mut [u8], value: u64) -> u64
    ensures { (a : Answer) × PlanMade order.now buffer.old a buffer.new
        × (result ≡ value_of value (answered a)) }
{
    call_value(value, Some(planner::make(order, buffer)))
}

// Delivers an order: the planner, the timetable maker and the timetable checker in turn. The answer is one value of one call: of the
// planner's, the maker's or the checker's (`call` 0, 1, 2) its number, 0 where it is accepted and 255 where it was not reached, its first
// count or its place, or its second count (`value` 0, 1, 2).
#[unsafe(no_mangle)]
pub extern "C" fn wichteab_inspect_delivery(
    order: &[u8],
    plan: &mut [u8],
    timetable: &mut [u8],
    call: u64,
    value: u64,
) -> u64
    ensures { Told order.now plan.old timetable.old call value result plan.new
        timetable.new }
{
    let all = delivery::deliver(order, plan, timetable);
    match call {
        0 => call_value(value, Some(all.plan)),
        1 => call_value(value, all.timetable),
        _ => call_value(value, all.check),
    }
}
