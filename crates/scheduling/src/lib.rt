// The timetable maker: of a plan of either edition that the plan checker accepts it makes the timetable by the making rule.
// specs/Making.antt has the rule, specs/Maker.antt the answer and the buffer afterwards; `make` is the entry point. A pass over the plan
// fills a window of 4096 steps (crates/passing), which is then written; most plans need one. specs/Windows.antt has the steps window by
// window.
#![tactic(auto)]

ghost use Rattle.std.specs.Prelude.{◌≡◌, [], ◌∷◌, ◌+◌, ◌*◌, ◌^◌, ◌≤◌, ◌<◌, length};
ghost use Rattle.answers.specs.Answer.{accepted};
ghost use Rattle.field.specs.PlanMoves.{all_moves};
ghost use Rattle.field.specs.Writing.{written, Fits, Wrote};
ghost use Rattle.plan.specs.Verdict.{answer_of as plan_answer_of};
ghost use Rattle.window.specs.Filling.{latest};
ghost use Rattle.window.specs.Rows.{EntriesFit, Left, row_moves, rows, step_bytes, steps_bytes};
ghost use Rattle.passing.specs.Stretches.{Begun, Kept};
ghost use Rattle.scheduling.specs.Windows.{window_steps, all_steps, Counted};
ghost use Rattle.scheduling.specs.Maker.{maker_answer, buffer_after, steps_answer, answer_of};

use answers::{Fault, Refusal};
use field::Moves;

// Writes the step that a row of the window holds from byte `at` on, and says where the next one begins. Only the entries of the positions
// that its moves leave are read, the lowest first. The count is known last, and written last.
fn write_step(
    window: &[u8; 262144],
    leaving: &[u64; 4096],
    row: usize,
    buffer: &mut [u8],
    at: usize,
) -> usize
    requires row_bound { (row < 4096) × Fits buffer.old at (step_bytes (row_moves window.now row)) }
    requires entries_fit { EntriesFit window.now × Left window.now leaving.now }
    ensures { Wrote buffer.old at (step_bytes (row_moves window.now row)) buffer.new result }
{
    let base = row * 64;
    let mut count = 0;
    let mut rest = leaving[row];
    while rest != 0 {
        let p = sets::lowest(rest);
        let entry = usize::from(window[base + p]);
        recording::put_pair(&mut buffer[at + 1..], count, p, entry - 1);
        count += 1;
        rest = sets::without(rest, p);
    }
    buffer[at] = count as u8;
    at + 1 + (12 * count + 7) / 8
}

// Writes the steps of the window's first n rows from byte `at` on, and says where the next step begins.
fn write_window(
    window: &[u8; 262144],
    leaving: &[u64; 4096],
    n: usize,
    buffer: &mut [u8],
    at: usize,
) -> usize
    requires n_bound { (n ≤ 4096) × Fits buffer.old at (steps_bytes (rows window.now 0 n)) }
    requires entries_fit { EntriesFit window.now × Left window.now leaving.now }
    ensures { Wrote buffer.old at (steps_bytes (rows window.now 0 n)) buffer.new result }
{
    let mut next = at;
    for row in 0..n {
        next = write_step(window, leaving, row, buffer, next);
    }
    next
}

// How far a timetable is written: so many windows, of so many steps in all, and where the next step begins.
#[derive(Clone, Copy)]
struct Progress {
    windows: usize,
    steps: usize,
    next: usize,
}

// Makes and writes the steps of the next window. How many steps there are in all is known from the first one on.
fn make_window(
    moves: &Moves,
    book: &mut [[u32; 128]],
    due: &mut [usize],
    buffer: &mut [u8],
    done: Progress,
) -> Progress
    requires k_nonzero { (0 < moves.now.count) × (4096 * done.windows < 2 ^ 22) }
    requires due_nonzero { (0 < length due.old)
        × Kept moves.now.named moves.now.tail.now moves.now.count (length due.old) (4096 * done.windows) book.old due.old }
    requires counted { Counted (all_moves moves.now) due.old done.steps done.windows
        × Fits buffer.old done.next (steps_bytes (window_steps (all_moves moves.now) (4096 * done.windows))) }
    ensures windows_value { (result.windows ≡ done.windows + 1) × (result.steps ≡ latest (all_moves moves.now))
        × Kept moves.now.named moves.now.tail.now moves.now.count (length due.old) (4096 * result.windows) book.new due.new }
    ensures wrote { Wrote buffer.old done.next
        (steps_bytes (window_steps (all_moves moves.now) (4096 * done.windows))) buffer.new result.next }
{
    let mut window = [0u8; 262144];
    let mut leaving = [0u64; 4096];
    let first = 4096 * done.windows;
    let found = passing::pass_plan(moves, first, book, due, &mut window, &mut leaving);
    let steps = done.steps.max(found);
    let n = steps.saturating_sub(first).min(4096);
    let next = write_window(&window, &leaving, n, buffer, done.next);
    Progress {
        windows: done.windows + 1,
        steps,
        next,
    }
}

// Makes and writes all steps of a plan's moves behind the record's head, window by window, and says how many they are. Until
// that is known it counts as 1, so that the first window is made.
fn make_windows(
    moves: &Moves,
    book: &mut [[u32; 128]],
    due: &mut [usize],
    buffer: &mut [u8],
) -> usize
    requires k_nonzero { (0 < moves.now.count)
        × Fits buffer.old 3 (steps_bytes (all_steps (all_moves moves.now))) }
    requires due_nonzero { (0 < length due.old) × Begun due.old
        × Kept moves.now.named moves.now.tail.now moves.now.count (length due.old) 0 book.old due.old }
    ensures { (result ≡ latest (all_moves moves.now))
        × (buffer.new ≡ written buffer.old 3 (steps_bytes (all_steps (all_moves moves.now)))) }
{
    let mut done = Progress {
        windows: 0,
        steps: 1,
        next: 3,
    };
    while 4096 * done.windows < done.steps {
        done = make_window(moves, book, due, buffer, done);
    }
    done.steps
}

// So many moves are passed as one stretch: a book for more of them takes longer to clear than is saved.
const ORDINARY: usize = 16384;

// Makes and writes all steps, with a book of so many stretches, which has a row more, and says how many they are. A function of its own:
// a book that stood in `make_steps` would be cleared for every plan, whichever of the two it is made with.
fn make_steps_in<const ROWS: usize, const STRETCHES: usize>(
    moves: &Moves,
    buffer: &mut [u8],
) -> usize
    requires k_nonzero { (0 < moves.now.count)
        × Fits buffer.old 3 (steps_bytes (all_steps (all_moves moves.now))) }
    requires rows { (ROWS ≡ STRETCHES + 1) × (0 < STRETCHES) × (STRETCHES ≤ 128) }
    ensures { (result ≡ latest (all_moves moves.now))
        × (buffer.new ≡ written buffer.old 3 (steps_bytes (all_steps (all_moves moves.now)))) }
{
    let mut book = [[0u32; 128]; ROWS];
    let mut due = [0usize; STRETCHES];
    make_windows(moves, &mut book, &mut due, buffer)
}

// Makes and writes all steps, with a book of as many stretches as the plan's length is worth, and says how many they are.
fn make_steps(moves: &Moves, buffer: &mut [u8]) -> usize
    requires { Fits buffer.old 3 (steps_bytes (all_steps (all_moves moves.now))) }
    ensures { (result ≡ latest (all_moves moves.now))
        × (buffer.new ≡ written buffer.old 3 (steps_bytes (all_steps (all_moves moves.now)))) }
{
    if moves.count == 0 {
        return 0;
    }
    if moves.count <= ORDINARY {
        return make_steps_in::<2, 1>(moves, buffer);
    }
    make_steps_in::<129, 128>(moves, buffer)
}

// How many steps the timetable of a plan for an order has, which is not written: the plan checker's numbers, or that count.
pub fn count_steps(order: &[u8], plan: &[u8]) -> Result<usize, Refusal>
    ensures { answer_of result ≡ steps_answer order.now plan.now }
{
    let k = plan_check::check(order, plan)?;
    let moves = Moves {
        tail: &plan[3..],
        named: plan::names_racks(plan),
        count: k,
    };
    Ok(passing::latest_step(&moves))
}

// Makes the timetable of a plan for an order and writes it at the front of the buffer: the plan checker's numbers, then 44.
pub fn make(order: &[u8], plan: &[u8], buffer: &mut [u8]) -> Result<usize, Refusal>
    ensures result_value { answer_of result ≡ maker_answer order.now plan.now (length buffer.old) }
    ensures buffer_after { buffer.new ≡ buffer_after order.now plan.now buffer.old }
{
    let k = plan_check::check(order, plan)?;
    if buffer.len() < 3 * k + 3 {
        return Err(Refusal(Fault::TimetableBuffer, 0));
    }
    let moves = Moves {
        tail: &plan[3..],
        named: plan::names_racks(plan),
        count: k,
    };
    let s = make_steps(&moves, buffer);
    recording::put_head(buffer, s, 0);
    Ok(s)
}
