// Passes over a whole plan, stretch by stretch: those without a move of the window are left out. specs/Stretches.antt has a plan in
// stretches, crate `window` the pass over one of them. `pass_plan` and `latest_step` are the entry points.
#![tactic(auto)]

ghost use Rattle.std.specs.Prelude.{◌≡◌, ◌+◌, ◌*◌, ◌^◌, ◌≤◌, ◌<◌, length};
ghost use Rattle.field.specs.PlanMoves.{all_moves};
ghost use Rattle.window.specs.Rows.{KeepsLeft};
ghost use Rattle.window.specs.Filling.{empty_window, latest};
ghost use Rattle.passing.specs.Stretches.{Kept, PlanPassed};

use field::Moves;

// One pass over a plan's moves, for the window of the 4096 steps after step `first`: it goes over as many stretches as there
// are due steps, and leaves out those whose due step lies behind the window. The book has for each stretch the row before its first move,
// and one row more. In the first pass each step 0 is due, so that every row is made from the one before it. Gives the greatest step of the
// stretches that were not left out.
pub fn pass_plan(
    moves: &Moves,
    first: usize,
    book: &mut [[u32; 128]],
    due: &mut [usize],
    window: &mut [u8; 262144],
    leaving: &mut [u64; 4096],
) -> usize
    requires first_bound { first < 2 ^ 22 }
    requires due_nonzero { (0 < length due.old)
        × Kept moves.now.named moves.now.tail.now moves.now.count (length due.old) first book.old due.old }
    requires window_value { window.old ≡ empty_window }
    ensures plan_passed { PlanPassed moves.now.named moves.now.tail.now moves.now.count (length due.old) first due.old
        result window.new book.new due.new }
    ensures keeps_left { KeepsLeft window.old leaving.old window.new leaving.new }
{
    let size = moves.count / due.len() + 1;
    let mut greatest: usize = 0;
    let mut from = 0;
    for i in 0..due.len() {
        let end = (from + size).min(moves.count);
        if due[i] <= first + 4096 {
            let mut row = book[i];
            let found = window::fill(moves, from, end, first, &mut row, window, leaving);
            book[i + 1] = row;
            due[i] = found.due;
            greatest = greatest.max(found.greatest);
        }
        from = end;
    }
    greatest
}

// The greatest step of a plan's moves: one pass, whose window is not written.
pub fn latest_step(moves: &Moves) -> usize
    ensures { result ≡ latest (all_moves moves.now) }
{
    let mut row = [0u32; 128];
    let mut window = [0u8; 262144];
    let mut leaving = [0u64; 4096];
    let found = window::fill(
        moves,
        0,
        moves.count,
        0,
        &mut row,
        &mut window,
        &mut leaving,
    );
    found.greatest
}
