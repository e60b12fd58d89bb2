// One pass over a stretch of a plan: the making rule's step of each move, by a row of the positions in place of the moves before it, and
// the window of 4096 steps that is filled with those of its steps. specs/Filling.antt has the pass and the window, specs/Rows.antt the
// row; `fill` is the entry point.
#![tactic(auto)]

ghost use Rattle.std.specs.Prelude.{◌≡◌, ◌+◌, ◌-◌, ◌*◌, ◌^◌, ◌≤◌, ◌<◌, length};
ghost use Rattle.field.specs.Listed.{move_size, moves_at};
ghost use Rattle.window.specs.Rows.{KeepsLeft};
ghost use Rattle.window.specs.Filling.{noted, pass_in, Early, PassMade};

use field::Moves;

// Enters the move from a to b, of step t, into the window of the 4096 steps after step `first`, if that has its step.
fn note(
    window: &mut [u8; 262144],
    leaving: &mut [u64; 4096],
    first: usize,
    t: usize,
    a: usize,
    b: usize,
)
    requires { (a < 64) × (b < 64) }
    ensures window_after { window.new ≡ noted first window.old t a b }
    ensures keeps_left { KeepsLeft window.old leaving.old window.new leaving.new }
{
    if t <= first {
        return;
    }
    let row = t - 1 - first;
    if row < 4096 {
        window[row * 64 + a] = (b + 1) as u8;
        leaving[row] = sets::with(leaving[row], a);
    }
}

// Enters the move if the window has its step. If its step lies behind the window, it is due, and so is whichever comes first of it and the
// one that was due so far.
fn enter(
    window: &mut [u8; 262144],
    leaving: &mut [u64; 4096],
    first: usize,
    t: usize,
    a: usize,
    b: usize,
    due: usize,
) -> usize
    requires { (first < 2 ^ 22) × (a < 64) × (b < 64) }
    ensures window_after { (window.new ≡ noted first window.old t a b) × (result ≤ due) × (first + 4096 < t → result ≤ t) }
    ensures keeps_left { KeepsLeft window.old leaving.old window.new leaving.new }
{
    if first + 4096 < t {
        return due.min(t);
    }
    note(window, leaving, first, t, a, b);
    due
}

// The longest train, as a number of steps' places.
const LONGEST: usize = motion::LONGEST as usize;

// What a pass over a stretch finds: the greatest step, and the first one behind the window.
#[derive(Clone, Copy)]
pub struct Found {
    pub greatest: usize,
    pub due: usize,
}

// What is due where no step lies behind the window: a number above every step, and above the last step of every window.
// Kept as a number, not an Option: the earlier of two is then their minimum, and an Option would have each case told apart.
const NEVER: usize = 8388608;

// One pass over the moves from move `from` to move `end` of a plan: enters those of the 4096 steps after step `first` into the
// window. The row has for each position the last step of the rack that now stands there, so that no arrangement is needed, and 64 numbers
// behind it the latest turn that left the position. A turn is a move's step and the moves ahead of it in its chain there as one number, so
// that behind the last place of a full train comes the first of the next step.
pub fn fill(
    moves: &Moves,
    from: usize,
    end: usize,
    first: usize,
    row: &mut [u32; 128],
    window: &mut [u8; 262144],
    leaving: &mut [u64; 4096],
) -> Found
    requires from_le_end { (from ≤ end) × (end ≤ moves.now.count) × (first < 2 ^ 22) }
    requires early { Early from (pass_in row.old window.old 0) }
    ensures pass_made { PassMade first row.old window.old
        (moves_at moves.now.named moves.now.tail.now (6 * (move_size moves.now.named * from)) (end - from))
        result.greatest result.due row.new window.new }
    ensures keeps_left { KeepsLeft window.old leaving.old window.new leaving.new }
{
    let mut greatest: usize = 0;
    let mut due = NEVER;
    for j in from..end {
        let step = moves.at(j);
        let a = step.first;
        let b = step.second;
        let turn = (LONGEST * (row[a] as usize + 1)).max(row[64 + b] as usize + 1);
        let t = turn / LONGEST;
        row[b] = t as u32;
        row[64 + a] = turn as u32;
        greatest = greatest.max(t);
        due = enter(window, leaving, first, t, a, b, due);
    }
    Found { greatest, due }
}
