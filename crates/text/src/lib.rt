// The timetable program and the text that it prints, written into a lent buffer. specs/Program.antt and specs/Text.antt say what is
// printed, field's specs/Writing.antt what a writer leaves in the buffer, byte for byte, and where the next one begins.
#![tactic(auto)]

ghost use Rattle.std.specs.Prelude.{◌≡◌, false, ◌*◌, ◌≤◌, length, get_or};
ghost use Rattle.field.specs.Bits.{pairs};
ghost use Rattle.field.specs.Writing.{Fits, Wrote};
ghost use Rattle.timetable.specs.Timetable.{step_length, step_count, step_moves, steps_of, wrong_timetable_length};
ghost use Rattle.timetable.specs.Reading.{WellPacked};
ghost use Rattle.text.specs.Text.{move_text, moves_text, step_line, step_lines, first_line, timetable_text};
ghost use Rattle.text.specs.Split.{order_end};
ghost use Rattle.text.specs.Program.{program_text};

// A move as `a>b`, with a space before it.
fn put_move(left: usize, entered: usize, out: &mut [u8], at: usize) -> usize
    requires { Fits out.old at (move_text (left, entered)) }
    ensures { Wrote out.old at (move_text (left, entered)) out.new result }
{
    let at = writers::put_byte(b' ', out, at);
    let at = writers::put_decimal(left, out, at);
    let at = writers::put_byte(b'>', out, at);
    writers::put_decimal(entered, out, at)
}

// The first `count` moves of a part that holds moves.
fn put_moves(moves: &[u8], count: usize, out: &mut [u8], at: usize) -> usize
    requires { (12 * count ≤ 8 * length moves.now) × Fits out.old at (moves_text (pairs moves.now 0 count)) }
    ensures { Wrote out.old at (moves_text (pairs moves.now 0 count)) out.new result }
{
    let mut next = at;
    for j in 0..count {
        let pair = field::pair_at(moves, j);
        next = put_move(pair.first, pair.second, out, next);
    }
    next
}

// The line of a step, from the part of the timetable that the step is.
fn put_step(number: usize, step: &[u8], out: &mut [u8], at: usize) -> usize
    requires { (length step.now ≡ step_length (get_or step.now 0 0)) × Fits out.old at (step_line number (step_moves step.now)) }
    ensures { Wrote out.old at (step_line number (step_moves step.now)) out.new result }
{
    let at = writers::put_decimal(number, out, at);
    let at = put_moves(&step[1..], usize::from(step[0]), out, at);
    writers::put_byte(b'\n', out, at)
}

// The lines of a timetable's steps.
fn put_steps(timetable: &[u8], steps: usize, out: &mut [u8], at: usize) -> usize
    requires { (wrong_timetable_length timetable.now ≡ false) × (steps ≡ step_count timetable.now)
        × Fits out.old at (step_lines 1 (steps_of timetable.now)) }
    ensures { Wrote out.old at (step_lines 1 (steps_of timetable.now)) out.new result }
{
    let mut begin = 3;
    let mut next = at;
    for i in 0..steps {
        let end = begin + timetable::step_length(timetable[begin]);
        next = put_step(i + 1, &timetable[begin..end], out, next);
        begin = end;
    }
    next
}

// The line before the steps.
fn put_first_line(steps: usize, moves: usize, out: &mut [u8], at: usize) -> usize
    requires { Fits out.old at (first_line steps moves) }
    ensures { Wrote out.old at (first_line steps moves) out.new result }
{
    let at = writers::put_bytes(b"steps ", out, at);
    let at = writers::put_decimal(steps, out, at);
    let at = writers::put_bytes(b" moves ", out, at);
    let at = writers::put_decimal(moves, out, at);
    writers::put_byte(b'\n', out, at)
}

// A timetable that passes 40 and 41, as it is printed. The reading gives the counts; it refuses no such timetable.
pub fn put_timetable(timetable: &[u8], out: &mut [u8], at: usize) -> usize
    requires { WellPacked timetable.now × Fits out.old at (timetable_text (steps_of timetable.now)) }
    ensures { Wrote out.old at (timetable_text (steps_of timetable.now)) out.new result }
{
    let Ok(counts) = timetable::read(timetable) else {
        unreachable!()
    };
    let at = put_first_line(counts.steps, counts.moves, out, at);
    put_steps(timetable, counts.steps, out, at)
}

// Where the order ends in a program's input: the whole input, where that ends before the order does.
pub fn order_end(input: &[u8]) -> usize
    ensures { result ≡ order_end input.now }
{
    order::record_length(input).unwrap_or(input.len())
}

// The timetable program on its whole input: writes what it prints at the front of `out`, leaves every byte behind it, and says how many
// bytes the text has. 524,288 bytes are enough, since a timetable takes at most 8 bytes of text for each of its own,
// of which 65,536 are lent.
pub fn timetable_program(input: &[u8], out: &mut [u8; 524288]) -> usize
    ensures { Wrote out.old 0 (program_text input.now) out.new result }
{
    let end = order_end(input);
    let mut buffer = [0u8; 65536];
    match scheduling::make(&input[..end], &input[end..], &mut buffer) {
        Err(refusal) => writers::put_refusal(refusal.0.number(), refusal.1, out, 0),
        Ok(_) => {
            let Some(len) = timetable::record_length(&buffer) else {
                unreachable!()
            };
            put_timetable(&buffer[..len], out, 0)
        }
    }
}
