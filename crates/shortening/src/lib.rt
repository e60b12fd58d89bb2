// The shortener: of a plan of either edition that the plan checker accepts it takes away the moves that cancel. specs/Rule.antt has the
// rule, specs/Shortener.antt the answer and the buffer afterwards; `shorten` is the entry point. One pass over the plan marks the moves
// that are kept (crate `cancelling`), a second one writes them, each with the rack that it names.
#![tactic(auto)]

ghost use Rattle.std.specs.Prelude.{◌≡◌, [], ◌∷◌, ◌+◌, ◌*◌, ◌/◌, ◌^◌, ◌≤◌, ◌<◌, length};
ghost use Rattle.answers.specs.Answer.{accepted};
ghost use Rattle.field.specs.Listed.{move_size};
ghost use Rattle.plan.specs.Verdict.{answer_of as plan_answer_of};
ghost use Rattle.cancelling.specs.Stack.{laid};
ghost use Rattle.cancelling.specs.Looking.{listing, stack_of};
ghost use Rattle.cancelling.specs.Looking.{GoesAhead};
ghost use Rattle.cancelling.specs.Looking.{Packed, WritesOne, Shortened};
ghost use Rattle.shortening.specs.Shortener.{shortener_answer, buffer_after, answer_of};

use answers::{Fault, Refusal};
use field::Moves;

// From an index up to the next whose move may be marked, or to k: none on the way is.
fn ahead(marks: &[u64], i: usize, k: usize) -> usize
    requires { (i ≤ k) × (k < 2 ^ 22) × (k ≤ 64 * length marks.now) }
    ensures { GoesAhead marks.now i k result }
{
    if i == k {
        return k;
    }
    let rest = sets::minus(marks[i / 64], sets::below(i % 64));
    if rest == 0 {
        return (i / 64 * 64 + 64).min(k);
    }
    (i / 64 * 64 + sets::lowest(rest)).min(k)
}

// Writes the move of index i, if it is marked, as the plan lists it behind the `count` moves at the front of the room, and says how many
// these are then.
fn write_one(moves: &Moves, i: usize, marks: &[u64], room: &mut [u8], count: usize) -> usize
    requires i_bound { (i < moves.now.count) × (i < 64 * length marks.now) }
    requires count_le_i { (count ≤ i) × ((6 * (move_size moves.now.named * (i + 1)) + 7) / 8 ≤ length room.old) }
    ensures { WritesOne moves.now.named moves.now.tail.now i marks.now room.old count room.new result }
{
    if !sets::has(marks[i / 64], i % 64) {
        return count;
    }
    let listed = moves.listed(i);
    let step = listed.step;
    recording::put_listed(room, moves.named, count, step / 64, step % 64, listed.rack);
    count + 1
}

// Writes the marked ones of a plan's moves to the front of the room behind a record's head, and says how many they are.
fn write_kept(moves: &Moves, marks: &[u64], room: &mut [u8]) -> usize
    requires k_bound { moves.now.count ≤ 64 * length marks.now }
    requires k_in_bounds { (6 * (move_size moves.now.named * moves.now.count) + 7) / 8 ≤ length room.old }
    ensures { Packed moves.now.named room.old
        (laid (stack_of (listing moves.now) marks.now moves.now.count) []) result room.new }
{
    let mut count = 0;
    let mut i = 0;
    while i < moves.count {
        count = write_one(moves, i, marks, room, count);
        i = ahead(marks, i + 1, moves.count);
    }
    count
}

// Marks and writes the moves that are kept, with tables of so many marks' words, blocks and groups.
fn shorten_in<const WORDS: usize, const BLOCKS: usize, const GROUPS: usize>(
    moves: &Moves,
    room: &mut [u8],
) -> usize
    requires k_in_bounds { (6 * (move_size moves.now.named * moves.now.count) + 7) / 8 ≤ length room.old }
    requires tables { (moves.now.count ≤ 64 * WORDS) × (moves.now.count ≤ 256 * BLOCKS) × (moves.now.count ≤ 16384 * GROUPS) }
    requires few { (WORDS ≤ 65536) × (BLOCKS ≤ WORDS) × (GROUPS ≤ WORDS) }
    ensures { Shortened moves.now.named moves.now.tail.now moves.now.count room.old result room.new }
{
    let mut marks = [0u64; WORDS];
    let mut blocks = [0u64; BLOCKS];
    let mut groups = [0u64; GROUPS];
    cancelling::mark_kept(moves, &mut marks, &mut blocks, &mut groups);
    write_kept(moves, &marks, room)
}

// The same with tables of a size that goes with the plan's, since they are zeroed for each plan.
fn shorten_moves(moves: &Moves, room: &mut [u8]) -> usize
    requires k_in_bounds { (6 * (move_size moves.now.named * moves.now.count) + 7) / 8 ≤ length room.old }
    ensures { Shortened moves.now.named moves.now.tail.now moves.now.count room.old result room.new }
{
    if moves.count <= 16384 {
        return shorten_in::<256, 64, 1>(moves, room);
    }
    shorten_in::<65536, 16384, 256>(moves, room)
}

// Shortens a plan for an order and writes the result, in the edition read, at the front of the buffer: the plan checker's numbers, then 37.
pub fn shorten(order: &[u8], plan: &[u8], buffer: &mut [u8]) -> Result<usize, Refusal>
    ensures result_value { answer_of result ≡ shortener_answer order.now plan.now (length buffer.old) }
    ensures buffer_after { buffer.new ≡ buffer_after order.now plan.now buffer.old }
{
    let k = plan_check::check(order, plan)?;
    if buffer.len() < plan.len() {
        return Err(Refusal(Fault::SecondBuffer, 0));
    }
    let named = plan::names_racks(plan);
    let moves = Moves {
        tail: &plan[3..],
        named,
        count: k,
    };
    let count = shorten_moves(&moves, &mut buffer[3..]);
    recording::put_head(buffer, count, plan::spare_bits(named));
    Ok(count)
}
