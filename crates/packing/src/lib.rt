// An answer as one number, as include/wichteab.h packs it: a refusal's number in the low 8 bits and its place above them, or the counts of
// an accepted input above 8 bits of 0. specs/Packed.antt says it of any answer, and specs/Unpacked.antt how a caller takes it apart.
#![tactic(auto)]

ghost use Rattle.std.specs.Prelude.{◌<◌, ◌^◌, ◌≡◌, [], ◌∷◌};
ghost use Rattle.answers.specs.Answer.{accepted, refused_by};
ghost use Rattle.packing.specs.Packed.{packed, nothing, one_count, steps_and_moves, length_and_offset, start_goal_moves};

use answers::Refusal;

// A refusal as one number.
pub fn refusal(refusal: Refusal) -> u64
    ensures { result ≡ packed nothing (refused_by refusal.0 refusal.1) }
{
    let Refusal(fault, place) = refusal;
    fault.number() + (place as u64) * 256
}

// One count.
pub fn one_count(count: usize) -> u64
    requires { one_count (count ∷ []) < 2 ^ 56 }
    ensures { result ≡ packed one_count (accepted (count ∷ [])) }
{
    (count as u64) * 256
}

// A timetable's steps, and its moves above them.
pub fn steps_and_moves(steps: usize, moves: usize) -> u64
    requires { steps_and_moves (steps ∷ moves ∷ []) < 2 ^ 56 }
    ensures { result ≡ packed steps_and_moves (accepted (steps ∷ moves ∷ [])) }
{
    ((steps as u64) + (moves as u64) * 4194304) * 256
}

// A step's length, and its offset above it.
pub fn length_and_offset(offset: usize, len: usize) -> u64
    requires { length_and_offset (offset ∷ len ∷ []) < 2 ^ 56 }
    ensures { result ≡ packed length_and_offset (accepted (offset ∷ len ∷ [])) }
{
    ((len as u64) + (offset as u64) * 65536) * 256
}

// A carry's start, its goal above it, and its moves above both.
pub fn start_goal_moves(start: usize, goal: usize, moves: usize) -> u64
    requires { start_goal_moves (start ∷ goal ∷ moves ∷ []) < 2 ^ 56 }
    ensures { result ≡ packed start_goal_moves (accepted (start ∷ goal ∷ moves ∷ [])) }
{
    ((start as u64) + (goal as u64) * 256 + (moves as u64) * 65536) * 256
}
