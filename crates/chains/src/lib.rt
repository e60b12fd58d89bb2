// The chains of a step's moves, on tables: each move enters a position that is vacant or that another one leaves, and so on to the leader.
// specs/StepOn.antt says what a step on tables is, specs/Chains.antt what is noted of its moves. `note_moves` notes them, and `all_led`
// follows each chain to its end.
#![tactic(auto)]

ghost use Rattle.std.specs.Prelude.{◌≡◌, true, ◌≤◌, ◌<◌, length};
ghost use Rattle.chains.specs.StepOn.{moves_of, sound_moves, all_led};
ghost use Rattle.tables.specs.Simulation.{Each};
ghost use Rattle.chains.specs.Chains.{noted, Targets, Taking, LeadersMarked, NonePassed, Chain, Followed};

use motion::LONGEST;

// The mark of a position that the chain being followed has come through. No train is so long.
const PASSED: u8 = 255;

// Whether a step's moves ascend by position left, run along edges, take racks along and enter no position twice. Notes for each position
// left one more than the position entered.
pub fn note_moves(
    step: &[u16],
    matrix: &[u8; 4096],
    racks: &[u8; 64],
    target: &mut [u8; 64],
) -> bool
    ensures sound { result ≡ sound_moves matrix.now racks.now (moves_of step.now) }
    ensures all { result ≡ true → target.new ≡ noted target.old (moves_of step.now) }
{
    let mut entered = [0u8; 64];
    let mut lowest = 0;
    for &x in step {
        let a = field::first_of(x);
        let b = field::second_of(x);
        if a < lowest {
            return false;
        }
        if matrix[a * 64 + b] == 0 {
            return false;
        }
        if racks[a] == 0 {
            return false;
        }
        if entered[b] != 0 {
            return false;
        }
        entered[b] = 1;
        target[a] = (b + 1) as u8;
        lowest = a + 1;
    }
    true
}

// Follows the chain of a move that enters p, from the mover to the move that it follows, to its leader, if there is one, and answers how
// many moves those are: 1 where the move leads. Marks show what is known of the positions that it comes through: a chain that meets itself
// again is a ring, and one that meets a train whose length is known is so much longer.
fn follow_chain(p: usize, target: &[u8; 64], racks: &[u8; 64], marks: &mut [u8; 64]) -> Option<u8>
    requires p_bound { p < 64 }
    requires chain { Chain target.now racks.now marks.old p }
    ensures { Followed target.now racks.now marks.old marks.new p result }
{
    if racks[p] == 0 {
        return Some(1);
    }
    if marks[p] == PASSED {
        return None;
    }
    if marks[p] != 0 {
        return Some(marks[p]);
    }
    let entered = usize::from(target[p]).checked_sub(1)?;
    marks[p] = PASSED;
    let ahead = follow_chain(entered, target, racks, marks)?;
    let moves = ahead + 1;
    marks[p] = moves;
    Some(moves)
}

// The marks before any chain is followed: a move into a position without a rack leads, in a train of 1.
fn mark_leaders(racks: &[u8; 64], marks: &mut [u8; 64])
    ensures { LeadersMarked racks.now marks.new 64 }
{
    for (p, &rack) in racks.iter().enumerate() {
        marks[p] = u8::from(rack == 0);
    }
}

// The length of the train of a move that enters p, if it has a leader. Most moves lead or follow one whose train is known: no chain has to
// be followed for them.
fn train_length(p: usize, target: &[u8; 64], racks: &[u8; 64], marks: &mut [u8; 64]) -> Option<u8>
    requires p_bound { p < 64 }
    requires chain { Chain target.now racks.now marks.old p }
    requires none_passed { NonePassed marks.old }
    ensures { Followed target.now racks.now marks.old marks.new p result }
{
    if marks[p] != 0 {
        return Some(marks[p]);
    }
    follow_chain(p, target, racks, marks)
}

// Whether each of a step's moves belongs to a train with a leader, of at most LONGEST moves from the mover to it. Who enters the position
// that a move leaves follows it, in a train one move longer.
pub fn all_led(step: &[u16], target: &[u8; 64], racks: &[u8; 64]) -> bool
    requires few { length step.now ≤ 64 }
    requires targets { Targets (moves_of step.now) target.now }
    requires each { Each (Taking target.now racks.now) (moves_of step.now) }
    ensures { result ≡ all_led racks.now (moves_of step.now) }
{
    let mut marks = [0u8; 64];
    mark_leaders(racks, &mut marks);
    for &x in step {
        let a = field::first_of(x);
        let b = field::second_of(x);
        let Some(moves) = train_length(b, target, racks, &mut marks) else {
            return false;
        };
        if LONGEST < moves {
            return false;
        }
        marks[a] = moves + 1;
    }
    true
}
