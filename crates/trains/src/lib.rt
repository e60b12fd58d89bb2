// One step of a timetable on tables: judged, and made if it is legal. specs/StepOn.antt says what that means; proofs/LegalOn.antt says that
// it is document 01's legal step. `run_entries` takes a step as the numbers of its moves, `run_step` as the record has it.
#![tactic(auto)]

ghost use Rattle.std.specs.Prelude.{◌≡◌, true, ◌+◌, ◌*◌, ◌≤◌, leb, length, take};
ghost use Rattle.field.specs.Bits.{pairs};
ghost use Rattle.chains.specs.StepOn.{moves_of, legal_step_on, taken_up, put_down, step_on, ran_on};
ghost use Rattle.chains.specs.Chains.{EntryAt};

// The move that stands j moves after the first byte, as one number: a move from a to b is a * 64 + b.
fn entry_at(moves: &[u8], j: usize) -> u16
    requires { 12 * j + 12 ≤ 8 * length moves.now }
    ensures { EntryAt moves.now j result }
{
    let pair = field::pair_at(moves, j);
    (pair.first * 64 + pair.second) as u16
}

// Reads moves from the slice's first byte on, as many as the step has room for, two at a time, which take three bytes.
pub fn fill_step(moves: &[u8], step: &mut [u16])
    requires { 12 * length step.old ≤ 8 * length moves.now }
    ensures { moves_of step.new ≡ pairs moves.now 0 (length step.old) }
{
    // Kept as a while loop: it takes two moves at a time.
    let mut j = 0;
    while j + 1 < step.len() {
        step[j] = entry_at(moves, j);
        step[j + 1] = entry_at(moves, j + 1);
        j += 2;
    }
    if j < step.len() {
        step[j] = entry_at(moves, j);
    }
}

// Reads the c moves that the slice begins with to the buffer's front. More than 64 are not read: so many do not ascend.
pub fn read_moves(moves: &[u8], c: usize, buffer: &mut [u16; 64]) -> bool
    requires { 12 * c ≤ 8 * length moves.now }
    ensures few { result ≡ leb c 64 }
    ensures all { result ≡ true → moves_of (take c buffer.new) ≡ pairs moves.now 0 c }
{
    if 64 < c {
        return false;
    }
    fill_step(moves, &mut buffer[..c]);
    true
}

// Takes up the racks at the positions that a step's moves leave.
fn take_up(step: &[u16], racks: &mut [u8; 64])
    ensures { racks.new ≡ taken_up racks.old (moves_of step.now) }
{
    for &x in step {
        racks[field::first_of(x)] = 0;
    }
}

// Puts them down at the positions entered: the racks that stood at the positions left before the step.
fn put_down(step: &[u16], before: &[u8; 64], racks: &mut [u8; 64])
    ensures { racks.new ≡ put_down before.now racks.old (moves_of step.now) }
{
    for &x in step {
        racks[field::second_of(x)] = before[field::first_of(x)];
    }
}

// Makes a step's moves all at once.
fn make_step(step: &[u16], racks: &mut [u8; 64])
    ensures { racks.new ≡ step_on racks.old (moves_of step.now) }
{
    let before = *racks;
    take_up(step, racks);
    put_down(step, &before, racks);
}

// Judges the step, each move one number, by a matrix of the floor's edges and the rack at each position.
pub fn judge_entries(step: &[u16], matrix: &[u8; 4096], racks: &[u8; 64]) -> bool
    ensures { result ≡ legal_step_on matrix.now racks.now (moves_of step.now) }
{
    let mut target = [0u8; 64];
    if !chains::note_moves(step, matrix, racks, &mut target) {
        return false;
    }
    chains::all_led(step, &target, racks)
}

// Makes that step if it is legal; if not, the racks stay.
pub fn run_entries(step: &[u16], matrix: &[u8; 4096], racks: &mut [u8; 64]) -> bool
    ensures judged { result ≡ legal_step_on matrix.now racks.old (moves_of step.now) }
    ensures made { racks.new ≡ ran_on matrix.now racks.old (moves_of step.now) }
{
    if !judge_entries(step, matrix, racks) {
        return false;
    }
    make_step(step, racks);
    true
}

// The same of the c moves that the slice begins with.
pub fn run_step(moves: &[u8], c: usize, matrix: &[u8; 4096], racks: &mut [u8; 64]) -> bool
    requires { 12 * c ≤ 8 * length moves.now }
    ensures judged { result ≡ legal_step_on matrix.now racks.old (pairs moves.now 0 c) }
    ensures made { racks.new ≡ ran_on matrix.now racks.old (pairs moves.now 0 c) }
{
    let mut buffer = [0u16; 64];
    if !read_moves(moves, c, &mut buffer) {
        return false;
    }
    run_entries(&buffer[..c], matrix, racks)
}
