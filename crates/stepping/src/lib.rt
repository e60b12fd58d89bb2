// One step of a lent timetable on a table of racks: run, or taken back, which is run with its moves turned round. specs/Judging.antt says
// what that means; `run_lent` and `take_back_lent` are the entry points.
#![tactic(auto)]

ghost use Rattle.std.specs.Prelude.{◌≡◌};
ghost use Rattle.order.specs.Order.{floor_of, WellFormed};
ghost use Rattle.motion.specs.Step.{every};
ghost use Rattle.motion.specs.StepTests.{EnteredOnce};
ghost use Rattle.motion.specs.TurnedStep.{turned_step};
ghost use Rattle.chains.specs.StepOn.{moves_of};
ghost use Rattle.stepping.specs.Judging.{step_numbered};
ghost use Rattle.stepping.specs.Judging.{knows, legal_on, ran_here, Lent, Readable, origins_of, OriginsLow, row_moves};

// Whether a step's moves name positions below n alone.
fn all_known(step: &[u16], n: usize) -> bool
    ensures { result ≡ every (knows n) (moves_of step.now) }
{
    for &x in step {
        let a = field::first_of(x);
        let b = field::second_of(x);
        if n <= a {
            return false;
        }
        if n <= b {
            return false;
        }
    }
    true
}

// Judges a step by the lent order's floor and the opening floor's n, and makes it on the table if it is legal.
fn run_moves(order: &[u8], step: &[u16], n: usize, racks: &mut [u8; 64]) -> bool
    requires { WellFormed order.now }
    ensures judged { result ≡ legal_on (floor_of order.now) n racks.old (moves_of step.now) }
    ensures made { racks.new ≡ ran_here (floor_of order.now) n racks.old (moves_of step.now) }
{
    if !all_known(step, n) {
        return false;
    }
    let counts = order::counts_of(order);
    let mut matrix = [0u8; 4096];
    decoding::mark_edges(&order[3..], counts.edges, &mut matrix);
    trains::run_entries(step, &matrix, racks)
}

// Reads step `number` of the timetable as numbers into the buffer.
fn read_lent<'a>(timetable: &[u8], number: usize, buffer: &'a mut [u16; 64]) -> &'a [u16]
    requires { Readable timetable.now number }
    ensures { moves_of result.now ≡ step_numbered timetable.now number }
{
    let part = timetable::step(timetable, number);
    let c = usize::from(part[0]);
    let step = &mut buffer[..c];
    trains::fill_step(&part[1..], step);
    step
}

// Judges step `number` of the timetable so, and makes it if it is legal.
pub fn run_lent(
    order: &[u8],
    timetable: &[u8],
    number: usize,
    n: usize,
    racks: &mut [u8; 64],
) -> bool
    requires { Lent order.now timetable.now number }
    ensures judged { result ≡
        legal_on (floor_of order.now) n racks.old (step_numbered timetable.now number) }
    ensures made { racks.new ≡
        ran_here (floor_of order.now) n racks.old (step_numbered timetable.now number) }
{
    let mut buffer = [0u16; 64];
    let step = read_lent(timetable, number, &mut buffer);
    run_moves(order, step, n, racks)
}

// Notes for each position that a step's moves enter one more than the position left.
fn note_origins(step: &[u16], origins: &mut [u8; 64])
    ensures { origins.new ≡ origins_of origins.old (moves_of step.now) }
{
    for &x in step {
        let a = field::first_of(x);
        let b = field::second_of(x);
        origins[b] = (a + 1) as u8;
    }
}

// The moves that the row has, from each position to the one noted there, ascending, written into the buffer.
fn list_origins<'a>(origins: &[u8; 64], buffer: &'a mut [u16; 64]) -> &'a [u16]
    requires { OriginsLow origins.now }
    ensures { moves_of result.now ≡ row_moves origins.now 0 64 }
{
    let mut count = 0;
    for (p, &origin) in origins.iter().enumerate() {
        if origin != 0 {
            buffer[count] = (p * 64 + (usize::from(origin) - 1)) as u16;
            count += 1;
        }
    }
    &buffer[..count]
}

// A step turned round: each move from the position entered to the position left, ascending. Each position is entered once, so a row by the
// position entered has every move.
fn turn_round<'a>(step: &[u16], buffer: &'a mut [u16; 64]) -> &'a [u16]
    requires { EnteredOnce (moves_of step.now) }
    ensures { moves_of result.now ≡ turned_step (moves_of step.now) }
{
    let mut origins = [0u8; 64];
    note_origins(step, &mut origins);
    list_origins(&origins, buffer)
}

// Takes step `number` of the timetable back, if its moves, turned round, are legal on the table.
pub fn take_back_lent(
    order: &[u8],
    timetable: &[u8],
    number: usize,
    n: usize,
    racks: &mut [u8; 64],
) -> bool
    requires { Lent order.now timetable.now number }
    ensures judged { result ≡
        legal_on (floor_of order.now) n racks.old (turned_step (step_numbered timetable.now number)) }
    ensures made { racks.new ≡
        ran_here (floor_of order.now) n racks.old (turned_step (step_numbered timetable.now number)) }
{
    let mut buffer = [0u16; 64];
    let step = read_lent(timetable, number, &mut buffer);
    let mut turned = [0u16; 64];
    let back = turn_round(step, &mut turned);
    run_moves(order, back, n, racks)
}
