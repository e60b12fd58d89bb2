// Racks on the move: one move, and where a rack stands. Each move of a real rack is packed into the plan as it is made, and every move is
// logged. specs/Journey.antt says what that means; `move_rack` and `make_move` are the entry points.
#![tactic(auto)]

ghost use Rattle.std.specs.Prelude.{◌≡◌, ◌≢◌, ◌+◌, ◌≤◌, ◌<◌};
ghost use Rattle.graph.specs.Rows.{row};
ghost use Rattle.moving.specs.Journey.{Fits, Space, Moved};
ghost use Rattle.moving.specs.Journey.{Joins, JourneyOn};
ghost use Rattle.moving.specs.OnePlace.{Movable, Passed};
ghost use Rattle.moving.specs.Table.{Stands, StandsAt};

// A place for each move that is made between two beginnings of the log.
pub const LOG: usize = 8256;

pub type Log = [u16; LOG];

// The rack at each position, 0 where there is none; how many racks are real, those above are stand-ins; and how many moves the plan has,
// and the log.
#[derive(Clone, Copy)]
pub struct State {
    pub racks: [u8; 64],
    pub real: usize,
    pub written: usize,
    pub logged: usize,
}

// Moves the rack at a to b. The move is written with the rack's number; that of a stand-in is not written.
pub fn move_rack(a: usize, b: usize, state: &mut State, tail: &mut [u8])
    requires a_bound { (a < 64) × (b < 64) × (row state.old.racks a ≢ 0) }
    requires space { Space state.old tail.old 1 }
    ensures moved { Moved a b state.old tail.old state.new tail.new }
    ensures logged { state.new.logged ≡ state.old.logged }
{
    let rack = state.racks[a];
    state.racks[b] = rack;
    state.racks[a] = 0;
    let number = usize::from(rack);
    if number <= state.real {
        recording::put_listed(tail, true, state.written, a, b, number);
        state.written += 1;
    }
}

// Moves the rack at a to b, and logs the move. Where many moves are made one after another, the state is lent, so that no move copies it.
pub fn step(a: usize, b: usize, state: &mut State, log: &mut Log, tail: &mut [u8])
    requires movable { Movable a b (row state.old.racks) }
    requires fits { Fits state.old log.old tail.old 1 }
    ensures journey_on { JourneyOn (Joins a b) 1 state.old log.old tail.old state.new log.new tail.new }
    ensures passed { Passed a b (row state.old.racks) (row state.new.racks) }
    ensures logged_value { state.new.logged ≡ state.old.logged + 1 }
{
    log[state.logged] = (a * 64 + b) as u16;
    move_rack(a, b, state, tail);
    state.logged += 1;
}

// Moves the rack at a to b, and logs the move.
pub fn make_move(a: usize, b: usize, state: State, log: &mut Log, tail: &mut [u8]) -> State
    requires movable { Movable a b (row state.racks) }
    requires fits { Fits state log.old tail.old 1 }
    ensures journey_on { JourneyOn (Joins a b) 1 state log.old tail.old result log.new tail.new }
    ensures passed { Passed a b (row state.racks) (row result.racks) }
    ensures logged_value { result.logged ≡ state.logged + 1 }
{
    let mut state = state;
    step(a, b, &mut state, log, tail);
    state
}

// Where a rack stands.
pub fn where_is(racks: &[u8; 64], n: usize, rack: u8) -> usize
    requires n_bound { n ≤ 64 }
    requires stands { Stands n rack (row racks.now) }
    ensures { StandsAt n rack (row racks.now) result }
{
    racks[..n].iter().position(|r| *r == rack).unwrap()
}
