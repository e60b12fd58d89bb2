// A cycle turned by one place, and a log taken back: runs of single moves. specs/Turned.antt and specs/Undone.antt say what they do; `turn`
// and `undo` are the entry points.
#![tactic(auto)]

ghost use Rattle.std.specs.Prelude.{◌≡◌, ◌-◌, ◌<◌};
ghost use Rattle.graph.specs.Rows.{row};
ghost use Rattle.moving.specs.Journey.{Fits, Space};
ghost use Rattle.moving.specs.Journey.{Joins, JourneyOn};
ghost use Rattle.moving.specs.OnePlace.{Enterable, Passed, Simple};
ghost use Rattle.turning.specs.Turned.{Turnable, vacant_place, TurnJourney, TurnShown};
ghost use Rattle.turning.specs.Undone.{Entries, Undoable, Undone};

use moving::{Log, State};

// The lowest place of the cycle that is vacant: the last one, where none before it is.
fn vacancy_on(cycle: &[u8; 64], size: usize, racks: &[u8; 64]) -> usize
    requires simple { Simple (row cycle.now) size }
    requires turnable { Turnable (row cycle.now) size (row racks.now) }
    ensures lowest { result ≡ vacant_place (row cycle.now) size (row racks.now) }
    ensures before { result < size }
{
    for i in 0..size - 1 {
        let position = cycle[i] as usize;
        if racks[position] == 0 {
            return i;
        }
    }
    size - 1
}

// Moves what stands at a, if anything does, to b, which is vacant.
fn pass_on(a: usize, b: usize, state: &mut State, log: &mut Log, tail: &mut [u8])
    requires enterable { Enterable a b (row state.old.racks) }
    requires fits { Fits state.old log.old tail.old 1 }
    ensures journey_on { JourneyOn (Joins a b) 1 state.old log.old tail.old state.new log.new tail.new }
    ensures passed { Passed a b (row state.old.racks) (row state.new.racks) }
{
    if state.racks[a] != 0 {
        moving::step(a, b, state, log, tail);
    }
}

// Turns a cycle by one place: from the vacancy at its lowest place on, the rack before it moves into it, then the one before that, and so
// on round. A vacant place is passed over. The state's own table is changed, where it stands, and none is kept beside it.
pub fn turn(cycle: &[u8; 64], size: usize, state: State, log: &mut Log, tail: &mut [u8]) -> State
    requires simple { Simple (row cycle.now) size }
    requires turnable { Turnable (row cycle.now) size (row state.racks) }
    requires fits { Fits state log.old tail.old size }
    ensures turn_journey { TurnJourney (row cycle.now) size state log.old tail.old
        result log.new tail.new }
    ensures turn_shown { TurnShown (row cycle.now) size state result }
{
    let mut state = state;
    let z = vacancy_on(cycle, size, &state.racks);
    // What stands i places after that vacancy moves to the next place, which is vacant by then.
    for i in (1..size).rev() {
        let a = cycle[(z + i) % size] as usize;
        let b = cycle[(z + i + 1) % size] as usize;
        pass_on(a, b, &mut state, log, tail);
    }
    state
}

// Takes back the moves that the log has from entry `from` up to entry `to`, the last of them first. A move is skipped where nothing stands
// at the position that its rack entered: that rack was carried away meanwhile.
pub fn undo(from: usize, to: usize, state: State, log: &Log, tail: &mut [u8]) -> State
    requires entries { Entries from to }
    requires undoable { Undoable state.racks log.now from to }
    requires space { Space state tail.old (to - from) }
    ensures { Undone log.now from to state tail.old result tail.new }
{
    let mut state = state;
    for i in (from..to).rev() {
        let a = field::first_of(log[i]);
        let b = field::second_of(log[i]);
        if state.racks[b] != 0 {
            moving::move_rack(b, a, &mut state, tail);
        }
    }
    state
}
