// Positions cleared and racks brought: a position is cleared by the nearest vacancy that can come to it, and a rack is brought to a
// position along a way that is cleared before it. specs/Distance.antt and specs/Cleared.antt say what that means; `clear`, `clear_within`
// and `bring` are the entry points.
#![tactic(auto)]

ghost use Rattle.std.specs.Prelude.{◌≡◌, ◌+◌, ◌-◌, ◌≤◌, ◌<◌};
ghost use Rattle.sets.specs.Sets.{Has};
ghost use Rattle.graph.specs.Connected.{Robust};
ghost use Rattle.graph.specs.Rows.{row, Edge, Rows};
ghost use Rattle.moving.specs.Journey.{Fits};
ghost use Rattle.moving.specs.Journey.{JourneyAlong};
ghost use Rattle.moving.specs.OnePlace.{Simple, Shiftable, Shifted};
ghost use Rattle.shunting.specs.Distance.{Unheld, Reaches};
ghost use Rattle.shunting.specs.Cleared.{VacantBelow, Inside, RoomToClear, Clears, Outcome};
ghost use Rattle.shunting.specs.Cleared.{Bringable, RoomToBring, BroughtBy, Brought};

use moving::{Log, State};

// The vacant positions of a floor of n.
#[tactic(auto, using(crate::proofs::ClearLaws::vacant_held, crate::proofs::ClearLaws::vacant_more))]
pub fn vacancies(racks: &[u8; 64], n: usize) -> u64
    requires { n ≤ 64 }
    ensures { VacantBelow n (row racks.now) result }
{
    let mut vacant: u64 = 0;
    for p in 0..n {
        if racks[p] == 0 {
            vacant = sets::with(vacant, p);
        }
    }
    vacant
}

// Shifts the racks along a way of `size` positions by one: its last position is vacant, its first will be. From the end on, each rack moves
// into the position after its own.
fn shift(at: &[u8; 64], size: usize, state: State, log: &mut Log, tail: &mut [u8]) -> State
    requires simple { Simple (row at.now) size }
    requires shiftable { Shiftable (row at.now) size (row state.racks) }
    requires fits { Fits state log.old tail.old (size - 1) }
    ensures journey_along { JourneyAlong (row at.now) size state log.old tail.old
        result log.new tail.new }
    ensures shifted { Shifted (row at.now) size (row state.racks) (row result.racks) }
    ensures logged_value { result.logged ≡ state.logged + (size - 1) }
{
    let mut state = state;
    for i in (0..size - 1).rev() {
        let a = at[i] as usize;
        let b = at[i + 1] as usize;
        moving::step(a, b, &mut state, log, tail);
    }
    state
}

// How clearing a position went: the state afterwards, and how many moves were made; none are told where no vacancy has a way to it.
#[derive(Clone, Copy)]
pub struct Clearing {
    pub state: State,
    pub moves: Option<usize>,
}

// Clears p by the nearest vacancy: of the ways from a vacancy to p that avoid the held positions, both ends included, a shortest is taken,
// and the racks on it are shifted along it by one. Where no vacancy has a way, nothing moves.
pub fn clear(
    rows: &[u64; 64],
    n: usize,
    held: u64,
    p: usize,
    state: State,
    log: &mut Log,
    tail: &mut [u8],
) -> Clearing
    requires rows { Rows n rows.now }
    requires p_bound { p < 64 }
    requires room_to_clear { RoomToClear (Edge rows.now) (Unheld n held) p state log.old tail.old }
    ensures { Outcome (Unheld n held) rows.now p state log.old tail.old
        result log.new tail.new }
{
    let vacant = vacancies(&state.racks, n);
    let free = sets::minus(sets::below(n), held);
    let Some(route) = graph::search(rows, free, vacant, p) else {
        return Clearing { state, moves: None };
    };
    let moves = route.size - 1;
    let moved = shift(&route.at, route.size, state, log, tail);
    Clearing {
        state: moved,
        moves: Some(moves),
    }
}

// Clears p inside a region, with all other positions held, where some vacancy of the region is known to have a way to it.
pub fn clear_within(
    rows: &[u64; 64],
    n: usize,
    region: u64,
    p: usize,
    state: State,
    log: &mut Log,
    tail: &mut [u8],
) -> State
    requires rows { Rows n rows.now }
    requires inside { Inside n region }
    requires reaches { Reaches (Edge rows.now) (Has region) (row state.racks) p }
    requires room_to_clear { RoomToClear (Edge rows.now) (Has region) p state log.old tail.old }
    ensures { Clears (Has region) rows.now p state log.old tail.old
        result log.new tail.new }
{
    let held = sets::minus(sets::below(n), region);
    let clearing = clear(rows, n, held, p, state, log, tail);
    clearing.state
}

// Brings the rack at `from` to `to` inside a region that stays whole without any one position: for each next position on a shortest way, it
// is cleared with the rack's own place held, and the rack moves there.
pub fn bring(
    rows: &[u64; 64],
    n: usize,
    region: u64,
    from: usize,
    to: usize,
    state: State,
    log: &mut Log,
    tail: &mut [u8],
) -> State
    requires rows { Rows n rows.now }
    requires inside { Inside n region }
    requires robust { Robust (Edge rows.now) (Has region) }
    requires bringable { Bringable (Has region) from to (row state.racks) }
    requires room_to_bring { RoomToBring (Has region) state log.old tail.old }
    ensures brought_by { BroughtBy (Has region) rows.now from to state log.old tail.old
        result log.new tail.new }
    ensures brought { Brought (Has region) from to (row state.racks) (row result.racks) }
{
    let Some(route) = graph::search(rows, region, sets::only(to), from) else {
        unreachable!();
    };
    let at = route.at;
    let size = route.size;
    let mut state = state;
    for k in 1..size {
        let a = at[k - 1] as usize;
        let b = at[k] as usize;
        let free = sets::without(region, a);
        state = clear_within(rows, n, free, b, state, log, tail);
        state = moving::make_move(a, b, state, log, tail);
    }
    state
}
