// The candidates of a search's next layer: for every arrangement of a layer the moves that lead on from it, each with what the arrangement
// behind it costs. Crate `searching` says what an arrangement, its stage and its cost are; `expand_layer` is the entry point. Nothing of
// this is trusted: what is proved is that it is safe and ends.
#![tactic(auto)]

ghost use Rattle.std.specs.Prelude.{◌≤◌, ◌<◌};

use staging::Tables;

// Where a rack stands that stands nowhere. A number in the place of an Option, with which a search takes 3 % longer.
const NOWHERE: usize = 64;

// Sixteenths that a rack's weight counts if it is settled late.
const LATE: usize = 7;

// Sixteenths that it counts if it is settled next.
const NEXT: usize = 32;

// Stages between the two.
const BETWEEN: usize = 40;

// What each of two neighbours costs that stand at each other's goals. A move of one rack costs 4.
const SWAP: usize = 8;

// What a step costs.
const STEP: usize = 3;

// Moves to go that a stage is worth.
const STAGE: usize = 6;

// Eighths that a move to go counts.
const TO_GO: usize = 16;

// Layers until to-go and stages begin to count more, as the front does not move.
const PATIENCE: usize = 16;

// What stands at a position of an arrangement: the rack, 0 for none, and the position's turn, which is eight times the step of the last
// move to it or from it, and the place in the train of a move from it.
#[derive(Clone, Copy)]
pub struct Cell {
    pub rack: u8,
    pub turn: u16,
}

// An arrangement that was kept: its hash and its node in the tree of moves.
#[derive(Clone, Copy)]
pub struct Kept {
    pub hash: u32,
    pub node: u16,
}

// The arrangements of two layers, by turns, 1,024 of each: their positions one after another, and what else is kept of each.
#[derive(Drop)]
pub struct Layers {
    pub cells: [Cell; 40960],
    pub kept: [Kept; 2048],
}

// A candidate: the arrangement of the layer that it begins at, the position that a rack leaves and the one that it enters, and what the
// arrangement behind this move is like.
#[derive(Clone, Copy)]
pub struct Candidate {
    pub from: u16,
    pub left: u8,
    pub entered: u8,
    pub hash: u32,
    pub cost: u32,
}

// The candidates of a layer.
#[derive(Drop)]
pub struct Candidates {
    pub all: [Candidate; 8192],
    pub count: usize,
    ghost count_bounded: { count ≤ 8192 },
}

// An arrangement of the beam, as its cost is found. `sum` is of weighed distances, `swapped` twice the pairs of neighbours that stand at
// each other's goals, `span` the steps so far, `place` where the stage's rack stands, and its cells begin at `base`.
#[derive(Clone, Copy)]
struct State {
    vacant: u64,
    hash: u32,
    sum: usize,
    swapped: usize,
    span: usize,
    stage: usize,
    place: usize,
    base: usize,
}

// What the beam is about in this layer: the floor's positions, the stages with a table, the highest stage of an arrangement, whether the
// layer is in the second half of the tables, how many arrangements it has and may have, how many layers the front has waited, the least sum
// of an arrangement at the last stage, and what the search has cost.
#[derive(Clone, Copy)]
pub struct Look {
    pub n: usize,
    pub filled: usize,
    pub front: usize,
    pub second: bool,
    pub count: usize,
    pub width: usize,
    pub waited: usize,
    pub least: usize,
    pub spent: usize,
}

// What a layer's arrangements are like: the highest stage, the least sum of one at the last stage, and which one is the goal, if one is.
#[derive(Clone, Copy)]
pub struct Layer {
    pub front: usize,
    pub least: usize,
    pub done: Option<usize>,
}

// What the costs in a layer are found from.
#[derive(Clone, Copy)]
struct View<'a> {
    look: &'a Look,
    tables: &'a Tables,
}

// The product of two numbers below 65,536.
fn product(x: usize, y: usize) -> usize
    ensures { result < 4294967296 }
{
    (x % 65536) * (y % 65536)
}

// A pseudo-random number for a rack at a position: the hash of an arrangement is the exclusive or of those of its racks.
fn mixed(rack: usize, p: usize) -> u32 {
    let seed = (rack % 64 * 64 + p % 64) as u64 ^ 0x5bd1_e995;
    let first = (seed % 0x1_0000_0000) * 0x9e37_79b1;
    let second = ((first ^ (first >> 29)) % 0x1_0000_0000) * 0x85eb_ca6b;
    ((second ^ (second >> 32)) % 0x1_0000_0000) as u32
}

// Where an arrangement's cells begin.
pub fn first_cell(second: bool, n: usize, i: usize) -> usize
    ensures { result < 262144 }
{
    usize::from(second) * 20480 + product(n % 128, i % 1024) % 131072
}

// Where the rest of what is kept of an arrangement stands.
pub fn key_of(second: bool, i: usize) -> usize
    ensures { result < 2048 }
{
    usize::from(second) * 1024 + i % 1024
}

// How a rack's weight counts, in sixteenths, so many stages before it comes home.
fn factor(ahead: usize) -> usize
    ensures { result ≤ 32 }
{
    LATE + (NEXT - LATE) * BETWEEN.saturating_sub(ahead) / BETWEEN
}

// The moves that bring a vacancy to a dead end, and the rack into it; more if the rack stands in the vacancy's way.
fn awaited_at_end(moves: usize, place: usize, door: usize) -> usize
    requires { moves < 256 }
    ensures { result < 512 }
{
    if moves == 0 {
        return 1;
    }
    if place == door {
        return moves + 17;
    }
    moves + 1
}

impl Layers {
    // What stands at a position of the arrangement whose cells begin at `base`.
    fn cell(&self, base: usize, p: usize) -> Cell {
        let i = base % 262144 + p % 64;
        if i < 40960 {
            return self.cells[i];
        }
        Cell { rack: 0, turn: 0 }
    }

    // The cells of an arrangement of n positions that begin at `base`.
    fn cells_of(&self, base: usize, n: usize) -> &[Cell] {
        let first = base % 262144;
        if n > 64 || first + n > 40960 {
            return &[];
        }
        &self.cells[first..first + n]
    }

    // The rack at a position, 0 if it is vacant.
    pub fn rack_at(&self, base: usize, p: usize) -> usize
        ensures { result < 256 }
    {
        usize::from(self.cell(base, p).rack)
    }

    // A position's turn.
    fn turn_at(&self, base: usize, p: usize) -> usize
        ensures { result < 65536 }
    {
        usize::from(self.cell(base, p).turn)
    }

    // Puts a rack and a turn at a position.
    pub fn put(&mut self, base: usize, p: usize, rack: usize, turn: usize) {
        let i = base % 262144 + p % 64;
        if i < 40960 {
            self.cells[i] = Cell {
                rack: (rack % 64) as u8,
                turn: (turn % 65536) as u16,
            };
        }
    }

    // The turn of a move of the rack at p to q, by the making rule: in the step after the rack's last one; or, if q was left later, behind
    // the one that left it, in its train, or in the next step if the train is full, which the sum yields too.
    pub fn turn_of_move(&self, base: usize, p: usize, q: usize) -> usize
        ensures { result < 131072 }
    {
        let own = self.turn_at(base, p) / 8 + 1;
        let left = self.turn_at(base, q);
        if left / 8 < own {
            return own * 8;
        }
        left + 1
    }
}

impl Candidates {
    // Is there no room for another one?
    fn is_full(&self) -> bool {
        self.count >= 8192
    }

    // Adds a candidate, if there is room.
    fn push(&mut self, candidate: Candidate) {
        if self.count < 8192 {
            self.all[self.count] = candidate;
            self.count += 1;
        }
    }
}

impl View<'_> {
    // What a rack at p weighs at a stage.
    fn weight_of(&self, rack: usize, p: usize, stage: usize) -> usize
        ensures { result < 4294967296 }
    {
        let ahead = self.tables.turn(rack).saturating_sub(stage);
        product(self.tables.weight(rack, p) % 4096, factor(ahead))
    }

    // Do the rack, standing at p, and the one at its goal stand at each other's, and are they neighbours?
    fn is_swapped(&self, layers: &Layers, base: usize, rack: usize, p: usize) -> bool {
        let home = self.tables.home(rack);
        if !staging::has(self.tables.row(p), home) {
            return false;
        }
        let other = layers.rack_at(base, home);
        other != 0 && other != rack && self.tables.home(other) == p
    }

    // The arrangement's stage: how many positions are settled, each with its rack home.
    fn stage_at(&self, layers: &Layers, base: usize) -> usize {
        let stages = self.tables.stages();
        for stage in 0..stages {
            let p = self.tables.settled(stage);
            if layers.rack_at(base, p) != self.tables.goal(p) {
                return stage;
            }
        }
        stages
    }

    // An arrangement's state with the rack at p, which is not 0, looked at.
    fn with_rack(&self, layers: &Layers, state: State, p: usize, rack: usize) -> State {
        let swapped = usize::from(self.is_swapped(layers, state.base, rack, p));
        let mut next = state;
        next.sum = state.sum % 0x10_0000 + self.weight_of(rack, p, state.stage);
        next.swapped = state.swapped % 256 + swapped;
        next
    }

    // An arrangement's state with position p looked at, which holds a cell; `awaited` is the stage's rack.
    fn with_position(
        &self,
        layers: &Layers,
        state: State,
        p: usize,
        held: Cell,
        awaited: usize,
    ) -> State {
        let rack = usize::from(held.rack);
        let mut next = state;
        if rack == 0 {
            next.vacant = state.vacant | staging::bit(p);
        } else {
            next = self.with_rack(layers, state, p, rack);
        }
        if rack == awaited {
            next.place = p;
        }
        next.span = state.span.max(usize::from(held.turn) / 8);
        next
    }

    // The state of the arrangement whose cells begin at `base`: every position looked at.
    fn survey(&self, layers: &Layers, base: usize, hash: u32) -> State {
        let stage = self.stage_at(layers, base);
        let awaited = self.tables.goal(self.tables.settled(stage));
        let mut state = State {
            vacant: 0,
            hash,
            sum: 0,
            swapped: 0,
            span: 0,
            stage,
            place: NOWHERE,
            base,
        };
        for (p, held) in layers
            .cells_of(base, self.look.n.min(64))
            .iter()
            .enumerate()
        {
            state = self.with_position(layers, state, p, *held, awaited);
        }
        state
    }

    // The moves that bring the stage's rack to its goal, or to the door of that, with one of the other vacancies. If it stands in another
    // dead end, a vacancy has to come first and let it out. Where there is none, position 0 stands in for it.
    fn carried(&self, state: &State, vacant: u64, others: u64) -> usize
        ensures { result < 512 }
    {
        let place = state.place;
        let fewest = staging::members(others)
            .map(|p| self.tables.moves_with(state.stage, place, p))
            .min()
            .unwrap_or(staging::FAR);
        if fewest < staging::FAR {
            return fewest;
        }
        if place == NOWHERE {
            return 40;
        }
        let nearest = self.tables.nearest_of(place, vacant).unwrap_or(0);
        40 + self.tables.distance(place, nearest)
    }

    // Moves until the stage's rack is home, about. Into a dead end it goes from its door, with a vacancy waiting at the end.
    fn to_go(&self, state: &State) -> usize
        ensures { result < 1024 }
    {
        if state.stage >= self.tables.stages() || state.stage >= self.look.filled {
            return 0;
        }
        if state.stage % 64 + 16 < self.look.filled {
            return 255;
        }
        let vacant = state.vacant & self.tables.region(state.stage);
        let Some(door) = self.tables.door(state.stage) else {
            return self.carried(state, vacant, vacant);
        };
        let end = self.tables.settled(state.stage);
        let Some(waits) = self.tables.nearest_of(end, vacant) else {
            let moves = awaited_at_end(self.tables.distance(end, 0), state.place, door);
            return moves + self.carried(state, vacant, vacant);
        };
        let moves = awaited_at_end(self.tables.distance(end, waits), state.place, door);
        moves + self.carried(state, vacant, vacant & !staging::bit(waits))
    }

    // What the moves to go and the stages behind cost: more and more once the front has waited too long.
    fn staged_cost(&self, moves: usize, stage: usize) -> usize
        ensures { result < 4294967296 }
    {
        let over = self.look.waited.saturating_sub(PATIENCE) % 256;
        let behind = (self.look.front % 64 + 4).saturating_sub(stage) % 64;
        product(
            moves % 1024 + product(STAGE + over, behind) % 32768,
            TO_GO + over,
        ) / 8
    }

    // The cost of an arrangement; ties are broken by chance.
    fn cost(&self, state: &State) -> usize {
        let staged = self.staged_cost(self.to_go(state), state.stage);
        let racks = state.sum % 0x10_0000 / 16 + state.swapped % 256 * SWAP;
        let sum = racks + staged + state.span % 4096 * STEP;
        sum * 4 + state.hash as usize / 8192 % 4
    }

    // Does the move of the rack at p to q end the arrangement's stage?
    fn ends_stage(&self, state: &State, p: usize, q: usize) -> bool {
        state.stage < self.tables.stages()
            && p == state.place
            && q == self.tables.settled(state.stage)
    }

    // The state after the move of the rack at p to q that ends the stage: all weights change, so the move is made, everything is looked at,
    // and the move is taken back.
    fn after_stage(
        &self,
        layers: &mut Layers,
        before: &State,
        p: usize,
        q: usize,
        hash: u32,
    ) -> State {
        let base = before.base;
        let rack = layers.rack_at(base, p);
        let turn_p = layers.turn_at(base, p);
        let turn_q = layers.turn_at(base, q);
        layers.put(base, q, rack, turn_q);
        layers.put(base, p, 0, turn_p);
        let state = self.survey(layers, base, hash);
        layers.put(base, p, rack, turn_p);
        layers.put(base, q, 0, turn_q);
        state
    }

    // The state after the rack at p moves to q in the same stage.
    fn after_shift(&self, layers: &Layers, before: &State, p: usize, q: usize) -> State {
        let rack = layers.rack_at(before.base, p);
        let gone = self.weight_of(rack, p, before.stage);
        let come = self.weight_of(rack, q, before.stage);
        let was = 2 * usize::from(self.is_swapped(layers, before.base, rack, p));
        let is = 2 * usize::from(self.is_swapped(layers, before.base, rack, q));
        let mut state = *before;
        state.vacant = before.vacant ^ staging::bit(p) ^ staging::bit(q);
        state.sum = (before.sum % 0x10_0000 + come).saturating_sub(gone);
        state.swapped = (before.swapped % 256 + is).saturating_sub(was);
        if p == before.place {
            state.place = q;
        }
        state
    }

    // The state after the rack at p moves to q.
    fn after_move(&self, layers: &mut Layers, before: &State, p: usize, q: usize) -> State {
        let rack = layers.rack_at(before.base, p);
        let hash = before.hash ^ mixed(rack, p) ^ mixed(rack, q);
        let span = before.span.max(layers.turn_of_move(before.base, p, q) / 8);
        let mut state = if self.ends_stage(before, p, q) {
            self.after_stage(layers, before, p, q, hash)
        } else {
            self.after_shift(layers, before, p, q)
        };
        state.hash = hash;
        state.span = span;
        state
    }

    // Adds the candidates of arrangement i of the layer, which has this state, as long as there is room.
    fn expand(&self, layers: &mut Layers, candidates: &mut Candidates, state: &State, i: usize) {
        let region = self.tables.region(state.stage);
        for q in staging::members(state.vacant & region) {
            for p in staging::members(self.tables.row(q) & region & !state.vacant) {
                if candidates.is_full() {
                    return;
                }
                let after = self.after_move(layers, state, p, q);
                candidates.push(Candidate {
                    from: (i % 1024) as u16,
                    left: (p % 64) as u8,
                    entered: (q % 64) as u8,
                    hash: after.hash,
                    cost: (self.cost(&after) % 0x1_0000_0000) as u32,
                });
            }
        }
    }

    // What the layer's arrangements are like, with one more looked at.
    fn with_arrangement(&self, made: Layer, state: &State, i: usize) -> Layer {
        let mut next = made;
        next.front = made.front.max(state.stage);
        if state.stage >= self.tables.stages() && state.sum < made.least {
            next.least = state.sum;
            if state.sum == 0 {
                next.done = Some(i);
            }
        }
        next
    }
}

// Writes the candidates of all arrangements of the layer, and yields what these are like.
pub fn expand_layer(
    look: &Look,
    tables: &Tables,
    layers: &mut Layers,
    candidates: &mut Candidates,
) -> Layer {
    let view = View { look, tables };
    let mut made = Layer {
        front: 0,
        least: usize::MAX,
        done: None,
    };
    candidates.count = 0;
    for i in 0..look.count.min(1024) {
        let base = first_cell(look.second, look.n, i);
        let hash = layers.kept[key_of(look.second, i)].hash;
        let state = view.survey(layers, base, hash);
        made = view.with_arrangement(made, &state, i);
        view.expand(layers, candidates, &state, i);
    }
    made
}
