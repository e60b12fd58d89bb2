// What a search for a short plan is prepared with. A search runs over whole arrangements, and with nearly all racks home it would get
// stuck. So positions are settled one after another, from the outside inwards, and a settled position is never touched again. Here are the
// order of settling, the goal with its vacancies moved to where they are wanted last, the weights of racks by their distance, and for each
// stage a table of the moves that bring its rack home.
//
// Nothing is promised of the results: they guide a search whose plan is replayed before it counts. So each function takes any numbers: a
// position, a rack or a stage is taken modulo 64, and a place in a table modulo the table's size.
//
// A set of positions is a word, as in crate `sets`: position p is in it where bit p is 1.
#![tactic(auto)]

ghost use Rattle.std.specs.Prelude.{◌≤◌, ◌<◌};
ghost use Rattle.std.specs.Iterator.{at_most};

// What a search is prepared with.
#[derive(Drop)]
pub struct Tables {
    // How many positions the floor has, and how many of them are vacant.
    n: usize,
    vacancies: usize,
    // How many stages there are.
    stages: usize,
    // The neighbours of each position.
    rows: [u64; 64],
    // The positions that are not settled at each stage.
    regions: [u64; 64],
    // The rack that ends at each position, 0 for none.
    goals: [u8; 64],
    // The position where each rack ends.
    homes: [u8; 64],
    // The stage in which each rack comes home, for those of the last region the count of stages.
    turns: [u8; 64],
    // The position that is settled in each stage.
    settled: [u8; 64],
    // Its only neighbour in the region of that stage, if there is just one.
    doors: [Option<u8>; 64],
    // How many edges lie between two positions, 64 numbers for each position; 0 if no way joins them.
    distances: [u8; 4096],
    // What each rack weighs at each position, 64 numbers for each rack.
    weights: [u16; 4096],
    // The moves that shift the goal, the position left times 64 and the position entered, and how many there are.
    shifts: [u16; 1024],
    shifted: usize,
    // The moves that bring a stage's rack home with one vacancy: 16 tables, one for a stage, of 64 entries for each place of the rack, one
    // for each place of the vacancy.
    to_go: [u8; 65536],
    ghost n_bounded: { n ≤ 64 },
}

// A walk over a set: its positions from the lowest on.
#[derive(Clone, Copy)]
pub struct Walk {
    rest: u64,
}

// A move of the goal: the position left and the position entered.
#[derive(Clone, Copy)]
struct Shift {
    left: usize,
    entered: usize,
}

// The places of rack and vacancy that are one after another looked at, that of the rack times 64 and that of the vacancy.
#[derive(Drop)]
struct Queue {
    places: [u16; 4096],
    count: usize,
}

// So many positions are left to the last region, or half more than are vacant.
const LAST_REGION: usize = 16;

// More moves than any entry of a to-go table: not reached. A number in the place of an Option, which would double the tables.
pub const FAR: usize = 120;

// ---- sets of positions

// The set of a position alone. Unlike `sets::only` it takes any number.
pub fn bit(p: usize) -> u64 {
    sets::only(p % 64)
}

// Is the position in the set? Unlike `sets::has` it takes any number.
pub fn has(set: u64, p: usize) -> bool {
    sets::has(set, p % 64)
}

// The set without its lowest position: a smaller number, so that a walk over a set ends.
pub fn without_lowest(set: u64) -> u64
    requires { 0 < set }
    ensures { result < set }
{
    set & (set - 1)
}

impl Iterator for Walk {
    type Item = usize;

    ghost remaining = { λ s. at_most s.rest };

    fn next(&mut self) -> Option<usize> {
        if self.rest == 0 {
            return None;
        }
        let p = sets::lowest(self.rest);
        self.rest = without_lowest(self.rest);
        Some(p)
    }
}

// The positions of a set, from the lowest on.
pub fn members(set: u64) -> Walk {
    Walk { rest: set }
}

// The only member of a set, if there is just one.
fn only_one(set: u64) -> Option<usize> {
    if set == 0 || without_lowest(set) != 0 {
        return None;
    }
    Some(sets::lowest(set))
}

// A position as the tables hold it.
fn narrow(p: usize) -> u8 {
    (p % 64) as u8
}

// A move turned round.
fn turned(made: u16) -> u16 {
    made % 64 * 64 + made / 64 % 64
}

// What a rack at a distance from its goal weighs: a far one more than in proportion, or the last ones stay far.
fn weight_at(d: usize) -> u16 {
    let far = d % 64;
    ((far * 4 + far * far / 4) % 65536) as u16
}

// Where the entry stands in a stage's table for a place of rack and vacancy, that of the rack times 64 and that of the vacancy.
fn slot(stage: usize, at: usize) -> usize
    ensures { result < 65536 }
{
    stage % 16 * 4096 + at % 4096
}

// Where rack and vacancy stand after the vacancy has moved to q: they change places if the rack is there.
fn moved_to(rack: usize, vacant: usize, q: usize) -> usize
    ensures { result < 4096 }
{
    if q == rack {
        return vacant % 64 * 64 + rack % 64;
    }
    rack % 64 * 64 + q % 64
}

impl Queue {
    // Puts a place at the end, if there is room.
    fn push(&mut self, at: usize) {
        if self.count < 4096 {
            self.places[self.count] = (at % 4096) as u16;
            self.count += 1;
        }
    }
}

impl Tables {
    // ---- what the tables hold

    // How many positions are vacant.
    pub fn vacancies(&self) -> usize {
        self.vacancies
    }

    // How many stages there are.
    pub fn stages(&self) -> usize {
        self.stages
    }

    // The neighbours of a position.
    pub fn row(&self, p: usize) -> u64 {
        self.rows[p % 64]
    }

    // The positions that are not settled at a stage.
    pub fn region(&self, stage: usize) -> u64 {
        self.regions[stage % 64]
    }

    // The rack that ends at a position, 0 for none.
    pub fn goal(&self, p: usize) -> usize
        ensures { result < 256 }
    {
        usize::from(self.goals[p % 64])
    }

    // The position where a rack ends.
    pub fn home(&self, rack: usize) -> usize
        ensures { result < 256 }
    {
        usize::from(self.homes[rack % 64])
    }

    // The stage in which a rack comes home.
    pub fn turn(&self, rack: usize) -> usize
        ensures { result < 256 }
    {
        usize::from(self.turns[rack % 64])
    }

    // The position that is settled in a stage.
    pub fn settled(&self, stage: usize) -> usize
        ensures { result < 256 }
    {
        usize::from(self.settled[stage % 64])
    }

    // Its only neighbour in the region of that stage, if there is just one.
    pub fn door(&self, stage: usize) -> Option<usize> {
        self.doors[stage % 64].map(|p| usize::from(p))
    }

    // How many edges lie between two positions; 0 if no way joins them.
    pub fn distance(&self, p: usize, q: usize) -> usize
        ensures { result < 256 }
    {
        usize::from(self.distances[p % 64 * 64 + q % 64])
    }

    // What a rack weighs at a position.
    pub fn weight(&self, rack: usize, p: usize) -> usize
        ensures { result < 65536 }
    {
        usize::from(self.weights[rack % 64 * 64 + p % 64])
    }

    // The moves that bring a stage's rack home from `place` with one vacancy; FAR if they were not reached.
    pub fn moves_with(&self, stage: usize, place: usize, vacancy: usize) -> usize
        ensures { result < 256 }
    {
        usize::from(self.to_go[slot(stage, place % 64 * 64 + vacancy % 64)])
    }

    // The position of the set that is nearest to `from`, the lowest of those, if there is one.
    pub fn nearest_of(&self, from: usize, set: u64) -> Option<usize> {
        members(set).min_by_key(|p| self.distance(from, *p))
    }

    // ---- floors

    // What is reached from a position without leaving the set. A position is fresh once, when it is reached, and each round takes a fresh
    // one: 64 rounds are enough.
    fn reached(&self, from: usize, within: u64) -> u64 {
        let mut all = bit(from) & within;
        let mut fresh = all;
        for _ in 0..64 {
            if fresh == 0 {
                return all;
            }
            let new = self.row(sets::lowest(fresh)) & within & !all;
            all |= new;
            fresh = without_lowest(fresh) | new;
        }
        all
    }

    // Whether the set has a member and is connected.
    fn connected(&self, set: u64) -> bool {
        set != 0 && self.reached(sets::lowest(set), set) == set
    }

    // Whether the set stays connected without any one of its members.
    fn bi_connected(&self, set: u64) -> bool {
        members(set).all(|p| self.connected(set & !bit(p)))
    }

    // All that are joined to a member of the set.
    fn around(&self, set: u64) -> u64 {
        members(set).fold(0, |all, p| all | self.row(p))
    }

    // Writes the distance from a position for all members of the set.
    fn write_distance(&mut self, from: usize, set: u64, d: usize) {
        for p in members(set) {
            self.distances[from % 64 * 64 + p % 64] = (d % 256) as u8;
        }
    }

    // The distances from a position to all that are reached, ring by ring.
    fn distances_from(&mut self, from: usize, all: u64) {
        let mut ring = bit(from);
        let mut seen = ring;
        for d in 0..64 {
            if ring == 0 {
                return;
            }
            self.write_distance(from, ring, d);
            ring = self.around(ring) & all & !seen;
            seen |= ring;
        }
    }

    // The distances between all positions.
    fn find_distances(&mut self) {
        let all = sets::below(self.n);
        for from in 0..self.n {
            self.distances_from(from, all);
        }
    }

    // ---- the order of settling

    // The distances of a position to all others, summed.
    fn sum_of_distances(&self, p: usize) -> usize {
        let mut sum = 0;
        for q in 0..self.n {
            sum += self.distance(p, q);
        }
        sum
    }

    // The position nearest to all others, the lowest of those: the last region lies about it.
    fn middle(&self) -> usize {
        (0..self.n)
            .min_by_key(|p| self.sum_of_distances(*p))
            .unwrap_or(0)
    }

    // The neighbours of a position that have only one other in the set: they dangle once it is settled.
    fn dangling(&self, left: u64, p: usize) -> u64 {
        let mut found = 0;
        for q in members(self.row(p) & left) {
            if sets::size(self.row(q) & left & !bit(p)) < 2 {
                found |= bit(q);
            }
        }
        found
    }

    // What is settled next if a position is: it and the neighbours that dangle then; none if the rest is not bi-connected.
    fn settled_with(&self, left: u64, p: usize) -> Option<u64> {
        let chosen = bit(p) | self.dangling(left, p);
        if self.bi_connected(left & !chosen) {
            return Some(chosen);
        }
        None
    }

    // How soon a position is settled, the highest first: the farther from the middle, and then the fewer neighbours in the set; 0 if it is
    // not in the set.
    fn rank(&self, middle: usize, left: u64, p: usize) -> usize {
        if !has(left, p) {
            return 0;
        }
        self.distance(middle, p) * 8 + 8 - sets::size(self.row(p) & left) % 8
    }

    // The position to settle next, the lowest of those with the highest rank that may be settled, and what is settled with it.
    fn next_settled(&self, middle: usize, left: u64) -> Option<(usize, u64)> {
        let mut best = None;
        let mut highest = 0;
        for p in 0..self.n {
            let high = self.rank(middle, left, p);
            if high > highest
                && let Some(chosen) = self.settled_with(left, p)
            {
                highest = high;
                best = Some((p, chosen));
            }
        }
        best
    }

    // Notes that a position is settled in a stage, with its door, and what is not settled at the next stage.
    fn note_settled(&mut self, stage: usize, p: usize) {
        let left = self.region(stage);
        self.settled[stage % 64] = narrow(p);
        self.doors[stage % 64] = only_one(self.row(p) & left).map(|q| narrow(q));
        self.regions[(stage % 64 + 1) % 64] = left & !bit(p);
    }

    // Notes each of the set as settled in a stage of its own; the count of stages then.
    fn note_all(&mut self, stages: usize, set: u64) -> usize {
        let mut stage = stages;
        for p in members(set) {
            self.note_settled(stage, p);
            stage = stage % 64 + 1;
        }
        stage
    }

    // How many positions the last region has at least.
    fn last_region(&self) -> usize {
        (self.vacancies % 128 * 3 / 2).max(LAST_REGION)
    }

    // Fills the stages in, from the first, until no more than the least number of positions may be settled. Each round settles one position
    // at least, so 58 rounds are more than there are stages.
    fn settle(&mut self, middle: usize) {
        let least = self.last_region();
        self.regions[0] = sets::below(self.n);
        for _ in 0..58 {
            let left = self.region(self.stages);
            let Some((p, chosen)) = self.next_settled(middle, left) else {
                return;
            };
            if sets::size(left & !chosen) < least {
                return;
            }
            self.note_settled(self.stages, p);
            self.stages = self.note_all(self.stages % 64 + 1, chosen & !bit(p));
        }
    }

    // ---- the goal with its vacancies in the last region

    // The positions where no rack ends.
    fn vacant(&self) -> u64 {
        let mut set = 0;
        for p in 0..self.n {
            if self.goals[p] == 0 {
                set |= bit(p);
            }
        }
        set
    }

    // A move of the goal that takes the vacancy at p nearer to the middle, if there is one.
    fn step_from(&self, middle: usize, p: usize, vacant: u64) -> Option<Shift> {
        let q = self.nearest_of(middle, self.row(p) & !vacant)?;
        if self.distance(middle, q) >= self.distance(middle, p) {
            return None;
        }
        Some(Shift {
            left: q,
            entered: p,
        })
    }

    // A move of the goal that takes a vacancy of the set nearer to the middle, the lowest that has one.
    fn step_in(&self, middle: usize, set: u64, vacant: u64) -> Option<Shift> {
        members(set).find_map(|p| self.step_from(middle, p, vacant))
    }

    // The next move of the goal; none if all vacancies are inside, or if none moves. Those inside make room where those outside cannot
    // move.
    fn next_shift(&self, middle: usize, inside: u64) -> Option<Shift> {
        let vacant = self.vacant();
        let outside = sets::minus(vacant, inside);
        if outside == 0 {
            return None;
        }
        self.step_in(middle, outside, vacant)
            .or_else(|| self.step_in(middle, vacant & inside, vacant))
    }

    // Moves the goal's vacancies into the last region; these moves are undone at the end of the plan.
    fn shift_goal(&mut self, middle: usize) {
        let inside = self.region(self.stages);
        for count in 0..1024 {
            let Some(made) = self.next_shift(middle, inside) else {
                return;
            };
            let left = made.left % 64;
            let entered = made.entered % 64;
            self.goals[entered] = self.goals[left];
            self.goals[left] = 0;
            self.shifts[count] = (left * 64 + entered) as u16;
            self.shifted = count + 1;
        }
    }

    // Writes the shifts after a plan, undone, as far as there is room: the last first, each turned round. The length of the plan then.
    pub fn undo_shifts(&self, found: &mut [u16; 4096], length: usize) -> usize
        ensures { result ≤ 4096 }
    {
        let mut total = length.min(4096);
        for i in (0..self.shifted).rev() {
            if total >= 4096 {
                return 4096;
            }
            found[total] = turned(self.shifts[i % 1024]);
            total += 1;
        }
        total
    }

    // ---- weights

    // Notes where each rack ends, and that it comes home last.
    fn note_ends(&mut self) {
        for p in 0..self.n {
            let rack = self.goal(p) % 64;
            self.homes[rack] = narrow(p);
            self.turns[rack] = narrow(self.stages);
        }
    }

    // Notes the stage of each rack that comes home in a stage of its own.
    fn note_turns(&mut self) {
        for stage in 0..self.stages.min(64) {
            let rack = self.goal(self.settled(stage)) % 64;
            self.turns[rack] = narrow(stage);
        }
    }

    // The weights of the racks, which are fewer than the positions.
    fn weigh(&mut self) {
        for rack in 1..self.n {
            for p in 0..64 {
                self.weights[rack * 64 + p] = weight_at(self.distance(self.home(rack), p));
            }
        }
    }

    // ---- to go: the moves that bring a rack to a target with one vacancy, for each place of both

    // The places with the rack at its target, none to go, and these in the queue.
    fn start_table(&mut self, stage: usize, target: usize, within: u64, queue: &mut Queue) {
        for vacant in members(within & !bit(target)) {
            let at = target % 64 * 64 + vacant % 64;
            self.to_go[slot(stage, at)] = 0;
            queue.push(at);
        }
    }

    // Puts a place into the queue, so many moves to go, if it was not reached before.
    fn reach(&mut self, stage: usize, queue: &mut Queue, at: usize, moves: usize) {
        let entry = slot(stage, at);
        if usize::from(self.to_go[entry]) == FAR && moves < FAR {
            self.to_go[entry] = moves as u8;
            queue.push(at);
        }
    }

    // One place of rack and vacancy, taken from the queue: what is one move from it is reached.
    fn spread(&mut self, stage: usize, within: u64, queue: &mut Queue, at: usize) {
        let moves = usize::from(self.to_go[slot(stage, at)]) + 1;
        for q in members(self.row(at) & within) {
            self.reach(stage, queue, moved_to(at / 64 % 64, at % 64, q), moves);
        }
    }

    // The moves to go with the rack's target and what may be entered known, breadth-first.
    fn fill_towards(&mut self, stage: usize, target: usize, within: u64) {
        let mut queue = Queue {
            places: [0; 4096],
            count: 0,
        };
        let first = stage % 16 * 4096;
        self.to_go[first..first + 4096].fill(FAR as u8);
        self.start_table(stage, target, within, &mut queue);
        for head in 0..4096 {
            if head >= queue.count {
                return;
            }
            let at = usize::from(queue.places[head]);
            self.spread(stage, within, &mut queue, at);
        }
    }

    // The table of a stage. Into a dead end the rack goes from its door, with another vacancy waiting at the end.
    pub fn fill_table(&mut self, stage: usize) {
        match self.door(stage) {
            Some(door) => self.fill_towards(stage, door, self.region(stage % 64 + 1)),
            None => self.fill_towards(stage, self.settled(stage), self.region(stage)),
        }
    }

    // ---- all of it

    // The tables for a floor of n positions, all 64 if it has more, with nothing prepared. They are made where they stay, since a second
    // copy would take 85 KiB of stack.
    pub fn empty(n: usize) -> Tables {
        Tables {
            n: n.min(64),
            vacancies: 0,
            stages: 0,
            rows: [0; 64],
            regions: [0; 64],
            goals: [0; 64],
            homes: [0; 64],
            turns: [0; 64],
            settled: [0; 64],
            doors: [None; 64],
            distances: [0; 4096],
            weights: [0; 4096],
            shifts: [0; 1024],
            shifted: 0,
            to_go: [0; 65536],
        }
    }

    // Forgets what an earlier search was prepared with.
    fn forget(&mut self) {
        self.stages = 0;
        self.shifted = 0;
        self.rows = [0; 64];
        self.regions = [0; 64];
        self.goals = [0; 64];
        self.homes = [0; 64];
        self.turns = [0; 64];
        self.settled = [0; 64];
        self.doors = [None; 64];
        self.distances = [0; 4096];
        self.weights = [0; 4096];
    }

    // Takes floor and goals over.
    fn take_over(&mut self, rows: &[u64; 64], goals: &[u8; 64]) {
        let all = sets::below(self.n);
        for p in 0..self.n {
            self.rows[p] = rows[p] & all;
            self.goals[p] = goals[p] % 64;
        }
        self.vacancies = goals[..self.n].iter().filter(|rack| **rack == 0).count();
    }

    // Prepares a search on a floor whose neighbours are the rows and whose racks are to end as the goals say, 0 for none. What the tables
    // held before does not count.
    pub fn prepare(&mut self, rows: &[u64; 64], goals: &[u8; 64]) {
        self.forget();
        self.take_over(rows, goals);
        self.find_distances();
        let middle = self.middle();
        self.settle(middle);
        self.shift_goal(middle);
        self.note_ends();
        self.note_turns();
        self.weigh();
    }
}
