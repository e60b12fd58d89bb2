// Bit fields of byte strings, most significant bit first: the fields that the records are made of, read (document 01, "Records").
// specs/Bits.antt says what a field is; proofs/BitLaws.antt reduces any field to bytes. Crate `recording` writes them.
#![tactic(auto)]

ghost use Rattle.std.specs.Prelude.{◌≡◌, not, false, ◌+◌, ◌*◌, ◌/◌, ◌%◌, ◌^◌, ◌≤◌, ◌<◌, length};
ghost use Rattle.field.specs.Bits.{field, pad, PositionAt, PairAt, TripleAt};
ghost use Rattle.field.specs.Units.{misfits, pad_set, unclean};
ghost use Rattle.field.specs.Listed.{move_size, ListedAt};

// Two positions that stand one after the other: an edge or a move.
#[derive(Clone, Copy)]
pub struct Pair {
    pub first: usize,
    pub second: usize,
}

// The first position of a pair that is kept as one number, first * 64 + second.
pub fn first_of(x: u16) -> usize
    ensures { result ≡ x / 64 % 64 }
{
    x as usize / 64 % 64
}

// The second position of such a pair.
pub fn second_of(x: u16) -> usize
    ensures { result ≡ x % 64 }
{
    x as usize % 64
}

// The pair that stands j pairs after the first byte, as one number, first * 64 + second. Two pairs take three bytes, and each stands in
// two of them. These are read in one way, so that reading pairs in no order has no branch to guess.
pub fn pair_number(s: &[u8], j: usize) -> usize
    requires { 12 * j + 12 ≤ 8 * length s.now }
    ensures { PairAt s.now (12 * j) (result / 64) (result % 64) }
{
    let at = j + j / 2;
    let x = usize::from(s[at]) * 256 + usize::from(s[at + 1]);
    if j % 2 == 0 {
        return x / 16;
    }
    x % 4096
}

// The two positions of that pair.
pub fn pair_at(s: &[u8], j: usize) -> Pair
    requires { 12 * j + 12 ≤ 8 * length s.now }
    ensures { PairAt s.now (12 * j) result.first result.second }
{
    let x = pair_number(s, j);
    Pair {
        first: x / 64,
        second: x % 64,
    }
}

// The three positions that stand j such triples after the first byte, as one number, first * 4096 + second * 64 + third. Four triples take
// nine bytes, and each stands in three of them. These are read in one way, so that reading triples in no order has no branch to guess.
pub fn triple_number(s: &[u8], j: usize) -> usize
    requires { 18 * j + 18 ≤ 8 * length s.now }
    ensures { TripleAt s.now (18 * j) (result / 4096) (result / 64 % 64) (result % 64) }
{
    let at = 2 * j + j / 4;
    let x = usize::from(s[at]) * 65536 + usize::from(s[at + 1]) * 256 + usize::from(s[at + 2]);
    (x >> (6 - j % 4 * 2)) % 262144
}

// A move as a plan lists it: its two positions as one number, left * 64 + entered, and the rack that it names, 0 where it names none.
#[derive(Clone, Copy)]
pub struct Listed {
    pub step: usize,
    pub rack: usize,
}

// The move that stands j moves after the first byte, in the edition whose moves name their racks or in the other.
pub fn listed_at(s: &[u8], named: bool, j: usize) -> Listed
    requires { 6 * (move_size named * (j + 1)) ≤ 8 * length s.now }
    ensures { ListedAt named s.now (6 * (move_size named * j)) (result.step / 64) (result.step % 64) result.rack }
{
    if named {
        let x = triple_number(s, j);
        return Listed {
            step: x / 64,
            rack: x % 64 + 1,
        };
    }
    let step = pair_number(s, j);
    Listed { step, rack: 0 }
}

// The two positions of that move.
pub fn move_at(s: &[u8], named: bool, j: usize) -> Pair
    requires { 6 * (move_size named * (j + 1)) ≤ 8 * length s.now }
    ensures { PairAt s.now (6 * (move_size named * j)) result.first result.second }
{
    let listed = listed_at(s, named, j);
    Pair {
        first: listed.step / 64,
        second: listed.step % 64,
    }
}

// The moves that a plan's tail lists from its first byte on, in the edition whose moves name their racks or in the other.
#[derive(Clone, Copy)]
pub struct Moves<'a> {
    pub tail: &'a [u8],
    pub named: bool,
    pub count: usize,
    ghost few: { count < 2 ^ 22 },
    ghost fits: { 6 * (move_size named * count) ≤ 8 * length tail.now },
}

impl Moves<'_> {
    // The move of index j.
    pub fn listed(&self, j: usize) -> Listed
        requires { j < self.now.count }
        ensures { ListedAt self.now.named self.now.tail.now (6 * (move_size self.now.named * j)) (result.step / 64)
            (result.step % 64) result.rack }
    {
        listed_at(self.tail, self.named, j)
    }

    // The two positions of that move.
    pub fn at(&self, j: usize) -> Pair
        requires { j < self.now.count }
        ensures { PairAt self.now.tail.now (6 * (move_size self.now.named * j)) result.first result.second }
    {
        move_at(self.tail, self.named, j)
    }
}

// The position that stands q positions after the first byte.
pub fn position_at(s: &[u8], q: usize) -> usize
    requires { 6 * q + 6 ≤ 8 * length s.now }
    ensures { PositionAt s.now (6 * q) result }
{
    let at = q / 4 * 3;
    let place = q % 4;
    if place == 0 {
        return usize::from(s[at]) / 4;
    }
    if place == 1 {
        return usize::from(s[at]) % 4 * 16 + usize::from(s[at + 1]) / 16;
    }
    if place == 2 {
        return usize::from(s[at + 1]) % 16 * 4 + usize::from(s[at + 2]) / 64;
    }
    usize::from(s[at + 2]) % 64
}

// The count of 22 bits that a plan and a timetable begin with.
pub fn count_at_head(s: &[u8]) -> usize
    requires { 3 ≤ length s.now }
    ensures { result ≡ field s.now 0 22 }
{
    usize::from(s[0]) * 16384 + usize::from(s[1]) * 64 + usize::from(s[2]) / 4
}

// The two spare bits that end the three bytes of a record's head.
pub fn spare_at_head(s: &[u8]) -> usize
    requires { 3 ≤ length s.now }
    ensures { result ≡ field s.now 22 2 }
{
    usize::from(s[2]) % 4
}

// The pad after q positions, as a number: 0 where no pad bit is set. Four positions end with a byte; one, two or three of them leave
// 2, 4 or 6 bits of the last byte that they begin.
pub fn pad_after(s: &[u8], q: usize) -> usize
    requires { 6 * q + pad (6 * q) ≤ 8 * length s.now }
    ensures { result ≡ field s.now (6 * q) (pad (6 * q)) }
{
    let end = q / 4 * 3;
    let place = q % 4;
    if place == 0 {
        return 0;
    }
    if place == 1 {
        return usize::from(s[end]) % 4;
    }
    if place == 2 {
        return usize::from(s[end + 1]) % 16;
    }
    usize::from(s[end + 2]) % 64
}

// Whether a byte string is as long as a record of q positions.
pub fn units_fit(s: &[u8], q: usize) -> bool
    requires { q < 2 ^ 32 }
    ensures { result ≡ not (misfits s.now q) }
{
    if s.len() < 3 {
        return false;
    }
    if s.len() != 3 + (6 * q + 7) / 8 {
        return false;
    }
    true
}

// Whether no pad bit of a record of q positions is set.
pub fn pad_clear(s: &[u8], q: usize) -> bool
    requires { misfits s.now q ≡ false }
    ensures { result ≡ not (pad_set s.now q) }
{
    pad_after(&s[3..], q) == 0
}

// Whether no spare or pad bit of a record of q positions is set.
pub fn units_clean(s: &[u8], q: usize) -> bool
    requires { misfits s.now q ≡ false }
    ensures { result ≡ not (unclean s.now q) }
{
    if spare_at_head(s) != 0 {
        return false;
    }
    pad_clear(s, q)
}
