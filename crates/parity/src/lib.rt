// One vacant position, and whether the goal is hopeless. specs/OneVacancy.antt says what each answer means; `one_vacancy` is the entry
// point.
#![tactic(auto)]

ghost use Rattle.std.specs.Prelude.{◌-◌, ◌≤◌, ◌<◌, ◌≡◌};
ghost use Rattle.sets.specs.Sets.{bit};
ghost use Rattle.graph.specs.Connected.{Connected};
ghost use Rattle.graph.specs.Rows.{Edge, Rows};
ghost use Rattle.parity.specs.Permutation.{smaller as smaller_of, inversions as inversions_of};
ghost use Rattle.parity.specs.OneVacancy.{vacancy_answer};
ghost use Rattle.parity.specs.Verdict.{answer_of};
ghost use Rattle.parity.specs.Work.{entries, Seats, Homes, Sent, ColouredBy, ContraryOn};

use answers::{Fault, Refusal};

// What is known of an order with one vacancy: that no moves lead to its goal, or nothing.
#[derive(Clone, Copy)]
pub enum Hope {
    Impossible,
    NotJudged,
}

// How many of the entries before `n` and from `from` on are below `x`.
fn smaller(list: &[u8; 64], from: usize, n: usize, x: u8) -> usize
    requires from_le_n { from ≤ n }
    requires n_bound { n ≤ 64 }
    ensures value { result ≡ smaller_of x (entries list.now from (n - from)) }
    ensures upper_bound { result ≤ 64 }
{
    let mut count = 0;
    for i in from..n {
        if list[i] < x {
            count += 1;
        }
    }
    count
}

// How many pairs of the first `n` entries stand the wrong way round.
fn inversions(list: &[u8; 64], n: usize) -> usize
    requires { n ≤ 64 }
    ensures value { result ≡ inversions_of (entries list.now 0 n) }
    ensures upper_bound { result ≤ 4096 }
{
    let mut count = 0;
    for i in 0..n {
        count += smaller(list, i + 1, n, list[i]);
    }
    count
}

// Where each rack stands, by its number, and at 0 where the vacancy is.
fn homes(racks: &[u8; 64], n: usize) -> [u8; 64]
    requires { Seats n racks.now }
    ensures { Homes n racks.now result }
{
    let mut at = [0u8; 64];
    for p in 0..n {
        at[usize::from(racks[p])] = p as u8;
    }
    at
}

// The change as a permutation: where what stands at each position is to go, the vacancy included.
fn change(starts: &[u8; 64], at: &[u8; 64], n: usize) -> [u8; 64]
    requires { Seats n starts.now }
    ensures { Sent n starts.now at.now result }
{
    let mut sent = [0u8; 64];
    for p in 0..n {
        sent[p] = at[usize::from(starts[p])];
    }
    sent
}

// The colour of a position, as a number: 1 where it is in the set.
fn colour(set: u64, p: usize) -> usize
    requires { p < 64 }
    ensures value { result ≡ bit set p }
    ensures upper_bound { result ≤ 1 }
{
    usize::from(sets::has(set, p))
}

// Do the inversions and the colours that the vacancy leaves and reaches disagree in parity? A move changes both, so no moves mend that.
fn is_contrary(starts: &[u8; 64], goals: &[u8; 64], n: usize, light: u64) -> bool
    requires n_nonzero { 0 < n }
    requires seats { Seats n starts.now }
    requires seats_2 { Seats n goals.now }
    ensures { ContraryOn n starts.now goals.now light result }
{
    let left = homes(starts, n);
    let reached = homes(goals, n);
    let sent = change(starts, &reached, n);
    let changes = colour(light, usize::from(left[0])) + colour(light, usize::from(reached[0]));
    (inversions(&sent, n) + changes) % 2 == 1
}

// The positions of one colour, where all fall into two, each edge joining both. Position 0 is light; what a light one is joined to is
// dark, and what a dark one is joined to light. On a connected floor that leaves no position out, and there are two colours where no
// position got both.
pub fn two_colours(rows: &[u64; 64], n: usize) -> Option<u64>
    requires n_nonzero { 0 < n }
    requires rows { Rows n rows.now }
    requires connected { Connected n (Edge rows.now) }
    ensures { ColouredBy n (Edge rows.now) result }
{
    let mut light = sets::only(0);
    let mut dark: u64 = 0;
    let mut rest = sets::below(n);
    loop {
        let next = (light | dark) & rest;
        if next == 0 {
            let both = light & dark;
            if both != 0 {
                return None;
            }
            return Some(light);
        }
        let p = sets::lowest(next);
        if sets::has(light, p) {
            dark = dark | rows[p];
        } else {
            light = light | rows[p];
        }
        rest = sets::without(rest, p);
    }
}

// 10 to 14, then 29 and 21 in this order: the verdict on any byte string as an order with one vacant position.
pub fn one_vacancy(order: &[u8]) -> Result<Hope, Refusal>
    ensures { answer_of result ≡ vacancy_answer order.now }
{
    let mut rows = [0u64; 64];
    let mut starts = [0u8; 64];
    let mut goals = [0u8; 64];
    let counts = decoding::decode(order, &mut rows, &mut starts, &mut goals)?;
    let n = counts.positions;
    let m = counts.racks;
    if n != m + 1 {
        return Err(Refusal(Fault::VacancyCount, 0));
    }
    if !graph::is_biconnected(&rows, n) {
        return Err(Refusal(Fault::FloorNotBiconnected, 0));
    }
    let Some(light) = two_colours(&rows, n) else {
        return Ok(Hope::NotJudged);
    };
    if is_contrary(&starts, &goals, n, light) {
        return Ok(Hope::Impossible);
    }
    Ok(Hope::NotJudged)
}
