// The order record and its reader: a byte string is judged by 10 to 14 of document 01's table. specs/Order.antt says what an order record
// is and what each number means; `read` is the entry point. `record_length` says where an order ends that other bytes follow. Crate
// `decoding` puts an order into tables.
#![tactic(auto)]

ghost use Rattle.std.specs.Prelude.{◌≡◌, true, not, ◌+◌, ◌*◌, ◌≤◌, ◌<◌, length};
ghost use Rattle.answers.specs.Found.{found};
ghost use Rattle.field.specs.Bits.{pairs, positions};
ghost use Rattle.order.specs.Order.{CountsOf, order_answer, wrong_edges, wrong_places};
ghost use Rattle.order.specs.Readers.{head_answer, edges_answer, NextEdge, RacksJudged};
ghost use Rattle.order.specs.RecordLength.{whole_order_length};
ghost use Rattle.order.specs.Tables.{racks_at};
ghost use Rattle.order.specs.Verdict.{answer_of};

use answers::{Fault, Refusal};

// What an order's head says: n positions, e edges, m racks.
#[derive(Clone, Copy)]
pub struct Counts {
    pub positions: usize,
    pub edges: usize,
    pub racks: usize,
}

pub fn counts_of(order: &[u8]) -> Counts
    requires { 3 ≤ length order.now }
    ensures { CountsOf order.now result.positions result.edges result.racks }
{
    let a = usize::from(order[0]);
    let b = usize::from(order[1]);
    let c = usize::from(order[2]);
    Counts {
        positions: a / 2,
        edges: a % 2 * 128 + b / 2,
        racks: b % 2 * 64 + c / 4,
    }
}

// The length of the order that the bytes begin with, by its counts alone, if they do not end before it does.
pub fn record_length(bytes: &[u8]) -> Option<usize>
    ensures { result ≡ found (whole_order_length bytes.now) }
{
    if bytes.len() < 3 {
        return None;
    }
    let counts = counts_of(bytes);
    let len = 3 + (12 * (counts.edges + counts.racks) + 7) / 8;
    if bytes.len() < len {
        return None;
    }
    Some(len)
}

// 10 to 12. The length comes first: n and the spare bits are judged only where the counts give it.
pub fn read_head(order: &[u8]) -> Result<Counts, Refusal>
    ensures { answer_of result ≡ head_answer order.now }
{
    if order.len() < 3 {
        return Err(Refusal(Fault::OrderLength, 0));
    }
    let counts = counts_of(order);
    let n = counts.positions;
    let units = 2 * (counts.edges + counts.racks);
    if !field::units_fit(order, units) {
        return Err(Refusal(Fault::OrderLength, 0));
    }
    if n == 0 {
        return Err(Refusal(Fault::OrderPositions, 0));
    }
    if 64 < n {
        return Err(Refusal(Fault::OrderPositions, 0));
    }
    if !field::units_clean(order, units) {
        return Err(Refusal(Fault::OrderPadding, 0));
    }
    Ok(counts)
}

// Judges edge j + 1 of an order's tail behind an edge at the place `last`: its own place, if it is below n, lower first and after that
// edge.
// An edge's place in the order of edges is one number, since positions are below 64.
pub fn next_edge(tail: &[u8], j: usize, n: usize, last: usize) -> Option<usize>
    requires { 12 * j + 12 ≤ 8 * length tail.now }
    ensures { NextEdge tail.now j n last result }
{
    let edge = field::pair_at(tail, j);
    let a = edge.first;
    let b = edge.second;
    if b <= a {
        return None;
    }
    if n <= b {
        return None;
    }
    let place = a * 64 + b;
    if place <= last {
        return None;
    }
    Some(place)
}

// Whether the e edges of an order's tail are below n, lower first and ascending.
fn edges_sound(tail: &[u8], n: usize, e: usize) -> bool
    requires { 12 * e ≤ 8 * length tail.now }
    ensures { result ≡ not (wrong_edges (record { positions = n; edges = pairs tail.now 0 e })) }
{
    let mut last = 0;
    for j in 0..e {
        let Some(place) = next_edge(tail, j, n, last) else {
            return false;
        };
        last = place;
    }
    true
}

// 13, above 10 to 12. The edges are read from the part of the record that begins at its fourth byte.
fn read_edges(order: &[u8]) -> Result<Counts, Refusal>
    ensures { answer_of result ≡ edges_answer order.now }
{
    let counts = read_head(order)?;
    let n = counts.positions;
    let e = counts.edges;
    if !edges_sound(&order[3..], n, e) {
        return Err(Refusal(Fault::OrderEdge, 0));
    }
    Ok(counts)
}

// Judges the m positions that stand `from` positions after the tail's first byte, whether they are below n and all different, and puts
// racks 1 to m there in the same pass: the table itself shows which positions are taken. Where they are right, it has the racks and
// nothing else.
fn place_sound(tail: &[u8], n: usize, from: usize, m: usize, table: &mut [u8; 64]) -> bool
    requires n_bound { n ≤ 64 }
    requires m_bound { m < 128 }
    requires m_bound_2 { 6 * (from + m) ≤ 8 * length tail.now }
    ensures value { result ≡ not (wrong_places n (positions tail.now (6 * from) m)) }
    ensures table_after { result ≡ true → table.new ≡ racks_at (positions tail.now (6 * from) m) }
{
    *table = [0; 64];
    for i in 0..m {
        let p = field::position_at(tail, from + i);
        if n <= p {
            return false;
        }
        if table[p] != 0 {
            return false;
        }
        table[p] = (i + 1) as u8;
    }
    true
}

// 14, of the starts and then of the goals, with the tables of both.
pub fn racks_sound(
    tail: &[u8],
    n: usize,
    e: usize,
    m: usize,
    starts: &mut [u8; 64],
    goals: &mut [u8; 64],
) -> bool
    requires n_bound { n ≤ 64 }
    requires m_bound { m < 128 }
    requires m_bound_2 { 12 * (e + m) ≤ 8 * length tail.now }
    ensures { RacksJudged tail.now n e m result starts.new goals.new }
{
    if !place_sound(tail, n, 2 * e, m, starts) {
        return false;
    }
    place_sound(tail, n, 2 * e + m, m, goals)
}

// 10 to 14: the verdict on any byte string as an order.
pub fn read(order: &[u8]) -> Result<Counts, Refusal>
    ensures { answer_of result ≡ order_answer order.now }
{
    let counts = read_edges(order)?;
    let n = counts.positions;
    let e = counts.edges;
    let m = counts.racks;
    let mut starts = [0u8; 64];
    let mut goals = [0u8; 64];
    if !racks_sound(&order[3..], n, e, m, &mut starts, &mut goals) {
        return Err(Refusal(Fault::OrderRack, 0));
    }
    Ok(counts)
}
