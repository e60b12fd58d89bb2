// An order as tables: `decode` judges it as `order::read` does, in one pass with the floor's rows and the racks' tables, and `mark_edges`
// and `place_racks` fill the checkers' tables. Crate `order` says what the tables are.
#![tactic(auto)]

ghost use Rattle.std.specs.Prelude.{◌≡◌, true, not, ◌+◌, ◌*◌, ◌≤◌, ◌<◌, length, replicate};
ghost use Rattle.field.specs.Bits.{pairs, positions};
ghost use Rattle.order.specs.Order.{order_answer, wrong_edges};
ghost use Rattle.order.specs.Readers.{edges_answer, FilledRows, FilledTables};
ghost use Rattle.order.specs.Tables.{marked, placed, joining, joined_rows};
ghost use Rattle.order.specs.Tables.{decoded_rows, decoded_starts, decoded_goals};
ghost use Rattle.order.specs.Verdict.{answer_of};

use answers::{Fault, Refusal};
use order::Counts;

// Puts the positions a and b each into the row of the other.
fn join(rows: &mut [u64; 64], a: usize, b: usize)
    requires a_bound { a < 64 }
    requires b_bound { b < 64 }
    ensures { rows.new ≡ joining (joining rows.old a b) b a }
{
    rows[a] |= 1 << b;
    rows[b] |= 1 << a;
}

// The same judgement in one pass with the rows: where the edges are right, `rows` has their rows afterwards.
fn join_edges(tail: &[u8], n: usize, e: usize, rows: &mut [u64; 64]) -> bool
    requires { 12 * e ≤ 8 * length tail.now }
    ensures value { result ≡ not (wrong_edges (record { positions = n; edges = pairs tail.now 0 e })) }
    ensures rows_after { result ≡ true → rows.new ≡ joined_rows (replicate 64 0) (pairs tail.now 0 e) }
{
    *rows = [0; 64];
    let mut last = 0;
    for j in 0..e {
        let Some(place) = order::next_edge(tail, j, n, last) else {
            return false;
        };
        join(rows, place / 64, place % 64);
        last = place;
    }
    true
}

// The same with the rows of the edges.
fn decode_edges(order: &[u8], rows: &mut [u64; 64]) -> Result<Counts, Refusal>
    ensures result_value { answer_of result ≡ edges_answer order.now }
    ensures filled_rows { FilledRows order.now (answer_of result) rows.new }
{
    let counts = order::read_head(order)?;
    let n = counts.positions;
    let e = counts.edges;
    if !join_edges(&order[3..], n, e, rows) {
        return Err(Refusal(Fault::OrderEdge, 0));
    }
    Ok(counts)
}

// The same with the racks: on a refusal the tables may hold anything.
fn decode_racks(
    order: &[u8],
    rows: &mut [u64; 64],
    starts: &mut [u8; 64],
    goals: &mut [u8; 64],
) -> Result<Counts, Refusal>
    ensures result_value { answer_of result ≡ order_answer order.now }
    ensures filled { FilledTables order.now (answer_of result) rows.new starts.new goals.new }
{
    let counts = decode_edges(order, rows)?;
    let n = counts.positions;
    let e = counts.edges;
    let m = counts.racks;
    if !order::racks_sound(&order[3..], n, e, m, starts, goals) {
        return Err(Refusal(Fault::OrderRack, 0));
    }
    Ok(counts)
}

// The same verdict, where it is accepted with the order decoded: the rows of its floor, and the racks at their starts and at their goals.
// On a refusal the three tables are left empty, whatever they held.
pub fn decode(
    order: &[u8],
    rows: &mut [u64; 64],
    starts: &mut [u8; 64],
    goals: &mut [u8; 64],
) -> Result<Counts, Refusal>
    ensures result_value { answer_of result ≡ order_answer order.now }
    ensures rows_after { rows.new ≡ decoded_rows order.now }
    ensures starts_after { starts.new ≡ decoded_starts order.now }
    ensures goals_after { goals.new ≡ decoded_goals order.now }
{
    let judged = decode_racks(order, rows, starts, goals);
    if judged.is_err() {
        *rows = [0; 64];
        *starts = [0; 64];
        *goals = [0; 64];
    }
    judged
}

// Marks the e edges of an order's tail in a matrix of 64 entries to a row.
pub fn mark_edges(tail: &[u8], e: usize, matrix: &mut [u8; 4096])
    requires { 12 * e ≤ 8 * length tail.now }
    ensures { matrix.new ≡ marked matrix.old (pairs tail.now 0 e) }
{
    for j in 0..e {
        let edge = field::pair_at(tail, j);
        let a = edge.first;
        let b = edge.second;
        matrix[a * 64 + b] = 1;
        matrix[b * 64 + a] = 1;
    }
}

// Puts racks 1 to m at the m positions that stand `from` positions after the tail's first byte.
pub fn place_racks(tail: &[u8], from: usize, m: usize, racks: &mut [u8; 64])
    requires { (m ≤ 64) × (6 * (from + m) ≤ 8 * length tail.now) }
    ensures { racks.new ≡ placed racks.old 1 (positions tail.now (6 * from) m) }
{
    for i in 0..m {
        let p = field::position_at(tail, from + i);
        racks[p] = (i + 1) as u8;
    }
}
