// Floors by model code: a short order names its floor's model and is written out as a full order. specs/Grid.antt has the models' floors,
// specs/ShortOrder.antt the short order's record, specs/Expansion.antt what each number means; `expand` is the entry point. `put_grid`,
// `put_pairs` and `put_head` write any order's edges, racks and head.
#![tactic(auto)]

ghost use Rattle.std.specs.Prelude.{◌≡◌, not, true, false, ◌+◌, ◌*◌, ◌%◌, ◌≤◌, ◌<◌, length};
ghost use Rattle.field.specs.Bits.{pairs};
ghost use Rattle.field.specs.Writing.{written};
ghost use Rattle.models.specs.Grid.{unknown_model, grid_edges};
ghost use Rattle.models.specs.ShortOrder.{model_code, wrong_short};
ghost use Rattle.models.specs.Expansion.{expanded, expand_answer, buffer_after, answer_of};
ghost use Rattle.models.specs.Writing.{SizeOf, edge_if, tail_pairs, order_head, Room, Put};

use answers::{Fault, Refusal};

// A grid's size.
#[derive(Clone, Copy)]
pub struct Size {
    pub rows: usize,
    pub columns: usize,
}

// "Five models are sold, as rows and columns": those of model k stand at k - 1.
const SIZES: [Size; 5] = [
    Size {
        rows: 2,
        columns: 3,
    },
    Size {
        rows: 3,
        columns: 4,
    },
    Size {
        rows: 4,
        columns: 4,
    },
    Size {
        rows: 4,
        columns: 5,
    },
    Size {
        rows: 8,
        columns: 8,
    },
];

// The size of a known model.
pub fn size_of(model: usize) -> Size
    requires { unknown_model model ≡ false }
    ensures { SizeOf model result.rows result.columns }
{
    SIZES[model - 1]
}

// Writes the edge from p to q, if it is there: how many pairs then stand there.
fn put_edge(tail: &mut [u8], j: usize, there: bool, p: usize, q: usize) -> usize
    requires below { there ≡ true → (p < 64) × (q < 64) }
    requires room { Room tail.old j (edge_if there p q) }
    ensures { Put tail.old j (edge_if there p q) tail.new result }
{
    if !there {
        return j;
    }
    recording::put_pair(tail, j, p, q);
    j + 1
}

// Writes the edges of a grid, from its rows and columns: how many there are.
pub fn put_grid(tail: &mut [u8], rows: usize, columns: usize) -> usize
    requires le_columns { (1 ≤ columns) × (columns ≤ 64) × (rows * columns ≤ 64) }
    requires room { Room tail.old 0 (grid_edges rows columns) }
    ensures { Put tail.old 0 (grid_edges rows columns) tail.new result }
{
    let n = rows * columns;
    let mut j = 0;
    for p in 0..n {
        j = put_edge(tail, j, p % columns + 1 < columns, p, p + 1);
        j = put_edge(tail, j, p + columns < n, p, p + columns);
    }
    j
}

// Writes m pairs of positions after the first j pairs, as they stand at the front of another byte string.
pub fn put_pairs(tail: &mut [u8], j: usize, from: &[u8], m: usize)
    requires m_bound { 12 * m ≤ 8 * length from.now }
    requires room { Room tail.old j (pairs from.now 0 m) }
    ensures { Put tail.old j (pairs from.now 0 m) tail.new (j + m) }
{
    for i in 0..m {
        let pair = field::pair_at(from, i);
        recording::put_pair(tail, j + i, pair.first, pair.second);
    }
}

// Writes the head of an order with n positions, e edges and m racks.
pub fn put_head(order: &mut [u8], n: usize, e: usize, m: usize)
    requires in_bounds { 3 ≤ length order.old }
    requires n_bound { (n < 128) × (e < 256) × (m < 128) }
    ensures { order.new ≡ written order.old 0 (order_head n e m) }
{
    order[0] = (n * 2 + e / 128) as u8;
    order[1] = (e % 128 * 2 + m / 64) as u8;
    order[2] = (m % 64 * 4) as u8;
}

// Writes what follows an order's head: a grid's edges, then m starts and m goals, which are m pairs: how many edges there are.
fn put_tail(tail: &mut [u8], rows: usize, columns: usize, racks: &[u8], m: usize) -> usize
    requires le_columns { (1 ≤ columns) × (columns ≤ 64) × (rows * columns ≤ 64) × (12 * m ≤ 8 * length racks.now) }
    requires room { Room tail.old 0 (tail_pairs rows columns racks.now m) }
    ensures { Put tail.old 0 (tail_pairs rows columns racks.now m) tail.new (result + m) }
{
    let e = put_grid(tail, rows, columns);
    put_pairs(tail, e, racks, m);
    e
}

// Whether 50 passes a short order: its length, the bit behind m and the pad are right.
fn well_packed(short: &[u8]) -> bool
    ensures { result ≡ not (wrong_short short.now) }
{
    if short.len() < 2 {
        return false;
    }
    let b = usize::from(short[1]);
    let m = b / 2;
    if short.len() != 2 + (12 * m + 7) / 8 {
        return false;
    }
    if b % 2 != 0 {
        return false;
    }
    if field::pad_after(&short[2..], 2 * m) != 0 {
        return false;
    }
    true
}

// 50, 51, 14 and 52, of a short order and a buffer of `lent` bytes.
fn judge(short: &[u8], lent: usize) -> Result<usize, Refusal>
    ensures { answer_of result ≡ expand_answer short.now lent }
{
    if !well_packed(short) {
        return Err(Refusal(Fault::ShortOrder, 0));
    }
    let model = usize::from(short[0]);
    let m = usize::from(short[1]) / 2;
    if model == 0 {
        return Err(Refusal(Fault::ModelUnknown, 0));
    }
    if 5 < model {
        return Err(Refusal(Fault::ModelUnknown, 0));
    }
    let size = size_of(model);
    let n = size.rows * size.columns;
    let mut starts = [0u8; 64];
    let mut goals = [0u8; 64];
    if !order::racks_sound(&short[2..], n, 0, m, &mut starts, &mut goals) {
        return Err(Refusal(Fault::OrderRack, 0));
    }
    let edges = 2 * n - (size.rows + size.columns);
    let length = 3 + (12 * (edges + m) + 7) / 8;
    if lent < length {
        return Err(Refusal(Fault::OrderBuffer, 0));
    }
    Ok(length)
}

// Writes an accepted short order out as a full one.
fn write_out(short: &[u8], order: &mut [u8])
    requires short_value { (wrong_short short.now ≡ false) × (unknown_model (model_code short.now) ≡ false) }
    requires short_in_bounds { length (expanded short.now) ≤ length order.old }
    ensures { order.new ≡ written order.old 0 (expanded short.now) }
{
    let model = usize::from(short[0]);
    let m = usize::from(short[1]) / 2;
    let size = size_of(model);
    let rows = size.rows;
    let columns = size.columns;
    let e = put_tail(&mut order[3..], rows, columns, &short[2..], m);
    put_head(order, rows * columns, e, m);
}

// 50, 51, 14 and 52: writes a short order out as a full one at the front of a buffer.
pub fn expand(short: &[u8], buffer: &mut [u8]) -> Result<usize, Refusal>
    ensures answer { answer_of result ≡ expand_answer short.now (length buffer.old) }
    ensures buffer { buffer.new ≡ buffer_after short.now buffer.old }
{
    let length = judge(short, buffer.len())?;
    write_out(short, buffer);
    Ok(length)
}
