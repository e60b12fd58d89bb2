// The dearest single carry: on a connected floor, the start and the goal whose shortest plan for one rack alone is longest, and that plan.
// specs/Carry.antt says what they are, specs/CarryAnswer.antt has the answer and the buffer afterwards; `make` is the entry point.
#![tactic(auto)]

ghost use Rattle.std.specs.Prelude.{◌≡◌, true, ℕ, ◌+◌, ◌*◌, ◌/◌, ◌≤◌, ◌<◌, length, get_or};
ghost use Rattle.field.specs.Listed.{all_units};
ghost use Rattle.field.specs.Packing.{pack_positions};
ghost use Rattle.field.specs.Writing.{written};
ghost use Rattle.carry.specs.Listing.{taken};
ghost use Rattle.carry.specs.CarryAnswer.{carry_answer, buffer_after, answer_of};

use answers::{Fault, Refusal};
use farthest::Carry;

// Lists the moves of rack 1 along a way of k moves at the front of the room, in edition two.
fn list_way(at: &[u8; 64], k: usize, room: &mut [u8])
    requires k_bound { (k < 64) × ((i : ℕ) → i ≤ k → get_or at.now i 0 < 64) }
    requires k_in_bounds { (18 * k + 7) / 8 ≤ length room.old }
    ensures { room.new ≡ written room.old 0 (pack_positions (all_units true (taken at.now 0 k))) }
{
    for j in 0..k {
        recording::put_listed(room, true, j, usize::from(at[j]), usize::from(at[j + 1]), 1);
    }
}

// 10 to 14, 27 and 28, or the dearest carry of the order's floor: the record of its plan at the front of the buffer, in edition two. The
// order's own racks are set aside.
pub fn make(order: &[u8], buffer: &mut [u8]) -> Result<Carry, Refusal>
    ensures result_value { answer_of result ≡ carry_answer order.now (length buffer.old) }
    ensures buffer_after { buffer.new ≡ buffer_after order.now buffer.old }
{
    let mut rows = [0u64; 64];
    let mut starts = [0u8; 64];
    let mut goals = [0u8; 64];
    let counts = decoding::decode(order, &mut rows, &mut starts, &mut goals)?;
    let n = counts.positions;
    if !graph::is_connected(&rows, n) {
        return Err(Refusal(Fault::FloorNotConnected, 0));
    }
    if buffer.len() < 3 + (18 * (n - 1) + 7) / 8 {
        return Err(Refusal(Fault::CarryBuffer, 0));
    }
    let carry = farthest::dearest(&rows, n);
    let Some(way) = graph::search(&rows, sets::below(n), sets::only(carry.goal), carry.start) else {
        unreachable!();
    };
    list_way(&way.at, carry.moves, &mut buffer[3..]);
    recording::put_head(buffer, carry.moves, 1);
    Ok(carry)
}
