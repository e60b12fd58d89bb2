// The converter: of a plan that the plan checker accepts it writes the other edition. specs/Converter.antt has the answer and the buffer
// afterwards, specs/Theorems.antt what is proved of going there and back; `convert` is the entry point.
#![tactic(auto)]

ghost use Rattle.std.specs.Prelude.{◌≡◌, not, ◌+◌, ◌*◌, ◌/◌, ◌^◌, ◌≤◌, ◌<◌, length};
ghost use Rattle.field.specs.Listed.{move_size, moves_at, all_units};
ghost use Rattle.field.specs.Packing.{pack_positions};
ghost use Rattle.field.specs.Writing.{written};
ghost use Rattle.converting.specs.Listing.{tabled, Held};
ghost use Rattle.converting.specs.Converter.{converter_answer, buffer_after, answer_of};

use answers::{Fault, Refusal};

// Lists the k moves of a plan's tail in the other edition at the front of the room. The racks are moved along on their table, where a
// move's rack is found when it leaves its position.
fn list_moves(tail: &[u8], named: bool, k: usize, racks: &mut [u8; 64], room: &mut [u8])
    requires k_bound { (k < 2 ^ 22) × (6 * (move_size named * k) ≤ 8 * length tail.now) }
    requires k_in_bounds { (6 * (move_size (not named) * k) + 7) / 8 ≤ length room.old }
    requires held { Held racks.old (moves_at named tail.now 0 k) }
    ensures { room.new ≡ written room.old 0
        (pack_positions (all_units (not named) (tabled racks.old (moves_at named tail.now 0 k)))) }
{
    let other = !named;
    for j in 0..k {
        let step = field::move_at(tail, named, j);
        let a = step.first;
        let b = step.second;
        let rack = racks[a];
        recording::put_listed(room, other, j, a, b, usize::from(rack));
        racks[a] = 0;
        racks[b] = rack;
    }
}

// Writes a plan for an order in the other edition at the front of the buffer: the plan checker's numbers, then 38.
pub fn convert(order: &[u8], plan: &[u8], buffer: &mut [u8]) -> Result<usize, Refusal>
    ensures result_value { answer_of result ≡ converter_answer order.now plan.now (length buffer.old) }
    ensures buffer_after { buffer.new ≡ buffer_after order.now plan.now buffer.old }
{
    let k = plan_check::check(order, plan)?;
    let named = plan::names_racks(plan);
    let units = plan::units(!named, k);
    if buffer.len() < 3 + (6 * units + 7) / 8 {
        return Err(Refusal(Fault::ConvertedBuffer, 0));
    }
    let counts = order::counts_of(order);
    let mut racks = [0u8; 64];
    decoding::place_racks(&order[3..], 2 * counts.edges, counts.racks, &mut racks);
    list_moves(&plan[3..], named, k, &mut racks, &mut buffer[3..]);
    recording::put_head(buffer, k, plan::spare_bits(!named));
    Ok(k)
}
