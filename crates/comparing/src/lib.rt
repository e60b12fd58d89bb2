// Two plans for an order compared: the search's may stand in the place of the proved method's where the plan checker accepts it and its
// timetable is shorter, or as long with fewer moves. specs/Choosing.antt says when; `improves` decides it, and `take_better` leaves the
// better one in the buffer.
#![tactic(auto)]

ghost use Rattle.std.specs.Prelude.{true, ◌↔◌, ◌≡◌, List, [], ◌∷◌, ℕ};
ghost use Rattle.answers.specs.Answer.{accepted};
ghost use Rattle.plan.specs.Plan.{move_count, plan_answer};
ghost use Rattle.comparing.specs.Choosing.{Improves, Chosen};
ghost use Rattle.comparing.specs.Overwriting.{Overwritten, SomeBuffer};

// May the plan that was found stand in the place of the proved method's? It has to be a plan of edition two for the order, with no more
// moves than demand 3 allows, and its timetable has to be shorter, or as long with fewer moves.
fn improves(order: &[u8], proved: &[u8], found: &[u8]) -> bool
    requires { plan_answer order.now proved.now ≡ accepted (move_count proved.now ∷ []) }
    ensures { (result ≡ true) ↔ Improves order.now proved.now found.now }
{
    let Ok(steps) = scheduling::count_steps(order, proved) else {
        return false;
    };
    let Ok(fewer) = scheduling::count_steps(order, found) else {
        return false;
    };
    if !plan::names_racks(found) {
        return false;
    }
    let n = order::counts_of(order).positions;
    let moves = field::count_at_head(found);
    if 8 * (n * (n * n)) < moves {
        return false;
    }
    (fewer, moves) < (steps, field::count_at_head(proved))
}

// A plan of k moves stands in the buffer, and its bytes were kept as they had been before. Leaves it there, or puts the bytes back and
// writes the plan that was found, if that improves on it. Yields how many moves the plan has that stands there then.
pub fn take_better(order: &[u8], kept: &[u8], found: &[u8], k: usize, buffer: &mut [u8]) -> usize
    requires { SomeBuffer order.now kept.now k buffer.old }
    ensures { (B : List ℕ) → Overwritten order.now B kept.now k buffer.old
        → Chosen order.now B (accepted (result ∷ [])) buffer.new }
{
    if !improves(order, &buffer[..kept.len()], found) {
        return k;
    }
    buffer[..kept.len()].copy_from_slice(kept);
    buffer[..found.len()].copy_from_slice(found);
    field::count_at_head(found)
}
