// The live floor: a picture of where the racks stand, which a controller holds, and who may drive it. specs/Picture.antt says what the
// picture is, specs/Roles.antt who has which right, specs/Calls.antt what each call answers and leaves, specs/Theorems.antt what is proved
// of sequences of calls. `open`, `read`, `run` and `take_back` are the entry points. A refused call leaves the picture as it was.
#![tactic(auto)]

ghost use Rattle.std.specs.Prelude.{◌≡◌, ◌&&◌, leb};
ghost use Rattle.live.specs.Picture.{is_open};
ghost use Rattle.live.specs.Roles.{role_number, role_of, opening, reading, running, taking_back};
ghost use Rattle.live.specs.Calls.{call_answer, by_answer, picture_after, answer_of};
ghost use Rattle.live.specs.Admitting.{gate_answer};

use answers::{Fault, Refusal};

// The picture: the rack at each position, 0 where there is none; how many steps were run and not taken back; and how many positions the
// opening floor has, 0 while the picture is closed. The header's `wichteab_floor` is this struct.
#[repr(C)]
#[derive(Clone, Copy)]
pub struct Floor {
    pub racks: [u8; 64],
    pub steps: u32,
    pub positions: u32,
}

// Who calls, by the number that a C caller gives. `Nobody` stands for a number that names no role; each role from `Viewer` on may do what
// those before it may.
#[derive(Clone, Copy, PartialEq, Eq, PartialOrd, Ord)]
pub enum Role {
    Nobody = 0,
    Viewer = 1,
    Operator = 2,
    Supervisor = 3,
}

// The role that a number names.
impl From<u32> for Role {
    fn from(number: u32) -> Role
        ensures { result ≡ role_of number }
    {
        match number {
            1 => Role::Viewer,
            2 => Role::Operator,
            3 => Role::Supervisor,
            _ => Role::Nobody,
        }
    }
}

// 60, then the checker's own numbers: what every call begins with. Accepted, it gives the timetable's steps.
fn admit(allowed: bool, order: &[u8], timetable: &[u8]) -> Result<u32, Refusal>
    ensures { answer_of result ≡ gate_answer allowed order.now timetable.now }
{
    if !allowed {
        return Err(Refusal(Fault::FloorRight, 0));
    }
    let counts = timetable_check::check(order, timetable)?;
    Ok(counts.steps as u32)
}

// The same for the calls on an open picture, by a role from `lowest` on.
fn enter(
    floor: &Floor,
    role: Role,
    lowest: Role,
    order: &[u8],
    timetable: &[u8],
) -> Result<u32, Refusal>
    ensures { answer_of result ≡
        gate_answer (leb (role_number lowest) (role_number role) && is_open floor.now) order.now timetable.now }
{
    admit(role >= lowest && floor.positions != 0, order, timetable)
}

// Opens a picture: each rack at its start, no step run. A picture that was open is replaced; a refused opening leaves it.
pub fn open(floor: &mut Floor, role: Role, order: &[u8], timetable: &[u8]) -> Result<u32, Refusal>
    ensures answer { answer_of result ≡ call_answer opening role floor.old order.now timetable.now }
    ensures picture { floor.new ≡ picture_after opening role floor.old order.now timetable.now }
{
    let _ = admit(role >= Role::Viewer, order, timetable)?;
    let counts = order::counts_of(order);
    let mut racks = [0u8; 64];
    decoding::place_racks(&order[3..], 2 * counts.edges, counts.racks, &mut racks);
    *floor = Floor {
        racks,
        steps: 0,
        positions: counts.positions as u32,
    };
    Ok(0)
}

// Reads a picture: where it is allowed, the rack at each position is shown, and the answer gives the steps.
pub fn read(
    floor: &Floor,
    role: Role,
    order: &[u8],
    timetable: &[u8],
    shown: &mut [u8; 64],
) -> Result<u32, Refusal>
    ensures answer { answer_of result ≡ call_answer reading role floor.now order.now timetable.now }
    ensures racks { shown.new ≡
        by_answer (call_answer reading role floor.now order.now timetable.now) floor.now.racks shown.old }
{
    let _ = enter(floor, role, Role::Viewer, order, timetable)?;
    *shown = floor.racks;
    Ok(floor.steps)
}

// Runs the next step: 61 where none is left or the lent one is not legal on the picture.
pub fn run(floor: &mut Floor, role: Role, order: &[u8], timetable: &[u8]) -> Result<u32, Refusal>
    ensures answer { answer_of result ≡ call_answer running role floor.old order.now timetable.now }
    ensures picture { floor.new ≡ picture_after running role floor.old order.now timetable.now }
{
    let count = enter(floor, role, Role::Operator, order, timetable)?;
    if count <= floor.steps {
        return Err(Refusal(Fault::FloorRun, 0));
    }
    let next = (floor.steps + 1) as usize;
    if !stepping::run_lent(
        order,
        timetable,
        next,
        floor.positions as usize,
        &mut floor.racks,
    ) {
        return Err(Refusal(Fault::FloorRun, 0));
    }
    floor.steps += 1;
    Ok(floor.steps)
}

// Takes the last step back: 62 where there is none or the lent one, turned round, is not legal on the picture.
pub fn take_back(
    floor: &mut Floor,
    role: Role,
    order: &[u8],
    timetable: &[u8],
) -> Result<u32, Refusal>
    ensures answer { answer_of result ≡ call_answer taking_back role floor.old order.now timetable.now }
    ensures picture { floor.new ≡ picture_after taking_back role floor.old order.now timetable.now }
{
    let count = enter(floor, role, Role::Supervisor, order, timetable)?;
    if floor.steps == 0 {
        return Err(Refusal(Fault::FloorTakeBack, 0));
    }
    if count < floor.steps {
        return Err(Refusal(Fault::FloorTakeBack, 0));
    }
    let last = floor.steps as usize;
    if !stepping::take_back_lent(
        order,
        timetable,
        last,
        floor.positions as usize,
        &mut floor.racks,
    ) {
        return Err(Refusal(Fault::FloorTakeBack, 0));
    }
    floor.steps -= 1;
    Ok(floor.steps)
}
