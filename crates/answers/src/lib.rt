// The answers of the entry points: one fault for each number of document 01's table, its number, and its family word.
#![tactic(auto)]

ghost use Rattle.std.specs.Prelude.{◌≡◌};
ghost use Rattle.answers.specs.Answer.{number_of};
ghost use Rattle.answers.specs.Family.{family_word};

// Why an entry point turns its input down. specs/Answer.antt gives each its number.
#[derive(Clone, Copy, PartialEq, Eq)]
pub enum Fault {
    // The order is under 3 bytes, or its length is not the one its counts give.
    OrderLength = 10,
    // The order's n is 0 or above 64.
    OrderPositions = 11,
    // A spare or pad bit of the order is set.
    OrderPadding = 12,
    // An edge has a position of n or more, is not lower first, or does not ascend.
    OrderEdge = 13,
    // A start or goal is n or more, or two racks share a start or share a goal.
    OrderRack = 14,
    // m + 2 is above n; on a ring, no position is vacant.
    FloorCrowded = 20,
    // The floor is not bi-connected.
    FloorNotBiconnected = 21,
    // The floor is a ring. No longer given: rings are planned.
    FloorRing = 22,
    // The plan buffer is shorter than 18 × n × n × n + 3 bytes.
    PlanBuffer = 23,
    // The plan is under 3 bytes, or its length is not the one k gives.
    PlanLength = 30,
    // The plan's spare bits are 10 or 11, or a pad bit is set.
    PlanPadding = 31,
    // A move has a position of n or more, or no edge joins its two.
    PlanMove = 32,
    // After the plan a rack is not at its goal.
    PlanGoal = 33,
    // The timetable is under 3 bytes, a step runs past its end, or bytes are left over.
    TimetableLength = 40,
    // A spare or pad bit of the timetable is set.
    TimetablePadding = 41,
    // A step is not legal.
    TimetableStep = 42,
    // After the timetable a rack is not at its goal.
    TimetableGoal = 43,
    // The timetable buffer is shorter than 3 × k + 3 bytes.
    TimetableBuffer = 44,
    // Step 0, or a step above s, was requested.
    StepNumber = 45,
    // The short order's length, or a spare or pad bit of it, is wrong.
    ShortOrder = 50,
    // The short order's model is unknown.
    ModelUnknown = 51,
    // The order buffer is shorter than the full record.
    OrderBuffer = 52,
    // No rack stands at the position that a move leaves.
    PlanNoRack = 34,
    // The position that a move enters is occupied.
    PlanOccupied = 35,
    // The racks stand in another order round the ring at the goal.
    FloorOrder = 24,
    // The second buffer is shorter than the plan given.
    SecondBuffer = 37,
    // The rack that a move names is not the one that stands there.
    PlanRack = 36,
    // The converter's buffer is shorter than the plan in the other edition.
    ConvertedBuffer = 38,
    // A position has five or more edges.
    FloorSides = 26,
    // The number of vacant positions is not one.
    VacancyCount = 29,
    // The role has no such right on the live floor.
    FloorRight = 60,
    // No step is left to run, or the lent step is not legal on the live floor.
    FloorRun = 61,
    // There is no step to take back, or the lent step, turned round, is not legal on the live floor.
    FloorTakeBack = 62,
    // The bytes of a season end before a pair does.
    SeasonCut = 46,
    // Bytes follow the pair numbered 65,535 of a season.
    SeasonPairs = 47,
    // The floor is not connected.
    FloorNotConnected = 27,
    // The plan buffer cannot hold an edition-two plan of n - 1 moves.
    CarryBuffer = 28,
}

// Why and where an entry point turns its input down: the place is the move, step, rack or pair that document 01 counts with the fault,
// and 0
// where it counts none.
#[derive(Clone, Copy, PartialEq, Eq)]
pub struct Refusal(pub Fault, pub u32);

impl Fault {
    // Document 01's number of the fault.
    pub fn number(self) -> u64
        ensures { result ≡ number_of self }
    {
        self as u64
    }
}

// The family word of a refusal number.
pub fn family_word(number: u64) -> &'static [u8]
    ensures { result.now ≡ family_word number }
{
    match number {
        10..=19 => b"order",
        20..=29 => b"floor",
        30..=39 => b"plan",
        40..=49 => b"timetable",
        _ => b"other",
    }
}
