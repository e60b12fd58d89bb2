// The timetable record and its readers: any byte string is judged by 40 and 41 of document 01's table, and a step of it is handed out
// (45). specs/Timetable.antt says what a timetable record is and what each number means; specs/Reading.antt and specs/Checking.antt give
// the verdicts document 01's numbers and values. `read`, `find_step` and `step` are the entry points; `record_length` says where a
// timetable ends that other bytes follow. Crate `timetable_check` judges a timetable for an order.
#![tactic(auto)]

ghost use Rattle.std.specs.Prelude.{◌≡◌, false, ◌≤◌, ◌<◌, length, get_or, drop};
ghost use Rattle.answers.specs.Found.{found};
ghost use Rattle.timetable.specs.Timetable.{step_length, step_pad_set, wrong_timetable_length, step_count};
ghost use Rattle.timetable.specs.Timetable.{offset, step_answer};
ghost use Rattle.timetable.specs.Reading.{StepSize, steps_answer, reading_answer, number_answer, part_given, place_given, answer_of_step};
ghost use Rattle.timetable.specs.Checking.{answer_of_check};
ghost use Rattle.timetable.specs.RecordLength.{whole_timetable_length};

use answers::{Fault, Refusal};

// The counts of an accepted timetable.
#[derive(Clone, Copy)]
pub struct Counts {
    pub steps: usize,
    pub moves: usize,
}

// Where a step stands in the lent timetable.
#[derive(Clone, Copy)]
pub struct Part {
    pub offset: usize,
    pub len: usize,
}

// The length in bytes of a step of c moves: its count byte, its moves and its pad.
pub fn step_length(c: u8) -> usize
    ensures { StepSize c result }
{
    1 + (12 * usize::from(c) + 7) / 8
}

// The length of the timetable that the bytes begin with, by its step count and its count bytes alone, if they do not end before it does.
pub fn record_length(bytes: &[u8]) -> Option<usize>
    ensures { result ≡ found (whole_timetable_length bytes.now) }
{
    if bytes.len() < 3 {
        return None;
    }
    let count = field::count_at_head(bytes);
    let mut end = 3;
    for _ in 0..count {
        let size = step_length(*bytes.get(end)?);
        if bytes.len() - end < size {
            return None;
        }
        end += size;
    }
    Some(end)
}

// Whether a pad bit of a step is set. The step is the whole part, from its count byte to its pad.
fn pad_set(step: &[u8]) -> bool
    requires { length step.now ≡ step_length (get_or step.now 0 0) }
    ensures { result ≡ step_pad_set step.now }
{
    field::pad_after(&step[1..], 2 * usize::from(step[0])) != 0
}

// 40 and 41 of the steps alone, from the fourth byte on. A set pad bit is remembered and not answered at once: 40 is judged to the end.
fn read_steps(timetable: &[u8], count: usize) -> Result<Counts, Refusal>
    requires { 3 ≤ length timetable.now }
    ensures { answer_of_check result ≡ steps_answer count (drop 3 timetable.now) }
{
    let mut at = 3;
    let mut moves = 0;
    let mut pad_seen = false;
    for _ in 0..count {
        let Some(&c) = timetable.get(at) else {
            return Err(Refusal(Fault::TimetableLength, 0));
        };
        let size = step_length(c);
        if timetable.len() - at < size {
            return Err(Refusal(Fault::TimetableLength, 0));
        }
        let next = at + size;
        if pad_set(&timetable[at..next]) {
            pad_seen = true;
        }
        moves += usize::from(c);
        at = next;
    }
    if at < timetable.len() {
        return Err(Refusal(Fault::TimetableLength, 0));
    }
    if pad_seen {
        return Err(Refusal(Fault::TimetablePadding, 0));
    }
    Ok(Counts {
        steps: count,
        moves,
    })
}

// 40 and 41: the verdict on any byte string as a timetable record.
pub fn read(timetable: &[u8]) -> Result<Counts, Refusal>
    ensures { answer_of_check result ≡ reading_answer timetable.now }
{
    if timetable.len() < 3 {
        return Err(Refusal(Fault::TimetableLength, 0));
    }
    let count = field::count_at_head(timetable);
    let counts = read_steps(timetable, count)?;
    if field::spare_at_head(timetable) != 0 {
        return Err(Refusal(Fault::TimetablePadding, 0));
    }
    Ok(counts)
}

// 45, above 40 and 41.
fn read_number(timetable: &[u8], number: usize) -> Result<Counts, Refusal>
    ensures { answer_of_check result ≡ number_answer timetable.now number }
{
    let counts = read(timetable)?;
    if number == 0 {
        return Err(Refusal(Fault::StepNumber, 0));
    }
    if counts.steps < number {
        return Err(Refusal(Fault::StepNumber, 0));
    }
    Ok(counts)
}

// Where step `number` begins, in a timetable that has it: the steps before it are passed one by one.
fn offset_of(timetable: &[u8], number: usize) -> usize
    requires { (wrong_timetable_length timetable.now ≡ false) × (1 ≤ number) × (number ≤ step_count timetable.now) }
    ensures { (result ≡ offset timetable.now number) × (result < length timetable.now) }
{
    let mut at = 3;
    for _ in 1..number {
        at += step_length(timetable[at]);
    }
    at
}

// 40, 41 and 45: where step `number` stands, for any byte string and any number.
pub fn find_step(timetable: &[u8], number: usize) -> Result<Part, Refusal>
    ensures { answer_of_step result ≡ step_answer timetable.now number }
{
    read_number(timetable, number)?;
    let offset = offset_of(timetable, number);
    Ok(Part {
        offset,
        len: step_length(timetable[offset]),
    })
}

// Step `number` as that part of the lent timetable itself, its count byte first and its pad last; the empty part where it is refused,
// which no step is. Two steps may have equal bytes, so the place is promised beside them.
pub fn step<'a>(timetable: &'a [u8], number: usize) -> &'a [u8]
    ensures bytes { result.now ≡ part_given timetable.now number }
    ensures place { result.ref_ptr ≡ place_given timetable.entry.ref_ptr timetable.now number }
{
    let Ok(Part { offset, len }) = find_step(timetable, number) else {
        return &timetable[0..0];
    };
    let end = offset + len;
    &timetable[offset..end]
}
