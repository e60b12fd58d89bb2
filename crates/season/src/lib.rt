// The season report: order and timetable pairs, one after another, counted by the timetable checker's verdicts. specs/Season.antt says what
// is reported. A season may have any length; each pair's bytes are read a bounded number of times, and nothing is kept but the totals.
#![tactic(auto)]

ghost use Rattle.std.specs.Prelude.{◌≡◌, ◌+◌, ◌*◌, ◌^◌, ◌<◌};
ghost use Rattle.timetable.specs.Timetable.{timetable_answer};
ghost use Rattle.season.specs.Season.{counted, season_answer, parallelism, answer_of, told_by};
ghost use Rattle.season.specs.Pair.{PairAt, Within};

use answers::{Fault, Refusal};

// How many pairs a season may have.
const MOST: u32 = 65535;

// Pairs accepted and refused, and the steps and the moves of the accepted ones, in all.
#[derive(Clone, Copy)]
pub struct Totals {
    pub accepted: u64,
    pub refused: u64,
    pub steps: u64,
    pub moves: u64,
}

// The report on a season: its totals, and their moves divided by steps, in thousandths rounded down, if there are steps.
#[derive(Clone, Copy)]
pub struct Summary {
    pub totals: Totals,
    pub parallelism: Option<u64>,
}

// Where the order and the timetable of a pair end.
#[derive(Clone, Copy)]
struct Ends {
    order: usize,
    timetable: usize,
}

// The pair that the bytes begin with, if they do not end before it does.
fn find_pair(bytes: &[u8]) -> Option<Ends>
    ensures { PairAt bytes.now result }
{
    let order = order::record_length(bytes)?;
    let length = timetable::record_length(&bytes[order..])?;
    Some(Ends {
        order,
        timetable: order + length,
    })
}

// The totals of `pairs` pairs and one more.
fn count_pair(totals: Totals, pairs: u32, order: &[u8], timetable: &[u8]) -> Totals
    requires pairs_bound { pairs < 65535 }
    requires within { Within pairs totals }
    ensures value { result ≡ counted totals (timetable_answer order.now timetable.now) }
    ensures within_2 { Within (pairs + 1) result }
{
    match timetable_check::check(order, timetable) {
        Ok(counts) => Totals {
            accepted: totals.accepted + 1,
            steps: totals.steps + (counts.steps as u64),
            moves: totals.moves + (counts.moves as u64),
            ..totals
        },
        Err(_) => Totals {
            refused: totals.refused + 1,
            ..totals
        },
    }
}

// Moves divided by steps.
fn divide(steps: u64, moves: u64) -> Option<u64>
    requires { 1000 * moves < 2 ^ 64 }
    ensures { told_by result ≡ parallelism steps moves }
{
    if steps == 0 {
        return None;
    }
    Some(1000 * moves / steps)
}

// The report on any byte string as a season, or 46 or 47.
pub fn report(bytes: &[u8]) -> Result<Summary, Refusal>
    ensures { answer_of result ≡ season_answer bytes.now }
{
    let mut totals = Totals {
        accepted: 0,
        refused: 0,
        steps: 0,
        moves: 0,
    };
    let mut pairs: u32 = 0;
    let mut at: usize = 0;
    while at < bytes.len() {
        if pairs == MOST {
            return Err(Refusal(Fault::SeasonPairs, MOST));
        }
        let rest = &bytes[at..];
        let Some(ends) = find_pair(rest) else {
            return Err(Refusal(Fault::SeasonCut, pairs + 1));
        };
        totals = count_pair(
            totals,
            pairs,
            &rest[..ends.order],
            &rest[ends.order..ends.timetable],
        );
        at += ends.timetable;
        pairs += 1;
    }
    Ok(Summary {
        totals,
        parallelism: divide(totals.steps, totals.moves),
    })
}
