// The season program on its whole input. specs/Printed.antt says what it prints, field's specs/Writing.antt what a writer leaves in the
// buffer, byte for byte, and where the next one begins.
#![tactic(auto)]

ghost use Rattle.field.specs.Writing.{Fits, Wrote};
ghost use Rattle.season.specs.Season.{told_by};
ghost use Rattle.season_program.specs.Printed.{count_line, quotient_text, count_lines, parallelism_line, report_lines, season_text};

use season::{Summary, Totals};

// The line of a count: its word with a space, and the number.
fn put_count(word: &[u8], n: u64, out: &mut [u8], at: usize) -> usize
    requires { Fits out.old at (count_line word.now n) }
    ensures { Wrote out.old at (count_line word.now n) out.new result }
{
    let at = writers::put_bytes(word, out, at);
    let at = writers::put_decimal(n as usize, out, at);
    writers::put_byte(b'\n', out, at)
}

// The parallelism.
fn put_quotient(p: Option<u64>, out: &mut [u8], at: usize) -> usize
    requires { Fits out.old at (quotient_text (told_by p)) }
    ensures { Wrote out.old at (quotient_text (told_by p)) out.new result }
{
    match p {
        None => writers::put_bytes(b"none", out, at),
        Some(n) => writers::put_decimal(n as usize, out, at),
    }
}

// The lines of the four counts.
fn put_counts(t: Totals, out: &mut [u8], at: usize) -> usize
    requires { Fits out.old at (count_lines t.accepted t.refused t.steps t.moves) }
    ensures { Wrote out.old at (count_lines t.accepted t.refused t.steps t.moves) out.new result }
{
    let at = put_count(b"accepted ", t.accepted, out, at);
    let at = put_count(b"refused ", t.refused, out, at);
    let at = put_count(b"steps ", t.steps, out, at);
    put_count(b"moves ", t.moves, out, at)
}

// The line of the parallelism.
fn put_parallelism(p: Option<u64>, out: &mut [u8], at: usize) -> usize
    requires { Fits out.old at (parallelism_line (told_by p)) }
    ensures { Wrote out.old at (parallelism_line (told_by p)) out.new result }
{
    let at = writers::put_bytes(b"parallelism ", out, at);
    let at = put_quotient(p, out, at);
    writers::put_byte(b'\n', out, at)
}

// The five lines.
fn put_report(report: Summary, out: &mut [u8], at: usize) -> usize
    requires { Fits out.old at (report_lines report) }
    ensures { Wrote out.old at (report_lines report) out.new result }
{
    let at = put_counts(report.totals, out, at);
    put_parallelism(report.parallelism, out, at)
}

// Writes what the program prints at the front of `out`, leaves every byte behind it, and says how many bytes that is.
pub fn season_program(input: &[u8], out: &mut [u8; 256]) -> usize
    ensures { Wrote out.old 0 (season_text input.now) out.new result }
{
    match season::report(input) {
        Ok(report) => put_report(report, out, 0),
        Err(refusal) => writers::put_refusal(refusal.0.number(), refusal.1, out, 0),
    }
}
