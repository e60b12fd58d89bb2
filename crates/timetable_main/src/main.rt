// The timetable program: reads an order followed by a plan from standard input, at most 65,536 bytes, and prints the timetable, or one line
// with a refusal. What is printed is text::timetable_program's; this only reads and writes.
#![tactic(auto)]

use std::io;
use std::io::Write;

fn main(rt: HostRuntime) -> io::Result<()> {
    let mut input = [0u8; 65536];
    let n = reading::read_full(&mut rt.stdin(), &mut input)?;
    let mut out = [0u8; 524288];
    let printed = text::timetable_program(&input[..n], &mut out);
    rt.stdout().write_all(&out[..printed])
}
