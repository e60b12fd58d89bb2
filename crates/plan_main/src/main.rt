// The plan program: reads an order from standard input, at most 65,536 bytes, and writes the record of a plan for it, or one line with a
// refusal. What is written is plan_program::plan_program's; this only reads and writes.
#![tactic(auto)]

use std::io;
use std::io::Write;

fn main(rt: HostRuntime) -> io::Result<()> {
    let mut input = [0u8; 65536];
    let n = reading::read_full(&mut rt.stdin(), &mut input)?;
    let mut out = [0u8; 65536];
    let printed = plan_program::plan_program(&input[..n], &mut out);
    rt.stdout().write_all(&out[..printed])
}
