// The order program: reads a short order from standard input, at most 65,536 bytes, and writes the full order's record, or one line with a
// refusal. What is written is order_program::order_program's; this only reads and writes.
#![tactic(auto)]

use std::io;
use std::io::Write;

fn main(rt: HostRuntime) -> io::Result<()> {
    let mut input = [0u8; 65536];
    let n = reading::read_full(&mut rt.stdin(), &mut input)?;
    let mut out = [0u8; 1024];
    let printed = order_program::order_program(&input[..n], &mut out);
    rt.stdout().write_all(&out[..printed])
}
