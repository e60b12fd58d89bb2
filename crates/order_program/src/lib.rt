// The order program on its whole input: a short order is written out as a full one. specs/Printed.antt says what it writes.
#![tactic(auto)]

ghost use Rattle.field.specs.Writing.{Wrote};
ghost use Rattle.order_program.specs.Printed.{order_text};

// Writes what the program prints at the front of `out`, leaves every byte behind it, and says how many bytes that is.
pub fn order_program(input: &[u8], out: &mut [u8; 1024]) -> usize
    ensures { Wrote out.old 0 (order_text input.now) out.new result }
{
    match models::expand(input, out) {
        Ok(length) => length,
        Err(refusal) => writers::put_refusal(refusal.0.number(), refusal.1, out, 0),
    }
}
