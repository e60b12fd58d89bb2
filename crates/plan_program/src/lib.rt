// The plan program on its whole input. specs/Printed.antt says what it writes, field's specs/Writing.antt what it leaves in the lent bytes.
#![tactic(auto)]

ghost use Rattle.plan_program.specs.Printed.{Printed};

// Writes what the program prints at the front of `out`, leaves every byte behind it, and says how many bytes that is. The planner is lent
// `out` itself, so that its record stands there already; on a refusal it left every byte as it was.
pub fn plan_program(input: &[u8], out: &mut [u8; 65536]) -> usize
    ensures { Printed input.now out.old out.new result }
{
    match choosing::make(input, out) {
        Ok(moves) => 3 + (18 * moves + 7) / 8,
        Err(refusal) => writers::put_refusal(refusal.0.number(), refusal.1, out, 0),
    }
}
