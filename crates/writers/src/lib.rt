// Writers of text into a lent buffer, one behind another: a byte, a number in decimal, bytes as they are, and the line of a refusal.
// specs/Lines.antt says what the text is, field's specs/Writing.antt what a writer leaves in the buffer, byte for byte, and where the next
// one begins.
#![tactic(auto)]

ghost use Rattle.std.specs.Prelude.{[], ◌∷◌};
ghost use Rattle.answers.specs.Family.{family_word};
ghost use Rattle.field.specs.Writing.{Fits, Wrote};
ghost use Rattle.writers.specs.Lines.{decimal, refusal_line};

// One byte.
pub fn put_byte(byte: u8, out: &mut [u8], at: usize) -> usize
    requires { Fits out.old at (byte ∷ []) }
    ensures { Wrote out.old at (byte ∷ []) out.new result }
{
    out[at] = byte;
    at + 1
}

// A number in decimal: its last digit behind those of its tenth part.
pub fn put_decimal(n: usize, out: &mut [u8], at: usize) -> usize
    requires { Fits out.old at (decimal n) }
    ensures { Wrote out.old at (decimal n) out.new result }
{
    if n < 10 {
        return put_byte((48 + n) as u8, out, at);
    }
    let next = put_decimal(n / 10, out, at);
    put_byte((48 + n % 10) as u8, out, next)
}

// A text as it is.
pub fn put_bytes(bytes: &[u8], out: &mut [u8], at: usize) -> usize
    requires { Fits out.old at bytes.now }
    ensures { Wrote out.old at bytes.now out.new result }
{
    let mut next = at;
    for &byte in bytes {
        next = put_byte(byte, out, next);
    }
    next
}

// The family word of a refusal number.
fn put_word(number: u64, out: &mut [u8], at: usize) -> usize
    requires { Fits out.old at (family_word number) }
    ensures { Wrote out.old at (family_word number) out.new result }
{
    put_bytes(answers::family_word(number), out, at)
}

// The line of a refusal: `refused`, number, place and family.
pub fn put_refusal(number: u64, place: u32, out: &mut [u8], at: usize) -> usize
    requires { Fits out.old at (refusal_line number place) }
    ensures { Wrote out.old at (refusal_line number place) out.new result }
{
    let at = put_bytes(b"refused ", out, at);
    let at = put_decimal(number as usize, out, at);
    let at = put_byte(b' ', out, at);
    let at = put_decimal(place as usize, out, at);
    let at = put_byte(b' ', out, at);
    let at = put_word(number, out, at);
    put_byte(b'\n', out, at)
}
