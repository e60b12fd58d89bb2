// The fields of the records written (document 01, "Records"): positions, pairs, moves with their racks, and the head with its count.
// Crate `field` has what they are and reads them; specs/Head.antt says what the three bytes of a head are.
#![tactic(auto)]

ghost use Rattle.std.specs.Prelude.{◌≡◌, true, [], ◌∷◌, ◌+◌, ◌*◌, ◌/◌, ◌^◌, ◌≤◌, ◌<◌, length};
ghost use Rattle.field.specs.Packing.{put_position, put_positions, put_pair};
ghost use Rattle.field.specs.Listed.{move_size, units, RackFits};
ghost use Rattle.field.specs.Writing.{written};
ghost use Rattle.recording.specs.Head.{head_bytes};

// Writes the position p after the first q positions of a byte string, and the pad behind it.
pub fn put_position(s: &mut [u8], q: usize, p: usize)
    requires p_bound { p < 64 }
    requires q_in_bounds { (6 * (q + 1) + 7) / 8 ≤ length s.old }
    ensures { s.new ≡ put_position s.old q p }
{
    let at = q / 4 * 3;
    let place = q % 4;
    if place == 0 {
        s[at] = (p * 4) as u8;
        return;
    }
    if place == 1 {
        let begun = usize::from(s[at]);
        s[at] = (begun / 4 * 4 + p / 16) as u8;
        s[at + 1] = (p % 16 * 16) as u8;
        return;
    }
    if place == 2 {
        let begun = usize::from(s[at + 1]);
        s[at + 1] = (begun / 16 * 16 + p / 4) as u8;
        s[at + 2] = (p % 4 * 64) as u8;
        return;
    }
    let begun = usize::from(s[at + 2]);
    s[at + 2] = (begun / 64 * 64 + p) as u8;
}

// Writes the pair a, b after the first j pairs of a byte string, and the pad behind it.
pub fn put_pair(s: &mut [u8], j: usize, a: usize, b: usize)
    requires { (a < 64) × (b < 64) × ((12 * (j + 1) + 7) / 8 ≤ length s.old) }
    ensures { s.new ≡ put_pair s.old j a b }
{
    let at = j / 2 * 3;
    if j % 2 == 0 {
        s[at] = (a * 4 + b / 16) as u8;
        s[at + 1] = (b % 16 * 16) as u8;
        return;
    }
    let begun = usize::from(s[at + 1]);
    s[at + 1] = (begun / 16 * 16 + a / 4) as u8;
    s[at + 2] = (a % 4 * 64 + b) as u8;
}

// Writes the positions a, b and c after the first j such triples of a byte string, and the pad behind them.
fn put_triple(s: &mut [u8], j: usize, a: usize, b: usize, c: usize)
    requires { (a < 64) × (b < 64) × (c < 64) × ((18 * (j + 1) + 7) / 8 ≤ length s.old) }
    ensures { s.new ≡ put_positions s.old (3 * j) (a ∷ b ∷ c ∷ []) }
{
    put_position(s, 3 * j, a);
    put_position(s, 3 * j + 1, b);
    put_position(s, 3 * j + 2, c);
}

// Writes a move after the first j moves of a byte string, and the pad behind it, in the edition whose moves name their racks or in the
// other.
pub fn put_listed(s: &mut [u8], named: bool, j: usize, a: usize, b: usize, rack: usize)
    requires a_bound { (a < 64) × (b < 64) × (named ≡ true → RackFits true rack) }
    requires j_in_bounds { (6 * (move_size named * (j + 1)) + 7) / 8 ≤ length s.old }
    ensures { s.new ≡ put_positions s.old (move_size named * j) (units named (a, b, rack)) }
{
    if named {
        put_triple(s, j, a, b, rack - 1);
        return;
    }
    put_pair(s, j, a, b);
}

// Writes the head of a record of `count` moves or steps, with its two spare bits.
pub fn put_head(s: &mut [u8], count: usize, spare: usize)
    requires { (3 ≤ length s.old) × (count < 2 ^ 22) × (spare < 4) }
    ensures { s.new ≡ written s.old 0 (head_bytes count spare) }
{
    s[0] = (count / 16384) as u8;
    s[1] = (count / 64 % 256) as u8;
    s[2] = (count % 64 * 4 + spare) as u8;
}
