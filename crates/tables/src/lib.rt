// Replay on tables: the laws in proofs/ say how a matrix of edges and a table of racks stand for a floor and an arrangement. Here is what
// the plan checker and the timetable checker share: how a replay ended, and the test that both end with.
#![tactic(auto)]

ghost use Rattle.std.specs.Prelude.{◌≡◌, ◌+◌, ◌*◌, ◌≤◌, length};
ghost use Rattle.field.specs.Bits.{positions};
ghost use Rattle.tables.specs.Tables.{MisplacedOn};

// The lowest rack that does not stand at its goal, if there is one. The goals of racks 1 to m are the m positions that stand `from`
// positions after the tail's first byte; `racks` has the rack at each position.
pub fn misplaced(tail: &[u8], from: usize, m: usize, racks: &[u8; 64]) -> Option<usize>
    requires { (m ≤ 64) × (6 * (from + m) ≤ 8 * length tail.now) }
    ensures { MisplacedOn racks.now (positions tail.now (6 * from) m) m result }
{
    for i in 0..m {
        let goal = field::position_at(tail, from + i);
        if usize::from(racks[goal]) != i + 1 {
            return Some(i + 1);
        }
    }
    None
}
