// Sets of positions: position p is in the set s where bit p of the word s is 1. A union is `|` and an intersection `&`.
#![tactic(auto)]

ghost use Rattle.std.specs.Prelude.{true, ◌↔◌, ◌≢◌, ◌⊎◌, ◌≡◌, ℕ, ◌≤◌, ◌<◌};
ghost use Rattle.std.specs.Int.Count.{ones};
ghost use Rattle.sets.specs.Sets.{Has};

// The set of v alone.
pub fn only(v: usize) -> u64
    requires { v < 64 }
    ensures { (p : ℕ) → Has result p ↔ (p ≡ v) }
{
    1u64 << v
}

// The positions of a floor of n.
pub fn below(n: usize) -> u64
    requires { n ≤ 64 }
    ensures { (p : ℕ) → Has result p ↔ (p < n) }
{
    if n == 64 {
        return 0xffff_ffff_ffff_ffff;
    }
    (1u64 << n) - 1
}

// Is v in s?
pub fn has(s: u64, v: usize) -> bool
    requires { v < 64 }
    ensures { (result ≡ true) ↔ Has s v }
{
    (s >> v) % 2 == 1
}

// The lowest position in s.
pub fn lowest(s: u64) -> usize
    requires { 0 < s }
    ensures upper_bound { result < 64 }
    ensures has { Has s result }
    ensures by_index { (p : ℕ) → Has s p → result ≤ p }
{
    u64::trailing_zeros(s) as usize
}

// How many positions are in s.
pub fn size(s: u64) -> usize
    ensures { result ≡ ones s }
{
    u64::count_ones(s) as usize
}

// What is in s and not in t.
pub fn minus(s: u64, t: u64) -> u64
    ensures { (p : ℕ) → Has result p ↔ (Has s p × (Has t p → ⊥)) }
{
    s & !t
}

// s without v.
pub fn without(s: u64, v: usize) -> u64
    requires { v < 64 }
    ensures { (p : ℕ) → Has result p ↔ (Has s p × (p ≢ v)) }
{
    minus(s, only(v))
}

// s with v.
pub fn with(s: u64, v: usize) -> u64
    requires { v < 64 }
    ensures { (p : ℕ) → Has result p ↔ (Has s p ⊎ (p ≡ v)) }
{
    s | only(v)
}
