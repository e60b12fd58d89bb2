// The moves of a plan that stay when the pairs that cancel are taken out: each move is held against the latest kept one that touches its
// positions, and takes it off or is kept. Kept moves are marked by bits, which blocks and groups of them sum up, so that the search passes
// over those that touch nothing. specs/Stack.antt has the rule on a stack, specs/Looking.antt what the marks tell; `mark_kept` is the
// entry point.
#![tactic(auto)]

ghost use Rattle.std.specs.Prelude.{◌≡◌, true, ◌↔◌, ℕ, ◌+◌, ◌*◌, ◌/◌, ◌%◌, ◌^◌, ◌≤◌, ◌<◌, min, length, get_or, set};
ghost use Rattle.sets.specs.Sets.{Has};
ghost use Rattle.cancelling.specs.Stack.{Passes};
ghost use Rattle.cancelling.specs.Looking.{listing, stack_of, ClearFrom, Touching, GoesBack, Forgets, Found, NoneKept};
ghost use Rattle.cancelling.specs.Looking.{Room, Looked, Marks, Unmarks, TakesIn, link_of};
ghost use Rattle.cancelling.specs.Looking.{Bounded, Undone, Within, Met, Going};

use field::Moves;

// Have two sets no position in common?
fn disjoint(s: u64, t: u64) -> bool
    ensures { result ≡ true → (p : ℕ) → Has s p → Has t p → ⊥ }
{
    s & t == 0
}

// Is the move of index i kept, and does it touch a position of `ends`?
fn touching(moves: &Moves, marks: &[u64], i: usize, ends: u64) -> bool
    requires { (i < moves.now.count) × (i < 64 * length marks.now) }
    ensures { (result ≡ true) ↔ Touching (listing moves.now) marks.now ends i }
{
    if !sets::has(marks[i / 64], i % 64) {
        return false;
    }
    let step = moves.at(i);
    sets::has(ends, step.first) || sets::has(ends, step.second)
}

// From an index from which on no kept move touches a position of `ends`, down to a lower one of which the same is known, or to itself.
fn back(marks: &[u64], blocks: &[u64], groups: &[u64], at: usize, ends: u64) -> usize
    requires { Room (at + 1) marks.now blocks.now groups.now }
    ensures { GoesBack marks.now blocks.now groups.now ends at result }
{
    let group = at / 16384;
    if disjoint(groups[group], ends) {
        return group * 16384;
    }
    let block = at / 256;
    if disjoint(blocks[block], ends) {
        return block * 256;
    }
    if marks[at / 64] == 0 {
        return at / 64 * 64;
    }
    at
}

// No kept move from the index `at` on touches a position of `ends`: of the sets, one for each `size` moves, the one that begins there does
// without them.
fn forget(list: &mut [u64], size: usize, at: usize, ends: u64)
    requires { (0 < size) × (at / size < length list.old) }
    ensures { Forgets ends at size list.old list.new }
{
    if at % size != 0 {
        return;
    }
    list[at / size] = sets::minus(list[at / size], ends);
}

// The latest kept move that touches a position of `ends`, below the index `from`, where the search begins: its index plus 1, or 0.
// Kept as a number, not an Option: it is also a bound, and the lower of two bounds is their minimum.
fn look_back(
    moves: &Moves,
    marks: &[u64],
    blocks: &mut [u64],
    groups: &mut [u64],
    from: usize,
    ends: u64,
) -> usize
    requires from_bound { (from ≤ moves.now.count) × Room from marks.now blocks.old groups.old }
    requires looked { Looked (listing moves.now) marks.now blocks.old groups.old
        × ClearFrom (listing moves.now) marks.now ends from }
    ensures found { Found (listing moves.now) marks.now ends from result }
    ensures looked_2 { Looked (listing moves.now) marks.now blocks.new groups.new }
{
    let mut at = from;
    while at > 0 {
        if touching(moves, marks, at - 1, ends) {
            return at;
        }
        at = back(marks, blocks, groups, at - 1, ends);
        forget(blocks, 256, at, ends);
        forget(groups, 16384, at, ends);
    }
    0
}

// The move before the index `at`, if there is one and it goes from b to a.
fn undone(moves: &Moves, at: usize, a: usize, b: usize) -> Option<usize>
    requires { at ≤ moves.now.count }
    ensures { Undone (listing moves.now) at a b result }
{
    if at == 0 {
        return None;
    }
    let step = moves.at(at - 1);
    if step.first == b && step.second == a {
        return Some(at - 1);
    }
    None
}

// Marks the move of index i as kept.
fn set_mark(marks: &mut [u64], i: usize)
    requires { i < 64 * length marks.old }
    ensures { Marks marks.old i marks.new }
{
    marks[i / 64] = sets::with(marks[i / 64], i % 64);
}

// Takes the mark of the move of index i away.
fn clear_mark(marks: &mut [u64], i: usize)
    requires { i < 64 * length marks.old }
    ensures { Unmarks marks.old i marks.new }
{
    marks[i / 64] = sets::without(marks[i / 64], i % 64);
}

// Puts the positions a and b into one of the sets.
fn take_in(list: &mut [u64], place: usize, a: usize, b: usize)
    requires { (place < length list.old) × (a < 64) × (b < 64) }
    ensures { TakesIn list.old place a b list.new }
{
    list[place] = sets::with(sets::with(list[place], a), b);
}

// The link of the move of index h: from where on no kept move before it touches its position. Of a move before the latest 512 nothing
// is known but h itself.
fn link(links: &[usize; 512], j: usize, h: usize) -> usize
    requires { h < j }
    ensures { result ≡ link_of links.now j h }
{
    if j - h > 512 {
        return h;
    }
    links[h % 512]
}

// Sets the link of the move of index j.
fn set_link(links: &mut [usize; 512], j: usize, x: usize)
    ensures { links.new ≡ set links.old (j % 512) x }
{
    links[j % 512] = x;
}

// Sets the entries of the positions a and b.
fn set_two(list: &mut [usize; 64], a: usize, b: usize, x: usize, y: usize)
    requires { (a < 64) × (b < 64) }
    ensures { list.new ≡ set (set list.old a x) b y }
{
    list[a] = x;
    list[b] = y;
}

// The move that the pass has come to: its index, the positions that it leaves and enters, one more than the index of the latest kept move
// that touches one of them, or 0, and that kept move, if the two cancel.
#[derive(Clone, Copy)]
struct Next {
    index: usize,
    first: usize,
    second: usize,
    found: usize,
    cancels: Option<usize>,
}

// Reads the move of index j and looks for the latest kept move that touches one of its positions.
fn meet(
    moves: &Moves,
    j: usize,
    marks: &[u64],
    blocks: &mut [u64],
    groups: &mut [u64],
    bounds: &[usize; 64],
) -> Next
    requires j_bound { (j < moves.now.count) × Room (j + 1) marks.now blocks.old groups.old }
    requires looked { Looked (listing moves.now) marks.now blocks.old groups.old
        × Bounded (listing moves.now) j marks.now bounds.now }
    ensures index_value { (result.index ≡ j) × Within result.index result.first result.second result.found result.cancels }
    ensures met { Met (listing moves.now) marks.now result.index result.first result.second result.found
        result.cancels }
    ensures looked_2 { Looked (listing moves.now) marks.now blocks.new groups.new }
{
    let step = moves.at(j);
    let a = step.first;
    let b = step.second;
    let ends = sets::with(sets::only(a), b);
    let from = bounds[a].max(bounds[b]);
    let at = look_back(moves, marks, blocks, groups, from, ends);
    Next {
        index: j,
        first: a,
        second: b,
        found: at,
        cancels: undone(moves, at, a, b),
    }
}

// Takes the kept move off that the next one cancels with, of index `gone`: its links are the bounds of the two positions again.
fn take_off(
    next: Next,
    gone: usize,
    marks: &mut [u64],
    bounds: &mut [usize; 64],
    lefts: &[usize; 512],
    enters: &[usize; 512],
)
    requires { Within next.index next.first next.second next.found next.cancels × (gone < next.index)
        × (next.index ≤ 64 * length marks.old) }
    ensures unmarks { Unmarks marks.old gone marks.new }
    ensures bounds_after { bounds.new ≡
        set (set bounds.old next.first (link_of enters.now next.index gone)) next.second (link_of lefts.now next.index gone) }
{
    clear_mark(marks, gone);
    set_two(
        bounds,
        next.first,
        next.second,
        link(enters, next.index, gone),
        link(lefts, next.index, gone),
    );
}

// Marks the next move as kept, and puts its positions into the sets of its block and its group.
fn put_on(next: Next, marks: &mut [u64], blocks: &mut [u64], groups: &mut [u64])
    requires { Within next.index next.first next.second next.found next.cancels
        × Room (next.index + 1) marks.old blocks.old groups.old }
    ensures marks { Marks marks.old next.index marks.new }
    ensures takes_in { TakesIn blocks.old (next.index / 256) next.first next.second blocks.new
        × TakesIn groups.old (next.index / 16384) next.first next.second groups.new }
{
    set_mark(marks, next.index);
    take_in(blocks, next.index / 256, next.first, next.second);
    take_in(groups, next.index / 16384, next.first, next.second);
}

// Links the next move to what is known of its positions, of which it is itself the latest now.
fn put_links(
    next: Next,
    bounds: &mut [usize; 64],
    lefts: &mut [usize; 512],
    enters: &mut [usize; 512],
)
    requires { (next.index < 2 ^ 22) × Within next.index next.first next.second next.found next.cancels }
    ensures bounds_after { bounds.new ≡
        set (set bounds.old next.first (next.index + 1)) next.second (next.index + 1) }
    ensures lefts_after { (lefts.new ≡
        set lefts.old (next.index % 512) (min (get_or bounds.old next.first 0) next.found))
        × (enters.new ≡
        set enters.old (next.index % 512) (min (get_or bounds.old next.second 0) next.found)) }
{
    let a = next.first;
    let b = next.second;
    set_link(lefts, next.index, bounds[a].min(next.found));
    set_link(enters, next.index, bounds[b].min(next.found));
    set_two(bounds, a, b, next.index + 1, next.index + 1);
}

// Takes a move: where it cancels with a kept one, that one is kept no longer; else the move is kept.
fn take_move(
    next: Next,
    marks: &mut [u64],
    blocks: &mut [u64],
    groups: &mut [u64],
    bounds: &mut [usize; 64],
    lefts: &mut [usize; 512],
    enters: &mut [usize; 512],
)
    requires { (next.index < 2 ^ 22) × Within next.index next.first next.second next.found next.cancels
        × Room (next.index + 1) marks.old blocks.old groups.old }
    ensures { (f : ℕ → ℕ × ℕ × ℕ)
        → Met f marks.old next.index next.first next.second next.found next.cancels
        → Going f next.index marks.old blocks.old groups.old bounds.old
        lefts.old enters.old
        → Going f (next.index + 1) marks.new blocks.new groups.new bounds.new
        lefts.new enters.new }
{
    match next.cancels {
        Some(gone) => take_off(next, gone, marks, bounds, lefts, enters),
        None => {
            put_on(next, marks, blocks, groups);
            put_links(next, bounds, lefts, enters);
        }
    }
}

// Marks the moves that are kept of a plan's moves.
pub fn mark_kept(moves: &Moves, marks: &mut [u64], blocks: &mut [u64], groups: &mut [u64])
    requires room { Room moves.now.count marks.old blocks.old groups.old × NoneKept marks.old }
    ensures { Passes (listing moves.now) moves.now.count
        (stack_of (listing moves.now) marks.new moves.now.count) }
{
    let mut bounds = [0usize; 64];
    let mut lefts = [0usize; 512];
    let mut enters = [0usize; 512];
    for j in 0..moves.count {
        let next = meet(moves, j, marks, blocks, groups, &bounds);
        take_move(
            next,
            marks,
            blocks,
            groups,
            &mut bounds,
            &mut lefts,
            &mut enters,
        );
    }
}
