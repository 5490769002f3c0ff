// Pin counts, connectivity sets and gains, and the changes of a pin that they are kept in step with: it comes, goes or moves. Gains of a net's
// other pins change only where a count leaves or reaches 0 or 1. The pins of a net that has none yet are also taken in all at once.
#![tactic(auto)]

mod counts;
pub mod halves;
mod shares;
pub mod whole;

ghost use Rattle.std.specs.Prelude.{◌+◌, ◌*◌, ◌-◌, ◌<◌, ◌≤◌, ◌≡◌, length, set, ℤ, pos, nat_abs, ◌+ℤ◌};
ghost use Rattle.connectivity.specs.Share.{when};
ghost use Rattle.connectivity.specs.Raised.{Raised, at};
ghost use Rattle.laws.specs.Place.{place};
ghost use Rattle.connectivity.specs.Row.{row};
ghost use Rattle.connectivity.specs.Laid.{Laid, Net, given, signed};
ghost use Rattle.connectivity.specs.Set.{Sets, Set};
ghost use Rattle.connectivity.specs.Touch.{Room, Rest, Amount, at_row, at_column, Rows, Sole, Other, FoundOther, Others, Delta};
ghost use Rattle.connectivity.specs.Moved.{way_back};
ghost use Rattle.connectivity.specs.Steps.{CountAt, OwnRow};

use counts::{arrive, depart};
use halves::{Halves, when_is};
use shares::{add_at, share_row, signed};

// Adds a weight to an entry, or takes it from it.
fn shift_at(g: &mut [i32], i: usize, w: u16, take: bool)
    requires i_in_bounds { i < length g.old }
    requires i_bound { nat_abs (at g.old i) ≤ 2010000 }
    ensures { g.new ≡ set g.old i (at g.old i +ℤ signed take (pos w)) }
{
    add_at(g, i, signed(take, i32::from(w)));
}

// The weight at each block but `a`; blocks from 0 against `a` from 1.
fn amount(j: usize, a: usize, w: u16) -> u16
    requires { j < 16 }
    ensures { Amount j a w result }
{
    if j + 1 == a { 0 } else { w }
}

// The weight at each block but `a` of the vertex `q`.
fn but_row(gains: &mut [i32], q: usize, a: usize, k: usize, w: u16, take: bool)
    requires { Room gains.old q k w }
    ensures { Raised (Rest take a w) (16 * q) k gains.old gains.new }
{
    let row = 16 * q;
    for j in 0..k {
        let d = amount(j, a, w);
        shift_at(gains, row + j, d, take);
    }
}

// Whether the vertex `q` is another one than `x`, of the block `s`.
fn other_in(blocks: &[u16], q: usize, x: usize, s: usize) -> bool
    requires { q < length blocks.now }
    ensures { Other blocks.now q x s result }
{
    if q == x {
        return false;
    }
    let o = usize::from(blocks[q]);
    o == s
}

// The first place of a pin but `x` in the block `s`.
fn find_other(
    pins: &[u16],
    blocks: &[u16],
    n: usize,
    k: usize,
    first: usize,
    p: usize,
    x: usize,
    s: usize,
) -> Option<usize>
    requires net { Net pins.now blocks.now first p n k }
    requires n_in_bounds { n ≤ length blocks.now }
    ensures { FoundOther pins.now blocks.now first p x s result }
{
    for i in 0..p {
        let q = usize::from(pins[first + i]) - 1;
        if other_in(blocks, q, x, s) {
            return Some(i);
        }
    }
    None
}

// The weight at each block but `a` of the one pin but `x` in the block `a`.
fn shift_last(
    gains: &mut [i32],
    pins: &[u16],
    blocks: &[u16],
    n: usize,
    k: usize,
    first: usize,
    p: usize,
    x: usize,
    a: usize,
    w: u16,
    take: bool,
)
    requires rows { Rows gains.old pins.now blocks.now n k first p w }
    requires le_a { (1 ≤ a) × Sole (place (row pins.now blocks.now first p) x 0) n a }
    ensures { Laid (at_row take a w) (place (row pins.now blocks.now first p) x 0) k gains.old gains.new }
{
    let Some(i) = find_other(pins, blocks, n, k, first, p, x, a) else {
        return;
    };
    let q = usize::from(pins[first + i]) - 1;
    but_row(gains, q, a, k, w, take);
}

// The same where the count `f` is `want`. The test stands by itself, so that a compiler can make it before the call.
fn last_if(
    gains: &mut [i32],
    pins: &[u16],
    blocks: &[u16],
    n: usize,
    k: usize,
    first: usize,
    p: usize,
    x: usize,
    a: usize,
    f: u16,
    want: u16,
    w: u16,
    take: bool,
)
    requires rows { Rows gains.old pins.now blocks.now n k first p w }
    requires le_a { f ≡ want → (1 ≤ a) × Sole (place (row pins.now blocks.now first p) x 0) n a }
    ensures { Laid (at_row take a (when f want w)) (place (row pins.now blocks.now first p) x 0) k gains.old gains.new }
{
    if f != want {
        return;
    }
    shift_last(gains, pins, blocks, n, k, first, p, x, a, w, take);
}

// The weight at the block `a` of each pin but `x`.
fn shift_column(
    gains: &mut [i32],
    pins: &[u16],
    blocks: &[u16],
    n: usize,
    k: usize,
    first: usize,
    p: usize,
    x: usize,
    a: usize,
    w: u16,
    take: bool,
)
    requires rows { Rows gains.old pins.now blocks.now n k first p w }
    requires le_a { (1 ≤ a) × (a ≤ k) }
    ensures { Laid (at_column take a w) (place (row pins.now blocks.now first p) x 0) k gains.old gains.new }
{
    let s = a - 1;
    for i in 0..p {
        let q = usize::from(pins[first + i]) - 1;
        if q != x {
            shift_at(gains, 16 * q + s, w, take);
        }
    }
}

// The same where the count `f` is `want`.
fn column_if(
    gains: &mut [i32],
    pins: &[u16],
    blocks: &[u16],
    n: usize,
    k: usize,
    first: usize,
    p: usize,
    x: usize,
    a: usize,
    f: u16,
    want: u16,
    w: u16,
    take: bool,
)
    requires rows { Rows gains.old pins.now blocks.now n k first p w }
    requires a_le_k { a ≤ k }
    requires le_a { f ≡ want → 1 ≤ a }
    ensures { Laid (at_column take a (when f want w)) (place (row pins.now blocks.now first p) x 0) k gains.old gains.new }
{
    if f != want {
        return;
    }
    shift_column(gains, pins, blocks, n, k, first, p, x, a, w, take);
}

// The four rules at the pins of the stretch but `x`. A count that goes from 1 to 0 or from 0 to 1 changes one gain of each of them; one that goes
// from 2 to 1 or from 1 to 2 changes the gains of the one other pin of that block.
fn touch_others(
    gains: &mut [i32],
    pins: &[u16],
    blocks: &[u16],
    n: usize,
    k: usize,
    first: usize,
    p: usize,
    x: usize,
    a: usize,
    b: usize,
    fa: u16,
    fb: u16,
    w: u16,
)
    requires { Others gains.old pins.now blocks.now n k first p x a b fa fb w }
    ensures { Laid (Delta a b fa fb w) (place (row pins.now blocks.now first p) x 0) k gains.old gains.new }
{
    last_if(gains, pins, blocks, n, k, first, p, x, a, fa, 2, w, false);
    last_if(gains, pins, blocks, n, k, first, p, x, b, fb, 1, w, true);
    column_if(gains, pins, blocks, n, k, first, p, x, a, fa, 1, w, true);
    column_if(gains, pins, blocks, n, k, first, p, x, b, fb, 0, w, false);
}

// The shares of the net `e` in the gains of the vertex `x` alone, of the block `a`.
fn own_row(
    gains: &mut [i32],
    counts: &[u16],
    x: usize,
    e: usize,
    a: usize,
    k: usize,
    w: u16,
    take: bool,
)
    requires { OwnRow gains.old counts.now x e a k w }
    ensures { Laid (given take counts.now e w) (place (λ _. 0) x a) k gains.old gains.new }
{
    if a == 0 {
        return;
    }
    share_row(gains, counts, x, e, a - 1, k, w, take);
}

// Adds `d` to the `k` gains of the vertex `x`.
fn add_row(gains: &mut [i32], x: usize, k: usize, d: i32)
    requires { Room gains.old x k (nat_abs d) }
    ensures { Raised (λ _. d) (16 * x) k gains.old gains.new }
{
    let row = 16 * x;
    for j in 0..k {
        add_at(gains, row + j, d);
    }
}

// A move of `x` changes each gain of `x` by the same number: the net's share in the gain of the way back, which frees a block that had no pin
// and draws in one that had one. `fa` and `fb` are the counts before, of the block that it leaves and of the other.
fn own_moved(gains: &mut [i32], x: usize, fa: u16, fb: u16, k: usize, w: u16)
    requires { Room gains.old x k w }
    ensures { Raised (λ _. way_back fa fb w) (16 * x) k gains.old gains.new }
{
    let freed = when_is(fb, 0, w);
    let drawn = when_is(fa, 1, w);
    if freed == drawn {
        return;
    }
    let back = Halves {
        freed: freed as u32,
        drawn: drawn as u32,
    };
    add_row(gains, x, k, back.difference());
}

// The count of the block `a`, or `none` where that is no block.
fn count_at(counts: &[u16], e: usize, a: usize, none: u16) -> u16
    requires e_in_bounds { 16 * e + 16 ≤ length counts.now }
    requires a_bound { a ≤ 16 }
    ensures { CountAt counts.now e a none result }
{
    if a == 0 {
        return none;
    }
    counts[16 * e + (a - 1)]
}

// The net `e` counts its pin `x`, so far in the block `a`, in the block `b`; 0 is no pin. The `p` pins from `first` are those of the net, with
// `x` or without it. The gains of the other pins change only where a count is critical: 2 or 1 at `a`, 1 or 0 at `b`.
pub fn set_pin(
    counts: &mut [u16],
    visited: &mut [u16],
    gains: &mut [i32],
    netweights: &[u16],
    pins: &[u16],
    blocks: &[u16],
    n: usize,
    m: usize,
    k: usize,
    first: usize,
    p: usize,
    e: usize,
    x: usize,
    a: usize,
    b: usize,
)
    requires { Sets netweights.now counts.old visited.old pins.now blocks.now gains.old n m k first p e x a b }
    ensures { Set netweights.now pins.now blocks.now n m k first p e x a b counts.old counts.new visited.old visited.new gains.old gains.new }
{
    if a == b {
        return;
    }
    let w = netweights[e];
    let fa = count_at(counts, e, a, 3);
    let fb = count_at(counts, e, b, 2);
    own_row(gains, counts, x, e, a, k, w, true);
    depart(counts, visited, e, a);
    arrive(counts, visited, e, b);
    touch_others(gains, pins, blocks, n, k, first, p, x, a, b, fa, fb, w);
    own_row(gains, counts, x, e, b, k, w, false);
}

// `set_pin` where the pin has a block before and after: its own gains change by one number, and no test asks for a missing block. Where neither
// count is critical no gain changes.
pub fn move_pin(
    counts: &mut [u16],
    visited: &mut [u16],
    gains: &mut [i32],
    netweights: &[u16],
    pins: &[u16],
    blocks: &[u16],
    n: usize,
    m: usize,
    k: usize,
    first: usize,
    p: usize,
    e: usize,
    x: usize,
    a: usize,
    b: usize,
)
    requires sets { Sets netweights.now counts.old visited.old pins.now blocks.now gains.old n m k first p e x a b }
    requires le_a { (1 ≤ a) × (1 ≤ b) × (a ≡ b → ⊥) }
    ensures { Set netweights.now pins.now blocks.now n m k first p e x a b counts.old counts.new visited.old visited.new gains.old gains.new }
{
    let w = netweights[e];
    let fa = counts[16 * e + (a - 1)];
    let fb = counts[16 * e + (b - 1)];
    depart(counts, visited, e, a);
    arrive(counts, visited, e, b);
    if fa > 2 {
        if fb > 1 {
            return;
        }
    }
    touch_others(gains, pins, blocks, n, k, first, p, x, a, b, fa, fb, w);
    own_moved(gains, x, fa, fb, k, w);
}
