// The table of loaded pins rewritten without gaps when a vertex is taken out of a running sale or put into it, in place.
#![tactic(auto)]

ghost use Rattle.std.specs.Prelude.{◌≡◌, cond, ◌+◌, ◌<◌, ◌≤◌, eqb, length, get_or};
ghost use Rattle.renewal.specs.Nets.{Holding};
ghost use Rattle.renewal.specs.Columns.{Wrote};
ghost use Rattle.renewal.specs.Taking.{Squeezed, ClosedUp};
ghost use Rattle.renewal.specs.Putting.{Ended, Raised, Grown, CanPut, Spread};
ghost use Rattle.renewal.specs.Clearing.{TakenOut, PutIn};

use incidence::numbers::narrow;

// The next place to write, after the pin `x` was written at `j`: the same where `x` goes out.
fn next(j: usize, x: u16, v: u16) -> usize
    requires { j < 8192 }
    ensures { result ≡ cond (eqb x v) j (j + 1) }
{
    if x == v { j } else { j + 1 }
}

// The `p` pins from `from` on without `v`, from `to` on; the answer is how many they are.
fn squeeze(pins: &mut [u16], from: usize, p: usize, to: usize, v: u16) -> usize
    requires { (to ≤ from) × (from + p ≤ length pins.old) × (from + p ≤ 8192) }
    ensures { Squeezed v from p to pins.old pins.new result }
{
    let mut j = 0;
    for i in 0..p {
        let x = pins[from + i];
        pins[to + j] = x;
        j = next(j, x, v);
    }
    j
}

// The places from `from` up to the 8,192nd become 0.
pub fn clear_from(pins: &mut [u16], from: usize)
    requires { (from ≤ 8192) × (8192 ≤ length pins.old) }
    ensures { Wrote from 8192 (λ _. 0) pins.old pins.new }
{
    pins[from..8192].fill(0);
}

// Takes the vertex `v` out of each of `m` nets, and closes up what is left; the answer is how many pins there are.
fn close_up(
    loadedpins: &mut [u16],
    firsts: &mut [u16],
    loadedsizes: &mut [u16],
    m: usize,
    v: u16,
) -> usize
    requires { Holding loadedpins.old firsts.old loadedsizes.old m }
    ensures { ClosedUp v m result loadedpins.old loadedpins.new firsts.old firsts.new loadedsizes.old loadedsizes.new }
{
    let mut t = 0;
    for e in 0..m {
        let from = usize::from(firsts[e]);
        let p = usize::from(loadedsizes[e]);
        let r = squeeze(loadedpins, from, p, t, v);
        firsts[e] = narrow(t);
        loadedsizes[e] = narrow(r);
        t += r;
    }
    t
}

// Takes the vertex `v` out of each of `m` nets, without gaps and with zeros behind the last pin; the answer is how many pins there are.
pub fn take_out(
    loadedpins: &mut [u16],
    firsts: &mut [u16],
    loadedsizes: &mut [u16],
    m: usize,
    v: u16,
) -> usize
    requires holding { Holding loadedpins.old firsts.old loadedsizes.old m }
    requires in_bounds { 8192 ≤ length loadedpins.old }
    ensures { TakenOut v m result loadedpins.old loadedpins.new firsts.old firsts.new loadedsizes.old loadedsizes.new }
{
    let t = close_up(loadedpins, firsts, loadedsizes, m, v);
    clear_from(loadedpins, t);
    t
}

// The vertex `v` at the place `at`, where `b` is 1.
fn put_end(pins: &mut [u16], at: usize, v: u16, b: u16)
    requires { (b ≤ 1) × (at + b ≤ length pins.old) }
    ensures { Ended v at b pins.old pins.new }
{
    if b == 1 {
        pins[at] = v;
    }
}

// The `p` pins from `from` on moved to `to` on, which is no earlier: the last first.
fn raise(pins: &mut [u16], from: usize, p: usize, to: usize)
    requires { (from ≤ to) × (to + p ≤ length pins.old) }
    ensures { Raised from p to 0 pins.old pins.new }
{
    for i in (0..p).rev() {
        pins[to + i] = pins[from + i];
    }
}

// A net's `p` pins from `from` on moved to `to` on, and `v` behind them where `b` is 1.
fn grow(pins: &mut [u16], from: usize, p: usize, to: usize, v: u16, b: u16)
    requires { (b ≤ 1) × (from ≤ to) × (to + p + b ≤ length pins.old) }
    ensures { Grown v from p to b pins.old pins.new }
{
    put_end(pins, to + p, v, b);
    raise(pins, from, p, to);
}

// Puts the vertex `v` behind the pins of each of `m` nets that `named` has a 1 for; `total` is how many pins there are then.
fn spread(
    loadedpins: &mut [u16],
    firsts: &mut [u16],
    loadedsizes: &mut [u16],
    named: &[u16],
    m: usize,
    total: usize,
    v: u16,
)
    requires { CanPut named.now loadedpins.old firsts.old loadedsizes.old m total }
    ensures { Spread named.now v m total loadedpins.old loadedpins.new firsts.old firsts.new loadedsizes.old loadedsizes.new }
{
    let mut t = total;
    for e in (0..m).rev() {
        let from = usize::from(firsts[e]);
        let p = usize::from(loadedsizes[e]);
        let b = named[e];
        let q = p + usize::from(b);
        t -= q;
        grow(loadedpins, from, p, t, v, b);
        firsts[e] = narrow(t);
        loadedsizes[e] = narrow(q);
    }
}

// Puts the vertex `v` behind the pins of each of `m` nets that `named` has a 1 for, with zeros behind the last of then `total` pins.
pub fn put_in(
    loadedpins: &mut [u16],
    firsts: &mut [u16],
    loadedsizes: &mut [u16],
    named: &[u16],
    m: usize,
    total: usize,
    v: u16,
)
    requires { CanPut named.now loadedpins.old firsts.old loadedsizes.old m total }
    ensures { PutIn named.now v m total loadedpins.old loadedpins.new firsts.old firsts.new loadedsizes.old loadedsizes.new }
{
    spread(loadedpins, firsts, loadedsizes, named, m, total, v);
    clear_from(loadedpins, total);
}

// The first `n` entries become those of `from`.
pub fn copy(from: &[u16], to: &mut [u16], n: usize)
    requires { (n ≤ length from.now) × (n ≤ length to.old) }
    ensures { Wrote 0 n (λ i. get_or from.now i 0) to.old to.new }
{
    for i in 0..n {
        to[i] = from[i];
    }
}

// The first `n` words become 0.
pub fn blank(bits: &mut [u64], n: usize)
    requires { n ≤ length bits.old }
    ensures { Wrote 0 n (λ _. 0) bits.old bits.new }
{
    bits[..n].fill(0);
}
