// Which vertex is a pin of which net: a row of 1,024 bits, 16 words, for each vertex. Vertices and nets count from 0.
// Callers know the contracts only, so that the representation can change.
#![tactic(auto)]

pub mod numbers;

ghost use Rattle.std.specs.Prelude.{ℕ, ◌≡◌, ◌+◌, ◌-◌, ◌*◌, ◌<◌, ◌≤◌, eqb, length};
ghost use Rattle.incidence.specs.Word.{Lowest, NextBit};
ghost use Rattle.std.specs.Iterator.{at_most};
ghost use Rattle.incidence.specs.On.{on, Changed, Joined, Next, Clear, Stopped, StopsAt, InRow, Starts, GaveNet};

// Whether `x` is a pin of net `e`.
pub fn is_pin(bits: &[u64], x: usize, e: usize) -> bool
    requires { (16 * x + 16 ≤ length bits.now) × (e < 1024) }
    ensures { result ≡ eqb (on bits.now x e) 1 }
{
    (bits[16 * x + e / 64] >> (e % 64)) % 2 == 1
}

// Makes `x` a pin of net `e`.
pub fn put(bits: &mut [u64], x: usize, e: usize)
    requires { (16 * x + 16 ≤ length bits.old) × (e < 1024) }
    ensures { Changed bits.old bits.new x e 1 }
{
    let i = 16 * x + e / 64;
    bits[i] = bits[i] | (1 << (e % 64));
}

// Makes `x` no pin of net `e`.
pub fn take(bits: &mut [u64], x: usize, e: usize)
    requires { (16 * x + 16 ≤ length bits.old) × (e < 1024) }
    ensures { Changed bits.old bits.new x e 0 }
{
    let i = 16 * x + e / 64;
    let word = bits[i];
    bits[i] = word ^ (word & (1 << (e % 64)));
}

// The number of the lowest set bit.
fn lowest(word: u64) -> usize
    requires { 0 < word }
    ensures { Lowest word result }
{
    u64::trailing_zeros(word) as usize
}

// The first set bit of a word from bit `from` on; 64 where there is none. For a loop over the bits of one word, which then need not be read
// from memory for each bit.
pub fn next_bit(word: u64, from: usize) -> usize
    requires { from ≤ 64 }
    ensures { NextBit word from result }
{
    if from == 64 {
        return 64;
    }
    let rest = word >> from;
    if rest == 0 {
        return 64;
    }
    from + lowest(rest)
}

// A net of a vertex, or the end of its nets, and the bits of the net's word above it.
#[derive(Clone, Copy)]
struct Stop {
    at: usize,
    rest: u64,
}

// The lowest set bit of a part of a row's word, whose bit 0 stands for the net `from`.
fn stop_in(part: u64, from: usize, m: usize) -> Stop
    requires { (0 < part) × (from ≤ 1024) }
    ensures { Stopped part from m result.at result.rest }
{
    let j = lowest(part);
    Stop {
        at: usize::min(from + j, m),
        rest: part >> j >> 1,
    }
}

// The first net of `x` in the words from `c` on.
fn stop_from(bits: &[u64], x: usize, c: usize, m: usize) -> Stop
    requires { (16 * x + 16 ≤ length bits.now) × (m ≤ 1024) }
    ensures { (from : ℕ) → from ≤ m → from ≤ 64 * c → Clear bits.now x from (64 * c) → StopsAt bits.now x from m result.at result.rest }
{
    for w in c..m.div_ceil(64) {
        let word = bits[16 * x + w];
        if word != 0 {
            return stop_in(word, 64 * w, m);
        }
    }
    Stop { at: m, rest: 0 }
}

// The first net from `from` on, and below `m`, that `x` is a pin of; `m` where there is none. For loops that change the row as they go, over
// which no iterator can stand.
pub fn next_net(bits: &[u64], x: usize, from: usize, m: usize) -> usize
    requires { (16 * x + 16 ≤ length bits.now) × (from ≤ m) × (m ≤ 1024) }
    ensures { Next bits.now x from m result }
{
    if from == m {
        return m;
    }
    let rest = bits[16 * x + from / 64] >> (from % 64);
    if rest != 0 {
        return stop_in(rest, from, m).at;
    }
    stop_from(bits, x, from / 64 + 1, m).at
}

// The nets below `m` that `x` is a pin of, the lowest first: `at` is the one that comes next, or `m`, and `rest` the bits of its word above it,
// so that no word is read from memory twice.
#[derive(Clone, Copy, Drop)]
pub struct Nets<'a> {
    bits: &'a [u64],
    x: usize,
    m: usize,
    at: usize,
    rest: u64,
    ghost in_row: { InRow bits.now x m at rest },
}

impl<'a> Nets<'a> {
    // The net behind the one that comes next.
    fn after(&self) -> Stop
        requires { self.now.at < self.now.m }
        ensures { StopsAt self.now.bits.now self.now.x (self.now.at + 1) self.now.m result.at result.rest }
    {
        if self.rest == 0 {
            return stop_from(self.bits, self.x, self.at / 64 + 1, self.m);
        }
        stop_in(self.rest, self.at + 1, self.m)
    }
}

impl<'a> Iterator for Nets<'a> {
    type Item = usize;

    ghost next_gives = { λ s r t. GaveNet s.bits.now s.x s.m s.at r t.bits.now t.x t.m t.at };

    ghost remaining = { λ s. at_most (s.m - s.at) };

    fn next(&mut self) -> Option<usize> {
        let e = self.at;
        if e == self.m {
            return None;
        }
        let next = self.after();
        self.at = next.at;
        self.rest = next.rest;
        Some(e)
    }
}

// The nets below `m` that `x` is a pin of.
pub fn nets_of<'a>(bits: &'a [u64], x: usize, m: usize) -> Nets<'a>
    requires { (16 * x + 16 ≤ length bits.now) × (m ≤ 1024) }
    ensures { Starts bits.now x m result.bits.now result.x result.m result.at }
{
    let first = stop_from(bits, x, 0, m);
    Nets {
        bits,
        x,
        m,
        at: first.at,
        rest: first.rest,
    }
}

// `u` becomes a pin of each net that `v` is a pin of.
pub fn copy_or(bits: &mut [u64], u: usize, v: usize)
    requires { (16 * u + 16 ≤ length bits.old) × (16 * v + 16 ≤ length bits.old) }
    ensures { Joined bits.old bits.new u v }
{
    let to = 16 * u;
    let from = 16 * v;
    for k in 0..16 {
        bits[to + k] = bits[to + k] | bits[from + k];
    }
}
