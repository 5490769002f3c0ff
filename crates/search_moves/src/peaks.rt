// A move, after which the peaks are still above all gains. Apart from those of the moved vertex only these gains may rise: all those of the last
// pin that a net of the moved vertex has in the block left, and, where such a net has its first pin in the block reached, its pins' gains to it.
// Vertices and nets count from 0, blocks from 1.
ghost use Rattle.std.specs.Prelude.{◌≡◌, List, ℕ, ◌+◌, ◌*◌, ◌-◌, ◌<◌, ◌≤◌, length, get_or};
ghost use Rattle.best_move.specs.Open.{RowOk};
ghost use Rattle.best_move.specs.Peak.{Under, Peaked, Higher};
ghost use Rattle.operations.specs.Move.{CanGo, Went};
ghost use Rattle.operations.specs.Lent.{lent_on};
ghost use Rattle.search_moves.specs.Peaks.{Lifted};
ghost use Rattle.search_moves.specs.Lifting.{PinsIn, NetIn, LiftOk, LastUnder, FirstUnder, NetUnder};

use best_move::peaks::{raise_entry, raise_row};
use incidence::nets_of;
use operations::board::Board;
use operations::moves::transfer;

// Raises the peak over `x`, of block `own`, to its gains, if that block is `s`.
fn raise_in_block(peaks: &mut [i32; 1040], gains: &[i32], x: usize, own: u16, s: u16, k: usize)
    requires { (length peaks.old ≡ 1040) × RowOk (length gains.now) x k }
    ensures { Higher peaks.old peaks.new × (own ≡ s → (b : ℕ) → b < k → Under gains.now peaks.new x b) }
{
    if own != s {
        return;
    }
    raise_row(peaks, gains, x, k);
}

// Raises the peaks over the pins of a net in the block `s` to their gains.
fn raise_last(
    peaks: &mut [i32; 1040],
    gains: &[i32],
    blocks: &[u16],
    presentpins: &[u16],
    first: usize,
    size: usize,
    s: u16,
    k: usize,
)
    requires { (length peaks.old ≡ 1040) × (k ≤ 16) × PinsIn (length gains.now) (length blocks.now) presentpins.now first size }
    ensures { Higher peaks.old peaks.new
        × LastUnder gains.now peaks.new blocks.now presentpins.now first size s k }
{
    for j in 0..size {
        let x = usize::from(presentpins[first + j]) - 1;
        raise_in_block(peaks, gains, x, blocks[x], s, k);
    }
}

// Raises the peaks over the pins of a net to their gains to the block `t`.
fn raise_first(
    peaks: &mut [i32; 1040],
    gains: &[i32],
    presentpins: &[u16],
    first: usize,
    size: usize,
    t: usize,
)
    requires { (length peaks.old ≡ 1040) × (1 ≤ t) × (t ≤ 16) × PinsIn (length gains.now) 1024 presentpins.now first size }
    ensures { Higher peaks.old peaks.new × FirstUnder gains.now peaks.new presentpins.now first size t }
{
    for j in 0..size {
        raise_entry(peaks, gains, usize::from(presentpins[first + j]) - 1, t - 1);
    }
}

// Raises the peaks over the last pin of net `e` in the block left, if it has only one there.
fn lift_last(
    peaks: &mut [i32; 1040],
    gains: &[i32],
    counts: &[u16],
    blocks: &[u16],
    presentpins: &[u16],
    first: usize,
    size: usize,
    e: usize,
    s: u16,
    k: usize,
)
    requires { (length peaks.old ≡ 1040) × NetIn (length counts.now) e s × (k ≤ 16) × PinsIn (length gains.now) (length blocks.now) presentpins.now first size }
    ensures { Higher peaks.old peaks.new × (get_or counts.now (16 * e + (s - 1)) 0 ≡ 1
        → LastUnder gains.now peaks.new blocks.now presentpins.now first size s k) }
{
    if counts[16 * e + (usize::from(s) - 1)] != 1 {
        return;
    }
    raise_last(peaks, gains, blocks, presentpins, first, size, s, k);
}

// Raises the peaks over the pins of net `e`, if it has only one in the block reached.
fn lift_first(
    peaks: &mut [i32; 1040],
    gains: &[i32],
    counts: &[u16],
    presentpins: &[u16],
    first: usize,
    size: usize,
    e: usize,
    t: u16,
)
    requires { (length peaks.old ≡ 1040) × NetIn (length counts.now) e t × PinsIn (length gains.now) 1024 presentpins.now first size }
    ensures { Higher peaks.old peaks.new × (get_or counts.now (16 * e + (t - 1)) 0 ≡ 1
        → FirstUnder gains.now peaks.new presentpins.now first size t) }
{
    let b = usize::from(t);
    if counts[16 * e + (b - 1)] != 1 {
        return;
    }
    raise_first(peaks, gains, presentpins, first, size, b);
}

// Raises the peaks over the pins of net `e` as far as the move from `s` to `t` may have raised their gains.
fn lift_net(
    peaks: &mut [i32; 1040],
    gains: &[i32],
    counts: &[u16],
    blocks: &[u16],
    presentpins: &[u16],
    first: usize,
    size: usize,
    e: usize,
    s: u16,
    t: u16,
    k: usize,
)
    requires { (length peaks.old ≡ 1040) × NetIn (length counts.now) e s × NetIn (length counts.now) e t × (k ≤ 16)
        × PinsIn (length gains.now) (length blocks.now) presentpins.now first size }
    ensures { Higher peaks.old peaks.new
        × NetUnder gains.now peaks.new counts.now blocks.now presentpins.now first size e s t k }
{
    lift_last(
        peaks,
        gains,
        counts,
        blocks,
        presentpins,
        first,
        size,
        e,
        s,
        k,
    );
    lift_first(peaks, gains, counts, presentpins, first, size, e, t);
}

// Raises the peaks as far as the move of `u` from `s` to `t` may have raised gains.
fn lift(
    peaks: &mut [i32; 1040],
    gains: &[i32],
    counts: &[u16],
    blocks: &[u16],
    board: Board<'_>,
    u: usize,
    s: u16,
    t: u16,
)
    requires { (length peaks.old ≡ 1040) × LiftOk (length gains.now) (length counts.now) (length blocks.now) board.bits.now board.presentpins.now board.firsts.now board.presentsizes.now board.m board.k u s t }
    ensures { Lifted gains.now peaks.old peaks.new counts.now blocks.now board.entry.presentpins.now board.entry.firsts.now board.entry.presentsizes.now board.entry.bits.now board.entry.m board.entry.k u s t }
{
    raise_row(peaks, gains, u, board.k);
    for e in nets_of(board.bits, u, board.m) {
        lift_net(
            peaks,
            gains,
            counts,
            blocks,
            board.presentpins,
            usize::from(board.firsts[e]),
            usize::from(board.presentsizes[e]),
            e,
            s,
            t,
            board.k,
        );
    }
}

// Moves the vertex `u` to the block `t`, and returns the metric after it.
pub fn shift(
    counts: &mut [u16],
    visited: &mut [u16],
    gains: &mut [i32],
    blocks: &mut [u16],
    loads: &mut [u64; 16],
    peaks: &mut [i32; 1040],
    board: Board<'_>,
    total: u32,
    u: usize,
    t: u16,
) -> u32
    requires can_go { CanGo
        (lent_on counts.old visited.old gains.old blocks.old loads.old board total)
        u t }
    requires peaked { Peaked gains.old peaks.old board.n board.k }
    ensures by_index { (aboves loadedsizes : List ℕ) → Went
        (lent_on counts.old visited.old gains.old blocks.old loads.old board.entry total aboves loadedsizes)
        (lent_on counts.new visited.new gains.new blocks.new loads.new board.entry result aboves loadedsizes)
        u t }
    ensures peaked_2 { Peaked gains.new peaks.new board.entry.n board.entry.k }
{
    let s = blocks[u];
    let after = transfer(counts, visited, gains, blocks, loads, board, total, u, t);
    lift(peaks, gains, counts, blocks, board, u, s, t);
    after
}
