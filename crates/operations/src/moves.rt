// A vertex moved to another block in all tables, with the blocks' weights and the metric; and a move taken back.
ghost use Rattle.std.specs.Prelude.{ℕ, ◌≡◌, ◌^◌, ◌<◌, List, pos, get_or, nat_abs, neg_ℤ, ◌+ℤ◌, ◌-ℤ◌};
ghost use Rattle.levels.specs.Running.{running};
ghost use Rattle.levels.specs.Operations.{MoveDoes};
ghost use Rattle.operations.specs.Tables.{tables};
ghost use Rattle.operations.specs.Lent.{lent_on};
ghost use Rattle.operations.specs.Total.{Lowers, Raises};
ghost use Rattle.operations.specs.Move.{shifted, Shifts, Carries, CanGo, Went};

use crate::board::Board;
use levels::move_vertex;

// The metric after a move of that gain.
fn lower_total(total: u32, gain: i32) -> u32
    requires { Lowers total gain }
    ensures { pos result ≡ pos total -ℤ gain }
{
    match text::side(gain) {
        text::Sign::Plus(g) => total - g,
        text::Sign::Minus(g) => total + g,
    }
}

// The metric before a move of that gain.
fn raise_total(total: u32, gain: i32) -> u32
    requires { Raises total gain }
    ensures { pos result ≡ pos total +ℤ gain }
{
    match text::side(gain) {
        text::Sign::Plus(g) => total + g,
        text::Sign::Minus(g) => total - g,
    }
}

// The negated gain.
fn negated(gain: i32) -> i32
    requires { nat_abs gain < 2 ^ 31 }
    ensures { result ≡ neg_ℤ gain }
{
    -gain
}

// Moves the weight `w` from the block `s` to the block `t`.
fn shift_load(loads: &mut [u64; 16], s: usize, t: usize, w: u64)
    requires { Shifts loads.old s t w }
    ensures { loads.new ≡ shifted loads.old s t w }
{
    loads[s - 1] -= w;
    loads[t - 1] += w;
}

// Moves the vertex `u` to the block `t` in all tables, with the blocks' weights.
fn carry(
    counts: &mut [u16],
    visited: &mut [u16],
    gains: &mut [i32],
    blocks: &mut [u16],
    loads: &mut [u64; 16],
    board: Board<'_>,
    u: usize,
    t: u16,
)
    requires { Carries
        (running counts.old visited.old gains.old board.presentpins.now board.presentsizes.now board.bits.now blocks.old board.netweights.now board.firsts.now)
        loads.old board.weights.now board.n board.m board.k u t }
    ensures move_does { MoveDoes
        (running counts.old visited.old gains.old board.entry.presentpins.now board.entry.presentsizes.now board.entry.bits.now blocks.old board.entry.netweights.now board.entry.firsts.now)
        (running counts.new visited.new gains.new board.entry.presentpins.now board.entry.presentsizes.now board.entry.bits.now blocks.new board.entry.netweights.now board.entry.firsts.now)
        board.entry.n board.entry.m board.entry.k u t }
    ensures loads_after { loads.new ≡ shifted loads.old (get_or blocks.old u 0) t (get_or board.entry.weights.now u 0) }
{
    shift_load(
        loads,
        usize::from(blocks[u]),
        usize::from(t),
        u64::from(board.weights[u]),
    );
    move_vertex(
        counts,
        visited,
        gains,
        blocks,
        board.netweights,
        board.presentpins,
        board.firsts,
        board.presentsizes,
        board.bits,
        board.n,
        board.m,
        board.k,
        u,
        t,
    );
}

// Moves the vertex `u` to the block `t` in all tables, with the blocks' weights, and returns the metric after it.
pub fn transfer(
    counts: &mut [u16],
    visited: &mut [u16],
    gains: &mut [i32],
    blocks: &mut [u16],
    loads: &mut [u64; 16],
    board: Board<'_>,
    total: u32,
    u: usize,
    t: u16,
) -> u32
    requires { CanGo
        (lent_on counts.old visited.old gains.old blocks.old loads.old board total)
        u t }
    ensures { (aboves loadedsizes : List ℕ) → Went
        (lent_on counts.old visited.old gains.old blocks.old loads.old board.entry total aboves loadedsizes)
        (lent_on counts.new visited.new gains.new blocks.new loads.new board.entry result aboves loadedsizes)
        u t }
{
    let after = lower_total(total, gains[16 * u + (usize::from(t) - 1)]);
    carry(counts, visited, gains, blocks, loads, board, u, t);
    after
}

// Takes a move of the vertex `u` back, to the block `t` that it left, and returns the metric. The way back has the negated gain, so the move
// had that of the way back, negated; the metric rises by it.
pub fn take_back(
    counts: &mut [u16],
    visited: &mut [u16],
    gains: &mut [i32],
    blocks: &mut [u16],
    loads: &mut [u64; 16],
    board: Board<'_>,
    total: u32,
    u: usize,
    t: u16,
) -> u32
    requires { CanGo
        (lent_on counts.old visited.old gains.old blocks.old loads.old board total)
        u t }
    ensures { (aboves loadedsizes : List ℕ) → Went
        (lent_on counts.old visited.old gains.old blocks.old loads.old board.entry total aboves loadedsizes)
        (lent_on counts.new visited.new gains.new blocks.new loads.new board.entry result aboves loadedsizes)
        u t }
{
    let before = raise_total(total, negated(gains[16 * u + (usize::from(t) - 1)]));
    carry(counts, visited, gains, blocks, loads, board, u, t);
    before
}

// `transfer`, for those who have the tables one by one.
pub fn go(
    counts: &mut [u16],
    visited: &mut [u16],
    gains: &mut [i32],
    blocks: &mut [u16],
    loads: &mut [u64; 16],
    presentpins: &[u16],
    presentsizes: &[u16],
    bits: &[u64],
    weights: &[u32],
    netweights: &[u16],
    firsts: &[u16],
    n: usize,
    m: usize,
    k: usize,
    total: u32,
    u: usize,
    t: u16,
) -> u32
    requires { CanGo
        (λ aboves loadedsizes. tables counts.old visited.old gains.old presentpins.now presentsizes.now bits.now blocks.old weights.now aboves loads.old netweights.now firsts.now loadedsizes n m k total)
        u t }
    ensures { (aboves loadedsizes : List ℕ) → Went
        (tables counts.old visited.old gains.old presentpins.now presentsizes.now bits.now blocks.old weights.now aboves loads.old netweights.now firsts.now loadedsizes n m k total)
        (tables counts.new visited.new gains.new presentpins.now presentsizes.now bits.now blocks.new weights.now aboves loads.new netweights.now firsts.now loadedsizes n m k result)
        u t }
{
    let board = Board {
        presentpins,
        presentsizes,
        bits,
        weights,
        netweights,
        firsts,
        n,
        m,
        k,
    };
    transfer(counts, visited, gains, blocks, loads, board, total, u, t)
}

// `take_back`, for those who have the tables one by one.
pub fn back(
    counts: &mut [u16],
    visited: &mut [u16],
    gains: &mut [i32],
    blocks: &mut [u16],
    loads: &mut [u64; 16],
    presentpins: &[u16],
    presentsizes: &[u16],
    bits: &[u64],
    weights: &[u32],
    netweights: &[u16],
    firsts: &[u16],
    n: usize,
    m: usize,
    k: usize,
    total: u32,
    u: usize,
    t: u16,
) -> u32
    requires { CanGo
        (λ aboves loadedsizes. tables counts.old visited.old gains.old presentpins.now presentsizes.now bits.now blocks.old weights.now aboves loads.old netweights.now firsts.now loadedsizes n m k total)
        u t }
    ensures { (aboves loadedsizes : List ℕ) → Went
        (tables counts.old visited.old gains.old presentpins.now presentsizes.now bits.now blocks.old weights.now aboves loads.old netweights.now firsts.now loadedsizes n m k total)
        (tables counts.new visited.new gains.new presentpins.now presentsizes.now bits.now blocks.new weights.now aboves loads.new netweights.now firsts.now loadedsizes n m k result)
        u t }
{
    let board = Board {
        presentpins,
        presentsizes,
        bits,
        weights,
        netweights,
        firsts,
        n,
        m,
        k,
    };
    take_back(counts, visited, gains, blocks, loads, board, total, u, t)
}
