// A's contractions: while more than 2 × k vertices are on the board, the best pair of vertices that are not fixed is contracted.
#![tactic(auto)]

ghost use Rattle.std.specs.Prelude.{ℕ, ◌+◌, ◌-◌, ◌*◌, ◌<◌, ◌≤◌, ◌≡◌, cond, List, eqb, ltb, length};
ghost use Rattle.laws.specs.Choice.{one};
ghost use Rattle.incidence.specs.On.{on};
ghost use Rattle.operations.specs.Tables.{tables};
ghost use Rattle.best_contraction.specs.Rating.{Blank, score_of};
ghost use Rattle.best_contraction.specs.Bound.{Bounded};
ghost use Rattle.coarsening.specs.Own.{OwnBlocks};
ghost use Rattle.coarsening.specs.Coarsen.{board_in, locals, OnceOk, Once, CoarsenOk, Coarsens};

use best_contraction::bounds::begin;
use best_contraction::join::plan_join;
use incidence::is_pin;
use incidence::numbers::narrow;
use operations::joins::join;
use operations::pairs::Joins;
use operations::size::Size;

// How many vertices are on the board.
fn on_board(blocks: &[u16], n: usize) -> usize
    requires { (n ≤ 1024) × (n ≤ length blocks.now) }
    ensures { (result ≡ board_in blocks.now n) × (result ≤ 1024) }
{
    let mut board = 0;
    for i in 0..n {
        board += usize::from(0 < blocks[i]);
    }
    board
}

// How many vertices more than 2 × k are on the board.
fn excess(blocks: &[u16], n: usize, k: usize) -> usize
    requires { ((n ≤ 1024) × (n ≤ length blocks.now)) × (k ≤ 16) }
    ensures { result ≡ board_in blocks.now n - 2 * k }
{
    on_board(blocks, n).saturating_sub(2 * k)
}

// The block by which the vertex at place `i` is paired: its block, or, if it is fixed, one that no other vertex has, above the 16 that there are,
// so that it has no partner.
fn join_block(block: u16, fixed: bool, i: usize) -> u16
    requires { i < 1024 }
    ensures { result ≡ cond fixed (i + 17) block }
{
    if fixed {
        return narrow(i + 17);
    }
    block
}

// The blocks by which vertices are paired.
fn join_blocks(blocks: &[u16], fixedmarks: &[u64; 48], n: usize) -> [u16; 1024]
    requires { (n ≤ 1024) × (n ≤ length blocks.now) × (length fixedmarks.now ≡ 48) }
    ensures { OwnBlocks (λ y. eqb (on fixedmarks.now 1 y) 1) blocks.now n result }
{
    let mut joinblocks = [0u16; 1024];
    for i in 0..n {
        joinblocks[i] = join_block(blocks[i], is_pin(fixedmarks, 1, i), i);
    }
    joinblocks
}

// Contracts the best pair, and answers whether there was one. `acc` is all 0 before and after; `bounds` has each vertex's bound on its ratings;
// pairs are chosen by `joinblocks`. `left` stands in the contract alone: how many vertices have still to leave the board, 0
// after a call that found no pair.
fn coarsen_once(
    acc: &mut [u64; 1025],
    bounds: &mut [u64; 1025],
    joinblocks: &mut [u16; 1024],
    counts: &mut [u16],
    visited: &mut [u16],
    gains: &mut [i32],
    presentpins: &mut [u16],
    presentsizes: &mut [u16],
    bits: &mut [u64],
    blocks: &mut [u16],
    weights: &mut [u32],
    aboves: &mut [u16],
    stack: &mut Joins<1024>,
    netweights: &[u16],
    firsts: &[u16],
    size: Size,
    total: u32,
) -> bool
    requires once_ok { (left : ℕ) × OnceOk
        (λ loads loadedsizes. tables counts.old visited.old gains.old presentpins.old presentsizes.old bits.old blocks.old weights.old aboves.old loads netweights.now firsts.now loadedsizes size.n size.m size.k total)
        (locals stack.old.into stack.old.gone stack.old.len left joinblocks.old) size.average }
    requires blank { Blank acc.old × Bounded
        (score_of bits.old presentpins.old firsts.now presentsizes.old netweights.now joinblocks.old weights.old size.m size.average)
        size.n bounds.old }
    ensures by_index { (loads loadedsizes : List ℕ) (left : ℕ) → 1 ≤ left → Once
        (tables counts.old visited.old gains.old presentpins.old presentsizes.old bits.old blocks.old weights.old aboves.old loads netweights.now firsts.now loadedsizes size.n size.m size.k total)
        (locals stack.old.into stack.old.gone stack.old.len left joinblocks.old) size.average
        (tables counts.new visited.new gains.new presentpins.new presentsizes.new bits.new blocks.new weights.new aboves.new loads netweights.now firsts.now loadedsizes size.n size.m size.k total)
        (locals stack.new.into stack.new.gone stack.new.len (cond result (left - 1) 0) joinblocks.new) }
    ensures blank_2 { Blank acc.new × Bounded
        (score_of bits.new presentpins.new firsts.now presentsizes.new netweights.now joinblocks.new weights.new size.m size.average)
        size.n bounds.new }
{
    let Some(pair) = plan_join(
        acc,
        bounds,
        bits,
        presentpins,
        firsts,
        presentsizes,
        netweights,
        joinblocks,
        weights,
        size.average,
        size.m,
        size.n,
    ) else {
        return false;
    };
    let u = pair.into;
    let v = pair.gone;
    join(
        counts,
        visited,
        gains,
        presentpins,
        presentsizes,
        bits,
        blocks,
        weights,
        aboves,
        netweights,
        firsts,
        size.n,
        size.m,
        size.k,
        total,
        u - 1,
        v - 1,
    );
    joinblocks[v - 1] = 0;
    *stack = stack.push(narrow(u), narrow(v));
    true
}

// Contracts pairs until 2 × k vertices are on the board or no pair is left.
pub fn coarsen(
    counts: &mut [u16],
    visited: &mut [u16],
    gains: &mut [i32],
    presentpins: &mut [u16],
    presentsizes: &mut [u16],
    bits: &mut [u64],
    blocks: &mut [u16],
    weights: &mut [u32],
    aboves: &mut [u16],
    netweights: &[u16],
    firsts: &[u16],
    fixedmarks: [u64; 48],
    size: Size,
    total: u32,
    stack: Joins<1024>,
) -> Joins<1024>
    requires { CoarsenOk
        (λ loads loadedsizes. tables counts.old visited.old gains.old presentpins.old presentsizes.old bits.old blocks.old weights.old aboves.old loads netweights.now firsts.now loadedsizes size.n size.m size.k total)
        fixedmarks stack.into stack.gone stack.len size.average }
    ensures { (loads loadedsizes : List ℕ) → Coarsens
        (tables counts.old visited.old gains.old presentpins.old presentsizes.old bits.old blocks.old weights.old aboves.old loads netweights.now firsts.now loadedsizes size.n size.m size.k total)
        fixedmarks stack.into stack.gone stack.len size.average
        (tables counts.new visited.new gains.new presentpins.new presentsizes.new bits.new blocks.new weights.new aboves.new loads netweights.now firsts.now loadedsizes size.n size.m size.k total)
        result.into result.gone result.len }
{
    let mut acc = [0u64; 1025];
    let mut bounds = [0u64; 1025];
    let mut joinblocks = join_blocks(blocks, &fixedmarks, size.n);
    begin(
        &mut bounds,
        bits,
        presentpins,
        firsts,
        presentsizes,
        netweights,
        &joinblocks,
        size.m,
        size.n,
    );
    let many = excess(blocks, size.n, size.k);
    let mut joins = stack;
    for _ in 0..many {
        if !coarsen_once(
            &mut acc,
            &mut bounds,
            &mut joinblocks,
            counts,
            visited,
            gains,
            presentpins,
            presentsizes,
            bits,
            blocks,
            weights,
            aboves,
            &mut joins,
            netweights,
            firsts,
            size,
            total,
        ) {
            break;
        }
    }
    joins
}
