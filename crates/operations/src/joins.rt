// A vertex contracted into another in all tables, and the undo.
ghost use Rattle.std.specs.Prelude.{ℕ, ◌+◌, ◌-◌, ◌<◌, ◌≡◌, List, set};
ghost use Rattle.operations.specs.Tables.{tables};
ghost use Rattle.operations.specs.Join.{heavier, lighter, SetsAbove, ClearsAbove, CanJoin, Joined, CanSplit, Split};

use levels::{contract, uncontract};

// The records of `u` and `v` once `v` hangs below `u`, which bears its weight.
fn set_above(weights: &mut [u32], aboves: &mut [u16], u: usize, v: usize)
    requires { SetsAbove weights.old aboves.old u v }
    ensures { (weights.new ≡ heavier weights.old u v) × (aboves.new ≡ set aboves.old v (u + 1)) }
{
    weights[u] += weights[v];
    aboves[v] = (u + 1) as u16;
}

// The same with `v` on the board again.
fn clear_above(weights: &mut [u32], aboves: &mut [u16], u: usize, v: usize)
    requires { ClearsAbove weights.old aboves.old u v }
    ensures { (weights.new ≡ lighter weights.old u v) × (aboves.new ≡ set aboves.old v 0) }
{
    weights[u] -= weights[v];
    aboves[v] = 0;
}

// Contracts `v` into `u`, a vertex of the same block.
pub fn join(
    counts: &mut [u16],
    visited: &mut [u16],
    gains: &mut [i32],
    presentpins: &mut [u16],
    presentsizes: &mut [u16],
    bits: &mut [u64],
    blocks: &mut [u16],
    weights: &mut [u32],
    aboves: &mut [u16],
    netweights: &[u16],
    firsts: &[u16],
    n: usize,
    m: usize,
    k: usize,
    total: u32,
    u: usize,
    v: usize,
)
    requires { CanJoin
        (λ loads loadedsizes. tables counts.old visited.old gains.old presentpins.old presentsizes.old bits.old blocks.old weights.old aboves.old loads netweights.now firsts.now loadedsizes n m k total)
        u v }
    ensures { (loads loadedsizes : List ℕ) → Joined
        (tables counts.old visited.old gains.old presentpins.old presentsizes.old bits.old blocks.old weights.old aboves.old loads netweights.now firsts.now loadedsizes n m k total)
        (tables counts.new visited.new gains.new presentpins.new presentsizes.new bits.new blocks.new weights.new aboves.new loads netweights.now firsts.now loadedsizes n m k total)
        u v }
{
    set_above(weights, aboves, u, v);
    contract(
        counts,
        visited,
        gains,
        presentpins,
        presentsizes,
        bits,
        blocks,
        netweights,
        firsts,
        n,
        m,
        k,
        u,
        v,
    );
}

// Splits `v` from `u`, into which it was contracted last.
pub fn split(
    counts: &mut [u16],
    visited: &mut [u16],
    gains: &mut [i32],
    presentpins: &mut [u16],
    presentsizes: &mut [u16],
    bits: &mut [u64],
    blocks: &mut [u16],
    weights: &mut [u32],
    aboves: &mut [u16],
    netweights: &[u16],
    firsts: &[u16],
    loadedsizes: &[u16],
    n: usize,
    m: usize,
    k: usize,
    total: u32,
    u: usize,
    v: usize,
)
    requires { CanSplit
        (λ loads. tables counts.old visited.old gains.old presentpins.old presentsizes.old bits.old blocks.old weights.old aboves.old loads netweights.now firsts.now loadedsizes.now n m k total)
        u v }
    ensures { (loads : List ℕ) → Split
        (tables counts.old visited.old gains.old presentpins.old presentsizes.old bits.old blocks.old weights.old aboves.old loads netweights.now firsts.now loadedsizes.now n m k total)
        (tables counts.new visited.new gains.new presentpins.new presentsizes.new bits.new blocks.new weights.new aboves.new loads netweights.now firsts.now loadedsizes.now n m k total)
        u v }
{
    clear_above(weights, aboves, u, v);
    uncontract(
        counts,
        visited,
        gains,
        presentpins,
        presentsizes,
        bits,
        blocks,
        netweights,
        firsts,
        loadedsizes,
        n,
        m,
        k,
        u,
        v,
    );
}
