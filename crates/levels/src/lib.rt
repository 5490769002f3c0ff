// The operations on the tables: a vertex moved, one contracted into another, a contraction undone. And a gain's halves, read from the tables.
#![tactic(auto)]

pub mod halves;
mod nets;

ghost use Rattle.levels.specs.Running.{running};
ghost use Rattle.levels.specs.Contract.{ContractsAll, ContractedAll};
ghost use Rattle.levels.specs.Uncontract.{UncontractsAll, UncontractedAll};
ghost use Rattle.levels.specs.Operations.{MoveNeeds, MoveDoes, ContractNeeds, ContractDoes, UncontractNeeds, UncontractDoes};

use connectivity::move_pin;
use incidence::numbers::narrow;
use incidence::{copy_or, nets_of, next_net};
use nets::{contract_net, split_net};

// Moves the vertex `u`, which is on the board, to the block `t`.
pub fn move_vertex(
    counts: &mut [u16],
    visited: &mut [u16],
    gains: &mut [i32],
    blocks: &mut [u16],
    netweights: &[u16],
    presentpins: &[u16],
    firsts: &[u16],
    presentsizes: &[u16],
    bits: &[u64],
    n: usize,
    m: usize,
    k: usize,
    u: usize,
    t: u16,
)
    requires { MoveNeeds (running counts.old visited.old gains.old presentpins.now presentsizes.now bits.now blocks.old netweights.now firsts.now) n m k u t }
    ensures { MoveDoes
        (running counts.old visited.old gains.old presentpins.now presentsizes.now bits.now blocks.old netweights.now firsts.now)
        (running counts.new visited.new gains.new presentpins.now presentsizes.now bits.now blocks.new netweights.now firsts.now)
        n m k u t }
{
    let s = usize::from(blocks[u]);
    let b = usize::from(t);
    if s == b {
        return;
    }
    for e in nets_of(bits, u, m) {
        let first = usize::from(firsts[e]);
        let p = usize::from(presentsizes[e]);
        move_pin(
            counts,
            visited,
            gains,
            netweights,
            presentpins,
            blocks,
            n,
            m,
            k,
            first,
            p,
            e,
            u,
            s,
            b,
        );
    }
    blocks[u] = t;
}

// Contracts `v` into `u`, of the same block, in every net that has `v`.
fn contract_nets(
    counts: &mut [u16],
    visited: &mut [u16],
    gains: &mut [i32],
    presentpins: &mut [u16],
    presentsizes: &mut [u16],
    bits: &mut [u64],
    netweights: &[u16],
    blocks: &[u16],
    firsts: &[u16],
    n: usize,
    m: usize,
    k: usize,
    u: usize,
    v: usize,
)
    requires { ContractsAll netweights.now counts.old visited.old presentpins.old blocks.now firsts.now presentsizes.old bits.old gains.old n m k u v }
    ensures { ContractedAll netweights.now blocks.now firsts.now n m k u v presentpins.old presentpins.new presentsizes.old presentsizes.new bits.old bits.new counts.old counts.new visited.old visited.new gains.old gains.new }
{
    for e in nets_of(bits, v, m) {
        let first = usize::from(firsts[e]);
        let p = usize::from(presentsizes[e]);
        let r = contract_net(
            counts,
            visited,
            gains,
            presentpins,
            bits,
            netweights,
            blocks,
            n,
            m,
            k,
            first,
            p,
            e,
            u,
            v,
        );
        presentsizes[e] = narrow(r);
    }
    copy_or(bits, u, v);
}

// Contracts `v` into `u`, of the same block: `v` leaves the board.
pub fn contract(
    counts: &mut [u16],
    visited: &mut [u16],
    gains: &mut [i32],
    presentpins: &mut [u16],
    presentsizes: &mut [u16],
    bits: &mut [u64],
    blocks: &mut [u16],
    netweights: &[u16],
    firsts: &[u16],
    n: usize,
    m: usize,
    k: usize,
    u: usize,
    v: usize,
)
    requires { ContractNeeds
        (running counts.old visited.old gains.old presentpins.old presentsizes.old bits.old blocks.old netweights.now firsts.now)
        n m k u v }
    ensures { ContractDoes
        (running counts.old visited.old gains.old presentpins.old presentsizes.old bits.old blocks.old netweights.now firsts.now)
        (running counts.new visited.new gains.new presentpins.new presentsizes.new bits.new blocks.new netweights.now firsts.now)
        n m k u v }
{
    contract_nets(
        counts,
        visited,
        gains,
        presentpins,
        presentsizes,
        bits,
        netweights,
        blocks,
        firsts,
        n,
        m,
        k,
        u,
        v,
    );
    blocks[v] = 0;
}

// Splits `v` from `u`, of the same block, in every net that had `v`.
fn uncontract_nets(
    counts: &mut [u16],
    visited: &mut [u16],
    gains: &mut [i32],
    presentpins: &mut [u16],
    presentsizes: &mut [u16],
    bits: &mut [u64],
    netweights: &[u16],
    blocks: &[u16],
    firsts: &[u16],
    loadedsizes: &[u16],
    n: usize,
    m: usize,
    k: usize,
    u: usize,
    v: usize,
)
    requires { UncontractsAll netweights.now counts.old visited.old presentpins.old blocks.now firsts.now presentsizes.old loadedsizes.now bits.old gains.old n m k u v }
    ensures { UncontractedAll netweights.now blocks.now firsts.now loadedsizes.now n m k u v presentpins.old presentpins.new presentsizes.old presentsizes.new bits.old bits.new counts.old counts.new visited.old visited.new gains.old gains.new }
{
    // Each turn changes the bitset, so that no iterator over it can stand.
    let mut e = next_net(bits, v, 0, m);
    while e < m {
        let first = usize::from(firsts[e]);
        let p = usize::from(presentsizes[e]);
        let full = usize::from(loadedsizes[e]);
        let r = split_net(
            counts,
            visited,
            gains,
            presentpins,
            bits,
            netweights,
            blocks,
            n,
            m,
            k,
            first,
            p,
            full,
            e,
            u,
            v,
        );
        presentsizes[e] = narrow(r);
        e = next_net(bits, v, e + 1, m);
    }
}

// Undoes the latest contraction, of `v` into `u`: `v` returns in the present block of `u`.
pub fn uncontract(
    counts: &mut [u16],
    visited: &mut [u16],
    gains: &mut [i32],
    presentpins: &mut [u16],
    presentsizes: &mut [u16],
    bits: &mut [u64],
    blocks: &mut [u16],
    netweights: &[u16],
    firsts: &[u16],
    loadedsizes: &[u16],
    n: usize,
    m: usize,
    k: usize,
    u: usize,
    v: usize,
)
    requires { UncontractNeeds loadedsizes.now
        (running counts.old visited.old gains.old presentpins.old presentsizes.old bits.old blocks.old netweights.now firsts.now)
        n m k u v }
    ensures { UncontractDoes loadedsizes.now
        (running counts.old visited.old gains.old presentpins.old presentsizes.old bits.old blocks.old netweights.now firsts.now)
        (running counts.new visited.new gains.new presentpins.new presentsizes.new bits.new blocks.new netweights.now firsts.now)
        n m k u v }
{
    blocks[v] = blocks[u];
    uncontract_nets(
        counts,
        visited,
        gains,
        presentpins,
        presentsizes,
        bits,
        netweights,
        blocks,
        firsts,
        loadedsizes,
        n,
        m,
        k,
        u,
        v,
    );
}
