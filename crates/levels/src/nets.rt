// Contraction and uncontraction in one net: its pin list, its counts and its shares in the gains.
ghost use Rattle.std.specs.Prelude.{◌<◌};
ghost use Rattle.levels.specs.ContractNet.{ContractNetNeeds, ContractNetDoes};
ghost use Rattle.levels.specs.SplitNet.{SplitNetNeeds, SplitNetDoes};

use connectivity::set_pin;
use incidence::is_pin;
use incidence::numbers::number;
use pins::{relink, uncontract_net};

// Contracts `v`, a pin of the net `e`, into `u`, of the same block. The answer is the new number of pins.
pub fn contract_net(
    counts: &mut [u16],
    visited: &mut [u16],
    gains: &mut [i32],
    presentpins: &mut [u16],
    bits: &[u64],
    netweights: &[u16],
    blocks: &[u16],
    n: usize,
    m: usize,
    k: usize,
    first: usize,
    p: usize,
    e: usize,
    u: usize,
    v: usize,
) -> usize
    requires { ContractNetNeeds netweights.now counts.old visited.old presentpins.old blocks.now bits.now gains.old n m k first p e u v }
    ensures { ContractNetDoes netweights.now blocks.now n m k first p e u v result presentpins.old presentpins.new counts.old counts.new visited.old visited.new gains.old gains.new }
{
    let s = usize::from(blocks[v]);
    set_pin(
        counts,
        visited,
        gains,
        netweights,
        presentpins,
        blocks,
        n,
        m,
        k,
        first,
        p,
        e,
        v,
        s,
        0,
    );
    let both = is_pin(bits, u, e);
    let r = relink(presentpins, first, p, number(u), number(v), both);
    if r < p {
        return r;
    }
    set_pin(
        counts,
        visited,
        gains,
        netweights,
        presentpins,
        blocks,
        n,
        m,
        k,
        first,
        r,
        e,
        u,
        0,
        s,
    );
    r
}

// Splits `v`, which `e` had as a pin, from `u`, of the same block, in the net `e`. The answer is the new number of pins.
pub fn split_net(
    counts: &mut [u16],
    visited: &mut [u16],
    gains: &mut [i32],
    presentpins: &mut [u16],
    bits: &mut [u64],
    netweights: &[u16],
    blocks: &[u16],
    n: usize,
    m: usize,
    k: usize,
    first: usize,
    p: usize,
    loadedsizes: usize,
    e: usize,
    u: usize,
    v: usize,
) -> usize
    requires { SplitNetNeeds netweights.now counts.old visited.old presentpins.old blocks.now bits.old gains.old n m k first p loadedsizes e u v }
    ensures { SplitNetDoes netweights.now blocks.now n m k first p loadedsizes e u v result presentpins.old presentpins.new bits.old bits.new counts.old counts.new visited.old visited.new gains.old gains.new }
{
    let s = usize::from(blocks[v]);
    set_pin(
        counts,
        visited,
        gains,
        netweights,
        presentpins,
        blocks,
        n,
        m,
        k,
        first,
        p,
        e,
        v,
        0,
        s,
    );
    let r = uncontract_net(presentpins, bits, first, p, loadedsizes, e, u, v);
    if p < r {
        return r;
    }
    set_pin(
        counts,
        visited,
        gains,
        netweights,
        presentpins,
        blocks,
        n,
        m,
        k,
        first,
        r,
        e,
        u,
        s,
        0,
    );
    r
}
