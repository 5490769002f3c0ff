// A running sale made anew from the table of loaded pins, when no contraction stands.
#![tactic(auto)]

ghost use Rattle.reopening.specs.Reopening.{CanReopen, Reopened};

use opening::open;
use pins::sort_nets;
use renewal::{blank, copy};

// Makes the `total` loaded pins the present ones, each net's in order, and all tables anew from them; the answer is the partition's metric.
pub fn reopen(
    counts: &mut [u16],
    visited: &mut [u16],
    gains: &mut [i32],
    bits: &mut [u64],
    loads: &mut [u64; 16],
    presentpins: &mut [u16],
    presentsizes: &mut [u16],
    loadedpins: &[u16],
    loadedsizes: &[u16],
    blocks: &[u16],
    firsts: &[u16],
    weights: &[u32],
    netweights: &[u16],
    n: usize,
    m: usize,
    k: usize,
    total: usize,
) -> u32
    requires { CanReopen loadedpins.now loadedsizes.now presentpins.old presentsizes.old blocks.now firsts.now weights.now netweights.now bits.old counts.old visited.old gains.old loads.old n m k total }
    ensures { Reopened loadedpins.now loadedsizes.now presentpins.old presentpins.new presentsizes.old presentsizes.new blocks.now firsts.now weights.now netweights.now n m k total bits.old bits.new counts.old counts.new visited.old visited.new gains.old gains.new loads.new result }
{
    blank(bits, 16 * n);
    copy(loadedpins, presentpins, 8192);
    sort_nets(presentpins, loadedsizes, m);
    copy(loadedsizes, presentsizes, m);
    open(
        counts,
        visited,
        gains,
        bits,
        loads,
        presentpins,
        blocks,
        firsts,
        presentsizes,
        weights,
        netweights,
        n,
        m,
        k,
    )
}
