// The running tables filled after loading, when the pin lists are as loaded and no contraction stands.
#![tactic(auto)]

mod clear;

ghost use Rattle.std.specs.Prelude.{◌+◌, ◌<◌, ◌≡◌};
ghost use Rattle.first_tables.specs.Fill.{FillsNet, FilledNet, MarksPins, MarkedPins, Fills, Filled};
ghost use Rattle.first_tables.specs.Prepare.{Prepares, Prepared};

use clear::{clear_row, clear_rows};
use connectivity::whole::fill_pins;
use incidence::put;

// Puts the `p` pins from `first` into the bitset, as pins of the net `e`.
fn mark_pins(bits: &mut [u64], presentpins: &[u16], n: usize, first: usize, p: usize, e: usize)
    requires { MarksPins presentpins.now bits.old n first p e }
    ensures { MarkedPins presentpins.now n first p e bits.old bits.new }
{
    for i in 0..p {
        let x = usize::from(presentpins[first + i]) - 1;
        put(bits, x, e);
    }
}

// Counts the `p` pins from `first` in the net `e`, which has none yet, each in its block.
fn fill_net(
    counts: &mut [u16],
    visited: &mut [u16],
    gains: &mut [i32],
    bits: &mut [u64],
    netweights: &[u16],
    presentpins: &[u16],
    blocks: &[u16],
    n: usize,
    m: usize,
    k: usize,
    first: usize,
    p: usize,
    e: usize,
)
    requires { FillsNet netweights.now counts.old visited.old presentpins.now blocks.now bits.old gains.old n m k first p e }
    ensures { FilledNet netweights.now presentpins.now blocks.now n m k first p e bits.old bits.new counts.old counts.new visited.old visited.new gains.old gains.new }
{
    fill_pins(
        counts,
        visited,
        gains,
        netweights,
        presentpins,
        blocks,
        n,
        m,
        k,
        first,
        p,
        e,
    );
    mark_pins(bits, presentpins, n, first, p, e);
}

// Counts the pins of every net. Counts, connectivity sets, gains and bits are blank before.
fn fill(
    counts: &mut [u16],
    visited: &mut [u16],
    gains: &mut [i32],
    bits: &mut [u64],
    netweights: &[u16],
    presentpins: &[u16],
    blocks: &[u16],
    firsts: &[u16],
    presentsizes: &[u16],
    n: usize,
    m: usize,
    k: usize,
)
    requires { Fills netweights.now counts.old visited.old presentpins.now blocks.now firsts.now presentsizes.now bits.old gains.old n m k }
    ensures { Filled netweights.now presentpins.now blocks.now firsts.now presentsizes.now n m k bits.old bits.new counts.old counts.new visited.old visited.new gains.old gains.new }
{
    for e in 0..m {
        let first = usize::from(firsts[e]);
        let p = usize::from(presentsizes[e]);
        fill_net(
            counts,
            visited,
            gains,
            bits,
            netweights,
            presentpins,
            blocks,
            n,
            m,
            k,
            first,
            p,
            e,
        );
    }
}

// Makes the entries in use what the pin lists and the blocks say, whatever they held. The bitset is blank before.
pub fn prepare(
    counts: &mut [u16],
    visited: &mut [u16],
    gains: &mut [i32],
    bits: &mut [u64],
    netweights: &[u16],
    presentpins: &[u16],
    blocks: &[u16],
    firsts: &[u16],
    presentsizes: &[u16],
    n: usize,
    m: usize,
    k: usize,
)
    requires { Prepares netweights.now counts.old visited.old presentpins.now blocks.now firsts.now presentsizes.now bits.old gains.old n m k }
    ensures { Prepared netweights.now presentpins.now blocks.now firsts.now presentsizes.now n m k bits.old bits.new counts.old counts.new visited.old visited.new gains.old gains.new }
{
    clear_rows(counts, m, k, 0);
    clear_row(visited, 0, m, 0);
    clear_rows(gains, n, k, 0);
    fill(
        counts,
        visited,
        gains,
        bits,
        netweights,
        presentpins,
        blocks,
        firsts,
        presentsizes,
        n,
        m,
        k,
    );
}
