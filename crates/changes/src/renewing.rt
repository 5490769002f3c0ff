// What X and N have in common: the sale made anew from the loaded marks, and the index.
ghost use Rattle.std.specs.Prelude.{◌*◌, ◌≤◌, length};
ghost use Rattle.reopening.specs.Reopening.{CanReopen};
ghost use Rattle.changes.specs.Stands.{Renewed};

use index::rows::put_all_right;
use reopening::reopen;

// All tables anew from the `total` loaded marks, and the rows of the index; the answer is the metric.
pub fn renew(
    counts: &mut [u16],
    visited: &mut [u16],
    gains: &mut [i32],
    index: &mut [u16],
    bits: &mut [u64],
    loads: &mut [u64; 16],
    presentpins: &mut [u16],
    presentsizes: &mut [u16],
    loadedpins: &[u16],
    loadedsizes: &[u16],
    blocks: &[u16],
    firsts: &[u16],
    weights: &[u32],
    netweights: &[u16],
    n: usize,
    m: usize,
    k: usize,
    total: usize,
) -> u32
    requires can_reopen { CanReopen loadedpins.now loadedsizes.now presentpins.old presentsizes.old blocks.now firsts.now weights.now netweights.now bits.old counts.old visited.old gains.old loads.old n m k total }
    requires n_in_bounds { 16 * n ≤ length index.old }
    ensures { Renewed loadedpins.now loadedsizes.now presentpins.old presentpins.new presentsizes.old presentsizes.new blocks.now firsts.now weights.now netweights.now n m k total bits.old bits.new counts.old counts.new visited.old visited.new gains.old gains.new loads.new index.old index.new result }
{
    let metric = reopen(
        counts,
        visited,
        gains,
        bits,
        loads,
        presentpins,
        presentsizes,
        loadedpins,
        loadedsizes,
        blocks,
        firsts,
        weights,
        netweights,
        n,
        m,
        k,
        total,
    );
    put_all_right(index, gains, blocks, n, k);
    metric
}
