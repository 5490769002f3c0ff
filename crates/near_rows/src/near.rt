// The rows that a move can change: that of the moved vertex, and those of the pins of its nets that now have at most one pin in the block left or at
// most two in the block reached. In any other net of it the pins free and draw what they did, and gains of vertices without such a net are as they were.
// Vertices and nets count from 0, blocks from 1.
ghost use Rattle.std.specs.Prelude.{◌≡◌, false, ◌+◌, ◌*◌, ◌-◌, ◌<◌, length, get_or};
ghost use Rattle.index.specs.Indexed.{TablesOk};
ghost use Rattle.search_moves.specs.Lifting.{NetIn};
ghost use Rattle.near_rows.specs.Near.{PinsTo, NearOk, Mended, PinsRight, NetRight, NearRight};

use incidence::nets_of;
use index::rows::put_right;

// Makes the rows of a net's pins right.
fn put_pins_right(
    index: &mut [u16],
    gains: &[i32],
    blocks: &[u16],
    presentpins: &[u16],
    first: usize,
    size: usize,
    n: usize,
    k: usize,
)
    requires { TablesOk (length index.old) (length gains.now) blocks.now n k × PinsTo n presentpins.now first size }
    ensures { Mended gains.now blocks.now n k index.old index.new
        × PinsRight gains.now blocks.now k index.new presentpins.now first size }
{
    for j in 0..size {
        put_right(
            index,
            gains,
            blocks,
            usize::from(presentpins[first + j]) - 1,
            k,
        );
    }
}

// Whether the gains of a net's pins may have changed with a move from `s` to `t`, by the counts after it.
fn is_critical(counts: &[u16], e: usize, s: u16, t: u16) -> bool
    requires { NetIn (length counts.now) e s × NetIn (length counts.now) e t }
    ensures { result ≡ false → (1 < get_or counts.now (16 * e + (s - 1)) 0) × (2 < get_or counts.now (16 * e + (t - 1)) 0) }
{
    if counts[16 * e + (usize::from(s) - 1)] <= 1 {
        return true;
    }
    counts[16 * e + (usize::from(t) - 1)] <= 2
}

// Makes the rows of the pins of net `e` right, if their gains may have changed.
fn put_net_right(
    index: &mut [u16],
    gains: &[i32],
    counts: &[u16],
    blocks: &[u16],
    presentpins: &[u16],
    first: usize,
    size: usize,
    e: usize,
    n: usize,
    k: usize,
    s: u16,
    t: u16,
)
    requires { TablesOk (length index.old) (length gains.now) blocks.now n k × PinsTo n presentpins.now first size
        × NetIn (length counts.now) e s × NetIn (length counts.now) e t }
    ensures { Mended gains.now blocks.now n k index.old index.new
        × NetRight gains.now counts.now blocks.now presentpins.now first size e s t k index.new }
{
    if !is_critical(counts, e, s, t) {
        return;
    }
    put_pins_right(index, gains, blocks, presentpins, first, size, n, k);
}

// Makes the rows right that the move of `u` from `s` to `t` can have changed.
pub fn put_near_right(
    index: &mut [u16],
    gains: &[i32],
    counts: &[u16],
    blocks: &[u16],
    bits: &[u64],
    presentpins: &[u16],
    firsts: &[u16],
    presentsizes: &[u16],
    n: usize,
    m: usize,
    k: usize,
    u: usize,
    s: u16,
    t: u16,
)
    requires { NearOk (length index.old) (length gains.now) (length counts.now) blocks.now bits.now presentpins.now firsts.now presentsizes.now n m k u s t }
    ensures { NearRight gains.now counts.now blocks.now presentpins.now firsts.now presentsizes.now bits.now n m k u s t index.old index.new }
{
    put_right(index, gains, blocks, u, k);
    for e in nets_of(bits, u, m) {
        put_net_right(
            index,
            gains,
            counts,
            blocks,
            presentpins,
            usize::from(firsts[e]),
            usize::from(presentsizes[e]),
            e,
            n,
            k,
            s,
            t,
        );
    }
}
