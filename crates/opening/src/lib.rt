// The tables as loading leaves them made into a running sale: counts, connectivity sets and gains filled, the blocks' weights, the metric.
#![tactic(auto)]

ghost use Rattle.std.specs.Prelude.{◌+◌, ◌-◌, ◌*◌, ◌<◌, ◌≤◌, ◌≡◌, length};
ghost use Rattle.laws.specs.Sum.{sum};
ghost use Rattle.laws.specs.Bit.{bit};
ghost use Rattle.opening.specs.Opening.{Weighed, metric_by, Measurable, CanOpen, Opened};

// What a net of that weight and that connectivity set adds to the metric.
fn cost(weight: u16, mask: u16) -> u32
    requires { weight ≤ 1000 }
    ensures { (result ≡ weight * (sum 16 (bit mask) - 1)) × (result ≤ 16000) }
{
    let spread = mask.count_ones();
    if spread < 1 {
        return 0;
    }
    u32::from(weight) * (spread - 1)
}

// The metric by the nets' connectivity sets.
fn metric_of(visited: &[u16], netweights: &[u16], m: usize) -> u32
    requires { Measurable visited.now netweights.now m }
    ensures { result ≡ metric_by visited.now netweights.now m }
{
    let mut t: u32 = 0;
    for e in 0..m {
        t += cost(netweights[e], visited[e]);
    }
    t
}

// The weights of the first k blocks.
fn weigh_blocks(loads: &mut [u64; 16], weights: &[u32], blocks: &[u16], n: usize, k: usize)
    requires { (n ≤ 1024) × (k ≤ 16) × (n ≤ length weights.now) × (n ≤ length blocks.now) × (length loads.old ≡ 16) }
    ensures { Weighed weights.now blocks.now n k loads.new }
{
    for b in 0..k {
        loads[b] = block_weights::block_weight(weights, blocks, n, b as u32 + 1);
    }
}

// Fills the tables of a loaded catalogue, and returns the draft's metric.
pub fn open(
    counts: &mut [u16],
    visited: &mut [u16],
    gains: &mut [i32],
    bits: &mut [u64],
    loads: &mut [u64; 16],
    presentpins: &[u16],
    blocks: &[u16],
    firsts: &[u16],
    presentsizes: &[u16],
    weights: &[u32],
    netweights: &[u16],
    n: usize,
    m: usize,
    k: usize,
) -> u32
    requires { CanOpen presentpins.now blocks.now firsts.now presentsizes.now weights.now netweights.now bits.old counts.old visited.old gains.old loads.old n m k }
    ensures { Opened presentpins.now blocks.now firsts.now presentsizes.now weights.now netweights.now n m k bits.old bits.new counts.old counts.new visited.old visited.new gains.old gains.new loads.new result }
{
    first_tables::prepare(
        counts,
        visited,
        gains,
        bits,
        netweights,
        presentpins,
        blocks,
        firsts,
        presentsizes,
        n,
        m,
        k,
    );
    weigh_blocks(loads, weights, blocks, n, k);
    metric_of(visited, netweights, m)
}
