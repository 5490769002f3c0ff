// The best open pair: the search over the candidates, in increasing order, and over the blocks. Ties go to the lowest vertex, then to the
// lowest block.
ghost use Rattle.std.specs.Prelude.{◌≡◌, cond, ◌+◌, ◌-◌, ◌*◌, ◌≤◌, ◌<◌, length, get_or};
ghost use Rattle.model.specs.Search.{Best, best_pair};
ghost use Rattle.index.specs.Indexed.{Kept};
ghost use Rattle.best_move.specs.Open.{gain_in, room_for, may_go, open_in, considered, best_in_row, best_to, vertex_at, block_at, pair_at, Leads, Chosen, VertexOk, SearchOk, IndexOk};
ghost use Rattle.best_move.specs.First.{FirstOk};
ghost use Rattle.best_move.specs.Peak.{lesser, Peaked};
ghost use Rattle.best_move.specs.Rising.{Rooms};

use crate::rising::{least_better, measure, next_rising};
use index::numbers::block_at;
use index::rows::put_right;

// The open pair to take.
#[derive(Clone, Copy)]
pub struct Move {
    pub vertex: u16,
    pub block: u16,
}

// The place of no pair: places count from 1.
const NO_PLACE: usize = 0;

// Below every gain that a table holds.
const BELOW_ALL: i64 = -4294967296;

// The best of the pairs seen: its place in the table of gains, counted from 1, and its gain. Where there is none, `NO_PLACE` and `BELOW_ALL`,
// so that no test for that is needed.
#[derive(Clone, Copy)]
struct Lead {
    at: usize,
    top: i64,
}

// One of two values, by a test.
fn choose<T: Copy>(first: bool, a: T, b: T) -> T
    ensures { result ≡ cond first a b }
{
    if first { a } else { b }
}

// The better of the pair at place `here`, if it may be taken, and the best of those before it. Both fields are chosen without a branch, since
// a processor can't predict which pairs are better.
fn weigh(gain: i32, may: bool, here: usize, lead: Lead) -> Lead
    requires { 1 ≤ here }
    ensures { (before : Best) → Leads lead before → Leads result (considered may (vertex_at here) (block_at here) gain before) }
{
    let worth = i64::from(gain);
    let top = lead.top;
    let better = may & (top < worth);
    Lead {
        at: choose(better, here, lead.at),
        top: choose(better, worth, top),
    }
}

// Whether a block of weight `load` has room for a weight. The sum of the two may pass 64 bits.
fn has_space(load: u64, weight: u64, ceiling: u64) -> bool
    ensures { result ≡ room_for load weight ceiling }
{
    if ceiling < weight {
        return false;
    }
    load <= ceiling - weight
}

// The best of `before` and the pairs of the vertex at place `x`, of block `own`, that may be taken: its row of the index is ranked, so the first
// block with room decides. The search ends at the first block that gains no more than `before`. Only the contract names `own`: it does not stand
// in the row.
fn first_open(
    index: &[u16],
    gains: &[i32],
    loads: &[u64; 16],
    ceilings: &[u64; 16],
    own: usize,
    weight: u64,
    x: usize,
    k: usize,
    before: Lead,
) -> Lead
    requires { FirstOk index.now gains.now own x k }
    ensures { (c : Best) → Leads before c → Leads result (best_in_row (gain_in gains.now) (λ b. may_go (get_or loads.now (b - 1) 0) own weight (get_or ceilings.now (b - 1) 0) b) (x + 1) k c) }
{
    let row = 16 * x;
    let top = before.top;
    for j in 0..k - 1 {
        let b = block_at(index, x, j);
        if i64::from(gains[row + (b - 1)]) <= top {
            return before;
        }
        if has_space(loads[b - 1], weight, ceilings[b - 1]) {
            return weigh(gains[row + (b - 1)], true, row + (b - 1) + 1, before);
        }
    }
    before
}

// The best of `before` and the open pairs of the candidate at place `i`, whose row of the index is made right first.
fn best_with(
    gains: &[i32],
    index: &mut [u16],
    blocks: &[u16],
    weights: &[u32],
    loads: &[u64; 16],
    ceilings: &[u64; 16],
    i: usize,
    k: usize,
    before: Lead,
) -> Lead
    requires { VertexOk (length gains.now) (length index.old) blocks.now (length weights.now) i k }
    ensures leads { (c : Best) → Leads before c → Leads result (best_in_row (gain_in gains.now) (λ b. may_go (get_or loads.now (b - 1) 0) (get_or blocks.now i 0) (get_or weights.now i 0) (get_or ceilings.now (b - 1) 0) b) (i + 1) k c) }
    ensures kept { Kept (i + 1) k index.old index.new }
{
    put_right(index, gains, blocks, i, k);
    first_open(
        index,
        gains,
        loads,
        ceilings,
        usize::from(blocks[i]),
        u64::from(weights[i]),
        i,
        k,
        before,
    )
}

// The pair at a place of the table of gains, counted from 1; none at 0.
fn pair_at(at: usize) -> Option<Move>
    requires { at ≤ 16384 }
    ensures { result ≡ pair_at at }
{
    if at == NO_PLACE {
        return None;
    }
    let x = at - 1;
    Some(Move {
        vertex: (x / 16 + 1) as u16,
        block: (x % 16 + 1) as u16,
    })
}

// The best of `before` and the open pairs of the candidates among the `size` vertices from place 64 * c on. Only those that may have a better
// pair are weighed. `rooms` is what the blocks have left under their ceilings.
fn best_among(
    gains: &[i32],
    index: &mut [u16],
    blocks: &[u16],
    weights: &[u32],
    loads: &[u64; 16],
    ceilings: &[u64; 16],
    rooms: &[u32; 16],
    candidates: &[u64],
    peaks: &[i32; 1040],
    c: usize,
    size: usize,
    k: usize,
    before: Lead,
) -> Lead
    requires search_ok { SearchOk (length gains.now) (length blocks.now) (length weights.now) (length candidates.now) (64 * c + size) k × (size ≤ 64) × (c < 16) }
    requires peaked { Peaked gains.now peaks.now (64 * c + size) k }
    requires rooms { Rooms loads.now ceilings.now k rooms.now }
    requires index_ok { IndexOk (length index.old) candidates.now blocks.now (64 * c + size) k }
    ensures leads { Leads before (best_to (open_in candidates.now blocks.now weights.now loads.now ceilings.now) (gain_in gains.now) k (64 * c)) → Leads result (best_to (open_in candidates.now blocks.now weights.now loads.now ceilings.now) (gain_in gains.now) k (64 * c + size)) }
    ensures kept { Kept (64 * c + size) k index.old index.new }
{
    let first = 64 * c;
    let word = candidates[c];
    let mut best = before;
    let mut from: usize = 0;
    while let Some(j) = next_rising(
        gains,
        blocks,
        weights,
        rooms,
        peaks,
        word,
        first,
        from,
        size,
        k,
        least_better(best.top),
    ) {
        best = best_with(
            gains,
            index,
            blocks,
            weights,
            loads,
            ceilings,
            first + j,
            k,
            best,
        );
        from = j + 1;
    }
    best
}

// The best of `before` and the open pairs of the candidates of part `c`. Where no gain of the part is above that of `before`, none is better,
// and none is looked at.
fn best_in_part(
    gains: &[i32],
    index: &mut [u16],
    blocks: &[u16],
    weights: &[u32],
    loads: &[u64; 16],
    ceilings: &[u64; 16],
    rooms: &[u32; 16],
    candidates: &[u64],
    peaks: &[i32; 1040],
    c: usize,
    n: usize,
    k: usize,
    before: Lead,
) -> Lead
    requires search_ok { SearchOk (length gains.now) (length blocks.now) (length weights.now) (length candidates.now) n k }
    requires peaked { Peaked gains.now peaks.now n k × (64 * c < n) }
    requires rooms { Rooms loads.now ceilings.now k rooms.now }
    requires index_ok { IndexOk (length index.old) candidates.now blocks.now n k }
    ensures leads { Leads before (best_to (open_in candidates.now blocks.now weights.now loads.now ceilings.now) (gain_in gains.now) k (64 * c)) → Leads result (best_to (open_in candidates.now blocks.now weights.now loads.now ceilings.now) (gain_in gains.now) k (lesser (64 * c + 64) n)) }
    ensures kept { Kept n k index.old index.new }
{
    let peak = i64::from(peaks[c]);
    let top = before.top;
    if top < peak {
        return best_among(
            gains,
            index,
            blocks,
            weights,
            loads,
            ceilings,
            rooms,
            candidates,
            peaks,
            c,
            usize::min(64, n - 64 * c),
            k,
            before,
        );
    }
    before
}

// The open pair of highest gain, then lowest vertex, then lowest block: vertices and blocks count from 1. `loads` are the blocks' weights,
// `ceilings` the most that they may hold, `candidates` a row of bits in which vertex v is bit v - 1, `peaks` bounds on the gains of each part of 64 vertices and of each vertex.
// The pairs come from the index, whose rows are made right as they are looked at.
pub fn best_open(
    gains: &[i32],
    index: &mut [u16],
    blocks: &[u16],
    weights: &[u32],
    loads: &[u64; 16],
    ceilings: &[u64; 16],
    candidates: &[u64],
    peaks: &[i32; 1040],
    n: usize,
    k: usize,
) -> Option<Move>
    requires search_ok { SearchOk (length gains.now) (length blocks.now) (length weights.now) (length candidates.now) n k }
    requires peaked { Peaked gains.now peaks.now n k }
    requires index_ok { IndexOk (length index.old) candidates.now blocks.now n k }
    ensures chosen { Chosen (gain_in gains.now) n k result (best_pair n k (open_in candidates.now blocks.now weights.now loads.now ceilings.now) (gain_in gains.now)) }
    ensures kept { Kept n k index.old index.new }
{
    let mut best = Lead {
        at: NO_PLACE,
        top: BELOW_ALL,
    };
    let mut rooms = [0u32; 16];
    measure(&mut rooms, loads, ceilings, k);
    for c in 0..n.div_ceil(64) {
        best = best_in_part(
            gains, index, blocks, weights, loads, ceilings, &rooms, candidates, peaks, c, n, k,
            best,
        );
    }
    pair_at(best.at)
}
