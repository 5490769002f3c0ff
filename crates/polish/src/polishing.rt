// P, a greedy polish: over the vertices on the board that are not fixed, the best open pair is moved while its gain is at least 1.
ghost use Rattle.std.specs.Prelude.{◌≡◌, cond, List, ℕ, ◌+◌, ◌-◌, ◌*◌, ◌<◌, ◌≤◌, pos, length};
ghost use Rattle.std.specs.Int.Signed.{lt_z};
ghost use Rattle.index.specs.Indexed.{Kept};
ghost use Rattle.best_move.specs.Open.{SearchOk, IndexOk, Chosen, gain_in};
ghost use Rattle.best_move.specs.Peak.{Peaked};
ghost use Rattle.search_moves.specs.Marks.{Marked};
ghost use Rattle.operations.specs.Lent.{lent_on};
ghost use Rattle.search_moves.specs.Lent.{lent};
ghost use Rattle.polish.specs.Polishing.{sits, placed, RiseOk, rise_of};
ghost use Rattle.polish.specs.Polished.{PassOk, Passed, PolishOk, Polishes};

use best_move::open::{Move, best_open};
use best_move::peaks::survey;
use operations::board::Board;
use search_moves::marks::mark_vertex;
use search_moves::peaks::shift;

// What P answers: how many moves were made, and the metric after them.
#[derive(Clone, Copy)]
pub struct Polished {
    pub moves: u32,
    pub total: u32,
}

// Makes `x`, of block `b`, a candidate if it is on the board, and not fixed.
fn mark_placed(marks: &mut [u64; 48], x: usize, b: u16)
    requires { (length marks.old ≡ 48) × (x < 1024) }
    ensures { Marked marks.old marks.new (placed x b) }
{
    if b == 0 {
        return;
    }
    mark_vertex(marks, x);
}

// Makes the vertices on the board candidates, except those that are fixed.
fn mark_board(marks: &mut [u64; 48], blocks: &[u16], n: usize)
    requires { (length marks.old ≡ 48) × (n ≤ 1024) × (n ≤ length blocks.now) }
    ensures { Marked marks.old marks.new (sits blocks.now n) }
{
    for x in 0..n {
        mark_placed(marks, x, blocks[x]);
    }
}

// Whether the move of `v` to `b` lowers the metric.
fn rises(gains: &[i32], v: u16, b: u16) -> bool
    requires { RiseOk (length gains.now) v b }
    ensures { result ≡ lt_z (pos 0) (gain_in gains.now v b) }
{
    0 < gains[16 * (usize::from(v) - 1) + (usize::from(b) - 1)]
}

// The next move: the best open pair, if its gain is at least 1.
fn next_rise(
    gains: &[i32],
    index: &mut [u16],
    blocks: &[u16],
    weights: &[u32],
    loads: &[u64; 16],
    ceilings: &[u64; 16],
    marks: &[u64],
    peaks: &[i32; 1040],
    n: usize,
    k: usize,
) -> Option<Move>
    requires search_ok { SearchOk (length gains.now) (length blocks.now) (length weights.now) (length marks.now) n k }
    requires peaked { Peaked gains.now peaks.now n k }
    requires index_ok { IndexOk (length index.old) marks.now blocks.now n k }
    ensures chosen { Chosen (gain_in gains.now) n k result (rise_of gains.now blocks.now weights.now loads.now ceilings.now marks.now n k) }
    ensures kept { Kept n k index.old index.new }
{
    match best_open(
        gains, index, blocks, weights, loads, ceilings, marks, peaks, n, k,
    ) {
        None => None,
        Some(best) => {
            if rises(gains, best.vertex, best.block) {
                return Some(best);
            }
            None
        }
    }
}

// Makes the next move, and answers whether there was one. `left` stands in the contract alone: how many moves may be made yet, since each lowers the
// metric.
fn pass(
    counts: &mut [u16],
    visited: &mut [u16],
    gains: &mut [i32],
    index: &mut [u16],
    blocks: &mut [u16],
    loads: &mut [u64; 16],
    marks: &[u64; 48],
    peaks: &mut [i32; 1040],
    board: Board<'_>,
    ceilings: &[u64; 16],
    p: &mut Polished,
) -> bool
    requires pass_ok { (left : ℕ) × PassOk
        (lent_on counts.old visited.old gains.old blocks.old loads.old board p.old.total)
        marks.now left p.old.moves }
    requires peaked { Peaked gains.old peaks.old board.n board.k }
    requires n_in_bounds { 16 * board.n ≤ length index.old }
    ensures by_index { (aboves loadedsizes : List ℕ) (left : ℕ) → 1 ≤ left → Passed
        (lent_on counts.old visited.old gains.old blocks.old loads.old board.entry p.old.total aboves loadedsizes)
        marks.now ceilings.now left p.old.moves
        (lent_on counts.new visited.new gains.new blocks.new loads.new board.entry p.new.total aboves loadedsizes)
        (cond result (left - 1) 0) p.new.moves }
    ensures made { p.new.moves ≡ cond result (p.old.moves + 1) p.old.moves }
    ensures peaked_2 { Peaked gains.new peaks.new board.entry.n board.entry.k }
    ensures kept { Kept board.entry.n board.entry.k index.old index.new }
{
    match next_rise(
        gains,
        index,
        blocks,
        board.weights,
        loads,
        ceilings,
        marks,
        peaks,
        board.n,
        board.k,
    ) {
        None => false,
        Some(best) => {
            let x = usize::from(best.vertex) - 1;
            p.total = shift(
                counts, visited, gains, blocks, loads, peaks, board, p.total, x, best.block,
            );
            p.moves += 1;
            true
        }
    }
}

// P. A fixed vertex is marked in `fixedmarks` as if it had moved, so that it is passed over.
pub fn polish(
    counts: &mut [u16],
    visited: &mut [u16],
    gains: &mut [i32],
    index: &mut [u16],
    blocks: &mut [u16],
    loads: &mut [u64; 16],
    presentpins: &[u16],
    presentsizes: &[u16],
    bits: &[u64],
    weights: &[u32],
    netweights: &[u16],
    firsts: &[u16],
    ceilings: &[u64; 16],
    fixedmarks: [u64; 48],
    n: usize,
    m: usize,
    k: usize,
    total: u32,
) -> Polished
    requires polish_ok { PolishOk
        (lent counts.old visited.old gains.old blocks.old loads.old presentpins.now presentsizes.now bits.now weights.now netweights.now firsts.now n m k total)
        fixedmarks }
    requires n_in_bounds { 16 * n ≤ length index.old }
    ensures by_index { (aboves loadedsizes : List ℕ) → Polishes
        (lent counts.old visited.old gains.old blocks.old loads.old presentpins.now presentsizes.now bits.now weights.now netweights.now firsts.now n m k total aboves loadedsizes)
        ceilings.now fixedmarks
        (lent counts.new visited.new gains.new blocks.new loads.new presentpins.now presentsizes.now bits.now weights.now netweights.now firsts.now n m k result.total aboves loadedsizes)
        result.moves }
    ensures kept { Kept n k index.old index.new }
{
    let board = Board {
        presentpins,
        presentsizes,
        bits,
        weights,
        netweights,
        firsts,
        n,
        m,
        k,
    };
    let mut marks = fixedmarks;
    mark_board(&mut marks, blocks, n);
    let mut peaks = [0i32; 1040];
    survey(&mut peaks, gains, n, k);
    let mut p = Polished { moves: 0, total };
    // No for: a pass without a move ends the polish.
    'passes: while p.moves < total
        && pass(
            counts, visited, gains, index, blocks, loads, &marks, &mut peaks, board, ceilings,
            &mut p,
        )
    {}
    p
}
