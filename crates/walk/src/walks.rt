// W, a walk from two vertices (localized FM search): the best open pair is moved, also where its gain is negative, until none is open or 25
// moves have been made since the prefix that is kept; then the moves after that prefix are reversed.
ghost use Rattle.std.specs.Prelude.{cond, List, ℕ, ◌+◌, ◌-◌, ◌*◌, ◌<◌, ◌≤◌, length};
ghost use Rattle.index.specs.Indexed.{Kept};
ghost use Rattle.best_move.specs.Open.{SearchOk, IndexOk, Chosen, gain_in};
ghost use Rattle.best_move.specs.Peak.{Peaked};
ghost use Rattle.walk.specs.Back.{RewindOk, Rewinds};
ghost use Rattle.operations.specs.Lent.{lent_on};
ghost use Rattle.search_moves.specs.Lent.{lent};
ghost use Rattle.search_moves.specs.Rows.{RowsPast};
ghost use Rattle.walk.specs.Steps.{locals, next_of, TakeOk, Took, TurnOk, Turned, WalkOk, Walks};

use crate::kept::{Prefix, heaviest, keep};
use best_move::open::{Move, best_open};
use best_move::peaks::survey;
use operations::board::Board;
use operations::moves::take_back;
use search_moves::marks::{mark_vertex, spread};
use search_moves::peaks::shift;

// What W answers: how many moves were made, the length of the kept prefix, and the metric after it.
#[derive(Clone, Copy)]
pub struct Walked {
    pub tried: usize,
    pub kept: usize,
    pub total: u32,
}

// A walk on its way: how many moves were made, the prefix that is kept, and the metric.
#[derive(Clone, Copy)]
struct Steps {
    tried: usize,
    prefix: Prefix,
    total: u32,
}

// The next move: none once 25 have been made since the kept prefix.
fn next_move(
    gains: &[i32],
    index: &mut [u16],
    blocks: &[u16],
    board: Board<'_>,
    ceilings: &[u64; 16],
    loads: &[u64; 16],
    marks: &[u64; 48],
    peaks: &[i32; 1040],
    tried: usize,
    kept: usize,
) -> Option<Move>
    requires kept_le_tried { (kept ≤ tried) × (tried ≤ 1024) × SearchOk (length gains.now) (length blocks.now) (length board.weights.now) (length marks.now) board.n board.k }
    requires peaked { Peaked gains.now peaks.now board.n board.k }
    requires index_ok { IndexOk (length index.old) marks.now blocks.now board.n board.k }
    ensures chosen { Chosen (gain_in gains.now) board.entry.n board.entry.k result (next_of gains.now blocks.now board.entry.weights.now loads.now ceilings.now marks.now board.entry.n board.entry.k tried kept) }
    ensures kept { Kept board.entry.n board.entry.k index.old index.new }
{
    if kept + 25 <= tried {
        return None;
    }
    best_open(
        gains,
        index,
        blocks,
        board.weights,
        loads,
        ceilings,
        marks,
        peaks,
        board.n,
        board.k,
    )
}

// One more move, put on the journal: `movers[i]` left the block `origins[i]`. The journal is lent, since to copy it with each move takes time.
fn make_move(
    counts: &mut [u16],
    visited: &mut [u16],
    gains: &mut [i32],
    blocks: &mut [u16],
    loads: &mut [u64; 16],
    marks: &mut [u64; 48],
    peaks: &mut [i32; 1040],
    movers: &mut [u16; 1024],
    origins: &mut [u16; 1024],
    board: Board<'_>,
    rows: &[u64],
    limit: u16,
    v: u16,
    b: u16,
    s: Steps,
) -> Steps
    requires take_ok { TakeOk
        (lent_on counts.old visited.old gains.old blocks.old loads.old board s.total)
        (locals marks.old movers.old origins.old s.tried s.prefix.kept s.prefix.low s.prefix.heaviest) s.tried v b }
    requires peaked { Peaked gains.old peaks.old board.n board.k }
    requires rows_past { RowsPast rows.now board.presentpins.now board.firsts.now board.presentsizes.now limit board.m }
    ensures by_index { (aboves loadedsizes : List ℕ) → Took
        (lent_on counts.old visited.old gains.old blocks.old loads.old board.entry s.total aboves loadedsizes)
        (locals marks.old movers.old origins.old s.tried s.prefix.kept s.prefix.low s.prefix.heaviest) s.tried v b
        (lent_on counts.new visited.new gains.new blocks.new loads.new board.entry result.total aboves loadedsizes)
        (locals marks.new movers.new origins.new result.tried result.prefix.kept result.prefix.low result.prefix.heaviest) result.tried }
    ensures peaked_2 { Peaked gains.new peaks.new board.entry.n board.entry.k }
{
    let x = usize::from(v) - 1;
    let at = s.tried;
    let made = at + 1;
    movers[at] = v;
    origins[at] = blocks[x];
    let total = shift(
        counts, visited, gains, blocks, loads, peaks, board, s.total, x, b,
    );
    spread(
        marks,
        board.bits,
        rows,
        limit,
        board.presentpins,
        board.firsts,
        board.presentsizes,
        board.m,
        x,
    );
    Steps {
        tried: made,
        prefix: keep(made, total, heaviest(loads, board.k), s.prefix),
        total,
    }
}

// A turn of the walk: makes the next move, and answers whether there was one. In the contract a turn without a move counts as the last one, `n`.
fn advance(
    counts: &mut [u16],
    visited: &mut [u16],
    gains: &mut [i32],
    index: &mut [u16],
    blocks: &mut [u16],
    loads: &mut [u64; 16],
    marks: &mut [u64; 48],
    peaks: &mut [i32; 1040],
    movers: &mut [u16; 1024],
    origins: &mut [u16; 1024],
    board: Board<'_>,
    rows: &[u64],
    limit: u16,
    ceilings: &[u64; 16],
    s: &mut Steps,
) -> bool
    requires turn_ok { TurnOk
        (lent_on counts.old visited.old gains.old blocks.old loads.old board s.old.total)
        (locals marks.old movers.old origins.old s.old.tried s.old.prefix.kept s.old.prefix.low s.old.prefix.heaviest) s.old.tried }
    requires peaked { Peaked gains.old peaks.old board.n board.k }
    requires n_in_bounds { 16 * board.n ≤ length index.old }
    requires rows_past { RowsPast rows.now board.presentpins.now board.firsts.now board.presentsizes.now limit board.m }
    ensures by_index { (aboves loadedsizes : List ℕ) → Turned
        (lent_on counts.old visited.old gains.old blocks.old loads.old board.entry s.old.total aboves loadedsizes)
        (locals marks.old movers.old origins.old s.old.tried s.old.prefix.kept s.old.prefix.low s.old.prefix.heaviest) ceilings.now s.old.tried
        (lent_on counts.new visited.new gains.new blocks.new loads.new board.entry s.new.total aboves loadedsizes)
        (locals marks.new movers.new origins.new s.new.tried s.new.prefix.kept s.new.prefix.low s.new.prefix.heaviest) (cond result s.new.tried board.entry.n) }
    ensures peaked_2 { Peaked gains.new peaks.new board.entry.n board.entry.k }
    ensures kept { Kept board.entry.n board.entry.k index.old index.new }
{
    match next_move(
        gains,
        index,
        blocks,
        board,
        ceilings,
        loads,
        marks,
        peaks,
        s.tried,
        s.prefix.kept,
    ) {
        None => false,
        Some(best) => {
            *s = make_move(
                counts,
                visited,
                gains,
                blocks,
                loads,
                marks,
                peaks,
                movers,
                origins,
                board,
                rows,
                limit,
                best.vertex,
                best.block,
                *s,
            );
            true
        }
    }
}

// Reverses the moves after the first `kept`, the last one first, and returns the metric.
fn rewind(
    counts: &mut [u16],
    visited: &mut [u16],
    gains: &mut [i32],
    blocks: &mut [u16],
    loads: &mut [u64; 16],
    board: Board<'_>,
    movers: &[u16; 1024],
    origins: &[u16; 1024],
    total: u32,
    tried: usize,
    kept: usize,
) -> u32
    requires { RewindOk
        (lent_on counts.old visited.old gains.old blocks.old loads.old board total)
        movers.now origins.now tried kept }
    ensures { (aboves loadedsizes : List ℕ) → Rewinds
        (lent_on counts.old visited.old gains.old blocks.old loads.old board.entry total aboves loadedsizes)
        movers.now origins.now tried kept
        (lent_on counts.new visited.new gains.new blocks.new loads.new board.entry result aboves loadedsizes) }
{
    let mut t = total;
    for j in (kept..tried).rev() {
        let x = usize::from(movers[j]) - 1;
        t = take_back(
            counts, visited, gains, blocks, loads, board, t, x, origins[j],
        );
    }
    t
}

// W,u,v. Vertices count from 0. A fixed vertex is marked in `fixedmarks` as if it had moved, so that it is passed over. Nets with more pins than
// `limit` have their pins in `rows`.
pub fn walk(
    counts: &mut [u16],
    visited: &mut [u16],
    gains: &mut [i32],
    index: &mut [u16],
    blocks: &mut [u16],
    loads: &mut [u64; 16],
    presentpins: &[u16],
    presentsizes: &[u16],
    bits: &[u64],
    weights: &[u32],
    netweights: &[u16],
    firsts: &[u16],
    rows: &[u64],
    limit: u16,
    ceilings: &[u64; 16],
    fixedmarks: [u64; 48],
    n: usize,
    m: usize,
    k: usize,
    total: u32,
    u: usize,
    v: usize,
) -> Walked
    requires walk_ok { WalkOk
        (lent counts.old visited.old gains.old blocks.old loads.old presentpins.now presentsizes.now bits.now weights.now netweights.now firsts.now n m k total)
        fixedmarks u v }
    requires n_in_bounds { 16 * n ≤ length index.old }
    requires rows_past { RowsPast rows.now presentpins.now firsts.now presentsizes.now limit m }
    ensures by_index { (aboves loadedsizes : List ℕ) → Walks
        (lent counts.old visited.old gains.old blocks.old loads.old presentpins.now presentsizes.now bits.now weights.now netweights.now firsts.now n m k total aboves loadedsizes)
        ceilings.now fixedmarks u v
        (lent counts.new visited.new gains.new blocks.new loads.new presentpins.now presentsizes.now bits.now weights.now netweights.now firsts.now n m k result.total aboves loadedsizes)
        result.tried result.kept }
    ensures kept { Kept n k index.old index.new }
{
    let board = Board {
        presentpins,
        presentsizes,
        bits,
        weights,
        netweights,
        firsts,
        n,
        m,
        k,
    };
    let mut marks = fixedmarks;
    mark_vertex(&mut marks, u);
    mark_vertex(&mut marks, v);
    let mut peaks = [0i32; 1040];
    survey(&mut peaks, gains, n, k);
    let mut movers = [0u16; 1024];
    let mut origins = [0u16; 1024];
    let mut s = Steps {
        tried: 0,
        prefix: Prefix {
            kept: 0,
            low: total,
            heaviest: heaviest(loads, k),
        },
        total,
    };
    // No for: a turn without a move ends the walk.
    'turns: while s.tried < n
        && advance(
            counts,
            visited,
            gains,
            index,
            blocks,
            loads,
            &mut marks,
            &mut peaks,
            &mut movers,
            &mut origins,
            board,
            rows,
            limit,
            ceilings,
            &mut s,
        )
    {}
    let t = rewind(
        counts,
        visited,
        gains,
        blocks,
        loads,
        board,
        &movers,
        &origins,
        s.total,
        s.tried,
        s.prefix.kept,
    );
    Walked {
        tried: s.tried,
        kept: s.prefix.kept,
        total: t,
    }
}
