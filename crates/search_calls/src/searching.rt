// The calls W and P: refused, or done, with the numbers of the answer.
ghost use Rattle.std.specs.Prelude.{ℕ, ◌*◌, ◌≤◌, List, length, MatchResult};
ghost use Rattle.refusal.specs.Number.{number_of};
ghost use Rattle.model.specs.Catalogue.{Hypergraph};
ghost use Rattle.model.specs.Machine.{call_w, call_p, says_w, says_p, says_no};
ghost use Rattle.model.specs.Lent.{Two, two, stack_of};
ghost use Rattle.guarantees.specs.Caps.{CeilingIs};
ghost use Rattle.index.specs.Indexed.{KeepsRight};
ghost use Rattle.fixed.specs.Starting.{FixedIs};
ghost use Rattle.search_moves.specs.Lent.{lent};
ghost use Rattle.edit_calls.specs.Called.{Called};
ghost use Rattle.search_calls.specs.Searching.{ReadyW};

use edit_calls::refusals::refuses_walk;
use incidence::numbers::narrow;
use index::rows::put_all_right;
use operations::pairs::Journal;
use polish::polishing::polish;
use refusal::Refusal;
use walk::walks::walk;

// What W leaves of the journal, and the numbers of its answer.
#[derive(Clone, Copy)]
pub struct WalkTurn {
    pub journal: Journal,
    pub tried: u32,
    pub kept: u32,
    pub total: u32,
}

// The same of P, which is never refused.
#[derive(Clone, Copy)]
pub struct PolishTurn {
    pub journal: Journal,
    pub moves: u32,
    pub total: u32,
}

// W,u,v. One walk marks each net at most once, and to make the net's row takes as long: so it has no rows, and no net has more pins than 65,535.
pub fn call_walk(
    counts: &mut [u16],
    visited: &mut [u16],
    gains: &mut [i32],
    index: &mut [u16],
    blocks: &mut [u16],
    loads: &mut [u64; 16],
    presentpins: &[u16],
    presentsizes: &[u16],
    bits: &[u64],
    weights: &[u32],
    netweights: &[u16],
    firsts: &[u16],
    ceilings: &[u64; 16],
    fixedmarks: [u64; 48],
    n: usize,
    m: usize,
    k: usize,
    total: u32,
    journal: Journal,
    u: usize,
    v: usize,
) -> Result<WalkTurn, Refusal>
    requires ready_w { ReadyW
        (lent counts.old visited.old gains.old blocks.old loads.old presentpins.now presentsizes.now bits.now weights.now netweights.now firsts.now n m k total)
        (two journal.vertices journal.blocks journal.len) fixedmarks }
    requires n_in_bounds { 16 * n ≤ length index.old }
    ensures by_index { (aboves loadedsizes : List ℕ) (S : Two) (h : Hypergraph) (ceiling : ℕ → ℕ) →
        let before = lent counts.old visited.old gains.old blocks.old loads.old presentpins.now presentsizes.now bits.now weights.now netweights.now firsts.now n m k total aboves loadedsizes in
        let after = λ (after : ℕ). lent counts.new visited.new gains.new blocks.new loads.new presentpins.now presentsizes.now bits.now weights.now netweights.now firsts.now n m k after aboves loadedsizes in
        let moves = two journal.vertices journal.blocks journal.len in
        CeilingIs ceilings.now h ceiling → FixedIs fixedmarks h (stack_of S.xs S.ys S.len) → MatchResult result
        (λ t. Called h ceiling before (after t.total) S S moves (two t.journal.vertices t.journal.blocks t.journal.len) (call_w u v) (says_w t.tried t.kept t.total))
        (λ e. Called h ceiling before (after total) S S moves moves (call_w u v) (says_no (number_of e))) }
    ensures keeps_right { KeepsRight gains.old blocks.old gains.new blocks.new n k index.old index.new }
{
    refuses_walk(blocks, n, u, v)?;
    let cleared = journal.clear();
    let no_rows = [0u64; 1];
    let w = walk(
        counts,
        visited,
        gains,
        index,
        blocks,
        loads,
        presentpins,
        presentsizes,
        bits,
        weights,
        netweights,
        firsts,
        &no_rows,
        65535,
        ceilings,
        fixedmarks,
        n,
        m,
        k,
        total,
        u - 1,
        v - 1,
    );
    put_all_right(index, gains, blocks, n, k);
    Ok(WalkTurn {
        journal: cleared,
        tried: u32::from(narrow(w.tried)),
        kept: u32::from(narrow(w.kept)),
        total: w.total,
    })
}

// P.
pub fn call_polish(
    counts: &mut [u16],
    visited: &mut [u16],
    gains: &mut [i32],
    index: &mut [u16],
    blocks: &mut [u16],
    loads: &mut [u64; 16],
    presentpins: &[u16],
    presentsizes: &[u16],
    bits: &[u64],
    weights: &[u32],
    netweights: &[u16],
    firsts: &[u16],
    ceilings: &[u64; 16],
    fixedmarks: [u64; 48],
    n: usize,
    m: usize,
    k: usize,
    total: u32,
    journal: Journal,
) -> PolishTurn
    requires ready_w { ReadyW
        (lent counts.old visited.old gains.old blocks.old loads.old presentpins.now presentsizes.now bits.now weights.now netweights.now firsts.now n m k total)
        (two journal.vertices journal.blocks journal.len) fixedmarks }
    requires n_in_bounds { 16 * n ≤ length index.old }
    ensures by_index { (aboves loadedsizes : List ℕ) (S : Two) (h : Hypergraph) (ceiling : ℕ → ℕ) → CeilingIs ceilings.now h ceiling → FixedIs fixedmarks h (stack_of S.xs S.ys S.len) → Called h ceiling
        (lent counts.old visited.old gains.old blocks.old loads.old presentpins.now presentsizes.now bits.now weights.now netweights.now firsts.now n m k total aboves loadedsizes)
        (lent counts.new visited.new gains.new blocks.new loads.new presentpins.now presentsizes.now bits.now weights.now netweights.now firsts.now n m k result.total aboves loadedsizes)
        S S (two journal.vertices journal.blocks journal.len) (two result.journal.vertices result.journal.blocks result.journal.len) call_p (says_p result.moves result.total) }
    ensures keeps_right { KeepsRight gains.old blocks.old gains.new blocks.new n k index.old index.new }
{
    let cleared = journal.clear();
    let p = polish(
        counts,
        visited,
        gains,
        index,
        blocks,
        loads,
        presentpins,
        presentsizes,
        bits,
        weights,
        netweights,
        firsts,
        ceilings,
        fixedmarks,
        n,
        m,
        k,
        total,
    );
    put_all_right(index, gains, blocks, n, k);
    PolishTurn {
        journal: cleared,
        moves: p.moves,
        total: p.total,
    }
}
