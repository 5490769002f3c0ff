// The calls J and S: refused, or done, with the numbers of the answer.
ghost use Rattle.std.specs.Prelude.{ℕ, ◌*◌, ◌≤◌, ◌<◌, List, length, MatchResult};
ghost use Rattle.refusal.specs.Number.{number_of};
ghost use Rattle.model.specs.Catalogue.{Hypergraph};
ghost use Rattle.model.specs.Machine.{call_j, call_s, says_j, says_s, says_no};
ghost use Rattle.model.specs.Lent.{two};
ghost use Rattle.index.specs.Indexed.{TablesOk, KeepsRight};
ghost use Rattle.operations.specs.Tables.{tables};
ghost use Rattle.edit_calls.specs.Called.{ReadyJ, ReadyS, Called};
ghost use Rattle.edit_calls.specs.Rows.{TwoRight};

use crate::refusals::refuses_join;
use incidence::numbers::narrow;
use index::rows::put_right;
use operations::joins::{join, split};
use operations::pairs::{Journal, Stack};
use refusal::Refusal;

// What J leaves of the stack and the journal, and the number of its answer.
#[derive(Clone, Copy)]
pub struct JoinTurn {
    pub stack: Stack,
    pub journal: Journal,
    pub weight: u32,
}

// The same of S.
#[derive(Clone, Copy)]
pub struct SplitTurn {
    pub stack: Stack,
    pub journal: Journal,
    pub into: u32,
    pub gone: u32,
}

// Makes the rows of the vertices `u` and `v` right, counted from 0: a contraction and its undo change no other row. Only the contract names `n`: the
// rows in use.
fn put_two_right(
    index: &mut [u16],
    gains: &[i32],
    blocks: &[u16],
    n: usize,
    k: usize,
    u: usize,
    v: usize,
)
    requires { TablesOk (length index.old) (length gains.now) blocks.now n k × (u < n) × (v < n) }
    ensures { TwoRight gains.now blocks.now n k u v index.old index.new }
{
    put_right(index, gains, blocks, u, k);
    put_right(index, gains, blocks, v, k);
}

// J,u,v.
pub fn call_join(
    counts: &mut [u16],
    visited: &mut [u16],
    gains: &mut [i32],
    index: &mut [u16],
    presentpins: &mut [u16],
    presentsizes: &mut [u16],
    bits: &mut [u64],
    blocks: &mut [u16],
    weights: &mut [u32],
    aboves: &mut [u16],
    netweights: &[u16],
    firsts: &[u16],
    n: usize,
    m: usize,
    k: usize,
    total: u32,
    stack: Stack,
    journal: Journal,
    u: usize,
    v: usize,
) -> Result<JoinTurn, Refusal>
    requires ready_j { ReadyJ
        (λ loads loadedsizes. tables counts.old visited.old gains.old presentpins.old presentsizes.old bits.old blocks.old weights.old aboves.old loads netweights.now firsts.now loadedsizes n m k total)
        (two stack.into stack.gone stack.len) (two journal.vertices journal.blocks journal.len) }
    requires n_in_bounds { 16 * n ≤ length index.old }
    ensures by_index { (loads loadedsizes : List ℕ) (h : Hypergraph) (ceiling : ℕ → ℕ) →
        let before = tables counts.old visited.old gains.old presentpins.old presentsizes.old bits.old blocks.old weights.old aboves.old loads netweights.now firsts.now loadedsizes n m k total in
        let after = tables counts.new visited.new gains.new presentpins.new presentsizes.new bits.new blocks.new weights.new aboves.new loads netweights.now firsts.now loadedsizes n m k total in
        let joins = two stack.into stack.gone stack.len in
        let moves = two journal.vertices journal.blocks journal.len in
        MatchResult result
        (λ t. Called h ceiling before after joins (two t.stack.into t.stack.gone t.stack.len) moves (two t.journal.vertices t.journal.blocks t.journal.len) (call_j u v) (says_j t.weight))
        (λ e. Called h ceiling before after joins joins moves moves (call_j u v) (says_no (number_of e))) }
    ensures keeps_right { KeepsRight gains.old blocks.old gains.new blocks.new n k index.old index.new }
{
    refuses_join(blocks, n, u, v)?;
    let next = stack.push(narrow(u), narrow(v));
    let cleared = journal.clear();
    join(
        counts,
        visited,
        gains,
        presentpins,
        presentsizes,
        bits,
        blocks,
        weights,
        aboves,
        netweights,
        firsts,
        n,
        m,
        k,
        total,
        u - 1,
        v - 1,
    );
    put_two_right(index, gains, blocks, n, k, u - 1, v - 1);
    let after = weights[u - 1];
    Ok(JoinTurn {
        stack: next,
        journal: cleared,
        weight: after,
    })
}

// S.
pub fn call_split(
    counts: &mut [u16],
    visited: &mut [u16],
    gains: &mut [i32],
    index: &mut [u16],
    presentpins: &mut [u16],
    presentsizes: &mut [u16],
    bits: &mut [u64],
    blocks: &mut [u16],
    weights: &mut [u32],
    aboves: &mut [u16],
    netweights: &[u16],
    firsts: &[u16],
    loadedsizes: &[u16],
    n: usize,
    m: usize,
    k: usize,
    total: u32,
    stack: Stack,
    journal: Journal,
) -> Result<SplitTurn, Refusal>
    requires ready_s { ReadyS
        (λ loads. tables counts.old visited.old gains.old presentpins.old presentsizes.old bits.old blocks.old weights.old aboves.old loads netweights.now firsts.now loadedsizes.now n m k total)
        (two stack.into stack.gone stack.len) (two journal.vertices journal.blocks journal.len) }
    requires n_in_bounds { 16 * n ≤ length index.old }
    ensures by_index { (loads : List ℕ) (h : Hypergraph) (ceiling : ℕ → ℕ) →
        let before = tables counts.old visited.old gains.old presentpins.old presentsizes.old bits.old blocks.old weights.old aboves.old loads netweights.now firsts.now loadedsizes.now n m k total in
        let after = tables counts.new visited.new gains.new presentpins.new presentsizes.new bits.new blocks.new weights.new aboves.new loads netweights.now firsts.now loadedsizes.now n m k total in
        let joins = two stack.into stack.gone stack.len in
        let moves = two journal.vertices journal.blocks journal.len in
        MatchResult result
        (λ t. Called h ceiling before after joins (two t.stack.into t.stack.gone t.stack.len) moves (two t.journal.vertices t.journal.blocks t.journal.len) call_s (says_s t.into t.gone))
        (λ e. Called h ceiling before after joins joins moves moves call_s (says_no (number_of e))) }
    ensures keeps_right { KeepsRight gains.old blocks.old gains.new blocks.new n k index.old index.new }
{
    let at = stack.len;
    if at == 0 {
        return Err(Refusal::NothingToUndo);
    }
    let into = stack.into[at - 1];
    let gone = stack.gone[at - 1];
    let u = usize::from(into) - 1;
    let v = usize::from(gone) - 1;
    let next = stack.pop();
    let cleared = journal.clear();
    split(
        counts,
        visited,
        gains,
        presentpins,
        presentsizes,
        bits,
        blocks,
        weights,
        aboves,
        netweights,
        firsts,
        loadedsizes,
        n,
        m,
        k,
        total,
        u,
        v,
    );
    put_two_right(index, gains, blocks, n, k, u, v);
    Ok(SplitTurn {
        stack: next,
        journal: cleared,
        into: u32::from(into),
        gone: u32::from(gone),
    })
}
