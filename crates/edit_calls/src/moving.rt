// The calls M and B: refused, or done, with the numbers of the answer. A move can change only rows of the index near
// the moved vertex, so that these are made right with it, and no other row is looked at. Rests on operations, levels, near_rows
// and the refusals.
ghost use Rattle.std.specs.Prelude.{ℕ, ◌*◌, ◌≤◌, ◌≡◌, List, length, MatchResult};
ghost use Rattle.refusal.specs.Number.{number_of};
ghost use Rattle.model.specs.Catalogue.{Hypergraph};
ghost use Rattle.model.specs.Machine.{call_m, call_b, says_m, says_b, says_no};
ghost use Rattle.model.specs.Lent.{Two, two, stack_of};
ghost use Rattle.guarantees.specs.Caps.{CeilingIs};
ghost use Rattle.fixed.specs.Starting.{FixedIs};
ghost use Rattle.operations.specs.Tables.{tables};
ghost use Rattle.index.specs.Indexed.{KeepsRight};
ghost use Rattle.edit_calls.specs.Called.{ReadyM, Called};

use crate::refusals::refuses_move;
use connectivity::halves::Halves;
use incidence::numbers::narrow;
use levels::halves::halves;
use near_rows::near::put_near_right;
use operations::moves::{back, go};
use operations::pairs::Journal;
use refusal::Refusal;

// What M leaves of the journal, and the numbers of its answer.
#[derive(Clone, Copy)]
pub struct MoveTurn {
    pub journal: Journal,
    pub halves: Halves,
    pub total: u32,
}

// The same of B.
#[derive(Clone, Copy)]
pub struct BackTurn {
    pub journal: Journal,
    pub vertex: u32,
    pub block: u32,
    pub total: u32,
}

// M,u,t.
pub fn call_move(
    counts: &mut [u16],
    visited: &mut [u16],
    gains: &mut [i32],
    index: &mut [u16],
    blocks: &mut [u16],
    loads: &mut [u64; 16],
    presentpins: &[u16],
    presentsizes: &[u16],
    bits: &[u64],
    weights: &[u32],
    netweights: &[u16],
    firsts: &[u16],
    ceilings: &[u64; 16],
    fixedmarks: [u64; 48],
    n: usize,
    m: usize,
    k: usize,
    total: u32,
    journal: Journal,
    u: usize,
    t: usize,
) -> Result<MoveTurn, Refusal>
    requires fixedmarks_len { (length fixedmarks ≡ 48) × ReadyM
        (λ aboves loadedsizes. tables counts.old visited.old gains.old presentpins.now presentsizes.now bits.now blocks.old weights.now aboves loads.old netweights.now firsts.now loadedsizes n m k total)
        (two journal.vertices journal.blocks journal.len) }
    requires n_in_bounds { 16 * n ≤ length index.old }
    ensures by_index { (aboves loadedsizes : List ℕ) (S : Two) (h : Hypergraph) (ceiling : ℕ → ℕ) →
        let before = tables counts.old visited.old gains.old presentpins.now presentsizes.now bits.now blocks.old weights.now aboves loads.old netweights.now firsts.now loadedsizes n m k total in
        let after = λ (after : ℕ). tables counts.new visited.new gains.new presentpins.now presentsizes.now bits.now blocks.new weights.now aboves loads.new netweights.now firsts.now loadedsizes n m k after in
        let moves = two journal.vertices journal.blocks journal.len in
        CeilingIs ceilings.now h ceiling → FixedIs fixedmarks h (stack_of S.xs S.ys S.len) → MatchResult result
        (λ d. Called h ceiling before (after d.total) S S moves (two d.journal.vertices d.journal.blocks d.journal.len) (call_m u t) (says_m d.halves.freed d.halves.drawn d.total))
        (λ e. Called h ceiling before (after total) S S moves moves (call_m u t) (says_no (number_of e))) }
    ensures keeps_right { KeepsRight gains.old blocks.old gains.new blocks.new n k index.old index.new }
{
    refuses_move(blocks, loads, ceilings, &fixedmarks, weights, n, k, u, t)?;
    let worth = halves(counts, bits, blocks, netweights, m, u - 1, t);
    let left = blocks[u - 1];
    let next = journal.push(narrow(u), left);
    let to = narrow(t);
    let after = go(
        counts,
        visited,
        gains,
        blocks,
        loads,
        presentpins,
        presentsizes,
        bits,
        weights,
        netweights,
        firsts,
        n,
        m,
        k,
        total,
        u - 1,
        to,
    );
    put_near_right(
        index,
        gains,
        counts,
        blocks,
        bits,
        presentpins,
        firsts,
        presentsizes,
        n,
        m,
        k,
        u - 1,
        left,
        to,
    );
    Ok(MoveTurn {
        journal: next,
        halves: worth,
        total: after,
    })
}

// B.
pub fn call_back(
    counts: &mut [u16],
    visited: &mut [u16],
    gains: &mut [i32],
    index: &mut [u16],
    blocks: &mut [u16],
    loads: &mut [u64; 16],
    presentpins: &[u16],
    presentsizes: &[u16],
    bits: &[u64],
    weights: &[u32],
    netweights: &[u16],
    firsts: &[u16],
    n: usize,
    m: usize,
    k: usize,
    total: u32,
    journal: Journal,
) -> Result<BackTurn, Refusal>
    requires ready_m { ReadyM
        (λ aboves loadedsizes. tables counts.old visited.old gains.old presentpins.now presentsizes.now bits.now blocks.old weights.now aboves loads.old netweights.now firsts.now loadedsizes n m k total)
        (two journal.vertices journal.blocks journal.len) }
    requires n_in_bounds { 16 * n ≤ length index.old }
    ensures by_index { (aboves loadedsizes : List ℕ) (S : Two) (h : Hypergraph) (ceiling : ℕ → ℕ) →
        let before = tables counts.old visited.old gains.old presentpins.now presentsizes.now bits.now blocks.old weights.now aboves loads.old netweights.now firsts.now loadedsizes n m k total in
        let after = λ (after : ℕ). tables counts.new visited.new gains.new presentpins.now presentsizes.now bits.now blocks.new weights.now aboves loads.new netweights.now firsts.now loadedsizes n m k after in
        let moves = two journal.vertices journal.blocks journal.len in
        MatchResult result
        (λ t. Called h ceiling before (after t.total) S S moves (two t.journal.vertices t.journal.blocks t.journal.len) call_b (says_b t.vertex t.block t.total))
        (λ e. Called h ceiling before (after total) S S moves moves call_b (says_no (number_of e))) }
    ensures keeps_right { KeepsRight gains.old blocks.old gains.new blocks.new n k index.old index.new }
{
    let at = journal.len;
    if at == 0 {
        return Err(Refusal::NothingToUndo);
    }
    let v = journal.vertices[at - 1];
    let b = journal.blocks[at - 1];
    let x = usize::from(v);
    let left = blocks[x - 1];
    let next = journal.pop();
    let after = back(
        counts,
        visited,
        gains,
        blocks,
        loads,
        presentpins,
        presentsizes,
        bits,
        weights,
        netweights,
        firsts,
        n,
        m,
        k,
        total,
        x - 1,
        b,
    );
    put_near_right(
        index,
        gains,
        counts,
        blocks,
        bits,
        presentpins,
        firsts,
        presentsizes,
        n,
        m,
        k,
        x - 1,
        left,
        b,
    );
    Ok(BackTurn {
        journal: next,
        vertex: u32::from(v),
        block: u32::from(b),
        total: after,
    })
}
