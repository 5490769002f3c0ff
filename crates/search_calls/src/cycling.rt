// The call A: refused while a contraction stands, or done, with the numbers of the answer.
ghost use Rattle.std.specs.Prelude.{ℕ, ◌*◌, ◌≤◌, [], length, MatchResult};
ghost use Rattle.refusal.specs.Number.{number_of};
ghost use Rattle.model.specs.Catalogue.{Hypergraph};
ghost use Rattle.model.specs.Machine.{call_a, says_a, says_no};
ghost use Rattle.model.specs.Lent.{two};
ghost use Rattle.guarantees.specs.Caps.{CeilingIs};
ghost use Rattle.index.specs.Indexed.{KeepsRight};
ghost use Rattle.fixed.specs.Starting.{FixedIs};
ghost use Rattle.operations.specs.Tables.{tables};
ghost use Rattle.edit_calls.specs.Called.{Called};
ghost use Rattle.search_calls.specs.Cycling.{AverageIs, ReadyA};

use cycle::whole::run;
use index::rows::put_all_right;
use operations::pairs::{Journal, Stack};
use operations::size::Size;
use refusal::Refusal;

// What A leaves of the journal, and the numbers of its answer; the stack stays.
#[derive(Clone, Copy)]
pub struct AllTurn {
    pub journal: Journal,
    pub joins: u32,
    pub tried: u32,
    pub kept: u32,
    pub moves: u32,
    pub total: u32,
}

// A.
pub fn call_all(
    counts: &mut [u16],
    visited: &mut [u16],
    gains: &mut [i32],
    index: &mut [u16],
    presentpins: &mut [u16],
    presentsizes: &mut [u16],
    bits: &mut [u64],
    blocks: &mut [u16],
    weights: &mut [u32],
    aboves: &mut [u16],
    loads: &mut [u64; 16],
    netweights: &[u16],
    firsts: &[u16],
    loadedsizes: &[u16],
    ceilings: &[u64; 16],
    fixedmarks: [u64; 48],
    size: Size,
    total: u32,
    stack: Stack,
    journal: Journal,
) -> Result<AllTurn, Refusal>
    requires ready_a { ReadyA
        (tables counts.old visited.old gains.old presentpins.old presentsizes.old bits.old blocks.old weights.old aboves.old loads.old netweights.now firsts.now loadedsizes.now size.n size.m size.k total)
        (two stack.into stack.gone stack.len) (two journal.vertices journal.blocks journal.len) size.average fixedmarks }
    requires n_in_bounds { 16 * size.n ≤ length index.old }
    ensures called { (h : Hypergraph) (ceiling : ℕ → ℕ) →
        let before = tables counts.old visited.old gains.old presentpins.old presentsizes.old bits.old blocks.old weights.old aboves.old loads.old netweights.now firsts.now loadedsizes.now size.n size.m size.k total in
        let after = λ (after : ℕ). tables counts.new visited.new gains.new presentpins.new presentsizes.new bits.new blocks.new weights.new aboves.new loads.new netweights.now firsts.now loadedsizes.now size.n size.m size.k after in
        let joins = two stack.into stack.gone stack.len in
        let moves = two journal.vertices journal.blocks journal.len in
        AverageIs size.average h → CeilingIs ceilings.now h ceiling → FixedIs fixedmarks h [] → MatchResult result
        (λ t. Called h ceiling before (after t.total) joins joins moves (two t.journal.vertices t.journal.blocks t.journal.len) call_a (says_a t.joins t.tried t.kept t.moves t.total))
        (λ e. Called h ceiling before (after total) joins joins moves moves call_a (says_no (number_of e))) }
    ensures keeps_right { KeepsRight gains.old blocks.old gains.new blocks.new size.n size.k index.old index.new }
{
    if stack.len != 0 {
        return Err(Refusal::ContractionStands);
    }
    let cleared = journal.clear();
    let d = run(
        counts,
        visited,
        gains,
        index,
        presentpins,
        presentsizes,
        bits,
        blocks,
        weights,
        aboves,
        loads,
        netweights,
        firsts,
        loadedsizes,
        ceilings,
        fixedmarks,
        size,
        total,
    );
    put_all_right(index, gains, blocks, size.n, size.k);
    Ok(AllTurn {
        journal: cleared,
        joins: d.joins,
        tried: d.tried,
        kept: d.kept,
        moves: d.moves,
        total: d.total,
    })
}
