// One call of one catalogue beside the others.
ghost use Rattle.std.specs.Prelude.{ℕ, ◌*◌, ◌≤◌, [], length, MatchResult};
ghost use Rattle.refusal.specs.Number.{number_of};
ghost use Rattle.model.specs.Catalogue.{Hypergraph};
ghost use Rattle.model.specs.Machine.{says_no};
ghost use Rattle.model.specs.Lent.{two};
ghost use Rattle.index.specs.Indexed.{KeepsRight};
ghost use Rattle.fixed.specs.Starting.{FixedIs};
ghost use Rattle.operations.specs.Tables.{tables};
ghost use Rattle.search_calls.specs.Cycling.{AverageIs, ReadyA};
ghost use Rattle.report.specs.Meaning.{answer_of};
ghost use Rattle.any_call.specs.Kinds.{any_call};
ghost use Rattle.model.specs.Hall.{Beside};
ghost use Rattle.beside.specs.Called.{RoomsAre, BesideCalled};

use crate::limits::{refuses_back, relay};
use any_call::performing::{Turn, perform};
use operations::pairs::{Journal, Stack};
use operations::size::Size;
use refusal::Refusal;

// Any call: its letter's byte and its two numbers. `ceilings` is what both limits leave in each session, `rooms` what the hall's leaves, `cap` the cap.
pub fn perform_beside(
    counts: &mut [u16],
    visited: &mut [u16],
    gains: &mut [i32],
    index: &mut [u16],
    presentpins: &mut [u16],
    presentsizes: &mut [u16],
    bits: &mut [u64],
    blocks: &mut [u16],
    weights: &mut [u32],
    aboves: &mut [u16],
    loads: &mut [u64; 16],
    netweights: &[u16],
    firsts: &[u16],
    loadedsizes: &[u16],
    ceilings: &[u64; 16],
    rooms: &[u64; 16],
    cap: u64,
    fixedmarks: [u64; 48],
    size: Size,
    total: u32,
    stack: Stack,
    journal: Journal,
    letter: u32,
    x: usize,
    y: usize,
) -> Result<Turn, Refusal>
    requires ready_a { ReadyA
        (tables counts.old visited.old gains.old presentpins.old presentsizes.old bits.old blocks.old weights.old aboves.old loads.old netweights.now firsts.now loadedsizes.now size.n size.m size.k total)
        (two stack.into stack.gone stack.len) (two journal.vertices journal.blocks journal.len) size.average fixedmarks }
    requires n_in_bounds { 16 * size.n ≤ length index.old }
    ensures beside_called { (o : Beside) (h : Hypergraph) →
        let before = tables counts.old visited.old gains.old presentpins.old presentsizes.old bits.old blocks.old weights.old aboves.old loads.old netweights.now firsts.now loadedsizes.now size.n size.m size.k total in
        let after = λ (after : ℕ). tables counts.new visited.new gains.new presentpins.new presentsizes.new bits.new blocks.new weights.new aboves.new loads.new netweights.now firsts.now loadedsizes.now size.n size.m size.k after in
        let joins = two stack.into stack.gone stack.len in
        let moves = two journal.vertices journal.blocks journal.len in
        AverageIs size.average h → RoomsAre ceilings.now rooms.now cap o h → FixedIs fixedmarks h [] → MatchResult result
        (λ t. BesideCalled o h before (after t.total) joins (two t.stack.into t.stack.gone t.stack.len) moves (two t.journal.vertices t.journal.blocks t.journal.len) (any_call letter x y) (answer_of t.answer))
        (λ e. BesideCalled o h before (after total) joins joins moves moves (any_call letter x y) (says_no (number_of e))) }
    ensures keeps_right { KeepsRight gains.old blocks.old gains.new blocks.new size.n size.k index.old index.new }
{
    refuses_back(loads, weights, rooms, journal, letter)?;
    match perform(
        counts,
        visited,
        gains,
        index,
        presentpins,
        presentsizes,
        bits,
        blocks,
        weights,
        aboves,
        loads,
        netweights,
        firsts,
        loadedsizes,
        ceilings,
        fixedmarks,
        size,
        total,
        stack,
        journal,
        letter,
        x,
        y,
    ) {
        Ok(turn) => Ok(turn),
        Err(refusal) => Err(relay(loads, weights, cap, size.n, size.k, letter, x, y, refusal)),
    }
}
