// One call of any kind: what it leaves of the stack, the journal and the metric, and its answer.
ghost use Rattle.std.specs.Prelude.{ℕ, ◌*◌, ◌≤◌, List, [], length, MatchResult};
ghost use Rattle.refusal.specs.Number.{number_of};
ghost use Rattle.model.specs.Catalogue.{Hypergraph};
ghost use Rattle.model.specs.Machine.{says_no};
ghost use Rattle.model.specs.Lent.{Two, two, stack_of};
ghost use Rattle.guarantees.specs.Caps.{CeilingIs};
ghost use Rattle.index.specs.Indexed.{KeepsRight};
ghost use Rattle.fixed.specs.Starting.{FixedIs};
ghost use Rattle.operations.specs.Tables.{tables};
ghost use Rattle.search_moves.specs.Lent.{lent};
ghost use Rattle.edit_calls.specs.Called.{ReadyS, Called};
ghost use Rattle.search_calls.specs.Searching.{ReadyW};
ghost use Rattle.search_calls.specs.Cycling.{AverageIs, ReadyA};
ghost use Rattle.report.specs.Meaning.{answer_of};
ghost use Rattle.any_call.specs.Kinds.{contracting_call, moving_call, any_call};

use crate::kinds::{is_contracting, is_moving};
use edit_calls::contracting::{call_join, call_split};
use edit_calls::moving::{call_back, call_move};
use fixed::starting::fixed_in;
use operations::pairs::{Journal, Stack};
use operations::size::Size;
use refusal::Refusal;
use report::answers::Answer;
use search_calls::cycling::call_all;
use search_calls::searching::{call_polish, call_walk};

// What a call that is not refused leaves of the stack, the journal and the metric, and its answer.
#[derive(Clone, Copy)]
pub struct Turn {
    pub stack: Stack,
    pub journal: Journal,
    pub total: u32,
    pub answer: Answer,
}

// The same of a call that has no use for the stack.
#[derive(Clone, Copy)]
pub struct MovingTurn {
    pub journal: Journal,
    pub total: u32,
    pub answer: Answer,
}

// M, B, W, or P.
fn moving(
    counts: &mut [u16],
    visited: &mut [u16],
    gains: &mut [i32],
    index: &mut [u16],
    blocks: &mut [u16],
    loads: &mut [u64; 16],
    presentpins: &[u16],
    presentsizes: &[u16],
    bits: &[u64],
    weights: &[u32],
    netweights: &[u16],
    firsts: &[u16],
    ceilings: &[u64; 16],
    fixedmarks: [u64; 48],
    n: usize,
    m: usize,
    k: usize,
    total: u32,
    journal: Journal,
    letter: u32,
    x: usize,
    y: usize,
) -> Result<MovingTurn, Refusal>
    requires ready_w { ReadyW
        (lent counts.old visited.old gains.old blocks.old loads.old presentpins.now presentsizes.now bits.now weights.now netweights.now firsts.now n m k total)
        (two journal.vertices journal.blocks journal.len) fixedmarks }
    requires n_in_bounds { 16 * n ≤ length index.old }
    ensures by_index { (aboves loadedsizes : List ℕ) (S : Two) (h : Hypergraph) (ceiling : ℕ → ℕ) →
        let before = lent counts.old visited.old gains.old blocks.old loads.old presentpins.now presentsizes.now bits.now weights.now netweights.now firsts.now n m k total aboves loadedsizes in
        let after = λ (after : ℕ). lent counts.new visited.new gains.new blocks.new loads.new presentpins.now presentsizes.now bits.now weights.now netweights.now firsts.now n m k after aboves loadedsizes in
        let moves = two journal.vertices journal.blocks journal.len in
        CeilingIs ceilings.now h ceiling → FixedIs fixedmarks h (stack_of S.xs S.ys S.len) → MatchResult result
        (λ t. Called h ceiling before (after t.total) S S moves (two t.journal.vertices t.journal.blocks t.journal.len) (moving_call letter x y) (answer_of t.answer))
        (λ e. Called h ceiling before (after total) S S moves moves (moving_call letter x y) (says_no (number_of e))) }
    ensures keeps_right { KeepsRight gains.old blocks.old gains.new blocks.new n k index.old index.new }
{
    if letter == text::letters::M {
        let moved = call_move(
            counts,
            visited,
            gains,
            index,
            blocks,
            loads,
            presentpins,
            presentsizes,
            bits,
            weights,
            netweights,
            firsts,
            ceilings,
            fixedmarks,
            n,
            m,
            k,
            total,
            journal,
            x,
            y,
        )?;
        return Ok(MovingTurn {
            journal: moved.journal,
            total: moved.total,
            answer: Answer::Moved {
                freed: moved.halves.freed,
                drawn: moved.halves.drawn,
                total: moved.total,
            },
        });
    }
    if letter == text::letters::B {
        let reversed = call_back(
            counts,
            visited,
            gains,
            index,
            blocks,
            loads,
            presentpins,
            presentsizes,
            bits,
            weights,
            netweights,
            firsts,
            n,
            m,
            k,
            total,
            journal,
        )?;
        return Ok(MovingTurn {
            journal: reversed.journal,
            total: reversed.total,
            answer: Answer::Reversed {
                vertex: reversed.vertex,
                block: reversed.block,
                total: reversed.total,
            },
        });
    }
    if letter == text::letters::W {
        let walked = call_walk(
            counts,
            visited,
            gains,
            index,
            blocks,
            loads,
            presentpins,
            presentsizes,
            bits,
            weights,
            netweights,
            firsts,
            ceilings,
            fixedmarks,
            n,
            m,
            k,
            total,
            journal,
            x,
            y,
        )?;
        return Ok(MovingTurn {
            journal: walked.journal,
            total: walked.total,
            answer: Answer::Walked {
                tried: walked.tried,
                kept: walked.kept,
                total: walked.total,
            },
        });
    }
    let polished = call_polish(
        counts,
        visited,
        gains,
        index,
        blocks,
        loads,
        presentpins,
        presentsizes,
        bits,
        weights,
        netweights,
        firsts,
        ceilings,
        fixedmarks,
        n,
        m,
        k,
        total,
        journal,
    );
    Ok(MovingTurn {
        journal: polished.journal,
        total: polished.total,
        answer: Answer::Polished {
            moves: polished.moves,
            total: polished.total,
        },
    })
}

// J, or S.
fn contracting(
    counts: &mut [u16],
    visited: &mut [u16],
    gains: &mut [i32],
    index: &mut [u16],
    presentpins: &mut [u16],
    presentsizes: &mut [u16],
    bits: &mut [u64],
    blocks: &mut [u16],
    weights: &mut [u32],
    aboves: &mut [u16],
    netweights: &[u16],
    firsts: &[u16],
    loadedsizes: &[u16],
    n: usize,
    m: usize,
    k: usize,
    total: u32,
    stack: Stack,
    journal: Journal,
    letter: u32,
    x: usize,
    y: usize,
) -> Result<Turn, Refusal>
    requires ready_s { ReadyS
        (λ loads. tables counts.old visited.old gains.old presentpins.old presentsizes.old bits.old blocks.old weights.old aboves.old loads netweights.now firsts.now loadedsizes.now n m k total)
        (two stack.into stack.gone stack.len) (two journal.vertices journal.blocks journal.len) }
    requires n_in_bounds { 16 * n ≤ length index.old }
    ensures by_index { (loads : List ℕ) (h : Hypergraph) (ceiling : ℕ → ℕ) →
        let before = tables counts.old visited.old gains.old presentpins.old presentsizes.old bits.old blocks.old weights.old aboves.old loads netweights.now firsts.now loadedsizes.now n m k total in
        let after = λ (after : ℕ). tables counts.new visited.new gains.new presentpins.new presentsizes.new bits.new blocks.new weights.new aboves.new loads netweights.now firsts.now loadedsizes.now n m k after in
        let joins = two stack.into stack.gone stack.len in
        let moves = two journal.vertices journal.blocks journal.len in
        MatchResult result
        (λ t. Called h ceiling before (after t.total) joins (two t.stack.into t.stack.gone t.stack.len) moves (two t.journal.vertices t.journal.blocks t.journal.len) (contracting_call letter x y) (answer_of t.answer))
        (λ e. Called h ceiling before (after total) joins joins moves moves (contracting_call letter x y) (says_no (number_of e))) }
    ensures keeps_right { KeepsRight gains.old blocks.old gains.new blocks.new n k index.old index.new }
{
    if letter == text::letters::J {
        let joined = call_join(
            counts,
            visited,
            gains,
            index,
            presentpins,
            presentsizes,
            bits,
            blocks,
            weights,
            aboves,
            netweights,
            firsts,
            n,
            m,
            k,
            total,
            stack,
            journal,
            x,
            y,
        )?;
        return Ok(Turn {
            stack: joined.stack,
            journal: joined.journal,
            total,
            answer: Answer::Contracted {
                weight: joined.weight,
            },
        });
    }
    let parted = call_split(
        counts,
        visited,
        gains,
        index,
        presentpins,
        presentsizes,
        bits,
        blocks,
        weights,
        aboves,
        netweights,
        firsts,
        loadedsizes,
        n,
        m,
        k,
        total,
        stack,
        journal,
    )?;
    Ok(Turn {
        stack: parted.stack,
        journal: parted.journal,
        total,
        answer: Answer::Uncontracted {
            into: parted.into,
            gone: parted.gone,
        },
    })
}

// Any call: its letter's byte and its two numbers.
pub fn perform(
    counts: &mut [u16],
    visited: &mut [u16],
    gains: &mut [i32],
    index: &mut [u16],
    presentpins: &mut [u16],
    presentsizes: &mut [u16],
    bits: &mut [u64],
    blocks: &mut [u16],
    weights: &mut [u32],
    aboves: &mut [u16],
    loads: &mut [u64; 16],
    netweights: &[u16],
    firsts: &[u16],
    loadedsizes: &[u16],
    ceilings: &[u64; 16],
    fixedmarks: [u64; 48],
    size: Size,
    total: u32,
    stack: Stack,
    journal: Journal,
    letter: u32,
    x: usize,
    y: usize,
) -> Result<Turn, Refusal>
    requires ready_a { ReadyA
        (tables counts.old visited.old gains.old presentpins.old presentsizes.old bits.old blocks.old weights.old aboves.old loads.old netweights.now firsts.now loadedsizes.now size.n size.m size.k total)
        (two stack.into stack.gone stack.len) (two journal.vertices journal.blocks journal.len) size.average fixedmarks }
    requires n_in_bounds { 16 * size.n ≤ length index.old }
    ensures called { (h : Hypergraph) (ceiling : ℕ → ℕ) →
        let before = tables counts.old visited.old gains.old presentpins.old presentsizes.old bits.old blocks.old weights.old aboves.old loads.old netweights.now firsts.now loadedsizes.now size.n size.m size.k total in
        let after = λ (after : ℕ). tables counts.new visited.new gains.new presentpins.new presentsizes.new bits.new blocks.new weights.new aboves.new loads.new netweights.now firsts.now loadedsizes.now size.n size.m size.k after in
        let joins = two stack.into stack.gone stack.len in
        let moves = two journal.vertices journal.blocks journal.len in
        AverageIs size.average h → CeilingIs ceilings.now h ceiling → FixedIs fixedmarks h [] → MatchResult result
        (λ t. Called h ceiling before (after t.total) joins (two t.stack.into t.stack.gone t.stack.len) moves (two t.journal.vertices t.journal.blocks t.journal.len) (any_call letter x y) (answer_of t.answer))
        (λ e. Called h ceiling before (after total) joins joins moves moves (any_call letter x y) (says_no (number_of e))) }
    ensures keeps_right { KeepsRight gains.old blocks.old gains.new blocks.new size.n size.k index.old index.new }
{
    if is_contracting(letter) {
        return contracting(
            counts,
            visited,
            gains,
            index,
            presentpins,
            presentsizes,
            bits,
            blocks,
            weights,
            aboves,
            netweights,
            firsts,
            loadedsizes,
            size.n,
            size.m,
            size.k,
            total,
            stack,
            journal,
            letter,
            x,
            y,
        );
    }
    if is_moving(letter) {
        let into = stack.into;
        let gone = stack.gone;
        let marks = fixed_in(fixedmarks, &into, &gone, stack.len);
        let moved = moving(
            counts,
            visited,
            gains,
            index,
            blocks,
            loads,
            presentpins,
            presentsizes,
            bits,
            weights,
            netweights,
            firsts,
            ceilings,
            marks,
            size.n,
            size.m,
            size.k,
            total,
            journal,
            letter,
            x,
            y,
        )?;
        return Ok(Turn {
            stack,
            journal: moved.journal,
            total: moved.total,
            answer: moved.answer,
        });
    }
    let cycled = call_all(
        counts,
        visited,
        gains,
        index,
        presentpins,
        presentsizes,
        bits,
        blocks,
        weights,
        aboves,
        loads,
        netweights,
        firsts,
        loadedsizes,
        ceilings,
        fixedmarks,
        size,
        total,
        stack,
        journal,
    )?;
    Ok(Turn {
        stack,
        journal: cycled.journal,
        total: cycled.total,
        answer: Answer::Cycled {
            contractions: cycled.joins,
            tried: cycled.tried,
            kept: cycled.kept,
            moves: cycled.moves,
            total: cycled.total,
        },
    })
}
