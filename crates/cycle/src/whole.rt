// A as a whole: contractions, the way back, then P.
ghost use Rattle.std.specs.Prelude.{◌*◌, ◌≤◌, length};
ghost use Rattle.index.specs.Indexed.{Kept};
ghost use Rattle.operations.specs.Tables.{tables};
ghost use Rattle.cycle.specs.Whole.{CycleOk, Levels, Does};

use crate::refining::refine;
use coarsening::coarsen;
use operations::pairs::Joins;
use operations::size::Size;
use polish::polishing::polish;

// What A answers: how many contractions were made, the moves that the walks made and kept, all together, P's moves, and the metric.
#[derive(Clone, Copy)]
pub struct Cycled {
    pub joins: u32,
    pub tried: u32,
    pub kept: u32,
    pub moves: u32,
    pub total: u32,
}

// Down to the coarsest level and back, with no move of P yet.
fn descend(
    counts: &mut [u16],
    visited: &mut [u16],
    gains: &mut [i32],
    index: &mut [u16],
    presentpins: &mut [u16],
    presentsizes: &mut [u16],
    bits: &mut [u64],
    blocks: &mut [u16],
    weights: &mut [u32],
    aboves: &mut [u16],
    loads: &mut [u64; 16],
    netweights: &[u16],
    firsts: &[u16],
    loadedsizes: &[u16],
    ceilings: &[u64; 16],
    fixedmarks: [u64; 48],
    size: Size,
    total: u32,
) -> Cycled
    requires cycle_ok { CycleOk
        (tables counts.old visited.old gains.old presentpins.old presentsizes.old bits.old blocks.old weights.old aboves.old loads.old netweights.now firsts.now loadedsizes.now size.n size.m size.k total)
        size.average fixedmarks }
    requires n_in_bounds { 16 * size.n ≤ length index.old }
    ensures levels { Levels
        (tables counts.old visited.old gains.old presentpins.old presentsizes.old bits.old blocks.old weights.old aboves.old loads.old netweights.now firsts.now loadedsizes.now size.n size.m size.k total)
        size.average ceilings.now fixedmarks
        (tables counts.new visited.new gains.new presentpins.new presentsizes.new bits.new blocks.new weights.new aboves.new loads.new netweights.now firsts.now loadedsizes.now size.n size.m size.k result.total)
        result.joins result.tried result.kept }
    ensures kept { Kept size.n size.k index.old index.new }
{
    let stack = coarsen(
        counts,
        visited,
        gains,
        presentpins,
        presentsizes,
        bits,
        blocks,
        weights,
        aboves,
        netweights,
        firsts,
        fixedmarks,
        size,
        total,
        Joins::new(),
    );
    let f = refine(
        counts,
        visited,
        gains,
        index,
        presentpins,
        presentsizes,
        bits,
        blocks,
        weights,
        aboves,
        loads,
        netweights,
        firsts,
        loadedsizes,
        ceilings,
        fixedmarks,
        size.n,
        size.m,
        size.k,
        total,
        stack,
    );
    Cycled {
        joins: stack.len as u32,
        tried: f.tried,
        kept: f.kept,
        moves: 0,
        total: f.total,
    }
}

// A.
pub fn run(
    counts: &mut [u16],
    visited: &mut [u16],
    gains: &mut [i32],
    index: &mut [u16],
    presentpins: &mut [u16],
    presentsizes: &mut [u16],
    bits: &mut [u64],
    blocks: &mut [u16],
    weights: &mut [u32],
    aboves: &mut [u16],
    loads: &mut [u64; 16],
    netweights: &[u16],
    firsts: &[u16],
    loadedsizes: &[u16],
    ceilings: &[u64; 16],
    fixedmarks: [u64; 48],
    size: Size,
    total: u32,
) -> Cycled
    requires cycle_ok { CycleOk
        (tables counts.old visited.old gains.old presentpins.old presentsizes.old bits.old blocks.old weights.old aboves.old loads.old netweights.now firsts.now loadedsizes.now size.n size.m size.k total)
        size.average fixedmarks }
    requires n_in_bounds { 16 * size.n ≤ length index.old }
    ensures does { Does
        (tables counts.old visited.old gains.old presentpins.old presentsizes.old bits.old blocks.old weights.old aboves.old loads.old netweights.now firsts.now loadedsizes.now size.n size.m size.k total)
        size.average ceilings.now fixedmarks
        (tables counts.new visited.new gains.new presentpins.new presentsizes.new bits.new blocks.new weights.new aboves.new loads.new netweights.now firsts.now loadedsizes.now size.n size.m size.k result.total)
        result.joins result.tried result.kept result.moves }
    ensures kept { Kept size.n size.k index.old index.new }
{
    let d = descend(
        counts,
        visited,
        gains,
        index,
        presentpins,
        presentsizes,
        bits,
        blocks,
        weights,
        aboves,
        loads,
        netweights,
        firsts,
        loadedsizes,
        ceilings,
        fixedmarks,
        size,
        total,
    );
    let p = polish(
        counts,
        visited,
        gains,
        index,
        blocks,
        loads,
        presentpins,
        presentsizes,
        bits,
        weights,
        netweights,
        firsts,
        ceilings,
        fixedmarks,
        size.n,
        size.m,
        size.k,
        d.total,
    );
    Cycled {
        moves: p.moves,
        total: p.total,
        ..d
    }
}
