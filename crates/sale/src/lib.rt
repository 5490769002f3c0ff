// A list of call lines on tables as loading left them, with demand 3 as its contract.
#![tactic(auto)]

ghost use Rattle.std.specs.Prelude.{ℕ, ◌≤◌, List, length};
ghost use Rattle.model.specs.Catalogue.{Limits};
ghost use Rattle.model.specs.Lent.{Lists, lists, lent, calls_of, two};
ghost use Rattle.loader.specs.Tables.{graph};
ghost use Rattle.call_list.specs.Course.{Listed};
ghost use Rattle.sale.specs.Sale.{Catalogued, CanSell, Sold};

use call_list::course::{Frame, begin};
use call_list::run_calls;
use index::rows::put_all_right;
use loader::Sizes;
use opening::open;
use operations::pairs::{Journal, Stack};

pub mod closing;

// What a list of calls leaves beside the tables: the contraction stack, the journal, how many vertices are known, the metric of the draft and at the end, and
// where the output's text ends.
#[derive(Clone, Copy)]
pub struct Sale {
    pub stack: Stack,
    pub journal: Journal,
    pub n: usize,
    pub draft: u32,
    pub total: u32,
    pub at: usize,
}

// The first `count` call lines of a table, three numbers each, with their operands, on tables as loading left them at an entry of so many lots.
pub fn sell(
    output: &mut [u8],
    weights: &mut [u32],
    blocks: &mut [u16],
    aboves: &mut [u16],
    fixed: &mut [u16],
    loadedpins: &mut [u16],
    presentpins: &mut [u16],
    firsts: &mut [u16],
    loadedsizes: &mut [u16],
    presentsizes: &mut [u16],
    counts: &mut [u16],
    gains: &mut [i32],
    index: &mut [u16],
    visited: &mut [u16],
    netweights: &[u16],
    calls: &[u32],
    operands: &[u32],
    count: usize,
    lots: u32,
    z: Sizes,
) -> Sale
    requires { CanSell lots z
        (lists weights.old blocks.old aboves.old fixed.old loadedpins.old presentpins.old firsts.old loadedsizes.old presentsizes.old)
        netweights.now counts.old gains.old index.old visited.old calls.now operands.now count output.old }
    ensures { (limits : Limits) (lows : List ℕ) (old : Lists) → Catalogued limits lots z old
        (lists weights.old blocks.old aboves.old fixed.old loadedpins.old presentpins.old firsts.old loadedsizes.old presentsizes.old)
        netweights.now lows counts.old gains.old index.old visited.old → Listed calls.now operands.now count → 60000 ≤ length output.old
        → Sold limits (graph z
        (lists weights.old blocks.old aboves.old fixed.old loadedpins.old presentpins.old firsts.old loadedsizes.old presentsizes.old)
        netweights.now lows) (calls_of operands.now count calls.now) (lent old counts.old gains.old index.old visited.old)
        (lent (lists weights.new blocks.new aboves.new fixed.new loadedpins.new presentpins.new firsts.new loadedsizes.new presentsizes.new) counts.new gains.new index.new visited.new)
        output.old output.new (two result.stack.into result.stack.gone result.stack.len) (two result.journal.vertices result.journal.blocks result.journal.len) result.n z.nets result.draft result.total result.at }
{
    let n = z.vertices as usize;
    let m = z.nets as usize;
    let k = z.blocks as usize;
    let capacity = z.capacity as u64;
    let ceilings = [capacity; 16];
    let mut bits = [0u64; 16384];
    let mut loads = [0u64; 16];
    let draft = open(
        counts,
        visited,
        gains,
        &mut bits,
        &mut loads,
        presentpins,
        blocks,
        firsts,
        presentsizes,
        weights,
        netweights,
        n,
        m,
        k,
    );
    put_all_right(index, gains, blocks, n, k);
    let start = begin(fixed, n, z.pins, draft);
    let frame = Frame {
        m,
        k,
        average: z.average as u64,
        lots: lots as usize,
    };
    let course = run_calls(
        output,
        counts,
        visited,
        gains,
        index,
        presentpins,
        presentsizes,
        &mut bits,
        blocks,
        weights,
        aboves,
        fixed,
        &mut loads,
        loadedpins,
        firsts,
        loadedsizes,
        netweights,
        &ceilings,
        calls,
        operands,
        count,
        frame,
        start,
    );
    let stack = course.stack;
    let journal = course.journal;
    Sale {
        stack,
        journal,
        n: course.n,
        draft,
        total: course.total,
        at: course.at,
    }
}
