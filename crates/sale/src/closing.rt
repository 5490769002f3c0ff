// How a file ends: the line of its refusal, or the answers to its calls with the closing report behind them.
ghost use Rattle.std.specs.Prelude.{ℕ, ◌≤◌, List, [], ◌∷◌, length};
ghost use Rattle.model.specs.Catalogue.{Limits};
ghost use Rattle.model.specs.Report.{digits, row};
ghost use Rattle.model.specs.Lent.{calls_of, Lists, lists, lent};
ghost use Rattle.fields.specs.Wrote.{Wrote};
ghost use Rattle.loader.specs.Tables.{graph};
ghost use Rattle.call_list.specs.Course.{Listed};
ghost use Rattle.sale.specs.Sale.{Catalogued, CanSell};
ghost use Rattle.sale.specs.Reported.{Reported};

use crate::sell;
use loader::Sizes;
use report::answers::put_refusal;
use report::closing::put_closing;

// Writes the line of a refused file; says where it ends.
pub fn refuse(output: &mut [u8], number: u32, line: usize) -> usize
    requires { (line ≤ 60001) × (length (row "NO" (digits number ∷ digits line ∷ [])) ≤ length output.old) }
    ensures { Wrote output.old output.new 0 (row "NO" (digits number ∷ digits line ∷ [])) result }
{
    put_refusal(output, 0, number, line as u32)
}

// The end of a file: where its text ends, and how many vertices are known.
#[derive(Clone, Copy)]
pub struct Closed {
    pub at: usize,
    pub n: usize,
}

// Runs a file's `count` calls and writes their answers and the closing report.
pub fn report_sale(
    output: &mut [u8],
    weights: &mut [u32],
    blocks: &mut [u16],
    aboves: &mut [u16],
    fixed: &mut [u16],
    loadedpins: &mut [u16],
    presentpins: &mut [u16],
    firsts: &mut [u16],
    loadedsizes: &mut [u16],
    presentsizes: &mut [u16],
    counts: &mut [u16],
    gains: &mut [i32],
    index: &mut [u16],
    visited: &mut [u16],
    netweights: &[u16],
    calls: &[u32],
    operands: &[u32],
    count: usize,
    lots: u32,
    z: Sizes,
) -> Closed
    requires { CanSell lots z
        (lists weights.old blocks.old aboves.old fixed.old loadedpins.old presentpins.old firsts.old loadedsizes.old presentsizes.old)
        netweights.now counts.old gains.old index.old visited.old calls.now operands.now count output.old }
    ensures { (limits : Limits) (lows : List ℕ) (old : Lists) → Catalogued limits lots z old
        (lists weights.old blocks.old aboves.old fixed.old loadedpins.old presentpins.old firsts.old loadedsizes.old presentsizes.old)
        netweights.now lows counts.old gains.old index.old visited.old → Listed calls.now operands.now count → 60000 ≤ length output.old
        → Reported limits (graph z
        (lists weights.old blocks.old aboves.old fixed.old loadedpins.old presentpins.old firsts.old loadedsizes.old presentsizes.old)
        netweights.now lows) (calls_of operands.now count calls.now) (lent old counts.old gains.old index.old visited.old)
        (lent (lists weights.new blocks.new aboves.new fixed.new loadedpins.new presentpins.new firsts.new loadedsizes.new presentsizes.new) counts.new gains.new index.new visited.new)
        output.old output.new result.at result.n }
{
    let m = z.nets as usize;
    let s = sell(
        output,
        weights,
        blocks,
        aboves,
        fixed,
        loadedpins,
        presentpins,
        firsts,
        loadedsizes,
        presentsizes,
        counts,
        gains,
        index,
        visited,
        netweights,
        calls,
        operands,
        count,
        lots,
        z,
    );
    let stack = s.stack;
    let gone = stack.gone;
    let depth = stack.len;
    let n = s.n;
    let end = put_closing(
        output, s.at, blocks, aboves, visited, &gone, n, m, depth, s.draft, s.total,
    );
    Closed { at: end, n: n }
}
