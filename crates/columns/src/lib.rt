// The engine with the lots as four tables, which the entry over records and the program share: short memory is tested first, then the file is
// loaded, and worked to its end or turned down.
#![tactic(auto)]

ghost use Rattle.model.specs.Lent.{lists, lent, memory};
ghost use Rattle.lines.specs.Line.{limits_of, Within};
ghost use Rattle.columns.specs.Entry.{ServesLots};

use lengths::is_long;
use lines::Limits;
use refusal::Refusal;
use sale_file::{Served, work_file};

// A sale file, the limits of an entry and lent memory: the lots' bales, sessions, lots above and whether each is kept, one for each lot of the limit; marks as
// loaded and as they stand, 8,192 each; the buyers' first places, loaded marks and present marks, 1,024 each; counts, 16,384; gains and the
// index, 16 for each lot of the limit; visited, 1,024; the output, 60,000 bytes.
pub fn serve(
    file: &[u8],
    limits: Limits,
    output: &mut [u8],
    weights: &mut [u32],
    blocks: &mut [u16],
    aboves: &mut [u16],
    fixed: &mut [u16],
    loadedpins: &mut [u16],
    presentpins: &mut [u16],
    firsts: &mut [u16],
    loadedsizes: &mut [u16],
    presentsizes: &mut [u16],
    counts: &mut [u16],
    gains: &mut [i32],
    index: &mut [u16],
    visited: &mut [u16],
) -> Served
    requires { Within (limits_of limits) }
    ensures { ServesLots (limits_of limits) file.now
        (memory output.old (lent (lists weights.old blocks.old aboves.old fixed.old loadedpins.old presentpins.old firsts.old loadedsizes.old presentsizes.old) counts.old gains.old index.old visited.old))
        (memory output.new (lent (lists weights.new blocks.new aboves.new fixed.new loadedpins.new presentpins.new firsts.new loadedsizes.new presentsizes.new) counts.new gains.new index.new visited.new))
        result.code result.written result.lots }
{
    if !is_long(
        limits.lots,
        output,
        weights,
        blocks,
        aboves,
        fixed,
        loadedpins,
        presentpins,
        firsts,
        loadedsizes,
        presentsizes,
        counts,
        gains,
        index,
        visited,
    ) {
        return Served {
            code: Refusal::MemoryTooShort.number(),
            written: 0,
            lots: 0,
        };
    }
    work_file(
        file,
        limits,
        output,
        weights,
        blocks,
        aboves,
        fixed,
        loadedpins,
        presentpins,
        firsts,
        loadedsizes,
        presentsizes,
        counts,
        gains,
        index,
        visited,
    )
}
