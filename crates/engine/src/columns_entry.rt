// The main entry with the lots as four columns in place of records, for the program and for crates that stand on the engine's promise. Rests on columns.
ghost use Rattle.model.specs.Catalogue.{main_limits};
ghost use Rattle.model.specs.Promises.{FileServes};
ghost use Rattle.model.specs.Lent.{lists, lent, memory};

use crate::run::Ran;
use columns::serve;
use lines::Limits;

// A sale file and lent memory, as `kapokdrill_run` takes it: the output, 60,000 bytes; the lots' bales, sessions, lots above and whether each is kept, 1,024
// each; marks as loaded and as they stand, 8,192 each; the buyers' first places, loaded marks and present marks, 1,024 each; counts, gains and index, 16,384
// each; visited, 1,024.
pub fn run_columns(
    file: &[u8],
    output: &mut [u8],
    weights: &mut [u32],
    blocks: &mut [u16],
    aboves: &mut [u16],
    fixed: &mut [u16],
    loadedpins: &mut [u16],
    presentpins: &mut [u16],
    firsts: &mut [u16],
    loadedsizes: &mut [u16],
    presentsizes: &mut [u16],
    counts: &mut [u16],
    gains: &mut [i32],
    index: &mut [u16],
    visited: &mut [u16],
) -> Ran
    ensures { FileServes main_limits file.now
        (memory output.old (lent (lists weights.old blocks.old aboves.old fixed.old loadedpins.old presentpins.old firsts.old loadedsizes.old presentsizes.old) counts.old gains.old index.old visited.old))
        (memory output.new (lent (lists weights.new blocks.new aboves.new fixed.new loadedpins.new presentpins.new firsts.new loadedsizes.new presentsizes.new) counts.new gains.new index.new visited.new))
        result.code result.written }
{
    let limits = Limits {
        lots: 1024,
        sessions: 16,
        buyers: 1024,
        marks: 8192,
    };
    let served = serve(
        file,
        limits,
        output,
        weights,
        blocks,
        aboves,
        fixed,
        loadedpins,
        presentpins,
        firsts,
        loadedsizes,
        presentsizes,
        counts,
        gains,
        index,
        visited,
    );
    Ran {
        code: served.code,
        written: served.written,
    }
}
