// The hall's entry with the lots as four columns in place of records, for the program and for crates that stand on the engine's promise. Rests on hall_columns.
ghost use Rattle.model.specs.HallDemand.{HallServes};
ghost use Rattle.model.specs.HallLent.{hall_tables, hall_memory};

use crate::run::Ran;
use hall_columns::serve_hall;

// A hall's file and lent memory, each table as four arrays, one for each catalogue: the output, 60,000 bytes; the lots' bales, sessions, lots above and whether
// each is kept; marks as loaded and as they stand; the buyers' first places, loaded marks and present marks; counts, gains and index; visited.
pub fn run_hall_columns(
    file: &[u8],
    output: &mut [u8],
    weights: &mut [[u32; 1024]],
    blocks: &mut [[u16; 1024]],
    aboves: &mut [[u16; 1024]],
    fixed: &mut [[u16; 1024]],
    loadedpins: &mut [[u16; 8192]],
    presentpins: &mut [[u16; 8192]],
    firsts: &mut [[u16; 1024]],
    loadedsizes: &mut [[u16; 1024]],
    presentsizes: &mut [[u16; 1024]],
    counts: &mut [[u16; 16384]],
    gains: &mut [[i32; 16384]],
    index: &mut [[u16; 16384]],
    visited: &mut [[u16; 1024]],
) -> Ran
    ensures { HallServes file.now (hall_memory output.old (hall_tables weights.old blocks.old aboves.old fixed.old loadedpins.old presentpins.old firsts.old loadedsizes.old presentsizes.old counts.old gains.old index.old visited.old)) (hall_memory output.new (hall_tables weights.new blocks.new aboves.new fixed.new loadedpins.new presentpins.new firsts.new loadedsizes.new presentsizes.new counts.new gains.new index.new visited.new)) result.code result.written }
{
    let served = serve_hall(
        file,
        output,
        weights,
        blocks,
        aboves,
        fixed,
        loadedpins,
        presentpins,
        firsts,
        loadedsizes,
        presentsizes,
        counts,
        gains,
        index,
        visited,
    );
    Ran {
        code: served.code,
        written: served.written,
    }
}
