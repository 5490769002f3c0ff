// The hall's entry with the lots as four tables, which the entry over records and the program share: short memory is tested first, then the file is loaded, and worked
// to its end or turned down. Each table is lent as a slice of arrays, one array for each catalogue. Rests on lengths and hall_file.
#![tactic(auto)]

ghost use Rattle.std.specs.Prelude.{◌<◌, ◌≡◌};
ghost use Rattle.model.specs.Catalogue.{main_limits};
ghost use Rattle.model.specs.Memory.{long_memory};
ghost use Rattle.model.specs.Lent.{memory};
ghost use Rattle.model.specs.HallDemand.{long_hall};
ghost use Rattle.model.specs.HallLent.{hall_tables, tables_at, hall_memory};
ghost use Rattle.hall_file.specs.Views.{Four};
ghost use Rattle.hall_columns.specs.Sets.{four_each};
ghost use Rattle.hall_columns.specs.Entry.{ServesHall};

use hall_file::{HallRan, work_hall};
use lengths::is_long;
use refusal::Refusal;

// There are four arrays of each table. One test after another: joined by `&&` the thirteen were tried, and the proof didn't close.
fn has_four(
    weights: &[[u32; 1024]],
    blocks: &[[u16; 1024]],
    aboves: &[[u16; 1024]],
    fixed: &[[u16; 1024]],
    loadedpins: &[[u16; 8192]],
    presentpins: &[[u16; 8192]],
    firsts: &[[u16; 1024]],
    loadedsizes: &[[u16; 1024]],
    presentsizes: &[[u16; 1024]],
    counts: &[[u16; 16384]],
    gains: &[[i32; 16384]],
    index: &[[u16; 16384]],
    visited: &[[u16; 1024]],
) -> bool
    ensures { result ≡ four_each (hall_tables weights.now blocks.now aboves.now fixed.now loadedpins.now presentpins.now firsts.now loadedsizes.now presentsizes.now counts.now gains.now index.now visited.now) }
{
    if weights.len() < 4 {
        return false;
    }
    if blocks.len() < 4 {
        return false;
    }
    if aboves.len() < 4 {
        return false;
    }
    if fixed.len() < 4 {
        return false;
    }
    if loadedpins.len() < 4 {
        return false;
    }
    if presentpins.len() < 4 {
        return false;
    }
    if firsts.len() < 4 {
        return false;
    }
    if loadedsizes.len() < 4 {
        return false;
    }
    if presentsizes.len() < 4 {
        return false;
    }
    if counts.len() < 4 {
        return false;
    }
    if gains.len() < 4 {
        return false;
    }
    if index.len() < 4 {
        return false;
    }
    4 <= visited.len()
}

// The output and the tables of the set at place c, which is there, have their lengths.
fn is_set_long(
    output: &[u8],
    weights: &[[u32; 1024]],
    blocks: &[[u16; 1024]],
    aboves: &[[u16; 1024]],
    fixed: &[[u16; 1024]],
    loadedpins: &[[u16; 8192]],
    presentpins: &[[u16; 8192]],
    firsts: &[[u16; 1024]],
    loadedsizes: &[[u16; 1024]],
    presentsizes: &[[u16; 1024]],
    counts: &[[u16; 16384]],
    gains: &[[i32; 16384]],
    index: &[[u16; 16384]],
    visited: &[[u16; 1024]],
    c: usize,
) -> bool
    requires { (c < 4) × Four (hall_tables weights.now blocks.now aboves.now fixed.now loadedpins.now presentpins.now firsts.now loadedsizes.now presentsizes.now counts.now gains.now index.now visited.now) }
    ensures { result ≡ long_memory main_limits (memory output.now (tables_at (hall_tables weights.now blocks.now aboves.now fixed.now loadedpins.now presentpins.now firsts.now loadedsizes.now presentsizes.now counts.now gains.now index.now visited.now) c)) }
{
    is_long(
        1024,
        output,
        &weights[c],
        &blocks[c],
        &aboves[c],
        &fixed[c],
        &loadedpins[c],
        &presentpins[c],
        &firsts[c],
        &loadedsizes[c],
        &presentsizes[c],
        &counts[c],
        &gains[c],
        &index[c],
        &visited[c],
    )
}

// The output and all tables of the four sets have their lengths.
fn is_hall_long(
    output: &[u8],
    weights: &[[u32; 1024]],
    blocks: &[[u16; 1024]],
    aboves: &[[u16; 1024]],
    fixed: &[[u16; 1024]],
    loadedpins: &[[u16; 8192]],
    presentpins: &[[u16; 8192]],
    firsts: &[[u16; 1024]],
    loadedsizes: &[[u16; 1024]],
    presentsizes: &[[u16; 1024]],
    counts: &[[u16; 16384]],
    gains: &[[i32; 16384]],
    index: &[[u16; 16384]],
    visited: &[[u16; 1024]],
) -> bool
    ensures { result ≡ long_hall (hall_memory output.now (hall_tables weights.now blocks.now aboves.now fixed.now loadedpins.now presentpins.now firsts.now loadedsizes.now presentsizes.now counts.now gains.now index.now visited.now)) }
{
    if !has_four(
        weights,
        blocks,
        aboves,
        fixed,
        loadedpins,
        presentpins,
        firsts,
        loadedsizes,
        presentsizes,
        counts,
        gains,
        index,
        visited,
    ) {
        return false;
    }
    for c in 0..4 {
        if !is_set_long(
            output,
            weights,
            blocks,
            aboves,
            fixed,
            loadedpins,
            presentpins,
            firsts,
            loadedsizes,
            presentsizes,
            counts,
            gains,
            index,
            visited,
            c,
        ) {
            return false;
        }
    }
    true
}

// A hall's file and lent memory: the lots' bales, sessions, lots above and whether each is kept, marks as loaded and as they stand, the buyers' first places,
// loaded marks and present marks, counts, gains, the index and the visited sessions, four arrays of each; the output, 60,000 bytes.
pub fn serve_hall(
    file: &[u8],
    output: &mut [u8],
    weights: &mut [[u32; 1024]],
    blocks: &mut [[u16; 1024]],
    aboves: &mut [[u16; 1024]],
    fixed: &mut [[u16; 1024]],
    loadedpins: &mut [[u16; 8192]],
    presentpins: &mut [[u16; 8192]],
    firsts: &mut [[u16; 1024]],
    loadedsizes: &mut [[u16; 1024]],
    presentsizes: &mut [[u16; 1024]],
    counts: &mut [[u16; 16384]],
    gains: &mut [[i32; 16384]],
    index: &mut [[u16; 16384]],
    visited: &mut [[u16; 1024]],
) -> HallRan
    ensures { ServesHall file.now (hall_memory output.old (hall_tables weights.old blocks.old aboves.old fixed.old loadedpins.old presentpins.old firsts.old loadedsizes.old presentsizes.old counts.old gains.old index.old visited.old)) (hall_memory output.new (hall_tables weights.new blocks.new aboves.new fixed.new loadedpins.new presentpins.new firsts.new loadedsizes.new presentsizes.new counts.new gains.new index.new visited.new)) result.code result.written result.lots }
{
    if !is_hall_long(
        output,
        weights,
        blocks,
        aboves,
        fixed,
        loadedpins,
        presentpins,
        firsts,
        loadedsizes,
        presentsizes,
        counts,
        gains,
        index,
        visited,
    ) {
        return HallRan {
            code: Refusal::MemoryTooShort.number(),
            written: 0,
            lots: [0; 4],
        };
    }
    work_hall(
        file,
        output,
        weights,
        blocks,
        aboves,
        fixed,
        loadedpins,
        presentpins,
        firsts,
        loadedsizes,
        presentsizes,
        counts,
        gains,
        index,
        visited,
    )
}
