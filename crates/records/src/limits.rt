// The engine on tables of its own for the lots, at the limits of each entry.
ghost use Rattle.model.specs.Catalogue.{main_limits, fine_limits};
ghost use Rattle.model.specs.Lent.{others};
ghost use Rattle.records.specs.Entry.{Answers};

use crate::answering::{Answer, core};
use lines::Limits;

// The main entry's: 1,024 lots, 16 sessions, 1,024 buyers, 8,192 marks.
pub fn at_main(
    file: &[u8],
    room: usize,
    output: &mut [u8],
    loadedpins: &mut [u16],
    presentpins: &mut [u16],
    firsts: &mut [u16],
    loadedsizes: &mut [u16],
    presentsizes: &mut [u16],
    counts: &mut [u16],
    gains: &mut [i32],
    index: &mut [u16],
    visited: &mut [u16],
) -> Answer
    ensures { Answers main_limits file.now room output.old (others loadedpins.old presentpins.old firsts.old loadedsizes.old presentsizes.old counts.old gains.old index.old visited.old) output.new (others loadedpins.new presentpins.new firsts.new loadedsizes.new presentsizes.new counts.new gains.new index.new visited.new) result }
{
    let limits = Limits {
        lots: 1024,
        sessions: 16,
        buyers: 1024,
        marks: 8192,
    };
    core(
        file,
        limits,
        room,
        output,
        loadedpins,
        presentpins,
        firsts,
        loadedsizes,
        presentsizes,
        counts,
        gains,
        index,
        visited,
    )
}

// The superfine desk's: 256 lots, 8 sessions, 1,024 buyers, 8,192 marks.
pub fn at_fine(
    file: &[u8],
    room: usize,
    output: &mut [u8],
    loadedpins: &mut [u16],
    presentpins: &mut [u16],
    firsts: &mut [u16],
    loadedsizes: &mut [u16],
    presentsizes: &mut [u16],
    counts: &mut [u16],
    gains: &mut [i32],
    index: &mut [u16],
    visited: &mut [u16],
) -> Answer
    ensures { Answers fine_limits file.now room output.old (others loadedpins.old presentpins.old firsts.old loadedsizes.old presentsizes.old counts.old gains.old index.old visited.old) output.new (others loadedpins.new presentpins.new firsts.new loadedsizes.new presentsizes.new counts.new gains.new index.new visited.new) result }
{
    let limits = Limits {
        lots: 256,
        sessions: 8,
        buyers: 1024,
        marks: 8192,
    };
    core(
        file,
        limits,
        room,
        output,
        loadedpins,
        presentpins,
        firsts,
        loadedsizes,
        presentsizes,
        counts,
        gains,
        index,
        visited,
    )
}
