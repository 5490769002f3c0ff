// The engine on four tables of its own for the lots, and the records that are then to be written.
ghost use Rattle.model.specs.Lent.{others};
ghost use Rattle.lines.specs.Line.{limits_of, Within};
ghost use Rattle.records.specs.Entry.{Answers};

use crate::{Lot, gather};
use columns::serve;
use lines::Limits;
use refusal::Refusal;

// The engine's answer, and the records of the first n lots: those to write.
#[derive(Clone, Copy)]
pub struct Answer {
    pub n: usize,
    pub lots: [Lot; 1024],
    pub code: u32,
    pub written: usize,
}

// The engine on tables of its own for the lots, at an entry's limits. It is told how many records there is space for.
pub fn core(
    file: &[u8],
    limits: Limits,
    room: usize,
    output: &mut [u8],
    loadedpins: &mut [u16],
    presentpins: &mut [u16],
    firsts: &mut [u16],
    loadedsizes: &mut [u16],
    presentsizes: &mut [u16],
    counts: &mut [u16],
    gains: &mut [i32],
    index: &mut [u16],
    visited: &mut [u16],
) -> Answer
    requires { Within (limits_of limits) }
    ensures { Answers (limits_of limits) file.now room output.old (others loadedpins.old presentpins.old firsts.old loadedsizes.old presentsizes.old counts.old gains.old index.old visited.old) output.new (others loadedpins.new presentpins.new firsts.new loadedsizes.new presentsizes.new counts.new gains.new index.new visited.new) result }
{
    let least = limits.lots as usize;
    if room < least {
        let blank = Lot {
            bales: 0,
            session: 0,
            above: 0,
            kept: 0,
        };
        let none = [blank; 1024];
        return Answer {
            n: 0,
            lots: none,
            code: Refusal::MemoryTooShort.number(),
            written: 0,
        };
    }
    let mut weights = [0u32; 1024];
    let mut blocks = [0u16; 1024];
    let mut aboves = [0u16; 1024];
    let mut fixed = [0u16; 1024];
    let served = serve(
        file,
        limits,
        output,
        &mut weights,
        &mut blocks,
        &mut aboves,
        &mut fixed,
        loadedpins,
        presentpins,
        firsts,
        loadedsizes,
        presentsizes,
        counts,
        gains,
        index,
        visited,
    );
    let lots = gather(weights, blocks, aboves, fixed);
    Answer {
        n: served.lots,
        lots,
        code: served.code,
        written: served.written,
    }
}
