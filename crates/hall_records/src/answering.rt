// The engine on columns of its own for a hall's lots, and the records that are then to be written. Rests on hall_columns and records.
ghost use Rattle.model.specs.HallLent.{hall_others};
ghost use Rattle.hall_records.specs.Entry.{HallAnswers};

use crate::gathering::gather;
use hall_columns::serve_hall;
use records::Lot;
use refusal::Refusal;

// The engine's answer, and the first n records with their places: those to write.
#[derive(Clone, Copy)]
pub struct HallAnswer {
    pub n: usize,
    pub places: [usize; 4096],
    pub lots: [Lot; 4096],
    pub code: u32,
    pub written: usize,
}

// The engine on columns of its own for the lots. It is told how many records there is space for.
pub fn core(
    file: &[u8],
    room: usize,
    output: &mut [u8],
    loadedpins: &mut [[u16; 8192]],
    presentpins: &mut [[u16; 8192]],
    firsts: &mut [[u16; 1024]],
    loadedsizes: &mut [[u16; 1024]],
    presentsizes: &mut [[u16; 1024]],
    counts: &mut [[u16; 16384]],
    gains: &mut [[i32; 16384]],
    index: &mut [[u16; 16384]],
    visited: &mut [[u16; 1024]],
) -> HallAnswer
    ensures { HallAnswers file.now room output.old (hall_others loadedpins.old presentpins.old firsts.old loadedsizes.old presentsizes.old counts.old gains.old index.old visited.old) output.new (hall_others loadedpins.new presentpins.new firsts.new loadedsizes.new presentsizes.new counts.new gains.new index.new visited.new) result }
{
    if room < 4096 {
        let blank = Lot {
            bales: 0,
            session: 0,
            above: 0,
            kept: 0,
        };
        let none = [blank; 4096];
        let nowhere = [0usize; 4096];
        return HallAnswer {
            n: 0,
            places: nowhere,
            lots: none,
            code: Refusal::MemoryTooShort.number(),
            written: 0,
        };
    }
    let mut weights = [[0u32; 1024]; 4];
    let mut blocks = [[0u16; 1024]; 4];
    let mut aboves = [[0u16; 1024]; 4];
    let mut fixed = [[0u16; 1024]; 4];
    let served = serve_hall(
        file,
        output,
        &mut weights,
        &mut blocks,
        &mut aboves,
        &mut fixed,
        loadedpins,
        presentpins,
        firsts,
        loadedsizes,
        presentsizes,
        counts,
        gains,
        index,
        visited,
    );
    let known = served.lots;
    gather(
        &weights,
        &blocks,
        &aboves,
        &fixed,
        known,
        served.code,
        served.written,
    )
}
