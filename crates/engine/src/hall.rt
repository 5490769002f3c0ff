// The hall's entry that customers call (M-112): a hall's file and lent memory, four sets of tables, the lots as a lent slice of records. The engine works on
// columns of its own, and each lot's record is then written at its place. Rests on hall_records.
ghost use Rattle.model.specs.HallDemand.{HallServes};
ghost use Rattle.model.specs.HallLent.{hall_others, hall_in_records};
ghost use Rattle.records.specs.declared.Lot.{Lot};

use crate::run::Ran;
use hall_records::answering::core;
use hall_records::write_at;
use records::Lot;

// A hall's file and lent memory: the lots, four sets of 1,024 records in a row; the output, 60,000 bytes; and of each other table four, one for each catalogue:
// marks as loaded and as they stand, 8,192 each; the buyers' first places, loaded marks and present marks, 1,024 each; counts, gains and index,
// 16,384 each; visited, 1,024.
pub fn kapokdrill_hall(
    file: &[u8],
    lots: &mut [Lot],
    output: &mut [u8],
    loadedpins: &mut [[u16; 8192]],
    presentpins: &mut [[u16; 8192]],
    firsts: &mut [[u16; 1024]],
    loadedsizes: &mut [[u16; 1024]],
    presentsizes: &mut [[u16; 1024]],
    counts: &mut [[u16; 16384]],
    gains: &mut [[i32; 16384]],
    index: &mut [[u16; 16384]],
    visited: &mut [[u16; 1024]],
) -> Ran
    ensures { HallServes file.now (hall_in_records (λ (l : Lot). l.bales) (λ (l : Lot). l.session) (λ (l : Lot). l.above) (λ (l : Lot). l.kept) output.old lots.old (hall_others loadedpins.old presentpins.old firsts.old loadedsizes.old presentsizes.old counts.old gains.old index.old visited.old)) (hall_in_records (λ (l : Lot). l.bales) (λ (l : Lot). l.session) (λ (l : Lot). l.above) (λ (l : Lot). l.kept) output.new lots.new (hall_others loadedpins.new presentpins.new firsts.new loadedsizes.new presentsizes.new counts.new gains.new index.new visited.new)) result.code result.written }
{
    let answer = core(
        file,
        lots.len(),
        output,
        loadedpins,
        presentpins,
        firsts,
        loadedsizes,
        presentsizes,
        counts,
        gains,
        index,
        visited,
    );
    let n = answer.n;
    let places = answer.places;
    let new = answer.lots;
    write_at(lots, n, places, new);
    Ran {
        code: answer.code,
        written: answer.written,
    }
}
