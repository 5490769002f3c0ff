// The entries that customers call: a sale file and lent memory, the lots as a lent slice of records. The engine works on four tables of its
// own, and each lot's record is then written. The two differ in their limits alone. Rests on records.
ghost use Rattle.model.specs.Catalogue.{main_limits, fine_limits};
ghost use Rattle.model.specs.Promises.{FileServes};
ghost use Rattle.model.specs.Lent.{others, in_records};
ghost use Rattle.records.specs.declared.Lot.{Lot};

use records::limits::{at_fine, at_main};
use records::{Lot, write};

// The engine's answer: 0 or the number of the refusal, 1 to 8, 21 or, for a hall, 24, and the bytes written.
#[repr(C)]
#[derive(Clone, Copy)]
pub struct Ran {
    pub code: u32,
    pub written: usize,
}

// A sale file and lent memory: the lots, 1,024 records; the output, 60,000 bytes; marks as loaded and as they stand, 8,192 each; the buyers'
// first places, loaded marks and present marks, 1,024 each; counts, gains and index, 16,384 each; visited, 1,024.
pub fn kapokdrill_run(
    file: &[u8],
    lots: &mut [Lot],
    output: &mut [u8],
    loadedpins: &mut [u16],
    presentpins: &mut [u16],
    firsts: &mut [u16],
    loadedsizes: &mut [u16],
    presentsizes: &mut [u16],
    counts: &mut [u16],
    gains: &mut [i32],
    index: &mut [u16],
    visited: &mut [u16],
) -> Ran
    ensures { FileServes main_limits file.now (in_records (λ (l : Lot). l.bales) (λ (l : Lot). l.session) (λ (l : Lot). l.above) (λ (l : Lot). l.kept) output.old lots.old (others loadedpins.old presentpins.old firsts.old loadedsizes.old presentsizes.old counts.old gains.old index.old visited.old)) (in_records (λ (l : Lot). l.bales) (λ (l : Lot). l.session) (λ (l : Lot). l.above) (λ (l : Lot). l.kept) output.new lots.new (others loadedpins.new presentpins.new firsts.new loadedsizes.new presentsizes.new counts.new gains.new index.new visited.new)) result.code result.written }
{
    let answer = at_main(
        file,
        lots.len(),
        output,
        loadedpins,
        presentpins,
        firsts,
        loadedsizes,
        presentsizes,
        counts,
        gains,
        index,
        visited,
    );
    let n = answer.n;
    let new = answer.lots;
    write(lots, n, new);
    Ran {
        code: answer.code,
        written: answer.written,
    }
}

// The superfine desk's entry, whose lots may be 256 records and whose gains and index 4,096 entries: 257 lots or 9 sessions are out of range (3).
pub fn kapokdrill_run_fine(
    file: &[u8],
    lots: &mut [Lot],
    output: &mut [u8],
    loadedpins: &mut [u16],
    presentpins: &mut [u16],
    firsts: &mut [u16],
    loadedsizes: &mut [u16],
    presentsizes: &mut [u16],
    counts: &mut [u16],
    gains: &mut [i32],
    index: &mut [u16],
    visited: &mut [u16],
) -> Ran
    ensures { FileServes fine_limits file.now (in_records (λ (l : Lot). l.bales) (λ (l : Lot). l.session) (λ (l : Lot). l.above) (λ (l : Lot). l.kept) output.old lots.old (others loadedpins.old presentpins.old firsts.old loadedsizes.old presentsizes.old counts.old gains.old index.old visited.old)) (in_records (λ (l : Lot). l.bales) (λ (l : Lot). l.session) (λ (l : Lot). l.above) (λ (l : Lot). l.kept) output.new lots.new (others loadedpins.new presentpins.new firsts.new loadedsizes.new presentsizes.new counts.new gains.new index.new visited.new)) result.code result.written }
{
    let answer = at_fine(
        file,
        lots.len(),
        output,
        loadedpins,
        presentpins,
        firsts,
        loadedsizes,
        presentsizes,
        counts,
        gains,
        index,
        visited,
    );
    let n = answer.n;
    let new = answer.lots;
    write(lots, n, new);
    Ran {
        code: answer.code,
        written: answer.written,
    }
}
