// The engine for C: each export is the engine's function of its name, under the same contract. Rests on engine.
#![tactic(auto)]

ghost use Rattle.std.specs.Prelude.{◌≡◌, cond};
ghost use Rattle.model.specs.Catalogue.{main_limits, fine_limits};
ghost use Rattle.model.specs.Promises.{FileServes};
ghost use Rattle.model.specs.Memory.{handed_out};
ghost use Rattle.model.specs.Lent.{others, in_records, lists, lent, memory, two, net_tables};
ghost use Rattle.model.specs.ListEntry.{returned, ListServes};
ghost use Rattle.model.specs.HallDemand.{HallServes};
ghost use Rattle.model.specs.HallLent.{hall_others, hall_in_records};
ghost use Rattle.records.specs.declared.Lot.{Lot};

use engine::run::Ran;
use records::Lot;
use sale_list::ListRan;
use stretches::Stretch;

// The main entry.
#[unsafe(no_mangle)]
pub extern "C" fn kapokdrill_run(
    file: &[u8],
    lots: &mut [Lot],
    output: &mut [u8],
    loadedpins: &mut [u16],
    presentpins: &mut [u16],
    firsts: &mut [u16],
    loadedsizes: &mut [u16],
    presentsizes: &mut [u16],
    counts: &mut [u16],
    gains: &mut [i32],
    index: &mut [u16],
    visited: &mut [u16],
) -> Ran
    ensures { FileServes main_limits file.now (in_records (λ (l : Lot). l.bales) (λ (l : Lot). l.session) (λ (l : Lot). l.above) (λ (l : Lot). l.kept) output.old lots.old (others loadedpins.old presentpins.old firsts.old loadedsizes.old presentsizes.old counts.old gains.old index.old visited.old)) (in_records (λ (l : Lot). l.bales) (λ (l : Lot). l.session) (λ (l : Lot). l.above) (λ (l : Lot). l.kept) output.new lots.new (others loadedpins.new presentpins.new firsts.new loadedsizes.new presentsizes.new counts.new gains.new index.new visited.new)) result.code result.written }
{
    engine::run::kapokdrill_run(
        file,
        lots,
        output,
        loadedpins,
        presentpins,
        firsts,
        loadedsizes,
        presentsizes,
        counts,
        gains,
        index,
        visited,
    )
}

// The superfine desk's entry.
#[unsafe(no_mangle)]
pub extern "C" fn kapokdrill_run_fine(
    file: &[u8],
    lots: &mut [Lot],
    output: &mut [u8],
    loadedpins: &mut [u16],
    presentpins: &mut [u16],
    firsts: &mut [u16],
    loadedsizes: &mut [u16],
    presentsizes: &mut [u16],
    counts: &mut [u16],
    gains: &mut [i32],
    index: &mut [u16],
    visited: &mut [u16],
) -> Ran
    ensures { FileServes fine_limits file.now (in_records (λ (l : Lot). l.bales) (λ (l : Lot). l.session) (λ (l : Lot). l.above) (λ (l : Lot). l.kept) output.old lots.old (others loadedpins.old presentpins.old firsts.old loadedsizes.old presentsizes.old counts.old gains.old index.old visited.old)) (in_records (λ (l : Lot). l.bales) (λ (l : Lot). l.session) (λ (l : Lot). l.above) (λ (l : Lot). l.kept) output.new lots.new (others loadedpins.new presentpins.new firsts.new loadedsizes.new presentsizes.new counts.new gains.new index.new visited.new)) result.code result.written }
{
    engine::run::kapokdrill_run_fine(
        file,
        lots,
        output,
        loadedpins,
        presentpins,
        firsts,
        loadedsizes,
        presentsizes,
        counts,
        gains,
        index,
        visited,
    )
}

// A catalogue and a list of calls apart from each other.
#[unsafe(no_mangle)]
pub extern "C" fn kapokdrill_list(
    file: &[u8],
    list: &[u32],
    operands: &[u32],
    output: &mut [u8],
    weights: &mut [u32],
    blocks: &mut [u16],
    aboves: &mut [u16],
    fixed: &mut [u16],
    loadedpins: &mut [u16],
    presentpins: &mut [u16],
    firsts: &mut [u16],
    loadedsizes: &mut [u16],
    presentsizes: &mut [u16],
    counts: &mut [u16],
    gains: &mut [i32],
    index: &mut [u16],
    visited: &mut [u16],
) -> ListRan
    ensures { ListServes main_limits file.now list.now operands.now
        (memory output.old (lent (lists weights.old blocks.old aboves.old fixed.old loadedpins.old presentpins.old firsts.old loadedsizes.old presentsizes.old) counts.old gains.old index.old visited.old))
        (memory output.new (lent (lists weights.new blocks.new aboves.new fixed.new loadedpins.new presentpins.new firsts.new loadedsizes.new presentsizes.new) counts.new gains.new index.new visited.new))
        (returned result.code result.written result.total (two result.stack.into result.stack.gone result.stack.len) (two result.journal.vertices result.journal.blocks result.journal.len)) }
{
    engine::listing::kapokdrill_list(
        file,
        list,
        operands,
        output,
        weights,
        blocks,
        aboves,
        fixed,
        loadedpins,
        presentpins,
        firsts,
        loadedsizes,
        presentsizes,
        counts,
        gains,
        index,
        visited,
    )
}

// Several catalogues in one hall.
#[unsafe(no_mangle)]
pub extern "C" fn kapokdrill_hall(
    file: &[u8],
    lots: &mut [Lot],
    output: &mut [u8],
    loadedpins: &mut [[u16; 8192]],
    presentpins: &mut [[u16; 8192]],
    firsts: &mut [[u16; 1024]],
    loadedsizes: &mut [[u16; 1024]],
    presentsizes: &mut [[u16; 1024]],
    counts: &mut [[u16; 16384]],
    gains: &mut [[i32; 16384]],
    index: &mut [[u16; 16384]],
    visited: &mut [[u16; 1024]],
) -> Ran
    ensures { HallServes file.now (hall_in_records (λ (l : Lot). l.bales) (λ (l : Lot). l.session) (λ (l : Lot). l.above) (λ (l : Lot). l.kept) output.old lots.old (hall_others loadedpins.old presentpins.old firsts.old loadedsizes.old presentsizes.old counts.old gains.old index.old visited.old)) (hall_in_records (λ (l : Lot). l.bales) (λ (l : Lot). l.session) (λ (l : Lot). l.above) (λ (l : Lot). l.kept) output.new lots.new (hall_others loadedpins.new presentpins.new firsts.new loadedsizes.new presentsizes.new counts.new gains.new index.new visited.new)) result.code result.written }
{
    engine::hall::kapokdrill_hall(
        file,
        lots,
        output,
        loadedpins,
        presentpins,
        firsts,
        loadedsizes,
        presentsizes,
        counts,
        gains,
        index,
        visited,
    )
}

// A net's pins, as a stretch of the pin table.
#[unsafe(no_mangle)]
pub extern "C" fn kapokdrill_pins(
    loadedpins: &[u16],
    presentpins: &[u16],
    firsts: &[u16],
    loadedsizes: &[u16],
    presentsizes: &[u16],
    present: bool,
    e: u32,
) -> Stretch
    ensures { (result.first ≡ (handed_out
        (net_tables loadedpins.now presentpins.now firsts.now loadedsizes.now presentsizes.now)
        present e).from) × (result.size ≡ (handed_out
        (net_tables loadedpins.now presentpins.now firsts.now loadedsizes.now presentsizes.now)
        present e).size) }
{
    engine::net_pins::kapokdrill_pins(
        loadedpins,
        presentpins,
        firsts,
        loadedsizes,
        presentsizes,
        present,
        e,
    )
}
