// The second entry: a catalogue's bytes and a list of calls apart from each other. short memory is tested first, then the list.
ghost use Rattle.std.specs.Prelude.{◌≡◌};
ghost use Rattle.model.specs.Catalogue.{main_limits};
ghost use Rattle.model.specs.Lent.{lists, lent, memory, two};
ghost use Rattle.refusal.specs.Number.{number_of};
ghost use Rattle.model.specs.ListEntry.{returned, Idle, ListServes};

use lengths::is_long;
use lines::Limits;
use operations::pairs::{LongJournal, LongStack};
use refusal::Refusal;
use sale_list::{ListRan, check_list, work_list};

// A list that is refused, and short memory, touch nothing.
fn refused_list(refusal: Refusal) -> ListRan
    ensures { (result.code ≡ number_of refusal) × (result.written ≡ 0) × Idle (returned result.code result.written result.total (two result.stack.into result.stack.gone result.stack.len) (two result.journal.vertices result.journal.blocks result.journal.len)) }
{
    let none = LongStack::new();
    let unmoved = LongJournal::new();
    ListRan {
        code: refusal.number(),
        written: 0,
        total: 0,
        stack: none,
        journal: unmoved,
    }
}

// A catalogue and a list of at most 512 calls with the operands of its N calls, on lent memory.
pub fn kapokdrill_list(
    file: &[u8],
    list: &[u32],
    operands: &[u32],
    output: &mut [u8],
    weights: &mut [u32],
    blocks: &mut [u16],
    aboves: &mut [u16],
    fixed: &mut [u16],
    loadedpins: &mut [u16],
    presentpins: &mut [u16],
    firsts: &mut [u16],
    loadedsizes: &mut [u16],
    presentsizes: &mut [u16],
    counts: &mut [u16],
    gains: &mut [i32],
    index: &mut [u16],
    visited: &mut [u16],
) -> ListRan
    ensures { ListServes main_limits file.now list.now operands.now
        (memory output.old (lent (lists weights.old blocks.old aboves.old fixed.old loadedpins.old presentpins.old firsts.old loadedsizes.old presentsizes.old) counts.old gains.old index.old visited.old))
        (memory output.new (lent (lists weights.new blocks.new aboves.new fixed.new loadedpins.new presentpins.new firsts.new loadedsizes.new presentsizes.new) counts.new gains.new index.new visited.new))
        (returned result.code result.written result.total (two result.stack.into result.stack.gone result.stack.len) (two result.journal.vertices result.journal.blocks result.journal.len)) }
{
    if !is_long(
        1024,
        output,
        weights,
        blocks,
        aboves,
        fixed,
        loadedpins,
        presentpins,
        firsts,
        loadedsizes,
        presentsizes,
        counts,
        gains,
        index,
        visited,
    ) {
        return refused_list(Refusal::MemoryTooShort);
    }
    if let Err(q) = check_list(list, operands) {
        return refused_list(q);
    }
    let limits = Limits {
        lots: 1024,
        sessions: 16,
        buyers: 1024,
        marks: 8192,
    };
    work_list(
        file,
        list,
        operands,
        limits,
        output,
        weights,
        blocks,
        aboves,
        fixed,
        loadedpins,
        presentpins,
        firsts,
        loadedsizes,
        presentsizes,
        counts,
        gains,
        index,
        visited,
    )
}
