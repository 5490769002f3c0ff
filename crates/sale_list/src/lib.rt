// A catalogue's bytes and a list of calls apart from each other, three numbers for each call: the letter's byte and two numbers, which for N are a stretch
// of the operands. The list need not fit into a file with the catalogue.
#![tactic(auto)]

ghost use Rattle.std.specs.Prelude.{◌+◌, ◌*◌, ◌/◌, ◌≤◌, ◌≡◌, ◌&&◌, ◌||◌, eqb, leb, length};
ghost use Rattle.model.specs.Grammar.{parse, letter_a, letter_x, letter_n};
ghost use Rattle.model.specs.Lent.{lists, lent, memory, two};
ghost use Rattle.model.specs.ListEntry.{is_letter, is_entry, entries_to, list_refusal, list_calls, returned, ListWorked};
ghost use Rattle.refusal.specs.Number.{refused_as};
ghost use Rattle.lines.specs.Line.{limits_of};
ghost use Rattle.sale.specs.Files.{Long};

use any_call::kinds::{is_contracting, is_moving};
use lines::Limits;
use operations::pairs::{LongJournal, LongStack};
use refusal::Refusal;
use sale::closing::refuse;
use sale::sell;

// 0 or the number of the refusal, the bytes written, the metric at the end, the contractions that stand and the record of moves.
#[repr(C)]
#[derive(Clone, Copy)]
pub struct ListRan {
    pub code: u32,
    pub written: usize,
    pub total: u32,
    pub stack: LongStack,
    pub journal: LongJournal,
}

// Is this the letter A, X or N.
fn is_other(letter: u32) -> bool
    ensures { result ≡ (eqb letter letter_a || (eqb letter letter_x || eqb letter letter_n)) }
{
    letter == text::letters::A || letter == text::letters::X || letter == text::letters::N
}

// Is this the letter of a call.
fn is_letter(letter: u32) -> bool
    ensures { result ≡ is_letter letter }
{
    is_contracting(letter) || is_moving(letter) || is_other(letter)
}

// Are there two numbers at least, and do they lie within so many operands.
fn is_stretch(operands: usize, x: u32, y: u32) -> bool
    ensures { result ≡ (leb 2 y && leb (x + y) operands) }
{
    2 <= y && u64::from(x) + u64::from(y) <= operands as u64
}

// Has a call its form, with so many operands.
fn is_entry(operands: usize, letter: u32, x: u32, y: u32) -> bool
    ensures { result ≡ is_entry operands letter x y }
{
    is_letter(letter) && (letter != text::letters::N || is_stretch(operands, x, y))
}

// Has each of the first `count` calls its form.
fn are_entries(list: &[u32], operands: usize, count: usize) -> bool
    requires { (3 * count ≤ length list.now) × (count ≤ 512) }
    ensures { result ≡ entries_to operands count list.now }
{
    for i in 0..count {
        let at = 3 * i;
        if !is_entry(operands, list[at], list[at + 1], list[at + 2]) {
            return false;
        }
    }
    true
}

// Whether a list has at most 512 calls, each in its form.
pub fn check_list(list: &[u32], operands: &[u32]) -> Result<(), Refusal>
    ensures { refused_as result ≡ list_refusal list.now operands.now }
{
    let len = list.len();
    if 1536 < len {
        return Err(Refusal::TooManyCalls);
    }
    if len % 3 != 0 {
        return Err(Refusal::BadlyWritten);
    }
    if !are_entries(list, operands.len(), len / 3) {
        return Err(Refusal::BadlyWritten);
    }
    Ok(())
}

// A list that is not refused, in memory that is long enough for an entry of these limits.
pub fn work_list(
    file: &[u8],
    list: &[u32],
    operands: &[u32],
    limits: Limits,
    output: &mut [u8],
    weights: &mut [u32],
    blocks: &mut [u16],
    aboves: &mut [u16],
    fixed: &mut [u16],
    loadedpins: &mut [u16],
    presentpins: &mut [u16],
    firsts: &mut [u16],
    loadedsizes: &mut [u16],
    presentsizes: &mut [u16],
    counts: &mut [u16],
    gains: &mut [i32],
    index: &mut [u16],
    visited: &mut [u16],
) -> ListRan
    requires { Long (limits_of limits) output.old
        (lists weights.old blocks.old aboves.old fixed.old loadedpins.old presentpins.old firsts.old loadedsizes.old presentsizes.old)
        counts.old gains.old index.old visited.old × (list_refusal list.now operands.now ≡ 0) }
    ensures { ListWorked (limits_of limits) (parse (limits_of limits) file.now) (list_calls list.now operands.now)
        (memory output.old (lent (lists weights.old blocks.old aboves.old fixed.old loadedpins.old presentpins.old firsts.old loadedsizes.old presentsizes.old) counts.old gains.old index.old visited.old))
        (memory output.new (lent (lists weights.new blocks.new aboves.new fixed.new loadedpins.new presentpins.new firsts.new loadedsizes.new presentsizes.new) counts.new gains.new index.new visited.new))
        (returned result.code result.written result.total (two result.stack.into result.stack.gone result.stack.len) (two result.journal.vertices result.journal.blocks result.journal.len)) }
{
    let mut netweights = [0u16; 1024];
    let mut lows = [0u32; 1024];
    let mut calls = [0u32; 1536];
    let mut unused = [0u32; 30000];
    let loaded = loader::load(
        file,
        limits,
        weights,
        blocks,
        aboves,
        fixed,
        loadedpins,
        presentpins,
        firsts,
        loadedsizes,
        presentsizes,
        &mut netweights,
        &mut lows,
        &mut calls,
        &mut unused,
    );
    match loaded {
        Err(q) => {
            let code = q.refusal.number();
            let end = refuse(output, code, q.line);
            let none = LongStack::new();
            let unmoved = LongJournal::new();
            ListRan {
                code,
                written: end,
                total: 0,
                stack: none,
                journal: unmoved,
            }
        }
        Ok(catalogue) => {
            let count = list.len() / 3;
            let s = sell(
                output,
                weights,
                blocks,
                aboves,
                fixed,
                loadedpins,
                presentpins,
                firsts,
                loadedsizes,
                presentsizes,
                counts,
                gains,
                index,
                visited,
                &netweights,
                list,
                operands,
                count,
                limits.lots,
                catalogue.sizes,
            );
            let joins = s.stack;
            let moves = s.journal;
            let stack = joins.long();
            let journal = moves.long();
            ListRan {
                code: 0,
                written: s.at,
                total: s.total,
                stack,
                journal,
            }
        }
    }
}
