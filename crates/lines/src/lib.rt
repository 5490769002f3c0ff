// One line of a sale file: the first line, a lot's, a buyer's, a call's. Each function is proved against a definition of model.
#![tactic(auto)]

ghost use Rattle.std.specs.Prelude.{◌≡◌, ◌*◌, ◌≤◌, ◌<◌, length, Some};
ghost use Rattle.std.proofs.Math.Seq.{slice};
ghost use Rattle.model.specs.Grammar.{parts, fields};
ghost use Rattle.refusal.specs.Number.{number_of, refused_as};
ghost use Rattle.lines.specs.Line.{limits_of, short_of, ShortRead, Announces, SaleRead, FieldsEnd, numbers_of, bales_refusal, session_refusal, LotRead};
ghost use Rattle.lines.specs.Late.{OperandsRead, LateRead, CallRead};
ghost use Rattle.lines.specs.Mark.{Fresh, MarkOne, refusal_of, MarksRead, WeightSeen, BuyRead};

use refusal::Refusal;
use text::{Number, between};

// What a catalogue may have: so many lots, sessions, buyers and marks.
#[derive(Clone, Copy)]
pub struct Limits {
    pub lots: u32,
    pub sessions: u32,
    pub buyers: u32,
    pub marks: u32,
}

// A call line's call: the byte of its letter, its numbers and how many operands are in use behind it.
#[derive(Clone, Copy, Debug, PartialEq, Eq)]
pub struct Ask {
    pub letter: u32,
    pub first: u32,
    pub second: u32,
    pub used: usize,
}

// The call of a line with a fixed number of fields: the byte of its letter and its numbers.
#[derive(Clone, Copy, Debug, PartialEq, Eq)]
pub struct Short {
    pub letter: u32,
    pub first: u32,
    pub second: u32,
}

// The first line: lots, buyers, sessions, slack and whether the file is an estimate.
#[derive(Clone, Copy, Debug, PartialEq, Eq)]
pub struct Head {
    pub vertices: u32,
    pub nets: u32,
    pub blocks: u32,
    pub imbalance: u32,
    pub estimated: bool,
}

// A lot line: least and most bales, which are the same in a sale, session and whether the lot is kept.
#[derive(Clone, Copy, Debug, PartialEq, Eq)]
pub struct Lot {
    pub low: u32,
    pub high: u32,
    pub block: u16,
    pub fixed: bool,
}

// A buyer's line: its weight and where its marks end in the table.
#[derive(Clone, Copy, Debug, PartialEq, Eq)]
pub struct Buyer {
    pub weight: u16,
    pub pins: usize,
}

// A call that has no operands behind those in use.
fn call(letter: u32, first: u32, second: u32) -> Option<Short>
    ensures { result ≡ Some (short_of letter first second) }
{
    Some(Short {
        letter,
        first,
        second,
    })
}

// The call of a call line other than N.
fn short_line(s: &[u8], at: usize, end: usize) -> Option<Short>
    requires { (at ≤ end) × (end ≤ length s.now) }
    ensures { ShortRead (fields (slice at end s.now)) result }
{
    if text::form(s, at, end, b"J") == 3 {
        return call(
            text::letters::J,
            text::get(s, at, end, 1),
            text::get(s, at, end, 2),
        );
    }
    if text::form(s, at, end, b"S") == 1 {
        return call(text::letters::S, 0, 0);
    }
    if text::form(s, at, end, b"M") == 3 {
        return call(
            text::letters::M,
            text::get(s, at, end, 1),
            text::get(s, at, end, 2),
        );
    }
    if text::form(s, at, end, b"B") == 1 {
        return call(text::letters::B, 0, 0);
    }
    if text::form(s, at, end, b"W") == 3 {
        return call(
            text::letters::W,
            text::get(s, at, end, 1),
            text::get(s, at, end, 2),
        );
    }
    if text::form(s, at, end, b"P") == 1 {
        return call(text::letters::P, 0, 0);
    }
    if text::form(s, at, end, b"A") == 1 {
        return call(text::letters::A, 0, 0);
    }
    if text::form(s, at, end, b"X") == 2 {
        return call(text::letters::X, text::get(s, at, end, 1), 0);
    }
    None
}

// The numbers in the fields from `at` to `end`, into the operands from `first` on: where they end there, if each field is a number.
// A number and the comma before it take two bytes, so that operands half as many as the bytes are enough.
fn read_operands(
    s: &[u8],
    at: usize,
    end: usize,
    first: usize,
    operands: &mut [u32],
) -> Option<usize>
    requires { (2 * first < at) × (at ≤ end) × (end ≤ length s.now) × (end ≤ 2 * length operands.old) }
    ensures { OperandsRead (parts 44 (slice at end s.now)) first end result operands.old operands.new }
{
    let mut i = at;
    let mut m = first;
    // No for: a field begins where the last one ended.
    loop {
        let f = text::read_number(s, i, end)?;
        operands[m] = f.value;
        m += 1;
        if f.end == end {
            return Some(m);
        }
        i = f.end + 1;
    }
}

// The numbers of an N line, into the operands from `first` on: where they end there, if the line is one.
fn late_line(s: &[u8], at: usize, end: usize, first: usize, operands: &mut [u32]) -> Option<usize>
    requires { (2 * first ≤ at) × (at ≤ end) × (end ≤ length s.now) × (end ≤ 2 * length operands.old) }
    ensures { LateRead (fields (slice at end s.now)) first end result operands.old operands.new }
{
    let a = text::find(s, at, end, b',');
    if !text::word(s, at, a, b"N") {
        return None;
    }
    if a == end {
        return None;
    }
    let m = read_operands(s, a + 1, end, first, operands)?;
    if m < first + 2 {
        return None;
    }
    Some(m)
}

// The call of a call line. The numbers of an N line go behind the `used` operands: its own two numbers are where they begin and how many
// they are. A line that is no call may change operands behind those in use.
pub fn call_line(s: &[u8], at: usize, end: usize, used: usize, operands: &mut [u32]) -> Option<Ask>
    requires { (2 * used ≤ at) × (at ≤ end) × (end ≤ length s.now) × (end ≤ 2 * length operands.old) × (end ≤ 60000) }
    ensures { CallRead (fields (slice at end s.now)) end used result operands.old operands.new }
{
    if let Some(c) = short_line(s, at, end) {
        return Some(Ask {
            letter: c.letter,
            first: c.first,
            second: c.second,
            used,
        });
    }
    let m = late_line(s, at, end, used, operands)?;
    Some(Ask {
        letter: text::letters::N,
        first: used as u32,
        second: (m - used) as u32,
        used: m,
    })
}

// The numbers of the first line.
fn read_head(
    s: &[u8],
    at: usize,
    end: usize,
    limits: Limits,
    estimated: bool,
) -> Result<Head, Refusal>
    requires { (at ≤ end) × (end ≤ length s.now) × Announces (fields (slice at end s.now)) estimated }
    ensures { SaleRead (limits_of limits) (fields (slice at end s.now)) result }
{
    let vertices = text::get(s, at, end, 1);
    let nets = text::get(s, at, end, 2);
    let blocks = text::get(s, at, end, 3);
    let imbalance = text::get(s, at, end, 4);
    if !between(1, limits.lots, vertices) {
        return Err(Refusal::OutOfRange);
    }
    if !between(0, limits.buyers, nets) {
        return Err(Refusal::OutOfRange);
    }
    if !between(2, limits.sessions, blocks) {
        return Err(Refusal::OutOfRange);
    }
    if !between(0, 1000, imbalance) {
        return Err(Refusal::OutOfRange);
    }
    Ok(Head {
        vertices,
        nets,
        blocks,
        imbalance,
        estimated,
    })
}

// The first line.
pub fn sale_line(s: &[u8], at: usize, end: usize, limits: Limits) -> Result<Head, Refusal>
    requires { (at ≤ end) × (end ≤ length s.now) }
    ensures { SaleRead (limits_of limits) (fields (slice at end s.now)) result }
{
    if text::form(s, at, end, b"EST") == 5 {
        return read_head(s, at, end, limits, true);
    }
    if text::form(s, at, end, b"SALE") == 5 {
        return read_head(s, at, end, limits, false);
    }
    Err(Refusal::BadlyWritten)
}

// Where the fields of a lot line end: before a `,K` at its end, or at the end itself.
fn before_k(s: &[u8], at: usize, end: usize) -> usize
    requires { (at ≤ end) × (end ≤ length s.now) }
    ensures { FieldsEnd s.now at end result }
{
    if end - at < 2 {
        return end;
    }
    if s[end - 1] != b'K' {
        return end;
    }
    if s[end - 2] != b',' {
        return end;
    }
    end - 2
}

// How many numbers a lot line has.
fn numbers_of(estimated: bool) -> usize
    ensures { result ≡ numbers_of estimated }
{
    if estimated { 3 } else { 2 }
}

// Whether a lot's bales are in their range, and in order.
fn check_bales(low: u32, high: u32) -> Result<(), Refusal>
    ensures { refused_as result ≡ bales_refusal low high }
{
    if !between(1, 65535, low) {
        return Err(Refusal::OutOfRange);
    }
    if !between(1, 65535, high) {
        return Err(Refusal::OutOfRange);
    }
    if high < low {
        return Err(Refusal::LowAboveHigh);
    }
    Ok(())
}

// Whether a lot's session is in its range.
fn check_session(block: u32, blocks: u16) -> Result<(), Refusal>
    ensures { refused_as result ≡ session_refusal block blocks }
{
    if !between(1, u32::from(blocks), block) {
        return Err(Refusal::OutOfRange);
    }
    Ok(())
}

// A lot line. In a sale its most bales are its least.
pub fn lot_line(
    s: &[u8],
    at: usize,
    end: usize,
    blocks: u16,
    estimated: bool,
) -> Result<Lot, Refusal>
    requires { (at ≤ end) × (end ≤ length s.now) }
    ensures { LotRead blocks estimated (slice at end s.now) result }
{
    let last = before_k(s, at, end);
    let numbers = numbers_of(estimated);
    let mut values = [0u32; 4];
    if text::read_line(s, at, last, b"LOT", &mut values) != numbers + 1 {
        return Err(Refusal::BadlyWritten);
    }
    let low = values[0];
    let high = values[numbers - 2];
    let block = values[numbers - 1];
    let bales = check_bales(low, high);
    let session = check_session(block, blocks);
    bales.and(session)?;
    Ok(Lot {
        low,
        high,
        block: block as u16,
        fixed: last < end,
    })
}

// One mark more of buyer j; `most` is the limit of marks.
fn put_pin(
    v: u32,
    vertices: u32,
    most: usize,
    j: u16,
    m: usize,
    loadedpins: &mut [u16],
    stamps: &mut [u16; 1024],
) -> Result<(), Refusal>
    requires { (vertices ≤ 1024) × (most ≤ length loadedpins.old) × (length stamps.old ≡ 1024) }
    ensures { MarkOne v vertices most j m (refused_as result) loadedpins.old stamps.old loadedpins.new stamps.new }
{
    if v < 1 {
        return Err(Refusal::OutOfRange);
    }
    if vertices < v {
        return Err(Refusal::OutOfRange);
    }
    let x = (v - 1) as usize;
    if stamps[x] == j {
        return Err(Refusal::MarkedTwice);
    }
    if most <= m {
        return Err(Refusal::TooManyMarks);
    }
    loadedpins[m] = v as u16;
    stamps[x] = j;
    Ok(())
}

// The refusal `q` of a line whose fields from `at` on are numbers: the form of a line is tested before what stands in it.
fn after_form(s: &[u8], at: usize, end: usize, q: Refusal) -> Refusal
    requires { (1 ≤ at) × (at ≤ end) × (end ≤ length s.now) }
    ensures { number_of result ≡ refusal_of (number_of q) (parts 44 (slice at end s.now)) }
{
    if text::count(s, at, end) == 0 {
        return Refusal::BadlyWritten;
    }
    q
}

// The marks of buyer j, in the fields from `at` to `end`, into the table from `first` on, `most` in all. Each field is tested and read at once.
fn read_pins(
    s: &[u8],
    at: usize,
    end: usize,
    vertices: u32,
    most: usize,
    j: u16,
    first: usize,
    loadedpins: &mut [u16],
    stamps: &mut [u16; 1024],
) -> Result<usize, Refusal>
    requires { (1 ≤ at) × (at ≤ end) × (end ≤ length s.now) × (vertices ≤ 1024) × (first ≤ most)
        × (most ≤ length loadedpins.old) × (length stamps.old ≡ 1024) × Fresh j stamps.old }
    ensures { MarksRead (parts 44 (slice at end s.now)) vertices most j first result loadedpins.old loadedpins.new stamps.new }
{
    let mut i = at;
    let mut m = first;
    // No for: a field begins where the last one ended.
    loop {
        let f = text::read_number(s, i, end).ok_or(Refusal::BadlyWritten)?;
        if let Err(q) = put_pin(f.value, vertices, most, j, m, loadedpins, stamps) {
            return Err(after_form(s, i, end, q));
        }
        m += 1;
        if f.end == end {
            return Ok(m);
        }
        i = f.end + 1;
    }
}

// The weight of a buyer's line and where its field ends, if the line begins as one and has a lot.
fn read_weight(s: &[u8], at: usize, end: usize) -> Option<Number>
    requires { (at ≤ end) × (end ≤ length s.now) }
    ensures { WeightSeen s.now at end result }
{
    let a = text::find(s, at, end, b',');
    if !text::word(s, at, a, b"BUY") {
        return None;
    }
    if a == end {
        return None;
    }
    let f = text::read_number(s, a + 1, end)?;
    if f.end == end {
        return None;
    }
    Some(f)
}

// The line of buyer j; `most` is the limit of marks in all.
pub fn buy_line(
    s: &[u8],
    at: usize,
    end: usize,
    vertices: u32,
    most: usize,
    j: u16,
    first: usize,
    loadedpins: &mut [u16],
    stamps: &mut [u16; 1024],
) -> Result<Buyer, Refusal>
    requires { (at ≤ end) × (end ≤ length s.now) × (vertices ≤ 1024) × (first ≤ most) × (most ≤ length loadedpins.old) × (length stamps.old ≡ 1024) × Fresh j stamps.old }
    ensures { BuyRead (fields (slice at end s.now)) vertices most j first result loadedpins.old loadedpins.new stamps.new }
{
    let f = read_weight(s, at, end).ok_or(Refusal::BadlyWritten)?;
    let marks = f.end + 1;
    if !between(1, 1000, f.value) {
        return Err(after_form(s, marks, end, Refusal::OutOfRange));
    }
    let m = read_pins(s, marks, end, vertices, most, j, first, loadedpins, stamps)?;
    Ok(Buyer {
        weight: f.value as u16,
        pins: m,
    })
}
