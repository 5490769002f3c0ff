// A line of numbers, one or more spaces apart: the words of a line, the numbers in it, and the vertices of an edge, checked and written.
// Each function is proved against a definition of an hMETIS file.
#![tactic(auto)]

ghost use Rattle.std.specs.Prelude.{◌≡◌, true, false, map, ℕ, ◌+◌, ◌≤◌, ◌<◌, length, MatchOption};
ghost use Rattle.std.proofs.Math.Seq.{slice};
ghost use Rattle.laws.specs.Fold.{all};
ghost use Rattle.model.specs.Grammar.{is_number, value, at as field_at};
ghost use Rattle.model.specs.Report.{digits};
ghost use Rattle.fields.specs.Wrote.{Wrote};
ghost use Rattle.model.specs.Hmetis.{words, numbers_in, is_edge, edge_of};
ghost use Rattle.spaced.specs.Row.{Skipped, Numbers, DigitsRead, NoWord, WordRead, LeadRead};
ghost use Rattle.spaced.specs.Pins.{Fresh, StampOne, commas, NoPins, PinsChecked, NoEdge, EdgeChecked, edge_row};

use text::between;

// A word that is a number: its value, and where it ends.
#[derive(Clone, Copy)]
pub struct Word {
    pub value: u32,
    pub end: usize,
}

// The lead of an edge's line: the edge's weight, and where its first vertex stands.
#[derive(Clone, Copy)]
pub struct Lead {
    pub weight: u32,
    pub first: usize,
}

// The vertices of an edge: how many; whether they can be carried over; how many bytes their text has.
#[derive(Clone, Copy)]
pub struct Pins {
    pub count: usize,
    pub carried: bool,
    pub size: usize,
}

// The first byte at or after `at` and before `end` that is no space, or `end`. No Option: a word begins there either way.
pub fn skip(s: &[u8], at: usize, end: usize) -> usize
    requires { (at ≤ end) × (end ≤ length s.now) }
    ensures { Skipped s.now at end result }
{
    for i in at..end {
        if s[i] != 32 {
            return i;
        }
    }
    end
}

// Whether the bytes from `at` to `end` are a number.
pub fn is_number(s: &[u8], at: usize, end: usize) -> bool
    requires { (at ≤ end) × (end ≤ length s.now) }
    ensures { result ≡ is_number (slice at end s.now) }
{
    if at == end {
        return false;
    }
    text::number_end(s, at, end) == end
}

// The number from `at` to `end`.
pub fn read(s: &[u8], at: usize, end: usize) -> u32
    requires { (at ≤ end) × (end ≤ length s.now) × (is_number (slice at end s.now) ≡ true) }
    ensures { result ≡ value (slice at end s.now) }
{
    text::read_field(s, at, end).value
}

// The number from `at` to `end`, if it is one.
pub fn read_if_number(s: &[u8], at: usize, end: usize) -> Option<u32>
    requires { (at ≤ end) × (end ≤ length s.now) }
    ensures { MatchOption result (is_number (slice at end s.now) ≡ false)
        (λ v. (is_number (slice at end s.now) ≡ true) × (v ≡ value (slice at end s.now))) }
{
    if !is_number(s, at, end) {
        return None;
    }
    Some(read(s, at, end))
}

// The word from `at` to `end`, which is digits of the value v, nine at most.
fn digits_word(s: &[u8], at: usize, end: usize, v: u32) -> Option<Word>
    requires { (at ≤ end) × (end ≤ length s.now) }
    ensures { (to : ℕ) → DigitsRead s.now at to end v → MatchOption result (NoWord s.now at to) (λ w. WordRead s.now at to w.value w.end) }
{
    if at == end {
        return None;
    }
    if s[at] == 48 && 1 < end - at {
        return None;
    }
    Some(Word { value: v, end: end })
}

// The word from `at` on, if it is a number, each byte read once: a pass over an input has a word for each number in it.
pub fn number(s: &[u8], at: usize, end: usize) -> Option<Word>
    requires { (at ≤ end) × (end ≤ length s.now) }
    ensures { MatchOption result (NoWord s.now at end) (λ w. WordRead s.now at end w.value w.end) }
{
    let mut v: u32 = 0;
    for i in at..end {
        let b = s[i];
        if b == 32 {
            return digits_word(s, at, i, v);
        }
        if b < 48 {
            return None;
        }
        if 57 < b {
            return None;
        }
        if 9 <= i - at {
            return None;
        }
        v = v * 10 + (b - 48) as u32;
    }
    digits_word(s, at, end, v)
}

// How many numbers the line from `at` to `end` has; 0 where it has anything else. No Option: a line has a word, so that 0 is no count, and
// callers ask for 2 or 3 alone.
pub fn count(s: &[u8], at: usize, end: usize) -> usize
    requires { (at ≤ end) × (end ≤ length s.now) }
    ensures { result ≡ numbers_in (slice at end s.now) }
{
    let mut i = at;
    let mut k: usize = 0;
    // No for: a word begins where the last one ended.
    loop {
        let e = text::find(s, i, end, 32);
        if !is_number(s, i, e) {
            return 0;
        }
        k += 1;
        if e == end {
            return k;
        }
        i = skip(s, e + 1, end);
    }
}

// The number of a line that n numbers stand before.
pub fn get(s: &[u8], at: usize, end: usize, n: usize) -> u32
    requires { (at ≤ end) × (end ≤ length s.now) × Numbers (slice at end s.now) n }
    ensures { result ≡ field_at (words (slice at end s.now)) n }
{
    let mut i = at;
    for k in 0..n {
        let e = text::find(s, i, end, 32);
        i = skip(s, e + 1, end);
    }
    let e = text::find(s, i, end, 32);
    read(s, i, e)
}

// How many digits x has.
pub fn width(x: u32) -> usize
    ensures { (result ≡ length (digits x)) × (result ≤ 10) }
{
    let mut y = x;
    let mut n: usize = 1;
    // No for: each turn divides, and no index is counted.
    while 10 <= y {
        y = y / 10;
        n += 1;
    }
    n
}

// The lead of an edge's line: its weight, where edges have one.
pub fn read_lead(s: &[u8], at: usize, end: usize, weighted: bool) -> Option<Lead>
    requires { (at ≤ end) × (end ≤ length s.now) }
    ensures { MatchOption result (is_edge weighted (slice at end s.now) ≡ false) (λ x. LeadRead s.now at end weighted x.weight x.first) }
{
    if !weighted {
        return Some(Lead {
            weight: 1,
            first: at,
        });
    }
    let x = number(s, at, end)?;
    let e = x.end;
    if e == end {
        return None;
    }
    let f = skip(s, e + 1, end);
    Some(Lead {
        weight: x.value,
        first: f,
    })
}

// One vertex more of edge j: whether it is one of the vertices, and was not named before.
pub fn stamp(v: u32, vertices: u32, j: u16, stamps: &mut [u16; 1024]) -> bool
    requires { (vertices ≤ 1024) × (length stamps.old ≡ 1024) }
    ensures { StampOne v vertices j result stamps.old stamps.new }
{
    if v < 1 {
        return false;
    }
    if vertices < v {
        return false;
    }
    let x = (v - 1) as usize;
    if stamps[x] == j {
        return false;
    }
    stamps[x] = j;
    true
}

// The vertices of edge j, in the words from `at` on, if all are numbers.
pub fn check_pins(
    s: &[u8],
    at: usize,
    end: usize,
    vertices: u32,
    j: u16,
    stamps: &mut [u16; 1024],
) -> Option<Pins>
    requires { (at ≤ end) × (end ≤ length s.now) × (end ≤ 60000) × (vertices ≤ 1024) × (length stamps.old ≡ 1024) × Fresh j stamps.old }
    ensures { MatchOption result (NoPins s.now at end stamps.new)
        (λ x. PinsChecked s.now at end vertices j x.count x.carried x.size stamps.new) }
{
    let mut i = at;
    let mut n: usize = 0;
    let mut good = true;
    let mut size: usize = 0;
    // No for: a word begins where the last one ended.
    loop {
        let x = number(s, i, end)?;
        let v = x.value;
        let e = x.end;
        good &= stamp(v, vertices, j, stamps);
        n += 1;
        size += 1 + width(v);
        if e == end {
            return Some(Pins {
                count: n,
                carried: good,
                size,
            });
        }
        i = skip(s, e + 1, end);
    }
}

// Edge j, in the line from `at` to `end`, if it is well written: whether it can be carried over, and how long its line of the catalogue is.
pub fn check_edge(
    s: &[u8],
    at: usize,
    end: usize,
    weighted: bool,
    vertices: u32,
    j: u16,
    stamps: &mut [u16; 1024],
) -> Option<Pins>
    requires { (at ≤ end) × (end ≤ length s.now) × (end ≤ 60000) × (vertices ≤ 1024) × (length stamps.old ≡ 1024) × Fresh j stamps.old }
    ensures { MatchOption result (NoEdge s.now at end weighted stamps.new)
        (λ x. EdgeChecked s.now at end weighted vertices j x.count x.carried x.size stamps.new) }
{
    let x = read_lead(s, at, end, weighted)?;
    let w = x.weight;
    let r = check_pins(s, x.first, end, vertices, j, stamps)?;
    Some(Pins {
        count: r.count,
        carried: between(1, 1000, w) & r.carried,
        size: r.size + 5 + width(w),
    })
}

// Writes the numbers in the words from `at` on, each behind a comma, from p on.
pub fn put_pins(s: &[u8], at: usize, end: usize, out: &mut [u8], p: usize) -> usize
    requires { (at ≤ end) × (end ≤ length s.now) × (all (words (slice at end s.now)) is_number ≡ true)
        × (p + length (commas (map value (words (slice at end s.now)))) ≤ length out.old) }
    ensures { Wrote out.old out.new p (commas (map value (words (slice at end s.now)))) result }
{
    let mut i = at;
    let mut q = p;
    // No for: a word begins where the last one ended.
    loop {
        let x = number(s, i, end).unwrap();
        let v = x.value;
        let e = x.end;
        q = fields::put_field(out, q, v);
        if e == end {
            return q;
        }
        i = skip(s, e + 1, end);
    }
}

// Writes the line of the edge in the line from `at` to `end`, from p on.
pub fn put_edge(s: &[u8], at: usize, end: usize, weighted: bool, out: &mut [u8], p: usize) -> usize
    requires { (at ≤ end) × (end ≤ length s.now) × (is_edge weighted (slice at end s.now) ≡ true)
        × (p + length (edge_row (edge_of weighted (slice at end s.now))) ≤ length out.old) }
    ensures { Wrote out.old out.new p (edge_row (edge_of weighted (slice at end s.now))) result }
{
    let x = read_lead(s, at, end, weighted).unwrap();
    let w = x.weight;
    let f = x.first;
    let a = fields::put_word(out, p, b"BUY");
    let b = fields::put_field(out, a, w);
    let c = put_pins(s, f, end, out, b);
    out[c] = 10;
    c + 1
}
