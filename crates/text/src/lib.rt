// Fields, lines and numbers of a sale file, and numbers written into a buffer. Each function is proved against a definition of model.
#![tactic(auto)]

pub mod letters;

ghost use Rattle.std.specs.Prelude.{◌≡◌, false, ◌||◌, ◌+◌, ◌-◌, ◌≤◌, ◌<◌, length, drop};
ghost use Rattle.std.proofs.Math.Seq.{slice};
ghost use Rattle.model.specs.Grammar.{same, parts, fields, within, at as field_at};
ghost use Rattle.model.specs.Report.{digits};
ghost use Rattle.text.specs.Field.{FirstAt, Without, NineDigits, DigitsRead, NumberEnd, NumberSeen, FieldRead, Keeps, Kept, counted, form_of, Numbered};
ghost use Rattle.text.specs.Output.{written, last_three, sign_of};

// A number, and where its field ends.
#[derive(Clone, Copy)]
pub struct Number {
    pub value: u32,
    pub end: usize,
}

// A number's size, and on which side of 0 it lies.
#[derive(Clone, Copy)]
pub enum Sign {
    Plus(u32),
    Minus(u32),
}

// The first `sep` at or after `at` and before `end`, or `end`: a field ends there either way, so that callers have one case and no Option.
pub fn find(s: &[u8], at: usize, end: usize, sep: u8) -> usize
    requires { (at ≤ end) × (end ≤ length s.now) }
    ensures { FirstAt s.now at end sep result }
{
    for i in at..end {
        if s[i] == sep {
            return i;
        }
    }
    end
}

// Whether one of the 16 bytes from `at` on is `b`. All are tested, with no branch between them, so that the compiler tests them at once.
fn sixteen_have(s: &[u8], at: usize, b: u8) -> bool
    requires { at + 16 ≤ length s.now }
    ensures { result ≡ false → Without s.now at 16 b }
{
    let mut found = false;
    for j in 0..16 {
        found |= s[at + j] == b;
    }
    found
}

// Where the line from `at` on ends: the first line feed before `end`, or `end`. A line may be long, so 16 bytes at a time are passed over.
pub fn line_end(s: &[u8], at: usize, end: usize) -> usize
    requires { (at ≤ end) × (end ≤ length s.now) }
    ensures { FirstAt s.now at end 10 result }
{
    let mut i = at;
    while 16 <= end - i {
        if sixteen_have(s, i, b'\n') {
            return find(s, i, end, b'\n');
        }
        i += 16;
    }
    find(s, i, end, b'\n')
}

// Where nine digits from `at` on would end, or `end` where that comes before it.
fn nine_digits(at: usize, end: usize) -> usize
    requires { at ≤ end }
    ensures { NineDigits at end result }
{
    at + (end - at).min(9)
}

// The digits from `at` on, up to `end` at most, as a number, and where they stop. Each is tested and read at once.
fn read_digits(s: &[u8], at: usize, end: usize) -> Number
    requires { (at ≤ end) × (end ≤ length s.now) × (end ≤ at + 9) }
    ensures { DigitsRead s.now at end result.value result.end }
{
    let mut v: u32 = 0;
    let mut i = at;
    // No for: the place where it stops is part of the answer.
    while i < end {
        let b = s[i];
        if !b.is_ascii_digit() {
            return Number { value: v, end: i };
        }
        v = v * 10 + u32::from(b - b'0');
        i += 1;
    }
    Number { value: v, end: i }
}

// The number in the field from `at` on, if the field is one: a number has a digit.
pub fn read_number(s: &[u8], at: usize, end: usize) -> Option<Number>
    requires { (at ≤ end) × (end ≤ length s.now) }
    ensures { NumberSeen s.now at end result }
{
    let stop = nine_digits(at, end);
    let d = read_digits(s, at, stop);
    let e = d.end;
    if e == at {
        return None;
    }
    if 1 < e - at && s[at] == b'0' {
        return None;
    }
    if e < end && s[e] != b',' {
        return None;
    }
    Some(d)
}

// Where the field from `at` on ends, if it is a number; else `at`. No Option: its callers compare it with the field's end.
pub fn number_end(s: &[u8], at: usize, end: usize) -> usize
    requires { (at ≤ end) × (end ≤ length s.now) }
    ensures { NumberEnd s.now at end result }
{
    match read_number(s, at, end) {
        Some(n) => n.end,
        None => at,
    }
}

// The number in the field from `at` on, which is one, and where the field ends.
pub fn read_field(s: &[u8], at: usize, end: usize) -> Number
    requires { (at ≤ end) × (end ≤ length s.now) × Numbered (fields (slice at end s.now)) 0 }
    ensures { FieldRead s.now at end result.value result.end }
{
    read_number(s, at, end).unwrap()
}

// x is neither below low nor above high.
pub fn between(low: u32, high: u32, x: u32) -> bool
    ensures { result ≡ within low high x }
{
    (low..=high).contains(&x)
}

// Whether the field from `at` to `end` is `w`.
pub fn word(s: &[u8], at: usize, end: usize, w: &[u8]) -> bool
    requires { (at ≤ end) × (end ≤ length s.now) }
    ensures { result ≡ same (slice at end s.now) w.now }
{
    &s[at..end] == w
}

// Keeps the k-th number of a line, the first being 1, where it is one of the first four.
fn keep(values: &mut [u32; 4], k: usize, v: u32)
    requires { (1 ≤ k) × (length values.old ≡ 4) }
    ensures { Keeps k v values.old values.new }
{
    if 4 < k {
        return;
    }
    values[k - 1] = v;
}

// One more than the number of fields from `at` to `end`, if each is a number, with the first four of them as values; else 0. Each field is
// tested and read at once.
fn read_numbers(s: &[u8], at: usize, end: usize, values: &mut [u32; 4]) -> usize
    requires { (1 ≤ at) × (at ≤ end) × (end ≤ length s.now) × (length values.old ≡ 4) }
    ensures { (result ≡ counted 1 (parts 44 (slice at end s.now))) × Kept (parts 44 (slice at end s.now)) result values.new }
{
    let mut i = at;
    let mut k: usize = 1;
    // No for: a field begins where the last one ended.
    loop {
        let Some(f) = read_number(s, i, end) else {
            return 0;
        };
        keep(values, k, f.value);
        k += 1;
        if f.end == end {
            return k;
        }
        i = f.end + 1;
    }
}

// One more than the number of fields from `at` to `end`, if each is a number; else 0, which callers compare with the number that they want.
pub fn count(s: &[u8], at: usize, end: usize) -> usize
    requires { (1 ≤ at) × (at ≤ end) × (end ≤ length s.now) }
    ensures { result ≡ counted 1 (parts 44 (slice at end s.now)) }
{
    let mut values = [0u32; 4];
    read_numbers(s, at, end, &mut values)
}

// A line's form: how many fields it has, if it begins with `w` and goes on with numbers, with the first four of them as values; else 0,
// since a form has a field.
pub fn read_line(s: &[u8], at: usize, end: usize, w: &[u8], values: &mut [u32; 4]) -> usize
    requires { (at ≤ end) × (end ≤ length s.now) × (length values.old ≡ 4) }
    ensures { (result ≡ form_of w.now (fields (slice at end s.now))) × Kept (drop 1 (fields (slice at end s.now))) result values.new }
{
    let a = find(s, at, end, b',');
    if !word(s, at, a, w) {
        return 0;
    }
    if a == end {
        return 1;
    }
    read_numbers(s, a + 1, end, values)
}

// A line's form: how many fields it has, if it begins with `w` and goes on with numbers; else 0. Callers compare it with the number they want,
// which an Option makes no plainer.
pub fn form(s: &[u8], at: usize, end: usize, w: &[u8]) -> usize
    requires { (at ≤ end) × (end ≤ length s.now) }
    ensures { result ≡ form_of w.now (fields (slice at end s.now)) }
{
    let mut values = [0u32; 4];
    read_line(s, at, end, w, &mut values)
}

// The number in the i-th field.
pub fn get(s: &[u8], at: usize, end: usize, i: usize) -> u32
    requires { (at ≤ end) × (end ≤ length s.now) × Numbered (fields (slice at end s.now)) i }
    ensures { result ≡ field_at (fields (slice at end s.now)) i }
{
    let mut a = at;
    for _ in 0..i {
        a = find(s, a, end, b',') + 1;
    }
    read_field(s, a, end).value
}

// Writes the last three digits of x from `at` on, and says where they end.
fn put_three(out: &mut [u8], at: usize, x: u32) -> usize
    requires { at + 3 ≤ length out.old }
    ensures { (result ≡ at + 3) × (out.new ≡ written out.old at (last_three x)) }
{
    out[at] = b'0' + (x / 100 % 10) as u8;
    out[at + 1] = b'0' + (x / 10 % 10) as u8;
    out[at + 2] = b'0' + (x % 10) as u8;
    at + 3
}

// Writes x, below 1,000, in base ten from `at` on, and says where it ends.
fn put_short(out: &mut [u8], at: usize, x: u32) -> usize
    requires { (x < 1000) × (at + length (digits x) ≤ length out.old) }
    ensures { (result ≡ at + length (digits x)) × (out.new ≡ written out.old at (digits x)) }
{
    if x < 10 {
        out[at] = b'0' + x as u8;
        return at + 1;
    }
    if x < 100 {
        out[at] = b'0' + (x / 10) as u8;
        out[at + 1] = b'0' + (x % 10) as u8;
        return at + 2;
    }
    put_three(out, at, x)
}

// Writes x in base ten from `at` on, and says where it ends.
pub fn put_number(out: &mut [u8], at: usize, x: u32) -> usize
    requires { at + length (digits x) ≤ length out.old }
    ensures { (result ≡ at + length (digits x)) × (out.new ≡ written out.old at (digits x)) }
{
    if x < 1000 {
        return put_short(out, at, x);
    }
    let n = put_number(out, at, x / 1000);
    put_three(out, n, x)
}

// A number's size and its side of 0.
pub fn side(x: i32) -> Sign
    ensures { result ≡ sign_of x }
{
    if x < 0 {
        let m = (-1 - x) as u32;
        return Sign::Minus(m + 1);
    }
    Sign::Plus(x as u32)
}
