// A hall's own lines: the first line, and the call lines, each led by the number of a catalogue. Each function is proved against a definition of
// model. Rests on lines and reader.
#![tactic(auto)]

ghost use Rattle.std.specs.Prelude.{◌*◌, ◌≤◌, length};
ghost use Rattle.std.proofs.Math.Seq.{slice};
ghost use Rattle.model.specs.Grammar.{fields};
ghost use Rattle.hall_lines.specs.Heading.{FirstRead};
ghost use Rattle.hall_lines.specs.Leading.{LedRead};
ghost use Rattle.hall_lines.specs.LedTable.{LedCallsRead};

use lines::Ask;
use refusal::{Refusal, Refused};
use text::between;

// The first line: how many catalogues there are, and the limit of bales in a session.
#[derive(Clone, Copy, Debug, PartialEq, Eq)]
pub struct First {
    pub catalogues: u32,
    pub limit: u32,
}

// A call line: the number of the catalogue that leads it, and the call behind.
#[derive(Clone, Copy, Debug, PartialEq, Eq)]
pub struct LedAsk {
    pub catalogue: u32,
    pub ask: Ask,
}

// The first line, which ends before `end`.
pub fn hall_line(s: &[u8], end: usize) -> Result<First, Refusal>
    requires { end ≤ length s.now }
    ensures { FirstRead (fields (slice 0 end s.now)) result }
{
    let mut values = [0u32; 4];
    if text::read_line(s, 0, end, b"HALL", &mut values) != 3 {
        return Err(Refusal::BadlyWritten);
    }
    let catalogues = values[0];
    let limit = values[1];
    if !between(2, 4, catalogues) {
        return Err(Refusal::OutOfRange);
    }
    if !between(1, 999999999, limit) {
        return Err(Refusal::OutOfRange);
    }
    Ok(First { catalogues, limit })
}

// A call line: a number, a comma and a call. The operands are as `call_line` has them.
pub fn led_line(
    s: &[u8],
    at: usize,
    end: usize,
    used: usize,
    operands: &mut [u32],
) -> Option<LedAsk>
    requires { (2 * used ≤ at) × (at ≤ end) × (end ≤ length s.now) × (end ≤ 2 * length operands.old) × (end ≤ 60000) }
    ensures { LedRead (fields (slice at end s.now)) end used result operands.old operands.new }
{
    let lead = text::read_number(s, at, end)?;
    if lead.end == end {
        return None;
    }
    let ask = lines::call_line(s, lead.end + 1, end, used, operands)?;
    Some(LedAsk {
        catalogue: lead.value,
        ask,
    })
}

// Reads the call lines, the first of which is the n-th line, of a hall of `count` catalogues, and says how many there are. A sale's are read by
// `reader::read_calls`: model reads the two by definitions of their own, and the tables have four and three numbers for a call.
pub fn read_led_calls(
    s: &[u8],
    at: usize,
    n: usize,
    count: u32,
    calls: &mut [u32],
    operands: &mut [u32],
) -> Result<usize, Refused>
    requires { (at ≤ length s.now) × (length s.now ≤ 60000) × (n ≤ 4096) × (2048 ≤ length calls.old) × (30000 ≤ length operands.old) }
    ensures { LedCallsRead count s.now at n result calls.new operands.new }
{
    let len = s.len();
    let mut i = at;
    let mut c: usize = 0;
    let mut used: usize = 0;
    // No for: a line begins where the last one ended.
    while i < len {
        if c == 512 {
            return Err(Refusal::TooManyCalls.at(n + c));
        }
        let e = text::line_end(s, i, len);
        if e == len {
            return Err(Refusal::BadlyWritten.at(n + c));
        }
        let Some(led) = led_line(s, i, e, used, operands) else {
            return Err(Refusal::BadlyWritten.at(n + c));
        };
        if !between(1, count, led.catalogue) {
            return Err(Refusal::OutOfRange.at(n + c));
        }
        let x = 4 * c;
        calls[x] = led.catalogue;
        calls[x + 1] = led.ask.letter;
        calls[x + 2] = led.ask.first;
        calls[x + 3] = led.ask.second;
        c += 1;
        used = led.ask.used;
        i = e + 1;
    }
    Ok(c)
}
