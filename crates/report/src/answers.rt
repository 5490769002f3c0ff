// What a call answers, and the lines of answers and refusals.
ghost use Rattle.std.specs.Prelude.{[], ◌∷◌, ◌+◌, ◌≤◌, length};
ghost use Rattle.model.specs.Report.{digits, row, answer_row};
ghost use Rattle.fields.specs.Wrote.{Wrote};
ghost use Rattle.report.specs.Meaning.{answer_of, said};

use fields::put_row;

// The answer to a call that is not refused, with the numbers that its line prints. A total is the metric after the call.
#[derive(Clone, Copy)]
pub enum Answer {
    // J
    Contracted {
        weight: u32,
    },
    // S
    Uncontracted {
        into: u32,
        gone: u32,
    },
    // M
    Moved {
        freed: u32,
        drawn: u32,
        total: u32,
    },
    // B
    Reversed {
        vertex: u32,
        block: u32,
        total: u32,
    },
    // W
    Walked {
        tried: u32,
        kept: u32,
        total: u32,
    },
    // P
    Polished {
        moves: u32,
        total: u32,
    },
    // A
    Cycled {
        contractions: u32,
        tried: u32,
        kept: u32,
        moves: u32,
        total: u32,
    },
    // X
    Withdrawn {
        total: u32,
    },
    // N
    Added {
        lot: u32,
        total: u32,
    },
}

// Writes the line of a call that is not refused.
fn put_done(out: &mut [u8], at: usize, a: Answer) -> usize
    requires { at + length (answer_row (answer_of a)) ≤ length out.old }
    ensures { Wrote out.old out.new at (answer_row (answer_of a)) result }
{
    match a {
        Answer::Contracted { weight } => put_row(out, at, b"J", &[weight]),
        Answer::Uncontracted { into, gone } => put_row(out, at, b"S", &[into, gone]),
        Answer::Moved {
            freed,
            drawn,
            total,
        } => { put_row(out, at, b"M", &[freed, drawn, total]) }
        Answer::Reversed {
            vertex,
            block,
            total,
        } => { put_row(out, at, b"B", &[vertex, block, total]) }
        Answer::Walked { tried, kept, total } => { put_row(out, at, b"W", &[tried, kept, total]) }
        Answer::Polished { moves, total } => put_row(out, at, b"P", &[moves, total]),
        Answer::Cycled {
            contractions,
            tried,
            kept,
            moves,
            total,
        } => { put_row(out, at, b"A", &[contractions, tried, kept, moves, total]) }
        Answer::Withdrawn { total } => put_row(out, at, b"X", &[total]),
        Answer::Added { lot, total } => put_row(out, at, b"N", &[lot, total]),
    }
}

// Writes the line of an answer, or of a call's refusal by its number.
pub fn put_answer(out: &mut [u8], at: usize, answer: Result<Answer, u32>) -> usize
    requires { at + length (answer_row (said answer)) ≤ length out.old }
    ensures { Wrote out.old out.new at (answer_row (said answer)) result }
{
    match answer {
        Ok(done) => put_done(out, at, done),
        Err(number) => put_row(out, at, b"NO", &[number]),
    }
}

// Writes the refusal of a file: its number, and the line that it is placed on.
pub fn put_refusal(out: &mut [u8], at: usize, number: u32, line: u32) -> usize
    requires { at + length (row "NO" (digits number ∷ digits line ∷ [])) ≤ length out.old }
    ensures { Wrote out.old out.new at (row "NO" (digits number ∷ digits line ∷ [])) result }
{
    put_row(out, at, b"NO", &[number, line])
}
