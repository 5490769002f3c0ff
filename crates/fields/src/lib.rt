// A line of a text: a word, fields behind commas, a line feed. Each function writes from `at` on and says where its text ends.
#![tactic(auto)]

ghost use Rattle.std.specs.Prelude.{◌∷◌, ◌++◌, ◌+◌, ◌≤◌, length};
ghost use Rattle.model.specs.Report.{digits, tail};
ghost use Rattle.model.specs.CatalogueText.{numbers};
ghost use Rattle.fields.specs.Wrote.{Wrote};

use text::put_number;

// Writes a word.
pub fn put_word(out: &mut [u8], at: usize, w: &[u8]) -> usize
    requires { at + length w.now ≤ length out.old }
    ensures { Wrote out.old out.new at w.now result }
{
    let end = at + w.len();
    out[at..end].copy_from_slice(w);
    end
}

// Writes a comma and a number.
pub fn put_field(out: &mut [u8], at: usize, x: u32) -> usize
    requires { at + 1 + length (digits x) ≤ length out.old }
    ensures { Wrote out.old out.new at (44 ∷ digits x) result }
{
    out[at] = 44;
    put_number(out, at + 1, x)
}

// Writes fields and the line feed.
pub fn put_tail(out: &mut [u8], at: usize, xs: &[u32]) -> usize
    requires { at + length (tail (numbers xs.now)) ≤ length out.old }
    ensures { Wrote out.old out.new at (tail (numbers xs.now)) result }
{
    let mut p = at;
    for x in xs {
        p = put_field(out, p, *x);
    }
    out[p] = 10;
    p + 1
}

// Writes a line whose fields are numbers.
pub fn put_row(out: &mut [u8], at: usize, w: &[u8], xs: &[u32]) -> usize
    requires { at + length (w.now ++ tail (numbers xs.now)) ≤ length out.old }
    ensures { Wrote out.old out.new at (w.now ++ tail (numbers xs.now)) result }
{
    let p = put_word(out, at, w);
    put_tail(out, p, xs)
}
