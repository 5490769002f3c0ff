// One led call line of a hall: what the others leave to its catalogue, its lead, and the call line on the catalogue's set of tables.
#![tactic(auto)]

ghost use Rattle.std.specs.Prelude.{◌+◌, ◌≤◌, ◌≡◌, [], ◌∷◌, ◌++◌, length};
ghost use Rattle.model.specs.Grammar.{letter_n};
ghost use Rattle.model.specs.Report.{digits};
ghost use Rattle.fields.specs.Wrote.{Wrote};
ghost use Rattle.call_list.specs.Asked.{request_of};
ghost use Rattle.hall_step.specs.Sets.{sets};
ghost use Rattle.hall_led.specs.Led.{led_by, LedReady, LedDone};

use call_list::course::{Course, Frame};
use hall_rooms::{ceilings, rooms};
use hall_step::step_on;
use text::put_number;

mod others;

use others::{lots_left, marks_left};

// What no call changes of a catalogue: how many nets and blocks it has, ⌈W/k⌉, and its cap. The frame's `lots` has no use here.
#[derive(Clone, Copy)]
pub struct Terms {
    pub frame: Frame,
    pub cap: u64,
}

// Where the catalogues stand after a led call line, and where the output's text ends.
#[derive(Clone, Copy)]
pub struct LedTurn {
    pub courses: [Course; 4],
    pub at: usize,
}

// Writes what leads a line: the catalogue's number and a comma.
fn put_lead(out: &mut [u8], at: usize, desk: u32) -> usize
    requires { at + length (digits desk ++ (44 ∷ [])) ≤ length out.old }
    ensures { Wrote out.old out.new at (digits desk ++ (44 ∷ [])) result }
{
    let p = put_number(out, at, desk);
    out[p] = 44;
    p + 1
}

// A call line of the catalogue `desk`, counted from 1.
pub fn led(
    output: &mut [u8],
    counts: &mut [[u16; 16384]],
    visited: &mut [[u16; 1024]],
    gains: &mut [[i32; 16384]],
    index: &mut [[u16; 16384]],
    presentpins: &mut [[u16; 8192]],
    presentsizes: &mut [[u16; 1024]],
    bits: &mut [[u64; 16384]],
    blocks: &mut [[u16; 1024]],
    weights: &mut [[u32; 1024]],
    aboves: &mut [[u16; 1024]],
    fixed: &mut [[u16; 1024]],
    loads: &mut [[u64; 16]],
    loadedpins: &mut [[u16; 8192]],
    firsts: &mut [[u16; 1024]],
    loadedsizes: &mut [[u16; 1024]],
    netweights: &[[u16; 1024]],
    operands: &[u32],
    limit: u64,
    count: usize,
    ks: [usize; 4],
    terms: [Terms; 4],
    courses: [Course; 4],
    at: usize,
    desk: u32,
    letter: u32,
    x: usize,
    y: usize,
) -> LedTurn
    requires led_ready { LedReady (sets counts.old visited.old gains.old index.old presentpins.old presentsizes.old bits.old blocks.old weights.old aboves.old fixed.old loads.old loadedpins.old firsts.old loadedsizes.old) netweights.now limit count ks terms courses (length output.old) at (led_by desk (request_of operands.now letter x y)) }
    requires le_y { letter ≡ letter_n → (2 ≤ y) × (x + y ≤ length operands.now) }
    ensures { LedDone (sets counts.old visited.old gains.old index.old presentpins.old presentsizes.old bits.old blocks.old weights.old aboves.old fixed.old loads.old loadedpins.old firsts.old loadedsizes.old) (sets counts.new visited.new gains.new index.new presentpins.new presentsizes.new bits.new blocks.new weights.new aboves.new fixed.new loads.new loadedpins.new firsts.new loadedsizes.new) netweights.now limit count ks terms courses result.courses (led_by desk (request_of operands.now letter x y)) output.old output.new at result.at }
{
    let c = (desk as usize) - 1;
    let own = terms[c];
    let frame = own.frame;
    let cap = own.cap;
    let room = rooms(loads, ks, count, c, limit);
    let most = ceilings(&room, cap);
    let lots = lots_left(courses, count, c);
    let marks = marks_left(courses, count, c);
    let here = put_lead(output, at, desk);
    let course = courses[c];
    let after = step_on(
        output,
        counts,
        visited,
        gains,
        index,
        presentpins,
        presentsizes,
        bits,
        blocks,
        weights,
        aboves,
        fixed,
        loads,
        loadedpins,
        firsts,
        loadedsizes,
        netweights,
        &most,
        &room,
        cap,
        marks,
        operands,
        Frame { lots, ..frame },
        Course { at: here, ..course },
        c,
        letter,
        x,
        y,
    );
    let mut all = courses;
    all[c] = after;
    LedTurn {
        courses: all,
        at: after.at,
    }
}
