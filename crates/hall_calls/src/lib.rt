// A list of led call lines on the sets of tables of a hall: each steps its own catalogue's set, and its answer's line goes to the output.
#![tactic(auto)]

ghost use Rattle.std.specs.Prelude.{◌≡◌, length};
ghost use Rattle.hall_step.specs.Sets.{sets};
ghost use Rattle.hall_calls.specs.Course.{CanRun, Ran};

use call_list::course::Course;
use hall_led::{LedTurn, Terms, led};

// The first `lines` led call lines of the table, four numbers each: the catalogue, the letter's byte and two numbers, which for N are a stretch of the
// operands. `count` catalogues are in use.
pub fn run_hall(
    output: &mut [u8],
    counts: &mut [[u16; 16384]],
    visited: &mut [[u16; 1024]],
    gains: &mut [[i32; 16384]],
    index: &mut [[u16; 16384]],
    presentpins: &mut [[u16; 8192]],
    presentsizes: &mut [[u16; 1024]],
    bits: &mut [[u64; 16384]],
    blocks: &mut [[u16; 1024]],
    weights: &mut [[u32; 1024]],
    aboves: &mut [[u16; 1024]],
    fixed: &mut [[u16; 1024]],
    loads: &mut [[u64; 16]],
    loadedpins: &mut [[u16; 8192]],
    firsts: &mut [[u16; 1024]],
    loadedsizes: &mut [[u16; 1024]],
    netweights: &[[u16; 1024]],
    calls: &[u32],
    operands: &[u32],
    lines: usize,
    limit: u64,
    count: usize,
    ks: [usize; 4],
    terms: [Terms; 4],
    start: [Course; 4],
) -> LedTurn
    requires { CanRun (sets counts.old visited.old gains.old index.old presentpins.old presentsizes.old bits.old blocks.old weights.old aboves.old fixed.old loads.old loadedpins.old firsts.old loadedsizes.old) netweights.now limit count ks terms start calls.now operands.now lines (length output.old) }
    ensures { Ran (sets counts.old visited.old gains.old index.old presentpins.old presentsizes.old bits.old blocks.old weights.old aboves.old fixed.old loads.old loadedpins.old firsts.old loadedsizes.old) (sets counts.new visited.new gains.new index.new presentpins.new presentsizes.new bits.new blocks.new weights.new aboves.new fixed.new loads.new loadedpins.new firsts.new loadedsizes.new) netweights.now limit count ks terms start result.courses calls.now operands.now lines output.old output.new result.at }
{
    let mut courses = start;
    let mut end: usize = 0;
    for i in 0..lines {
        let at = 4 * i;
        let t = led(
            output,
            counts,
            visited,
            gains,
            index,
            presentpins,
            presentsizes,
            bits,
            blocks,
            weights,
            aboves,
            fixed,
            loads,
            loadedpins,
            firsts,
            loadedsizes,
            netweights,
            operands,
            limit,
            count,
            ks,
            terms,
            courses,
            end,
            calls[at],
            calls[at + 1],
            calls[at + 2] as usize,
            calls[at + 3] as usize,
        );
        courses = t.courses;
        end = t.at;
    }
    LedTurn { courses, at: end }
}
