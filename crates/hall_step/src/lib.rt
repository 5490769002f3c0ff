// Catalogues in one hall: each table is lent as a slice of arrays, one array for each catalogue, and a call line is lent its own catalogue's.
#![tactic(auto)]

ghost use Rattle.std.specs.Prelude.{◌+◌, ◌≤◌, ◌≡◌, length};
ghost use Rattle.model.specs.Grammar.{letter_n};
ghost use Rattle.call_list.specs.Asked.{request_of};
ghost use Rattle.desk_calls.specs.Desk.{numbers};
ghost use Rattle.hall_step.specs.Sets.{sets};
ghost use Rattle.hall_step.specs.Step.{CanStep, Stepped};

use call_list::course::{Course, Frame};
use desk_calls::step;

// One call line, on the set c.
pub fn step_on(
    output: &mut [u8],
    counts: &mut [[u16; 16384]],
    visited: &mut [[u16; 1024]],
    gains: &mut [[i32; 16384]],
    index: &mut [[u16; 16384]],
    presentpins: &mut [[u16; 8192]],
    presentsizes: &mut [[u16; 1024]],
    bits: &mut [[u64; 16384]],
    blocks: &mut [[u16; 1024]],
    weights: &mut [[u32; 1024]],
    aboves: &mut [[u16; 1024]],
    fixed: &mut [[u16; 1024]],
    loads: &mut [[u64; 16]],
    loadedpins: &mut [[u16; 8192]],
    firsts: &mut [[u16; 1024]],
    loadedsizes: &mut [[u16; 1024]],
    netweights: &[[u16; 1024]],
    ceilings: &[u64; 16],
    rooms: &[u64; 16],
    cap: u64,
    markroom: usize,
    operands: &[u32],
    frame: Frame,
    course: Course,
    c: usize,
    letter: u32,
    x: usize,
    y: usize,
) -> Course
    requires can_step { CanStep c (sets counts.old visited.old gains.old index.old presentpins.old presentsizes.old bits.old blocks.old weights.old aboves.old fixed.old loads.old loadedpins.old firsts.old loadedsizes.old) netweights.now (numbers frame.average frame.lots markroom cap ceilings.now rooms.now) frame.m frame.k (length output.old) (request_of operands.now letter x y) course }
    requires le_y { letter ≡ letter_n → (2 ≤ y) × (x + y ≤ length operands.now) }
    ensures { Stepped c (sets counts.old visited.old gains.old index.old presentpins.old presentsizes.old bits.old blocks.old weights.old aboves.old fixed.old loads.old loadedpins.old firsts.old loadedsizes.old) (sets counts.new visited.new gains.new index.new presentpins.new presentsizes.new bits.new blocks.new weights.new aboves.new fixed.new loads.new loadedpins.new firsts.new loadedsizes.new) netweights.now (numbers frame.average frame.lots markroom cap ceilings.now rooms.now) frame.m frame.k (request_of operands.now letter x y) course result output.old output.new }
{
    step(
        output,
        &mut counts[c],
        &mut visited[c],
        &mut gains[c],
        &mut index[c],
        &mut presentpins[c],
        &mut presentsizes[c],
        &mut bits[c],
        &mut blocks[c],
        &mut weights[c],
        &mut aboves[c],
        &mut fixed[c],
        &mut loads[c],
        &mut loadedpins[c],
        &mut firsts[c],
        &mut loadedsizes[c],
        &netweights[c],
        ceilings,
        rooms,
        cap,
        markroom,
        operands,
        frame,
        course,
        letter,
        x,
        y,
    )
}
