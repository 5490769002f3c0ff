// One call line of a catalogue beside the others of a hall, on the catalogue's own tables. Rests on beside and call_list.
#![tactic(auto)]

ghost use Rattle.std.specs.Prelude.{◌+◌, ◌≤◌, ◌≡◌, length};
ghost use Rattle.model.specs.Grammar.{letter_n};
ghost use Rattle.call_list.specs.Point.{point_of};
ghost use Rattle.call_list.specs.Asked.{late_at, request_of};
ghost use Rattle.desk_calls.specs.Desk.{numbers, CanStep, Steps};

use call_list::course::{Course, Frame};
use call_list::{bales_of, buyers_of, session_of};

mod stepping;

use stepping::{put_lot, run_machine, take_out};

// N, whose numbers are `y` operands from `x` on.
fn put_from(
    output: &mut [u8],
    counts: &mut [u16],
    visited: &mut [u16],
    gains: &mut [i32],
    index: &mut [u16],
    presentpins: &mut [u16],
    presentsizes: &mut [u16],
    bits: &mut [u64],
    blocks: &mut [u16],
    weights: &mut [u32],
    aboves: &mut [u16],
    fixed: &mut [u16],
    loads: &mut [u64; 16],
    loadedpins: &mut [u16],
    firsts: &mut [u16],
    loadedsizes: &mut [u16],
    netweights: &[u16],
    ceilings: &[u64; 16],
    rooms: &[u64; 16],
    cap: u64,
    markroom: usize,
    operands: &[u32],
    frame: Frame,
    course: Course,
    x: usize,
    y: usize,
) -> Course
    requires can_step { CanStep (numbers frame.average frame.lots markroom cap ceilings.now rooms.now) (length output.old) course.at (late_at operands.now x y)
        (point_of counts.old visited.old gains.old index.old presentpins.old presentsizes.old bits.old blocks.old weights.old aboves.old fixed.old loads.old loadedpins.old firsts.old loadedsizes.old netweights.now frame.m frame.k course) }
    requires le_y { (2 ≤ y) × (x + y ≤ length operands.now) }
    ensures { Steps (numbers frame.average frame.lots markroom cap ceilings.now rooms.now) (late_at operands.now x y)
        (point_of counts.old visited.old gains.old index.old presentpins.old presentsizes.old bits.old blocks.old weights.old aboves.old fixed.old loads.old loadedpins.old firsts.old loadedsizes.old netweights.now frame.m frame.k course)
        (point_of counts.new visited.new gains.new index.new presentpins.new presentsizes.new bits.new blocks.new weights.new aboves.new fixed.new loads.new loadedpins.new firsts.new loadedsizes.new netweights.now frame.m frame.k result)
        output.old output.new course.at result.at }
{
    let bales = bales_of(operands, x);
    let session = session_of(operands, x);
    let buyers = buyers_of(operands, x, y);
    put_lot(
        output,
        counts,
        visited,
        gains,
        index,
        presentpins,
        presentsizes,
        bits,
        blocks,
        weights,
        aboves,
        fixed,
        loads,
        loadedpins,
        firsts,
        loadedsizes,
        netweights,
        ceilings,
        rooms,
        cap,
        markroom,
        buyers,
        frame,
        course,
        bales,
        session,
    )
}

// One call line: its letter's byte and its two numbers. `ceilings` is what both limits leave in each session, `rooms` what the hall's leaves; the frame's
// `lots` and `markroom` are what the others leave of lots and marks.
pub fn step(
    output: &mut [u8],
    counts: &mut [u16],
    visited: &mut [u16],
    gains: &mut [i32],
    index: &mut [u16],
    presentpins: &mut [u16],
    presentsizes: &mut [u16],
    bits: &mut [u64],
    blocks: &mut [u16],
    weights: &mut [u32],
    aboves: &mut [u16],
    fixed: &mut [u16],
    loads: &mut [u64; 16],
    loadedpins: &mut [u16],
    firsts: &mut [u16],
    loadedsizes: &mut [u16],
    netweights: &[u16],
    ceilings: &[u64; 16],
    rooms: &[u64; 16],
    cap: u64,
    markroom: usize,
    operands: &[u32],
    frame: Frame,
    course: Course,
    letter: u32,
    x: usize,
    y: usize,
) -> Course
    requires can_step { CanStep (numbers frame.average frame.lots markroom cap ceilings.now rooms.now) (length output.old) course.at (request_of operands.now letter x y)
        (point_of counts.old visited.old gains.old index.old presentpins.old presentsizes.old bits.old blocks.old weights.old aboves.old fixed.old loads.old loadedpins.old firsts.old loadedsizes.old netweights.now frame.m frame.k course) }
    requires le_y { letter ≡ letter_n → (2 ≤ y) × (x + y ≤ length operands.now) }
    ensures { Steps (numbers frame.average frame.lots markroom cap ceilings.now rooms.now) (request_of operands.now letter x y)
        (point_of counts.old visited.old gains.old index.old presentpins.old presentsizes.old bits.old blocks.old weights.old aboves.old fixed.old loads.old loadedpins.old firsts.old loadedsizes.old netweights.now frame.m frame.k course)
        (point_of counts.new visited.new gains.new index.new presentpins.new presentsizes.new bits.new blocks.new weights.new aboves.new fixed.new loads.new loadedpins.new firsts.new loadedsizes.new netweights.now frame.m frame.k result)
        output.old output.new course.at result.at }
{
    if letter == text::letters::X {
        return take_out(
            output,
            counts,
            visited,
            gains,
            index,
            presentpins,
            presentsizes,
            bits,
            blocks,
            weights,
            aboves,
            fixed,
            loads,
            loadedpins,
            firsts,
            loadedsizes,
            netweights,
            ceilings,
            rooms,
            cap,
            markroom,
            frame,
            course,
            x,
        );
    }
    if letter == text::letters::N {
        return put_from(
            output,
            counts,
            visited,
            gains,
            index,
            presentpins,
            presentsizes,
            bits,
            blocks,
            weights,
            aboves,
            fixed,
            loads,
            loadedpins,
            firsts,
            loadedsizes,
            netweights,
            ceilings,
            rooms,
            cap,
            markroom,
            operands,
            frame,
            course,
            x,
            y,
        );
    }
    run_machine(
        output,
        counts,
        visited,
        gains,
        index,
        presentpins,
        presentsizes,
        bits,
        blocks,
        weights,
        aboves,
        fixed,
        loads,
        loadedpins,
        firsts,
        loadedsizes,
        netweights,
        ceilings,
        rooms,
        cap,
        markroom,
        frame,
        course,
        letter,
        x,
        y,
    )
}
