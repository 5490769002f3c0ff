// A list of call lines on a running sale: each steps the tables, and its answer's line goes to the output.
#![tactic(auto)]

ghost use Rattle.std.specs.Prelude.{ℕ, ◌+◌, ◌-◌, ◌<◌, ◌≤◌, ◌≡◌, length, get_or, take, drop};
ghost use Rattle.model.specs.Catalogue.{Limits, Hypergraph};
ghost use Rattle.model.specs.Grammar.{letter_n};
ghost use Rattle.model.specs.Memory.{Tables};
ghost use Rattle.call_list.specs.Point.{point_of, CanStep, Steps};
ghost use Rattle.call_list.specs.Asked.{late_at, request_of};
ghost use Rattle.call_list.specs.Course.{Begins, CanRun, Done};

pub mod course;
pub mod stepping;

use course::{Course, Frame};
use stepping::{add, run_machine, withdraw};

// The bales of an N whose numbers are the operands from `x` on.
pub fn bales_of(operands: &[u32], x: usize) -> u32
    requires { x < length operands.now }
    ensures { result ≡ get_or operands.now x 0 }
{
    operands[x]
}

// Its session.
pub fn session_of(operands: &[u32], x: usize) -> usize
    requires { x + 1 < length operands.now }
    ensures { result ≡ get_or operands.now (x + 1) 0 }
{
    operands[x + 1] as usize
}

// Its buyers: `y` numbers in all.
pub fn buyers_of(operands: &[u32], x: usize, y: usize) -> &[u32]
    requires { (2 ≤ y) × (x + y ≤ length operands.now) }
    ensures { result.now ≡ take (y - 2) (drop (x + 2) operands.now) }
{
    let from = x + 2;
    let to = x + y;
    &operands[from..to]
}

// N, whose numbers are `y` operands from `x` on.
fn add_from(
    output: &mut [u8],
    counts: &mut [u16],
    visited: &mut [u16],
    gains: &mut [i32],
    index: &mut [u16],
    presentpins: &mut [u16],
    presentsizes: &mut [u16],
    bits: &mut [u64],
    blocks: &mut [u16],
    weights: &mut [u32],
    aboves: &mut [u16],
    fixed: &mut [u16],
    loads: &mut [u64; 16],
    loadedpins: &mut [u16],
    firsts: &mut [u16],
    loadedsizes: &mut [u16],
    netweights: &[u16],
    ceilings: &[u64; 16],
    operands: &[u32],
    frame: Frame,
    course: Course,
    x: usize,
    y: usize,
) -> Course
    requires can_step { CanStep frame.average frame.lots ceilings.now (length output.old) course.at (late_at operands.now x y)
        (point_of counts.old visited.old gains.old index.old presentpins.old presentsizes.old bits.old blocks.old weights.old aboves.old fixed.old loads.old loadedpins.old firsts.old loadedsizes.old netweights.now frame.m frame.k course) }
    requires le_y { (2 ≤ y) × (x + y ≤ length operands.now) }
    ensures { Steps frame.average frame.lots ceilings.now (late_at operands.now x y)
        (point_of counts.old visited.old gains.old index.old presentpins.old presentsizes.old bits.old blocks.old weights.old aboves.old fixed.old loads.old loadedpins.old firsts.old loadedsizes.old netweights.now frame.m frame.k course)
        (point_of counts.new visited.new gains.new index.new presentpins.new presentsizes.new bits.new blocks.new weights.new aboves.new fixed.new loads.new loadedpins.new firsts.new loadedsizes.new netweights.now frame.m frame.k result)
        output.old output.new course.at result.at }
{
    let bales = bales_of(operands, x);
    let session = session_of(operands, x);
    let buyers = buyers_of(operands, x, y);
    add(
        output,
        counts,
        visited,
        gains,
        index,
        presentpins,
        presentsizes,
        bits,
        blocks,
        weights,
        aboves,
        fixed,
        loads,
        loadedpins,
        firsts,
        loadedsizes,
        netweights,
        ceilings,
        buyers,
        frame,
        course,
        bales,
        session,
    )
}

// One call line: its letter's byte and its two numbers.
fn step(
    output: &mut [u8],
    counts: &mut [u16],
    visited: &mut [u16],
    gains: &mut [i32],
    index: &mut [u16],
    presentpins: &mut [u16],
    presentsizes: &mut [u16],
    bits: &mut [u64],
    blocks: &mut [u16],
    weights: &mut [u32],
    aboves: &mut [u16],
    fixed: &mut [u16],
    loads: &mut [u64; 16],
    loadedpins: &mut [u16],
    firsts: &mut [u16],
    loadedsizes: &mut [u16],
    netweights: &[u16],
    ceilings: &[u64; 16],
    operands: &[u32],
    frame: Frame,
    course: Course,
    letter: u32,
    x: usize,
    y: usize,
) -> Course
    requires can_step { CanStep frame.average frame.lots ceilings.now (length output.old) course.at (request_of operands.now letter x y)
        (point_of counts.old visited.old gains.old index.old presentpins.old presentsizes.old bits.old blocks.old weights.old aboves.old fixed.old loads.old loadedpins.old firsts.old loadedsizes.old netweights.now frame.m frame.k course) }
    requires le_y { letter ≡ letter_n → (2 ≤ y) × (x + y ≤ length operands.now) }
    ensures { Steps frame.average frame.lots ceilings.now (request_of operands.now letter x y)
        (point_of counts.old visited.old gains.old index.old presentpins.old presentsizes.old bits.old blocks.old weights.old aboves.old fixed.old loads.old loadedpins.old firsts.old loadedsizes.old netweights.now frame.m frame.k course)
        (point_of counts.new visited.new gains.new index.new presentpins.new presentsizes.new bits.new blocks.new weights.new aboves.new fixed.new loads.new loadedpins.new firsts.new loadedsizes.new netweights.now frame.m frame.k result)
        output.old output.new course.at result.at }
{
    if letter == text::letters::X {
        return withdraw(
            output,
            counts,
            visited,
            gains,
            index,
            presentpins,
            presentsizes,
            bits,
            blocks,
            weights,
            aboves,
            fixed,
            loads,
            loadedpins,
            firsts,
            loadedsizes,
            netweights,
            ceilings,
            frame,
            course,
            x,
        );
    }
    if letter == text::letters::N {
        return add_from(
            output,
            counts,
            visited,
            gains,
            index,
            presentpins,
            presentsizes,
            bits,
            blocks,
            weights,
            aboves,
            fixed,
            loads,
            loadedpins,
            firsts,
            loadedsizes,
            netweights,
            ceilings,
            operands,
            frame,
            course,
            x,
            y,
        );
    }
    run_machine(
        output,
        counts,
        visited,
        gains,
        index,
        presentpins,
        presentsizes,
        bits,
        blocks,
        weights,
        aboves,
        fixed,
        loads,
        loadedpins,
        firsts,
        loadedsizes,
        netweights,
        ceilings,
        frame,
        course,
        letter,
        x,
        y,
    )
}

// The first `count` call lines of the table, three numbers each: the letter's byte and two numbers, which for N are a stretch of the operands.
pub fn run_calls(
    output: &mut [u8],
    counts: &mut [u16],
    visited: &mut [u16],
    gains: &mut [i32],
    index: &mut [u16],
    presentpins: &mut [u16],
    presentsizes: &mut [u16],
    bits: &mut [u64],
    blocks: &mut [u16],
    weights: &mut [u32],
    aboves: &mut [u16],
    fixed: &mut [u16],
    loads: &mut [u64; 16],
    loadedpins: &mut [u16],
    firsts: &mut [u16],
    loadedsizes: &mut [u16],
    netweights: &[u16],
    ceilings: &[u64; 16],
    calls: &[u32],
    operands: &[u32],
    count: usize,
    frame: Frame,
    start: Course,
) -> Course
    requires can_run { CanRun frame.average frame.lots ceilings.now calls.now operands.now count (length output.old)
        (point_of counts.old visited.old gains.old index.old presentpins.old presentsizes.old bits.old blocks.old weights.old aboves.old fixed.old loads.old loadedpins.old firsts.old loadedsizes.old netweights.now frame.m frame.k start) }
    requires at_value { start.at ≡ 0 }
    ensures { (limits : Limits) (h : Hypergraph) (old : Tables) → Begins limits h old frame.average frame.lots ceilings.now calls.now operands.now count (length output.old)
        (point_of counts.old visited.old gains.old index.old presentpins.old presentsizes.old bits.old blocks.old weights.old aboves.old fixed.old loads.old loadedpins.old firsts.old loadedsizes.old netweights.now frame.m frame.k start)
        → Done limits h old calls.now operands.now count
        (point_of counts.new visited.new gains.new index.new presentpins.new presentsizes.new bits.new blocks.new weights.new aboves.new fixed.new loads.new loadedpins.new firsts.new loadedsizes.new netweights.now frame.m frame.k result)
        output.old output.new result.at }
{
    let mut course = start;
    for i in 0..count {
        let at = 3 * i;
        course = step(
            output,
            counts,
            visited,
            gains,
            index,
            presentpins,
            presentsizes,
            bits,
            blocks,
            weights,
            aboves,
            fixed,
            loads,
            loadedpins,
            firsts,
            loadedsizes,
            netweights,
            ceilings,
            operands,
            frame,
            course,
            calls[at],
            calls[at + 1] as usize,
            calls[at + 2] as usize,
        );
    }
    course
}
