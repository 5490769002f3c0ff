// One call line of a list: a call of the machine, X or N; the line of its answer goes to the output. X and N return at once when refused, with a
// copy of the course: a course made anew in both arms, with some 5 KB of tables, would be copied once more on either way.
ghost use Rattle.std.specs.Prelude.{length};
ghost use Rattle.model.specs.Sale.{runs, call_x, call_n};
ghost use Rattle.any_call.specs.Kinds.{any_call};
ghost use Rattle.call_list.specs.Point.{point_of, CanStep, Steps};

use crate::course::{Course, Frame};
use any_call::performing::perform;
use changes::adding::call_add;
use changes::withdrawing::call_withdraw;
use fixed::starting::mark_fixed;
use operations::size::Size;
use report::answers::{Answer, put_answer};

// A call of the machine.
pub fn run_machine(
    output: &mut [u8],
    counts: &mut [u16],
    visited: &mut [u16],
    gains: &mut [i32],
    index: &mut [u16],
    presentpins: &mut [u16],
    presentsizes: &mut [u16],
    bits: &mut [u64],
    blocks: &mut [u16],
    weights: &mut [u32],
    aboves: &mut [u16],
    fixed: &mut [u16],
    loads: &mut [u64; 16],
    loadedpins: &mut [u16],
    firsts: &mut [u16],
    loadedsizes: &mut [u16],
    netweights: &[u16],
    ceilings: &[u64; 16],
    frame: Frame,
    course: Course,
    letter: u32,
    x: usize,
    y: usize,
) -> Course
    requires { CanStep frame.average frame.lots ceilings.now (length output.old) course.at (runs (any_call letter x y))
        (point_of counts.old visited.old gains.old index.old presentpins.old presentsizes.old bits.old blocks.old weights.old aboves.old fixed.old loads.old loadedpins.old firsts.old loadedsizes.old netweights.now frame.m frame.k course) }
    ensures { Steps frame.average frame.lots ceilings.now (runs (any_call letter x y))
        (point_of counts.old visited.old gains.old index.old presentpins.old presentsizes.old bits.old blocks.old weights.old aboves.old fixed.old loads.old loadedpins.old firsts.old loadedsizes.old netweights.now frame.m frame.k course)
        (point_of counts.new visited.new gains.new index.new presentpins.new presentsizes.new bits.new blocks.new weights.new aboves.new fixed.new loads.new loadedpins.new firsts.new loadedsizes.new netweights.now frame.m frame.k result)
        output.old output.new course.at result.at }
{
    let size = Size {
        n: course.n,
        m: frame.m,
        k: frame.k,
        average: frame.average,
    };
    match perform(
        counts,
        visited,
        gains,
        index,
        presentpins,
        presentsizes,
        bits,
        blocks,
        weights,
        aboves,
        loads,
        netweights,
        firsts,
        loadedsizes,
        ceilings,
        course.fixedmarks,
        size,
        course.total,
        course.stack,
        course.journal,
        letter,
        x,
        y,
    ) {
        Ok(turn) => {
            let end = put_answer(output, course.at, Ok(turn.answer));
            Course {
                stack: turn.stack,
                journal: turn.journal,
                total: turn.total,
                at: end,
                ..course
            }
        }
        Err(refused) => Course {
            at: put_answer(output, course.at, Err(refused.number())),
            ..course
        },
    }
}

// X.
pub fn withdraw(
    output: &mut [u8],
    counts: &mut [u16],
    visited: &mut [u16],
    gains: &mut [i32],
    index: &mut [u16],
    presentpins: &mut [u16],
    presentsizes: &mut [u16],
    bits: &mut [u64],
    blocks: &mut [u16],
    weights: &mut [u32],
    aboves: &mut [u16],
    fixed: &mut [u16],
    loads: &mut [u64; 16],
    loadedpins: &mut [u16],
    firsts: &mut [u16],
    loadedsizes: &mut [u16],
    netweights: &[u16],
    ceilings: &[u64; 16],
    frame: Frame,
    course: Course,
    v: usize,
) -> Course
    requires { CanStep frame.average frame.lots ceilings.now (length output.old) course.at (call_x v)
        (point_of counts.old visited.old gains.old index.old presentpins.old presentsizes.old bits.old blocks.old weights.old aboves.old fixed.old loads.old loadedpins.old firsts.old loadedsizes.old netweights.now frame.m frame.k course) }
    ensures { Steps frame.average frame.lots ceilings.now (call_x v)
        (point_of counts.old visited.old gains.old index.old presentpins.old presentsizes.old bits.old blocks.old weights.old aboves.old fixed.old loads.old loadedpins.old firsts.old loadedsizes.old netweights.now frame.m frame.k course)
        (point_of counts.new visited.new gains.new index.new presentpins.new presentsizes.new bits.new blocks.new weights.new aboves.new fixed.new loads.new loadedpins.new firsts.new loadedsizes.new netweights.now frame.m frame.k result)
        output.old output.new course.at result.at }
{
    let turn = match call_withdraw(
        counts,
        visited,
        gains,
        index,
        presentpins,
        presentsizes,
        bits,
        blocks,
        weights,
        aboves,
        fixed,
        loads,
        loadedpins,
        firsts,
        loadedsizes,
        netweights,
        course.n,
        frame.m,
        frame.k,
        course.total,
        course.marks,
        course.stack.len,
        course.free,
        course.journal,
        v,
    ) {
        Ok(turn) => turn,
        Err(refusal) => {
            let mut kept = course;
            kept.at = put_answer(output, course.at, Err(refusal.number()));
            return kept;
        }
    };
    let end = put_answer(
        output,
        course.at,
        Ok(Answer::Withdrawn { total: turn.total }),
    );
    let fixedmarks = mark_fixed(fixed, course.n);
    Course {
        journal: turn.journal,
        free: turn.free,
        fixedmarks,
        marks: turn.marks,
        total: turn.total,
        at: end,
        ..course
    }
}

// N.
pub fn add(
    output: &mut [u8],
    counts: &mut [u16],
    visited: &mut [u16],
    gains: &mut [i32],
    index: &mut [u16],
    presentpins: &mut [u16],
    presentsizes: &mut [u16],
    bits: &mut [u64],
    blocks: &mut [u16],
    weights: &mut [u32],
    aboves: &mut [u16],
    fixed: &mut [u16],
    loads: &mut [u64; 16],
    loadedpins: &mut [u16],
    firsts: &mut [u16],
    loadedsizes: &mut [u16],
    netweights: &[u16],
    ceilings: &[u64; 16],
    buyers: &[u32],
    frame: Frame,
    course: Course,
    bales: u32,
    session: usize,
) -> Course
    requires { CanStep frame.average frame.lots ceilings.now (length output.old) course.at (call_n bales session buyers.now)
        (point_of counts.old visited.old gains.old index.old presentpins.old presentsizes.old bits.old blocks.old weights.old aboves.old fixed.old loads.old loadedpins.old firsts.old loadedsizes.old netweights.now frame.m frame.k course) }
    ensures { Steps frame.average frame.lots ceilings.now (call_n bales session buyers.now)
        (point_of counts.old visited.old gains.old index.old presentpins.old presentsizes.old bits.old blocks.old weights.old aboves.old fixed.old loads.old loadedpins.old firsts.old loadedsizes.old netweights.now frame.m frame.k course)
        (point_of counts.new visited.new gains.new index.new presentpins.new presentsizes.new bits.new blocks.new weights.new aboves.new fixed.new loads.new loadedpins.new firsts.new loadedsizes.new netweights.now frame.m frame.k result)
        output.old output.new course.at result.at }
{
    let turn = match call_add(
        counts,
        visited,
        gains,
        index,
        presentpins,
        presentsizes,
        bits,
        blocks,
        weights,
        aboves,
        fixed,
        loads,
        loadedpins,
        firsts,
        loadedsizes,
        netweights,
        ceilings,
        buyers,
        course.n,
        frame.m,
        frame.k,
        course.total,
        course.marks,
        course.stack.len,
        frame.lots,
        8192,
        course.free,
        course.journal,
        bales,
        session,
    ) {
        Ok(turn) => turn,
        Err(refusal) => {
            let mut kept = course;
            kept.at = put_answer(output, course.at, Err(refusal.number()));
            return kept;
        }
    };
    let lot = turn.lot as u32;
    let end = put_answer(
        output,
        course.at,
        Ok(Answer::Added {
            lot,
            total: turn.total,
        }),
    );
    let fixedmarks = mark_fixed(fixed, turn.n);
    Course {
        journal: turn.journal,
        free: turn.free,
        fixedmarks,
        n: turn.n,
        marks: turn.marks,
        total: turn.total,
        at: end,
        ..course
    }
}
