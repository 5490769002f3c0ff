// One call line of a catalogue beside the others of a hall: a call of the machine, X or N; the line of its answer goes to the output.
ghost use Rattle.std.specs.Prelude.{◌≤◌, ◌≡◌, length};
ghost use Rattle.refusal.specs.Number.{number_of};
ghost use Rattle.model.specs.Sale.{runs, call_x, call_n};
ghost use Rattle.any_call.specs.Kinds.{any_call};
ghost use Rattle.call_list.specs.Point.{point_of};
ghost use Rattle.desk_calls.specs.Desk.{numbers, CanStep, Steps};
ghost use Rattle.desk_calls.specs.Late.{room_for, by_room};

use beside::performing::perform_beside;
use call_list::course::{Course, Frame};
use call_list::stepping::withdraw;
use changes::adding::call_add;
use edit_calls::refusals::{fits, is_known};
use fixed::starting::mark_fixed;
use operations::size::Size;
use refusal::Refusal;
use report::answers::{Answer, put_answer};

// A call of the machine.
pub fn run_machine(
    output: &mut [u8],
    counts: &mut [u16],
    visited: &mut [u16],
    gains: &mut [i32],
    index: &mut [u16],
    presentpins: &mut [u16],
    presentsizes: &mut [u16],
    bits: &mut [u64],
    blocks: &mut [u16],
    weights: &mut [u32],
    aboves: &mut [u16],
    fixed: &mut [u16],
    loads: &mut [u64; 16],
    loadedpins: &mut [u16],
    firsts: &mut [u16],
    loadedsizes: &mut [u16],
    netweights: &[u16],
    ceilings: &[u64; 16],
    rooms: &[u64; 16],
    cap: u64,
    markroom: usize,
    frame: Frame,
    course: Course,
    letter: u32,
    x: usize,
    y: usize,
) -> Course
    requires { CanStep (numbers frame.average frame.lots markroom cap ceilings.now rooms.now) (length output.old) course.at (runs (any_call letter x y))
        (point_of counts.old visited.old gains.old index.old presentpins.old presentsizes.old bits.old blocks.old weights.old aboves.old fixed.old loads.old loadedpins.old firsts.old loadedsizes.old netweights.now frame.m frame.k course) }
    ensures { Steps (numbers frame.average frame.lots markroom cap ceilings.now rooms.now) (runs (any_call letter x y))
        (point_of counts.old visited.old gains.old index.old presentpins.old presentsizes.old bits.old blocks.old weights.old aboves.old fixed.old loads.old loadedpins.old firsts.old loadedsizes.old netweights.now frame.m frame.k course)
        (point_of counts.new visited.new gains.new index.new presentpins.new presentsizes.new bits.new blocks.new weights.new aboves.new fixed.new loads.new loadedpins.new firsts.new loadedsizes.new netweights.now frame.m frame.k result)
        output.old output.new course.at result.at }
{
    let size = Size {
        n: course.n,
        m: frame.m,
        k: frame.k,
        average: frame.average,
    };
    match perform_beside(
        counts,
        visited,
        gains,
        index,
        presentpins,
        presentsizes,
        bits,
        blocks,
        weights,
        aboves,
        loads,
        netweights,
        firsts,
        loadedsizes,
        ceilings,
        rooms,
        cap,
        course.fixedmarks,
        size,
        course.total,
        course.stack,
        course.journal,
        letter,
        x,
        y,
    ) {
        Ok(turn) => {
            let end = put_answer(output, course.at, Ok(turn.answer));
            Course {
                stack: turn.stack,
                journal: turn.journal,
                total: turn.total,
                at: end,
                ..course
            }
        }
        Err(refusal) => Course {
            at: put_answer(output, course.at, Err(refusal.number())),
            ..course
        },
    }
}

// X: no limit is asked, so it is the call of a sale by itself.
pub fn take_out(
    output: &mut [u8],
    counts: &mut [u16],
    visited: &mut [u16],
    gains: &mut [i32],
    index: &mut [u16],
    presentpins: &mut [u16],
    presentsizes: &mut [u16],
    bits: &mut [u64],
    blocks: &mut [u16],
    weights: &mut [u32],
    aboves: &mut [u16],
    fixed: &mut [u16],
    loads: &mut [u64; 16],
    loadedpins: &mut [u16],
    firsts: &mut [u16],
    loadedsizes: &mut [u16],
    netweights: &[u16],
    ceilings: &[u64; 16],
    rooms: &[u64; 16],
    cap: u64,
    markroom: usize,
    frame: Frame,
    course: Course,
    v: usize,
) -> Course
    requires { CanStep (numbers frame.average frame.lots markroom cap ceilings.now rooms.now) (length output.old) course.at (call_x v)
        (point_of counts.old visited.old gains.old index.old presentpins.old presentsizes.old bits.old blocks.old weights.old aboves.old fixed.old loads.old loadedpins.old firsts.old loadedsizes.old netweights.now frame.m frame.k course) }
    ensures { Steps (numbers frame.average frame.lots markroom cap ceilings.now rooms.now) (call_x v)
        (point_of counts.old visited.old gains.old index.old presentpins.old presentsizes.old bits.old blocks.old weights.old aboves.old fixed.old loads.old loadedpins.old firsts.old loadedsizes.old netweights.now frame.m frame.k course)
        (point_of counts.new visited.new gains.new index.new presentpins.new presentsizes.new bits.new blocks.new weights.new aboves.new fixed.new loads.new loadedpins.new firsts.new loadedsizes.new netweights.now frame.m frame.k result)
        output.old output.new course.at result.at }
{
    let caps = [cap; 16];
    let alone = Frame {
        lots: 1024,
        ..frame
    };
    withdraw(
        output,
        counts,
        visited,
        gains,
        index,
        presentpins,
        presentsizes,
        bits,
        blocks,
        weights,
        aboves,
        fixed,
        loads,
        loadedpins,
        firsts,
        loadedsizes,
        netweights,
        &caps,
        alone,
        course,
        v,
    )
}

// Is `session` one of `k`, with space for so many bales under the cap.
fn has_space(loads: &[u64; 16], cap: u64, k: usize, bales: u32, session: usize) -> bool
    requires { (k ≤ 16) × (length loads.now ≡ 16) }
    ensures { result ≡ room_for loads.now cap k bales session }
{
    if !is_known(k, session) {
        return false;
    }
    fits(loads[session - 1], u64::from(bales), cap)
}

// The refusal of an N under both limits: AboveCap, where there is space under the cap, is the hall's AboveHallLimit.
fn relay(
    loads: &[u64; 16],
    cap: u64,
    k: usize,
    refusal: Refusal,
    bales: u32,
    session: usize,
) -> Refusal
    requires { (k ≤ 16) × (length loads.now ≡ 16) }
    ensures { number_of result ≡ by_room (room_for loads.now cap k bales session) (number_of refusal) }
{
    match refusal {
        Refusal::AboveCap => {
            if has_space(loads, cap, k, bales, session) {
                Refusal::AboveHallLimit
            } else {
                refusal
            }
        }
        _ => refusal,
    }
}

// N; refused, it returns at once with a copy of the course, as a sale's does.
pub fn put_lot(
    output: &mut [u8],
    counts: &mut [u16],
    visited: &mut [u16],
    gains: &mut [i32],
    index: &mut [u16],
    presentpins: &mut [u16],
    presentsizes: &mut [u16],
    bits: &mut [u64],
    blocks: &mut [u16],
    weights: &mut [u32],
    aboves: &mut [u16],
    fixed: &mut [u16],
    loads: &mut [u64; 16],
    loadedpins: &mut [u16],
    firsts: &mut [u16],
    loadedsizes: &mut [u16],
    netweights: &[u16],
    ceilings: &[u64; 16],
    rooms: &[u64; 16],
    cap: u64,
    markroom: usize,
    buyers: &[u32],
    frame: Frame,
    course: Course,
    bales: u32,
    session: usize,
) -> Course
    requires { CanStep (numbers frame.average frame.lots markroom cap ceilings.now rooms.now) (length output.old) course.at (call_n bales session buyers.now)
        (point_of counts.old visited.old gains.old index.old presentpins.old presentsizes.old bits.old blocks.old weights.old aboves.old fixed.old loads.old loadedpins.old firsts.old loadedsizes.old netweights.now frame.m frame.k course) }
    ensures { Steps (numbers frame.average frame.lots markroom cap ceilings.now rooms.now) (call_n bales session buyers.now)
        (point_of counts.old visited.old gains.old index.old presentpins.old presentsizes.old bits.old blocks.old weights.old aboves.old fixed.old loads.old loadedpins.old firsts.old loadedsizes.old netweights.now frame.m frame.k course)
        (point_of counts.new visited.new gains.new index.new presentpins.new presentsizes.new bits.new blocks.new weights.new aboves.new fixed.new loads.new loadedpins.new firsts.new loadedsizes.new netweights.now frame.m frame.k result)
        output.old output.new course.at result.at }
{
    let turn = match call_add(
        counts,
        visited,
        gains,
        index,
        presentpins,
        presentsizes,
        bits,
        blocks,
        weights,
        aboves,
        fixed,
        loads,
        loadedpins,
        firsts,
        loadedsizes,
        netweights,
        ceilings,
        buyers,
        course.n,
        frame.m,
        frame.k,
        course.total,
        course.marks,
        course.stack.len,
        frame.lots,
        markroom,
        course.free,
        course.journal,
        bales,
        session,
    ) {
        Ok(turn) => turn,
        Err(refusal) => {
            let told = relay(loads, cap, frame.k, refusal, bales, session);
            let mut kept = course;
            kept.at = put_answer(output, course.at, Err(told.number()));
            return kept;
        }
    };
    let lot = turn.lot as u32;
    let end = put_answer(
        output,
        course.at,
        Ok(Answer::Added {
            lot,
            total: turn.total,
        }),
    );
    let fixedmarks = mark_fixed(fixed, turn.n);
    Course {
        journal: turn.journal,
        free: turn.free,
        fixedmarks,
        n: turn.n,
        marks: turn.marks,
        total: turn.total,
        at: end,
        ..course
    }
}
