// A hall's file in memory that is long enough: its catalogues are loaded into four sets of tables, which are opened, and its calls are run, or it is turned down.
// Each table is lent as a slice of arrays, one array for each catalogue. Rests on hall_loader, hall_opening, hall_led,
// hall_calls, hall_closing and sale.
#![tactic(auto)]

ghost use Rattle.std.specs.Prelude.{ℕ, ◌<◌, ◌≤◌, ◌≡◌, Bool, List, length, get_or};
ghost use Rattle.model.specs.HallText.{parse_hall};
ghost use Rattle.model.specs.HallDemand.{HallWorked};
ghost use Rattle.hall_loader.specs.Sets.{Sets};
ghost use Rattle.hall_led.specs.Others.{no_course};
ghost use Rattle.model.specs.HallLent.{hall_tables, hall_memory};
ghost use Rattle.hall_file.specs.Views.{held_in};
ghost use Rattle.hall_file.specs.Loaded.{HallCatalogued, book_of};
ghost use Rattle.hall_file.specs.Sold.{terms_of, terms_in, blocks_in, totals_in, HallSold, CanSell};
ghost use Rattle.hall_file.specs.Worked.{LongHall, LotsAre, Reported};

use call_list::course::{Course, Frame};
use hall_calls::run_hall;
use hall_closing::close_sets;
use hall_led::Terms;
use hall_loader::load_hall;
use hall_opening::open_sets;
use loader::Sizes;
use sale::closing::refuse;

// 0 or the number of the refusal, 1 to 7, 21 or 24, the bytes written, and how many lots of each catalogue are known at the end: 0 where there is none.
// C has 0 where nothing is refused.
#[derive(Clone, Copy)]
pub struct HallRan {
    pub code: u32,
    pub written: usize,
    pub lots: [usize; 4],
}

// Where the catalogues stand after a hall's calls, the totals of their drafts, and where the output's text ends.
#[derive(Clone, Copy)]
struct HallSale {
    courses: [Course; 4],
    drafts: [u32; 4],
    at: usize,
}

// The end of an accepted file: where its text ends, and how many lots of each catalogue are known.
#[derive(Clone, Copy)]
struct HallEnd {
    at: usize,
    lots: [usize; 4],
}

// What no call changes of a catalogue.
fn terms_of(z: Sizes) -> Terms
    ensures { result ≡ terms_of z }
{
    Terms {
        frame: Frame {
            m: z.nets as usize,
            k: z.blocks as usize,
            average: z.average as u64,
            lots: 0,
        },
        cap: z.capacity as u64,
    }
}

// The same of four catalogues.
fn all_terms(sizes: [Sizes; 4]) -> [Terms; 4]
    ensures { result ≡ terms_in sizes }
{
    [
        terms_of(sizes[0]),
        terms_of(sizes[1]),
        terms_of(sizes[2]),
        terms_of(sizes[3]),
    ]
}

// How many sessions each catalogue has.
fn all_blocks(sizes: [Sizes; 4]) -> [usize; 4]
    ensures { result ≡ blocks_in sizes }
{
    let a = sizes[0];
    let b = sizes[1];
    let c = sizes[2];
    let d = sizes[3];
    [
        a.blocks as usize,
        b.blocks as usize,
        c.blocks as usize,
        d.blocks as usize,
    ]
}

// The total of each catalogue.
fn all_totals(courses: [Course; 4]) -> [u32; 4]
    ensures { result ≡ totals_in courses }
{
    let a = courses[0];
    let b = courses[1];
    let c = courses[2];
    let d = courses[3];
    [a.total, b.total, c.total, d.total]
}

// How many lots of the first `count` catalogues are known.
fn lots_known(courses: [Course; 4], count: usize) -> [usize; 4]
    requires { count ≤ 4 }
    ensures { ((c : ℕ) → c < count → get_or result c 0 ≡ (get_or courses c no_course).n) × ((c : ℕ) → count ≤ c → get_or result c 0 ≡ 0) }
{
    let mut lots = [0usize; 4];
    for c in 0..count {
        let course = courses[c];
        lots[c] = course.n;
    }
    lots
}

// Opens the sets of the first `count` catalogues and runs the first `lines` led calls of the table.
fn sell_hall(
    output: &mut [u8],
    weights: &mut [[u32; 1024]],
    blocks: &mut [[u16; 1024]],
    aboves: &mut [[u16; 1024]],
    fixed: &mut [[u16; 1024]],
    loadedpins: &mut [[u16; 8192]],
    presentpins: &mut [[u16; 8192]],
    firsts: &mut [[u16; 1024]],
    loadedsizes: &mut [[u16; 1024]],
    presentsizes: &mut [[u16; 1024]],
    counts: &mut [[u16; 16384]],
    gains: &mut [[i32; 16384]],
    index: &mut [[u16; 16384]],
    visited: &mut [[u16; 1024]],
    netweights: &[[u16; 1024]],
    calls: &[u32],
    operands: &[u32],
    lines: usize,
    limit: u32,
    count: usize,
    sizes: [Sizes; 4],
) -> HallSale
    requires { CanSell count limit lines sizes (hall_tables weights.old blocks.old aboves.old fixed.old loadedpins.old presentpins.old firsts.old loadedsizes.old presentsizes.old counts.old gains.old index.old visited.old) netweights.now calls.now operands.now output.old }
    ensures { (file : List ℕ) (estimated : ℕ → Bool) (old : Sets) (lows : List (List ℕ)) → HallCatalogued file estimated count limit lines sizes old lows (hall_tables weights.old blocks.old aboves.old fixed.old loadedpins.old presentpins.old firsts.old loadedsizes.old presentsizes.old counts.old gains.old index.old visited.old) netweights.now calls.now operands.now output.old
        → HallSold (book_of estimated count limit lines sizes lows (hall_tables weights.old blocks.old aboves.old fixed.old loadedpins.old presentpins.old firsts.old loadedsizes.old presentsizes.old counts.old gains.old index.old visited.old) netweights.now calls.now operands.now) sizes (held_in old (hall_tables weights.old blocks.old aboves.old fixed.old loadedpins.old presentpins.old firsts.old loadedsizes.old presentsizes.old counts.old gains.old index.old visited.old)) (hall_tables weights.old blocks.old aboves.old fixed.old loadedpins.old presentpins.old firsts.old loadedsizes.old presentsizes.old counts.old gains.old index.old visited.old) (hall_tables weights.new blocks.new aboves.new fixed.new loadedpins.new presentpins.new firsts.new loadedsizes.new presentsizes.new counts.new gains.new index.new visited.new) netweights.now result.courses result.drafts output.old output.new result.at }
{
    let mut bits = [[0u64; 16384]; 4];
    let mut loads = [[0u64; 16]; 4];
    let start = open_sets(
        counts,
        visited,
        gains,
        index,
        &mut bits,
        &mut loads,
        presentpins,
        presentsizes,
        blocks,
        weights,
        fixed,
        firsts,
        netweights,
        sizes,
        count,
    );
    let drafts = all_totals(start);
    let ks = all_blocks(sizes);
    let terms = all_terms(sizes);
    let end = run_hall(
        output,
        counts,
        visited,
        gains,
        index,
        presentpins,
        presentsizes,
        &mut bits,
        blocks,
        weights,
        aboves,
        fixed,
        &mut loads,
        loadedpins,
        firsts,
        loadedsizes,
        netweights,
        calls,
        operands,
        lines,
        limit as u64,
        count,
        ks,
        terms,
        start,
    );
    let courses = end.courses;
    HallSale {
        courses,
        drafts,
        at: end.at,
    }
}

// The same, and the closing reports behind the answers.
fn report_hall(
    output: &mut [u8],
    weights: &mut [[u32; 1024]],
    blocks: &mut [[u16; 1024]],
    aboves: &mut [[u16; 1024]],
    fixed: &mut [[u16; 1024]],
    loadedpins: &mut [[u16; 8192]],
    presentpins: &mut [[u16; 8192]],
    firsts: &mut [[u16; 1024]],
    loadedsizes: &mut [[u16; 1024]],
    presentsizes: &mut [[u16; 1024]],
    counts: &mut [[u16; 16384]],
    gains: &mut [[i32; 16384]],
    index: &mut [[u16; 16384]],
    visited: &mut [[u16; 1024]],
    netweights: &[[u16; 1024]],
    calls: &[u32],
    operands: &[u32],
    lines: usize,
    limit: u32,
    count: usize,
    sizes: [Sizes; 4],
) -> HallEnd
    requires { CanSell count limit lines sizes (hall_tables weights.old blocks.old aboves.old fixed.old loadedpins.old presentpins.old firsts.old loadedsizes.old presentsizes.old counts.old gains.old index.old visited.old) netweights.now calls.now operands.now output.old }
    ensures { (file : List ℕ) (estimated : ℕ → Bool) (old : Sets) (lows : List (List ℕ)) → HallCatalogued file estimated count limit lines sizes old lows (hall_tables weights.old blocks.old aboves.old fixed.old loadedpins.old presentpins.old firsts.old loadedsizes.old presentsizes.old counts.old gains.old index.old visited.old) netweights.now calls.now operands.now output.old
        → Reported file old (hall_tables weights.old blocks.old aboves.old fixed.old loadedpins.old presentpins.old firsts.old loadedsizes.old presentsizes.old counts.old gains.old index.old visited.old) (hall_tables weights.new blocks.new aboves.new fixed.new loadedpins.new presentpins.new firsts.new loadedsizes.new presentsizes.new counts.new gains.new index.new visited.new) output.old output.new result.at result.lots }
{
    let s = sell_hall(
        output,
        weights,
        blocks,
        aboves,
        fixed,
        loadedpins,
        presentpins,
        firsts,
        loadedsizes,
        presentsizes,
        counts,
        gains,
        index,
        visited,
        netweights,
        calls,
        operands,
        lines,
        limit,
        count,
        sizes,
    );
    let courses = s.courses;
    let drafts = s.drafts;
    let end = close_sets(
        output, s.at, blocks, aboves, visited, courses, sizes, drafts, count,
    );
    HallEnd {
        at: end,
        lots: lots_known(courses, count),
    }
}

// A hall's file, in memory that is long enough.
pub fn work_hall(
    file: &[u8],
    output: &mut [u8],
    weights: &mut [[u32; 1024]],
    blocks: &mut [[u16; 1024]],
    aboves: &mut [[u16; 1024]],
    fixed: &mut [[u16; 1024]],
    loadedpins: &mut [[u16; 8192]],
    presentpins: &mut [[u16; 8192]],
    firsts: &mut [[u16; 1024]],
    loadedsizes: &mut [[u16; 1024]],
    presentsizes: &mut [[u16; 1024]],
    counts: &mut [[u16; 16384]],
    gains: &mut [[i32; 16384]],
    index: &mut [[u16; 16384]],
    visited: &mut [[u16; 1024]],
) -> HallRan
    requires { LongHall output.old (hall_tables weights.old blocks.old aboves.old fixed.old loadedpins.old presentpins.old firsts.old loadedsizes.old presentsizes.old counts.old gains.old index.old visited.old) }
    ensures { HallWorked (parse_hall file.now) (hall_memory output.old (hall_tables weights.old blocks.old aboves.old fixed.old loadedpins.old presentpins.old firsts.old loadedsizes.old presentsizes.old counts.old gains.old index.old visited.old)) (hall_memory output.new (hall_tables weights.new blocks.new aboves.new fixed.new loadedpins.new presentpins.new firsts.new loadedsizes.new presentsizes.new counts.new gains.new index.new visited.new)) result.code result.written × LotsAre (parse_hall file.now) result.lots }
{
    let mut netweights = [[0u16; 1024]; 4];
    let mut lows = [[0u32; 1024]; 4];
    let mut calls = [0u32; 2048];
    let mut operands = [0u32; 30000];
    let loaded = load_hall(
        file,
        weights,
        blocks,
        aboves,
        fixed,
        loadedpins,
        presentpins,
        firsts,
        loadedsizes,
        presentsizes,
        &mut netweights,
        &mut lows,
        &mut calls,
        &mut operands,
    );
    match loaded {
        Err(q) => {
            let code = q.refusal.number();
            HallRan {
                code,
                written: refuse(output, code, q.line),
                lots: [0; 4],
            }
        }
        Ok(hall) => {
            let end = report_hall(
                output,
                weights,
                blocks,
                aboves,
                fixed,
                loadedpins,
                presentpins,
                firsts,
                loadedsizes,
                presentsizes,
                counts,
                gains,
                index,
                visited,
                &netweights,
                &calls,
                &operands,
                hall.calls,
                hall.limit,
                hall.count as usize,
                hall.sizes,
            );
            let lots = end.lots;
            HallRan {
                code: 0,
                written: end.at,
                lots,
            }
        }
    }
}
