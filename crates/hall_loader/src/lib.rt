// Loads a hall's file into four sets of lent tables, or says its first refusal: each table is a slice of arrays, one array for each catalogue.
// Rests on loader and hall_lines.
#![tactic(auto)]

ghost use Rattle.std.specs.Prelude.{◌≡◌, ◌≤◌, ◌<◌, length};
ghost use Rattle.lines.specs.Line.{limits_of, Within};
ghost use Rattle.hall_loader.specs.Sets.{sets, Whole, Wide};
ghost use Rattle.hall_lines.specs.Heading.{Announced};
ghost use Rattle.hall_loader.specs.Books.{no_sizes, OneLoaded, CanSubtract, limits_after, Behind, CanLoad, CataloguesLoaded};
ghost use Rattle.hall_loader.specs.Drafts.{Light, draft_bales, drafts_above};
ghost use Rattle.hall_loader.specs.HallFile.{RoomForCalls, CallsLoaded, BodyLoads, HallLoads};

use hall_lines::First;
use lines::Limits;
use loader::{LoadedCatalogue, Sizes};
use refusal::{Refusal, Refused};

// The catalogues in turn: their sizes, the place behind the last one and the number of the line there.
#[derive(Clone, Copy)]
pub struct Catalogues {
    pub sizes: [Sizes; 4],
    pub end: usize,
    pub line: usize,
}

// An accepted hall: how many catalogues, the limit of bales in a session, how many calls, and the catalogues' sizes.
#[derive(Clone, Copy)]
pub struct HallLoaded {
    pub count: u32,
    pub limit: u32,
    pub calls: usize,
    pub sizes: [Sizes; 4],
}

// The sizes of a set without a catalogue.
fn no_sizes() -> Sizes
    ensures { result ≡ no_sizes }
{
    Sizes {
        vertices: 0,
        nets: 0,
        blocks: 0,
        imbalance: 0,
        pins: 0,
        average: 0,
        capacity: 0,
    }
}

// Loads a catalogue into the tables of the set c.
fn load_next(
    s: &[u8],
    at: usize,
    line: usize,
    limits: Limits,
    c: usize,
    weights: &mut [[u32; 1024]],
    blocks: &mut [[u16; 1024]],
    aboves: &mut [[u16; 1024]],
    fixed: &mut [[u16; 1024]],
    loadedpins: &mut [[u16; 8192]],
    presentpins: &mut [[u16; 8192]],
    firsts: &mut [[u16; 1024]],
    loadedsizes: &mut [[u16; 1024]],
    presentsizes: &mut [[u16; 1024]],
    netweights: &mut [[u16; 1024]],
    lows: &mut [[u32; 1024]],
) -> Result<LoadedCatalogue, Refused>
    requires { (at ≤ length s.now) × (line ≤ 60001) × (c < 4) × Within (limits_of limits) × Whole (sets weights.old blocks.old aboves.old fixed.old loadedpins.old presentpins.old firsts.old loadedsizes.old presentsizes.old netweights.old lows.old) × Wide c (sets weights.old blocks.old aboves.old fixed.old loadedpins.old presentpins.old firsts.old loadedsizes.old presentsizes.old netweights.old lows.old) }
    ensures { OneLoaded (limits_of limits) line s.now at c result (sets weights.old blocks.old aboves.old fixed.old loadedpins.old presentpins.old firsts.old loadedsizes.old presentsizes.old netweights.old lows.old) (sets weights.new blocks.new aboves.new fixed.new loadedpins.new presentpins.new firsts.new loadedsizes.new presentsizes.new netweights.new lows.new) }
{
    loader::load_catalogue(
        s,
        at,
        line,
        limits,
        &mut weights[c],
        &mut blocks[c],
        &mut aboves[c],
        &mut fixed[c],
        &mut loadedpins[c],
        &mut presentpins[c],
        &mut firsts[c],
        &mut loadedsizes[c],
        &mut presentsizes[c],
        &mut netweights[c],
        &mut lows[c],
    )
}

// What a catalogue leaves of the limits.
fn left(limits: Limits, z: Sizes) -> Limits
    requires { CanSubtract limits z }
    ensures { result ≡ limits_after limits z }
{
    Limits {
        lots: limits.lots - z.vertices,
        sessions: limits.sessions,
        buyers: limits.buyers - z.nets,
        marks: limits.marks - z.pins as u32,
    }
}

// Loads `count` catalogues, the first of which begins at place `at` with the second line, each within what those before it leave of document 01's limits.
fn load_catalogues(
    s: &[u8],
    at: usize,
    count: usize,
    weights: &mut [[u32; 1024]],
    blocks: &mut [[u16; 1024]],
    aboves: &mut [[u16; 1024]],
    fixed: &mut [[u16; 1024]],
    loadedpins: &mut [[u16; 8192]],
    presentpins: &mut [[u16; 8192]],
    firsts: &mut [[u16; 1024]],
    loadedsizes: &mut [[u16; 1024]],
    presentsizes: &mut [[u16; 1024]],
    netweights: &mut [[u16; 1024]],
    lows: &mut [[u32; 1024]],
) -> Result<Catalogues, Refused>
    requires { CanLoad s.now at count (sets weights.old blocks.old aboves.old fixed.old loadedpins.old presentpins.old firsts.old loadedsizes.old presentsizes.old netweights.old lows.old) }
    ensures { CataloguesLoaded count s.now at result (sets weights.old blocks.old aboves.old fixed.old loadedpins.old presentpins.old firsts.old loadedsizes.old presentsizes.old netweights.old lows.old) (sets weights.new blocks.new aboves.new fixed.new loadedpins.new presentpins.new firsts.new loadedsizes.new presentsizes.new netweights.new lows.new) }
{
    let mut sizes = [no_sizes(); 4];
    let mut limits = Limits {
        lots: 1024,
        sessions: 16,
        buyers: 1024,
        marks: 8192,
    };
    let mut i = at;
    let mut line: usize = 2;
    for c in 0..count {
        let catalogue = load_next(
            s,
            i,
            line,
            limits,
            c,
            weights,
            blocks,
            aboves,
            fixed,
            loadedpins,
            presentpins,
            firsts,
            loadedsizes,
            presentsizes,
            netweights,
            lows,
        )?;
        let z = catalogue.sizes;
        sizes[c] = z;
        limits = left(limits, z);
        line = line + 1 + z.vertices as usize + z.nets as usize;
        i = catalogue.end;
    }
    Ok(Catalogues {
        sizes,
        end: i,
        line,
    })
}

// The bales of `count` drafts together in session t.
fn draft_bales(
    count: usize,
    t: u32,
    sizes: [Sizes; 4],
    weights: &[[u32; 1024]],
    blocks: &[[u16; 1024]],
) -> u64
    requires { Light count sizes weights.now blocks.now }
    ensures { result ≡ draft_bales count t sizes weights.now blocks.now }
{
    let mut bales: u64 = 0;
    for c in 0..count {
        let z = sizes[c];
        bales += block_weights::block_weight(&weights[c], &blocks[c], z.vertices as usize, t);
    }
    bales
}

// A session has more bales of the drafts together than the limit.
fn drafts_above(
    count: usize,
    limit: u32,
    sizes: [Sizes; 4],
    weights: &[[u32; 1024]],
    blocks: &[[u16; 1024]],
) -> bool
    requires { Light count sizes weights.now blocks.now }
    ensures { result ≡ drafts_above count limit sizes weights.now blocks.now }
{
    let most = u64::from(limit);
    for t in 0..16 {
        if most < draft_bales(count, t + 1, sizes, weights, blocks) {
            return true;
        }
    }
    false
}

// What follows the catalogues, the line behind which is the given one, and how many calls there are: DraftsAboveLimit comes before the call lines.
fn after_catalogues(
    s: &[u8],
    at: usize,
    line: usize,
    count: u32,
    limit: u32,
    sizes: [Sizes; 4],
    weights: &[[u32; 1024]],
    blocks: &[[u16; 1024]],
    calls: &mut [u32],
    operands: &mut [u32],
) -> Result<usize, Refused>
    requires { Behind s.now at line × RoomForCalls s.now calls.old operands.old × Light count sizes weights.now blocks.now }
    ensures { CallsLoaded s.now at line count limit sizes result weights.now blocks.now calls.new operands.new }
{
    if drafts_above(count as usize, limit, sizes, weights, blocks) {
        return Err(Refusal::DraftsAboveLimit.at(line - 1));
    }
    hall_lines::read_led_calls(s, at, line, count, calls, operands)
}

// What follows the first line, which is the given one.
fn after_head(
    s: &[u8],
    at: usize,
    first: First,
    weights: &mut [[u32; 1024]],
    blocks: &mut [[u16; 1024]],
    aboves: &mut [[u16; 1024]],
    fixed: &mut [[u16; 1024]],
    loadedpins: &mut [[u16; 8192]],
    presentpins: &mut [[u16; 8192]],
    firsts: &mut [[u16; 1024]],
    loadedsizes: &mut [[u16; 1024]],
    presentsizes: &mut [[u16; 1024]],
    netweights: &mut [[u16; 1024]],
    lows: &mut [[u32; 1024]],
    calls: &mut [u32],
    operands: &mut [u32],
) -> Result<HallLoaded, Refused>
    requires { Announced first.catalogues first.limit × RoomForCalls s.now calls.old operands.old × CanLoad s.now at first.catalogues (sets weights.old blocks.old aboves.old fixed.old loadedpins.old presentpins.old firsts.old loadedsizes.old presentsizes.old netweights.old lows.old) }
    ensures { BodyLoads s.now at first.catalogues first.limit result (sets weights.old blocks.old aboves.old fixed.old loadedpins.old presentpins.old firsts.old loadedsizes.old presentsizes.old netweights.old lows.old) (sets weights.new blocks.new aboves.new fixed.new loadedpins.new presentpins.new firsts.new loadedsizes.new presentsizes.new netweights.new lows.new) calls.new operands.new }
{
    let catalogues = load_catalogues(
        s,
        at,
        first.catalogues as usize,
        weights,
        blocks,
        aboves,
        fixed,
        loadedpins,
        presentpins,
        firsts,
        loadedsizes,
        presentsizes,
        netweights,
        lows,
    )?;
    let sizes = catalogues.sizes;
    let count = after_catalogues(
        s,
        catalogues.end,
        catalogues.line,
        first.catalogues,
        first.limit,
        sizes,
        weights,
        blocks,
        calls,
        operands,
    )?;
    Ok(HallLoaded {
        count: first.catalogues,
        limit: first.limit,
        calls: count,
        sizes,
    })
}

// Loads a hall's file. The calls are four numbers each: the catalogue's number, the letter's byte and two numbers, which for N are where its own numbers
// begin among the operands and how many they are.
pub fn load_hall(
    s: &[u8],
    weights: &mut [[u32; 1024]],
    blocks: &mut [[u16; 1024]],
    aboves: &mut [[u16; 1024]],
    fixed: &mut [[u16; 1024]],
    loadedpins: &mut [[u16; 8192]],
    presentpins: &mut [[u16; 8192]],
    firsts: &mut [[u16; 1024]],
    loadedsizes: &mut [[u16; 1024]],
    presentsizes: &mut [[u16; 1024]],
    netweights: &mut [[u16; 1024]],
    lows: &mut [[u32; 1024]],
    calls: &mut [u32],
    operands: &mut [u32],
) -> Result<HallLoaded, Refused>
    requires { (2048 ≤ length calls.old) × (30000 ≤ length operands.old) × Whole (sets weights.old blocks.old aboves.old fixed.old loadedpins.old presentpins.old firsts.old loadedsizes.old presentsizes.old netweights.old lows.old) × Wide 0 (sets weights.old blocks.old aboves.old fixed.old loadedpins.old presentpins.old firsts.old loadedsizes.old presentsizes.old netweights.old lows.old) }
    ensures { HallLoads s.now result (sets weights.old blocks.old aboves.old fixed.old loadedpins.old presentpins.old firsts.old loadedsizes.old presentsizes.old netweights.old lows.old) (sets weights.new blocks.new aboves.new fixed.new loadedpins.new presentpins.new firsts.new loadedsizes.new presentsizes.new netweights.new lows.new) calls.new operands.new }
{
    let len = s.len();
    if 60000 < len {
        return Err(Refusal::FileTooLong.at(0));
    }
    let e = text::line_end(s, 0, len);
    if e == len {
        return Err(Refusal::BadlyWritten.at(1));
    }
    let first = hall_lines::hall_line(s, e).map_err(|q| q.at(1))?;
    after_head(
        s,
        e + 1,
        first,
        weights,
        blocks,
        aboves,
        fixed,
        loadedpins,
        presentpins,
        firsts,
        loadedsizes,
        presentsizes,
        netweights,
        lows,
        calls,
        operands,
    )
}
