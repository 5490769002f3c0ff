// Loads a catalogue, from any place and line of a file, or a whole sale file into lent tables, or says the first refusal. Rests on reader and pins.
#![tactic(auto)]

ghost use Rattle.std.specs.Prelude.{◌≡◌, ◌+◌, ◌*◌, ◌≤◌, ltb, length, get_or, take};
ghost use Rattle.model.specs.Catalogue.{nearest};
ghost use Rattle.model.specs.Memory.{Filled};
ghost use Rattle.model.specs.Lent.{lists};
ghost use Rattle.lines.specs.Line.{limits_of, Within};
ghost use Rattle.reader.specs.Whole.{average_of};
ghost use Rattle.pins.specs.Sorting.{start as begins, SortableNets};
ghost use Rattle.loader.specs.Tables.{LongLists, InOrder, sizes_of, LoadsCatalogue, Loads};

use lines::Limits;
use pins::sort_nets;
use reader::Catalogue;
use refusal::{Refusal, Refused};

// The sizes of an accepted catalogue: how many lots, buyers, sessions, thousandths of slack and marks; ⌈W/k⌉; the cap.
#[derive(Clone, Copy)]
pub struct Sizes {
    pub vertices: u32,
    pub nets: u32,
    pub blocks: u32,
    pub imbalance: u32,
    pub pins: usize,
    pub average: u32,
    pub capacity: u32,
}

// An accepted catalogue's sizes and the place behind its last line.
#[derive(Clone, Copy)]
pub struct LoadedCatalogue {
    pub sizes: Sizes,
    pub end: usize,
}

// An accepted file's sizes and how many calls it has.
#[derive(Clone, Copy)]
pub struct Loaded {
    pub sizes: Sizes,
    pub calls: usize,
}

// The first n entries become those of `from`.
fn copy(from: &[u16], to: &mut [u16], n: usize)
    requires { (n ≤ length from.now) × (n ≤ length to.old) }
    ensures { Filled 0 (λ i. ltb i n) (λ i. get_or from.now i 0) to.old to.new }
{
    for i in 0..n {
        to[i] = from[i];
    }
}

// No lot is joined into another, and the present marks are the loaded ones, each buyer's in order.
fn start(
    vertices: usize,
    nets: usize,
    m: usize,
    loadedpins: &[u16],
    loadedsizes: &[u16],
    aboves: &mut [u16],
    presentpins: &mut [u16],
    presentsizes: &mut [u16],
)
    requires { (vertices ≤ length aboves.old) × (m ≤ length loadedpins.now) × (m ≤ length presentpins.old) × (nets ≤ length loadedsizes.now)
        × (nets ≤ length presentsizes.old) × (begins loadedsizes.now nets ≡ m) × SortableNets loadedpins.now loadedsizes.now nets }
    ensures { Filled 0 (λ i. ltb i vertices) (λ i. 0) aboves.old aboves.new
        × InOrder loadedpins.now loadedsizes.now nets m presentpins.old presentpins.new
        × Filled 0 (λ i. ltb i nets) (λ i. get_or loadedsizes.now i 0) presentsizes.old presentsizes.new }
{
    aboves[..vertices].fill(0);
    copy(loadedpins, presentpins, m);
    sort_nets(presentpins, loadedsizes, nets);
    copy(loadedsizes, presentsizes, nets);
}

// The sizes of an accepted catalogue, with ⌈W/k⌉ and the cap, which are of the lows.
fn measure(lows: &[u32], c: Catalogue) -> Sizes
    requires { (c.vertices ≤ 1024) × (c.vertices ≤ length lows.now) × (1 ≤ c.blocks) × (c.blocks ≤ 16) × (c.imbalance ≤ 1000)
        × (average_of c.blocks (take c.vertices lows.now) ≤ 67107871) }
    ensures { result ≡ sizes_of c.vertices c.nets c.blocks c.imbalance c.pins (average_of c.blocks (take c.vertices lows.now)) (nearest ((1000 + c.imbalance) * average_of c.blocks (take c.vertices lows.now))) }
{
    let average = reader::average_weight(lows, c.vertices as usize, c.blocks);
    let capacity = reader::capacity(average, c.imbalance);
    Sizes {
        vertices: c.vertices,
        nets: c.nets,
        blocks: c.blocks,
        imbalance: c.imbalance,
        pins: c.pins,
        average: average as u32,
        capacity: capacity as u32,
    }
}

// Loads a catalogue: it begins at place `at`, and its first line is the given one.
pub fn load_catalogue(
    s: &[u8],
    at: usize,
    line: usize,
    limits: Limits,
    weights: &mut [u32],
    blocks: &mut [u16],
    aboves: &mut [u16],
    fixed: &mut [u16],
    loadedpins: &mut [u16],
    presentpins: &mut [u16],
    firsts: &mut [u16],
    loadedsizes: &mut [u16],
    presentsizes: &mut [u16],
    netweights: &mut [u16; 1024],
    lows: &mut [u32; 1024],
) -> Result<LoadedCatalogue, Refused>
    requires { (at ≤ length s.now) × (line ≤ 60001) × Within (limits_of limits) × (length netweights.old ≡ 1024) × (length lows.old ≡ 1024) × LongLists limits.lots
        (lists weights.old blocks.old aboves.old fixed.old loadedpins.old presentpins.old firsts.old loadedsizes.old presentsizes.old) }
    ensures { LoadsCatalogue (limits_of limits) line s.now at result
        (lists weights.old blocks.old aboves.old fixed.old loadedpins.old presentpins.old firsts.old loadedsizes.old presentsizes.old)
        (lists weights.new blocks.new aboves.new fixed.new loadedpins.new presentpins.new firsts.new loadedsizes.new presentsizes.new)
        netweights.new lows.new }
{
    let c = reader::read_catalogue(
        s,
        at,
        line,
        limits,
        weights,
        blocks,
        fixed,
        netweights,
        lows,
        firsts,
        loadedsizes,
        loadedpins,
    )?;
    start(
        c.vertices as usize,
        c.nets as usize,
        c.pins,
        loadedpins,
        loadedsizes,
        aboves,
        presentpins,
        presentsizes,
    );
    Ok(LoadedCatalogue {
        sizes: measure(lows, c),
        end: c.end,
    })
}

// Loads a sale file within the limits. The calls are three numbers each: the letter's byte and two numbers, which for N are
// where its own numbers begin among the operands and how many they are.
pub fn load(
    s: &[u8],
    limits: Limits,
    weights: &mut [u32],
    blocks: &mut [u16],
    aboves: &mut [u16],
    fixed: &mut [u16],
    loadedpins: &mut [u16],
    presentpins: &mut [u16],
    firsts: &mut [u16],
    loadedsizes: &mut [u16],
    presentsizes: &mut [u16],
    netweights: &mut [u16; 1024],
    lows: &mut [u32; 1024],
    calls: &mut [u32],
    operands: &mut [u32],
) -> Result<Loaded, Refused>
    requires { Within (limits_of limits) × (length netweights.old ≡ 1024) × (length lows.old ≡ 1024) × (1536 ≤ length calls.old) × (30000 ≤ length operands.old) × LongLists limits.lots
        (lists weights.old blocks.old aboves.old fixed.old loadedpins.old presentpins.old firsts.old loadedsizes.old presentsizes.old) }
    ensures { Loads (limits_of limits) s.now result
        (lists weights.old blocks.old aboves.old fixed.old loadedpins.old presentpins.old firsts.old loadedsizes.old presentsizes.old)
        (lists weights.new blocks.new aboves.new fixed.new loadedpins.new presentpins.new firsts.new loadedsizes.new presentsizes.new)
        netweights.new lows.new calls.new operands.new }
{
    if 60000 < s.len() {
        return Err(Refusal::FileTooLong.at(0));
    }
    let catalogue = load_catalogue(
        s,
        0,
        1,
        limits,
        weights,
        blocks,
        aboves,
        fixed,
        loadedpins,
        presentpins,
        firsts,
        loadedsizes,
        presentsizes,
        netweights,
        lows,
    )?;
    let sizes = catalogue.sizes;
    let n = sizes.vertices as usize + sizes.nets as usize + 2;
    let count = reader::read_calls(s, catalogue.end, n, calls, operands)?;
    Ok(Loaded {
        sizes,
        calls: count,
    })
}
