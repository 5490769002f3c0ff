// A catalogue's lines, from any place and line of a file, and a sale's call lines, read into lent tables, or their first refusal: equal to
// model's grammar on the same bytes. Rests on lines.
#![tactic(auto)]

ghost use Rattle.std.specs.Prelude.{◌≡◌, cond, ◌+◌, ◌-◌, ◌*◌, ◌/◌, ◌≤◌, ◌<◌, eqb, length, take};
ghost use Rattle.laws.specs.Fold.{sum_over};
ghost use Rattle.laws.specs.Sum.{sum};
ghost use Rattle.model.specs.Catalogue.{main_limits, nearest};
ghost use Rattle.lines.specs.Line.{limits_of, Within, InRange};
ghost use Rattle.reader.specs.Seen.{CallsRead, LotsRead};
ghost use Rattle.reader.specs.Buyers.{BuysRead, BuysReady};
ghost use Rattle.reader.specs.Whole.{average_of, Long, Ready, overfull_is, NetsRead, BodyRead, CatalogueRead};

use lines::{Head, Limits};
use refusal::{Refusal, Refused};

// Where the buyers' lines end, and how many marks they have.
#[derive(Clone, Copy, Debug, PartialEq, Eq)]
pub struct Nets {
    pub end: usize,
    pub pins: usize,
}

// A catalogue: lots, buyers, sessions, slack, marks and the place behind its last line.
#[derive(Clone, Copy, Debug, PartialEq, Eq)]
pub struct Catalogue {
    pub vertices: u32,
    pub nets: u32,
    pub blocks: u32,
    pub imbalance: u32,
    pub pins: usize,
    pub end: usize,
}

// Reads the call lines, the first of which is the n-th line, and says how many there are. A line has at most half as many operands as bytes, so that all have room.
pub fn read_calls(
    s: &[u8],
    at: usize,
    n: usize,
    calls: &mut [u32],
    operands: &mut [u32],
) -> Result<usize, Refused>
    requires { (at ≤ length s.now) × (length s.now ≤ 60000) × (n ≤ 4096) × (1536 ≤ length calls.old) × (30000 ≤ length operands.old) }
    ensures { CallsRead s.now at n result calls.new operands.new }
{
    let len = s.len();
    let mut i = at;
    let mut c: usize = 0;
    let mut used: usize = 0;
    // No for: a line begins where the last one ended.
    while i < len {
        if c == 512 {
            return Err(Refusal::TooManyCalls.at(n + c));
        }
        let e = text::line_end(s, i, len);
        if e == len {
            return Err(Refusal::BadlyWritten.at(n + c));
        }
        let Some(call) = lines::call_line(s, i, e, used, operands) else {
            return Err(Refusal::BadlyWritten.at(n + c));
        };
        let x = 3 * c;
        calls[x] = call.letter;
        calls[x + 1] = call.first;
        calls[x + 2] = call.second;
        c += 1;
        used = call.used;
        i = e + 1;
    }
    Ok(c)
}

// Reads the lot lines of a catalogue whose first line is the given one, and says where they end.
fn read_vertices(
    s: &[u8],
    at: usize,
    line: usize,
    vertices: usize,
    blocks: u16,
    estimated: bool,
    weights: &mut [u32],
    draft: &mut [u16],
    fixed: &mut [u16],
    lows: &mut [u32; 1024],
) -> Result<usize, Refused>
    requires { (at ≤ length s.now) × (1 ≤ vertices) × (vertices ≤ 1024) × (vertices ≤ length weights.old) × (vertices ≤ length draft.old) × (vertices ≤ length fixed.old)
        × (length lows.old ≡ 1024) × (line ≤ 60001) }
    ensures { LotsRead line s.now at vertices blocks estimated result weights.old draft.old fixed.old weights.new draft.new fixed.new lows.new }
{
    let len = s.len();
    let mut i = at;
    for k in 0..vertices {
        let e = text::line_end(s, i, len);
        if e == len {
            return Err(Refusal::BadlyWritten.at(line + k + 1));
        }
        let lot = lines::lot_line(s, i, e, blocks, estimated).map_err(|q| q.at(line + k + 1))?;
        weights[k] = lot.high;
        draft[k] = lot.block;
        fixed[k] = u16::from(lot.fixed);
        lows[k] = lot.low;
        i = e + 1;
    }
    Ok(i)
}

// Reads the buyers' lines, which follow line `last`, the last lot's; `most` is the limit of marks.
fn read_nets(
    s: &[u8],
    at: usize,
    last: usize,
    most: usize,
    vertices: u32,
    nets: usize,
    netweights: &mut [u16; 1024],
    firsts: &mut [u16],
    loadedsizes: &mut [u16],
    loadedpins: &mut [u16],
    stamps: &mut [u16; 1024],
) -> Result<Nets, Refused>
    requires { (last ≤ 65535) × BuysReady s.now at most vertices nets netweights.old firsts.old loadedsizes.old loadedpins.old stamps.old }
    ensures { BuysRead last s.now at most vertices nets result firsts.old loadedsizes.old loadedpins.old netweights.new firsts.new loadedsizes.new loadedpins.new }
{
    let len = s.len();
    let mut i = at;
    let mut m: usize = 0;
    for j in 0..nets {
        let e = text::line_end(s, i, len);
        if e == len {
            return Err(Refusal::BadlyWritten.at(last + 1 + j));
        }
        let buyer = lines::buy_line(
            s,
            i,
            e,
            vertices,
            most,
            (j + 1) as u16,
            m,
            loadedpins,
            stamps,
        )
        .map_err(|q| q.at(last + 1 + j))?;
        netweights[j] = buyer.weight;
        firsts[j] = m as u16;
        loadedsizes[j] = (buyer.pins - m) as u16;
        m = buyer.pins;
        i = e + 1;
    }
    Ok(Nets { end: i, pins: m })
}

// The weights of the first n vertices together.
fn total_weight(weights: &[u32], n: usize) -> u64
    requires { (n ≤ 1024) × (n ≤ length weights.now) }
    ensures { (result ≡ sum_over (take n weights.now) (λ w. w)) × (result ≤ n * 4294967295) }
{
    let mut t: u64 = 0;
    for w in &weights[..n] {
        t += u64::from(*w);
    }
    t
}

// ⌈W/k⌉, where W is what the first n vertices weigh.
pub fn average_weight(weights: &[u32], n: usize, k: u32) -> u64
    requires { (n ≤ 1024) × (n ≤ length weights.now) × (1 ≤ k) × (k ≤ 16) }
    ensures { (result ≡ average_of k (take n weights.now)) × (result ≤ 4398046511104) }
{
    (total_weight(weights, n) + (k as u64 - 1)) / k as u64
}

// So many thousandths to the nearest whole number; an exact half goes to the even one.
fn rounded(x: u64) -> u64
    ensures { result ≡ nearest x }
{
    let whole = x / 1000;
    let rest = x % 1000;
    if rest < 500 {
        return whole;
    }
    if rest == 500 {
        return whole + whole % 2;
    }
    whole + 1
}

// The cap: (1,000 + slack) × ⌈W/k⌉ / 1,000 to the nearest bale.
pub fn capacity(average: u64, imbalance: u32) -> u64
    requires { (average ≤ 4398046511104) × (imbalance ≤ 1000) }
    ensures { result ≡ nearest ((1000 + imbalance) * average) }
{
    rounded((1000 + imbalance as u64) * average)
}

// A session of the draft is above the cap, which is of the lows.
pub fn overfull(
    vertices: u32,
    blocks: u32,
    imbalance: u32,
    weights: &[u32],
    draft: &[u16],
    lows: &[u32],
) -> bool
    requires { (vertices ≤ 1024) × (2 ≤ blocks) × (blocks ≤ 16) × (imbalance ≤ 1000) × (vertices ≤ length weights.now) × (vertices ≤ length draft.now)
        × (vertices ≤ length lows.now) }
    ensures { overfull_is vertices blocks imbalance weights.now draft.now lows.now result }
{
    let most = capacity(average_weight(lows, vertices as usize, blocks), imbalance);
    for b in 0..blocks {
        if most < block_weights::block_weight(weights, draft, vertices as usize, b + 1) {
            return true;
        }
    }
    false
}

// What follows the lot lines, of which the last is line `last`: DraftAboveCap is tested on the catalogue's last line.
fn after_vertices(
    s: &[u8],
    at: usize,
    last: usize,
    most: usize,
    head: Head,
    weights: &[u32],
    draft: &[u16],
    netweights: &mut [u16; 1024],
    lows: &[u32],
    firsts: &mut [u16],
    loadedsizes: &mut [u16],
    loadedpins: &mut [u16],
    stamps: &mut [u16; 1024],
) -> Result<Nets, Refused>
    requires { (last ≤ 65535) × Ready s.now at most head.vertices head.nets head.blocks head.imbalance weights.now draft.now netweights.old lows.now firsts.old loadedsizes.old loadedpins.old stamps.old }
    ensures { NetsRead last s.now at most head.vertices head.nets head.blocks head.imbalance result weights.now draft.now lows.now firsts.old loadedsizes.old loadedpins.old netweights.new firsts.new loadedsizes.new loadedpins.new }
{
    let read = read_nets(
        s,
        at,
        last,
        most,
        head.vertices,
        head.nets as usize,
        netweights,
        firsts,
        loadedsizes,
        loadedpins,
        stamps,
    )?;
    let over = overfull(
        head.vertices,
        head.blocks,
        head.imbalance,
        weights,
        draft,
        lows,
    );
    if over {
        return Err(Refusal::DraftAboveCap.at(last + head.nets as usize));
    }
    Ok(read)
}

// What follows a catalogue's first line, which is the given one.
fn after_head(
    s: &[u8],
    at: usize,
    line: usize,
    most: usize,
    head: Head,
    weights: &mut [u32],
    draft: &mut [u16],
    fixed: &mut [u16],
    netweights: &mut [u16; 1024],
    lows: &mut [u32; 1024],
    firsts: &mut [u16],
    loadedsizes: &mut [u16],
    loadedpins: &mut [u16],
) -> Result<Nets, Refused>
    requires { (at ≤ length s.now) × (line ≤ 60001) × InRange main_limits head.vertices head.nets head.blocks head.imbalance
        × (head.vertices ≤ length fixed.old) × Long head.vertices most weights.old draft.old netweights.old lows.old firsts.old loadedsizes.old loadedpins.old }
    ensures { BodyRead line s.now at most head.vertices head.nets head.blocks head.imbalance head.estimated result weights.old draft.old fixed.old firsts.old loadedsizes.old loadedpins.old weights.new draft.new fixed.new netweights.new lows.new firsts.new loadedsizes.new loadedpins.new }
{
    let mut stamps = [0u16; 1024];
    let i = read_vertices(
        s,
        at,
        line,
        head.vertices as usize,
        head.blocks as u16,
        head.estimated,
        weights,
        draft,
        fixed,
        lows,
    )?;
    after_vertices(
        s,
        i,
        line + head.vertices as usize,
        most,
        head,
        weights,
        draft,
        netweights,
        lows,
        firsts,
        loadedsizes,
        loadedpins,
        &mut stamps,
    )
}

// Reads a catalogue into the tables: it begins at place `at`, and its first line is the given one.
pub fn read_catalogue(
    s: &[u8],
    at: usize,
    line: usize,
    limits: Limits,
    weights: &mut [u32],
    draft: &mut [u16],
    fixed: &mut [u16],
    netweights: &mut [u16; 1024],
    lows: &mut [u32; 1024],
    firsts: &mut [u16],
    loadedsizes: &mut [u16],
    loadedpins: &mut [u16],
) -> Result<Catalogue, Refused>
    requires { (at ≤ length s.now) × (line ≤ 60001) × Within (limits_of limits) × (limits.lots ≤ length fixed.old)
        × Long limits.lots limits.marks weights.old draft.old netweights.old lows.old firsts.old loadedsizes.old loadedpins.old }
    ensures { CatalogueRead (limits_of limits) line s.now at result weights.old draft.old fixed.old firsts.old loadedsizes.old loadedpins.old weights.new draft.new fixed.new netweights.new lows.new firsts.new loadedsizes.new loadedpins.new }
{
    let len = s.len();
    let e = text::line_end(s, at, len);
    if e == len {
        return Err(Refusal::BadlyWritten.at(line));
    }
    let head = lines::sale_line(s, at, e, limits).map_err(|q| q.at(line))?;
    let nets = after_head(
        s,
        e + 1,
        line,
        limits.marks as usize,
        head,
        weights,
        draft,
        fixed,
        netweights,
        lows,
        firsts,
        loadedsizes,
        loadedpins,
    )?;
    Ok(Catalogue {
        vertices: head.vertices,
        nets: head.nets,
        blocks: head.blocks,
        imbalance: head.imbalance,
        pins: nets.pins,
        end: nets.end,
    })
}
