// Passes over an hMETIS file: each reads a run of its rows once, tests their form and what can be carried over, and keeps their numbers;
// then its edges are written. A row is a line of the file that is no comment.
#![tactic(auto)]

ghost use Rattle.std.specs.Prelude.{◌≡◌, true, false, map, ◌+◌, ◌≤◌, ◌<◌, length, set, take, MatchOption};
ghost use Rattle.model.specs.CatalogueText.{lot_text, buy_text};
ghost use Rattle.laws.specs.Fold.{all};
ghost use Rattle.model.specs.Grammar.{is_number};
ghost use Rattle.fields.specs.Wrote.{Wrote};
ghost use Rattle.model.specs.Hmetis.{is_edge};
ghost use Rattle.model.specs.Convert.{net_of};
ghost use Rattle.passes.specs.Rows.{lines_at, sections_at, rows_at, no_sections, RowAt, well_rows, NoPart, PartPassed};
ghost use Rattle.passes.specs.Read.{WeightsRead, BlocksRead, edges_at, EdgesRead};

use text::between;

// Where a row stands.
#[derive(Clone, Copy)]
pub struct Place {
    pub start: usize,
    pub end: usize,
}

// Edges: where the next line starts, whether all can be carried over, how many vertices they name together, and how long their lines of the
// catalogue are.
#[derive(Clone, Copy)]
pub struct Edges {
    pub next: usize,
    pub carried: bool,
    pub pins: usize,
    pub size: usize,
}

// Vertices' weights: where the next line starts, and whether all can be carried over.
#[derive(Clone, Copy)]
pub struct Weights {
    pub next: usize,
    pub carried: bool,
}

// A listing: the number of its lines, and whether each names a block.
#[derive(Clone, Copy)]
pub struct Blocks {
    pub lines: usize,
    pub known: bool,
}

// The first row from `at` on, if there is one.
pub fn row(s: &[u8], at: usize) -> Option<Place>
    requires { at ≤ length s.now }
    ensures { MatchOption result (sections_at s.now at ≡ no_sections) (λ x. RowAt s.now at x.start x.end) }
{
    let len = s.len();
    let mut i = at;
    // No for: a line begins where the last one ended.
    while i < len {
        let e = text::line_end(s, i, len);
        if e == len {
            return None;
        }
        if s[i] != 37 {
            return Some(Place { start: i, end: e });
        }
        i = e + 1;
    }
    None
}

// Passes over PART, which has to be the next row: where the next line starts.
pub fn pass_part(s: &[u8], at: usize) -> Option<usize>
    requires { at ≤ length s.now }
    ensures { MatchOption result (NoPart s.now at) (λ next. PartPassed s.now at next) }
{
    let x = row(s, at)?;
    if !text::word(s, x.start, x.end, b"PART") {
        return None;
    }
    Some(x.end + 1)
}

// Passes over n edges, a row each, if all are well written.
pub fn pass_edges(s: &[u8], at: usize, n: usize, weighted: bool, vertices: u32) -> Option<Edges>
    requires { (1 ≤ at) × (at ≤ length s.now) × (length s.now ≤ 60000) × (vertices ≤ 1024) }
    ensures { MatchOption result (well_rows (is_edge weighted) n (rows_at s.now at) ≡ false)
        (λ x. EdgesRead weighted s.now at n vertices x.next x.carried x.pins x.size) }
{
    let mut stamps = [0u16; 1024];
    let mut i = at;
    let mut good = true;
    let mut pins: usize = 0;
    let mut size: usize = 0;
    for k in 0..n {
        let x = row(s, i)?;
        let e = x.end;
        let p = spaced::check_edge(
            s,
            x.start,
            e,
            weighted,
            vertices,
            (k + 1) as u16,
            &mut stamps,
        )?;
        good &= p.carried;
        pins += p.count;
        size += p.size;
        i = e + 1;
    }
    Some(Edges {
        next: i,
        carried: good,
        pins,
        size,
    })
}

// Keeps the weight of a vertex, if the table has a place for it.
fn keep_weight(weights: &mut [u32; 1024], k: usize, w: u32)
    requires { length weights.old ≡ 1024 }
    ensures { (length weights.new ≡ 1024) × (k < 1024 → weights.new ≡ set weights.old k w) }
{
    if k < 1024 {
        weights[k] = w;
    }
}

// Passes over the weights of n vertices, a row each, into a table, if all are well written.
pub fn pass_weights(s: &[u8], at: usize, n: usize, weights: &mut [u32; 1024]) -> Option<Weights>
    requires { (1 ≤ at) × (at ≤ length s.now) × (length weights.old ≡ 1024) }
    ensures long { length weights.new ≡ 1024 }
    ensures read { MatchOption result (well_rows is_number n (rows_at s.now at) ≡ false)
        (λ x. WeightsRead s.now at n x.next x.carried weights.new) }
{
    let mut i = at;
    let mut good = true;
    for k in 0..n {
        let x = row(s, i)?;
        let e = x.end;
        let w = spaced::read_if_number(s, x.start, e)?;
        good &= between(1, 65535, w);
        keep_weight(weights, k, w);
        i = e + 1;
    }
    Some(Weights {
        next: i,
        carried: good,
    })
}

// Keeps the session of a vertex, where block b is session b + 1, if there can be such a block and the table has a place for it.
fn keep_block(draft: &mut [u16; 1024], k: usize, b: u32)
    requires { length draft.old ≡ 1024 }
    ensures { (length draft.new ≡ 1024) × (k < 1024 → b < 16 → draft.new ≡ set draft.old k (b + 1)) }
{
    if k < 1024 && b < 16 {
        draft[k] = (b + 1) as u16;
    }
}

// Passes over a listing: the blocks of the vertices, a line each, into a table, counted from 1, if all are well written.
pub fn pass_blocks(s: &[u8], at: usize, blocks: u32, draft: &mut [u16; 1024]) -> Option<Blocks>
    requires { (1 ≤ at) × (at ≤ length s.now) × (length draft.old ≡ 1024) }
    ensures long { length draft.new ≡ 1024 }
    ensures read { MatchOption result (all (lines_at s.now at) is_number ≡ false)
        (λ x. BlocksRead s.now at blocks x.lines x.known draft.new) }
{
    let len = s.len();
    let mut i = at;
    let mut k: usize = 0;
    let mut good = true;
    // No for: a line begins where the last one ended.
    while i < len {
        let e = text::line_end(s, i, len);
        if e == len {
            break;
        }
        let b = spaced::read_if_number(s, i, e)?;
        good &= b < blocks;
        keep_block(draft, k, b);
        i = e + 1;
        k += 1;
    }
    Some(Blocks {
        lines: k,
        known: good,
    })
}

// Writes the lines of n edges, from p on.
pub fn put_nets(s: &[u8], at: usize, n: usize, weighted: bool, out: &mut [u8], p: usize) -> usize
    requires { (at ≤ length s.now) × (well_rows (is_edge weighted) n (rows_at s.now at) ≡ true)
        × (p + length (buy_text (map net_of (edges_at weighted s.now at n))) ≤ length out.old) }
    ensures { Wrote out.old out.new p (buy_text (map net_of (edges_at weighted s.now at n))) result }
{
    let mut i = at;
    let mut q = p;
    for k in 0..n {
        let x = row(s, i).unwrap();
        let e = x.end;
        q = spaced::put_edge(s, x.start, e, weighted, out, q);
        i = e + 1;
    }
    q
}

// How many bytes the lines of n lots have.
pub fn lots_size(n: usize, weights: &[u32; 1024], draft: &[u16; 1024]) -> usize
    requires { (n ≤ 1024) × (length weights.now ≡ 1024) × (length draft.now ≡ 1024) }
    ensures { (result ≡ length (lot_text (take n weights.now) (take n draft.now))) × (result ≤ 26624) }
{
    let mut size: usize = 0;
    for k in 0..n {
        size += 6 + spaced::width(weights[k]) + spaced::width(u32::from(draft[k]));
    }
    size
}

// Writes the lines of n lots, from p on.
pub fn put_lots(
    n: usize,
    weights: &[u32; 1024],
    draft: &[u16; 1024],
    out: &mut [u8],
    p: usize,
) -> usize
    requires { (n ≤ 1024) × (length weights.now ≡ 1024) × (length draft.now ≡ 1024) × (p + length (lot_text (take n weights.now) (take n draft.now)) ≤ length out.old) }
    ensures { Wrote out.old out.new p (lot_text (take n weights.now) (take n draft.now)) result }
{
    let mut q = p;
    for k in 0..n {
        let w = weights[k];
        let b = u32::from(draft[k]);
        q = fields::put_row(out, q, b"LOT", &[w, b]);
    }
    q
}
