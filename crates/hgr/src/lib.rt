// The converter: an hMETIS file with its partition listing to a catalogue's text, or to the number of its refusal.
#![tactic(auto)]

ghost use Rattle.std.specs.Prelude.{◌≡◌, true, false, ◌&&◌, cond, List, [], ◌∷◌, ◌++◌, ℕ, ◌+◌, ◌≤◌, ◌<◌, eqb, leb, length, take, replicate, MatchOption, MatchResult};
ghost use Rattle.std.proofs.Math.Seq.{slice};
ghost use Rattle.model.specs.Grammar.{is_number};
ghost use Rattle.model.specs.Report.{digits, row};
ghost use Rattle.model.specs.CatalogueText.{lot_text, catalogue_text};
ghost use Rattle.fields.specs.Wrote.{Wrote};
ghost use Rattle.model.specs.Hmetis.{is_header, code_in, edges_weighted, vertices_weighted, well_written, said};
ghost use Rattle.model.specs.Convert.{catalogue_of, refusal, Converts};
ghost use Rattle.conversion.specs.Well.{Well};
ghost use Rattle.passes.specs.Rows.{rows_at, well_rows};
ghost use Rattle.hgr.specs.Number.{number_of, code_of, is_code};
ghost use Rattle.hgr.specs.Form.{FirstRead, NoHeader, HeaderRead, Begun, Sound};
ghost use Rattle.hgr.specs.Check.{in_range, Weighed, Seen, Planned, Within, Tabled, verdict, sale_row};

use passes::Weights;
use text::between;

// The converter's refusals, each under the number by which its answers name it.
#[derive(Clone, Copy, Debug, PartialEq, Eq)]
pub enum Refusal {
    OutputTooShort = 8,
    BadlyWritten = 17,
    NotCarried = 18,
    BadListing = 19,
}

impl Refusal {
    // The number of the refusal.
    pub fn number(self) -> u32
        ensures { result ≡ number_of self }
    {
        self as u32
    }
}

// What has weights, under the header's weight code; a header without one is as if it had 0.
#[derive(Clone, Copy, Debug, PartialEq, Eq)]
pub enum Weighted {
    Nothing = 0,
    Edges = 1,
    Vertices = 10,
    Both = 11,
}

impl Weighted {
    // Whether edges have weights.
    fn edges_weighted(self) -> bool
        ensures { result ≡ edges_weighted (code_of self) }
    {
        match self {
            Weighted::Edges | Weighted::Both => true,
            _ => false,
        }
    }

    // Whether vertices have weights.
    fn vertices_weighted(self) -> bool
        ensures { result ≡ vertices_weighted (code_of self) }
    {
        match self {
            Weighted::Vertices | Weighted::Both => true,
            _ => false,
        }
    }
}

// The first line: the number of sessions, the slack, and where the next line starts.
#[derive(Clone, Copy)]
pub struct First {
    pub blocks: u32,
    pub imbalance: u32,
    pub next: usize,
}

// The header: what has weights, the numbers of edges and vertices, and where the next line starts.
#[derive(Clone, Copy)]
pub struct Header {
    pub code: Weighted,
    pub edges: u32,
    pub vertices: u32,
    pub next: usize,
}

// What well-written rows behind the header are: whether the input can be carried over, whether the listing has a block for each vertex, and
// how many bytes the buyers' lines have.
#[derive(Clone, Copy)]
pub struct Rows {
    pub carried: bool,
    pub listed: bool,
    pub size: usize,
}

// A well-written input: the same of the whole, its numbers, and where its edges start.
#[derive(Clone, Copy)]
pub struct Plan {
    pub carried: bool,
    pub listed: bool,
    pub size: usize,
    pub blocks: u32,
    pub imbalance: u32,
    pub edges: u32,
    pub vertices: u32,
    pub code: Weighted,
    pub first: usize,
}

// The converter's answer: 0 or the number of the refusal, and the bytes written. C has it, so it is no Result.
#[repr(C)]
#[derive(Clone, Copy)]
pub struct Converted {
    pub code: u32,
    pub written: usize,
}

// What a weight code stands for.
fn known(c: u32) -> Option<Weighted>
    ensures { MatchOption result (is_code c ≡ false) (λ w. (is_code c ≡ true) × (code_of w ≡ c)) }
{
    match c {
        1 => Some(Weighted::Edges),
        10 => Some(Weighted::Vertices),
        11 => Some(Weighted::Both),
        _ => None,
    }
}

// What has weights by the header from `at` to `end`, if the line is a header.
fn weight_code(s: &[u8], at: usize, end: usize) -> Option<Weighted>
    requires { (at ≤ end) × (end ≤ length s.now) }
    ensures { MatchOption result (is_header (slice at end s.now) ≡ false)
        (λ w. (is_header (slice at end s.now) ≡ true) × (code_of w ≡ code_in (slice at end s.now))) }
{
    let n = spaced::count(s, at, end);
    if n == 2 {
        return Some(Weighted::Nothing);
    }
    if n != 3 {
        return None;
    }
    known(spaced::get(s, at, end, 2))
}

// The first line, of an input that ends in a line feed.
fn read_first(s: &[u8]) -> Option<First>
    ensures { MatchOption result (Well s.now → ⊥) (λ f. FirstRead s.now f.next f.blocks f.imbalance) }
{
    let len = s.len();
    if len == 0 {
        return None;
    }
    if s[len - 1] != 10 {
        return None;
    }
    let e = text::line_end(s, 0, len);
    if e == len {
        return None;
    }
    if text::form(s, 0, e, b"HGR") != 3 {
        return None;
    }
    let k = text::get(s, 0, e, 1);
    let t = text::get(s, 0, e, 2);
    Some(First {
        blocks: k,
        imbalance: t,
        next: e + 1,
    })
}

// The header, which is the first row from `at` on.
fn read_header(s: &[u8], at: usize) -> Option<Header>
    requires { at ≤ length s.now }
    ensures { MatchOption result (NoHeader s.now at) (λ h. HeaderRead s.now at h.next (code_of h.code) h.edges h.vertices) }
{
    let x = passes::row(s, at)?;
    let b = x.start;
    let e = x.end;
    let code = weight_code(s, b, e)?;
    let m = spaced::get(s, b, e, 0);
    let n = spaced::get(s, b, e, 1);
    Some(Header {
        code,
        edges: m,
        vertices: n,
        next: e + 1,
    })
}

// Whether the numbers of the first two lines are in their ranges.
fn in_range(blocks: u32, imbalance: u32, vertices: u32, edges: u32) -> bool
    ensures { result ≡ in_range blocks imbalance vertices edges }
{
    between(2, 16, blocks)
        & between(0, 1000, imbalance)
        & between(1, 1024, vertices)
        & (edges <= 1024)
}

// Whether an input can be carried over: its ranges, its edges, how many vertices they name together, its vertices' weights.
fn carries(ranges: bool, edges: bool, pins: usize, weights: bool) -> bool
    ensures { result ≡ (ranges && edges && leb pins 8192 && weights) }
{
    ranges & edges & (pins <= 8192) & weights
}

// Whether a listing of that many lines, each with a known block or not, has a block for each vertex.
fn lists(lines: usize, vertices: u32, known: bool) -> bool
    ensures { result ≡ (eqb lines vertices && known) }
{
    (lines == vertices as usize) & known
}

// How many vertices can be named: all of them, or none where there are more than can be carried over.
fn nameable(vertices: u32) -> u32
    ensures { (result ≤ 1024) × (vertices ≤ 1024 → result ≡ vertices) }
{
    if 1024 < vertices { 0 } else { vertices }
}

// Passes over the weights of the vertices, into a table of ones, if all are well written.
fn weigh(
    s: &[u8],
    code: Weighted,
    at: usize,
    vertices: u32,
    weights: &mut [u32; 1024],
) -> Option<Weights>
    requires { (1 ≤ at) × (at ≤ length s.now) × (weights.old ≡ replicate 1024 1) }
    ensures { MatchOption result (well_rows is_number (cond (vertices_weighted (code_of code)) vertices 0) (rows_at s.now at) ≡ false)
        (λ x. Weighed (code_of code) s.now at vertices x.next x.carried weights.new) }
{
    if code.vertices_weighted() {
        return passes::pass_weights(s, at, vertices as usize, weights);
    }
    Some(Weights {
        next: at,
        carried: true,
    })
}

// What follows the header, in one pass: a bad form ends it; what can't be carried over, or is wrong with the listing, is kept to the end.
fn check_rows(
    s: &[u8],
    f: First,
    h: Header,
    weights: &mut [u32; 1024],
    draft: &mut [u16; 1024],
) -> Option<Rows>
    requires { (length s.now ≤ 60000) × Begun s.now h.next (code_of h.code) h.edges h.vertices f.blocks f.imbalance × (weights.old ≡ replicate 1024 1)
        × (length draft.old ≡ 1024) }
    ensures { MatchOption result (well_written s.now ≡ false) (λ x. Seen s.now x.carried x.listed x.size weights.new draft.new) }
{
    let weighted = h.code.edges_weighted();
    let known = nameable(h.vertices);
    let x = passes::pass_edges(s, h.next, h.edges as usize, weighted, known)?;
    let w = weigh(s, h.code, x.next, h.vertices, weights)?;
    let third = passes::pass_part(s, w.next)?;
    let l = passes::pass_blocks(s, third, f.blocks, draft)?;
    let ranges = in_range(f.blocks, f.imbalance, h.vertices, h.edges);
    let carried = carries(ranges, x.carried, x.pins, w.carried);
    let listed = lists(l.lines, h.vertices, l.known);
    Some(Rows {
        carried,
        listed,
        size: x.size,
    })
}

// Checks a whole input in one pass, if it is well written; the tables for the text are filled.
fn check_input(s: &[u8], weights: &mut [u32; 1024], draft: &mut [u16; 1024]) -> Option<Plan>
    requires { (length s.now ≤ 60000) × (weights.old ≡ replicate 1024 1) × (length draft.old ≡ 1024) }
    ensures { MatchOption result (well_written s.now ≡ false) (λ p. Planned s.now p weights.new draft.new) }
{
    let f = read_first(s)?;
    let h = read_header(s, f.next)?;
    let x = check_rows(s, f, h, weights, draft)?;
    Some(Plan {
        carried: x.carried,
        listed: x.listed,
        size: x.size,
        blocks: f.blocks,
        imbalance: f.imbalance,
        edges: h.edges,
        vertices: h.vertices,
        code: h.code,
        first: h.next,
    })
}

// How many bytes the catalogue has, where the buyers' lines have `size`.
fn length_of(p: Plan, weights: &[u32; 1024], draft: &[u16; 1024], size: usize) -> usize
    requires { (p.vertices ≤ 1024) × (length weights.now ≡ 1024) × (length draft.now ≡ 1024) × (size ≤ 1560000) }
    ensures { result ≡ length (sale_row p) + length (lot_text (take p.vertices weights.now) (take p.vertices draft.now)) + size }
{
    let a = spaced::width(p.vertices);
    let b = spaced::width(p.edges);
    let c = spaced::width(p.blocks);
    let d = spaced::width(p.imbalance);
    let lots = passes::lots_size(p.vertices as usize, weights, draft);
    9 + a + b + c + d + lots + size
}

// Whether a well-written input is refused.
fn judge(p: Plan, weights: &[u32; 1024], draft: &[u16; 1024]) -> Result<(), Refusal>
    requires { (p.carried ≡ true → Within p) × (p.size ≤ 1560000) × (length weights.now ≡ 1024) × (length draft.now ≡ 1024) }
    ensures { (s : List ℕ) → Sound s p → Seen s p.carried p.listed p.size weights.now draft.now
        → MatchResult result (λ _. (verdict s ≡ 0) × Tabled s p weights.now draft.now) (λ e. number_of e ≡ verdict s) }
{
    if !p.carried {
        return Err(Refusal::NotCarried);
    }
    if !p.listed {
        return Err(Refusal::BadListing);
    }
    if reader::overfull(p.vertices, p.blocks, p.imbalance, weights, draft, weights) {
        return Err(Refusal::NotCarried);
    }
    if 60000 < length_of(p, weights, draft, p.size) {
        return Err(Refusal::NotCarried);
    }
    Ok(())
}

// Writes the catalogue.
fn write(s: &[u8], p: Plan, weights: &[u32; 1024], draft: &[u16; 1024], out: &mut [u8]) -> usize
    requires { Sound s.now p × Tabled s.now p weights.now draft.now × (length (catalogue_text (catalogue_of (said s.now))) ≤ length out.old) }
    ensures { Wrote out.old out.new 0 (catalogue_text (catalogue_of (said s.now))) result }
{
    let weighted = p.code.edges_weighted();
    let a = fields::put_row(
        out,
        0,
        b"SALE",
        &[p.vertices, p.edges, p.blocks, p.imbalance],
    );
    let b = passes::put_lots(p.vertices as usize, weights, draft, out, a);
    passes::put_nets(s, p.first, p.edges as usize, weighted, out, b)
}

// Writes a refusal.
fn refuse(output: &mut [u8], refusal: Refusal) -> Converted
    requires { length (row "NO" (digits (number_of refusal) ∷ [])) ≤ length output.old }
    ensures { (result.code ≡ number_of refusal) × Wrote output.old output.new 0 (row "NO" (digits (number_of refusal) ∷ [])) result.written }
{
    let code = refusal.number();
    let n = fields::put_row(output, 0, b"NO", &[code]);
    Converted { code, written: n }
}

// Writes the catalogue of an input, or leaves the output as it was: the input's length is tested first, then its form, and what can be carried
// over.
fn carry_over(input: &[u8], output: &mut [u8]) -> Result<usize, Refusal>
    requires { 60000 ≤ length output.old }
    ensures { MatchResult result
        (λ n. (refusal input.now ≡ 0) × Wrote output.old output.new 0 (catalogue_text (catalogue_of (said input.now))) n)
        (λ e. (number_of e ≡ refusal input.now) × (output.new ≡ output.old)) }
{
    if 60000 < input.len() {
        return Err(Refusal::NotCarried);
    }
    let mut weights = [1u32; 1024];
    let mut draft = [0u16; 1024];
    let Some(p) = check_input(input, &mut weights, &mut draft) else {
        return Err(Refusal::BadlyWritten);
    };
    judge(p, &weights, &draft)?;
    Ok(write(input, p, &weights, &draft, output))
}

// The converter: the output's length is tested before anything else.
pub fn kapokdrill_convert(input: &[u8], output: &mut [u8]) -> Converted
    ensures { Converts input.now output.old output.new result.code result.written }
{
    if output.len() < 60000 {
        return Converted {
            code: Refusal::OutputTooShort.number(),
            written: 0,
        };
    }
    match carry_over(input, output) {
        Ok(n) => Converted {
            code: 0,
            written: n,
        },
        Err(refusal) => refuse(output, refusal),
    }
}
