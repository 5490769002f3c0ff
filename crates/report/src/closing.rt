// The closing report: the metric of the draft and at the end, the block of each vertex's representative, the connectivity of each net.
ghost use Rattle.std.specs.Prelude.{◌≡◌, List, [], ◌∷◌, ℕ, ◌+◌, ◌≤◌, ◌<◌, length};
ghost use Rattle.laws.specs.Sum.{sum};
ghost use Rattle.laws.specs.Bit.{bit};
ghost use Rattle.model.specs.Catalogue.{Hypergraph};
ghost use Rattle.model.specs.Measure.{representative as stands_for};
ghost use Rattle.model.specs.Machine.{State};
ghost use Rattle.model.specs.Report.{digits, row, lot_rows, buy_rows, closing};
ghost use Rattle.model.specs.Lent.{stack_of};
ghost use Rattle.fields.specs.Wrote.{Wrote};
ghost use Rattle.report.specs.Place.{join_place};
ghost use Rattle.report.specs.Closing.{lot_line, Vertices, VertexIn, VerticesFit, Nets, NetsFit, Ended, ClosingFits};

use climbs::representative;
use fields::put_row;

// The place of the join of `v` on the stack, whose latest join has place 1. The first `depth` entries of `gone` are the vertices that were joined
// into others, the latest last. For a vertex on the board it is `depth`.
fn join_place(gone: &[u16; 512], depth: usize, v: usize) -> usize
    requires { depth ≤ 512 }
    ensures { (into : List ℕ) → result ≡ join_place (stack_of into gone.now depth) v }
{
    for i in (0..depth).rev() {
        if usize::from(gone[i]) == v {
            return depth - i;
        }
    }
    depth
}

// The block of the vertex that stands for `v`. Each vertex above another was joined later, so the place of its join bounds the climb.
fn block_of(blocks: &[u16], aboves: &[u16], gone: &[u16; 512], v: usize, depth: usize) -> u32
    requires { VertexIn blocks.now aboves.now gone.now v depth }
    ensures { (h : Hypergraph) (s : State) (n : ℕ) → Vertices h s blocks.now aboves.now gone.now n depth → v ≤ n
        → result ≡ s.block (stands_for s.stack v) }
{
    let place = join_place(gone, depth, v);
    let r = representative(aboves, v, place);
    u32::from(blocks[r - 1])
}

// Writes the line of the vertex at place `i`.
fn put_lot(out: &mut [u8], at: usize, i: usize, block: u32) -> usize
    requires { (i < 1024) × (at + length (row "LOT" (digits (i + 1) ∷ digits block ∷ [])) ≤ length out.old) }
    ensures { Wrote out.old out.new at (row "LOT" (digits (i + 1) ∷ digits block ∷ [])) result }
{
    put_row(out, at, b"LOT", &[i as u32 + 1, block])
}

// Writes the line of the vertex at place `i`, unless it is withdrawn: its representative is in no block then.
fn put_present(out: &mut [u8], at: usize, i: usize, block: u32) -> usize
    requires { (i < 1024) × (at + length (lot_line i block) ≤ length out.old) }
    ensures { Wrote out.old out.new at (lot_line i block) result }
{
    if block == 0 {
        return at;
    }
    put_lot(out, at, i, block)
}

// Writes the lines of the vertices in the sale.
fn put_lots(
    out: &mut [u8],
    at: usize,
    blocks: &[u16],
    aboves: &[u16],
    gone: &[u16; 512],
    n: usize,
    depth: usize,
) -> usize
    requires { VerticesFit (length out.old) at blocks.now aboves.now gone.now n depth }
    ensures { (h : Hypergraph) (s : State) → Vertices h s blocks.now aboves.now gone.now n depth
        → Wrote out.old out.new at (lot_rows h s) result }
{
    let mut p = at;
    for i in 0..n {
        let block = block_of(blocks, aboves, gone, i + 1, depth);
        p = put_present(out, p, i, block);
    }
    p
}

// Writes the line of the net at place `i`.
fn put_net(out: &mut [u8], at: usize, i: usize, mask: u16) -> usize
    requires { (i < 1024) × (at + length (row "BUY" (digits (i + 1) ∷ digits (sum 16 (bit mask)) ∷ [])) ≤ length out.old) }
    ensures { Wrote out.old out.new at (row "BUY" (digits (i + 1) ∷ digits (sum 16 (bit mask)) ∷ [])) result }
{
    put_row(out, at, b"BUY", &[i as u32 + 1, mask.count_ones()])
}

// Writes the lines of all nets.
fn put_nets(out: &mut [u8], at: usize, visited: &[u16], m: usize) -> usize
    requires { NetsFit (length out.old) at visited.now m }
    ensures { (h : Hypergraph) (s : State) → Nets h s visited.now m → Wrote out.old out.new at (buy_rows h s 1 h.nets) result }
{
    let mut p = at;
    for i in 0..m {
        p = put_net(out, p, i, visited[i]);
    }
    p
}

// Writes the closing report. `gone` and `depth` are the stack's: the vertices that its joins took off the board, and how many stand.
pub fn put_closing(
    out: &mut [u8],
    at: usize,
    blocks: &[u16],
    aboves: &[u16],
    visited: &[u16],
    gone: &[u16; 512],
    n: usize,
    m: usize,
    depth: usize,
    draft: u32,
    total: u32,
) -> usize
    requires { ClosingFits (length out.old) at blocks.now aboves.now visited.now gone.now n m depth draft total }
    ensures { (h : Hypergraph) (s : State) → Ended h s blocks.now aboves.now visited.now gone.now n m depth draft total → Wrote out.old out.new at (closing draft h s) result }
{
    let p = put_row(out, at, b"TOTAL", &[draft, total]);
    let q = put_lots(out, p, blocks, aboves, gone, n, depth);
    put_nets(out, q, visited, m)
}
