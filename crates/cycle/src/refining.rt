// A's way back: contractions are undone, the last one first, each with a walk from the parted pair.
ghost use Rattle.std.specs.Prelude.{◌+◌, ◌-◌, ◌*◌, ◌<◌, ◌≤◌, length, ◌≡◌};
ghost use Rattle.index.specs.Indexed.{Kept};
ghost use Rattle.operations.specs.Tables.{tables};
ghost use Rattle.search_moves.specs.Rows.{RowsAre};
ghost use Rattle.cycle.specs.Refine.{PartOk, Parts, RefineOk, Refines};

use operations::joins::split;
use operations::pairs::Joins;
use search_moves::rows::{fill_rows, part_rows};
use walk::walks::{Walked, walk};

// The moves that the walks made and kept, all together, and the metric.
#[derive(Clone, Copy)]
pub struct Fine {
    pub tried: u32,
    pub kept: u32,
    pub total: u32,
}

// The sums with one more walk.
fn add_walk(f: Fine, w: Walked) -> Fine
    requires { (w.tried ≤ 1024) × (w.kept ≤ 1024) × (f.tried ≤ 1048576) × (f.kept ≤ 1048576) }
    ensures { (result.tried ≡ f.tried + w.tried) × (result.kept ≡ f.kept + w.kept) × (result.total ≡ w.total) }
{
    Fine {
        tried: f.tried + w.tried as u32,
        kept: f.kept + w.kept as u32,
        total: w.total,
    }
}

// Splits `v` from `u`, into which it was contracted last, and walks from the two. In the walk nets with more than 12 pins are marked by their
// rows; limits from 6 to 16 measured alike.
fn refine_once(
    counts: &mut [u16],
    visited: &mut [u16],
    gains: &mut [i32],
    index: &mut [u16],
    presentpins: &mut [u16],
    presentsizes: &mut [u16],
    bits: &mut [u64],
    blocks: &mut [u16],
    weights: &mut [u32],
    aboves: &mut [u16],
    loads: &mut [u64; 16],
    netweights: &[u16],
    firsts: &[u16],
    loadedsizes: &[u16],
    rows: &mut [u64; 16384],
    ceilings: &[u64; 16],
    fixedmarks: [u64; 48],
    n: usize,
    m: usize,
    k: usize,
    total: u32,
    u: usize,
    v: usize,
) -> Walked
    requires part_ok { PartOk
        (tables counts.old visited.old gains.old presentpins.old presentsizes.old bits.old blocks.old weights.old aboves.old loads.old netweights.now firsts.now loadedsizes.now n m k total)
        fixedmarks u v }
    requires n_in_bounds { 16 * n ≤ length index.old }
    requires rows_are { RowsAre rows.old presentpins.old firsts.now presentsizes.old m }
    ensures parts { Parts
        (tables counts.old visited.old gains.old presentpins.old presentsizes.old bits.old blocks.old weights.old aboves.old loads.old netweights.now firsts.now loadedsizes.now n m k total)
        ceilings.now fixedmarks u v
        (tables counts.new visited.new gains.new presentpins.new presentsizes.new bits.new blocks.new weights.new aboves.new loads.new netweights.now firsts.now loadedsizes.now n m k result.total)
        result.tried result.kept }
    ensures kept { Kept n k index.old index.new }
    ensures rows_are_2 { RowsAre rows.new presentpins.new firsts.now presentsizes.new m }
{
    split(
        counts,
        visited,
        gains,
        presentpins,
        presentsizes,
        bits,
        blocks,
        weights,
        aboves,
        netweights,
        firsts,
        loadedsizes,
        n,
        m,
        k,
        total,
        u,
        v,
    );
    part_rows(rows, bits, m, u, v);
    walk(
        counts,
        visited,
        gains,
        index,
        blocks,
        loads,
        presentpins,
        presentsizes,
        bits,
        weights,
        netweights,
        firsts,
        rows,
        12,
        ceilings,
        fixedmarks,
        n,
        m,
        k,
        total,
        u,
        v,
    )
}

// Undoes all contractions of the stack. The rows of the nets are made once, for all walks.
pub fn refine(
    counts: &mut [u16],
    visited: &mut [u16],
    gains: &mut [i32],
    index: &mut [u16],
    presentpins: &mut [u16],
    presentsizes: &mut [u16],
    bits: &mut [u64],
    blocks: &mut [u16],
    weights: &mut [u32],
    aboves: &mut [u16],
    loads: &mut [u64; 16],
    netweights: &[u16],
    firsts: &[u16],
    loadedsizes: &[u16],
    ceilings: &[u64; 16],
    fixedmarks: [u64; 48],
    n: usize,
    m: usize,
    k: usize,
    total: u32,
    stack: Joins<1024>,
) -> Fine
    requires refine_ok { RefineOk
        (tables counts.old visited.old gains.old presentpins.old presentsizes.old bits.old blocks.old weights.old aboves.old loads.old netweights.now firsts.now loadedsizes.now n m k total)
        fixedmarks stack.into stack.gone stack.len }
    requires n_in_bounds { 16 * n ≤ length index.old }
    ensures refines { Refines
        (tables counts.old visited.old gains.old presentpins.old presentsizes.old bits.old blocks.old weights.old aboves.old loads.old netweights.now firsts.now loadedsizes.now n m k total)
        ceilings.now fixedmarks stack.into stack.gone stack.len
        (tables counts.new visited.new gains.new presentpins.new presentsizes.new bits.new blocks.new weights.new aboves.new loads.new netweights.now firsts.now loadedsizes.now n m k result.total)
        result.tried result.kept }
    ensures kept { Kept n k index.old index.new }
{
    let mut f = Fine {
        tried: 0,
        kept: 0,
        total,
    };
    let mut rows = [0u64; 16384];
    fill_rows(&mut rows, presentpins, firsts, presentsizes, m);
    for i in (0..stack.len).rev() {
        let u = usize::from(stack.into[i]) - 1;
        let v = usize::from(stack.gone[i]) - 1;
        let w = refine_once(
            counts,
            visited,
            gains,
            index,
            presentpins,
            presentsizes,
            bits,
            blocks,
            weights,
            aboves,
            loads,
            netweights,
            firsts,
            loadedsizes,
            &mut rows,
            ceilings,
            fixedmarks,
            n,
            m,
            k,
            f.total,
            u,
            v,
        );
        f = add_walk(f, w);
    }
    f
}
