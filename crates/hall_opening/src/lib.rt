// A hall's sets of tables made ready for its calls: each table is lent as a slice of arrays, one array for each catalogue. Rests on opening, index and call_list.
#![tactic(auto)]

ghost use Rattle.std.specs.Prelude.{◌≤◌, ◌≡◌, length};
ghost use Rattle.hall_opening.specs.Filled.{filled, fills, read, reads};
ghost use Rattle.hall_opening.specs.Opening.{CanOpen, Opens, CanOpenSet, OpensSet, CanOpenSets, OpensSets};

use call_list::course::{Course, begin};
use index::rows::put_all_right;
use loader::Sizes;
use opening::open;

// Fills the tables of one loaded catalogue; says where its list of calls stands before the first.
fn open_tables(
    counts: &mut [u16],
    visited: &mut [u16],
    gains: &mut [i32],
    index: &mut [u16],
    bits: &mut [u64],
    loads: &mut [u64; 16],
    presentpins: &[u16],
    presentsizes: &[u16],
    blocks: &[u16],
    weights: &[u32],
    fixed: &[u16],
    firsts: &[u16],
    netweights: &[u16],
    z: Sizes,
) -> Course
    requires { CanOpen z (filled counts.old visited.old gains.old index.old bits.old loads.old) (read presentpins.now presentsizes.now blocks.now weights.now fixed.now firsts.now netweights.now) }
    ensures { Opens z (filled counts.old visited.old gains.old index.old bits.old loads.old) (filled counts.new visited.new gains.new index.new bits.new loads.new) (read presentpins.now presentsizes.now blocks.now weights.now fixed.now firsts.now netweights.now) result }
{
    let n = z.vertices as usize;
    let m = z.nets as usize;
    let k = z.blocks as usize;
    let draft = open(
        counts,
        visited,
        gains,
        bits,
        loads,
        presentpins,
        blocks,
        firsts,
        presentsizes,
        weights,
        netweights,
        n,
        m,
        k,
    );
    put_all_right(index, gains, blocks, n, k);
    begin(fixed, n, z.pins, draft)
}

// The same in the set c.
fn open_set(
    counts: &mut [[u16; 16384]],
    visited: &mut [[u16; 1024]],
    gains: &mut [[i32; 16384]],
    index: &mut [[u16; 16384]],
    bits: &mut [[u64; 16384]],
    loads: &mut [[u64; 16]],
    presentpins: &[[u16; 8192]],
    presentsizes: &[[u16; 1024]],
    blocks: &[[u16; 1024]],
    weights: &[[u32; 1024]],
    fixed: &[[u16; 1024]],
    firsts: &[[u16; 1024]],
    netweights: &[[u16; 1024]],
    c: usize,
    z: Sizes,
) -> Course
    requires { CanOpenSet c z (fills counts.old visited.old gains.old index.old bits.old loads.old) (reads presentpins.now presentsizes.now blocks.now weights.now fixed.now firsts.now netweights.now) }
    ensures { OpensSet c z (fills counts.old visited.old gains.old index.old bits.old loads.old) (fills counts.new visited.new gains.new index.new bits.new loads.new) (reads presentpins.now presentsizes.now blocks.now weights.now fixed.now firsts.now netweights.now) result }
{
    open_tables(
        &mut counts[c],
        &mut visited[c],
        &mut gains[c],
        &mut index[c],
        &mut bits[c],
        &mut loads[c],
        &presentpins[c],
        &presentsizes[c],
        &blocks[c],
        &weights[c],
        &fixed[c],
        &firsts[c],
        &netweights[c],
        z,
    )
}

// The same in the first `count` sets; the others keep what they held.
pub fn open_sets(
    counts: &mut [[u16; 16384]],
    visited: &mut [[u16; 1024]],
    gains: &mut [[i32; 16384]],
    index: &mut [[u16; 16384]],
    bits: &mut [[u64; 16384]],
    loads: &mut [[u64; 16]],
    presentpins: &[[u16; 8192]],
    presentsizes: &[[u16; 1024]],
    blocks: &[[u16; 1024]],
    weights: &[[u32; 1024]],
    fixed: &[[u16; 1024]],
    firsts: &[[u16; 1024]],
    netweights: &[[u16; 1024]],
    sizes: [Sizes; 4],
    count: usize,
) -> [Course; 4]
    requires { CanOpenSets count sizes (fills counts.old visited.old gains.old index.old bits.old loads.old) (reads presentpins.now presentsizes.now blocks.now weights.now fixed.now firsts.now netweights.now) }
    ensures { OpensSets count sizes (fills counts.old visited.old gains.old index.old bits.old loads.old) (fills counts.new visited.new gains.new index.new bits.new loads.new) (reads presentpins.now presentsizes.now blocks.now weights.now fixed.now firsts.now netweights.now) result }
{
    let mut courses = [begin(&fixed[0], 0, 0, 0); 4];
    for c in 0..count {
        let z = sizes[c];
        courses[c] = open_set(
            counts,
            visited,
            gains,
            index,
            bits,
            loads,
            presentpins,
            presentsizes,
            blocks,
            weights,
            fixed,
            firsts,
            netweights,
            c,
            z,
        );
    }
    courses
}
