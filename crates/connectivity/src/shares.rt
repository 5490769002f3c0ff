// The share of a net in the gains of a vertex, put to the vertex's row of the gain table or taken from it.
ghost use Rattle.std.specs.Prelude.{◌+◌, ◌*◌, ◌^◌, ◌<◌, ◌≡◌, cond, length, get_or, set, ℤ, pos, nat_abs, ◌+ℤ◌};
ghost use Rattle.std.specs.Int.{w32};
ghost use Rattle.std.proofs.Common.{SFits};
ghost use Rattle.connectivity.specs.Share.{share, when};
ghost use Rattle.connectivity.specs.Raised.{Raised, Ready};
ghost use Rattle.connectivity.specs.Laid.{signed};

use crate::halves::{net_halves, when_is};

// A number, or its opposite where it is to be taken.
pub fn signed(take: bool, s: i32) -> i32
    requires { nat_abs s < 2 ^ 31 }
    ensures { result ≡ signed take s }
{
    if take { -s } else { s }
}

// Adds to an entry.
pub fn add_at(g: &mut [i32], i: usize, s: i32)
    requires i_in_bounds { i < length g.old }
    requires sfits { SFits w32 (get_or g.old i (pos 0) +ℤ s) }
    ensures { g.new ≡ set g.old i (get_or g.old i (pos 0) +ℤ s) }
{
    g[i] = g[i] + s;
}

// Nothing at a vertex's own block, else the share. A choice between two values and no early return, so that the loops over the blocks have no
// branch.
fn unless(own: bool, share: i32) -> i32
    ensures { result ≡ cond own (pos 0) share }
{
    if own { 0 } else { share }
}

// The share of a net of weight `w` in the gain of the block `x` for a vertex of the block `own`: the difference of its halves. What leaving
// that block frees is the same for all blocks, and given.
fn share_of(counts: &[u16], crow: usize, own: usize, w: u16, x: usize, freed: u16) -> i32
    requires x_in_bounds { crow + x < length counts.now }
    requires freed_value { freed ≡ when (get_or counts.now (crow + own) 0) 1 w }
    ensures { result ≡ share counts.now crow own w x }
{
    let halves = net_halves(counts, crow + x, w, freed);
    unless(x == own, halves.difference())
}

// Takes a net's shares from the gains of one vertex, or puts them.
pub fn share_row(
    gains: &mut [i32],
    counts: &[u16],
    q: usize,
    e: usize,
    own: usize,
    k: usize,
    w: u16,
    take: bool,
)
    requires ready { Ready gains.old counts.now (16 * q) (16 * e) own k w }
    requires q_bound { (16 * q < 2 ^ 64) × (16 * e < 2 ^ 64) }
    ensures { Raised (λ j. signed take (share counts.now (16 * e) own w j)) (16 * q) k gains.old gains.new }
{
    let row = 16 * q;
    let crow = 16 * e;
    let freed = when_is(counts[crow + own], 1, w);
    for x in 0..k {
        let share = share_of(counts, crow, own, w, x, freed);
        add_at(gains, row + x, signed(take, share));
    }
}
