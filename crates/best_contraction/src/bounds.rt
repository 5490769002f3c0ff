// Bounds: for each vertex a number that no rating of it with a later one passes. They begin as the sums of the vertices' own terms, and a
// contraction raises those of the pins of nets that it changes.
ghost use Rattle.std.specs.Prelude.{◌≡◌, ℕ, ◌+◌, ◌-◌, ◌*◌, ◌≤◌, length};
ghost use Rattle.laws.specs.Occurrence.{occ};
ghost use Rattle.best_contraction.specs.Rating.{TablesOk, TakeOk};
ghost use Rattle.best_contraction.specs.Bound.{ceiling, near_rise, far_rise, rise_at, rise_of, Risen, Lifted};
ghost use Rattle.best_contraction.specs.BoundLaw.{OwnSums};

use crate::rating::{own_sum, term};
use incidence::{is_pin, nets_of};

// A bound above every rating: of a vertex whose ratings are not known.
const ABOVE_ALL: u64 = 36028797018963968;

// What a net adds to the bounds of its pins: to those of the vertices before `u` in its block, and to those of the others.
#[derive(Clone, Copy)]
struct Shares {
    near: u64,
    far: u64,
}

// Sets the bound of each vertex to the sum of its own terms.
pub fn begin(
    bounds: &mut [u64; 1025],
    bits: &[u64],
    presentpins: &[u16],
    firsts: &[u16],
    presentsizes: &[u16],
    net_weights: &[u16],
    blocks: &[u16],
    m: usize,
    n: usize,
)
    requires tables_ok { TablesOk bits.now presentpins.now firsts.now presentsizes.now net_weights.now blocks.now m n }
    requires bounds_len { length bounds.old ≡ 1025 }
    ensures { OwnSums bits.now presentsizes.now net_weights.now m n bounds.new }
{
    for i in 0..n {
        bounds[i + 1] = own_sum(bits, presentsizes, net_weights, i + 1, m);
    }
}

// What a net of weight `w` with `n` pins adds, by whether both vertices of the contraction are pins.
fn rise(both: bool, w: u16, n: u16) -> Shares
    ensures near_value { (result.near ≡ near_rise both w n) × (result.far ≡ far_rise both w n) }
    ensures near_bound { (result.near ≤ 536870912) × (result.far ≤ 536870912) }
{
    let t = term(w, n);
    if both {
        let more = term(w, n.saturating_sub(1)).saturating_sub(t);
        return Shares {
            near: more,
            far: more,
        };
    }
    Shares { near: t, far: 0 }
}

// What is added for the pin `y`.
fn share(blocks: &[u16], u: usize, own: u16, y: usize, near: u64, far: u64) -> u64
    requires { (1 ≤ y) × (y ≤ length blocks.now) }
    ensures { result ≡ rise_at blocks.now u own near far y }
{
    if u <= y {
        return far;
    }
    if blocks[y - 1] != own {
        return far;
    }
    near
}

// Raises a bound. One above all ratings needs no more.
fn raised(bound: u64, more: u64) -> u64
    requires { more ≤ 536870912 }
    ensures { (s : ℕ) → s ≤ ceiling → s ≤ bound + more → s ≤ result }
{
    if ABOVE_ALL <= bound {
        return bound;
    }
    bound + more
}

// Raises the bounds of the pins of a net. One that adds nothing, as a broad net that loses a pin may, is not passed over.
fn lift_net(
    bounds: &mut [u64; 1025],
    presentpins: &[u16],
    blocks: &[u16],
    u: usize,
    own: u16,
    first: usize,
    n: usize,
    near: u64,
    far: u64,
)
    requires take_ok { TakeOk (length bounds.old) presentpins.now (length blocks.now) first n }
    requires near_bound { (near ≤ 536870912) × (far ≤ 536870912) }
    ensures { Risen bounds.old bounds.new (λ z. occ presentpins.now first n z * rise_at blocks.now u own near far z) }
{
    if near + far == 0 {
        return;
    }
    for i in 0..n {
        let y = usize::from(presentpins[first + i]);
        bounds[y] = raised(bounds[y], share(blocks, u, own, y, near, far));
    }
}

// Raises the bounds to what they have to be when `v` has been contracted into `u`. All ratings of `u` change, so that it has no bound.
pub fn lift(
    bounds: &mut [u64; 1025],
    bits: &[u64],
    presentpins: &[u16],
    firsts: &[u16],
    presentsizes: &[u16],
    net_weights: &[u16],
    blocks: &[u16],
    u: usize,
    v: usize,
    m: usize,
    n: usize,
)
    requires tables_ok { TablesOk bits.now presentpins.now firsts.now presentsizes.now net_weights.now blocks.now m n }
    requires bounds_len { (length bounds.old ≡ 1025) × (1 ≤ u) × (u ≤ n) × (1 ≤ v) × (v ≤ n) }
    ensures { Lifted bounds.old bounds.new (rise_of bits.now presentpins.now firsts.now presentsizes.now net_weights.now blocks.now m u v) u v }
{
    let own = blocks[u - 1];
    for e in nets_of(bits, v - 1, m) {
        let r = rise(is_pin(bits, u - 1, e), net_weights[e], presentsizes[e]);
        lift_net(
            bounds,
            presentpins,
            blocks,
            u,
            own,
            usize::from(firsts[e]),
            usize::from(presentsizes[e]),
            r.near,
            r.far,
        );
    }
    bounds[v] = 0;
    bounds[u] = ABOVE_ALL;
}
