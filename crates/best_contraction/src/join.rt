// The pair to contract: the best partner of a vertex by its own nets, and the best of those. `limit` is ⌈W/k⌉, the average weight of a
// block. The table `acc` is all 0 between calls; `bounds` spares most vertices the rating.
ghost use Rattle.std.specs.Prelude.{◌≡◌, cond, ◌+◌, ◌-◌, ◌≤◌, ◌<◌, length, get_or};
ghost use Rattle.best_contraction.specs.Rating.{fits, score_in, score_of, TablesOk, Blank, Cleared};
ghost use Rattle.best_contraction.specs.PartnerLaw.{topped, top_to};
ghost use Rattle.best_contraction.specs.JoinLaw.{PartnerOf};
ghost use Rattle.best_contraction.specs.JoinPair.{BestJoin, IsRated, join_or};
ghost use Rattle.best_contraction.specs.Bound.{Bounded, Planned, rise_of};
ghost use Rattle.best_contraction.specs.PartTop.{Topped};
ghost use Rattle.best_contraction.specs.Settling.{Rates};

use crate::bounds::lift;
use crate::rating::accumulate;
use crate::tops::{four_top, highest, set_bound, set_tops};

// The best partner of a vertex; vertex 0 and rating 0 where there is none, so that one comparison of ratings is enough in the loop.
#[derive(Clone, Copy)]
pub struct Partner {
    pub rating: u64,
    pub vertex: usize,
}

// A pair and its rating. In this file the rating is 0 where there is none, so that one comparison of ratings is enough in the loop; plan_join answers
// an Option.
#[derive(Clone, Copy)]
pub struct Join {
    pub rating: u64,
    pub into: usize,
    pub gone: usize,
}

// The best pair of a vertex just rated, and the vertex whose bound is now the highest.
#[derive(Clone, Copy)]
struct Rated {
    rating: u64,
    into: usize,
    gone: usize,
    top: usize,
}

// Whether `y` may be the partner of `u`: it comes after it, is in its block `own`, and the two are not too heavy together; `u` weighs `a`.
fn may_join(
    blocks: &[u16],
    weights: &[u32],
    u: usize,
    own: u16,
    a: u64,
    limit: u64,
    y: usize,
) -> bool
    requires { (1 ≤ y) × (y ≤ length blocks.now) × (y ≤ length weights.now) }
    ensures { result ≡ fits blocks.now weights.now u own a limit y }
{
    if y <= u {
        return false;
    }
    if blocks[y - 1] != own {
        return false;
    }
    if limit < a {
        return false;
    }
    u64::from(weights[y - 1]) <= limit - a
}

// The better of `y`, of rating `s`, and the best before it. Few rate higher than the best before them, so that this is tested first.
fn weigh_partner(
    blocks: &[u16],
    weights: &[u32],
    u: usize,
    own: u16,
    a: u64,
    limit: u64,
    y: usize,
    s: u64,
    best: Partner,
) -> Partner
    requires { (1 ≤ y) × (y ≤ length blocks.now) × (y ≤ length weights.now) }
    ensures { result ≡ topped (cond (fits blocks.now weights.now u own a limit y) s 0) y best }
{
    let high = best.rating;
    if s <= high {
        return best;
    }
    if may_join(blocks, weights, u, own, a, limit, y) {
        return Partner {
            rating: s,
            vertex: y,
        };
    }
    best
}

// The best of the vertices up to `to`, where `before` is the best of those up to `from`.
fn weigh_to(
    acc: &[u64; 1025],
    blocks: &[u16],
    weights: &[u32],
    u: usize,
    own: u16,
    a: u64,
    limit: u64,
    from: usize,
    to: usize,
    before: Partner,
) -> Partner
    requires acc_len { (length acc.now ≡ 1025) × (from ≤ to) × (to ≤ 1024) × (to ≤ length blocks.now) × (to ≤ length weights.now) }
    requires before_value { before ≡ top_to (score_in (fits blocks.now weights.now u own a limit) (λ z. get_or acc.now z 0)) from }
    ensures { result ≡ top_to (score_in (fits blocks.now weights.now u own a limit) (λ z. get_or acc.now z 0)) to }
{
    let mut best = before;
    for y in from..to {
        best = weigh_partner(blocks, weights, u, own, a, limit, y + 1, acc[y + 1], best);
    }
    best
}

// The best of the vertices up to `y + 4`, where `best` is the best of those up to `y`. Few rate higher, so that four are compared with it at
// once.
fn weigh_four(
    acc: &[u64; 1025],
    blocks: &[u16],
    weights: &[u32],
    u: usize,
    own: u16,
    a: u64,
    limit: u64,
    y: usize,
    best: Partner,
) -> Partner
    requires acc_len { (length acc.now ≡ 1025) × (y + 4 ≤ 1024) × (y + 4 ≤ length blocks.now) × (y + 4 ≤ length weights.now) }
    requires best_value { best ≡ top_to (score_in (fits blocks.now weights.now u own a limit) (λ z. get_or acc.now z 0)) y }
    ensures { result ≡ top_to (score_in (fits blocks.now weights.now u own a limit) (λ z. get_or acc.now z 0)) (y + 4) }
{
    let high = best.rating;
    if four_top(acc, y) <= high {
        return best;
    }
    weigh_to(acc, blocks, weights, u, own, a, limit, y, y + 4, best)
}

// The best partner of `u` by the ratings in `acc`: only the vertices after it may be, and of equals the first is kept.
fn select(
    acc: &[u64; 1025],
    blocks: &[u16],
    weights: &[u32],
    limit: u64,
    u: usize,
    n: usize,
) -> Partner
    requires acc_len { (length acc.now ≡ 1025) × (1 ≤ u) × (u ≤ n) × (n ≤ 1024) }
    requires n_in_bounds { (n ≤ length blocks.now) × (n ≤ length weights.now) }
    ensures { result ≡ top_to (score_in (fits blocks.now weights.now u (get_or blocks.now (u - 1) 0) (get_or weights.now (u - 1) 0) limit) (λ z. get_or acc.now z 0)) n }
{
    let own = blocks[u - 1];
    let a = u64::from(weights[u - 1]);
    let mut best = Partner {
        rating: 0,
        vertex: 0,
    };
    let fours = (n - u) / 4;
    for i in 0..fours {
        best = weigh_four(acc, blocks, weights, u, own, a, limit, u + 4 * i, best);
    }
    weigh_to(
        acc,
        blocks,
        weights,
        u,
        own,
        a,
        limit,
        u + 4 * fours,
        n,
        best,
    )
}

// Clears the places of the `n` vertices.
fn clear(acc: &mut [u64; 1025], n: usize)
    requires { (length acc.old ≡ 1025) × (n ≤ 1024) }
    ensures { Cleared acc.old acc.new n }
{
    for i in 0..n {
        acc[i + 1] = 0;
    }
}

// The best partner of `u` among the vertices after it; `acc` is all 0 before and after.
fn best_partner(
    acc: &mut [u64; 1025],
    bits: &[u64],
    presentpins: &[u16],
    firsts: &[u16],
    presentsizes: &[u16],
    net_weights: &[u16],
    blocks: &[u16],
    weights: &[u32],
    limit: u64,
    u: usize,
    m: usize,
    n: usize,
) -> Partner
    requires tables_ok { TablesOk bits.now presentpins.now firsts.now presentsizes.now net_weights.now blocks.now m n }
    requires blank { Blank acc.old × (1 ≤ u) × (u ≤ n) × (n ≤ length weights.now) }
    ensures { PartnerOf
        (score_of bits.now presentpins.now firsts.now presentsizes.now net_weights.now blocks.now weights.now m limit u)
        n acc.new result }
{
    accumulate(
        acc,
        bits,
        presentpins,
        firsts,
        presentsizes,
        net_weights,
        u,
        m,
    );
    let best = select(acc, blocks, weights, limit, u, n);
    clear(acc, n);
    best
}

// Finds the best partner of `u`; its rating is then u's bound.
fn rate(
    acc: &mut [u64; 1025],
    bounds: &mut [u64; 1025],
    tops: &mut [u64; 17],
    bits: &[u64],
    presentpins: &[u16],
    firsts: &[u16],
    presentsizes: &[u16],
    net_weights: &[u16],
    blocks: &[u16],
    weights: &[u32],
    limit: u64,
    u: usize,
    m: usize,
    n: usize,
) -> Rated
    requires tables_ok { TablesOk bits.now presentpins.now firsts.now presentsizes.now net_weights.now blocks.now m n }
    requires blank { Blank acc.old × (length bounds.old ≡ 1025) × (1 ≤ u) × (u ≤ n) × (n ≤ length weights.now) }
    requires topped { Topped bounds.old n tops.old }
    ensures rates { Rates
        (score_of bits.now presentpins.now firsts.now presentsizes.now net_weights.now blocks.now weights.now m limit)
        n bounds.old bounds.new u result.rating result.into result.gone result.top }
    ensures blank_2 { Blank acc.new }
    ensures topped_2 { Topped bounds.new n tops.new }
{
    let p = best_partner(
        acc,
        bits,
        presentpins,
        firsts,
        presentsizes,
        net_weights,
        blocks,
        weights,
        limit,
        u,
        m,
        n,
    );
    let rating = p.rating;
    set_bound(bounds, tops, u, rating, n);
    Rated {
        rating,
        into: u,
        gone: p.vertex,
        top: highest(tops, bounds, n),
    }
}

// The pair of highest rating, then lowest u, then lowest v. Where a vertex just rated has the highest bound, the first of those, no other has
// a better pair.
fn best_join(
    acc: &mut [u64; 1025],
    bounds: &mut [u64; 1025],
    bits: &[u64],
    presentpins: &[u16],
    firsts: &[u16],
    presentsizes: &[u16],
    net_weights: &[u16],
    blocks: &[u16],
    weights: &[u32],
    limit: u64,
    m: usize,
    n: usize,
) -> Join
    requires tables_ok { TablesOk bits.now presentpins.now firsts.now presentsizes.now net_weights.now blocks.now m n }
    requires blank { Blank acc.old × (1 ≤ n) × (n ≤ length weights.now) }
    requires bounded { Bounded (score_of bits.now presentpins.now firsts.now presentsizes.now net_weights.now blocks.now weights.now m limit) n bounds.old }
    ensures best_join { BestJoin
        (score_of bits.now presentpins.now firsts.now presentsizes.now net_weights.now blocks.now weights.now m limit)
        n result }
    ensures bounded_2 { Bounded
        (score_of bits.now presentpins.now firsts.now presentsizes.now net_weights.now blocks.now weights.now m limit)
        n bounds.new }
    ensures blank_2 { Blank acc.new }
{
    let mut tops = [0u64; 17];
    set_tops(&mut tops, bounds, n);
    let start = highest(&tops, bounds, n);
    let mut s = rate(
        acc,
        bounds,
        &mut tops,
        bits,
        presentpins,
        firsts,
        presentsizes,
        net_weights,
        blocks,
        weights,
        limit,
        start,
        m,
        n,
    );
    // No for: it ends where the vertex just rated has the highest bound, and counts nothing.
    while s.top != s.into {
        s = rate(
            acc,
            bounds,
            &mut tops,
            bits,
            presentpins,
            firsts,
            presentsizes,
            net_weights,
            blocks,
            weights,
            limit,
            s.top,
            m,
            n,
        );
    }
    Join {
        rating: s.rating,
        into: s.into,
        gone: s.gone,
    }
}

// The same pair, if there is one, with the bounds as they have to be when it has been contracted.
pub fn plan_join(
    acc: &mut [u64; 1025],
    bounds: &mut [u64; 1025],
    bits: &[u64],
    presentpins: &[u16],
    firsts: &[u16],
    presentsizes: &[u16],
    net_weights: &[u16],
    blocks: &[u16],
    weights: &[u32],
    limit: u64,
    m: usize,
    n: usize,
) -> Option<Join>
    requires tables_ok { TablesOk bits.now presentpins.now firsts.now presentsizes.now net_weights.now blocks.now m n }
    requires blank { Blank acc.old × (1 ≤ n) × (n ≤ length weights.now) }
    requires bounded { Bounded (score_of bits.now presentpins.now firsts.now presentsizes.now net_weights.now blocks.now weights.now m limit) n bounds.old }
    ensures best_join { BestJoin
        (score_of bits.now presentpins.now firsts.now presentsizes.now net_weights.now blocks.now weights.now m limit)
        n (join_or result) }
    ensures rated { IsRated result }
    ensures planned { Planned
        (score_of bits.now presentpins.now firsts.now presentsizes.now net_weights.now blocks.now weights.now m limit)
        (rise_of bits.now presentpins.now firsts.now presentsizes.now net_weights.now blocks.now m) n bounds.new (join_or result) }
    ensures blank_2 { Blank acc.new }
{
    let best = best_join(
        acc,
        bounds,
        bits,
        presentpins,
        firsts,
        presentsizes,
        net_weights,
        blocks,
        weights,
        limit,
        m,
        n,
    );
    let rating = best.rating;
    if rating == 0 {
        return None;
    }
    lift(
        bounds,
        bits,
        presentpins,
        firsts,
        presentsizes,
        net_weights,
        blocks,
        best.into,
        best.gone,
        m,
        n,
    );
    Some(best)
}
