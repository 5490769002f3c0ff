// Tops: for each part of 64 vertices the highest of their bounds, so that a bound that changes needs a pass over its part only. Vertices and
// parts count from 1: part c ends with vertex 64 * c, or with the last of all.
ghost use Rattle.std.specs.Prelude.{◌≡◌, ◌+◌, ◌-◌, ◌*◌, ◌≤◌, ◌<◌, length, set};
ghost use Rattle.best_contraction.specs.Bound.{Highest};
ghost use Rattle.best_contraction.specs.PartTop.{TopOf, part_end, Topped, Tops, FirstUp};

// A part and its top.
#[derive(Clone, Copy)]
struct Top {
    bound: u64,
    part: usize,
}

// The highest of the four entries after `y`.
pub fn four_top(table: &[u64; 1025], y: usize) -> u64
    requires { (length table.now ≡ 1025) × (y + 4 ≤ 1024) }
    ensures { TopOf table.now y (y + 4) result }
{
    u64::max(
        u64::max(table[y + 1], table[y + 2]),
        u64::max(table[y + 3], table[y + 4]),
    )
}

// The highest of the entries after `from`, up to `to`, one by one; 0 where there is none. No Option: the highest of two parts is then
// one max.
fn rest_top(bounds: &[u64; 1025], from: usize, to: usize) -> u64
    requires { (length bounds.now ≡ 1025) × (from ≤ to) × (to ≤ 1024) }
    ensures { TopOf bounds.now from to result }
{
    let mut top: u64 = 0;
    for y in from..to {
        top = u64::max(top, bounds[y + 1]);
    }
    top
}

// The same, four at a time: of the four none waits for another.
fn part_top(bounds: &[u64; 1025], from: usize, to: usize) -> u64
    requires { (length bounds.now ≡ 1025) × (from ≤ to) × (to ≤ 1024) }
    ensures { TopOf bounds.now from to result }
{
    let mut top: u64 = 0;
    let fours = (to - from) / 4;
    for i in 0..fours {
        top = u64::max(top, four_top(bounds, from + 4 * i));
    }
    u64::max(top, rest_top(bounds, from + 4 * fours, to))
}

// The last vertex of part `c`, where there are `n`.
fn part_end(c: usize, n: usize) -> usize
    requires { c ≤ 16 }
    ensures { result ≡ part_end c n }
{
    usize::min(64 * c, n)
}

// Sets the tops of all parts of the `n` vertices.
pub fn set_tops(tops: &mut [u64; 17], bounds: &[u64; 1025], n: usize)
    requires { (length tops.old ≡ 17) × (length bounds.now ≡ 1025) × (n ≤ 1024) }
    ensures { Topped bounds.now n tops.new }
{
    for i in 0..n.div_ceil(64) {
        tops[i + 1] = part_top(bounds, 64 * i, part_end(i + 1, n));
    }
}

// Sets the bound of `u`, and the top of its part.
pub fn set_bound(bounds: &mut [u64; 1025], tops: &mut [u64; 17], u: usize, bound: u64, n: usize)
    requires { (length bounds.old ≡ 1025) × (1 ≤ u) × (u ≤ n) × (n ≤ 1024) × Topped bounds.old n tops.old }
    ensures { (bounds.new ≡ set bounds.old u bound) × Topped bounds.new n tops.new }
{
    bounds[u] = bound;
    let i = (u - 1) / 64;
    tops[i + 1] = part_top(bounds, 64 * i, part_end(i + 1, n));
}

// The higher of the part `c`, of that top, and the highest before it.
fn higher(bound: u64, c: usize, top: Top) -> Top
    ensures { Tops bound c top.bound top.part result.bound result.part }
{
    let high = top.bound;
    if high < bound {
        return Top { bound, part: c };
    }
    top
}

// The part of the highest top, the first of those.
fn highest_part(tops: &[u64; 17], parts: usize) -> usize
    requires { (length tops.now ≡ 17) × (1 ≤ parts) × (parts ≤ 16) }
    ensures { Highest tops.now parts result }
{
    let mut top = Top {
        bound: tops[1],
        part: 1,
    };
    for i in 1..parts {
        top = higher(tops[i + 1], i + 1, top);
    }
    top.part
}

// The first vertex after `from` whose bound is `top`, the highest of those up to `to`.
fn first_up(bounds: &[u64; 1025], from: usize, to: usize, top: u64) -> usize
    requires { (length bounds.now ≡ 1025) × (from < to) × (to ≤ 1024) × TopOf bounds.now from to top }
    ensures { FirstUp bounds.now from to top result }
{
    for y in from + 1..to {
        if top <= bounds[y] {
            return y;
        }
    }
    to
}

// The vertex of the highest bound, the first of those.
pub fn highest(tops: &[u64; 17], bounds: &[u64; 1025], n: usize) -> usize
    requires { (length bounds.now ≡ 1025) × (1 ≤ n) × (n ≤ 1024) × Topped bounds.now n tops.now }
    ensures { Highest bounds.now n result }
{
    let c = highest_part(tops, n.div_ceil(64));
    first_up(bounds, 64 * (c - 1), part_end(c, n), tops[c])
}
