// The candidates of a search as three rows of bits: row 0 has the vertices that may be chosen, row 1 those that have moved in this search and
// those that are fixed, row 2 the nets whose pins have been marked in it. Such pins stay candidates until they move, so that a net is marked
// only once: with large nets most of a walk's time would go into marking. The pins of a large net are marked by its row of vertex bits, where the
// caller has such rows. Vertices and nets count from 0.
ghost use Rattle.std.specs.Prelude.{◌≡◌, ◌+◌, ◌-◌, ◌*◌, ◌%◌, ◌<◌, ◌≤◌, eqb, length, get_or};
ghost use Rattle.incidence.specs.On.{on};
ghost use Rattle.connectivity.specs.Listed.{has};
ghost use Rattle.search_moves.specs.Marks.{Marked, SameNets, MoreNets, PinsOk, Covered, near, NetsOk, Fresh, WordMarked, Spread};
ghost use Rattle.search_moves.specs.Rows.{RowIs, RowsPast};

use incidence::{is_pin, next_bit, put, take};

// Makes `x` a candidate, unless it has moved or is fixed.
pub fn mark_vertex(marks: &mut [u64; 48], x: usize)
    requires { (length marks.old ≡ 48) × (x < 1024) }
    ensures { Marked marks.old marks.new (λ y. eqb y x) × SameNets marks.old marks.new }
{
    if is_pin(marks, 1, x) {
        return;
    }
    put(marks, 0, x);
}

// Makes the pins of one net candidates.
fn mark_pins(marks: &mut [u64; 48], presentpins: &[u16], first: usize, size: usize)
    requires { (length marks.old ≡ 48) × PinsOk presentpins.now first size }
    ensures { Marked marks.old marks.new (has presentpins.now first size) × SameNets marks.old marks.new }
{
    for j in 0..size {
        mark_vertex(marks, usize::from(presentpins[first + j]) - 1);
    }
}

// Makes the vertices candidates that are in row `e` of `rows`.
fn mark_row(marks: &mut [u64; 48], rows: &[u64], e: usize)
    requires { (length marks.old ≡ 48) × (16 * e + 16 ≤ length rows.now) }
    ensures { Marked marks.old marks.new (λ x. eqb (on rows.now e x) 1) × SameNets marks.old marks.new }
{
    let row = 16 * e;
    for c in 0..16 {
        let word = rows[row + c];
        marks[c] = marks[c] | (word ^ (word & marks[16 + c]));
    }
}

// Makes the pins of net `e` candidates, by its row where it has more than `limit`: a few pins take less time one by one.
fn mark_all(
    marks: &mut [u64; 48],
    rows: &[u64],
    limit: u16,
    presentpins: &[u16],
    firsts: &[u16],
    presentsizes: &[u16],
    e: usize,
)
    requires { (length marks.old ≡ 48) × (e < length firsts.now) × (e < length presentsizes.now) × PinsOk presentpins.now (get_or firsts.now e 0) (get_or presentsizes.now e 0)
        × (limit < get_or presentsizes.now e 0 → RowIs rows.now e (has presentpins.now (get_or firsts.now e 0) (get_or presentsizes.now e 0))) }
    ensures { Marked marks.old marks.new (has presentpins.now (get_or firsts.now e 0) (get_or presentsizes.now e 0)) × SameNets marks.old marks.new }
{
    if limit < presentsizes[e] {
        mark_row(marks, rows, e);
        return;
    }
    mark_pins(
        marks,
        presentpins,
        usize::from(firsts[e]),
        usize::from(presentsizes[e]),
    );
}

// Makes the pins of net `e` candidates, and puts it to the nets for which that has been done.
fn mark_net(
    marks: &mut [u64; 48],
    rows: &[u64],
    limit: u16,
    presentpins: &[u16],
    firsts: &[u16],
    presentsizes: &[u16],
    e: usize,
)
    requires { (length marks.old ≡ 48) × (e < 1024) × (e < length firsts.now) × (e < length presentsizes.now)
        × PinsOk presentpins.now (get_or firsts.now e 0) (get_or presentsizes.now e 0) × Covered marks.old presentpins.now firsts.now presentsizes.now
        × (limit < get_or presentsizes.now e 0 → RowIs rows.now e (has presentpins.now (get_or firsts.now e 0) (get_or presentsizes.now e 0))) }
    ensures { Marked marks.old marks.new (has presentpins.now (get_or firsts.now e 0) (get_or presentsizes.now e 0)) × Covered marks.new presentpins.now firsts.now presentsizes.now × MoreNets marks.old marks.new }
{
    mark_all(marks, rows, limit, presentpins, firsts, presentsizes, e);
    put(marks, 2, e);
}

// The bits of `word` that are not in `seen`.
fn fresh(word: u64, seen: u64) -> u64
    ensures { Fresh word seen result }
{
    word ^ (word & seen)
}

// Makes the pins of the nets of `u` candidates that one word of its row has, from net `from` on, unless that has been done before in this
// search: the word of row 2 tells that of all 64 nets at once. The answer is where the next word begins, or `m`, where the nets
// end.
fn mark_word(
    marks: &mut [u64; 48],
    bits: &[u64],
    rows: &[u64],
    limit: u16,
    presentpins: &[u16],
    firsts: &[u16],
    presentsizes: &[u16],
    m: usize,
    u: usize,
    from: usize,
) -> usize
    requires { (length marks.old ≡ 48) × NetsOk bits.now presentpins.now firsts.now presentsizes.now m u
        × Covered marks.old presentpins.now firsts.now presentsizes.now × (from < m) × (from % 64 ≡ 0) × RowsPast rows.now presentpins.now firsts.now presentsizes.now limit m }
    ensures { WordMarked bits.now presentpins.now firsts.now presentsizes.now m u from result marks.old marks.new }
{
    let c = from / 64;
    let to = usize::min(from + 64, m);
    let nets = fresh(bits[16 * u + c], marks[32 + c]);
    let mut j = next_bit(nets, 0);
    // No for: it goes from bit to bit, and ends with the nets or with the word.
    while from + j < to {
        mark_net(
            marks,
            rows,
            limit,
            presentpins,
            firsts,
            presentsizes,
            from + j,
        );
        j = next_bit(nets, j + 1);
    }
    to
}

// Makes the pins of the nets of `u` candidates.
fn mark_nets(
    marks: &mut [u64; 48],
    bits: &[u64],
    rows: &[u64],
    limit: u16,
    presentpins: &[u16],
    firsts: &[u16],
    presentsizes: &[u16],
    m: usize,
    u: usize,
)
    requires { (length marks.old ≡ 48) × NetsOk bits.now presentpins.now firsts.now presentsizes.now m u
        × Covered marks.old presentpins.now firsts.now presentsizes.now × RowsPast rows.now presentpins.now firsts.now presentsizes.now limit m }
    ensures { Marked marks.old marks.new (near bits.now presentpins.now firsts.now presentsizes.now u m) × Covered marks.new presentpins.now firsts.now presentsizes.now }
{
    let mut e = 0;
    // No for: a word begins where the last one ended.
    while e < m {
        e = mark_word(
            marks,
            bits,
            rows,
            limit,
            presentpins,
            firsts,
            presentsizes,
            m,
            u,
            e,
        );
    }
}

// After `u` has moved: it is no candidate any more, and those that share a net with it become candidates.
pub fn spread(
    marks: &mut [u64; 48],
    bits: &[u64],
    rows: &[u64],
    limit: u16,
    presentpins: &[u16],
    firsts: &[u16],
    presentsizes: &[u16],
    m: usize,
    u: usize,
)
    requires { (length marks.old ≡ 48) × (u < 1024) × NetsOk bits.now presentpins.now firsts.now presentsizes.now m u
        × Covered marks.old presentpins.now firsts.now presentsizes.now × RowsPast rows.now presentpins.now firsts.now presentsizes.now limit m }
    ensures { Spread marks.old marks.new u (near bits.now presentpins.now firsts.now presentsizes.now u m) × Covered marks.new presentpins.now firsts.now presentsizes.now }
{
    take(marks, 0, u);
    put(marks, 1, u);
    mark_nets(
        marks,
        bits,
        rows,
        limit,
        presentpins,
        firsts,
        presentsizes,
        m,
        u,
    );
}
