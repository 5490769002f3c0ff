// Ratings of one vertex with all others, added up over its own nets. Vertices and blocks count from 1, nets from 0.
ghost use Rattle.std.specs.Prelude.{◌≡◌, ◌+◌, ◌*◌, ◌≤◌, ◌<◌, length};
ghost use Rattle.laws.specs.Occurrence.{occ};
ghost use Rattle.best_contraction.specs.Rating.{lesser, term_of, row_of, own_sum, OwnOk, Raised, Holds, StretchOk, RowOk, Blank};

use incidence::nets_of;

// What a net of weight `w` with `n` pins adds to the rating of two of them.
pub fn term(w: u16, n: u16) -> u64
    ensures { (result ≡ term_of w n) × (result ≤ 536870912) }
{
    if n < 2 {
        return 0;
    }
    5040 * (w as u64) / (n as u64 - 1)
}

// Adds the term to each pin of a net.
fn add_net(acc: &mut [u64; 1025], presentpins: &[u16], first: usize, n: usize, t: u64)
    requires stretch_ok { StretchOk acc.old presentpins.now first n 1152921504606846976 }
    requires t_bound { t ≤ 536870912 }
    ensures { Raised acc.old acc.new (λ z. t * occ presentpins.now first n z) }
{
    for i in 0..n {
        let y = usize::from(presentpins[first + i]);
        acc[y] = acc[y] + t;
    }
}

// Adds up the ratings of `u` with every vertex, whether the two may be contracted or not.
pub fn accumulate(
    acc: &mut [u64; 1025],
    bits: &[u64],
    presentpins: &[u16],
    firsts: &[u16],
    presentsizes: &[u16],
    net_weights: &[u16],
    u: usize,
    m: usize,
)
    requires row_ok { RowOk presentpins.now firsts.now presentsizes.now net_weights.now m }
    requires blank { Blank acc.old × (1 ≤ u) × (16 * u ≤ length bits.now) }
    ensures { Holds acc.new (row_of bits.now presentpins.now firsts.now presentsizes.now net_weights.now u m) }
{
    for e in nets_of(bits, u - 1, m) {
        add_net(
            acc,
            presentpins,
            usize::from(firsts[e]),
            usize::from(presentsizes[e]),
            term(net_weights[e], presentsizes[e]),
        );
    }
}

// The sum of the terms of the nets of `u`: no rating of `u` passes it.
pub fn own_sum(bits: &[u64], presentsizes: &[u16], net_weights: &[u16], u: usize, m: usize) -> u64
    requires { OwnOk bits.now presentsizes.now net_weights.now u m }
    ensures { result ≡ own_sum bits.now presentsizes.now net_weights.now u m }
{
    let mut sum: u64 = 0;
    for e in nets_of(bits, u - 1, m) {
        sum += term(net_weights[e], presentsizes[e]);
    }
    sum
}
