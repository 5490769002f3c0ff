// What the vertices of a block weigh together, by the tables.
#![tactic(auto)]

ghost use Rattle.std.specs.Prelude.{◌≡◌, cond, ◌≤◌, eqb, length};
ghost use Rattle.laws.specs.Sum.{sum};
ghost use Rattle.block_weights.specs.Term.{block_term};

// What a vertex adds to the weight of block b.
fn share(weight: u32, block: u16, b: u32) -> u32
    ensures { result ≡ cond (eqb block b) weight 0 }
{
    if u32::from(block) == b { weight } else { 0 }
}

// What the vertices of block b weigh together, among the first n.
pub fn block_weight(weights: &[u32], draft: &[u16], n: usize, b: u32) -> u64
    requires { (n ≤ 1024) × (n ≤ length weights.now) × (n ≤ length draft.now) }
    ensures { result ≡ sum n (block_term b weights.now draft.now) }
{
    let mut t: u64 = 0;
    for i in 0..n {
        t += u64::from(share(weights[i], draft[i], b));
    }
    t
}
