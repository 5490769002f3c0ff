// Which prefix a walk keeps: the one of lowest metric, then of lightest heaviest block, then the first. Rests on no other file.
ghost use Rattle.std.specs.Prelude.{◌≡◌, cond, ◌≤◌, length};
ghost use Rattle.model.specs.Search.{is_kept};
ghost use Rattle.walk.specs.Kept.{worth, heaviest_in};

// The prefix that is kept: its length, its metric, and the weight of its heaviest block.
#[derive(Clone, Copy)]
pub struct Prefix {
    pub kept: usize,
    pub low: u32,
    pub heaviest: u64,
}

// The weight of the heaviest of the first `k` blocks.
pub fn heaviest(loads: &[u64; 16], k: usize) -> u64
    requires { (length loads.now ≡ 16) × (k ≤ 16) }
    ensures { result ≡ heaviest_in loads.now k }
{
    let mut most: u64 = 0;
    for j in 0..k {
        most = u64::max(most, loads[j]);
    }
    most
}

// Whether a later prefix is kept in place of one whose metric is `low` and whose heaviest block weighs `most`.
fn is_kept(total: u32, heavy: u64, low: u32, most: u64) -> bool
    ensures { result ≡ is_kept (worth total heavy) (worth low most) }
{
    (total, heavy) < (low, most)
}

// The prefix to keep after one more move, of which there are `tried`: those made until now, or what was kept.
pub fn keep(tried: usize, total: u32, heavy: u64, prefix: Prefix) -> Prefix
    ensures kept_value { result.kept ≡ cond (is_kept (worth total heavy) (worth prefix.low prefix.heaviest)) tried prefix.kept }
    ensures heaviest_value { worth result.low result.heaviest ≡ cond (is_kept (worth total heavy) (worth prefix.low prefix.heaviest)) (worth total heavy) (worth prefix.low prefix.heaviest) }
{
    if is_kept(total, heavy, prefix.low, prefix.heaviest) {
        return Prefix {
            kept: tried,
            low: total,
            heaviest: heavy,
        };
    }
    prefix
}
