// Whether a row of the index holds the other blocks of its vertex in the order of choice. A row whose gains have changed is often still in order,
// and to see that takes less time than to put it in order.
ghost use Rattle.std.specs.Prelude.{◌≡◌, true, ◌+◌, ◌*◌, ◌≤◌, ◌<◌, length};
ghost use Rattle.guarantees.specs.Ranked.{ranked_by, Other};
ghost use Rattle.index.specs.Row.{gain_at, Holds, RowsOk};

use crate::keys::key_of;

// Above the number of every block.
const ABOVE_ALL: u64 = 137438953472;

// Whether `b` is one of the blocks 1..k but `own`.
pub fn is_other(own: usize, k: usize, b: usize) -> bool
    ensures { result ≡ true → Other own k b }
{
    1 <= b && b <= k && b != own
}

// Whether the row of vertex `x`, of block `own`, is ranked.
pub fn in_order(index: &[u16], gains: &[i32], x: usize, own: usize, k: usize) -> bool
    requires { RowsOk (length index.now) (length gains.now) x k × (1 ≤ own) × (own ≤ k) }
    ensures { result ≡ true → Holds k index.now x (ranked_by (gain_at gains.now x) own k) }
{
    let row = 16 * x;
    let mut last = ABOVE_ALL;
    for j in 0..k - 1 {
        let b = usize::from(index[row + j]);
        if !is_other(own, k, b) {
            return false;
        }
        let key = key_of(gains, x, b);
        if last <= key {
            return false;
        }
        last = key;
    }
    index[row + (k - 1)] == 0
}
