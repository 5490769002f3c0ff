// Rows of the index made right: one, before a search reads it, and all of them, at the end of a call.
ghost use Rattle.std.specs.Prelude.{◌≡◌, true, ◌+◌, ◌≤◌, ◌<◌, length, get_or};
ghost use Rattle.index.specs.Row.{Holds, Written, RowsOk};
ghost use Rattle.index.specs.Indexed.{row_for, TablesOk, RightBetween, Indexed};

use crate::order::in_order;
use crate::rank::{clear_row, rank_row};
use crate::sort::settle;

// Whether the row of vertex `x` is known to be right. Off the board that is not looked at.
fn is_right(index: &[u16], gains: &[i32], blocks: &[u16], x: usize, k: usize) -> bool
    requires { RowsOk (length index.now) (length gains.now) x k × (x < length blocks.now) × (get_or blocks.now x 0 ≤ k) }
    ensures { result ≡ true → Holds k index.now x (row_for gains.now blocks.now k x) }
{
    let own = usize::from(blocks[x]);
    if own == 0 {
        return false;
    }
    in_order(index, gains, x, own, k)
}

// Makes the row of vertex `x` what it is to be, whatever it holds: its other blocks ranked, or zeros where it is off the board.
fn set_row(index: &mut [u16], gains: &[i32], blocks: &[u16], x: usize, k: usize)
    requires { RowsOk (length index.old) (length gains.now) x k × (x < length blocks.now) × (get_or blocks.now x 0 ≤ k) }
    ensures { Written k index.old index.new x (row_for gains.now blocks.now k x) }
{
    let own = usize::from(blocks[x]);
    if own == 0 {
        clear_row(index, x, k);
        return;
    }
    if settle(index, gains, x, own, k) {
        return;
    }
    rank_row(index, gains, x, own, k);
}

// Makes the row of vertex `x` right: its other blocks ranked, or zeros where it is off the board.
pub fn put_right(index: &mut [u16], gains: &[i32], blocks: &[u16], x: usize, k: usize)
    requires { RowsOk (length index.old) (length gains.now) x k × (x < length blocks.now) × (get_or blocks.now x 0 ≤ k) }
    ensures { Written k index.old index.new x (row_for gains.now blocks.now k x) }
{
    if is_right(index, gains, blocks, x, k) {
        return;
    }
    set_row(index, gains, blocks, x, k);
}

// Makes the rows of the `n` vertices right. Most are: so the test stands in the loop, and not in `put_right`, which the compiler calls for each row.
pub fn put_all_right(index: &mut [u16], gains: &[i32], blocks: &[u16], n: usize, k: usize)
    requires { TablesOk (length index.old) (length gains.now) blocks.now n k }
    ensures { Indexed gains.now blocks.now n k index.old index.new }
{
    for x in 0..n {
        if is_right(index, gains, blocks, x, k) {
            continue;
        }
        set_row(index, gains, blocks, x, k);
    }
}
