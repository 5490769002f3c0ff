// A block of a row of the index as code works with it.
ghost use Rattle.std.specs.Prelude.{◌+◌, ◌*◌, ◌≤◌, ◌<◌, length};
ghost use Rattle.index.specs.Row.{row_at, Block};

// The block at place `j` of a row of the index.
pub fn block_at(index: &[u16], x: usize, j: usize) -> usize
    requires x_in_bounds { (16 * x + 16 ≤ length index.now) × (j < 16) }
    requires bound { (1 ≤ row_at index.now x j) × (row_at index.now x j ≤ 16) }
    ensures { Block (row_at index.now x j) result }
{
    usize::from(index[16 * x + j])
}
