// Entries in use made 0, before the tables are filled.
ghost use Rattle.std.specs.Prelude.{◌+◌, ◌*◌, ◌≤◌, length};
ghost use Rattle.first_tables.specs.Clear.{Wiped, WipedRows};

// Makes the `k` entries from `row` on `zero`.
pub fn clear_row<T: Copy>(table: &mut [T], row: usize, k: usize, zero: T)
    requires { row + k ≤ length table.old }
    ensures { Wiped zero row k table.old table.new }
{
    for j in 0..k {
        table[row + j] = zero;
    }
}

// Makes the first `k` entries of each of `n` rows of a table `zero`.
pub fn clear_rows<T: Copy>(table: &mut [T], n: usize, k: usize, zero: T)
    requires { (16 * n ≤ length table.old) × (k ≤ 16) × (n ≤ 1024) }
    ensures { WipedRows zero n k table.old table.new }
{
    for y in 0..n {
        clear_row(table, 16 * y, k, zero);
    }
}
