// The pins of nets as rows of vertex bits, 16 words a net: bit x of row e is 1 where the vertex x is a pin of the net e. By its row a net's pins
// are marked 64 at a time. Made once from the present pins, and kept right at a split. Vertices and nets count from 0. Rests on incidence.
ghost use Rattle.std.specs.Prelude.{ℕ, ◌+◌, ◌*◌, ◌<◌, ◌≤◌, ◌≡◌, length, get_or};
ghost use Rattle.incidence.specs.On.{on};
ghost use Rattle.search_moves.specs.Marks.{PinsOk};
ghost use Rattle.search_moves.specs.Rows.{RowsAre, FilledTo};
ghost use Rattle.search_moves.specs.Parted.{NetParted, PartedTo, PartRowsOk};

use incidence::{is_pin, nets_of, put, take};

// Puts the pins of one net into its row, which has none.
fn fill_row(rows: &mut [u64; 16384], presentpins: &[u16], first: usize, size: usize, e: usize)
    requires { (16 * e + 16 ≤ length rows.old) × PinsOk presentpins.now first size × ((x : ℕ) → x < 1024 → on rows.old e x ≡ 0) }
    ensures { FilledTo rows.old presentpins.now first e size rows.new }
{
    for j in 0..size {
        put(rows, e, usize::from(presentpins[first + j]) - 1);
    }
}

// Puts the pins of all nets into rows that have none.
pub fn fill_rows(
    rows: &mut [u64; 16384],
    presentpins: &[u16],
    firsts: &[u16],
    presentsizes: &[u16],
    m: usize,
)
    requires { (length rows.old ≡ 16384) × ((e x : ℕ) → x < 1024 → on rows.old e x ≡ 0) × (m ≤ 1024) × (m ≤ length firsts.now) × (m ≤ length presentsizes.now)
        × ((e : ℕ) → e < m → PinsOk presentpins.now (get_or firsts.now e 0) (get_or presentsizes.now e 0)) }
    ensures { RowsAre rows.new presentpins.now firsts.now presentsizes.now m }
{
    for e in 0..m {
        fill_row(
            rows,
            presentpins,
            usize::from(firsts[e]),
            usize::from(presentsizes[e]),
            e,
        );
    }
}

// The row of a net of `v` after `v` was split from `u`: `u` stays in it where it is a pin in its own right.
fn part_row(rows: &mut [u64; 16384], bits: &[u64], e: usize, u: usize, v: usize)
    requires { (16 * e + 16 ≤ length rows.old) × (16 * u + 16 ≤ length bits.now) × (e < 1024) × (u < 1024) × (v < 1024) × (u ≡ v → ⊥) }
    ensures { NetParted rows.old bits.now u v e rows.new }
{
    put(rows, e, v);
    if is_pin(bits, u, e) {
        return;
    }
    take(rows, e, u);
}

// The rows after `v` was split from `u`: no other nets than those of `v` have changed their pins.
pub fn part_rows(rows: &mut [u64; 16384], bits: &[u64], m: usize, u: usize, v: usize)
    requires { PartRowsOk rows.old bits.now m u v }
    ensures { PartedTo rows.old bits.now u v m rows.new }
{
    for e in nets_of(bits, v, m) {
        part_row(rows, bits, e, u, v);
    }
}
