// The marks that a search begins with: in row 1, among the vertices that may not move any more, stand the fixed ones. They are made once from
// the column that loading writes, and follow the stack of contractions. Rests on incidence's rows of bits.
ghost use Rattle.std.specs.Prelude.{◌≡◌, ◌≤◌, ◌<◌, length};
ghost use Rattle.fixed.specs.Starting.{FixedMarked, Entered, StackFits, FixedJoin, FixedIn};

use incidence::{is_pin, put, take};

// Marks `x`, counted from 0, if its entry of the column says that it is fixed.
fn mark_entry(marks: &mut [u64; 48], x: usize, entry: u16)
    requires { (length marks.old ≡ 48) × (x < 1024) }
    ensures { Entered marks.old x entry marks.new }
{
    if entry == 1 {
        put(marks, 1, x);
    }
}

// The marks of a catalogue of `n` vertices with no contraction.
pub fn mark_fixed(fixed: &[u16], n: usize) -> [u64; 48]
    requires { (n ≤ 1024) × (n ≤ length fixed.now) }
    ensures { FixedMarked fixed.now n result }
{
    let mut marks = [0u64; 48];
    for x in 0..n {
        mark_entry(&mut marks, x, fixed[x]);
    }
    marks
}

// One contraction more: where the vertex that leaves the board is fixed, the one it is joined into is from now on.
fn join_fixed(marks: &mut [u64; 48], into: u16, gone: u16)
    requires { (length marks.old ≡ 48) × (1 ≤ into) × (into ≤ 1024) × (1 ≤ gone) × (gone ≤ 1024) }
    ensures { FixedJoin marks.old into gone marks.new }
{
    let v = usize::from(gone) - 1;
    if is_pin(marks, 1, v) {
        take(marks, 1, v);
        put(marks, 1, usize::from(into) - 1);
    }
}

// The marks of a catalogue with the contractions of a stack, from its marks with none.
pub fn fixed_in(marks: [u64; 48], into: &[u16; 512], gone: &[u16; 512], len: usize) -> [u64; 48]
    requires { (length marks ≡ 48) × StackFits into.now gone.now len }
    ensures { FixedIn marks into.now gone.now len result }
{
    let mut standing = marks;
    for i in 0..len {
        join_fixed(&mut standing, into[i], gone[i]);
    }
    standing
}
