// What the other catalogues of a hall leave of 1,024 lots and 8,192 marks.
ghost use Rattle.std.specs.Prelude.{◌-◌, ◌≤◌, ◌≡◌, length, get_or};
ghost use Rattle.hall_rooms.specs.Rooms.{besides};
ghost use Rattle.hall_led.specs.Others.{lots_beside, marks_beside, Few};

use call_list::course::Course;

// A catalogue's part of what the others have: none of c itself.
fn share(of: usize, d: usize, c: usize) -> usize
    ensures { result ≡ besides c d of }
{
    if d == c { 0 } else { of }
}

// What all catalogues but c leave of lots.
pub fn lots_left(courses: [Course; 4], count: usize, c: usize) -> usize
    requires { (count ≤ 4) × (length courses ≡ 4) × Few courses count }
    ensures { result ≡ 1024 - lots_beside courses count c }
{
    let mut all: usize = 0;
    for d in 0..count {
        let one = courses[d];
        let free = one.free;
        all += share(one.n.saturating_sub(free.len), d, c);
    }
    1024_usize.saturating_sub(all)
}

// What they leave of marks.
pub fn marks_left(courses: [Course; 4], count: usize, c: usize) -> usize
    requires { (count ≤ 4) × (length courses ≡ 4) × Few courses count }
    ensures { result ≡ 8192 - marks_beside courses count c }
{
    let mut all: usize = 0;
    for d in 0..count {
        let one = courses[d];
        all += share(one.marks, d, c);
    }
    8192_usize.saturating_sub(all)
}
