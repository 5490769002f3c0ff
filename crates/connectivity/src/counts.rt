// A net's pin counts, and its connectivity set as a 16-bit mask kept in step with them.
ghost use Rattle.std.specs.Prelude.{◌+◌, ◌*◌, ◌-◌, ◌<◌, ◌≤◌, ◌≡◌, eqb, ltb, length, get_or};
ghost use Rattle.laws.specs.Choice.{one};
ghost use Rattle.laws.specs.Bit.{bit, Masked};
ghost use Rattle.connectivity.specs.Law.{Step, MaskShows};

// 1 where the count is 0, else 0. By arithmetic, since a processor can't predict which counts are 0.
fn one_if_none(n: u16) -> u16
    ensures { result ≡ one (eqb n 0) }
{
    let count = n as u32;
    let none = (65536 - count) / 65536;
    none as u16
}

// The mask with the block `s` in it where that had no pin, and else as it is.
pub fn set_first(m: u16, s: usize, had: u16) -> u16
    requires s_bound { s < 16 }
    requires s_value { 1 ≤ had → bit m s ≡ 1 }
    ensures { Masked m s 1 result }
{
    m | (one_if_none(had) << s)
}

// The mask without the block `s` where that has no pin left, and else as it is.
fn clear_last(m: u16, s: usize, left: u16) -> u16
    requires s_bound { s < 16 }
    requires s_value { 1 ≤ left → bit m s ≡ 1 }
    ensures { Masked m s (one (ltb 0 left)) result }
{
    m ^ (m & (one_if_none(left) << s))
}

// The net `e` has one pin less in the block `a`. Its mask changes only where that was the last one.
pub fn depart(counts: &mut [u16], visited: &mut [u16], e: usize, a: usize)
    requires e_in_bounds { 16 * e + 16 ≤ length counts.old }
    requires e_in_bounds_2 { e < length visited.old }
    requires a_bound { a ≤ 16 }
    requires bound { 1 ≤ a → 1 ≤ get_or counts.old (16 * e + (a - 1)) 0 }
    requires mask_shows { MaskShows e a counts.old visited.old }
    ensures { Step e a (get_or counts.old (16 * e + (a - 1)) 0 - 1) counts.old counts.new visited.old visited.new }
{
    if a == 0 {
        return;
    }
    let s = a - 1;
    let at = 16 * e + s;
    let left = counts[at] - 1;
    counts[at] = left;
    visited[e] = clear_last(visited[e], s, left);
}

// And one more in the block `b`. Its mask changes only where that is the first one.
pub fn arrive(counts: &mut [u16], visited: &mut [u16], e: usize, b: usize)
    requires e_in_bounds { 16 * e + 16 ≤ length counts.old }
    requires e_in_bounds_2 { e < length visited.old }
    requires b_bound { b ≤ 16 }
    requires b_bound_2 { 1 ≤ b → get_or counts.old (16 * e + (b - 1)) 0 < 65535 }
    requires mask_shows { MaskShows e b counts.old visited.old }
    ensures { Step e b (get_or counts.old (16 * e + (b - 1)) 0 + 1) counts.old counts.new visited.old visited.new }
{
    if b == 0 {
        return;
    }
    let s = b - 1;
    let at = 16 * e + s;
    let had = counts[at];
    counts[at] = had + 1;
    visited[e] = set_first(visited[e], s, had);
}
