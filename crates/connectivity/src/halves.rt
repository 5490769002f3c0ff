// A gain in its two halves: what a move frees and what it newly draws in. Whatever works a gain out from counts works these two out, and takes
// their difference.
ghost use Rattle.std.specs.Prelude.{◌^◌, ◌<◌, ◌≡◌, length, get_or, pos, ◌-ℤ◌};
ghost use Rattle.connectivity.specs.Share.{when};

// The weights of the nets that a move takes out of the vertex's own block, and of those that it brings into the target.
#[derive(Clone, Copy)]
pub struct Halves {
    pub freed: u32,
    pub drawn: u32,
}

impl Halves {
    // The gain.
    pub fn difference(self) -> i32
        requires { (self.freed < 2 ^ 31) × (self.drawn < 2 ^ 31) }
        ensures { result ≡ pos self.freed -ℤ pos self.drawn }
    {
        self.freed as i32 - self.drawn as i32
    }
}

// The weight `w` if `n` is `want`, else 0.
pub fn when_is(n: u16, want: u16, w: u16) -> u16
    ensures { result ≡ when n want w }
{
    if n == want { w } else { 0 }
}

// The weight `w` if the count `n` is 0, else 0. By arithmetic, since a test becomes a branch where the blocks are few, and a processor can't
// predict which counts are 0.
fn when_none(n: u16, w: u16) -> u16
    ensures { result ≡ when n 0 w }
{
    let count = n as u32;
    let weight = w as u32;
    let none = (65536 - count) / 65536;
    let given = none * weight;
    given as u16
}

// The halves of one net of weight `w`, whose count in the target block is at the place `to`. What leaving the own block frees is the same for
// all targets, and given.
pub fn net_halves(counts: &[u16], to: usize, w: u16, freed: u16) -> Halves
    requires { to < length counts.now }
    ensures { (result.freed ≡ freed) × (result.drawn ≡ when (get_or counts.now to 0) 0 w) }
{
    let drawn = when_none(counts[to], w);
    Halves {
        freed: freed as u32,
        drawn: drawn as u32,
    }
}
