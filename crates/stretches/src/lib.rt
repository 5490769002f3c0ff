// The stretch of a pin table that hands out a net's pins, for any number and for tables of any length. Rests on model's `handed_out`.
#![tactic(auto)]

ghost use Rattle.std.specs.Prelude.{◌+◌, ◌≤◌, ◌≡◌, length, take, drop};
ghost use Rattle.model.specs.Memory.{long_lists, handed_out};
ghost use Rattle.model.specs.Lent.{net_tables};
ghost use Rattle.stretches.specs.Stretch.{Backed, part_in};

// A stretch of a table: its first place, from 0, and how many places it has.
#[repr(C)]
#[derive(Clone, Copy)]
pub struct Stretch {
    pub first: usize,
    pub size: usize,
}

// The nets' tables and both pin tables have their lengths.
pub fn are_long(
    loadedpins: &[u16],
    presentpins: &[u16],
    firsts: &[u16],
    loadedsizes: &[u16],
    presentsizes: &[u16],
) -> bool
    ensures { result ≡ long_lists (net_tables loadedpins.now presentpins.now firsts.now loadedsizes.now presentsizes.now) }
{
    if loadedpins.len() < 8192 {
        return false;
    }
    if presentpins.len() < 8192 {
        return false;
    }
    if firsts.len() < 1024 {
        return false;
    }
    if loadedsizes.len() < 1024 {
        return false;
    }
    1024 <= presentsizes.len()
}

// The stretch of one pin table that holds the pins of net e, or the empty one at its start; `long` says whether the tables are long enough.
fn stretch_in(table: &[u16], firsts: &[u16], sizes: &[u16], long: bool, e: u32) -> Stretch
    requires { Backed long firsts.now sizes.now }
    ensures { (result.first ≡ (part_in table.now firsts.now sizes.now long e).from)
        × (result.size ≡ (part_in table.now firsts.now sizes.now long e).size) }
{
    if !long {
        return Stretch { first: 0, size: 0 };
    }
    if e < 1 {
        return Stretch { first: 0, size: 0 };
    }
    if 1024 < e {
        return Stretch { first: 0, size: 0 };
    }
    let x = (e - 1) as usize;
    let first = firsts[x] as usize;
    let size = sizes[x] as usize;
    if table.len() < first + size {
        return Stretch { first: 0, size: 0 };
    }
    Stretch { first, size }
}

// The stretch of net e's present pins where `present` is true, else of its loaded pins: the empty one at the table's start for a number that
// no net has, for a short table and for a stretch that reaches past its table.
pub fn stretch_of(
    loadedpins: &[u16],
    presentpins: &[u16],
    firsts: &[u16],
    loadedsizes: &[u16],
    presentsizes: &[u16],
    present: bool,
    e: u32,
) -> Stretch
    ensures { (result.first ≡ (handed_out
        (net_tables loadedpins.now presentpins.now firsts.now loadedsizes.now presentsizes.now)
        present e).from) × (result.size ≡ (handed_out
        (net_tables loadedpins.now presentpins.now firsts.now loadedsizes.now presentsizes.now)
        present e).size) }
{
    let long = are_long(loadedpins, presentpins, firsts, loadedsizes, presentsizes);
    if present {
        return stretch_in(presentpins, firsts, presentsizes, long, e);
    }
    stretch_in(loadedpins, firsts, loadedsizes, long, e)
}

// The part of a table that a stretch of it is.
pub fn part<'a>(table: &'a [u16], first: usize, size: usize) -> &'a [u16]
    requires { first + size ≤ length table.now }
    ensures { result.now ≡ take size (drop first table.now) }
{
    let end = first + size;
    &table[first..end]
}
