// Which candidates may have a pair better than the best one so far. Most have none, and most of a search's time goes into telling that: so
// four gains are tested at a time, or all 16, with no branch between them, and only a candidate that passes is weighed. Vertices and blocks count from 0,
// a vertex's own block from 1.
ghost use Rattle.std.specs.Prelude.{◌≡◌, false, ℕ, ◌+◌, ◌*◌, ◌≤◌, ◌<◌, length, get_or, pos};
ghost use Rattle.std.specs.Int.Signed.{lt_z};
ghost use Rattle.best_move.specs.Peak.{Peaked};
ghost use Rattle.best_move.specs.Rising.{Rooms, RoomFor, Least, NotBetter, PartOk, NextRising};

use incidence::next_bit;

// The room that a block of weight `load` has left under its ceiling, as far as 32 bits go.
fn room_of(load: u64, ceiling: u64) -> u32
    ensures { RoomFor load ceiling result }
{
    u64::min(ceiling.saturating_sub(load), 4294967295) as u32
}

// Sets the rooms of `k` blocks.
pub fn measure(rooms: &mut [u32; 16], loads: &[u64; 16], ceilings: &[u64; 16], k: usize)
    requires { (length rooms.old ≡ 16) × (k ≤ 16) }
    ensures { Rooms loads.now ceilings.now k rooms.new }
{
    for b in 0..k {
        rooms[b] = room_of(loads[b], ceilings[b]);
    }
}

// The lowest gain that is better than `top`.
pub fn least_better(top: i64) -> i32
    ensures { Least top result }
{
    if top < -2147483648 {
        return -2147483648;
    }
    if 2147483646 < top {
        return 2147483647;
    }
    (top + 1) as i32
}

// Whether the gain to block `b` is at least `low`, the block has room for the weight and is not the vertex's own.
fn may_rise(
    gains: &[i32],
    rooms: &[u32; 16],
    row: usize,
    b: usize,
    low: i32,
    weight: u32,
    own: u32,
) -> bool
    requires { (row + 16 ≤ length gains.now) × (b < 16) }
    ensures { result ≡ false → NotBetter gains.now rooms.now row low weight own b }
{
    let gain = gains[row + b];
    (low <= gain) & (weight <= rooms[b]) & (own != b as u32 + 1)
}

// The same of one of the four blocks from `b` on.
fn four_rise(
    gains: &[i32],
    rooms: &[u32; 16],
    row: usize,
    b: usize,
    low: i32,
    weight: u32,
    own: u32,
) -> bool
    requires { (row + 16 ≤ length gains.now) × (b < 13) }
    ensures { result ≡ false → (j : ℕ) → b ≤ j → j < b + 4 → NotBetter gains.now rooms.now row low weight own j }
{
    let first = may_rise(gains, rooms, row, b, low, weight, own)
        | may_rise(gains, rooms, row, b + 1, low, weight, own);
    let second = may_rise(gains, rooms, row, b + 2, low, weight, own)
        | may_rise(gains, rooms, row, b + 3, low, weight, own);
    first | second
}

// The same of one of all 16 blocks, with no branch between them: which of them is the first to pass can't be predicted. Places past the last
// block may pass too; then the row is opened for nothing.
fn any_rises(gains: &[i32], rooms: &[u32; 16], row: usize, low: i32, weight: u32, own: u32) -> bool
    requires { row + 16 ≤ length gains.now }
    ensures { result ≡ false → (j : ℕ) → j < 16 → NotBetter gains.now rooms.now row low weight own j }
{
    let first = four_rise(gains, rooms, row, 0, low, weight, own)
        | four_rise(gains, rooms, row, 4, low, weight, own);
    let second = four_rise(gains, rooms, row, 8, low, weight, own)
        | four_rise(gains, rooms, row, 12, low, weight, own);
    first | second
}

// The same of one of the `k` blocks, where `peak` is not below the gains to them. A long row whose peak is below `low` is not read: it is
// 64 bytes, the peak four.
fn rises(
    gains: &[i32],
    rooms: &[u32; 16],
    row: usize,
    k: usize,
    peak: i32,
    low: i32,
    weight: u32,
    own: u32,
) -> bool
    requires { (row + 16 ≤ length gains.now) × (k ≤ 16) × ((j : ℕ) → j < k → lt_z peak (get_or gains.now (row + j) (pos 0)) ≡ false) }
    ensures { result ≡ false → (j : ℕ) → j < k → NotBetter gains.now rooms.now row low weight own j }
{
    if k <= 4 {
        return four_rise(gains, rooms, row, 0, low, weight, own);
    }
    if peak < low {
        return false;
    }
    any_rises(gains, rooms, row, low, weight, own)
}

// The first set bit of `word` from bit `from` on, and below `size`, whose vertex may have a better pair. Bit j stands for the vertex `first + j`.
pub fn next_rising(
    gains: &[i32],
    blocks: &[u16],
    weights: &[u32],
    rooms: &[u32; 16],
    peaks: &[i32; 1040],
    word: u64,
    first: usize,
    from: usize,
    size: usize,
    k: usize,
    low: i32,
) -> Option<usize>
    requires part_ok { PartOk (length gains.now) (length blocks.now) (length weights.now) first size k × (from ≤ 64) }
    requires peaked { Peaked gains.now peaks.now (first + size) k }
    ensures { NextRising gains.now blocks.now weights.now rooms.now word first size k low from result }
{
    // No for: the place is the answer, and it goes from bit to bit.
    let mut j = next_bit(word, from);
    while j < size {
        let i = first + j;
        if rises(
            gains,
            rooms,
            16 * i,
            k,
            peaks[16 + i],
            low,
            weights[i],
            blocks[i] as u32,
        ) {
            return Some(j);
        }
        j = next_bit(word, j + 1);
    }
    None
}
