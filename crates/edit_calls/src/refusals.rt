// The refusals of J, M and W, in their order.
ghost use Rattle.std.specs.Prelude.{◌+◌, ◌-◌, ◌<◌, ◌≤◌, ◌≡◌, ◌&&◌, leb, length};
ghost use Rattle.refusal.specs.Number.{refused_as};
ghost use Rattle.edit_calls.specs.Refusal.{known, here, room_in, refusal_j, refusal_m, refusal_w};

use incidence::is_pin;
use refusal::Refusal;

// Is `x` a number from 1 to `n`.
pub fn is_known(n: usize, x: usize) -> bool
    ensures { result ≡ known n x }
{
    (1..=n).contains(&x)
}

// Is the known vertex `u` on the board.
pub fn is_here(blocks: &[u16], u: usize) -> bool
    requires { (1 ≤ u) × (u ≤ length blocks.now) }
    ensures { result ≡ here blocks.now u }
{
    blocks[u - 1] != 0
}

// Is there room for `weight` beside `load` under `ceiling`. Their sum may pass 64 bits.
pub fn fits(load: u64, weight: u64, ceiling: u64) -> bool
    ensures { result ≡ leb (load + weight) ceiling }
{
    weight <= ceiling && load <= ceiling - weight
}

// Is there room for `u` in the block `t`.
fn has_room(loads: &[u64; 16], ceilings: &[u64; 16], weights: &[u32], u: usize, t: usize) -> bool
    requires { (1 ≤ u) × (u ≤ length weights.now) × (1 ≤ t) × (t ≤ 16) × (length loads.now ≡ 16) }
    ensures { result ≡ room_in loads.now ceilings.now weights.now u t }
{
    fits(loads[t - 1], u64::from(weights[u - 1]), ceilings[t - 1])
}

// Both are known.
fn both_known(n: usize, x: usize, k: usize, y: usize) -> bool
    ensures { result ≡ known n x && known k y }
{
    is_known(n, x) && is_known(k, y)
}

// Both are on the board.
fn both_here(blocks: &[u16], u: usize, v: usize) -> bool
    requires { (1 ≤ u) × (u ≤ length blocks.now) × (1 ≤ v) × (v ≤ length blocks.now) }
    ensures { result ≡ here blocks.now u && here blocks.now v }
{
    is_here(blocks, u) && is_here(blocks, v)
}

// J,u,v.
pub fn refuses_join(blocks: &[u16], n: usize, u: usize, v: usize) -> Result<(), Refusal>
    requires { n ≤ length blocks.now }
    ensures { refused_as result ≡ refusal_j blocks.now n u v }
{
    if !both_known(n, u, n, v) {
        return Err(Refusal::Unknown);
    }
    if u == v {
        return Err(Refusal::SameVertex);
    }
    if !both_here(blocks, u, v) {
        return Err(Refusal::OffTheBoard);
    }
    if blocks[u - 1] != blocks[v - 1] {
        return Err(Refusal::AcrossBlocks);
    }
    Ok(())
}

// M,u,t.
pub fn refuses_move(
    blocks: &[u16],
    loads: &[u64; 16],
    ceilings: &[u64; 16],
    fixedmarks: &[u64; 48],
    weights: &[u32],
    n: usize,
    k: usize,
    u: usize,
    t: usize,
) -> Result<(), Refusal>
    requires { (n ≤ length blocks.now) × (n ≤ length weights.now) × (k ≤ 16) × (length loads.now ≡ 16) × (length fixedmarks.now ≡ 48) × (n ≤ 1024) }
    ensures { refused_as result ≡ refusal_m blocks.now loads.now ceilings.now fixedmarks.now weights.now n k u t }
{
    if !both_known(n, u, k, t) {
        return Err(Refusal::Unknown);
    }
    if !is_here(blocks, u) {
        return Err(Refusal::OffTheBoard);
    }
    if blocks[u - 1] as usize == t {
        return Err(Refusal::OwnBlock);
    }
    let fixed = is_pin(fixedmarks, 1, u - 1);
    let room = has_room(loads, ceilings, weights, u, t);
    if fixed {
        return Err(Refusal::Fixed);
    }
    if !room {
        return Err(Refusal::AboveCap);
    }
    Ok(())
}

// W,u,v.
pub fn refuses_walk(blocks: &[u16], n: usize, u: usize, v: usize) -> Result<(), Refusal>
    requires { n ≤ length blocks.now }
    ensures { refused_as result ≡ refusal_w blocks.now n u v }
{
    if !both_known(n, u, n, v) {
        return Err(Refusal::Unknown);
    }
    if !both_here(blocks, u, v) {
        return Err(Refusal::OffTheBoard);
    }
    Ok(())
}
