// The refusals of X and N, in their order.
ghost use Rattle.std.specs.Prelude.{◌+◌, ◌-◌, ◌≤◌, ◌<◌, ◌≡◌, ◌&&◌, ◌||◌, leb, ltb, length, get_or, replicate};
ghost use Rattle.laws.specs.Fold.{all};
ghost use Rattle.refusal.specs.Number.{refused_as};
ghost use Rattle.edit_calls.specs.Refusal.{known};
ghost use Rattle.change_rules.specs.Named.{Named};
ghost use Rattle.change_rules.specs.Refusal.{refusal_x, refusal_n};

use crate::naming::{all_known, mark_buyers};
use edit_calls::refusals::{fits, is_here, is_known};
use refusal::Refusal;

// X,v with `joins` contractions standing.
pub fn refuses_withdraw(blocks: &[u16], n: usize, joins: usize, v: usize) -> Result<(), Refusal>
    requires { n ≤ length blocks.now }
    ensures { refused_as result ≡ refusal_x blocks.now n joins v }
{
    if !is_known(n, v) {
        return Err(Refusal::Unknown);
    }
    if 0 < joins {
        return Err(Refusal::ContractionStands);
    }
    if !is_here(blocks, v) {
        return Err(Refusal::OffTheBoard);
    }
    Ok(())
}

// Are the bales and the session of a lot, and the buyers, such as a catalogue has.
fn knows(buyers: &[u32], m: usize, k: usize, bales: usize, session: usize) -> bool
    ensures { result ≡ ((known 65535 bales && known k session) && all buyers.now (known m)) }
{
    is_known(65535, bales) && is_known(k, session) && all_known(buyers, m)
}

// Are `lots` lots as many as there may be, or are `marks` marks with `more` of them too many.
fn is_full(lots: usize, lotroom: usize, marks: usize, more: usize, markroom: usize) -> bool
    ensures { result ≡ (leb lotroom lots || ltb markroom (marks + more)) }
{
    lotroom <= lots || markroom < marks || markroom - marks < more
}

// Is there room for that many bales in the session.
fn has_space(loads: &[u64; 16], ceilings: &[u64; 16], bales: usize, session: usize) -> bool
    requires { (1 ≤ session) × (session ≤ 16) × (length loads.now ≡ 16) × (length ceilings.now ≡ 16) }
    ensures { result ≡ leb (get_or loads.now (session - 1) 0 + bales) (get_or ceilings.now (session - 1) 0) }
{
    fits(loads[session - 1], bales as u64, ceilings[session - 1])
}

// N with these bales, session and buyers; and a 1 in `named` for each buyer, where it is not refused.
pub fn refuses_add(
    named: &mut [u16; 1024],
    loads: &[u64; 16],
    ceilings: &[u64; 16],
    buyers: &[u32],
    m: usize,
    k: usize,
    joins: usize,
    lots: usize,
    lotroom: usize,
    marks: usize,
    markroom: usize,
    bales: usize,
    session: usize,
) -> Result<(), Refusal>
    requires { (named.old ≡ replicate 1024 0) × (m ≤ 1024) × (k ≤ 16) × (length loads.now ≡ 16) × (length ceilings.now ≡ 16) }
    ensures { (refused_as result ≡ refusal_n loads.now ceilings.now buyers.now m k joins lots lotroom marks markroom bales session) × (refused_as result ≡ 0 → Named named.new buyers.now) }
{
    if !knows(buyers, m, k, bales, session) {
        return Err(Refusal::Unknown);
    }
    if 0 < joins {
        return Err(Refusal::ContractionStands);
    }
    if mark_buyers(named, buyers) {
        return Err(Refusal::NetNamedTwice);
    }
    if is_full(lots, lotroom, marks, buyers.len(), markroom) {
        return Err(Refusal::CatalogueFull);
    }
    if !has_space(loads, ceilings, bales, session) {
        return Err(Refusal::AboveCap);
    }
    Ok(())
}
