// What the hall's limit refuses: a B before it is done, and an M among those that are over one of the two limits.
ghost use Rattle.std.specs.Prelude.{◌+◌, ◌-◌, ◌≤◌, ◌≡◌, ◌&&◌, cond, leb, length, get_or};
ghost use Rattle.refusal.specs.Number.{number_of, refused_as};
ghost use Rattle.model.specs.Machine.{says_no};
ghost use Rattle.model.specs.Lent.{two};
ghost use Rattle.edit_calls.specs.Refusal.{known};
ghost use Rattle.beside.specs.Called.{BackReads, back_over, over_b, under_cap, relayed_m};

use edit_calls::refusals::{fits, is_known};
use operations::pairs::Journal;
use refusal::Refusal;

// Does the way back of the latest move pass what the limit leaves.
fn back_over(loads: &[u64; 16], weights: &[u32], rooms: &[u64; 16], journal: Journal) -> bool
    requires { BackReads loads.now weights.now rooms.now (two journal.vertices journal.blocks journal.len) }
    ensures { result ≡ back_over loads.now weights.now rooms.now (two journal.vertices journal.blocks journal.len) }
{
    let at = journal.len;
    if at == 0 {
        return false;
    }
    let v = usize::from(journal.vertices[at - 1]);
    let b = usize::from(journal.blocks[at - 1]);
    !fits(loads[b - 1], u64::from(weights[v - 1]), rooms[b - 1])
}

// A B that is above the hall's limit.
pub fn refuses_back(
    loads: &[u64; 16],
    weights: &[u32],
    rooms: &[u64; 16],
    journal: Journal,
    letter: u32,
) -> Result<(), Refusal>
    requires { BackReads loads.now weights.now rooms.now (two journal.vertices journal.blocks journal.len) }
    ensures { refused_as result ≡ cond (over_b letter loads.now weights.now rooms.now (two journal.vertices journal.blocks journal.len)) 25 0 }
{
    if letter == text::letters::B && back_over(loads, weights, rooms, journal) {
        return Err(Refusal::AboveHallLimit);
    }
    Ok(())
}

// Is there space for the vertex `u` in the block `t` under the cap.
fn under_cap(
    loads: &[u64; 16],
    weights: &[u32],
    cap: u64,
    n: usize,
    k: usize,
    u: usize,
    t: usize,
) -> bool
    requires { (n ≤ length weights.now) × (k ≤ 16) × (length loads.now ≡ 16) }
    ensures { result ≡ under_cap loads.now weights.now cap n k u t }
{
    is_known(n, u) && is_known(k, t) && fits(loads[t - 1], u64::from(weights[u - 1]), cap)
}

// The refusal of a call under both limits: an M that there is space for under the cap is refused by the hall's.
pub fn relay(
    loads: &[u64; 16],
    weights: &[u32],
    cap: u64,
    n: usize,
    k: usize,
    letter: u32,
    u: usize,
    t: usize,
    refusal: Refusal,
) -> Refusal
    requires { (n ≤ length weights.now) × (k ≤ 16) × (length loads.now ≡ 16) }
    ensures { says_no (number_of result) ≡ relayed_m letter (under_cap loads.now weights.now cap n k u t) (says_no (number_of refusal)) }
{
    match refusal {
        Refusal::AboveCap => {
            if letter == text::letters::M && under_cap(loads, weights, cap, n, k, u, t) {
                Refusal::AboveHallLimit
            } else {
                refusal
            }
        }
        _ => refusal,
    }
}
