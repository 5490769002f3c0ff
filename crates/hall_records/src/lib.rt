// A hall's lots as records: four sets of 1,024 in a row, over the columns that the engine works on. Rests on records.
#![tactic(auto)]

ghost use Rattle.std.specs.Prelude.{◌≡◌, ℕ, ◌≤◌, ◌<◌, length, get_or};
ghost use Rattle.hall_records.specs.Placed.{placed};

use records::Lot;

pub mod answering;
pub mod gathering;

// The first n records of new go each to its place of lots; the others keep what they held.
pub fn write_at(lots: &mut [Lot], n: usize, places: [usize; 4096], new: [Lot; 4096])
    requires { (n ≤ 4096) × ((i : ℕ) → i < n → get_or places i 0 < length lots.old) }
    ensures { lots.new ≡ placed n places new lots.old }
{
    for i in 0..n {
        let p = places[i];
        lots[p] = new[i];
    }
}
