// The buyers that N names.
ghost use Rattle.std.specs.Prelude.{ℕ, ◌≤◌, ◌<◌, ◌≡◌, false, length, get_or, replicate};
ghost use Rattle.laws.specs.Fold.{all};
ghost use Rattle.model.specs.Sale.{named_twice};
ghost use Rattle.edit_calls.specs.Refusal.{known};
ghost use Rattle.renewal.specs.Putting.{total_with};
ghost use Rattle.change_rules.specs.Named.{Named};

use edit_calls::refusals::is_known;

// Is each a number from 1 to `m`.
pub fn all_known(buyers: &[u32], m: usize) -> bool
    ensures { result ≡ all buyers.now (known m) }
{
    buyers.iter().all(|buyer| is_known(m, *buyer as usize))
}

// Puts a 1 for each into a table of zeros, up to the first that is named twice; is there one.
pub fn mark_buyers(named: &mut [u16; 1024], buyers: &[u32]) -> bool
    requires { (named.old ≡ replicate 1024 0) × ((i : ℕ) → i < length buyers.now → (1 ≤ get_or buyers.now i 0) × (get_or buyers.now i 0 ≤ 1024)) }
    ensures { (result ≡ named_twice buyers.now) × (result ≡ false → Named named.new buyers.now) }
{
    for buyer in buyers {
        let at = (*buyer as usize) - 1;
        if named[at] == 1 {
            return true;
        }
        named[at] = 1;
    }
    false
}

// How many marks `m` buyers have with one more for each that is named.
pub fn total_with(loadedsizes: &[u16], named: &[u16; 1024], m: usize) -> usize
    requires { (m ≤ 1024) × (m ≤ length loadedsizes.now) × (length named.now ≡ 1024) }
    ensures { result ≡ total_with named.now loadedsizes.now m }
{
    let mut t: usize = 0;
    for e in 0..m {
        t += usize::from(loadedsizes[e]) + usize::from(named[e]);
    }
    t
}
