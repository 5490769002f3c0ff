// A net's pins handed out: as the part of either pin table that holds them, and, for a caller in C, as that part's first place and size.
// Rests on stretches.
ghost use Rattle.std.specs.Prelude.{◌≡◌, cond};
ghost use Rattle.model.specs.Memory.{part_of, handed_out};
ghost use Rattle.model.specs.Lent.{net_tables};

use stretches::{Stretch, part, stretch_of};

// The pins of net e as they stand where `present` is true, else as loaded.
pub fn pins_of<'a>(
    loadedpins: &'a [u16],
    presentpins: &'a [u16],
    firsts: &[u16],
    loadedsizes: &[u16],
    presentsizes: &[u16],
    present: bool,
    e: u32,
) -> &'a [u16]
    ensures { result.now ≡ part_of (cond present presentpins.now loadedpins.now) (handed_out
        (net_tables loadedpins.now presentpins.now firsts.now loadedsizes.now presentsizes.now)
        present e) }
{
    let stretch = stretch_of(
        loadedpins,
        presentpins,
        firsts,
        loadedsizes,
        presentsizes,
        present,
        e,
    );
    if present {
        return part(presentpins, stretch.first, stretch.size);
    }
    part(loadedpins, stretch.first, stretch.size)
}

// The stretch of the pin table that `pins_of` returns.
pub fn kapokdrill_pins(
    loadedpins: &[u16],
    presentpins: &[u16],
    firsts: &[u16],
    loadedsizes: &[u16],
    presentsizes: &[u16],
    present: bool,
    e: u32,
) -> Stretch
    ensures { (result.first ≡ (handed_out
        (net_tables loadedpins.now presentpins.now firsts.now loadedsizes.now presentsizes.now)
        present e).from) × (result.size ≡ (handed_out
        (net_tables loadedpins.now presentpins.now firsts.now loadedsizes.now presentsizes.now)
        present e).size) }
{
    stretch_of(
        loadedpins,
        presentpins,
        firsts,
        loadedsizes,
        presentsizes,
        present,
        e,
    )
}
