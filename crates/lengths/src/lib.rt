// Is lent memory as long as document 01 asks, at an entry's limit of lots.
#![tactic(auto)]

ghost use Rattle.std.specs.Prelude.{◌≡◌};
ghost use Rattle.model.specs.Catalogue.{Limits};
ghost use Rattle.model.specs.Memory.{long_memory};
ghost use Rattle.model.specs.Lent.{lists, lent, memory};

// The output and all tables: those of the lots, the gains and the index go by the entry's limit of lots.
pub fn is_long(
    limit: u32,
    output: &[u8],
    weights: &[u32],
    blocks: &[u16],
    aboves: &[u16],
    fixed: &[u16],
    loadedpins: &[u16],
    presentpins: &[u16],
    firsts: &[u16],
    loadedsizes: &[u16],
    presentsizes: &[u16],
    counts: &[u16],
    gains: &[i32],
    index: &[u16],
    visited: &[u16],
) -> bool
    ensures { (limits : Limits) → limits.vertex_limit ≡ limit → result ≡ long_memory limits
        (memory output.now (lent (lists weights.now blocks.now aboves.now fixed.now loadedpins.now presentpins.now firsts.now loadedsizes.now presentsizes.now) counts.now gains.now index.now visited.now)) }
{
    let lots = limit as usize;
    if output.len() < 60000 {
        return false;
    }
    if weights.len() < lots {
        return false;
    }
    if blocks.len() < lots {
        return false;
    }
    if aboves.len() < lots {
        return false;
    }
    if fixed.len() < lots {
        return false;
    }
    if !stretches::are_long(loadedpins, presentpins, firsts, loadedsizes, presentsizes) {
        return false;
    }
    if counts.len() < 16384 {
        return false;
    }
    if gains.len() < 16 * lots {
        return false;
    }
    if index.len() < 16 * lots {
        return false;
    }
    1024 <= visited.len()
}
