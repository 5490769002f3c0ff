// The halves of a gain over all nets, worked out from their counts: what the move of a vertex to a block frees, and what it newly draws in.
ghost use Rattle.levels.specs.Halves.{HalvesNeeds, HalvesFound};

use connectivity::halves::{Halves, net_halves, when_is};
use incidence::nets_of;

// The halves of the vertex `u`, which is on the board, to the block `t`.
pub fn halves(
    counts: &[u16],
    bits: &[u64],
    blocks: &[u16],
    netweights: &[u16],
    m: usize,
    u: usize,
    t: usize,
) -> Halves
    requires { HalvesNeeds counts.now bits.now blocks.now netweights.now m u t }
    ensures { HalvesFound counts.now bits.now blocks.now netweights.now m u t result.freed result.drawn }
{
    let from = usize::from(blocks[u]) - 1;
    let to = t - 1;
    let mut freed: u32 = 0;
    let mut drawn: u32 = 0;
    for e in nets_of(bits, u, m) {
        let w = netweights[e];
        let own = when_is(counts[16 * e + from], 1, w);
        let net = net_halves(counts, 16 * e + to, w, own);
        freed += net.freed;
        drawn += net.drawn;
    }
    Halves { freed, drawn }
}
