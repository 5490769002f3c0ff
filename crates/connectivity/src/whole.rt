// The pins of a net that has none yet, all at once: they are counted first, and then the net's shares are added to the gains of each, once.
// `set_pin` for each pin would change the gains of the pins before it each time.
ghost use Rattle.std.specs.Prelude.{false};
ghost use Rattle.connectivity.specs.Row.{row};
ghost use Rattle.connectivity.specs.Laid.{Laid, given};
ghost use Rattle.connectivity.specs.Whole.{CountsPins, CountedPins, SharesPins, FillsPins, FilledPins};

use crate::counts::set_first;
use crate::shares::share_row;

// Counts the `p` pins from `first` in the net `e`, each in its block. The net's mask stays in hand, and is stored once.
fn count_pins(
    counts: &mut [u16],
    visited: &mut [u16],
    pins: &[u16],
    blocks: &[u16],
    n: usize,
    m: usize,
    k: usize,
    first: usize,
    p: usize,
    e: usize,
)
    requires { CountsPins counts.old visited.old pins.now blocks.now n m k first p e }
    ensures { CountedPins pins.now blocks.now n m k first p e counts.old counts.new visited.old visited.new }
{
    let mut mask = visited[e];
    for i in 0..p {
        let x = usize::from(pins[first + i]) - 1;
        let s = usize::from(blocks[x]) - 1;
        let at = 16 * e + s;
        let had = counts[at];
        counts[at] = had + 1;
        mask = set_first(mask, s, had);
    }
    visited[e] = mask;
}

// Adds the shares of the net `e`, of weight `w`, to the gains of the `p` pins from `first`.
fn share_pins(
    gains: &mut [i32],
    counts: &[u16],
    pins: &[u16],
    blocks: &[u16],
    n: usize,
    k: usize,
    first: usize,
    p: usize,
    e: usize,
    w: u16,
)
    requires { SharesPins gains.old counts.now pins.now blocks.now n k first p e w }
    ensures { Laid (given false counts.now e w) (row pins.now blocks.now first p) k gains.old gains.new }
{
    for i in 0..p {
        let x = usize::from(pins[first + i]) - 1;
        let b = usize::from(blocks[x]);
        share_row(gains, counts, x, e, b - 1, k, w, false);
    }
}

// The net `e`, which has no pin yet, counts the `p` pins from `first`, each in its block.
pub fn fill_pins(
    counts: &mut [u16],
    visited: &mut [u16],
    gains: &mut [i32],
    netweights: &[u16],
    pins: &[u16],
    blocks: &[u16],
    n: usize,
    m: usize,
    k: usize,
    first: usize,
    p: usize,
    e: usize,
)
    requires { FillsPins netweights.now counts.old visited.old pins.now blocks.now gains.old n m k first p e }
    ensures { FilledPins netweights.now pins.now blocks.now n m k first p e counts.old counts.new visited.old visited.new gains.old gains.new }
{
    let w = netweights[e];
    count_pins(counts, visited, pins, blocks, n, m, k, first, p, e);
    share_pins(gains, counts, pins, blocks, n, k, first, p, e, w);
}
