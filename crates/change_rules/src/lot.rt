// The columns of one lot.
ghost use Rattle.std.specs.Prelude.{◌<◌, length};
ghost use Rattle.change_rules.specs.Lot.{LotSet};

// The lot at the place `at`: its bales and its session, under no other lot and not kept.
pub fn set_lot(
    weights: &mut [u32],
    blocks: &mut [u16],
    aboves: &mut [u16],
    fixed: &mut [u16],
    at: usize,
    bales: u32,
    session: u16,
)
    requires { (at < length weights.old) × (at < length blocks.old) × (at < length aboves.old) × (at < length fixed.old) × (at < 1024) }
    ensures { LotSet at bales session weights.old weights.new blocks.old blocks.new aboves.old aboves.new fixed.old fixed.new }
{
    weights[at] = bales;
    blocks[at] = session;
    aboves[at] = 0;
    fixed[at] = 0;
}
