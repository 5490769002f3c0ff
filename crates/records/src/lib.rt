// The lots as records: document 01's lent slice of structs, over the four tables that the engine works on.
#![tactic(auto)]

ghost use Rattle.std.specs.Prelude.{◌≡◌, ◌≤◌, length};
ghost use Rattle.records.specs.Over.{over};
ghost use Rattle.records.specs.Fields.{bales_of, sessions_of, aboves_of, kept_of};

pub mod answering;
pub mod limits;

// A lot's record, as C has it.
#[repr(C)]
#[derive(Clone, Copy)]
pub struct Lot {
    pub bales: u32,
    pub session: u16,
    pub above: u16,
    pub kept: u16,
}

// The first n records of new go over the first n places of lots; the others keep what they held.
pub fn write(lots: &mut [Lot], n: usize, new: [Lot; 1024])
    requires { (n ≤ length lots.old) × (n ≤ 1024) }
    ensures { lots.new ≡ over n new lots.old }
{
    for i in 0..n {
        lots[i] = new[i];
    }
}

// The records of four tables.
fn gather(
    weights: [u32; 1024],
    blocks: [u16; 1024],
    aboves: [u16; 1024],
    fixed: [u16; 1024],
) -> [Lot; 1024]
    ensures { (bales_of result ≡ weights) × (sessions_of result ≡ blocks) × (aboves_of result ≡ aboves) × (kept_of result ≡ fixed) }
{
    let blank = Lot {
        bales: 0,
        session: 0,
        above: 0,
        kept: 0,
    };
    let mut lots = [blank; 1024];
    for i in 0..1024 {
        lots[i] = Lot {
            bales: weights[i],
            session: blocks[i],
            above: aboves[i],
            kept: fixed[i],
        };
    }
    lots
}
