// The records of a hall's columns, each with its place: four sets of 1,024 in a row. Rests on records.
ghost use Rattle.std.specs.Prelude.{◌<◌, ◌≡◌, get_or};
ghost use Rattle.laws.specs.Choice.{one};
ghost use Rattle.hall_records.specs.Gathered.{in_use};
ghost use Rattle.hall_records.specs.Entry.{Gathers};

use crate::answering::HallAnswer;
use records::Lot;

// 1 where a lot stands at a place, else 0.
fn used(counts: [usize; 4], k: usize) -> usize
    requires { k < 4096 }
    ensures { result ≡ one (in_use counts k) }
{
    let c = k / 1024;
    let i = k % 1024;
    if i < counts[c] {
        return 1;
    }
    0
}

// A lot's record.
fn lot_of(
    weights: &[u32; 1024],
    blocks: &[u16; 1024],
    aboves: &[u16; 1024],
    fixed: &[u16; 1024],
    i: usize,
) -> Lot
    requires { i < 1024 }
    ensures { result ≡ record { bales = get_or weights.now i 0; session = get_or blocks.now i 0; above = get_or aboves.now i 0; kept = get_or fixed.now i 0 } }
{
    Lot {
        bales: weights[i],
        session: blocks[i],
        above: aboves[i],
        kept: fixed[i],
    }
}

// The engine's answer with the records of all lots, set by set. Each place's record is put behind the last, and counts where a lot stands there.
pub fn gather(
    weights: &[[u32; 1024]; 4],
    blocks: &[[u16; 1024]; 4],
    aboves: &[[u16; 1024]; 4],
    fixed: &[[u16; 1024]; 4],
    counts: [usize; 4],
    code: u32,
    written: usize,
) -> HallAnswer
    ensures { Gathers counts weights.now blocks.now aboves.now fixed.now code written result }
{
    let blank = Lot {
        bales: 0,
        session: 0,
        above: 0,
        kept: 0,
    };
    let mut places = [0usize; 4096];
    let mut lots = [blank; 4096];
    let mut n: usize = 0;
    for k in 0..4096 {
        let c = k / 1024;
        let i = k % 1024;
        places[n] = k;
        lots[n] = lot_of(&weights[c], &blocks[c], &aboves[c], &fixed[c], i);
        n += used(counts, k);
    }
    HallAnswer {
        n,
        places,
        lots,
        code,
        written,
    }
}
