// A sale file in memory that is long enough: it is loaded, and worked to its end or turned down.
#![tactic(auto)]

ghost use Rattle.std.specs.Prelude.{◌≡◌};
ghost use Rattle.model.specs.Grammar.{parse};
ghost use Rattle.model.specs.Memory.{Worked};
ghost use Rattle.model.specs.Lent.{lists, lent, memory};
ghost use Rattle.lines.specs.Line.{limits_of};
ghost use Rattle.sale.specs.Files.{lots_known, Long};

use lines::Limits;
use sale::closing::{refuse, report_sale};

// 0 or the number of the refusal, 1 to 8 or 21, the bytes written, and how many lots are known at the end: 0 where no file was accepted. C has 0
// where nothing is refused.
#[derive(Clone, Copy)]
pub struct Served {
    pub code: u32,
    pub written: usize,
    pub lots: usize,
}

// The file, in memory that is long enough for an entry of these limits.
pub fn work_file(
    file: &[u8],
    limits: Limits,
    output: &mut [u8],
    weights: &mut [u32],
    blocks: &mut [u16],
    aboves: &mut [u16],
    fixed: &mut [u16],
    loadedpins: &mut [u16],
    presentpins: &mut [u16],
    firsts: &mut [u16],
    loadedsizes: &mut [u16],
    presentsizes: &mut [u16],
    counts: &mut [u16],
    gains: &mut [i32],
    index: &mut [u16],
    visited: &mut [u16],
) -> Served
    requires { Long (limits_of limits) output.old
        (lists weights.old blocks.old aboves.old fixed.old loadedpins.old presentpins.old firsts.old loadedsizes.old presentsizes.old)
        counts.old gains.old index.old visited.old }
    ensures { Worked (limits_of limits) (parse (limits_of limits) file.now)
        (memory output.old (lent (lists weights.old blocks.old aboves.old fixed.old loadedpins.old presentpins.old firsts.old loadedsizes.old presentsizes.old) counts.old gains.old index.old visited.old))
        (memory output.new (lent (lists weights.new blocks.new aboves.new fixed.new loadedpins.new presentpins.new firsts.new loadedsizes.new presentsizes.new) counts.new gains.new index.new visited.new))
        result.code result.written × (result.lots ≡ lots_known (limits_of limits) (parse (limits_of limits) file.now)) }
{
    let mut netweights = [0u16; 1024];
    let mut lows = [0u32; 1024];
    let mut calls = [0u32; 1536];
    let mut operands = [0u32; 30000];
    let loaded = loader::load(
        file,
        limits,
        weights,
        blocks,
        aboves,
        fixed,
        loadedpins,
        presentpins,
        firsts,
        loadedsizes,
        presentsizes,
        &mut netweights,
        &mut lows,
        &mut calls,
        &mut operands,
    );
    match loaded {
        Err(q) => {
            let code = q.refusal.number();
            Served {
                code,
                written: refuse(output, code, q.line),
                lots: 0,
            }
        }
        Ok(sale) => {
            let end = report_sale(
                output,
                weights,
                blocks,
                aboves,
                fixed,
                loadedpins,
                presentpins,
                firsts,
                loadedsizes,
                presentsizes,
                counts,
                gains,
                index,
                visited,
                &netweights,
                &calls,
                &operands,
                sale.calls,
                limits.lots,
                sale.sizes,
            );
            Served {
                code: 0,
                written: end.at,
                lots: end.n,
            }
        }
    }
}
