// The call X: a lot and its marks withdrawn.
ghost use Rattle.std.specs.Prelude.{ℕ, ◌≤◌, ◌<◌, ◌≡◌, length, MatchResult, IfOk, IfErr};
ghost use Rattle.refusal.specs.Number.{number_of};
ghost use Rattle.model.specs.Catalogue.{Limits};
ghost use Rattle.model.specs.Machine.{says_x, says_no};
ghost use Rattle.model.specs.Sale.{Sale, Space, call_x, turn_under};
ghost use Rattle.model.specs.Lent.{Two, two};
ghost use Rattle.index.specs.Indexed.{AllRight};
ghost use Rattle.operations.specs.Tables.{tables};
ghost use Rattle.changes.specs.Spared.{Spared};
ghost use Rattle.changes.specs.Stands.{stock, Stands, CanChange, Turns};
ghost use Rattle.changes.specs.Turning.{CanTake, Taken};

use crate::renewing::renew;
use change_rules::free::Free;
use change_rules::lot::set_lot;
use change_rules::refusals::refuses_withdraw;
use incidence::numbers::narrow;
use operations::pairs::Journal;
use refusal::Refusal;
use renewal::take_out;

// How many marks are left, and the metric.
#[derive(Clone, Copy)]
pub struct Rest {
    pub marks: usize,
    pub total: u32,
}

// What X leaves of the free numbers, the record, the number of marks and the metric.
#[derive(Clone, Copy)]
pub struct WithdrawTurn {
    pub free: Free,
    pub journal: Journal,
    pub marks: usize,
    pub total: u32,
}

// The lot `v` taken out of all tables, when X is not refused.
fn withdraw(
    counts: &mut [u16],
    visited: &mut [u16],
    gains: &mut [i32],
    index: &mut [u16],
    presentpins: &mut [u16],
    presentsizes: &mut [u16],
    bits: &mut [u64],
    blocks: &mut [u16],
    weights: &mut [u32],
    aboves: &mut [u16],
    fixed: &mut [u16],
    loads: &mut [u64; 16],
    loadedpins: &mut [u16],
    firsts: &mut [u16],
    loadedsizes: &mut [u16],
    netweights: &[u16],
    n: usize,
    m: usize,
    k: usize,
    v: usize,
) -> Rest
    requires { CanTake
        (λ total. tables counts.old visited.old gains.old presentpins.old presentsizes.old bits.old blocks.old weights.old aboves.old loads.old netweights.now firsts.old loadedsizes.old n m k total)
        fixed.old index.old loadedpins.old v }
    ensures { Taken
        (λ total. tables counts.old visited.old gains.old presentpins.old presentsizes.old bits.old blocks.old weights.old aboves.old loads.old netweights.now firsts.old loadedsizes.old n m k total)
        (tables counts.new visited.new gains.new presentpins.new presentsizes.new bits.new blocks.new weights.new aboves.new loads.new netweights.now firsts.new loadedsizes.new n m k result.total)
        fixed.old fixed.new index.old index.new loadedpins.old loadedpins.new result.marks v }
{
    set_lot(weights, blocks, aboves, fixed, v - 1, 0, 0);
    let marks = take_out(loadedpins, firsts, loadedsizes, m, narrow(v));
    let total = renew(
        counts,
        visited,
        gains,
        index,
        bits,
        loads,
        presentpins,
        presentsizes,
        loadedpins,
        loadedsizes,
        blocks,
        firsts,
        weights,
        netweights,
        n,
        m,
        k,
        marks,
    );
    Rest { marks, total }
}

// X,v, with `joins` contractions on the stack.
pub fn call_withdraw(
    counts: &mut [u16],
    visited: &mut [u16],
    gains: &mut [i32],
    index: &mut [u16],
    presentpins: &mut [u16],
    presentsizes: &mut [u16],
    bits: &mut [u64],
    blocks: &mut [u16],
    weights: &mut [u32],
    aboves: &mut [u16],
    fixed: &mut [u16],
    loads: &mut [u64; 16],
    loadedpins: &mut [u16],
    firsts: &mut [u16],
    loadedsizes: &mut [u16],
    netweights: &[u16],
    n: usize,
    m: usize,
    k: usize,
    total: u32,
    marks: usize,
    joins: usize,
    free: Free,
    journal: Journal,
    v: usize,
) -> Result<WithdrawTurn, Refusal>
    requires { CanChange joins (stock
        (tables counts.old visited.old gains.old presentpins.old presentsizes.old bits.old blocks.old weights.old aboves.old loads.old netweights.now firsts.old loadedsizes.old n m k total)
        fixed.old index.old loadedpins.old free.numbers free.len marks (two journal.vertices journal.blocks journal.len)) }
    ensures turns { (limits : Limits) (a : Sale) (S : Two) (space : Space) (ceiling : ℕ → ℕ) → joins ≡ S.len → Stands limits a S (stock (tables counts.old visited.old gains.old presentpins.old presentsizes.old bits.old blocks.old weights.old aboves.old loads.old netweights.now firsts.old loadedsizes.old n m k total) fixed.old index.old loadedpins.old free.numbers free.len marks (two journal.vertices journal.blocks journal.len)) → MatchResult result
        (λ t. Turns limits (turn_under space ceiling a (call_x v)) S (stock (tables counts.new visited.new gains.new presentpins.new presentsizes.new bits.new blocks.new weights.new aboves.new loads.new netweights.now firsts.new loadedsizes.new n m k t.total) fixed.new index.new loadedpins.new t.free.numbers t.free.len t.marks (two t.journal.vertices t.journal.blocks t.journal.len)) (says_x t.total))
        (λ e. Turns limits (turn_under space ceiling a (call_x v)) S (stock (tables counts.new visited.new gains.new presentpins.new presentsizes.new bits.new blocks.new weights.new aboves.new loads.new netweights.now firsts.new loadedsizes.new n m k total) fixed.new index.new loadedpins.new free.numbers free.len marks (two journal.vertices journal.blocks journal.len)) (says_no (number_of e))) }
    ensures len_after { IfErr result (λ _. stock (tables counts.new visited.new gains.new presentpins.new presentsizes.new bits.new blocks.new weights.new aboves.new loads.new netweights.now firsts.new loadedsizes.new n m k total) fixed.new index.new loadedpins.new free.numbers free.len marks (two journal.vertices journal.blocks journal.len) ≡ stock (tables counts.old visited.old gains.old presentpins.old presentsizes.old bits.old blocks.old weights.old aboves.old loads.old netweights.now firsts.old loadedsizes.old n m k total) fixed.old index.old loadedpins.old free.numbers free.len marks (two journal.vertices journal.blocks journal.len)) }
    ensures all_right { AllRight gains.old blocks.old n k index.old → AllRight gains.new blocks.new n k index.new }
    ensures spared { IfOk result (λ t. Spared t.marks (tables counts.old visited.old gains.old presentpins.old presentsizes.old bits.old blocks.old weights.old aboves.old loads.old netweights.now firsts.old loadedsizes.old n m k total) (tables counts.new visited.new gains.new presentpins.new presentsizes.new bits.new blocks.new weights.new aboves.new loads.new netweights.now firsts.new loadedsizes.new n m k t.total) fixed.old fixed.new index.old index.new loadedpins.old loadedpins.new) }
{
    refuses_withdraw(blocks, n, joins, v)?;
    let freed = free.push(narrow(v));
    let cleared = journal.clear();
    let rest = withdraw(
        counts,
        visited,
        gains,
        index,
        presentpins,
        presentsizes,
        bits,
        blocks,
        weights,
        aboves,
        fixed,
        loads,
        loadedpins,
        firsts,
        loadedsizes,
        netweights,
        n,
        m,
        k,
        v,
    );
    Ok(WithdrawTurn {
        free: freed,
        journal: cleared,
        marks: rest.marks,
        total: rest.total,
    })
}
