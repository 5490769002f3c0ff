// The call N: a lot added.
ghost use Rattle.std.specs.Prelude.{ℕ, ◌≤◌, ◌≡◌, MatchResult, IfOk, IfErr};
ghost use Rattle.refusal.specs.Number.{number_of};
ghost use Rattle.model.specs.Catalogue.{Limits};
ghost use Rattle.model.specs.Machine.{says_n, says_no};
ghost use Rattle.model.specs.Sale.{Sale, call_n, turn_under};
ghost use Rattle.model.specs.Lent.{Two, two};
ghost use Rattle.index.specs.Indexed.{AllRight};
ghost use Rattle.operations.specs.Tables.{tables};
ghost use Rattle.changes.specs.Spared.{Spared};
ghost use Rattle.changes.specs.Stands.{stock, Turns};
ghost use Rattle.changes.specs.Adding.{CanPlace, Placing, AskN, CanAdd};

use crate::renewing::renew;
use crate::withdrawing::Rest;
use change_rules::free::Free;
use change_rules::lot::set_lot;
use change_rules::naming::total_with;
use change_rules::refusals::refuses_add;
use incidence::numbers::narrow;
use operations::pairs::Journal;
use refusal::Refusal;
use renewal::put_in;

// What N leaves of the free numbers, the record, how many lots are known, the number of marks and the metric, and its lot.
#[derive(Clone, Copy)]
pub struct AddTurn {
    pub free: Free,
    pub journal: Journal,
    pub n: usize,
    pub marks: usize,
    pub total: u32,
    pub lot: usize,
}

// The lot `v` put into all tables, when N is not refused; `n` lots are known with it.
fn place(
    counts: &mut [u16],
    visited: &mut [u16],
    gains: &mut [i32],
    index: &mut [u16],
    presentpins: &mut [u16],
    presentsizes: &mut [u16],
    bits: &mut [u64],
    blocks: &mut [u16],
    weights: &mut [u32],
    aboves: &mut [u16],
    fixed: &mut [u16],
    loads: &mut [u64; 16],
    loadedpins: &mut [u16],
    firsts: &mut [u16],
    loadedsizes: &mut [u16],
    netweights: &[u16],
    named: &[u16; 1024],
    n: usize,
    m: usize,
    k: usize,
    v: usize,
    bales: u32,
    session: usize,
) -> Rest
    requires { CanPlace
        (λ known total. tables counts.old visited.old gains.old presentpins.old presentsizes.old bits.old blocks.old weights.old aboves.old loads.old netweights.now firsts.old loadedsizes.old known m k total)
        fixed.old index.old loadedpins.old named.now n v bales session }
    ensures { Placing
        (tables counts.old visited.old gains.old presentpins.old presentsizes.old bits.old blocks.old weights.old aboves.old loads.old netweights.now firsts.old loadedsizes.old n m k 0)
        (tables counts.new visited.new gains.new presentpins.new presentsizes.new bits.new blocks.new weights.new aboves.new loads.new netweights.now firsts.new loadedsizes.new n m k result.total)
        fixed.old fixed.new index.old index.new loadedpins.old loadedpins.new named.now result.marks v bales session }
{
    let seat = narrow(session);
    set_lot(weights, blocks, aboves, fixed, v - 1, bales, seat);
    let marks = total_with(loadedsizes, named, m);
    put_in(loadedpins, firsts, loadedsizes, named, m, marks, narrow(v));
    let total = renew(
        counts,
        visited,
        gains,
        index,
        bits,
        loads,
        presentpins,
        presentsizes,
        loadedpins,
        loadedsizes,
        blocks,
        firsts,
        weights,
        netweights,
        n,
        m,
        k,
        marks,
    );
    Rest { marks, total }
}

// N,bales,session,buyers, with `joins` contractions on the stack, where there may be `lotroom` lots and `markroom` marks.
pub fn call_add(
    counts: &mut [u16],
    visited: &mut [u16],
    gains: &mut [i32],
    index: &mut [u16],
    presentpins: &mut [u16],
    presentsizes: &mut [u16],
    bits: &mut [u64],
    blocks: &mut [u16],
    weights: &mut [u32],
    aboves: &mut [u16],
    fixed: &mut [u16],
    loads: &mut [u64; 16],
    loadedpins: &mut [u16],
    firsts: &mut [u16],
    loadedsizes: &mut [u16],
    netweights: &[u16],
    ceilings: &[u64; 16],
    buyers: &[u32],
    n: usize,
    m: usize,
    k: usize,
    total: u32,
    marks: usize,
    joins: usize,
    lotroom: usize,
    markroom: usize,
    free: Free,
    journal: Journal,
    bales: u32,
    session: usize,
) -> Result<AddTurn, Refusal>
    requires { CanAdd joins ceilings.now buyers.now lotroom markroom (stock
        (tables counts.old visited.old gains.old presentpins.old presentsizes.old bits.old blocks.old weights.old aboves.old loads.old netweights.now firsts.old loadedsizes.old n m k total)
        fixed.old index.old loadedpins.old free.numbers free.len marks (two journal.vertices journal.blocks journal.len)) }
    ensures turns { (limits : Limits) (a : Sale) (S : Two) (ceiling : ℕ → ℕ) → AskN limits a S ceiling joins ceilings.now buyers.now lotroom markroom (stock (tables counts.old visited.old gains.old presentpins.old presentsizes.old bits.old blocks.old weights.old aboves.old loads.old netweights.now firsts.old loadedsizes.old n m k total) fixed.old index.old loadedpins.old free.numbers free.len marks (two journal.vertices journal.blocks journal.len)) → MatchResult result
        (λ t. Turns limits (turn_under (record { lots = lotroom; marks = markroom }) ceiling a (call_n bales session buyers.now)) S (stock (tables counts.new visited.new gains.new presentpins.new presentsizes.new bits.new blocks.new weights.new aboves.new loads.new netweights.now firsts.new loadedsizes.new t.n m k t.total) fixed.new index.new loadedpins.new t.free.numbers t.free.len t.marks (two t.journal.vertices t.journal.blocks t.journal.len)) (says_n t.lot t.total))
        (λ e. Turns limits (turn_under (record { lots = lotroom; marks = markroom }) ceiling a (call_n bales session buyers.now)) S (stock (tables counts.new visited.new gains.new presentpins.new presentsizes.new bits.new blocks.new weights.new aboves.new loads.new netweights.now firsts.new loadedsizes.new n m k total) fixed.new index.new loadedpins.new free.numbers free.len marks (two journal.vertices journal.blocks journal.len)) (says_no (number_of e))) }
    ensures len_after { IfErr result (λ _. stock (tables counts.new visited.new gains.new presentpins.new presentsizes.new bits.new blocks.new weights.new aboves.new loads.new netweights.now firsts.new loadedsizes.new n m k total) fixed.new index.new loadedpins.new free.numbers free.len marks (two journal.vertices journal.blocks journal.len) ≡ stock (tables counts.old visited.old gains.old presentpins.old presentsizes.old bits.old blocks.old weights.old aboves.old loads.old netweights.now firsts.old loadedsizes.old n m k total) fixed.old index.old loadedpins.old free.numbers free.len marks (two journal.vertices journal.blocks journal.len)) }
    ensures all_right { AllRight gains.old blocks.old n k index.old → MatchResult result (λ t. AllRight gains.new blocks.new t.n k index.new) (λ _. AllRight gains.new blocks.new n k index.new) }
    ensures spared { IfOk result (λ t. Spared t.marks (tables counts.old visited.old gains.old presentpins.old presentsizes.old bits.old blocks.old weights.old aboves.old loads.old netweights.now firsts.old loadedsizes.old n m k total) (tables counts.new visited.new gains.new presentpins.new presentsizes.new bits.new blocks.new weights.new aboves.new loads.new netweights.now firsts.new loadedsizes.new t.n m k t.total) fixed.old fixed.new index.old index.new loadedpins.old loadedpins.new) }
{
    let mut named = [0u16; 1024];
    let len = free.len;
    refuses_add(
        &mut named,
        loads,
        ceilings,
        buyers,
        m,
        k,
        joins,
        n - len,
        lotroom,
        marks,
        markroom,
        bales as usize,
        session,
    )?;
    let v = free.next(n);
    let known = n.max(v);
    let rest = place(
        counts,
        visited,
        gains,
        index,
        presentpins,
        presentsizes,
        bits,
        blocks,
        weights,
        aboves,
        fixed,
        loads,
        loadedpins,
        firsts,
        loadedsizes,
        netweights,
        &named,
        known,
        m,
        k,
        v,
        bales,
        session,
    );
    let left = free.pop();
    let cleared = journal.clear();
    Ok(AddTurn {
        free: left,
        journal: cleared,
        n: known,
        marks: rest.marks,
        total: rest.total,
        lot: v,
    })
}
