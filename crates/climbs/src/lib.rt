// A climb through a table of the vertices above: which vertex stands for another. Rests on model; its proofs on
// guarantees' Climbs.
#![tactic(auto)]

ghost use Rattle.std.specs.Prelude.{◌≡◌, List, ℕ, ◌≤◌};
ghost use Rattle.model.specs.Measure.{Contraction, climb};
ghost use Rattle.climbs.specs.Above.{Aboves, Climbable};

// The vertex that stands for `v`, by a climb of at most `steps` contractions.
pub fn representative(aboves: &[u16], v: usize, steps: usize) -> usize
    requires { Climbable aboves.now v }
    ensures { (cs : List Contraction) (n : ℕ) → Aboves cs n aboves.now → v ≤ n → result ≡ climb steps cs v }
{
    if steps == 0 {
        return v;
    }
    let above = usize::from(aboves[v - 1]);
    if above == 0 {
        return v;
    }
    representative(aboves, above, steps - 1)
}
