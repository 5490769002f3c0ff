// The closing reports of a hall's catalogues, in turn: each table is lent as a slice of arrays, one array for each catalogue. Rests on report.
#![tactic(auto)]

ghost use Rattle.std.specs.Prelude.{◌<◌, ◌≤◌, List, [], length, get_or};
ghost use Rattle.model.specs.Catalogue.{Hypergraph};
ghost use Rattle.model.specs.Machine.{State};
ghost use Rattle.model.specs.Sale.{Sale};
ghost use Rattle.model.specs.Report.{closing};
ghost use Rattle.model.specs.Hall.{closings};
ghost use Rattle.fields.specs.Wrote.{Wrote};
ghost use Rattle.hall_closing.specs.Closings.{EndedIn, CanCloseSet, Close, CanCloseSets};

use call_list::course::Course;
use loader::Sizes;
use report::closing::put_closing;

// Writes the closing report of the set c, which has m buyers; says where it ends.
fn close_set(
    output: &mut [u8],
    at: usize,
    blocks: &[[u16; 1024]],
    aboves: &[[u16; 1024]],
    visited: &[[u16; 1024]],
    c: usize,
    course: Course,
    m: usize,
    draft: u32,
) -> usize
    requires { CanCloseSet (length output.old) at c blocks.now aboves.now visited.now course m draft }
    ensures { (h : Hypergraph) (s : State) → EndedIn h s c blocks.now aboves.now visited.now course m draft → Wrote output.old output.new at (closing draft h s) result }
{
    let stack = course.stack;
    let gone = stack.gone;
    let depth = stack.len;
    put_closing(
        output,
        at,
        &blocks[c],
        &aboves[c],
        &visited[c],
        &gone,
        course.n,
        m,
        depth,
        draft,
        course.total,
    )
}

// Writes the closing reports of the first `count` sets, one after another from place `at` on; says where they end.
pub fn close_sets(
    output: &mut [u8],
    at: usize,
    blocks: &[[u16; 1024]],
    aboves: &[[u16; 1024]],
    visited: &[[u16; 1024]],
    courses: [Course; 4],
    sizes: [Sizes; 4],
    drafts: [u32; 4],
    count: usize,
) -> usize
    requires { CanCloseSets (length output.old) at count blocks.now aboves.now visited.now courses sizes drafts }
    ensures { (hs : List Hypergraph) (ds : List Sale) → Close count hs ds blocks.now aboves.now visited.now courses sizes drafts → Wrote output.old output.new at (closings hs ds) result }
{
    let mut p = at;
    for c in 0..count {
        let course = courses[c];
        let z = sizes[c];
        let draft = drafts[c];
        p = close_set(
            output,
            p,
            blocks,
            aboves,
            visited,
            c,
            course,
            z.nets as usize,
            draft,
        );
    }
    p
}
