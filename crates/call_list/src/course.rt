// Where a list of calls stands, and what no call of it changes.
ghost use Rattle.std.specs.Prelude.{◌≤◌, ◌≡◌, length};
ghost use Rattle.call_list.specs.Start.{Starts};

use change_rules::free::Free;
use fixed::starting::mark_fixed;
use operations::pairs::{Journal, Stack};

// Between two calls: the contraction stack, the journal, the numbers withdrawn and still free, who is fixed, how many vertices are known and how many
// pins there are, the metric, and where the output's text ends.
#[derive(Clone, Copy)]
pub struct Course {
    pub stack: Stack,
    pub journal: Journal,
    pub free: Free,
    pub fixedmarks: [u64; 48],
    pub n: usize,
    pub marks: usize,
    pub total: u32,
    pub at: usize,
}

// How many nets and blocks there are, ⌈W/k⌉, and how many vertices there may be.
#[derive(Clone, Copy)]
pub struct Frame {
    pub m: usize,
    pub k: usize,
    pub average: u64,
    pub lots: usize,
}

// Before the first call: `n` vertices, `marks` pins, the draft's metric.
pub fn begin(fixed: &[u16], n: usize, marks: usize, total: u32) -> Course
    requires { (n ≤ 1024) × (n ≤ length fixed.now) }
    ensures { Starts fixed.now n marks total result }
{
    let stack = Stack::new();
    let journal = Journal::new();
    let free = Free::new();
    let fixedmarks = mark_fixed(fixed, n);
    Course {
        stack,
        journal,
        free,
        fixedmarks,
        n,
        marks,
        total,
        at: 0,
    }
}
