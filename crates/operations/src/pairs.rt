// The contraction stack, of either size, and the move journal: structs by value, whose methods return the new state. A list has at most 512 calls, so a call's have
// 512 entries; A's own contractions have 1,024, and so has what the list's entry returns.
ghost use Rattle.std.specs.Prelude.{◌+◌, ◌-◌, ◌<◌, ◌≤◌, ◌≡◌, length, replicate};
ghost use Rattle.operations.specs.Pairs.{Pushed, Lengthened};

// The joins that stand, the latest last: `gone[i]` was contracted into `into[i]`.
#[derive(Clone, Copy)]
pub struct Joins<const N: usize> {
    pub into: [u16; N],
    pub gone: [u16; N],
    pub len: usize,
}

// Those of the calls of a list.
pub type Stack = Joins<512>;

// The moves on the record, the latest last: `vertices[i]` left `blocks[i]`. It is no twin of `Joins`, though its methods are as short: a stack has to
// be no journal, and the contracts of the calls speak of its entries by these names.
#[derive(Clone, Copy)]
pub struct Journal {
    pub vertices: [u16; 512],
    pub blocks: [u16; 512],
    pub len: usize,
}

// A stack and a journal as the list's entry returns them to C, where an exported function takes no struct with a const parameter.
#[repr(C)]
#[derive(Clone, Copy)]
pub struct LongStack {
    pub into: [u16; 1024],
    pub gone: [u16; 1024],
    pub len: usize,
}

#[repr(C)]
#[derive(Clone, Copy)]
pub struct LongJournal {
    pub vertices: [u16; 1024],
    pub blocks: [u16; 1024],
    pub len: usize,
}

// The first n entries, and zeros past them.
fn lengthened(xs: [u16; 512], n: usize) -> [u16; 1024]
    requires { n ≤ 512 }
    ensures { Lengthened n xs result }
{
    let mut ys = [0u16; 1024];
    ys[..n].copy_from_slice(&xs[..n]);
    ys
}

impl<const N: usize> Joins<N> {
    pub fn new() -> Joins<N>
        ensures { (length result.into ≡ N) × (length result.gone ≡ N) × (result.len ≡ 0) }
    {
        Joins {
            into: [0; N],
            gone: [0; N],
            len: 0,
        }
    }

    // With the contraction of `v` into `u` on top.
    pub fn push(self, u: u16, v: u16) -> Joins<N>
        requires { self.len < N }
        ensures { Pushed self.entry.into self.entry.gone self.entry.len u v result.into result.gone result.len }
    {
        let mut s = self;
        s.into[s.len] = u;
        s.gone[s.len] = v;
        s.len += 1;
        s
    }

    // Without its top.
    pub fn pop(self) -> Joins<N>
        requires { 1 ≤ self.len }
        ensures { (result.into ≡ self.entry.into) × (result.gone ≡ self.entry.gone) × (result.len ≡ self.entry.len - 1) }
    {
        let mut s = self;
        s.len -= 1;
        s
    }
}

impl Stack {
    // As the list's entry returns it, with zeros past its length.
    pub fn long(self) -> LongStack
        requires { self.len ≤ 512 }
        ensures { Lengthened self.len self.into result.into × Lengthened self.len self.gone result.gone × (result.len ≡ self.len) }
    {
        LongStack {
            into: lengthened(self.into, self.len),
            gone: lengthened(self.gone, self.len),
            len: self.len,
        }
    }
}

impl Journal {
    pub fn new() -> Journal
        ensures { (length result.vertices ≡ 512) × (length result.blocks ≡ 512) × (result.len ≡ 0) }
    {
        Journal {
            vertices: [0; 512],
            blocks: [0; 512],
            len: 0,
        }
    }

    // With the move of `v` out of block `b` on top.
    pub fn push(self, v: u16, b: u16) -> Journal
        requires { self.len < 512 }
        ensures { Pushed self.vertices self.blocks self.len v b result.vertices result.blocks result.len }
    {
        let mut j = self;
        j.vertices[j.len] = v;
        j.blocks[j.len] = b;
        j.len += 1;
        j
    }

    // Without its top.
    pub fn pop(self) -> Journal
        requires { 1 ≤ self.len }
        ensures { (result.vertices ≡ self.vertices) × (result.blocks ≡ self.blocks) × (result.len ≡ self.len - 1) }
    {
        let mut j = self;
        j.len -= 1;
        j
    }

    // As the list's entry returns it, with zeros past its length.
    pub fn long(self) -> LongJournal
        requires { self.len ≤ 512 }
        ensures { Lengthened self.len self.vertices result.vertices × Lengthened self.len self.blocks result.blocks × (result.len ≡ self.len) }
    {
        LongJournal {
            vertices: lengthened(self.vertices, self.len),
            blocks: lengthened(self.blocks, self.len),
            len: self.len,
        }
    }

    // With no move on it.
    pub fn clear(self) -> Journal
        ensures { (result.vertices ≡ self.vertices) × (result.blocks ≡ self.blocks) × (result.len ≡ 0) }
    {
        let mut j = self;
        j.len = 0;
        j
    }
}

impl LongStack {
    pub fn new() -> LongStack
        ensures { (length result.into ≡ 1024) × (length result.gone ≡ 1024) × (result.len ≡ 0) × (result.into ≡ replicate 1024 0) × (result.gone ≡ replicate 1024 0) }
    {
        LongStack {
            into: [0; 1024],
            gone: [0; 1024],
            len: 0,
        }
    }
}

impl LongJournal {
    pub fn new() -> LongJournal
        ensures { (length result.vertices ≡ 1024) × (length result.blocks ≡ 1024) × (result.len ≡ 0) × (result.vertices ≡ replicate 1024 0) × (result.blocks ≡ replicate 1024 0) }
    {
        LongJournal {
            vertices: [0; 1024],
            blocks: [0; 1024],
            len: 0,
        }
    }
}
