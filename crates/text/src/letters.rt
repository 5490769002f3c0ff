// The letters by which calls are named, as a table of calls holds them.
pub const J: u32 = 74;

pub const S: u32 = 83;

pub const M: u32 = 77;

pub const B: u32 = 66;

pub const W: u32 = 87;

pub const P: u32 = 80;

pub const A: u32 = 65;

pub const X: u32 = 88;

pub const N: u32 = 78;
