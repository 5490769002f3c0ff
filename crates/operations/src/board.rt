// What a move only reads of a running sale: the pins on the board net by net, the incidence, the weights, and how many vertices, nets and blocks
// there are.
#[derive(Clone, Copy)]
pub struct Board<'a> {
    pub presentpins: &'a [u16],
    pub presentsizes: &'a [u16],
    pub bits: &'a [u64],
    pub weights: &'a [u32],
    pub netweights: &'a [u16],
    pub firsts: &'a [u16],
    pub n: usize,
    pub m: usize,
    pub k: usize,
}
