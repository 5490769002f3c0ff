// How large a catalogue is, as every call of a sale is told.
// `average` is ⌈W/k⌉, the average weight of a block: the most that two vertices may weigh together for A to contract them.
#[derive(Clone, Copy)]
pub struct Size {
    pub n: usize,
    pub m: usize,
    pub k: usize,
    pub average: u64,
}
