/// A first number and how many there are from it on: the bytes of a block, or the pages of a run.
#[derive(Clone, Copy, Debug, PartialEq, Eq)]
pub struct Extent {
    pub first: u64,
    pub len: u64,
}
