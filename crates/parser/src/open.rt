// An open block.

// Which block it is by its number, where it starts (the library starts nowhere), where its name stands, and the kinds of record that it
// lacks, a byte each with a mark after the last.
#[derive(Clone, Copy)]
pub struct Frame {
    pub block: u64,
    pub at: usize,
    pub title: usize,
    pub len: usize,
    pub lacks: u64,
}
