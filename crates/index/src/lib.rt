// The index of a reading: what it is, what the calls that take one answer, and what is proved of it; no code but a query.
#![tactic(auto)]

// A look-up among many: an owner, and a name as a span of a lent block of names.
#[derive(Clone, Copy)]
pub struct Query {
    pub owner: usize,
    pub start: usize,
    pub len: usize,
}

impl Query {
    // A query's bytes, and where each field stands in them.
    pub const SIZE: usize = 12;

    pub const OWNER: usize = 0;

    pub const START: usize = 4;

    pub const LEN: usize = 8;

    // The bytes of its answer.
    pub const ANSWER: usize = 4;
}
