// What blocks are made of: statements whose word is looked at while it is held, or after it was taken; options up to a `;`; parts up to
// a `;`; as many parts as the block lacks.
pub const KEYED: u64 = 0;

pub const WORDED: u64 = 1;

pub const OPTIONS: u64 = 2;

pub const PARTS: u64 = 3;

pub const COUNTED: u64 = 4;
