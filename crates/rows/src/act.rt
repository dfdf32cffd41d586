// Numbers that others are added to, so that they are no enum. What a row does, a byte of its head: up to 63 it gives a record of that kind, and from REFUSE on it refuses with the number that is added.
pub const CLOSE: u64 = 64;

pub const BACK: u64 = 66;

pub const REFUSE: u64 = 80;

// Added to one of these, the row holds only up to version 5.4.
pub const UP_TO_54: u64 = 128;

// What a record does to the open blocks, beside the block that it opens and what that lacks.
pub const STAY: u64 = 0;

pub const ENTER: u64 = 1;

pub const VERSION: u64 = 2;

pub const NAMED: u64 = 3;
