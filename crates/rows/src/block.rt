// The blocks by their numbers, in the order of the grammar's list. A row's head holds such a number, which is taken out as it stands: an
// enum would need a table beside it, from numbers back to blocks.
pub const LIBRARY: u64 = 0;

pub const UNITS: u64 = 1;

pub const SITE: u64 = 2;

pub const SYMMETRY: u64 = 3;

pub const MACRO: u64 = 4;

pub const PIN: u64 = 5;

pub const PORT: u64 = 6;

pub const OBS: u64 = 7;

pub const OPTIONS: u64 = 8;

pub const LAYER: u64 = 9;

pub const RECT: u64 = 10;

pub const POLYGON: u64 = 11;

pub const PATH: u64 = 12;
