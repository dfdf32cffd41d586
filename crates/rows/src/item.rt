// The items of a statement, a byte each. Those with a number in them have it added, so that they are no enum; and a row whose items stand
// apart is read slower.
pub const X: u64 = 1;

pub const Y: u64 = 2;

pub const SEMI: u64 = 4;

pub const NAME: u64 = 5;

pub const OWN: u64 = 6;

pub const VALUE: u64 = 7;

pub const FIRST: u64 = 8;

pub const FIRST_KEY: u64 = 9;

pub const NO_NAME: u64 = 16;

pub const SECOND: u64 = 17;

pub const CODE: u64 = 32;

pub const IF_MORE: u64 = 48;

pub const WHOLE: u64 = 64;

pub const VERSIONS: u64 = 80;

pub const MICRONS: u64 = 81;

pub const STRING: u64 = 96;

pub const WORD_MICRONS: u64 = 112;

pub const WORD_UNITS: u64 = 113;

pub const KEY: u64 = 128;
