// Numerals: what one says in millionths, the shortest one of a value and where it goes in a buffer, and the word of 64
// bits that a record stores for a value.
#![tactic(auto)]

ghost use Rattle.std.specs.Prelude.{◌≤◌, ◌-◌, ◌*◌, ◌^◌, ◌≡◌, true, eqb, length};
ghost use Rattle.std.specs.List.{list_all};
ghost use Rattle.numeral.specs.Numeral.{numeral_of, digit};
ghost use Rattle.numeral.specs.Machine.{most, pushed, ended, zeros_of, decimals_of, whole_of};
ghost use Rattle.numeral.specs.Shortest.{below_nought, shortest};
ghost use Rattle.numeral.specs.Laid.{written_of, laid};
ghost use Rattle.numeral.specs.Stored.{stored_of, value_of};

use laid::{fraction_width, lay, natural_width, sign_width};

mod laid;

// What a numeral says: whether it is below nought, and its magnitude in millionths.
#[derive(Clone, Copy, PartialEq, Eq)]
pub struct Scaled {
    pub negative: bool,
    pub millionths: u64,
}

const LIMIT: u64 = 10000000000000;

// A whole part above this passes the limit, whatever follows it.
const MOST: u64 = 10000000;

pub(crate) const MILLION: u64 = 1000000;

const GREATEST_WORD: u64 = 18446744073709551615;

// The number that a digit stands for.
fn digit_of(b: u8) -> u64
    requires { digit b ≡ true }
    ensures { result ≡ b - 48 }
{
    u64::from(b - b'0')
}

// `x` with one digit more.
fn push(x: u64, b: u8) -> u64
    requires { (x ≤ most) × (digit b ≡ true) }
    ensures { result ≡ pushed x b }
{
    x * 10 + digit_of(b)
}

static POWERS: [u64; 7] = [1, 10, 100, 1000, 10000, 100000, 1000000];

// Ten to the power k.
pub(crate) fn power(k: usize) -> u64
    requires { k ≤ 6 }
    ensures { result ≡ 10 ^ k }
{
    POWERS[k]
}

// The answer at the end of the bytes, which come to m millionths.
fn finish(negative: bool, empty: bool, m: u64) -> Option<Scaled>
    ensures { result ≡ ended negative empty m }
{
    if empty || LIMIT < m {
        return None;
    }
    Some(Scaled {
        negative: negative && m != 0,
        millionths: m,
    })
}

// The bytes past the sixth decimal of x millionths.
fn zeros(part: &[u8], negative: bool, x: u64) -> Option<Scaled>
    ensures { result ≡ zeros_of negative x part.now }
{
    if only_zeros(part) {
        finish(negative, false, x)
    } else {
        None
    }
}

fn only_zeros(part: &[u8]) -> bool
    ensures { result ≡ list_all (λ b. eqb b 48) part.now }
{
    part.iter().all(|b| *b == b'0')
}

// The bytes past the point: `room` is how many decimals still count.
fn decimals(part: &[u8], negative: bool, none: bool, whole: u64) -> Option<Scaled>
    requires { whole ≤ most }
    ensures { result ≡ decimals_of negative none 6 (whole * 1000000) part.now }
{
    let mut empty = none;
    let mut room: usize = 6;
    let mut x = whole * MILLION;
    for (i, b) in part.iter().enumerate() {
        if room == 0 {
            return zeros(&part[i..], negative, x);
        }
        if !b.is_ascii_digit() {
            return None;
        }
        room -= 1;
        x += digit_of(*b) * power(room);
        empty = false;
    }
    finish(negative, empty, x)
}

// The numeral but for its minus.
fn unsigned(part: &[u8], negative: bool) -> Option<Scaled>
    ensures { result ≡ whole_of negative true 0 part.now }
{
    let mut empty = true;
    let mut x: u64 = 0;
    for (i, b) in part.iter().enumerate() {
        if *b == b'.' {
            return decimals(&part[i + 1..], negative, empty, x);
        }
        if !b.is_ascii_digit() {
            return None;
        }
        x = push(x, *b);
        if MOST < x {
            return None;
        }
        empty = false;
    }
    finish(negative, empty, x * MILLION)
}

// What a byte string says as a numeral.
pub fn numeral(part: &[u8]) -> Option<Scaled>
    ensures { result ≡ numeral_of part.now }
{
    if part.is_empty() {
        return None;
    }
    if part[0] == b'-' {
        return unsigned(&part[1..], true);
    }
    unsigned(part, false)
}

// Whether a number is below nought: minus nought is not.
pub(crate) fn below_nought(v: Scaled) -> bool
    ensures { result ≡ below_nought v.negative v.millionths }
{
    v.negative & (v.millionths != 0)
}

// The word of a value, in two's complement.
pub fn stored(v: Scaled) -> u64
    ensures { result ≡ stored_of v.negative v.millionths }
{
    if below_nought(v) {
        return GREATEST_WORD - v.millionths + 1;
    }
    v.millionths
}

// The value of a word.
pub fn value_of(word: u64) -> Scaled
    ensures { result ≡ value_of word }
{
    if word < 9223372036854775808 {
        return Scaled {
            negative: false,
            millionths: word,
        };
    }
    Scaled {
        negative: true,
        millionths: GREATEST_WORD - word + 1,
    }
}

// The length of the shortest numeral of a value.
pub fn width(v: Scaled) -> usize
    ensures { result ≡ length (shortest v.negative v.millionths) }
{
    let s = sign_width(v);
    let n = natural_width(v.millionths / MILLION);
    let f = v.millionths % MILLION;
    if f == 0 {
        return s + n;
    }
    s + n + 1 + fraction_width(f)
}

// Puts the shortest numeral of a value into a buffer, from `at` on, and answers the place after it, where there is room.
pub fn put(v: Scaled, out: &mut [u8], at: usize) -> Option<usize>
    ensures value { result ≡ written_of out.old at (shortest v.negative v.millionths) }
    ensures out_after { out.new ≡ laid out.old at (shortest v.negative v.millionths) }
{
    let w = width(v);
    if out.len() < w {
        return None;
    }
    if out.len() - w < at {
        return None;
    }
    Some(lay(v, out, at))
}
