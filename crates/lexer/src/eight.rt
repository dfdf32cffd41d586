// Runs of bytes, eight at a time: a mark is set at each byte that ends the run, and the place of the first mark is counted.
ghost use Rattle.std.specs.Prelude.{◌≡◌, List, ℕ, Bool, ◌+◌, ◌/◌, ◌≤◌, ◌<◌, length, take, drop};
ghost use Rattle.std.specs.Int.Count.{count_trailing_zeros};
ghost use Rattle.lexer.specs.Bytes.{in_name, in_number};
ghost use Rattle.lexer.specs.Run.{past};
ghost use Rattle.lexer.specs.Eight.{each, other, is_blank, Packed, Marks};

use crate::scan;

// 1, 127 and 128 in each of eight bytes.
const ONES: u64 = 0x0101010101010101;

const LOWS: u64 = 0x7f7f7f7f7f7f7f7f;

const TOPS: u64 = 0x8080808080808080;

// The eight bytes from a place on as one number, the first of them lowest.
pub(crate) fn eight(text: &[u8], at: usize) -> u64
    requires { at + 8 ≤ length text.now }
    ensures { Packed (take 8 (drop at text.now)) result }
{
    packed(<&[u8; 8]>::try_from(&text[at..at + 8]).unwrap())
}

fn packed(bytes: &[u8; 8]) -> u64
    ensures { Packed bytes.now result }
{
    u64::from_le_bytes(*bytes)
}

// A mark at each byte that is not `one` and does not lie from `first` to `last`. The sums are of seven bits each, so that none
// carries over into the next byte, and a byte above 127 is marked by its own top bit.
fn others(w: u64, one: u64, first: u64, last: u64) -> u64
    requires { (one < 128) × (first ≤ 128) × (last < 128) }
    ensures { (l : List ℕ) → Packed l w → result ≡ each (other one first last) l }
{
    let low = w & LOWS;
    let differs = (low ^ one * ONES) + LOWS;
    let reaches = low + (128 - first) * ONES;
    let exceeds = low + (127 - last) * ONES;
    (differs & (!reaches | exceeds) | w) & TOPS
}

// A mark at each byte that ends a name: a space or a newline.
pub(crate) fn name_ends(w: u64) -> u64
    ensures { Marks in_name w result }
{
    others(w, 32, 9, 13) ^ TOPS
}

// A mark at each byte that ends a number: neither a digit nor a point.
pub(crate) fn number_ends(w: u64) -> u64
    ensures { Marks in_number w result }
{
    others(w, 46, 48, 57)
}

// A mark at each byte that is no blank: the range is empty.
fn blank_ends(w: u64) -> u64
    ensures { Marks is_blank w result }
{
    others(w, 32, 33, 32)
}

// How many bytes stand before the first mark.
pub(crate) fn before(marks: u64) -> usize
    ensures { result ≡ count_trailing_zeros 64 marks / 8 }
{
    (u64::trailing_zeros(marks) / 8) as usize
}

// The place after the bytes of a name that start at `at`.
pub(crate) fn name_past(text: &[u8], at: usize) -> usize
    requires { at ≤ length text.now }
    ensures { result ≡ past in_name text.now at }
{
    scan::run_past(text, eights_past(text, at, name_ends), scan::in_name)
}

// The place after the digits and points that start at `at`.
pub(crate) fn number_past(text: &[u8], at: usize) -> usize
    requires { at ≤ length text.now }
    ensures { result ≡ past in_number text.now at }
{
    scan::run_past(text, eights_past(text, at, number_ends), scan::in_number)
}

// A place up to which there are only blanks from `at` on: behind them, or within eight bytes of the text's end.
pub(crate) fn blanks_past(text: &[u8], at: usize) -> usize
    requires { at ≤ length text.now }
    ensures { (at ≤ result) × (past is_blank text.now result ≡ past is_blank text.now at) }
{
    eights_past(text, at, blank_ends)
}

// A place from `at` on up to which no byte has a mark: the first that has one, or a place within eight bytes of the text's end.
fn eights_past<F: Fn(u64) -> u64>(text: &[u8], at: usize, ends: F) -> usize
    requires inside { at ≤ length text.now }
    requires callable { F.IsAlwaysCallable ends }
    ensures within { (at ≤ result) × (result ≤ length text.now) }
    ensures same { (p : ℕ → Bool) → ((w r : ℕ) → F.post ends w r → Marks p w r) → past p text.now result ≡ past p text.now at }
{
    let (eights, rest) = text[at..].as_chunks::<8>();
    for (k, bytes) in eights.iter().enumerate() {
        let marks = ends(packed(bytes));
        if marks != 0 {
            return at + 8 * k + before(marks);
        }
    }
    text.len() - rest.len()
}

// A place at most seven bytes behind `at` up to which there are only blanks: behind them, or `at` where eight or more come next.
pub(crate) fn near_blanks(text: &[u8], at: usize) -> usize
    requires { at + 7 < length text.now }
    ensures { (at ≤ result) × (result ≤ at + 7) × (past is_blank text.now result ≡ past is_blank text.now at) }
{
    let ends = blank_ends(eight(text, at));
    if ends == 0 { at } else { at + before(ends) }
}
