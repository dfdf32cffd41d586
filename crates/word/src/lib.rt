// The words of LEF: the number of the word that a token spells, found in one step, and the codes of the value words.
#![tactic(auto)]

ghost use Rattle.std.specs.Prelude.{◌≡◌, cond, ◌+◌, ◌-◌, ◌*◌, ◌^◌, ◌≤◌, ◌<◌, min, leb, length, take, drop};
ghost use Rattle.little.specs.Little.{number, Bytes};
ghost use Rattle.word.specs.Words.{upper, word_of, is_key};
ghost use Rattle.word.specs.Lookup.{word_count, marked, next_of};

use little::eight;

pub mod codes;
pub mod names;
mod nodes;
mod slots;
pub mod spelling;

// The number of the word that the bytes spell, in upper or lower case, or 0: six bytes at a time lead from node to node.
pub fn word_of(part: &[u8]) -> u8
    ensures { result ≡ word_of part.now }
{
    let mut node: u8 = 0;
    for chunk in part.chunks(6) {
        node = follow(chunk, node);
        if node == 0 {
            return 0;
        }
    }
    word_at(node)
}

// The node that a stretch leads to from a node, in upper or lower case, or 0.
fn follow(bytes: &[u8], node: u8) -> u8
    requires { length bytes.now ≤ 6 }
    ensures { result ≡ next_of (node + 256 * marked (upper bytes.now)) }
{
    nodes::next(u64::from(node) + 256 * stretch(bytes))
}

// The word that a node is, or 0 where it is only the beginning of one.
fn word_at(node: u8) -> u8
    ensures { result ≡ cond (leb node word_count) node 0 }
{
    if node <= names::WORDS { node } else { 0 }
}

// Whether the word is a key word.
#[tactic(auto, unfolding(crate::specs::Words::keys, crate::specs::Words::is_key))]
pub fn is_key(k: u8) -> bool
    ensures { result ≡ is_key k }
{
    (1 <= k) & (k <= names::KEYS)
}

// The bytes of a stretch in upper case, as a number with a mark at its end.
fn stretch(bytes: &[u8]) -> u64
    requires { length bytes.now ≤ 6 }
    ensures of { result ≡ marked (upper bytes.now) }
    ensures small { result < 2 ^ 49 }
{
    let mut sum = 1;
    for i in (0..bytes.len()).rev() {
        sum = 256 * sum + u64::from(bytes[i].to_ascii_uppercase());
    }
    sum
}

// The number of the word that the bytes of a text from a place to a place spell, as far as the text goes, or 0. A word of at most
// eight bytes in upper case is found in one step, by the number that they make.
pub fn word_in(lent: &&[u8], start: usize, stop: usize) -> u8
    ensures { result ≡ word_of (take (stop - start) (drop start lent.now.now)) }
{
    let text = *lent;
    if stop <= start {
        return 0;
    }
    if text.len() < stop {
        return slow_in(lent, start, stop);
    }
    let n = stop - start;
    if 8 < n {
        return long_in(lent, start, stop);
    }
    if text.len() - start < 8 {
        return slow_in(lent, start, stop);
    }
    let w = low_bytes(text, start, n);
    let k = slots::short(w);
    let letters = spelling::spelt(k);
    if (letters.0 == n) & (letters.1[0] == w) {
        return k;
    }
    slow_in(lent, start, stop)
}

// The same for more than eight bytes: those of a word of at most sixteen are two numbers.
fn long_in(lent: &&[u8], start: usize, stop: usize) -> u8
    requires { (start + 8 < stop) × (stop ≤ length lent.now.now) }
    ensures { result ≡ word_of (take (stop - start) (drop start lent.now.now)) }
{
    let text = *lent;
    let n = stop - start;
    if 16 < n {
        return slow_in(lent, start, stop);
    }
    if text.len() - start < 16 {
        return slow_in(lent, start, stop);
    }
    let w = eight(text, start);
    let v = low_bytes(text, start + 8, n - 8);
    let k = slots::long(w, v);
    let letters = spelling::spelt(k);
    if (letters.0 == n) & ((letters.1[0] == w) & (letters.1[1] == v)) {
        return k;
    }
    slow_in(lent, start, stop)
}

// The same, six bytes at a time.
fn slow_in(lent: &&[u8], start: usize, stop: usize) -> u8
    ensures { result ≡ word_of (take (stop - start) (drop start lent.now.now)) }
{
    word_of(part(*lent, start, stop))
}

// The bytes from a place to a place, as far as the text goes.
fn part(text: &[u8], start: usize, stop: usize) -> &[u8]
    ensures { result.now ≡ take (stop - start) (drop start text.now) }
{
    text.get(start..stop.min(text.len())).unwrap_or(&[])
}

// So many bytes from a place on as a number, the lowest first: those of eight that are left under a mask.
fn low_bytes(text: &[u8], at: usize, n: usize) -> u64
    requires { (1 ≤ n) × (n ≤ 8) × (at + 8 ≤ length text.now) }
    ensures value { result ≡ number (take n (drop at text.now)) }
    ensures bytes { Bytes text.now }
{
    eight(text, at) & (u64::MAX >> (64 - 8 * (n as u64)))
}
