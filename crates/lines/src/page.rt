// The page that is written. Each function lays its bytes at the page's place, where the buffer has room for all of them, and moves the
// place behind them whether it had room or not: a buffer of no bytes counts.
ghost use Rattle.std.specs.Prelude.{◌≡◌, [], ◌∷◌, ◌+◌, ◌≤◌, length, take, drop, replicate};
ghost use Rattle.std.proofs.lemmas.List.Edits.{sets};
ghost use Rattle.word.specs.Spelling.{spelling};
ghost use Rattle.numeral.specs.Stored.{value_of};
ghost use Rattle.render.specs.Says.{numeral};
ghost use Rattle.lines.specs.Put.{Puts};

use little::lay;
use numeral::{put, value_of, width};
use word::spelling::{count, eight};

// What is written of a text, into a buffer, up to a place.
#[derive(Drop)]
pub struct Page<'t, 'b> {
    pub text: &'t [u8],
    pub out: &'b mut [u8],
    pub at: usize,
}

impl<'t, 'b> Page<'t, 'b> {
    pub(crate) fn put_byte(&mut self, b: u8)
        ensures { Puts self.old self.new (b ∷ []) }
    {
        let at = self.at;
        if at < self.out.len() {
            self.out[at] = b;
        }
        self.at = at.saturating_add(1);
    }

    pub(crate) fn put_spaces(&mut self, n: usize)
        ensures { Puts self.old self.new (replicate n 32) }
    {
        let at = self.at;
        let to = at.saturating_add(n);
        if to <= self.out.len() {
            self.out[at..to].fill(b' ');
        }
        self.at = to;
    }

    // The part of the text, as far as it lies in the text.
    pub(crate) fn put_part(&mut self, start: usize, len: usize)
        ensures { Puts self.old self.new (take len (drop start self.old.text.now)) }
    {
        let rest = &self.text[start.min(self.text.len())..];
        let part = &rest[..len.min(rest.len())];
        let at = self.at;
        let to = at.saturating_add(part.len());
        if to <= self.out.len() {
            copy(&mut self.out[at..to], part);
        }
        self.at = to;
    }

    // The word with the number k.
    pub(crate) fn put_word(&mut self, k: u8)
        ensures { Puts self.old self.new (spelling k) }
    {
        let n = count(k);
        let at = self.at;
        let to = at.saturating_add(n);
        if to <= self.out.len() {
            spell(k, n, self.out, at);
        }
        self.at = to;
    }

    // The shortest numeral of a number as a record stores it. Where the place is past the buffer, only its width is computed.
    pub(crate) fn put_number(&mut self, v: u64)
        ensures { Puts self.old self.new (numeral (value_of v)) }
    {
        let at = self.at;
        let scaled = value_of(v);
        if self.out.len() < at {
            self.at = at.saturating_add(width(scaled));
            return;
        }
        self.at = match put(scaled, self.out, at) {
            Some(to) => to,
            None => at.saturating_add(width(scaled)),
        };
    }
}

// Copies byte by byte: `copy_from_slice` is a call of `memmove`, and of the C library the archive needs `memcpy` and `memset` alone.
fn copy(to: &mut [u8], from: &[u8])
    requires { length to.old ≡ length from.now }
    ensures len { length to.new ≡ length to.old }
    ensures after { to.new ≡ from.now }
{
    for i in 0..from.len() {
        to[i] = from[i];
    }
}

// Lays the n letters of a word at a place, eight at a time.
fn spell(k: u8, n: usize, out: &mut [u8], at: usize)
    requires { (n ≡ length (spelling k)) × (at + n ≤ length out.old) }
    ensures { out.new ≡ sets out.old at (spelling k) }
{
    for part in 0..n.div_ceil(8) {
        lay(out, at + 8 * part, (n - 8 * part).min(8), eight(k, part));
    }
}
