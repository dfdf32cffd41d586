// Which of two entries comes first: by owner, then by name bytes, then by `at`.
ghost use Rattle.std.specs.Prelude.{◌≡◌, ◌&&◌, ◌||◌, ltb};
ghost use Rattle.entry.specs.Order.{ahead, alike, before, key, key_of, precedes};
ghost use Rattle.entry.specs.Common.{common};

use crate::Entry;

// How many bytes from the front on two names have in common.
fn common(a: &[u8], b: &[u8]) -> usize
    ensures { result ≡ common a.now b.now }
{
    let shorter = a.len().min(b.len());
    for i in 0..shorter {
        if a[i] != b[i] {
            return i;
        }
    }
    shorter
}

// Whether two names are the same bytes.
#[tactic(auto, using(crate::proofs::Names::alike_pointwise))]
pub fn alike(a: &[u8], b: &[u8]) -> bool
    ensures { result ≡ alike a.now b.now }
{
    a == b
}

// Whether a name comes before another, and of two that are alike the one `at` before the other.
fn named_before(a: &[u8], at: usize, b: &[u8], other: usize) -> bool
    ensures { result ≡ (ahead a.now b.now || (alike a.now b.now && ltb at other)) }
{
    let i = common(a, b);
    if i < b.len() {
        if i < a.len() {
            return a[i] < b[i];
        }
        return true;
    }
    if i < a.len() {
        return false;
    }
    at < other
}

// Whether an entry comes before what has the owner, the name and the `at`.
pub fn before(text: &[u8], e: Entry, owner: usize, name: &[u8], at: usize) -> bool
    ensures { result ≡ before (key_of text.now e) (key owner name.now at) }
{
    if e.owner != owner {
        return e.owner < owner;
    }
    named_before(lookup::part(text, e.name, e.len), e.at, name, at)
}

// Whether one entry comes before another.
pub fn precedes(text: &[u8], e: Entry, f: Entry) -> bool
    ensures { result ≡ precedes text.now e f }
{
    before(text, e, f.owner, lookup::part(text, f.name, f.len), f.at)
}
