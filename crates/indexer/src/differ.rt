// Where an index from outside differs from the one that would be built of a record file: no second index is made. Each entry of the records
// is looked for in the front of the index that rises; only where one is lacking, or one too many stands there, are the records counted again.
ghost use Rattle.std.specs.Prelude.{◌≡◌, ◌/◌, ◌≤◌, min, length};
ghost use Rattle.file.specs.File.{held as held_records};
ghost use Rattle.entry.specs.Entries.{held, entry_in};
ghost use Rattle.entry.specs.Order.{precedes};
ghost use Rattle.index.specs.Index.{entries};
ghost use Rattle.ordered.specs.Order.{Apart, sorted};
ghost use Rattle.ordered.specs.Counted.{up_to, total};
ghost use Rattle.index.specs.Answers.{differ};
ghost use Rattle.indexer.specs.Inner.{largest, len, Rising, Misses, Meeting, Agrees};

use crate::fill::{Entries, entered_in};
use crate::search::Front;
use entry::Entry;
use entry::order::precedes;
use ordered::partition_point;

// The bytes of the names of all entries of the records, or the largest number where that is less.
fn named_in(records: &[u8]) -> usize
    ensures { result ≡ min (total len (entries (held_records records.now))) largest }
{
    let mut n: usize = 0;
    for e in Entries(records) {
        n = n.saturating_add(e.len);
    }
    n
}

// The front of the index in which each entry comes before the next, while their names have no more than so many bytes: else an index from
// outside could have the whole text compared with itself for each of its entries.
fn rising<'a>(text: &'a [u8], index: &'a [u8], most: usize) -> Front<'a>
    ensures of { (result.text.now ≡ text.now) × (result.index.now ≡ index.now) }
    ensures stops { Rising text.now index.now most result.n }
{
    let count = index.len() / Entry::SIZE;
    let mut named: usize = 0;
    for n in 1..count {
        let e = entry::read(index, n);
        named = named.saturating_add(e.len);
        if most < named || !precedes(text, entry::read(index, n - 1), e) {
            return Front { text, index, n };
        }
    }
    Front {
        text,
        index,
        n: count,
    }
}

// Where the entry would stand in the front, if it does not stand there.
fn missing(front: &Front, e: Entry) -> Option<usize>
    ensures { Misses front.now.text.now (entry_in front.now.index.now) front.now.n e result }
{
    let p = front.lower(e.owner, lookup::part(front.text, e.name, e.len), e.at);
    if p < front.n && entry::read(front.index, p) == e {
        return None;
    }
    Some(p)
}

// The least position in the front before which an entry of the records is lacking, if any is lacking.
fn meet(front: &Front, records: &[u8]) -> Option<usize>
    ensures { Meeting front.now.text.now (entry_in front.now.index.now) front.now.n (entries (held_records records.now)) result }
{
    let mut first = None;
    for e in Entries(records) {
        if let Some(p) = missing(front, e) {
            first = Some(p.min(first.unwrap_or(p)));
        }
    }
    first
}

// How many entries of the records do not come after the entry.
fn up_to(text: &[u8], records: &[u8], e: Entry) -> usize
    ensures { result ≡ up_to (precedes text.now) e (entries (held_records records.now)) }
{
    Entries(records).filter(|f| !precedes(text, e, *f)).count()
}

// How many of the first n entries of the front are those that would be built, where no entry of the records is lacking before them.
fn agreed(front: &Front, records: &[u8], n: usize) -> usize
    requires { n ≤ front.now.n }
    ensures { Agrees front.now.text.now (entry_in front.now.index.now) n (entries (held_records records.now)) result }
{
    let Front { text, index, .. } = *front;
    partition_point(n, |i| up_to(text, records, entry::read(index, i)) == i + 1)
}

// The first position at which the index differs from the one that would be built; where one begins the other, the shorter one's count.
pub(crate) fn differ(text: &[u8], records: &[u8], index: &[u8]) -> usize
    requires { Apart (precedes text.now) (entries (held_records records.now)) }
    ensures { result ≡ differ (held index.now) (sorted (precedes text.now) (entries (held_records records.now))) }
{
    let front = rising(text, index, named_in(records));
    match meet(&front, records) {
        None if front.n == entered_in(records) => front.n,
        first => agreed(&front, records, first.unwrap_or(front.n)),
    }
}
