// Finding a position by bisection in the front of an index that rises.
ghost use Rattle.std.specs.Prelude.{◌/◌, ◌≤◌, length};
ghost use Rattle.entry.specs.Order.{key};
ghost use Rattle.entry.specs.Entries.{entry_in};
ghost use Rattle.indexer.specs.Inner.{Rises, Lower, Seeks};

use entry::Entry;
use entry::order::{alike, before};
use ordered::partition_point;

// The first n entries of an index, each of which comes before the next.
#[derive(Clone, Copy)]
pub(crate) struct Front<'a> {
    pub(crate) text: &'a [u8],
    pub(crate) index: &'a [u8],
    pub(crate) n: usize,
    ghost within: { n ≤ length index.now / 16 },
    ghost rises: { Rises text.now (entry_in index.now) n },
}

impl<'a> Front<'a> {
    // The first position whose entry does not come before what has the owner, the name and the `at`; or n.
    pub(crate) fn lower(&self, owner: usize, name: &[u8], at: usize) -> usize
        ensures { Lower self.now.text.now (entry_in self.now.index.now) self.now.n (key owner name.now at) result }
    {
        let Front { text, index, n } = *self;
        partition_point(n, |i| before(text, entry::read(index, i), owner, name, at))
    }

    // The `at` of the first entry with the owner and the name.
    pub(crate) fn seek(&self, owner: usize, name: &[u8]) -> Option<usize>
        ensures { Seeks self.now.text.now (entry_in self.now.index.now) self.now.n owner name.now result }
    {
        let p = self.lower(owner, name, 0);
        if self.n <= p {
            return None;
        }
        let e = entry::read(self.index, p);
        if e.owner != owner || !alike(lookup::part(self.text, e.name, e.len), name) {
            return None;
        }
        Some(e.at)
    }
}
