// The entries of a record file: one after the other, how many there are, and laying them.
ghost use Rattle.std.specs.Prelude.{◌≡◌, ◌++◌, ◌/◌, ◌≤◌, ◌<◌, length, drop};
ghost use Rattle.std.specs.Iterator.{YieldsFirst, item_count};
ghost use Rattle.record.specs.Bytes.{decoded};
ghost use Rattle.file.specs.File.{held};
ghost use Rattle.entry.specs.Entries.{encoded_all};
ghost use Rattle.index.specs.Index.{entered, entry_of, entries};

use entry::Entry;
use record::{Record, kind};

// The entries of the records of a file, in its order.
#[derive(Clone, Copy)]
pub(crate) struct Entries<'a>(pub(crate) &'a [u8]);

impl<'a> Iterator for Entries<'a> {
    type Item = Entry;

    ghost next_gives = { YieldsFirst (λ s. entries (held s.0.now)) };

    ghost remaining = { item_count (λ s. entries (held s.0.now)) };

    fn next(&mut self) -> Option<Entry> {
        while Record::SIZE <= self.0.len() {
            let (row, rest) = self.0.split_at(Record::SIZE);
            self.0 = rest;
            if is_entered(row) {
                return Some(entry_of(row));
            }
        }
        None
    }
}

// Whether a record has an entry.
#[tactic(auto, unfolding(record::specs::Bytes::decoded, index::specs::Index::entered))]
fn is_entered(row: &[u8]) -> bool
    requires { 0 < length row.now }
    ensures { result ≡ entered (decoded row.now).kind }
{
    matches!(row[Record::KIND], kind::SITE | kind::MACRO | kind::PIN)
}

// The entry of a record.
#[tactic(auto, unfolding(record::specs::Bytes::decoded))]
fn entry_of(row: &[u8]) -> Entry
    ensures of { result ≡ entry_of (decoded row.now) }
    ensures small { (result.owner < 4294967296) × (result.name < 4294967296) × (result.len < 4294967296) × (result.at < 4294967296) }
{
    Entry {
        owner: little::word32(row, Record::OWNER),
        name: little::word32(row, Record::NAME),
        len: little::word32(row, Record::LEN),
        at: little::word32(row, Record::AT),
    }
}

// How many records of the file have an entry.
pub(crate) fn entered_in(records: &[u8]) -> usize
    ensures { result ≡ length (entries (held records.now)) }
{
    Entries(records).count()
}

// Lays the entries of the records in the file's order from the front of the index on.
pub(crate) fn fill(records: &[u8], index: &mut [u8])
    requires { length (entries (held records.now)) ≤ length index.old / 16 }
    ensures { index.new ≡ encoded_all (entries (held records.now)) ++ drop (length (encoded_all (entries (held records.now)))) index.old }
{
    for (n, e) in Entries(records).enumerate() {
        entry::put(e, index, n);
    }
}
