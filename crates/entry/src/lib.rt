// An entry of an index: what it holds, its 16 bytes, the entries of a file by their position, and which of two comes first.
#![tactic(auto)]

ghost use Rattle.std.specs.Prelude.{◌≡◌, ◌/◌, ◌<◌, length};
ghost use Rattle.entry.specs.Entries.{encoded, entry_in, has_room, stored};

pub mod order;

// The owner, the span of the name and the `at` of a SITE block, MACRO or PIN.
#[derive(Clone, Copy, PartialEq, Eq)]
pub struct Entry {
    pub owner: usize,
    pub name: usize,
    pub len: usize,
    pub at: usize,
}

impl Entry {
    // An entry's bytes, and where each field stands in them.
    pub const SIZE: usize = 16;

    pub const OWNER: usize = 0;

    pub const NAME: usize = 4;

    pub const LEN: usize = 8;

    pub const AT: usize = 12;
}

// The entry's 16 bytes.
pub fn bytes(e: Entry) -> [u8; 16]
    ensures { result ≡ encoded e }
{
    let mut bytes = [0; 16];
    little::lay(&mut bytes, Entry::OWNER, 4, e.owner as u64);
    little::lay(&mut bytes, Entry::NAME, 4, e.name as u64);
    little::lay(&mut bytes, Entry::LEN, 4, e.len as u64);
    little::lay(&mut bytes, Entry::AT, 4, e.at as u64);
    bytes
}

// Writes the entry at the position, and says whether the file had room there.
// What it shares with `file::put` is `rowfile::put`; a trait of rows would be longer than these two calls.
pub fn put(e: Entry, file: &mut [u8], position: usize) -> bool
    ensures value { result ≡ has_room file.old position }
    ensures file_after { file.new ≡ stored e position file.old }
{
    rowfile::put(&bytes(e), file, position)
}

// The entry at the position of the file.
#[tactic(auto, unfolding(crate::specs::Entries::decoded))]
pub fn read(file: &[u8], position: usize) -> Entry
    requires { position < length file.now / 16 }
    ensures of { result ≡ entry_in file.now position }
    ensures small { (result.owner < 4294967296) × (result.name < 4294967296) × (result.len < 4294967296) × (result.at < 4294967296) }
{
    let row = rowfile::row(file, Entry::SIZE, position);
    Entry {
        owner: little::word32(row, Entry::OWNER),
        name: little::word32(row, Entry::NAME),
        len: little::word32(row, Entry::LEN),
        at: little::word32(row, Entry::AT),
    }
}
