// The record file: a record's 36 bytes, and the records of a file by their index.
#![tactic(auto)]

ghost use Rattle.std.specs.Prelude.{◌≡◌, ◌/◌, ◌<◌, length};
ghost use Rattle.record.specs.Bytes.{encoded};
ghost use Rattle.file.specs.File.{has_room, record_at, record_in, stored};

use record::Record;

// The record's 36 bytes.
pub fn bytes(r: Record) -> [u8; 36]
    ensures { result ≡ encoded r }
{
    let mut bytes = [0; 36];
    bytes[Record::KIND] = r.kind();
    bytes[Record::CODE] = r.code();
    little::lay(&mut bytes, Record::SPARE, 2, r.spare() as u64);
    little::lay(&mut bytes, Record::AT, 4, r.at() as u64);
    little::lay(&mut bytes, Record::OWNER, 4, r.owner() as u64);
    little::lay(&mut bytes, Record::NAME, 4, r.name() as u64);
    little::lay(&mut bytes, Record::LEN, 4, r.len() as u64);
    little::lay(&mut bytes, Record::X, 8, r.x());
    little::lay(&mut bytes, Record::Y, 8, r.y());
    bytes
}

// Writes the record at the index, and says whether the file had room there: where it has none no bytes are made.
pub fn put(r: Record, file: &mut [u8], index: usize) -> bool
    ensures value { result ≡ has_room file.old index }
    ensures file_after { file.new ≡ stored r index file.old }
{
    if file.len() / Record::SIZE <= index {
        return false;
    }
    rowfile::put(&bytes(r), file, index)
}

// The record at the index of the file, where there is one.
#[tactic(auto, unfolding(crate::specs::File::record_at))]
pub fn read(file: &[u8], index: usize) -> Option<Record>
    ensures { result ≡ record_at file.now index }
{
    if file.len() / Record::SIZE <= index {
        return None;
    }
    Some(at(file, index))
}

// The record at an index at which the file has one.
pub fn at(file: &[u8], index: usize) -> Record
    requires { index < length file.now / 36 }
    ensures { result ≡ record_in file.now index }
{
    Record::of_bytes(rowfile::row(file, Record::SIZE, index))
}
