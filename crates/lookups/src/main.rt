// Runs look-ups: each line of standard input is a letter and its fields, and the answer to it is printed on a line. Between two fields
// stands `|`. A TEXT is written as src/plain.rt of `vectors` has it, any other field in hexadecimal.
//   f OWNER KIND CODE FILE    the record in force for an owner (eight bytes), a kind and a code (one each): refusal, place, line, then
//                             1 and its index, or 0 and 0
//   n TEXT FILE               the names of all records, and of one past the file, in a text: `;`, the length and the bytes of each
//   o FILE                    the owners of all records, and of one past the file: `;`, refusal, place, line and count of each
//   u COUNT, d COUNT          a chain of so many owners (four bytes), with `at` rising in the file or falling: the owners of its last
//                             record and of its first
#![tactic(auto)]

use record::Record;
use std::io;
use vectors::say::{Found, Numbers, Pieces};
use vectors::{hex, plain};

// The bytes of a text or a file that are looked at.
const MOST: usize = 4096;

// The records of a chain at the most.
const LONGEST: usize = 50000;

const CHAIN: usize = Record::SIZE * LONGEST;

fn main(rt: HostRuntime) {
    let rt = Pieces(rt);
    vectors::for_each_line(&rt, |letter, fields| answer(&rt, letter, fields));
}

fn answer(rt: &impl Print, letter: u8, fields: &[u8]) -> io::Result<()> {
    match letter {
        b'f' => in_force(rt, fields),
        b'n' => names(rt, fields),
        b'o' => owners(rt, fields),
        b'u' => chain(rt, fields, false),
        b'd' => chain(rt, fields, true),
        _ => print!(rt; "?"),
    }
}

fn in_force(rt: &impl Print, fields: &[u8]) -> io::Result<()> {
    let Some((given, digits)) = fields.split_first_chunk::<23>() else {
        return Ok(());
    };
    let owner = u64::from_le_bytes(hex::array(&given[0..16])) as usize;
    let [kind] = hex::array::<1>(&given[17..19]);
    let [code] = hex::array::<1>(&given[20..22]);
    let mut room = [0; MOST];
    let file = hex::decoded(digits, &mut room);
    print!(rt; "{}", Found(lookup::in_force(file, owner, kind, code)))
}

fn names(rt: &impl Print, fields: &[u8]) -> io::Result<()> {
    let Some((text, file)) = vectors::cut(b'|', fields) else {
        return Ok(());
    };
    let mut text_room = [0; MOST];
    let mut file_room = [0; MOST];
    let text = plain::decoded(text, &mut text_room);
    let file = hex::decoded(file, &mut file_room);
    for i in 0..=file.len() / Record::SIZE {
        let name = lookup::name(text, file, i);
        print!(rt; ";{} {}", name.len(), Numbers(name))?;
    }
    Ok(())
}

fn owners(rt: &impl Print, digits: &[u8]) -> io::Result<()> {
    let mut room = [0; MOST];
    let file = hex::decoded(digits, &mut room);
    for i in 0..=file.len() / Record::SIZE {
        owners_of(rt, file, i)?;
    }
    Ok(())
}

fn owners_of(rt: &impl Print, file: &[u8], index: usize) -> io::Result<()> {
    let numbers = match lookup::owners(file, index) {
        Ok(count) => [0, 0, 0, count],
        Err(r) => [r.number, r.place, r.line, 0],
    };
    print!(rt; ";{}", Numbers(&numbers))
}

// The ends of a chain. Two letters differ in `falling` alone, and a closure for the index would be no plainer.
fn chain(rt: &impl Print, digits: &[u8], falling: bool) -> io::Result<()> {
    let mut room = vectors::zeros::<CHAIN>();
    let count = u32::from_le_bytes(hex::array(digits)) as usize;
    if count == 0 || LONGEST < count {
        return Ok(());
    }
    let file = &mut room[..Record::SIZE * count];
    link(file, count, falling);
    owners_of(rt, file, count - 1)?;
    owners_of(rt, file, 0)
}

// Each record has the one that starts before it for its owner, and the first the library.
fn link(file: &mut [u8], count: usize, falling: bool) {
    for k in 0..count {
        let index = if falling { count - 1 - k } else { k };
        let owner = k.checked_sub(1).unwrap_or(Record::LIBRARY);
        file::put(Record::port(k, owner), file, index);
    }
}
