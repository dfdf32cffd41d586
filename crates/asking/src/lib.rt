// Replays the calls on an index: each line of the input is a letter and its fields, and the answers to it are printed on a line.
// Between two fields stands `|`. A TEXT is written as src/plain.rt of `vectors` has it, any other field in hexadecimal. `..` stands for
// one field or more, and of each is printed `;` and its answers: number, place and line, and then what is said here.
//   b TEXT FILE ROOM..             building into a buffer of so many bytes, in four digits, filled with `~`: the buffer afterwards
//   c TEXT FILE INDEX..            checking an index
//   e TEXT FILE INDEX MASK..       checking the index with one byte changed, each in turn: exclusive or with the mask
//   p TEXT FILE INDEX POSITIONS..  checking an index of entries picked from the one given, a byte each
//   q TEXT FILE INDEX QUESTION..   finding; a question is the owner in eight bytes, the lowest first, and the name as a text: 1 and its
//                                  `at`, or 0 and 0
//   m NUMBERS                      a long text, of one macro with n pins, of which number i is named by the number (i * step) % names.
//                                  Its index is built: a sum of its bytes. The pin that the number `put` names is looked for. The entry
//                                  at `odd` is made the one at `put`, and the index is checked. Each is three bytes, the lowest first:
//                                  n, step, names, odd, put
//   n TEXT FILE INDEX ASKED..      many look-ups in one call; what is asked is how many bytes the buffer of the answers has, in four digits, the
//                                  queries, `:`, and the block of names as a text: the buffer afterwards, which was filled with `~`, and the `at`
//                                  that each query is answered by a look-up of its own
//   l NUMBERS                      what `m` does, and between finding and checking every pin is looked for, in one call: a sum of the answers'
//                                  bytes
#![tactic(auto)]

use entry::Entry;
use std::io;
use vectors::say::{Answer, Found};
use vectors::{hex, plain, say};

mod long;
mod many;

// The bytes of an index that are looked at, and of a buffer that is lent for one.
const INDEX: usize = 2048;

// The answers to a line.
pub fn answer(rt: &impl Print, letter: u8, fields: &[u8]) -> io::Result<()> {
    match letter {
        b'm' => long::made(rt, fields, false),
        b'l' => long::made(rt, fields, true),
        _ => given(rt, letter, fields).unwrap_or(Ok(())),
    }
}

// The other forms, where their fields are all there. Two of these have no index for all of their questions.
fn given(rt: &impl Print, letter: u8, fields: &[u8]) -> Option<io::Result<()>> {
    let (text, fields) = vectors::cut(b'|', fields)?;
    let (file, fields) = vectors::cut(b'|', fields)?;
    let (index, questions) = match letter {
        b'b' | b'c' => (&fields[..0], fields),
        _ => vectors::cut(b'|', fields)?,
    };
    Some(asked(rt, letter, [text, file, index], questions))
}

// A text of at most 4,096 bytes, a file of at most 227 records, and an index. A long text needs no room for these, so that this function has
// a frame of its own.
#[inline(never)]
fn asked(rt: &impl Print, letter: u8, fields: [&[u8]; 3], questions: &[u8]) -> io::Result<()> {
    let mut text = [0; 4096];
    let mut file = [0; 8192];
    let mut index = [0; INDEX];
    let held = Held {
        text: plain::decoded(fields[0], &mut text),
        file: hex::decoded(fields[1], &mut file),
        index: hex::decoded(fields[2], &mut index),
    };
    for question in questions.split(|&b| b == b'|') {
        print!(rt; ";")?;
        match letter {
            b'b' => held.build(rt, question)?,
            b'c' => held.check_given(rt, question)?,
            b'e' => held.check_masked(rt, question)?,
            b'p' => held.check_picked(rt, question)?,
            b'q' => held.find(rt, question)?,
            b'n' => held.find_many(rt, question)?,
            _ => print!(rt; "?")?,
        }
    }
    Ok(())
}

// What a line asks about.
#[derive(Clone, Copy)]
struct Held<'a> {
    text: &'a [u8],
    file: &'a [u8],
    index: &'a [u8],
}

// Each question has a frame of its own, so that none needs the room of another.
impl Held<'_> {
    #[inline(never)]
    fn build(self, rt: &impl Print, digits: &[u8]) -> io::Result<()> {
        let mut room = [b'~'; INDEX];
        let Some(out) = room.get_mut(..hex::size(digits)) else {
            return Ok(());
        };
        let built = indexer::build(self.text, self.file, out);
        print!(rt; "{} ", Answer(built))?;
        say::hex(rt, out)
    }

    #[inline(never)]
    fn check_given(self, rt: &impl Print, digits: &[u8]) -> io::Result<()> {
        let mut room = [0; INDEX];
        self.check(rt, hex::decoded(digits, &mut room))
    }

    fn check(self, rt: &impl Print, index: &[u8]) -> io::Result<()> {
        let checked = indexer::check(self.text, self.file, index);
        print!(rt; "{} ", Answer(checked.map(|()| 0)))
    }

    #[inline(never)]
    fn check_masked(self, rt: &impl Print, digits: &[u8]) -> io::Result<()> {
        let [mask] = hex::array::<1>(digits);
        let mut room = [0; INDEX];
        let Some(changed) = room.get_mut(..self.index.len()) else {
            return Ok(());
        };
        changed.copy_from_slice(self.index);
        for i in 0..changed.len() {
            changed[i] ^= mask;
            self.check(rt, changed)?;
            changed[i] ^= mask;
        }
        Ok(())
    }

    #[inline(never)]
    fn check_picked(self, rt: &impl Print, digits: &[u8]) -> io::Result<()> {
        let mut room = [0; INDEX / Entry::SIZE];
        let mut picked = [0; INDEX];
        let positions = hex::decoded(digits, &mut room);
        for (to, from) in positions.iter().enumerate() {
            take(self.index, usize::from(*from), &mut picked, to);
        }
        let picked = picked.get(..Entry::SIZE.saturating_mul(positions.len()));
        self.check(rt, picked.unwrap_or(&[]))
    }

    fn find(self, rt: &impl Print, field: &[u8]) -> io::Result<()> {
        let Some((owner, name)) = field.split_first_chunk::<16>() else {
            return Ok(());
        };
        let owner = u64::from_le_bytes(hex::array(owner)) as usize;
        let mut room = [0; 256];
        let name = plain::decoded(name, &mut room);
        let found = indexer::find(self.text, self.file, self.index, owner, name);
        print!(rt; "{}", Found(found))
    }
}

// Puts the entry at one position of an index at another of a second, where both are there.
fn take(index: &[u8], from: usize, picked: &mut [u8], to: usize) {
    if from < index.len() / Entry::SIZE {
        entry::put(entry::read(index, from), picked, to);
    }
}
