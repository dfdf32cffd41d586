// Replays checks: each line of standard input is a letter and its fields, and the answer to it is printed on a line, as number, place
// and line. Between two fields stands `|`. A TEXT is written as src/plain.rt of `vectors` has it, any other field in hexadecimal.
//   c TEXT FILE      a text and a record file
//   m NUMBERS        a long text, of n statements `VERSION 5 ;`, and a file of `held` records: number i is the reading's (i * step) % n,
//                    but that at index `odd` is the reading's `put`, and foreign from n on. Each is three bytes, the lowest first:
//                    n, held, step, odd, put
#![tactic(auto)]

ghost use Rattle.std.specs.Prelude.{◌<◌};

use record::Record;
use std::io;
use vectors::say::{Answer, Pieces};
use vectors::{hex, plain};

fn main(rt: HostRuntime) {
    let rt = Pieces(rt);
    vectors::for_each_line(&rt, |letter, fields| answer(&rt, letter, fields));
}

fn answer(rt: &impl Print, letter: u8, fields: &[u8]) -> io::Result<()> {
    match letter {
        b'c' => given(rt, fields),
        b'm' => made(rt, fields),
        _ => print!(rt; "?"),
    }
}

fn given(rt: &impl Print, fields: &[u8]) -> io::Result<()> {
    let Some((text, file)) = vectors::cut(b'|', fields) else {
        return Ok(());
    };
    let mut text_room = [0; 4096];
    let mut file_room = [0; 4096];
    let text = plain::decoded(text, &mut text_room);
    let file = hex::decoded(file, &mut file_room);
    checked(rt, text, file)
}

fn checked(rt: &impl Print, text: &[u8], file: &[u8]) -> io::Result<()> {
    print!(rt; "{} ", Answer(checker::check(text, file).map(|()| 0)))
}

fn made(rt: &impl Print, digits: &[u8]) -> io::Result<()> {
    let long = Long::of(&hex::array::<15>(digits));
    if STATEMENTS < long.n || RECORDS < long.held {
        return Ok(());
    }
    let mut text = vectors::zeros::<TEXT>();
    let mut file = vectors::zeros::<FILE>();
    let n = long.text(&mut text);
    let file = &mut file[..Record::SIZE * long.held];
    long.file(file);
    checked(rt, text.get(..n).unwrap_or(&[]), file)
}

// The most statements of a long text, and the most records of its file.
const STATEMENTS: usize = 60000;

const RECORDS: usize = 60001;

// The bytes of one statement of the long text, and of its end.
const STATEMENT: usize = 12;

const END: usize = 11;

// The bytes of the longest text, and of its file.
const TEXT: usize = STATEMENT * STATEMENTS + END;

const FILE: usize = Record::SIZE * RECORDS;

// A long text and its file, by their numbers.
#[derive(Clone, Copy)]
struct Long {
    n: usize,
    held: usize,
    step: usize,
    odd: usize,
    put: usize,

    ghost small: { (n < 16777216) × (held < 16777216) × (step < 16777216) × (put < 16777216) },
}

impl Long {
    fn of(numbers: &[u8]) -> Self {
        Self {
            n: hex::three(numbers, 0),
            held: hex::three(numbers, 3),
            step: hex::three(numbers, 6),
            odd: hex::three(numbers, 9),
            put: hex::three(numbers, 12),
        }
    }

    // Puts the statements and the end at the front of the text: how many bytes these are.
    fn text(self, text: &mut [u8]) -> usize {
        let mut n = 0;
        for _ in 0..self.n {
            n = vectors::put(b"VERSION 5 ;\n", text, n);
        }
        vectors::put(b"END LIBRARY", text, n)
    }

    fn file(self, file: &mut [u8]) {
        let mut k = 0;
        for i in 0..self.held {
            let number = if i == self.odd { self.put } else { k };
            file::put(Record::version(STATEMENT * number, 5000000), file, i);
            k = vectors::stepped(k, self.step, self.n);
        }
    }
}
