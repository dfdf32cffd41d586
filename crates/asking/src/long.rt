// A long text of one macro with many pins, and its index.
ghost use Rattle.std.specs.Prelude.{◌<◌, ◌≤◌};

use entry::Entry;
use index::Query;
use reader::reading;
use record::Record;
use std::io;
use vectors::hex;
use vectors::say::{Answer, Found};

// The most pins.
const PINS: usize = 20000;

// The bytes before the first pin, of one pin, and after the last.
const HEAD: usize = 8;

const PIN: usize = 20;

const TAIL: usize = 18;

// The bytes of the longest text, of its file and its index, and of a query for each entry and its answer.
const TEXT: usize = HEAD + PIN * PINS + TAIL;

const FILE: usize = Record::SIZE * (PINS + 1);

const ENTRIES: usize = Entry::SIZE * (PINS + 1);

const QUERIES: usize = Query::SIZE * (PINS + 1);

const ANSWERS: usize = Query::ANSWER * (PINS + 1);

// What is said of a long text, by its numbers; all pins are found in one call as well, where that is asked. Two letters differ in `all` alone, and
// a closure for that call would be handed five things.
pub(crate) fn made(rt: &impl Print, digits: &[u8], all: bool) -> io::Result<()> {
    let long = Long::of(&hex::array::<15>(digits));
    if PINS < long.n {
        return Ok(());
    }
    let mut text = vectors::zeros::<TEXT>();
    let mut file = vectors::zeros::<FILE>();
    let n = long.text(&mut text);
    let text = text.get(..n).unwrap_or(&[]);
    let Ok(records) = reading::read(text, &mut file) else {
        return Ok(());
    };
    let file = file.get(..Record::SIZE.saturating_mul(records));
    long.indexed(rt, text, file.unwrap_or(&[]), all)
}

// A long text, by its numbers.
#[derive(Clone, Copy)]
struct Long {
    n: usize,
    step: usize,
    names: usize,
    odd: usize,
    put: usize,

    ghost small: { (n < 16777216) × (step < 16777216) × (names < 16777216) },
}

impl Long {
    fn of(numbers: &[u8]) -> Self {
        Self {
            n: hex::three(numbers, 0),
            step: hex::three(numbers, 3),
            names: hex::three(numbers, 6),
            odd: hex::three(numbers, 9),
            put: hex::three(numbers, 12),
        }
    }

    // Puts the macro with its pins at the front of the text: how many bytes these are.
    fn text(self, text: &mut [u8]) -> usize {
        let mut n = vectors::put(b"MACRO m\n", text, 0);
        let mut k = 0;
        for _ in 0..self.n {
            let name = name(k);
            n = vectors::put(b"PIN ", text, n);
            n = vectors::put(&name, text, n);
            n = vectors::put(b" END ", text, n);
            n = vectors::put(&name, text, n);
            n = vectors::put(b"\n", text, n);
            k = vectors::stepped(k, self.step, self.names);
        }
        vectors::put(b"END m\nEND LIBRARY\n", text, n)
    }

    fn indexed(self, rt: &impl Print, text: &[u8], file: &[u8], all: bool) -> io::Result<()> {
        let mut room = vectors::zeros::<ENTRIES>();
        let built = indexer::build(text, file, &mut room);
        print!(rt; ";{} ", Answer(built))?;
        let Some(index) = room.get_mut(..Entry::SIZE.saturating_mul(built.unwrap_or(0))) else {
            return Ok(());
        };
        print!(rt; "{} ", sum(index))?;
        self.confuse(rt, text, file, index, all)
    }

    // Finds a pin, and all pins where that is asked, and checks the index with one entry in the place of another.
    fn confuse(
        self,
        rt: &impl Print,
        text: &[u8],
        file: &[u8],
        index: &mut [u8],
        all: bool,
    ) -> io::Result<()> {
        let found = indexer::find(text, file, index, 0, &name(self.put));
        print!(rt; ";{}", Found(found))?;
        if all {
            print!(rt; ";")?;
            every(rt, text, file, index, index.len() / Entry::SIZE)?;
        }
        double(index, self.put, self.odd);
        let checked = indexer::check(text, file, index);
        print!(rt; ";{} ", Answer(checked.map(|()| 0)))
    }
}

// The name of a number: `p` and four letters, of which each is four bits.
fn name(k: usize) -> [u8; 5] {
    [
        b'p',
        letter(k / 4096),
        letter(k / 256),
        letter(k / 16),
        letter(k),
    ]
}

fn letter(k: usize) -> u8 {
    b'a' + (k % 16) as u8
}

// A sum that tells an order from another.
fn sum(bytes: &[u8]) -> u64 {
    let mut sum = 0;
    for b in bytes {
        sum = (31 * sum + u64::from(*b)) % 16777213;
    }
    sum
}

// Puts the entry at one position at another as well.
fn double(index: &mut [u8], from: usize, to: usize) {
    if from < index.len() / Entry::SIZE {
        let e = entry::read(index, from);
        entry::put(e, index, to);
    }
}

// As many queries as there are entries: one for each pin, by its name in the text, and one by what stands in the place of another pin's.
fn every(rt: &impl Print, text: &[u8], file: &[u8], index: &[u8], n: usize) -> io::Result<()> {
    if n <= 20001 {
        let mut query_room = vectors::zeros::<QUERIES>();
        let mut answer_room = vectors::zeros::<ANSWERS>();
        let queries = &mut query_room[..Query::SIZE * n];
        let answers = &mut answer_room[..Query::ANSWER * n];
        ask(n, queries);
        let found = indexer::find_many(text, file, index, text, queries, answers);
        print!(rt; "{} {} ", Answer(found), sum(answers))?;
    }
    Ok(())
}

// Puts so many queries in a buffer; their owner is the macro, which is at nought.
fn ask(n: usize, queries: &mut [u8])
    requires { n ≤ 20001 }
{
    for i in 0..n {
        let start = (HEAD + PIN * i + 4) as u64;
        little::lay(queries, Query::SIZE * i + Query::START, 4, start);
        little::lay(queries, Query::SIZE * i + Query::LEN, 4, 5);
    }
}
