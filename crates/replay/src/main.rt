// Replays vectors: each line of standard input is a letter and its fields, and the answer to it is printed on a line. Between two fields
// stands `|`. A TEXT is written as src/plain.rt of `vectors` has it, any other field in hexadecimal.
//   t TEXT           all tokens of a text, each as kind, start, stop and line; then `end`, or `bad` with place and line
//   f PLACE TEXT     the first token from a place (one byte), as refusal, place, line, kind, start, stop
//   n TEXT           a numeral as its sign and millionths, or `not`; then the shortest numeral of that value
//   w TEXT           the number of a key word, `value` for another word that is known, or `none`
//   c KIND TEXT      the code of a value of a kind of record (one byte): a word, or two with a space between them
//   l TEXT           the reading of a text: its records with `;` between them, each as the listing has it; or `refusal`, number, place, line
//   p NUMBER TEXT    a run of the listing, after its number (one byte)
//   r FILE           the records of a record file: the fields of each, then the bytes of a buffer of two records after it was put second
#![tactic(auto)]

use lexer::Lexed;
use reader::reading;
use record::Record;
use std::io;
use vectors::say::{Numbers, Pieces};
use vectors::{hex, plain};

// The bytes of a text or a file that are looked at.
const MOST: usize = 8192;

// The records that there is room for: a statement has two bytes at the least.
const RECORDS: usize = 4096;

fn main(rt: HostRuntime) {
    let rt = Pieces(rt);
    vectors::for_each_line(&rt, |letter, fields| answer(&rt, letter, fields));
}

fn answer(rt: &impl Print, letter: u8, fields: &[u8]) -> io::Result<()> {
    match letter {
        b'f' | b'c' | b'p' => numbered(rt, letter, fields),
        b'r' => records(rt, fields),
        _ => written(rt, letter, fields),
    }
}

fn written(rt: &impl Print, letter: u8, field: &[u8]) -> io::Result<()> {
    let mut room = [0; MOST];
    let text = plain::decoded(field, &mut room);
    match letter {
        b't' => tokens(rt, text),
        b'n' => value(rt, text),
        b'w' => word(rt, text),
        b'l' => reading(rt, text),
        _ => print!(rt; "?"),
    }
}

fn numbered(rt: &impl Print, letter: u8, fields: &[u8]) -> io::Result<()> {
    let Some((given, field)) = fields.split_first_chunk::<3>() else {
        return Ok(());
    };
    let [number] = hex::array::<1>(&given[0..2]);
    let mut room = [0; MOST];
    let text = plain::decoded(field, &mut room);
    match letter {
        b'f' => first(rt, number, text),
        b'c' => code(rt, number, text),
        _ => run(rt, number, text),
    }
}

fn tokens(rt: &impl Print, text: &[u8]) -> io::Result<()> {
    let mut at = 0;
    let mut line = 1;
    for _ in 0..=text.len() {
        match lexer::lex(text, at, line) {
            Lexed::Found(t) => {
                print!(rt; "{} {} {} {} ", t.kind as usize, t.start, t.stop, t.line)?;
                at = t.stop;
                line = t.line;
            }
            Lexed::End(_) => return print!(rt; "end"),
            Lexed::Bad(place, line) => return print!(rt; "bad {place} {line} "),
        }
    }
    Ok(())
}

fn first(rt: &impl Print, place: u8, text: &[u8]) -> io::Result<()> {
    let numbers = match lexer::first_token(text, usize::from(place)) {
        Ok(Some(t)) => [0, 0, 0, t.kind as usize, t.start, t.stop],
        Ok(None) => [0, 0, 0, 0, text.len(), text.len()],
        Err(r) => [r.number, r.place, r.line, 0, 0, 0],
    };
    print!(rt; "{}", Numbers(&numbers))
}

fn value(rt: &impl Print, text: &[u8]) -> io::Result<()> {
    let Some(value) = numeral::numeral(text) else {
        return print!(rt; "not");
    };
    let sign = if value.negative { "- " } else { "+ " };
    print!(rt; "{sign}{} ", value.millionths)?;
    let mut shortest = [0; 24];
    match numeral::put(value, &mut shortest, 0) {
        Some(stop) => rt.write_all(shortest.get(..stop).unwrap_or(&[])),
        None => print!(rt; "no room"),
    }
}

fn word(rt: &impl Print, text: &[u8]) -> io::Result<()> {
    match word::word_of(text) {
        0 => print!(rt; "none"),
        k if word::is_key(k) => print!(rt; "{k} "),
        _ => print!(rt; "value"),
    }
}

fn code(rt: &impl Print, kind: u8, text: &[u8]) -> io::Result<()> {
    let (first, second) = match vectors::cut(b' ', text) {
        Some((first, second)) => (first, word::word_of(second)),
        None => (text, 0),
    };
    print!(rt;
        "{} ",
        word::codes::code_of(kind, word::word_of(first), second)
    )
}

fn reading(rt: &impl Print, text: &[u8]) -> io::Result<()> {
    let mut records = [0; Record::SIZE * RECORDS];
    let read = reading::read(text, &mut records);
    listing::answer(rt, read, &records, b";");
    Ok(())
}

fn run(rt: &impl Print, number: u8, text: &[u8]) -> io::Result<()> {
    println!(rt; "run {number} ")?;
    listing::list(rt, text);
    Ok(())
}

fn records(rt: &impl Print, digits: &[u8]) -> io::Result<()> {
    let mut room = [0; MOST];
    let file = hex::decoded(digits, &mut room);
    for i in 0..8 {
        match file::read(file, i) {
            Some(r) => record(rt, r)?,
            None => return print!(rt; "past"),
        }
    }
    Ok(())
}

fn record(rt: &impl Print, r: Record) -> io::Result<()> {
    print!(rt; "{} {} {} {} ", r.kind(), r.code(), r.at(), r.owner())?;
    print!(rt; "{} {} {} {} ", r.name(), r.len(), r.x(), r.y())?;
    let mut copy = [0; 2 * Record::SIZE];
    if file::put(r, &mut copy, 1) {
        print!(rt; "{}", Numbers(&copy))?;
    }
    Ok(())
}
