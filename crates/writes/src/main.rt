// Replays writing: each line of standard input is a letter and its fields, and the answer to it is printed on a line. Between two fields
// stands `|`. A TEXT is written as src/plain.rt of `vectors` has it, any other field in hexadecimal; what is printed of a buffer is too.
//   w ROOM TEXT FILE   the room in four digits, a text and a record file: number, place and line, and then the buffer, which was filled
//                      with `~`
//   a TEXT             a text, which is read into a file and written: what is written, or `refusal` with number, place and line
#![tactic(auto)]

use reader::reading;
use record::Record;
use refusal::Refusal;
use std::io;
use vectors::say::{Answer, Pieces};
use vectors::{hex, plain, say};

fn main(rt: HostRuntime) {
    let rt = Pieces(rt);
    vectors::for_each_line(&rt, |letter, fields| answer(&rt, letter, fields));
}

fn answer(rt: &impl Print, letter: u8, fields: &[u8]) -> io::Result<()> {
    match letter {
        b'w' => given(rt, fields),
        b'a' => again(rt, fields),
        _ => print!(rt; "?"),
    }
}

fn given(rt: &impl Print, fields: &[u8]) -> io::Result<()> {
    let Some((room, fields)) = fields.split_first_chunk::<5>() else {
        return Ok(());
    };
    let Some((text, file)) = vectors::cut(b'|', fields) else {
        return Ok(());
    };
    let mut text_room = [0; 4096];
    let mut file_room = [0; 8192];
    let mut out_room = [b'~'; 4096];
    let text = plain::decoded(text, &mut text_room);
    let file = hex::decoded(file, &mut file_room);
    let out = &mut out_room[..hex::size(&room[0..4])];
    let written = writer::write(text, file, out);
    print!(rt; "{} ", Answer(written))?;
    say::hex(rt, out)
}

// A text of at most 16,384 bytes.
fn again(rt: &impl Print, field: &[u8]) -> io::Result<()> {
    let mut room = [0; 16384];
    let mut file = vectors::zeros::<294912>();
    let mut out = vectors::zeros::<65536>();
    let text = plain::decoded(field, &mut room);
    match rewritten(text, &mut file, &mut out) {
        Ok(n) => say::hex(rt, out.get(..n).unwrap_or(&[])),
        Err(refusal) => print!(rt; "refusal {} ", Answer(Err(refusal))),
    }
}

// Reads a text into a file, and writes it: how many bytes.
fn rewritten(text: &[u8], file: &mut [u8], out: &mut [u8]) -> Result<usize, Refusal> {
    let count = reading::read(text, file)?;
    writer::write(
        text,
        file.get(..Record::SIZE.saturating_mul(count))
            .unwrap_or(&[]),
        out,
    )
}
