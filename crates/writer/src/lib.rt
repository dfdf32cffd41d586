// Writing the records of a text as its canonical text: statements in the order of the reading, one a line.
#![tactic(auto)]

ghost use Rattle.std.specs.Prelude.{◌≡◌, true, Ok, length};
ghost use Rattle.file.specs.File.{held};
ghost use Rattle.grammar.specs.Reading.{records, reading};
ghost use Rattle.reader.specs.Passed.{Begins};
ghost use Rattle.refusal.specs.Table.{outcome};
ghost use Rattle.render.specs.Written.{canonical, written, filled};
ghost use Rattle.lines.specs.Put.{Put};
ghost use Rattle.writer.specs.Told.{Answers, Reads};

use crate::pen::{write_from, write_held};
use reader::open::State;
use reader::pass::begin;
use refusal::Refusal;

mod pen;

// The checker's refusal; else 12 with the bytes needed where the buffer is too small for the text; else the text from the front of
// the buffer, and the count of its bytes. On every refusal the buffer keeps its bytes: the text is counted before any of it is written.
pub fn write(text: &[u8], file: &[u8], out: &mut [u8]) -> Result<usize, Refusal>
    ensures value { result ≡ outcome (written text.now file.now (length out.old)) }
    ensures out_after { out.new ≡ filled text.now file.now out.old }
{
    let start = begin(text)?;
    write_checked(text, start, file, out)
}

// The same from the first state on. The first time there is no room, and the bytes are only counted.
fn write_checked(text: &[u8], start: State, file: &[u8], out: &mut [u8]) -> Result<usize, Refusal>
    requires { Begins text.now (Ok start) }
    ensures { Answers text.now file.now out.old result out.new }
{
    let in_order = checker::compare(text, start, file)?;
    let mut nowhere = [0u8; 0];
    let n = write_all(text, start, file, in_order, &mut nowhere);
    if out.len() < n {
        return Err(Refusal::text_room(n));
    }
    write_all(text, start, file, in_order, out);
    Ok(n)
}

// The text of the records: of those that the file holds, where they are the reading's in its order, else of those that the text reads as.
fn write_all(text: &[u8], start: State, file: &[u8], in_order: bool, out: &mut [u8]) -> usize
    requires { Begins text.now (Ok start) × Reads text.now × (in_order ≡ true → reading text.now ≡ records (held file.now)) }
    ensures { Put out.old 0 (canonical text.now) result out.new }
{
    if in_order {
        write_held(text, start, file, out)
    } else {
        write_from(text, start, out)
    }
}
