// How the reading of a text is listed: its records, or its refusal, in decimal. What is written goes to the system, of which no contract can
// speak: `list` has none, and `answer` says only what it returns.
#![tactic(auto)]

ghost use Rattle.std.specs.Prelude.{◌≡◌};
ghost use Rattle.std.specs.Result.{result_ok};

use reader::reading;
use record::Record;
use refusal::Refusal;
use std::fmt;
use vectors::say::Answer;

// The listing of a text: a record on a line, and then how many there are; or the refusal. What cannot be printed is lost.
pub fn list(rt: &impl Print, text: &[u8]) {
    let mut records = [0; 65520];
    let read = reading::read(text, &mut records);
    if let Some(count) = answer(rt, read, &records, b"\n") {
        if count != 0 {
            let _ = rt.println("");
        }
        let _ = print!(rt; "{count} {}", "records");
    }
    let _ = rt.println("");
}

// The records that are read, with the mark between them, or the refusal. Says how many are read; what cannot be printed is lost.
pub fn answer(
    rt: &impl Print,
    read: Result<usize, Refusal>,
    records: &[u8],
    mark: &[u8],
) -> Option<usize>
    ensures { result ≡ result_ok read }
{
    match read {
        Ok(count) => first(rt, count, records, mark),
        Err(refusal) => {
            let _ = print!(rt; "refusal {}", Answer(Err(refusal)));
        }
    }
    read.ok()
}

// The records that are counted, with the mark between them.
fn first(rt: &impl Print, count: usize, records: &[u8], mark: &[u8]) {
    for i in 0..count {
        if i != 0 {
            let _ = rt.write_all(mark);
        }
        let _ = match file::read(records, i) {
            Some(r) => print!(rt; "{}", Listed(r)),
            None => print!(rt; "past"),
        };
    }
}

// Kind, code, place, owner or `-` for the library, name start, name length, x and y.
#[derive(Clone, Copy)]
struct Listed(Record);

impl fmt::Display for Listed {
    fn fmt<W: fmt::Write>(&self, f: &mut fmt::Formatter<W>) -> fmt::Result {
        let r = self.0;
        write!(f, "{} {} {} ", r.kind(), r.code(), r.at())?;
        match r.owner() {
            Record::LIBRARY => write!(f, "- ")?,
            owner => write!(f, "{owner} ")?,
        }
        write!(f, "{} {} ", r.name(), r.len())?;
        write!(f, "{} {}", Signed(r.x()), Signed(r.y()))
    }
}

// A number as a record stores it.
#[derive(Clone, Copy)]
struct Signed(u64);

impl fmt::Display for Signed {
    fn fmt<W: fmt::Write>(&self, f: &mut fmt::Formatter<W>) -> fmt::Result {
        let v = self.0;
        if v < 1 << 63 {
            write!(f, "{v}")
        } else {
            write!(f, "-{}", u64::MAX - v + 1)
        }
    }
}
