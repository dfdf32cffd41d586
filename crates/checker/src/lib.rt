// Checking a record file against a text: whether it has the records of the reading, each once, in any order.
#![tactic(auto)]

ghost use Rattle.std.specs.Prelude.{◌≡◌, true, Ok};
ghost use Rattle.refusal.specs.Table.{judgement};
ghost use Rattle.file.specs.File.{held};
ghost use Rattle.grammar.specs.Reading.{records, reading};
ghost use Rattle.reader.specs.Passed.{Sound, read_from};
ghost use Rattle.verdict.specs.Verdict.{checked};
ghost use Rattle.checker.specs.Passing.{accepted};

use crate::order::in_order;
use crate::windows::by_windows;
use reader::open::State;
use reader::pass::begin;
use record::Record;
use refusal::Refusal;

mod held;
mod order;
mod window;
mod windows;

// The refusal of the text; else 13 where the file is no whole number of records; else 14 with the index of its first record that is
// foreign or equal to an earlier one; else 15 with the `at` of the first record that is lacking.
pub fn check(text: &[u8], file: &[u8]) -> Result<(), Refusal>
    ensures { result ≡ judgement (checked (reading text.now) file.now) }
{
    let start = begin(text)?;
    compare(text, start, file)?;
    Ok(())
}

// The same from the first state on. A file that is accepted has its records in the reading's order, or in another.
pub fn compare(text: &[u8], start: State, file: &[u8]) -> Result<bool, Refusal>
    requires { (reading text.now ≡ read_from text.now start) × Sound text.now start }
    ensures of { accepted result ≡ judgement (checked (reading text.now) file.now) }
    ensures held { result ≡ Ok true → reading text.now ≡ records (held file.now) }
{
    let same = in_order(text, start, file)?;
    if file.len() % Record::SIZE != 0 {
        return Err(Refusal::not_whole(file.len()));
    }
    if !same {
        by_windows(text, start, file)?;
    }
    Ok(same)
}
