// Reading a text: the call that hands its records out.
ghost use Rattle.std.specs.Prelude.{◌≡◌};
ghost use Rattle.refusal.specs.Table.{outcome};
ghost use Rattle.grammar.specs.Reading.{reading};
ghost use Rattle.reader.specs.Answered.{room, answered, filled};

use crate::pass::{Passed, begin, pass};
use record::Record;
use refusal::Refusal;

// More records than any text has.
const ALL: usize = 18446744073709551615;

// The records of a text, written one after the other to the front of the buffer lent, with their count.
// A refusal is of the text or of the buffer, which then keeps its bytes: the records are counted before any is written.
pub fn read(text: &[u8], records: &mut [u8]) -> Result<usize, Refusal>
    ensures value { result ≡ outcome (answered (room records.old) (reading text.now)) }
    ensures records_after { records.new ≡ filled records.old (reading text.now) }
{
    let start = begin(text)?;
    // The first pass has no room for a record, and only counts.
    let mut nowhere = [0u8; 0];
    let Passed::Over(n) = pass(text, start, &mut nowhere, ALL)? else {
        return Err(Refusal::record_room(ALL));
    };
    if records.len() / Record::SIZE < n {
        return Err(Refusal::record_room(n));
    }
    pass(text, start, records, ALL)?;
    Ok(n)
}
