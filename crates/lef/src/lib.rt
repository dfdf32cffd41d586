// The C border of the library: calls on numbers and byte slices. Each returns the number of a refusal, 0 where there is none, and writes
// all its other results behind the pointers that it is given.
#![tactic(auto)]

ghost use Rattle.std.specs.Prelude.{◌≡◌};
ghost use Rattle.lef.specs.Border.{read_numbers, read_buffer, check_numbers, write_numbers, write_buffer, token_numbers, force_numbers, owners_numbers, held_numbers, name_span, index_numbers, index_buffer, index_check_numbers, find_numbers, find_many_numbers, find_many_buffer};

use crate::told::{byte_or, leave, nothing_written, span_of, tell};
use lexer::{Kind, Token};
use parser::take;
use record::kind;
use refusal::Refusal;

mod told;

// What stands for no index: where no record is in force, and on a refusal.
const NONE: usize = 18446744073709551615;

// What stands for no `at`: where nothing is found, and on a refusal.
const NOWHERE: usize = 4294967295;

// The records of a text, into the buffer.
pub fn lef_read(text: &[u8], records: &mut [u8], place: &mut u64, line: &mut u64) -> u64
    ensures value { result ≡ (read_numbers text.now records.old).number }
    ensures place_after { place.new ≡ (read_numbers text.now records.old).place }
    ensures line_after { line.new ≡ (read_numbers text.now records.old).line }
    ensures records_after { records.new ≡ read_buffer text.now records.old }
{
    tell(reader::reading::read(text, records), place, line)
}

// Whether a record file has the records of a text, each once, in any order.
pub fn lef_check(text: &[u8], records: &[u8], place: &mut u64, line: &mut u64) -> u64
    ensures value { result ≡ (check_numbers text.now records.now).number }
    ensures place_after { place.new ≡ (check_numbers text.now records.now).place }
    ensures line_after { line.new ≡ (check_numbers text.now records.now).line }
{
    tell(nothing_written(checker::check(text, records)), place, line)
}

// The records of a file that is accepted, as canonical text, into the buffer.
pub fn lef_write(
    text: &[u8],
    records: &[u8],
    out: &mut [u8],
    place: &mut u64,
    line: &mut u64,
) -> u64
    ensures value { result ≡ (write_numbers text.now records.now out.old).number }
    ensures place_after { place.new ≡ (write_numbers text.now records.now out.old).place }
    ensures line_after { line.new ≡ (write_numbers text.now records.now out.old).line }
    ensures out_after { out.new ≡ write_buffer text.now records.now out.old }
{
    tell(writer::write(text, records, out), place, line)
}

// The first token of a text from a place on.
pub fn lef_token(
    text: &[u8],
    from: u64,
    kind: &mut u64,
    start: &mut u64,
    stop: &mut u64,
    place: &mut u64,
    line: &mut u64,
) -> u64
    ensures value { result ≡ (token_numbers text.now from).refusal }
    ensures kind_after { kind.new ≡ (token_numbers text.now from).kind }
    ensures start_after { start.new ≡ (token_numbers text.now from).start }
    ensures stop_after { stop.new ≡ (token_numbers text.now from).stop }
    ensures place_after { place.new ≡ (token_numbers text.now from).place }
    ensures line_after { line.new ≡ (token_numbers text.now from).line }
{
    match held_first(text, from as usize) {
        Ok(t) => {
            leave(t.kind, t.start, t.stop, kind, start, stop);
            tell(Ok(0), place, line)
        }
        Err(refusal) => {
            leave(Kind::End, 0, 0, kind, start, stop);
            tell(Err(refusal), place, line)
        }
    }
}

// The token that is held first where a text is read from a place on; the end is one of no kind.
fn held_first(text: &[u8], place: usize) -> Result<Token, Refusal>
    ensures { held_numbers result ≡ token_numbers text.now place }
{
    lexer::screen(text)?;
    take::token_from(&text, place, 1)
}

// The index of the record in force for an owner and a kind, and for an option of a LAYER a code. A kind that is no byte is held by no
// record, and is asked for as one that has none in force; such a code as one that is of no option.
pub fn lef_in_force(
    records: &[u8],
    owner: u64,
    kind: u64,
    code: u64,
    index: &mut u64,
    place: &mut u64,
    line: &mut u64,
) -> u64
    ensures value { result ≡ (force_numbers records.now owner kind code).refusal }
    ensures index_after { index.new ≡ (force_numbers records.now owner kind code).index }
    ensures place_after { place.new ≡ (force_numbers records.now owner kind code).place }
    ensures line_after { line.new ≡ (force_numbers records.now owner kind code).line }
{
    match lookup::in_force(
        records,
        owner as usize,
        byte_or(kind, kind::SITE),
        byte_or(code, 0),
    ) {
        Ok(found) => {
            *index = found.unwrap_or(NONE) as u64;
            tell(Ok(0), place, line)
        }
        Err(refusal) => {
            *index = NONE as u64;
            tell(Err(refusal), place, line)
        }
    }
}

// How many owners the record at the index has.
pub fn lef_owners(
    records: &[u8],
    index: u64,
    count: &mut u64,
    place: &mut u64,
    line: &mut u64,
) -> u64
    ensures value { result ≡ (owners_numbers records.now index).refusal }
    ensures count_after { count.new ≡ (owners_numbers records.now index).count }
    ensures place_after { place.new ≡ (owners_numbers records.now index).place }
    ensures line_after { line.new ≡ (owners_numbers records.now index).line }
{
    match lookup::owners(records, index as usize) {
        Ok(n) => {
            *count = n as u64;
            tell(Ok(0), place, line)
        }
        Err(refusal) => {
            *count = 0;
            tell(Err(refusal), place, line)
        }
    }
}

// The name of the record at the index, as a span of the text.
pub fn lef_name(text: &[u8], records: &[u8], index: u64, start: &mut u64, len: &mut u64) -> u64
    ensures value { result ≡ 0 }
    ensures start_after { start.new ≡ (name_span text.now records.now index).start }
    ensures len_after { len.new ≡ (name_span text.now records.now index).len }
{
    let span = span_of(text, records, index as usize);
    *start = span.start as u64;
    *len = span.len as u64;
    0
}

// The index of a text's SITE blocks, MACROs and PINs, into the buffer.
pub fn lef_index(
    text: &[u8],
    records: &[u8],
    index: &mut [u8],
    place: &mut u64,
    line: &mut u64,
) -> u64
    ensures value { result ≡ (index_numbers text.now records.now index.old).number }
    ensures place_after { place.new ≡ (index_numbers text.now records.now index.old).place }
    ensures line_after { line.new ≡ (index_numbers text.now records.now index.old).line }
    ensures index_after { index.new ≡ index_buffer text.now records.now index.old }
{
    tell(indexer::build(text, records, index), place, line)
}

// Whether an index is the one that would be built.
pub fn lef_index_check(
    text: &[u8],
    records: &[u8],
    index: &[u8],
    place: &mut u64,
    line: &mut u64,
) -> u64
    ensures value { result ≡ (index_check_numbers text.now records.now index.now).number }
    ensures place_after { place.new ≡ (index_check_numbers text.now records.now index.now).place }
    ensures line_after { line.new ≡ (index_check_numbers text.now records.now index.now).line }
{
    let answer = indexer::check(text, records, index);
    tell(nothing_written(answer), place, line)
}

// The `at` of the first SITE block, MACRO or PIN of an owner and a name.
pub fn lef_find(
    text: &[u8],
    records: &[u8],
    index: &[u8],
    owner: u64,
    name: &[u8],
    at: &mut u64,
    place: &mut u64,
    line: &mut u64,
) -> u64
    ensures value { result ≡ (find_numbers text.now records.now index.now owner name.now).refusal }
    ensures at_after { at.new ≡ (find_numbers text.now records.now index.now owner name.now).at }
    ensures place_after { place.new ≡ (find_numbers text.now records.now index.now owner name.now).place }
    ensures line_after { line.new ≡ (find_numbers text.now records.now index.now owner name.now).line }
{
    match indexer::find(text, records, index, owner as usize, name) {
        Ok(found) => {
            *at = found.unwrap_or(NOWHERE) as u64;
            tell(Ok(0), place, line)
        }
        Err(refusal) => {
            *at = NOWHERE as u64;
            tell(Err(refusal), place, line)
        }
    }
}

// The `at` of the first SITE block, MACRO or PIN of the owner and the name of each query in turn, into the buffer.
pub fn lef_find_many(
    text: &[u8],
    records: &[u8],
    index: &[u8],
    names: &[u8],
    queries: &[u8],
    answers: &mut [u8],
    place: &mut u64,
    line: &mut u64,
) -> u64
    ensures value { result ≡ (find_many_numbers text.now records.now index.now queries.now answers.old).number }
    ensures place_after { place.new ≡ (find_many_numbers text.now records.now index.now queries.now answers.old).place }
    ensures line_after { line.new ≡ (find_many_numbers text.now records.now index.now queries.now answers.old).line }
    ensures answers_after { answers.new ≡ find_many_buffer text.now records.now index.now names.now queries.now answers.old }
{
    let answer = indexer::find_many(text, records, index, names, queries, answers);
    tell(answer, place, line)
}
