// The index beside a record file: building it, checking one from outside, and finding a SITE block, MACRO or PIN by its owner and name.
#![tactic(auto)]

ghost use Rattle.std.specs.Prelude.{◌≡◌, true, ◌<◌};
ghost use Rattle.grammar.specs.Reading.{reading};
ghost use Rattle.refusal.specs.Table.{outcome, judgement};
ghost use Rattle.entry.specs.Entries.{count, whole};
ghost use Rattle.verdict.specs.Meaning.{Accepted};
ghost use Rattle.index.specs.Answers.{built, filled, consulted, found};
ghost use Rattle.index.specs.Queries.{room};
ghost use Rattle.index.specs.Many.{asked, answered};
ghost use Rattle.indexer.specs.Inner.{between};

use crate::differ::differ;
use crate::fill::{entered_in, fill};
use crate::many::answer_each;
use crate::search::Front;
use entry::Entry;
use index::Query;
use refusal::Refusal;

mod differ;
mod fill;
mod many;
mod search;

// The checker's refusal; else 11 with the entries needed where the buffer is too small; else the index from the front of the buffer, with
// the count of its entries. On every refusal the buffer keeps its bytes.
pub fn build(text: &[u8], records: &[u8], index: &mut [u8]) -> Result<usize, Refusal>
    ensures value { result ≡ outcome (built text.now (reading text.now) records.now (count index.old)) }
    ensures index_after { index.new ≡ filled text.now (reading text.now) records.now index.old }
{
    checker::check(text, records)?;
    build_accepted(text, records, index)
}

// The same for a record file that is accepted. The entries are counted before any is written.
fn build_accepted(text: &[u8], records: &[u8], index: &mut [u8]) -> Result<usize, Refusal>
    requires { Accepted text.now records.now }
    ensures value { result ≡ outcome (built text.now (reading text.now) records.now (count index.old)) }
    ensures index_after { index.new ≡ filled text.now (reading text.now) records.now index.old }
{
    let n = entered_in(records);
    if index.len() / Entry::SIZE < n {
        return Err(Refusal::record_room(n));
    }
    fill(records, index);
    let stop = Entry::SIZE * n;
    sorter::sort(text, &mut index[..stop]);
    Ok(n)
}

// The checker's refusal, but 13 for an index that is not in whole entries before 14 and 15; else 16 with the first position at which the
// index differs from the one that would be built.
pub fn check(text: &[u8], records: &[u8], index: &[u8]) -> Result<(), Refusal>
    ensures { result ≡ judgement (consulted text.now (reading text.now) records.now index.now) }
{
    in_rows(checker::check(text, records), index, Entry::SIZE)?;
    check_accepted(text, records, index)
}

// The same for a record file that is accepted and an index in whole entries.
fn check_accepted(text: &[u8], records: &[u8], index: &[u8]) -> Result<(), Refusal>
    requires { Accepted text.now records.now × (whole index.now ≡ true) }
    ensures { result ≡ judgement (consulted text.now (reading text.now) records.now index.now) }
{
    let position = differ(text, records, index);
    if position == index.len() / Entry::SIZE && position == entered_in(records) {
        return Ok(());
    }
    Err(Refusal::index_differs(position))
}

// Where a SITE block, MACRO or PIN of the owner and the name is, of several the first; or what checking the index refuses.
pub fn find(
    text: &[u8],
    records: &[u8],
    index: &[u8],
    owner: usize,
    name: &[u8],
) -> Result<Option<usize>, Refusal>
    ensures { result ≡ found text.now (reading text.now) records.now index.now owner name.now }
{
    check(text, records, index)?;
    let n = index.len() / Entry::SIZE;
    Ok(Front { text, index, n }.seek(owner, name))
}

// The answer of a single look-up to each query in turn, four bytes each, from the front of the buffer, and their count; or what checking
// the index refuses, but 13 for queries that are not whole before 14, and 11 last. On every refusal the buffer keeps its bytes.
pub fn find_many(
    text: &[u8],
    records: &[u8],
    index: &[u8],
    names: &[u8],
    queries: &[u8],
    answers: &mut [u8],
) -> Result<usize, Refusal>
    ensures value { result ≡ outcome (asked text.now (reading text.now) records.now index.now queries.now (room answers.old)) }
    ensures answers_after { answers.new ≡ answered text.now (reading text.now) records.now index.now names.now queries.now answers.old }
{
    in_rows(check(text, records, index), queries, Query::SIZE)?;
    let needed = queries.len() / Query::SIZE;
    if answers.len() / Query::ANSWER < needed {
        return Err(Refusal::record_room(needed));
    }
    answer_each(text, index, names, queries, answers);
    Ok(needed)
}

// An answer, but 13 for a file that is not in whole rows before 14 and all that comes later.
fn in_rows(answer: Result<(), Refusal>, file: &[u8], width: usize) -> Result<(), Refusal>
    requires { 0 < width }
    ensures { result ≡ between answer file.now width }
{
    if let Err(refusal) = answer {
        if refusal.number < Refusal::WRONG_RECORD {
            return answer;
        }
    }
    if file.len() % width != 0 {
        return Err(Refusal::not_whole(file.len()));
    }
    answer
}
