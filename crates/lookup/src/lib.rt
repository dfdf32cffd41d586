// Look-ups on a record file alone: the record in force, a record's name, and how many owners a record has.
#![tactic(auto)]

ghost use Rattle.std.specs.Prelude.{◌≡◌, ◌+◌, ◌/◌, ◌<◌, ◌≤◌, None, length};
ghost use Rattle.file.specs.File.{held, record_in};
ghost use Rattle.lookup.specs.First.{first};
ghost use Rattle.lookup.specs.Force.{all_count, same_option, asked, latest, told, in_force};
ghost use Rattle.lookup.specs.Name.{part, name_at};
ghost use Rattle.lookup.specs.Chain.{is_at, owners_of, owners};

use record::{Record, code, kind};
use refusal::Refusal;

// A kind of which all records count.
fn all_count(k: u8) -> bool
    ensures { result ≡ all_count k }
{
    matches!(
        k,
        kind::SITE
            | kind::SYMMETRY_WORD
            | kind::MACRO
            | kind::PIN
            | kind::ANTENNA
            | kind::PORT
            | kind::LAYER
            | kind::RECT..=kind::VIA
    )
}

// Two codes of one option of a LAYER.
fn same_option(c: u8, d: u8) -> bool
    ensures { result ≡ same_option c d }
{
    (c == code::EXCEPTPGNET) & (d == code::EXCEPTPGNET)
        | ((c == code::SPACING) | (c == code::DESIGNRULEWIDTH))
            & ((d == code::SPACING) | (d == code::DESIGNRULEWIDTH))
}

// The record is one of those that are asked for.
#[tactic(auto, unfolding(crate::specs::Force::asked))]
fn is_asked(r: Record, owner: usize, kind: u8, code: u8) -> bool
    ensures { result ≡ asked owner kind code r }
{
    r.kind() == kind
        && r.owner() == owner
        && (kind != kind::LAYER_OPTION || same_option(code, r.code()))
}

// The latest of the records that are asked for, the first of them on a tie.
fn latest(file: &[u8], owner: usize, kind: u8, code: u8) -> Option<usize>
    ensures { result ≡ told (latest (asked owner kind code) (held file.now)) }
{
    let mut best: Option<(usize, usize)> = None;
    for i in 0..file.len() / Record::SIZE {
        let r = file::at(file, i);
        if is_asked(r, owner, kind, code) && best.is_none_or(|(_, at)| at < r.at()) {
            best = Some((i, r.at()));
        }
    }
    best.map(|(i, _)| i)
}

// The index of the record in force for an owner and a kind, and for an option of a LAYER a code.
#[tactic(auto, unfolding(crate::specs::Force::in_force))]
pub fn in_force(file: &[u8], owner: usize, kind: u8, code: u8) -> Result<Option<usize>, Refusal>
    ensures { result ≡ in_force file.now owner kind code }
{
    if file.len() % Record::SIZE != 0 {
        return Err(Refusal::not_whole(file.len()));
    }
    if all_count(kind) {
        return Ok(None);
    }
    Ok(latest(file, owner, kind, code))
}

// The name of the record at the index, as that part of the text; empty where it reaches outside of the text, or the index is past
// the file.
pub fn name<'a, 'b>(text: &'a [u8], file: &'b [u8], index: usize) -> &'a [u8]
    ensures { result.now ≡ name_at text.now file.now index }
{
    let Some(r) = file::read(file, index) else {
        return &text[0..0];
    };
    part(text, r.name(), r.len())
}

// So many bytes of the text from a place on; empty where they reach outside of it.
pub fn part(text: &[u8], start: usize, len: usize) -> &[u8]
    ensures { result.now ≡ part text.now start len }
{
    text.get(start..start.saturating_add(len))
        .unwrap_or(&text[..0])
}

// The index of the first record that starts at the place.
fn first_at(file: &[u8], place: usize) -> Option<usize>
    ensures { result ≡ told (first (is_at place) (held file.now)) }
{
    for i in 0..file.len() / Record::SIZE {
        if at_in(file, i) == place {
            return Some(i);
        }
    }
    None
}

// So many owners, and those of the record at the index: up the enclosing blocks, whose `at` falls. The file is lent by one more
// reference, so that a step up needs no room on the stack.
fn climb(lent: &&[u8], index: usize, count: usize) -> usize
    requires { (index < length lent.now.now / 36) × (count + (record_in lent.now.now index).at < 4294967296) }
    ensures { result ≡ count + owners_of (held lent.now.now) (record_in lent.now.now index) }
{
    match owner_index(lent, index) {
        Some(next) => climb(lent, next, count + 1),
        None => count,
    }
}

// The index of the first record that owns the one at the index; none where the owner is not below, or is not there.
fn owner_index(file: &[u8], index: usize) -> Option<usize>
    requires { index < length file.now / 36 }
    ensures ended { (record_in file.now index).at ≤ (record_in file.now index).owner → result ≡ None }
    ensures below { (record_in file.now index).owner < (record_in file.now index).at → result ≡ told (first (is_at (record_in file.now index).owner) (held file.now)) }
{
    if at_in(file, index) <= owner_in(file, index) {
        return None;
    }
    first_at(file, owner_in(file, index))
}

// The `at` of the record at the index. A step up holds two numbers and no record, so that it takes little of the stack where calls that
// end a function are not made jumps.
fn at_in(file: &[u8], index: usize) -> usize
    requires { index < length file.now / 36 }
    ensures { result ≡ (record_in file.now index).at }
{
    little::word32(rowfile::row(file, Record::SIZE, index), Record::AT)
}

// And its owner.
fn owner_in(file: &[u8], index: usize) -> usize
    requires { index < length file.now / 36 }
    ensures { result ≡ (record_in file.now index).owner }
{
    little::word32(rowfile::row(file, Record::SIZE, index), Record::OWNER)
}

// How many owners the record at the index has, out to the library.
pub fn owners(file: &[u8], index: usize) -> Result<usize, Refusal>
    ensures { result ≡ owners file.now index }
{
    let length = file.len();
    if length % Record::SIZE != 0 {
        return Err(Refusal::not_whole(length));
    }
    if length / Record::SIZE <= index {
        return Ok(0);
    }
    Ok(climb(&file, index, 0))
}
