// What a record says, item by item of its row.
ghost use Rattle.std.specs.Prelude.{◌≡◌, not, List, ℕ, ◌-◌, ◌≤◌, ◌<◌, take, drop};
ghost use Rattle.text.specs.Text.{bytes};
ghost use Rattle.word.specs.Spelling.{spelling};
ghost use Rattle.grammar.specs.Grammar.{semi, second};
ghost use Rattle.grammar.specs.Engine.{empty};
ghost use Rattle.parser.specs.Kept.{name_in, frame_of};
ghost use Rattle.rows.specs.Packed.{key_at, item_at, items_of};
ghost use Rattle.render.specs.Pieces.{text as bytes_of};
ghost use Rattle.render.specs.Plain.{Plain, bare};
ghost use Rattle.render.specs.Says.{says, shows, any, omitted, says_all};
ghost use Rattle.render.specs.Lines.{spaced};
ghost use Rattle.lines.specs.Put.{Puts};
ghost use Rattle.lines.specs.Said.{all_said};

use crate::page::Page;
use parser::open::Frame;
use record::Record;
use rows::item;
use word::codes::{first_word, second_word};
use word::names;

// The number of a word; a number as a record stores it; a `;`; so many bytes of the text from a place on, as they stand or in quotes.
#[derive(Clone, Copy)]
enum Token {
    Word(u8),
    Number(u64),
    Semicolon,
    Name(usize, usize),
    Quoted(usize, usize),
}

impl<'t, 'b> Page<'t, 'b> {
    // What a record says by the items of a row, a byte each, in the block f. An item can leave out several after it, so no iterator gives them.
    pub(crate) fn say_all(&mut self, items: u64, f: Frame, r: Record)
        ensures { Puts self.old self.new (bytes_of (spaced (says_all 0 (frame_of self.old.text.now f).label (items_of items) (bare self.old.text.now r)))) }
    {
        let mut left = items;
        while left != 0 {
            let it = left % 256;
            self.say(it, f, r);
            left = after(self.text, it, left / 256, r);
        }
    }

    // One item. The tokens are put here, and not by a call that takes one: it would pass them through memory, and writing was measured
    // to be 8 in 100 slower.
    fn say(&mut self, it: u64, f: Frame, r: Record)
        ensures { Puts self.old self.new (bytes_of (spaced (says (frame_of self.old.text.now f).label (bare self.old.text.now r) (item_at it)))) }
    {
        match token_in(it, f, r) {
            Some(Token::Word(k)) => self.next_word(k),
            Some(Token::Number(v)) => self.next_number(v),
            Some(Token::Semicolon) => self.next_semicolon(),
            Some(Token::Name(start, len)) => self.next_name(start, len),
            Some(Token::Quoted(start, len)) => self.next_quoted(start, len),
            None => {}
        }
    }
}

// What an item says.
fn token_in(it: u64, f: Frame, r: Record) -> Option<Token>
    ensures { (s : List ℕ) → says (frame_of s f).label (bare s r) (item_at it) ≡ all_said s result }
{
    if it < item::CODE {
        return low_in(it, f, r);
    }
    if it < item::STRING {
        return None;
    }
    if item::KEY <= it {
        return Some(Token::Word(key_in(it)));
    }
    match it {
        item::WORD_MICRONS => Some(Token::Word(names::MICRONS)),
        item::WORD_UNITS => Some(Token::Word(names::UNITS)),
        _ => Some(Token::Quoted(r.name(), r.len())),
    }
}

// The items below the codes.
fn low_in(it: u64, f: Frame, r: Record) -> Option<Token>
    ensures { it < 32 → (s : List ℕ) → says (frame_of s f).label (bare s r) (item_at it) ≡ all_said s result }
{
    match it {
        item::X => Some(Token::Number(r.x())),
        item::Y => Some(Token::Number(r.y())),
        item::NAME => Some(Token::Name(r.name(), r.len())),
        item::OWN => Some(Token::Name(f.title, f.len)),
        item::VALUE => Some(Token::Word(first_word(r.kind(), r.code()))),
        item::FIRST => Some(Token::Word(first_word(r.kind(), r.code()))),
        item::FIRST_KEY => Some(Token::Word(first_word(r.kind(), r.code()))),
        item::NO_NAME => None,
        _ => rest_in(it, r.kind(), r.code()),
    }
}

// The second word of a value, and below it the bytes that no row has, which stand for a `;`.
fn rest_in(it: u64, kind: u8, code: u8) -> Option<Token>
    ensures low { it < 16 → (s label : List ℕ) (r : Plain) → says label r semi ≡ all_said s result }
    ensures high { 16 ≤ it → (s label : List ℕ) (r : Plain) → r.kind ≡ kind → r.code ≡ code → says label r second ≡ all_said s result }
{
    if it < item::NO_NAME {
        return Some(Token::Semicolon);
    }
    second_in(kind, code)
}

fn second_in(kind: u8, code: u8) -> Option<Token>
    ensures { (s label : List ℕ) (r : Plain) → r.kind ≡ kind → r.code ≡ code → says label r second ≡ all_said s result }
{
    let k = second_word(kind, code);
    if k == 0 { None } else { Some(Token::Word(k)) }
}

// The number of a key word.
fn key_in(it: u64) -> u8
    requires { 128 ≤ it }
    ensures { bytes (key_at (it - 128)) ≡ spelling result }
{
    let k = it - item::KEY;
    if (names::KEYS as u64) < k { 0 } else { k as u8 }
}

// The items after one, of which an optional part is left out where the record shows none of it.
fn after(text: &[u8], it: u64, rest: u64, r: Record) -> u64
    ensures of { items_of result ≡ drop (omitted (bare text.now r) (item_at it) (items_of rest)) (items_of rest) }
    ensures less { result ≤ rest }
{
    if (it < item::IF_MORE) | (item::WHOLE <= it) {
        return rest;
    }
    let n = it - item::IF_MORE;
    if shown(text, rest, n, r) {
        return rest;
    }
    rows::skip(rest, n)
}

// Whether the record shows one of the first n items.
fn shown(text: &[u8], items: u64, n: u64, r: Record) -> bool
    ensures { result ≡ any (shows (bare text.now r)) (take n (items_of items)) }
{
    let mut left = items;
    for _ in 0..n {
        if one_shown(text, left % 256, r) {
            return true;
        }
        left /= 256;
    }
    false
}

fn one_shown(text: &[u8], it: u64, r: Record) -> bool
    ensures { result ≡ shows (bare text.now r) (item_at it) }
{
    match it {
        item::X => r.x() != 0,
        item::Y => r.y() != 0,
        item::NAME => has_name(text, r.name(), r.len()),
        32..=47 => r.code() as u64 == it - item::CODE,
        _ => false,
    }
}

fn has_name(text: &[u8], start: usize, len: usize) -> bool
    ensures { result ≡ not (empty (name_in text.now start len)) }
{
    (0 < len) & (start < text.len())
}
