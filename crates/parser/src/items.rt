// The items of a row in turn.
ghost use Rattle.std.specs.Prelude.{◌≡◌, List, ℕ, ◌-◌, ◌≤◌, ◌<◌};
ghost use Rattle.grammar.specs.Grammar as G;
ghost use Rattle.grammar.specs.Tokens.{Ahead};
ghost use Rattle.grammar.specs.Engine.{Frame as Open, Draft, item, items, passed};
ghost use Rattle.grammar.specs.Reading.{Mark};
ghost use Rattle.word.specs.Words.{word};
ghost use Rattle.rows.specs.Packed.{key_at, item_at, items_of};
ghost use Rattle.parser.specs.Code.{ahead_of, Took};
ghost use Rattle.parser.specs.Kept.{frame_of};
ghost use Rattle.parser.specs.Drafts.{draft_of, as_drafted, flatly, shown, emptied};

use crate::draft::Sketch;
use crate::open::Frame;
use crate::take::Taken;
use crate::{draft, take, value, words};
use lexer::{Kind, Token};
use refusal::Refusal;
use rows::item;
use word::names;

// The items of a list, for a record of the kind in the block f.
pub fn items(
    lent: &&[u8],
    list: u64,
    kind: u8,
    f: Frame,
    held: Token,
) -> Result<(Sketch, Token), Refusal>
    ensures { (b : Draft ℕ) → b.rec.kind ≡ kind → shown (as_drafted lent.now.now b result) ≡ shown (items 0 (frame_of lent.now.now f) (items_of list) (emptied b) (ahead_of lent.now.now held)) }
{
    let mut d = Sketch {
        name: 0,
        len: 0,
        x: 0,
        y: 0,
        code: 0,
        first: 0,
    };
    let mut t = held;
    let mut s = list;
    while s != 0 {
        let it = s % 256;
        if (item::NO_NAME <= it) & (it < item::STRING) {
            (d, t) = looked(lent, it, kind, f, d, t)?;
            s = rows::skip(s / 256, passed(it, t));
        } else {
            let next = take::next_near(lent, t)?;
            let taken = Taken {
                token: t,
                held: next,
            };
            (d, _) = judged(lent, it, kind, f, d, taken)?;
            t = next;
            s /= 256;
        }
    }
    Ok((d, t))
}

// How many of the items that follow are passed over.
fn passed(it: u64, held: Token) -> u64
    ensures { (s : List ℕ) → result ≡ passed (item_at it) (ahead_of s held) }
{
    if it < item::IF_MORE {
        return 0;
    }
    if item::WHOLE <= it {
        return 0;
    }
    if held.kind == Kind::SemiColon {
        it - item::IF_MORE
    } else {
        0
    }
}

// An item that need not take a token: those of the bytes from 16 to 95.
fn looked(
    lent: &&[u8],
    it: u64,
    kind: u8,
    f: Frame,
    d: Sketch,
    held: Token,
) -> Result<(Sketch, Token), Refusal>
    ensures { (b : Draft ℕ) → b.rec.kind ≡ kind → 16 ≤ it → it < 96 → as_drafted lent.now.now b result ≡ flatly (item (frame_of lent.now.now f) (item_at it) (draft_of lent.now.now b d) (ahead_of lent.now.now held)) }
{
    if it == item::NO_NAME {
        return draft::no_name(d, held);
    }
    if it < item::CODE {
        return value::to_second(lent, kind, d, held);
    }
    if it < item::IF_MORE {
        return Ok((
            Sketch {
                code: it - item::CODE,
                ..d
            },
            held,
        ));
    }
    if it < item::WHOLE {
        return Ok((d, held));
    }
    if it < item::VERSIONS {
        return draft::to_whole((it - item::WHOLE) as usize, f.lacks, d, held);
    }
    among(it, d, held)
}

// An item that takes the token held: those of the other bytes. After it `next` is held.
fn judged(
    lent: &&[u8],
    it: u64,
    kind: u8,
    f: Frame,
    d: Sketch,
    t: Taken,
) -> Result<(Sketch, Token), Refusal>
    ensures { (b : Draft ℕ) (a : Ahead ℕ Mark) → Took lent.now.now t.token t.held a → b.rec.kind ≡ kind → (16 ≤ it → 96 ≤ it) → as_drafted lent.now.now b result ≡ flatly (item (frame_of lent.now.now f) (item_at it) (draft_of lent.now.now b d) a) }
{
    match it {
        item::X | item::Y => draft::to_number(lent, it, d, t),
        item::NAME => draft::to_name(d, t),
        item::OWN => draft::to_own(lent, f.title, f.len, d, t),
        item::VALUE => value::to_value(lent, kind, d, t),
        item::FIRST => value::to_first(lent, kind, d, t),
        item::FIRST_KEY => value::to_first_key(lent, kind, d, t),
        _ => asked(lent, it, d, t),
    }
}

// The `;`, a string, or a word by its number.
fn asked(lent: &&[u8], it: u64, d: Sketch, t: Taken) -> Result<(Sketch, Token), Refusal>
    ensures { (f : Open ℕ) (b : Draft ℕ) (a : Ahead ℕ Mark) → Took lent.now.now t.token t.held a → (it < 96 → item_at it ≡ G.semi) → as_drafted lent.now.now b result ≡ flatly (item f (item_at it) (draft_of lent.now.now b d) a) }
{
    if it < item::STRING {
        return draft::to_semi(d, t);
    }
    if it < item::KEY {
        return spelt(lent, it, d, t);
    }
    draft::unchanged(d, t.expect_key(lent, key_of(it)))
}

// The number of the key word that an item asks for, or 0.
fn key_of(it: u64) -> u8
    ensures { 128 ≤ it → word (key_at (it - 128)) ≡ result }
{
    if it < item::KEY {
        return 0;
    }
    if item::KEY + (names::KEYS as u64) < it {
        return 0;
    }
    (it - item::KEY) as u8
}

// x is one of the numbers that the item lists.
fn among(it: u64, d: Sketch, held: Token) -> Result<(Sketch, Token), Refusal>
    ensures { (s : List ℕ) (f : Open ℕ) (b : Draft ℕ) → 80 ≤ it → it < 96 → as_drafted s b result ≡ flatly (item f (item_at it) (draft_of s b d) (ahead_of s held)) }
{
    if it == item::VERSIONS {
        return draft::to_among(&words::VERSIONS, d, held);
    }
    draft::to_among(&words::MICRONS, d, held)
}

// A string of so many bytes, or a word that need not be a key word.
fn spelt(lent: &&[u8], it: u64, d: Sketch, t: Taken) -> Result<(Sketch, Token), Refusal>
    requires { (96 ≤ it) × (it < 128) }
    ensures { (f : Open ℕ) (b : Draft ℕ) (a : Ahead ℕ Mark) → Took lent.now.now t.token t.held a → as_drafted lent.now.now b result ≡ flatly (item f (item_at it) (draft_of lent.now.now b d) a) }
{
    if it == item::WORD_MICRONS {
        return draft::unchanged(d, t.expect_keyword(lent, names::MICRONS));
    }
    if it == item::WORD_UNITS {
        return draft::unchanged(d, t.expect_keyword(lent, names::UNITS));
    }
    draft::to_string(lent, it - item::STRING, d, t)
}
