// The items one by one: what each takes, and what it sets of the record that is being read.
ghost use Rattle.std.specs.Prelude.{◌≡◌, List, ℕ, ◌+◌, ◌-◌, ◌<◌, ltb, length};
ghost use Rattle.grammar.specs.Grammar as G;
ghost use Rattle.grammar.specs.Tokens.{Ahead, ok, then};
ghost use Rattle.grammar.specs.Engine.{Frame, Draft, empty, item};
ghost use Rattle.grammar.specs.Reading.{Mark};
ghost use Rattle.parser.specs.Code.{ahead_of, Took, as_word};
ghost use Rattle.parser.specs.Kept.{name_in};
ghost use Rattle.parser.specs.Drafts.{draft_of, as_drafted, flatly};

use crate::take;
use crate::take::Taken;
use lexer::{Kind, Token};
use refusal::Refusal;
use rows::item;

// What the items have set so far: where the name stands, the numbers, the code, and the first word of a value. Of these
// the code and the first word are bytes and have 64 bits each, since a byte just stored is slow to copy as a part of something wider.
#[derive(Clone, Copy)]
pub struct Sketch {
    pub name: usize,
    pub len: usize,
    pub x: u64,
    pub y: u64,
    pub code: u64,
    pub first: u64,
}

// A number, as x or as y.
pub(crate) fn to_number(
    lent: &&[u8],
    it: u64,
    d: Sketch,
    t: Taken,
) -> Result<(Sketch, Token), Refusal>
    ensures x { it ≡ 1 → (f : Frame ℕ) (b : Draft ℕ) (a : Ahead ℕ Mark) → Took lent.now.now t.token t.held a → as_drafted lent.now.now b result ≡ flatly (item f G.x (draft_of lent.now.now b d) a) }
    ensures y { it ≡ 2 → (f : Frame ℕ) (b : Draft ℕ) (a : Ahead ℕ Mark) → Took lent.now.now t.token t.held a → as_drafted lent.now.now b result ≡ flatly (item f G.y (draft_of lent.now.now b d) a) }
{
    let (v, next) = t.parse_number(lent)?;
    if it == item::X {
        return Ok((Sketch { x: v, ..d }, next));
    }
    Ok((Sketch { y: v, ..d }, next))
}

pub(crate) fn to_semi(d: Sketch, t: Taken) -> Result<(Sketch, Token), Refusal>
    ensures { (s : List ℕ) (f : Frame ℕ) (b : Draft ℕ) (a : Ahead ℕ Mark) → Took s t.token t.held a → as_drafted s b result ≡ flatly (item f G.semi (draft_of s b d) a) }
{
    let next = t.expect(Kind::SemiColon)?;
    Ok((d, next))
}

// The record's name.
pub(crate) fn to_name(d: Sketch, t: Taken) -> Result<(Sketch, Token), Refusal>
    ensures { (s : List ℕ) (f : Frame ℕ) (b : Draft ℕ) (a : Ahead ℕ Mark) → Took s t.token t.held a → as_drafted s b result ≡ flatly (item f G.name (draft_of s b d) a) }
{
    let next = t.get_name()?;
    Ok((
        Sketch {
            name: t.token.start,
            len: t.token.stop.saturating_sub(t.token.start),
            ..d
        },
        next,
    ))
}

// The block's name again.
pub(crate) fn to_own(
    lent: &&[u8],
    title: usize,
    len: usize,
    d: Sketch,
    t: Taken,
) -> Result<(Sketch, Token), Refusal>
    ensures { (f : Frame ℕ) (b : Draft ℕ) (a : Ahead ℕ Mark) → Took lent.now.now t.token t.held a → f.label ≡ name_in lent.now.now title len → as_drafted lent.now.now b result ≡ flatly (item f G.own (draft_of lent.now.now b d) a) }
{
    let next = t.expect_ident(lent, title, len)?;
    Ok((d, next))
}

// So many bytes in quotes, as the record's name.
pub(crate) fn to_string(
    lent: &&[u8],
    n: u64,
    d: Sketch,
    t: Taken,
) -> Result<(Sketch, Token), Refusal>
    requires { n < 256 }
    ensures { (f : Frame ℕ) (b : Draft ℕ) (a : Ahead ℕ Mark) → Took lent.now.now t.token t.held a → as_drafted lent.now.now b result ≡ flatly (item f (G.string n) (draft_of lent.now.now b d) a) }
{
    let next = t.expect(Kind::StringLiteral)?;
    if take::txt(*lent, t.token).len() != (n + 2) as usize {
        return Err(take::complain(6, next));
    }
    Ok((
        Sketch {
            name: t.token.start + 1,
            len: n as usize,
            ..d
        },
        next,
    ))
}

// Nothing is set by a word that was asked for.
pub(crate) fn unchanged(
    d: Sketch,
    taken: Result<(u8, Token), Refusal>,
) -> Result<(Sketch, Token), Refusal>
    ensures { (s : List ℕ) (b : Draft ℕ) → as_drafted s b result ≡ then (as_word s taken) (λ n a. ok (draft_of s b d) a) }
{
    let (_, next) = taken?;
    Ok((d, next))
}

// No name may be held.
pub(crate) fn no_name(d: Sketch, held: Token) -> Result<(Sketch, Token), Refusal>
    ensures { (s : List ℕ) (f : Frame ℕ) (b : Draft ℕ) → as_drafted s b result ≡ flatly (item f G.no_name (draft_of s b d) (ahead_of s held)) }
{
    if held.kind == Kind::Name {
        return Err(take::complain(8, held));
    }
    Ok((d, held))
}

// The block may lack nothing.
pub(crate) fn to_whole(
    number: usize,
    lacks: u64,
    d: Sketch,
    held: Token,
) -> Result<(Sketch, Token), Refusal>
    ensures { (s : List ℕ) (f : Frame ℕ) (b : Draft ℕ) → empty f.lacks ≡ ltb lacks 256 → as_drafted s b result ≡ flatly (item f (G.whole number) (draft_of s b d) (ahead_of s held)) }
{
    if lacks < 256 {
        return Ok((d, held));
    }
    Err(take::complain(number, held))
}

// x must be one of the numbers.
pub(crate) fn to_among(numbers: &[u64], d: Sketch, held: Token) -> Result<(Sketch, Token), Refusal>
    ensures { (s : List ℕ) (f : Frame ℕ) (b : Draft ℕ) → as_drafted s b result ≡ flatly (item f (G.among numbers.now) (draft_of s b d) (ahead_of s held)) }
{
    if numbers.contains(&d.x) {
        return Ok((d, held));
    }
    Err(take::complain(6, held))
}
