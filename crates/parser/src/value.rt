// The items that are words of a value: one word, or the first and the second of two.
ghost use Rattle.std.specs.Prelude.{◌≡◌, cond, List, ℕ};
ghost use Rattle.grammar.specs.Grammar as G;
ghost use Rattle.grammar.specs.Tokens.{Ahead, ok, complain};
ghost use Rattle.grammar.specs.Engine.{Frame, Draft, set_first, item};
ghost use Rattle.grammar.specs.Reading.{Mark};
ghost use Rattle.parser.specs.Code.{ahead_of, Took};
ghost use Rattle.parser.specs.Drafts.{draft_of, as_drafted, flatly};

use crate::draft::Sketch;
use crate::take::Taken;
use crate::{take, words};
use lexer::Token;
use refusal::Refusal;

// A value word of the record's kind.
pub fn to_value(lent: &&[u8], kind: u8, d: Sketch, t: Taken) -> Result<(Sketch, Token), Refusal>
    ensures { (f : Frame ℕ) (b : Draft ℕ) (a : Ahead ℕ Mark) → Took lent.now.now t.token t.held a → b.rec.kind ≡ kind → as_drafted lent.now.now b result ≡ flatly (item f G.value (draft_of lent.now.now b d) a) }
{
    let (code, next) = t.parse_enum(lent, kind)?;
    Ok((
        Sketch {
            code: code as u64,
            ..d
        },
        next,
    ))
}

// The first word of a value.
pub fn to_first(lent: &&[u8], kind: u8, d: Sketch, t: Taken) -> Result<(Sketch, Token), Refusal>
    ensures { (f : Frame ℕ) (b : Draft ℕ) (a : Ahead ℕ Mark) → Took lent.now.now t.token t.held a → b.rec.kind ≡ kind → as_drafted lent.now.now b result ≡ flatly (item f G.first (draft_of lent.now.now b d) a) }
{
    let (w, next) = t.get_word(lent)?;
    begun(words::begins(kind, w), w, d, next)
}

// The same, as a key word.
pub fn to_first_key(lent: &&[u8], kind: u8, d: Sketch, t: Taken) -> Result<(Sketch, Token), Refusal>
    ensures { (f : Frame ℕ) (b : Draft ℕ) (a : Ahead ℕ Mark) → Took lent.now.now t.token t.held a → b.rec.kind ≡ kind → as_drafted lent.now.now b result ≡ flatly (item f G.first_key (draft_of lent.now.now b d) a) }
{
    let (w, next) = t.get_key(lent)?;
    begun(words::begins(kind, w), w, d, next)
}

// The word begins a value, or is refused.
fn begun(begins: bool, first: u8, d: Sketch, next: Token) -> Result<(Sketch, Token), Refusal>
    ensures { (s : List ℕ) (b : Draft ℕ) → as_drafted s b result ≡ cond begins (ok (set_first first (draft_of s b d)) (ahead_of s next)) (complain 6 (ahead_of s next)) }
{
    if begins {
        return Ok((
            Sketch {
                first: first as u64,
                ..d
            },
            next,
        ));
    }
    Err(take::complain(6, next))
}

// What stands after the first word.
pub fn to_second(lent: &&[u8], kind: u8, d: Sketch, held: Token) -> Result<(Sketch, Token), Refusal>
    ensures { (f : Frame ℕ) (b : Draft ℕ) → b.rec.kind ≡ kind → as_drafted lent.now.now b result ≡ flatly (item f G.second (draft_of lent.now.now b d) (ahead_of lent.now.now held)) }
{
    let (code, next) = words::parse_second(lent, held, kind, (d.first % 256) as u8)?;
    Ok((
        Sketch {
            code: code as u64,
            ..d
        },
        next,
    ))
}
