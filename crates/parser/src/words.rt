// Values of one word or two, the class of a macro and the direction of a pin; and the numbers that a value may be.
ghost use Rattle.std.specs.Prelude.{◌≡◌, cond, eqb, Some, None};
ghost use Rattle.word.specs.Codes.{code_of, values_of};
ghost use Rattle.grammar.specs.Engine.{begins, parse_second, parse_enum};
ghost use Rattle.grammar.specs.Second.{goes_on, second_key};
ghost use Rattle.parser.specs.Code.{ahead_of, as_word};

use crate::take;
use crate::take::Taken;
use lexer::{Kind, Token};
use record::kind;
use refusal::Refusal;
use word::{codes, names};

// The second word after the first word `w`, and the code of the two.
pub fn parse_second(lent: &&[u8], held: Token, kind: u8, w: u8) -> Result<(u8, Token), Refusal>
    ensures { as_word lent.now.now result ≡ parse_second kind w (ahead_of lent.now.now held) }
{
    let code = codes::code_of(kind, w, 0);
    if !goes_on(kind, w) | ((held.kind == Kind::SemiColon) & (code != 0)) {
        return Ok((code, held));
    }
    let Some(key) = second_key(w) else {
        return second_value(lent, held, kind, w);
    };
    let first = take::next_token(lent, held)?;
    let taken = Taken {
        token: held,
        held: first,
    };
    let (v, next) = taken.expect_key(lent, key)?;
    Ok((codes::code_of(kind, w, v), next))
}

// The second word as a value word.
fn second_value(lent: &&[u8], held: Token, kind: u8, w: u8) -> Result<(u8, Token), Refusal>
    ensures { as_word lent.now.now result ≡ parse_enum (λ v. cond (eqb v 0) 0 (code_of kind w v)) (ahead_of lent.now.now held) }
{
    let first = take::next_token(lent, held)?;
    let taken = Taken {
        token: held,
        held: first,
    };
    let (v, next) = taken.get_word(lent)?;
    take::coded(code_of_two(kind, w, v), next)
}

// The code of two words, of which the second must be a word.
fn code_of_two(kind: u8, w: u8, v: u8) -> u8
    ensures { result ≡ cond (eqb v 0) 0 (code_of kind w v) }
{
    if v == 0 {
        return 0;
    }
    codes::code_of(kind, w, v)
}

// The second word that is asked for as a key word.
fn second_key(w: u8) -> Option<u8>
    ensures { result ≡ cond (eqb (second_key w) 0) None (Some (second_key w)) }
{
    match w {
        names::COVER => Some(names::BUMP),
        names::OUTPUT => Some(names::TRISTATE),
        _ => None,
    }
}

// Whether some value of the kind has two words, the first of them `w`.
fn goes_on(kind: u8, w: u8) -> bool
    ensures { result ≡ goes_on (values_of kind) w }
{
    match kind {
        kind::MACRO_CLASS => [
            names::COVER,
            names::BLOCK,
            names::PAD,
            names::CORE,
            names::ENDCAP,
        ]
        .contains(&w),
        kind::DIRECTION => names::OUTPUT == w,
        _ => false,
    }
}

// Whether a value of the kind begins with the word: it is one by itself, or the first of two.
pub fn begins(kind: u8, w: u8) -> bool
    ensures { result ≡ begins (values_of kind) w }
{
    (codes::code_of(kind, w, 0) != 0) | goes_on(kind, w)
}

// The versions, 5.0 to 5.8, in millionths.
pub const VERSIONS: [u64; 9] = [
    5000000, 5100000, 5200000, 5300000, 5400000, 5500000, 5600000, 5700000, 5800000,
];

// What a unit may have, in millionths.
pub const MICRONS: [u64; 10] = [
    100000000,
    200000000,
    400000000,
    800000000,
    1000000000,
    2000000000,
    4000000000,
    8000000000,
    10000000000,
    20000000000,
];
