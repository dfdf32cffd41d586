// Taking tokens, as the original's parser does: the token held is handed in, and the one held next comes back. Taking first
// reads the next token, so a byte that starts none is refused before any complaint about the token taken. The text is lent by one
// more reference, which is handed on as it is: a word for each call where the slice itself takes two, since the reader's stack
// stays below 16 KB.
ghost use Rattle.std.specs.Prelude.{◌≡◌, cond, eqb, List, ℕ};
ghost use Rattle.lexer.specs.Kinds.{number_of};
ghost use Rattle.lexer.specs.Lex.{lex_from};
ghost use Rattle.grammar.specs.Tokens.{Ahead, ok, complain, expect, next_token};
ghost use Rattle.grammar.specs.Engine.{get_name, get_key, expect_key, expect_keyword, expect_ident, parse_number, coded, parse_enum};
ghost use Rattle.grammar.specs.Reading.{Mark};
ghost use Rattle.parser.specs.Code.{bytes_of, complaint, get_word, ahead_of, Took, held_next, as_taken, as_number, as_word};
ghost use Rattle.parser.specs.Kept.{name_in};
ghost use Rattle.word.specs.Codes.{code_of};

use lexer::{Kind, Lexed, Token};
use refusal::Refusal;

// A token that is taken, and the one that is then held.
#[derive(Clone, Copy)]
pub struct Taken {
    pub token: Token,
    pub held: Token,
}

// A complaint while the token is held.
pub fn complain(number: usize, held: Token) -> Refusal
    ensures { result ≡ complaint number held }
{
    Refusal {
        number,
        place: held.stop,
        line: held.line,
    }
}

// What the lexer finds, as the token that is then held: the end of the text has a kind of its own.
fn hold(text: &[u8], found: Lexed) -> Result<Token, Refusal>
    ensures { result ≡ held_next text.now found }
{
    match found {
        Lexed::Found(t) => Ok(t),
        Lexed::End(line) => Ok(Token {
            start: text.len(),
            stop: text.len(),
            line,
            kind: Kind::End,
        }),
        Lexed::Bad(place, line) => Err(Refusal::no_token(place, line)),
    }
}

// Takes the token held.
pub fn next_token(lent: &&[u8], held: Token) -> Result<Token, Refusal>
    ensures { as_taken lent.now.now held result ≡ next_token (ahead_of lent.now.now held) }
{
    if held.kind == Kind::End {
        return Err(complain(4, held));
    }
    token_from(lent, held.stop, held.line)
}

// The same, where mostly a space and then a short token come next.
pub(crate) fn next_near(lent: &&[u8], held: Token) -> Result<Token, Refusal>
    ensures { as_taken lent.now.now held result ≡ next_token (ahead_of lent.now.now held) }
{
    if held.kind == Kind::End {
        return Err(complain(4, held));
    }
    hold(*lent, lexer::lex_near(lent, held.stop, held.line))
}

// The first token from a place of the text on, which is on the line given.
pub fn token_from(lent: &&[u8], place: usize, line: usize) -> Result<Token, Refusal>
    ensures { result ≡ held_next lent.now.now (lex_from lent.now.now place line) }
{
    hold(*lent, lexer::lex_in(lent, place, line))
}

// So many bytes from a place on, as far as the text goes.
pub fn part(text: &[u8], start: usize, len: usize) -> &[u8]
    ensures { result.now ≡ name_in text.now start len }
{
    let from = start.min(text.len());
    let n = len.min(text.len() - from);
    &text[from..from + n]
}

// The bytes of a token.
pub fn txt(text: &[u8], t: Token) -> &[u8]
    ensures { result.now ≡ bytes_of text.now t }
{
    part(text, t.start, t.stop.saturating_sub(t.start))
}

// The word is the one that is asked for.
fn this_word(w: u8, key: u8, held: Token) -> Result<(u8, Token), Refusal>
    ensures { (s : List ℕ) → as_word s result ≡ cond (eqb w key) (ok w (ahead_of s held)) (complain 7 (ahead_of s held)) }
{
    if w == key {
        Ok((w, held))
    } else {
        Err(complain(7, held))
    }
}

// A code, of which 0 is none.
pub(crate) fn coded(code: u8, held: Token) -> Result<(u8, Token), Refusal>
    ensures { (s : List ℕ) → as_word s result ≡ coded code (ahead_of s held) }
{
    if code == 0 {
        Err(complain(6, held))
    } else {
        Ok((code, held))
    }
}

// The takers judge the token taken.
impl Taken {
    pub fn expect(self, kind: Kind) -> Result<Token, Refusal>
        ensures { (s : List ℕ) (a : Ahead ℕ Mark) → Took s self.token self.held a → as_taken s self.token result ≡ expect (number_of kind) a }
    {
        if self.token.kind == kind {
            Ok(self.held)
        } else {
            Err(complain(4, self.held))
        }
    }

    pub fn get_name(self) -> Result<Token, Refusal>
        ensures { (s : List ℕ) (a : Ahead ℕ Mark) → Took s self.token self.held a → as_taken s self.token result ≡ get_name a }
    {
        self.expect(Kind::Name)
    }

    // The number of the word that a name spells, or 0.
    pub(crate) fn get_word(self, lent: &&[u8]) -> Result<(u8, Token), Refusal>
        ensures { (a : Ahead ℕ Mark) → Took lent.now.now self.token self.held a → as_word lent.now.now result ≡ get_word a }
    {
        let held = self.get_name()?;
        Ok((word::word_in(lent, self.token.start, self.token.stop), held))
    }

    // The number of a key word.
    pub fn get_key(self, lent: &&[u8]) -> Result<(u8, Token), Refusal>
        ensures { (a : Ahead ℕ Mark) → Took lent.now.now self.token self.held a → as_word lent.now.now result ≡ get_key a }
    {
        let (w, held) = self.get_word(lent)?;
        if word::is_key(w) {
            Ok((w, held))
        } else {
            Err(complain(5, held))
        }
    }

    // This key word.
    pub fn expect_key(self, lent: &&[u8], key: u8) -> Result<(u8, Token), Refusal>
        ensures { (a : Ahead ℕ Mark) → Took lent.now.now self.token self.held a → as_word lent.now.now result ≡ expect_key key a }
    {
        let (w, held) = self.get_key(lent)?;
        this_word(w, key, held)
    }

    // This word, be it a key word or not.
    pub fn expect_keyword(self, lent: &&[u8], key: u8) -> Result<(u8, Token), Refusal>
        ensures { (a : Ahead ℕ Mark) → Took lent.now.now self.token self.held a → as_word lent.now.now result ≡ expect_keyword key a }
    {
        let (w, held) = self.get_word(lent)?;
        this_word(w, key, held)
    }

    // The name of so many bytes at a place of the text again, byte by byte.
    pub fn expect_ident(self, lent: &&[u8], title: usize, len: usize) -> Result<Token, Refusal>
        ensures { (a : Ahead ℕ Mark) → Took lent.now.now self.token self.held a → as_taken lent.now.now self.token result ≡ expect_ident (name_in lent.now.now title len) a }
    {
        let held = self.get_name()?;
        let text = *lent;
        if txt(text, self.token) == part(text, title, len) {
            Ok(held)
        } else {
            Err(complain(7, held))
        }
    }

    // A number, as a record stores it.
    pub fn parse_number(self, lent: &&[u8]) -> Result<(u64, Token), Refusal>
        ensures { (a : Ahead ℕ Mark) → Took lent.now.now self.token self.held a → as_number lent.now.now result ≡ parse_number a }
    {
        let held = self.expect(Kind::Number)?;
        let Some(value) = numeral::numeral(txt(*lent, self.token)) else {
            return Err(complain(9, held));
        };
        Ok((numeral::stored(value), held))
    }

    // A value word of the kind, by its code.
    pub fn parse_enum(self, lent: &&[u8], kind: u8) -> Result<(u8, Token), Refusal>
        ensures { (a : Ahead ℕ Mark) → Took lent.now.now self.token self.held a → as_word lent.now.now result ≡ parse_enum (λ w. code_of kind w 0) a }
    {
        let (w, held) = self.get_word(lent)?;
        coded(word::codes::code_of(kind, w, 0), held)
    }
}
