// The lexer: the first token of a text from a place on, and the screen that every public call puts a text through first.
#![tactic(auto)]

ghost use Rattle.std.specs.Prelude.{◌≡◌, ◌<◌, ◌≤◌, ◌+◌, true, min, length, slice_index};
ghost use Rattle.lexer.specs.Bytes.{in_name, in_number, in_string, in_comment};
ghost use Rattle.lexer.specs.Run.{past};
ghost use Rattle.lexer.specs.declared.Kind.{Kind};
ghost use Rattle.lexer.specs.Eight.{is_gap};
ghost use Rattle.lexer.specs.Lex.{next_line, token, from, lex_from};
ghost use Rattle.lexer.specs.Screen.{screened};
ghost use Rattle.lexer.specs.Answer.{first_token};

use refusal::Refusal;

mod eight;
mod scan;

use scan::Class;

// What a token is. The end of the text is one where it is held as a token.
#[derive(Clone, Copy, PartialEq, Eq)]
pub enum Kind {
    End,
    Name,
    Number,
    SemiColon,
    StringLiteral,
}

// A token: the places of its first byte and of the byte after its last, the line of its first byte, and its kind. The kind stands last,
// so that the words of a token and of a refusal lie alike in an answer that is the one or the other, which measured faster.
#[derive(Clone, Copy)]
pub struct Token {
    pub start: usize,
    pub stop: usize,
    pub line: usize,
    pub kind: Kind,
}

// What the lexer finds next: a token, the end of the text with its line, or the place and line of a byte that starts no token. Three
// cases, since each caller goes on differently: the parser holds the end as a token, and for `first_token` it is none.
#[derive(Clone, Copy)]
pub enum Lexed {
    Found(Token),
    End(usize),
    Bad(usize, usize),
}

// The longest text that the library reads.
const LIMIT: usize = 16777216;

// How many bytes `lex_near` looks at: a space or a newline, up to seven blanks, a first byte, and eight after it.
const NEAR: usize = 17;

// Whether the other calls may read a text: refusal 1 for one that is too long, else refusal 2 at its first byte above 127.
#[tactic(auto, unfolding(crate::specs::Screen::screened))]
pub fn screen(text: &[u8]) -> Result<(), Refusal>
    ensures { result ≡ screened text.now }
{
    if LIMIT < text.len() {
        return Err(Refusal::too_long());
    }
    let place = scan::past_ascii(text);
    if place < text.len() {
        Err(Refusal::not_ascii(place))
    } else {
        Ok(())
    }
}

// The first token of a text from a place on, lines counted from 1 at that place, or none where there is only the end. A place past
// the text counts as its end.
#[tactic(auto, unfolding(crate::specs::Answer::first_token))]
pub fn first_token(text: &[u8], place: usize) -> Result<Option<Token>, Refusal>
    ensures { result ≡ first_token text.now place }
{
    screen(text)?;
    match lex(text, place, 1) {
        Lexed::Found(token) => Ok(Some(token)),
        Lexed::End(_) => Ok(None),
        Lexed::Bad(bad, line) => Err(Refusal::no_token(bad, line)),
    }
}

// The first answer of a text from the place `at` on, which is on the line given. The text need not have been screened.
pub fn lex(text: &[u8], at: usize, line: usize) -> Lexed
    ensures { result ≡ lex_from text.now at line }
{
    lex_in(&text, at, line)
}

// The same of a text that is lent by one more reference, which a caller hands on as it is.
pub fn lex_in(lent: &&[u8], at: usize, line: usize) -> Lexed
    ensures { result ≡ lex_from lent.now.now at line }
{
    let text = *lent;
    let mut i = at;
    let mut n = line;
    loop {
        let Some(&b) = text.get(i) else {
            break Lexed::End(n);
        };
        match scan::class_of(b) {
            Class::Letter => break lex_name(text, i, n),
            Class::Space => {
                i += 1;
            }
            Class::Digit => break lex_number(text, i, n),
            Class::SemiColon => break emit(Kind::SemiColon, i, i + 1, n),
            Class::NewLine => {
                i = eight::blanks_past(text, i + 1);
                n = lex_newline(n);
            }
            Class::Quote => break lex_string_literal(text, i, n),
            Class::Hash => {
                i = lex_comment(text, i);
            }
            Class::Other => break Lexed::Bad(i, n),
        }
    }
}

// The same, where mostly a space, or a newline and a few blanks, and then a short token come next: that is found at once, and all
// else by the way of `lex_in`.
pub fn lex_near(lent: &&[u8], at: usize, line: usize) -> Lexed
    ensures { result ≡ lex_from lent.now.now at line }
{
    let text = *lent;
    // Two tests, since one by `saturating_sub` is slower.
    if at < text.len() && NEAR <= text.len() - at {
        let c = text[at];
        let (i, n) = behind(text, at, line);
        if (c == b' ') | (c == b'\n') {
            let b = text[i];
            let w = eight::eight(text, i + 1);
            if scan::is_letter(b) {
                let ends = eight::name_ends(w);
                if ends != 0 {
                    return emit(Kind::Name, i, i + 1 + eight::before(ends), n);
                }
            } else if scan::is_digit(b) {
                let ends = eight::number_ends(w);
                if ends != 0 {
                    return emit(Kind::Number, i, i + 1 + eight::before(ends), n);
                }
            } else if b == b';' {
                return emit(Kind::SemiColon, i, i + 1, n);
            }
        }
    }
    lex_in(lent, at, line)
}

// The place behind a byte, and behind a few blanks where it is a newline, and the line there.
fn behind(text: &[u8], at: usize, line: usize) -> (usize, usize)
    requires { at + 17 ≤ length text.now }
    ensures left { result.0 + 9 ≤ length text.now }
    ensures same { is_gap (slice_index text.now at) ≡ true → from text.now at line ≡ from text.now result.0 result.1 }
{
    if text[at] == b'\n' {
        (eight::near_blanks(text, at + 1), lex_newline(line))
    } else {
        (at + 1, line)
    }
}

// The number of the line after the line n: the last stays.
fn lex_newline(n: usize) -> usize
    ensures { result ≡ next_line n }
{
    n.saturating_add(1)
}

// The place after the comment that starts at `start`.
fn lex_comment(text: &[u8], start: usize) -> usize
    requires { start < length text.now }
    ensures { result ≡ past in_comment text.now (start + 1) }
{
    scan::run_past(text, start + 1, |b| b != b'\n')
}

fn lex_name(text: &[u8], start: usize, line: usize) -> Lexed
    requires { start < length text.now }
    ensures { result ≡ token Kind.Name start (past in_name text.now (start + 1)) line }
{
    emit(Kind::Name, start, eight::name_past(text, start + 1), line)
}

fn lex_number(text: &[u8], start: usize, line: usize) -> Lexed
    requires { start < length text.now }
    ensures { result ≡ token Kind.Number start (past in_number text.now (start + 1)) line }
{
    emit(
        Kind::Number,
        start,
        eight::number_past(text, start + 1),
        line,
    )
}

fn lex_string_literal(text: &[u8], start: usize, line: usize) -> Lexed
    requires { start < length text.now }
    ensures { result ≡ token Kind.StringLiteral start (min (past in_string text.now (start + 1) + 1) (length text.now)) line }
{
    emit(
        Kind::StringLiteral,
        start,
        past_quote(text, start + 1),
        line,
    )
}

// The place after the quote that ends the string literal whose bytes start at `at`, or the end of the text.
fn past_quote(text: &[u8], at: usize) -> usize
    requires { at ≤ length text.now }
    ensures { result ≡ min (past in_string text.now at + 1) (length text.now) }
{
    let close = scan::run_past(text, at, |b| b != b'"');
    if close < text.len() {
        close + 1
    } else {
        text.len()
    }
}

fn emit(kind: Kind, start: usize, stop: usize, line: usize) -> Lexed
    ensures { result ≡ token kind start stop line }
{
    Lexed::Found(Token {
        start,
        stop,
        line,
        kind,
    })
}
