// Single bytes and runs of them: what a byte starts, and where a run ends.
ghost use Rattle.std.specs.Prelude.{◌≡◌, ◌&&◌, ℕ, Bool, true, ◌<◌, ◌≤◌, length};
ghost use Rattle.std.specs.List.{fold};
ghost use Rattle.lexer.specs.Bytes.{is_letter, is_space, is_digit, is_ascii, in_name, in_number, class_of};
ghost use Rattle.lexer.specs.Run.{past};

// What a byte starts.
#[derive(Clone, Copy)]
pub enum Class {
    Letter,
    Space,
    Digit,
    SemiColon,
    NewLine,
    Quote,
    Hash,
    Other,
}

pub fn is_letter(b: u8) -> bool
    ensures { result ≡ is_letter b }
{
    b.is_ascii_alphabetic()
}

fn is_space(b: u8) -> bool
    ensures { result ≡ is_space b }
{
    matches!(b, b' ' | b'\t' | 11..=13)
}

pub fn is_digit(b: u8) -> bool
    ensures { result ≡ is_digit b }
{
    b.is_ascii_digit()
}

// The commonest bytes are tested for first: no byte is of two classes. A test of a range stands between two tests of one byte, since
// the compiler makes a jump by a table of those that stand together, which measured slower.
#[tactic(auto, unfolding(crate::specs::Bytes::class_of))]
pub fn class_of(b: u8) -> Class
    ensures { result ≡ class_of b }
{
    if b == b' ' {
        Class::Space
    } else if b == b';' {
        Class::SemiColon
    } else if is_letter(b) {
        Class::Letter
    } else if b == b'\n' {
        Class::NewLine
    } else if is_digit(b) {
        Class::Digit
    } else if b == b'-' {
        Class::Digit
    } else if is_space(b) {
        Class::Space
    } else if b == b'"' {
        Class::Quote
    } else if b == b'#' {
        Class::Hash
    } else {
        Class::Other
    }
}

pub fn in_name(b: u8) -> bool
    ensures { result ≡ in_name b }
{
    !(is_space(b) | (b == b'\n'))
}

pub fn in_number(b: u8) -> bool
    ensures { result ≡ in_number b }
{
    is_digit(b) | (b == b'.')
}

// The place after the run from `at` on of bytes that `goes_on` holds of.
pub fn run_past<F: Fn(u8) -> bool>(text: &[u8], at: usize, goes_on: F) -> usize
    requires inside { at ≤ length text.now }
    requires callable { F.IsAlwaysCallable goes_on }
    ensures { (p : ℕ → Bool) → ((b : ℕ) (r : Bool) → F.post goes_on b r → r ≡ p b) → result ≡ past p text.now at }
{
    let rest = &text[at..];
    at + rest.iter().position(|b| !goes_on(*b)).unwrap_or(rest.len())
}

// The place of the first byte above 127, or the end of the text. The loop over a block never leaves early, so that the compiler can
// test many bytes at once; `is_ascii` of std measured slower.
pub fn past_ascii(text: &[u8]) -> usize
    ensures { result ≡ past is_ascii text.now 0 }
{
    let (blocks, _) = text.as_chunks::<64>();
    let clear = blocks
        .iter()
        .position(|block| !all_ascii(block))
        .unwrap_or(blocks.len());
    run_past(text, 64 * clear, |b| b <= 127)
}

fn all_ascii(block: &[u8; 64]) -> bool
    ensures { result ≡ fold (λ ascii b. ascii && is_ascii b) true block.now }
{
    block.iter().fold(true, |ascii, b| ascii & (*b <= 127))
}
