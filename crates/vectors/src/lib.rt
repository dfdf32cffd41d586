// What the programs that replay vectors share: lines, fields, bytes in hexadecimal, texts, and how answers are printed.
#![tactic(auto)]

ghost use Rattle.std.specs.Prelude.{All, ◌≡◌, ◌↔◌, ◌+◌, ◌-◌, ◌<◌, ◌==◌, [], replicate, min, length, take, drop, IfSome, IsNone};
ghost use Rattle.std.proofs.lemmas.List.Edits.{sets};
ghost use Rattle.std.specs.List.{slice_split};
ghost use Rattle.std.specs.Option.{option_map_or};
ghost use Rattle.std.specs.Iterator.{YieldsFirstBy, item_count};
ghost use Rattle.vectors.specs.Next.{next};

use std::io::Result as Printed;

pub mod hex;
pub mod plain;
pub mod say;

// A mebibyte of zeros, for the lines of a program's input.
pub fn input() -> [u8; 1048576]
    ensures eq { result ≡ replicate 1048576 0 }
    ensures size { 1048576 ≡ length result }
{
    [0; 1048576]
}

// So many zeros, as room for what a line speaks of.
pub fn zeros<const N: usize>() -> [u8; N]
    ensures size { N ≡ length result }
    ensures bytes { All (λ b. b ≡ 0) result }
{
    [0; N]
}

// The lines of an input, without their newlines, that are still to come; or none.
#[derive(Clone, Copy)]
pub struct LinesLeft<'a>(Option<&'a [u8]>);

impl<'a> Iterator for LinesLeft<'a> {
    type Item = &'a [u8];

    ghost next_gives = { YieldsFirstBy (λ line. line.now) (λ s. option_map_or (λ rest. slice_split (λ b. b == 10) rest.now) s.0 []) };

    ghost remaining = { item_count (λ s. option_map_or (λ rest. slice_split (λ b. b == 10) rest.now) s.0 []) };

    fn next(&mut self) -> Option<&'a [u8]> {
        let Some(rest) = self.0 else {
            return None;
        };
        match rest.iter().position(|&b| b == b'\n') {
            Some(n) => {
                self.0 = Some(&rest[n + 1..]);
                Some(&rest[..n])
            }
            None => {
                self.0 = None;
                Some(rest)
            }
        }
    }
}

// The lines of an input.
pub fn lines(input: &[u8]) -> LinesLeft<'_>
    ensures { option_map_or (λ rest. slice_split (λ b. b == 10) rest.now) result.0 [] ≡ slice_split (λ b. b == 10) input.now }
{
    LinesLeft(Some(input))
}

// Has each line of standard input answered, by its letter and its fields, and ends each answer's line. An empty line is none. Where an
// answer fails, the rest of it is lost, and the next line is answered.
pub fn for_each_line<R: Print, F: FnMut(u8, &[u8]) -> Printed<()>>(rt: &R, answer: F)
    requires { F.IsAlwaysCallable answer }
{
    let mut input = input();
    let n = io::read_full(0, &mut input);
    answer_each(rt, &input[..n], answer);
}

fn answer_each<R: Print, F: FnMut(u8, &[u8]) -> Printed<()>>(rt: &R, input: &[u8], mut answer: F)
    requires { F.IsAlwaysCallable answer }
{
    for line in lines(input) {
        if let Some((letter, fields)) = line.split_first() {
            let _ = answer(*letter, fields);
            let _ = rt.println("");
        }
    }
}

// The place of the next such byte from a place on, or the end.
pub fn next_of(byte: u8, input: &[u8], at: usize) -> usize
    ensures { result ≡ next byte input.now at }
{
    if input.len() < at {
        return input.len();
    }
    match input[at..].iter().position(|&b| b == byte) {
        Some(n) => at + n,
        None => input.len(),
    }
}

// What stands before the first such byte, and what after it.
pub fn cut(byte: u8, fields: &[u8]) -> Option<(&[u8], &[u8])>
    ensures none { IsNone result ↔ (next byte fields.now 0 ≡ length fields.now) }
    ensures before { IfSome result (λ parts. parts.0.now ≡ take (next byte fields.now 0) fields.now) }
    ensures after { IfSome result (λ parts. parts.1.now ≡ drop (next byte fields.now 0 + 1) fields.now) }
{
    let (before, rest) = fields.split_at(next_of(byte, fields, 0));
    let (_, after) = rest.split_first()?;
    Some((before, after))
}

// Bytes put in a buffer from a place on, as far as there is room: the place after them.
pub fn put(bytes: &[u8], out: &mut [u8], at: usize) -> usize
    ensures value { result ≡ at + min (length bytes.now) (length out.old - at) }
    ensures out_after { out.new ≡ sets out.old at bytes.now }
{
    let count = bytes.len().min(out.len().saturating_sub(at));
    for n in 0..count {
        out[at + n] = bytes[n];
    }
    at + count
}

// The number so many steps on, in a circle of n; a step is no longer than the circle, or else the number stands past its end.
pub fn stepped(k: usize, step: usize, n: usize) -> usize
    requires { (k < 16777216) × (step < 16777216) × (n < 16777216) }
    ensures { result < 16777216 }
{
    let next = k + step;
    if next < n {
        return next;
    }
    (next - n) % 16777216
}
