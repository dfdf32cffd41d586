// How answers are printed. What is written goes to the system, of which no contract can speak.
use refusal::Refusal;
use std::{fmt, io};

// Bytes in hexadecimal where they are a part of what is formatted; `hex` prints them.
pub use crate::hex::Hex;

// Prints each piece by a write of its own: a number, a byte in hexadecimal, or what stands between two. What cannot be written is lost, and
// the next piece is tried: no call of it fails.
#[derive(Drop)]
pub struct Pieces<R>(pub R);

impl<R: Print> Print for Pieces<R> {
    fn print<D: fmt::Display + Drop>(&self, value: D) -> io::Result<()> {
        let _ = fmt::Write::write(&mut Piece(&self.0), value);
        Ok(())
    }

    fn println<D: fmt::Display + Drop>(&self, value: D) -> io::Result<()> {
        self.print(value)?;
        self.write_all(b"\n")
    }

    fn write_all(&self, bytes: &[u8]) -> io::Result<()> {
        let _ = self.0.write_all(bytes);
        Ok(())
    }
}

// Where the pieces of one value go.
#[derive(Drop)]
struct Piece<'a, R>(&'a R);

impl<R: Print> fmt::Write for Piece<'_, R> {
    fn write_str(&mut self, piece: &str) -> fmt::Result {
        if !piece.is_empty() {
            let _ = self.0.write_all(piece.as_bytes());
        }
        Ok(())
    }
}

// Prints each byte in hexadecimal, by one write each.
pub fn hex(rt: &impl Print, bytes: &[u8]) -> io::Result<()> {
    for b in bytes {
        rt.write_all(&[digit(b / 16), digit(b % 16)])?;
    }
    Ok(())
}

fn digit(d: u8) -> u8 {
    match d {
        0..=9 => b'0' + d,
        10..=15 => b'a' + (d - 10),
        _ => b'?',
    }
}

// Each number, and a space.
#[derive(Clone, Copy)]
pub struct Numbers<'a, T>(pub &'a [T]);

impl<T: fmt::Display> fmt::Display for Numbers<'_, T> {
    // Of what prints numbers a program has one copy, so that it stays small.
    #[inline(never)]
    fn fmt<W: fmt::Write>(&self, f: &mut fmt::Formatter<W>) -> fmt::Result {
        for number in self.0 {
            write!(f, "{number} ")?;
        }
        Ok(())
    }
}

// What a call answers, in three numbers: 0, how many and 0 where it is done, and else its refusal, place and line.
#[derive(Clone, Copy)]
pub struct Answer(pub Result<usize, Refusal>);

impl fmt::Display for Answer {
    // As of `Numbers`.
    #[inline(never)]
    fn fmt<W: fmt::Write>(&self, f: &mut fmt::Formatter<W>) -> fmt::Result {
        let (number, place, line) = match self.0 {
            Ok(count) => (0, count, 0),
            Err(r) => (r.number, r.place, r.line),
        };
        write!(f, "{number} {place} {line}")
    }
}

// What a look-up answers, in five numbers, each with a space: its answer in three, and then 1 and what is found, or 0 and 0.
#[derive(Clone, Copy)]
pub struct Found(pub Result<Option<usize>, Refusal>);

impl fmt::Display for Found {
    fn fmt<W: fmt::Write>(&self, f: &mut fmt::Formatter<W>) -> fmt::Result {
        let numbers = match self.0 {
            Ok(Some(found)) => [0, 0, 0, 1, found],
            Ok(None) => [0, 0, 0, 0, 0],
            Err(r) => [r.number, r.place, r.line, 0, 0],
        };
        Numbers(&numbers).fmt(f)
    }
}
