// Bytes in hexadecimal.
ghost use Rattle.std.specs.Prelude.{◌≡◌, ◌<◌, min, length, take, replicate};
ghost use Rattle.std.proofs.lemmas.List.Edits.{sets};
ghost use Rattle.vectors.specs.Hex.{digit, pair, pairs};

use std::fmt;

fn digit(b: u8) -> u8
    ensures { (result ≡ digit b) × (result < 16) }
{
    match b {
        b'0'..=b'9' => b - b'0',
        b'a'..=b'f' => b - b'a' + 10,
        _ => 0,
    }
}

// The byte that two digits stand for.
pub(crate) fn pair(high: u8, low: u8) -> u8
    ensures { result ≡ pair high low }
{
    16 * digit(high) + digit(low)
}

// The bytes that the digits stand for, put at the front of `out`: how many there are, or as many of them as there is room for.
pub fn bytes(digits: &[u8], out: &mut [u8]) -> usize
    ensures value { result ≡ min (length (pairs digits.now)) (length out.old) }
    ensures out_after { out.new ≡ sets out.old 0 (pairs digits.now) }
{
    let count = out.len().min(digits.len() / 2);
    for n in 0..count {
        out[n] = pair(digits[2 * n], digits[2 * n + 1]);
    }
    count
}

// The bytes that the digits stand for, or as many of them as there is room for, put at the front of it.
pub fn decoded<'a>(digits: &[u8], room: &'a mut [u8]) -> &'a [u8]
    ensures { result.now ≡ take (length room.old) (pairs digits.now) }
{
    let n = bytes(digits, room);
    &room[..n]
}

// The bytes that the first digits stand for, and zeros where there are too few.
pub fn array<const N: usize>(digits: &[u8]) -> [u8; N]
    ensures { result ≡ sets (replicate N 0) 0 (pairs digits.now) }
{
    let mut out = [0; N];
    bytes(digits, &mut out);
    out
}

// The size of a buffer, in four digits, of which the first counts as nought.
pub fn size(digits: &[u8]) -> usize
    ensures { result < 4096 }
{
    usize::from(u16::from_be_bytes(array(digits)) % 4096)
}

// The number in three bytes at a place, the lowest byte first; a byte past the end counts as nought.
pub fn three(bytes: &[u8], place: usize) -> usize
    ensures { result < 16777216 }
{
    little::number(bytes, place, 3) as usize
}

// Each byte in hexadecimal, as a part of what is formatted.
#[derive(Clone, Copy)]
pub struct Hex<'a>(pub &'a [u8]);

impl fmt::Display for Hex<'_> {
    fn fmt<W: fmt::Write>(&self, f: &mut fmt::Formatter<W>) -> fmt::Result {
        for b in self.0 {
            write!(f, "{b:02x}")?;
        }
        Ok(())
    }
}

#[cfg(test)]
mod tests {
    use super::*;
    use std::alloc::AllocError;

    #[test]
    fn bytes_in_hexadecimal(rt: HostRuntime) -> Result<(), AllocError> {
        let said = format!(in rt.alloc(); "{}|{}", Hex(&[0, 9, 161, 255]), Hex(&[]))?;
        assert_eq!(rt; said.as_str(), "0009a1ff|");
        Ok(())
    }
}
