// Numbers as bytes, the lowest byte first: read out of bytes, and laid over bytes.
#![tactic(auto)]

ghost use Rattle.std.specs.Prelude.{◌≡◌, ◌+◌, ◌≤◌, ◌<◌, ◌^◌, min, length, take, drop};
ghost use Rattle.std.proofs.lemmas.List.Edits.{sets};
ghost use Rattle.little.specs.Little.{little, number};

// The number in the n bytes at a place: in eight of them at most, and a byte past the end counts as nought.
pub fn number(bytes: &[u8], place: usize, n: usize) -> u64
    ensures eq { result ≡ number (take (min n 8) (drop place bytes.now)) }
    ensures small { result < 256 ^ min n 8 }
{
    let room = bytes.len().saturating_sub(place);
    let mut sum = 0;
    for i in (0..n.min(8).min(room)).rev() {
        sum = 256 * sum + u64::from(bytes[place + i]);
    }
    sum
}

// The number in the four bytes at a place; a byte past the end counts as nought.
pub fn word32(bytes: &[u8], place: usize) -> usize
    ensures eq { result ≡ number (take 4 (drop place bytes.now)) }
    ensures small { result < 4294967296 }
{
    if bytes.len().saturating_sub(place) < 4 {
        return number(bytes, place, 4) as usize;
    }
    four(bytes, place) as usize
}

// The number in the eight bytes at a place; a byte past the end counts as nought.
pub fn word64(bytes: &[u8], place: usize) -> u64
    ensures { result ≡ number (take 8 (drop place bytes.now)) }
{
    if bytes.len().saturating_sub(place) < 8 {
        return number(bytes, place, 8);
    }
    eight(bytes, place)
}

// The number in four bytes that are there, without a loop.
pub fn four(bytes: &[u8], place: usize) -> u64
    requires { place + 4 ≤ length bytes.now }
    ensures eq { result ≡ number (take 4 (drop place bytes.now)) }
    ensures small { result < 4294967296 }
{
    u64::from(u32::from_le_bytes([
        bytes[place],
        bytes[place + 1],
        bytes[place + 2],
        bytes[place + 3],
    ]))
}

// The number in eight bytes that are there, without a loop.
pub fn eight(bytes: &[u8], place: usize) -> u64
    requires { place + 8 ≤ length bytes.now }
    ensures { result ≡ number (take 8 (drop place bytes.now)) }
{
    four(bytes, place) + 4294967296 * four(bytes, place + 4)
}

// Lays the n low bytes of a number over the bytes at a place; what would stand past the end is left out.
pub fn lay(bytes: &mut [u8], place: usize, n: usize, v: u64)
    ensures { bytes.new ≡ sets bytes.old place (little n v) }
{
    let room = bytes.len().saturating_sub(place);
    let mut rest = v;
    for i in 0..n.min(room) {
        bytes[place + i] = (rest % 256) as u8;
        rest /= 256;
    }
}
