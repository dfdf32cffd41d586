// Texts that are written so that they can be read: `\` and two digits are one byte in hexadecimal, and any other byte is itself.
ghost use Rattle.std.specs.Prelude.{◌≡◌, ◌∷◌, [], ◌↔◌, min, length, take, IfSome, IsNone};
ghost use Rattle.std.proofs.lemmas.List.Edits.{sets};
ghost use Rattle.vectors.specs.Plain.{meant};

use crate::hex;

// The bytes that a written text stands for, put at the front of `out`: how many there are, or as many of them as there is room for.
pub fn bytes(written: &[u8], out: &mut [u8]) -> usize
    ensures value { result ≡ min (length (meant written.now)) (length out.old) }
    ensures out_after { out.new ≡ sets out.old 0 (meant written.now) }
{
    let mut rest = written;
    for n in 0..out.len() {
        let Some((byte, after)) = first(rest) else {
            return n;
        };
        out[n] = byte;
        rest = after;
    }
    out.len()
}

// The bytes that a written text stands for, or as many of them as there is room for, put at the front of it.
pub fn decoded<'a>(written: &[u8], room: &'a mut [u8]) -> &'a [u8]
    ensures { result.now ≡ take (length room.old) (meant written.now) }
{
    let n = bytes(written, room);
    &room[..n]
}

// The first byte that is written, and what is written after it.
fn first(written: &[u8]) -> Option<(u8, &[u8])>
    ensures none { IsNone result ↔ (written.now ≡ []) }
    ensures meant { IfSome result (λ p. meant written.now ≡ p.0 ∷ meant p.1.now) }
{
    let (byte, after) = written.split_first()?;
    if *byte == b'\\' && 1 < after.len() {
        return Some((hex::pair(after[0], after[1]), &after[2..]));
    }
    Some((*byte, after))
}
