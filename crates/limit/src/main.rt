// Screens and reads texts at the length limit, which no vector on a line can be: spaces of one byte more than is read and of just
// as many, then both again with a last byte that is not ASCII. Each answer is printed as refusal, place and line; of the screen a
// text that may be read has three zeros.
#![tactic(auto)]

use reader::reading;
use std::alloc::AllocError;
use vectors::say::{Answer, Pieces};

fn main(rt: HostRuntime) -> Result<(), AllocError> {
    let mut text = vec![in rt.alloc(); b' '; 16777217]?;
    let rt = Pieces(rt);
    both(&rt, &text);
    if let Some(last) = text.last_mut() {
        *last = 128;
    }
    both(&rt, &text);
    Ok(())
}

// A text, and the text without its first byte.
fn both(rt: &impl Print, text: &[u8]) {
    one(rt, text);
    one(rt, text.get(1..).unwrap_or(&[]));
}

// What cannot be printed is lost.
fn one(rt: &impl Print, text: &[u8]) {
    let _ = println!(rt; "{}", Answer(lexer::screen(text).map(|()| 0)));
    let _ = println!(rt; "{}", Answer(reading::read(text, &mut [])));
}
