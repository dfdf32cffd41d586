// Counts the records of a text many times, as often as the first line of standard input has bytes; the text follows that line. The
// answer is printed. A record buffer of no bytes has `read` count and write nothing. Where a byte 255 ends the text, a record file
// follows it, and is checked against the text as often.
#![tactic(auto)]

use reader::reading;
use refusal::Refusal;
use std::alloc::AllocError;
use vectors::say::Pieces;

// The longest text that the library reads, with the line before it, and a million records.
const LONGEST: usize = 54800000;

fn main(rt: HostRuntime) -> Result<(), AllocError> {
    let mut input = vec![in rt.alloc(); 0; LONGEST]?;
    let n = io::read_full(0, &mut input);
    measure(&Pieces(rt), &input[..n]);
    Ok(())
}

// What cannot be printed is lost.
fn measure(rt: &impl Print, input: &[u8]) {
    let Some((times, given)) = vectors::cut(b'\n', input) else {
        return;
    };
    let answer = match vectors::cut(255, given) {
        Some((text, file)) => repeated(times, || checker::check(text, file).map(|()| 0)),
        None => repeated(times, || reading::read(given, &mut [])),
    };
    let _ = match answer {
        Some(Ok(count)) => println!(rt; "{} {count} ", 0),
        Some(Err(refusal)) => println!(rt; "{} {} ", refusal.number, refusal.place),
        None => Ok(()),
    };
}

// The last answer to a call that is made as often as there are bytes.
fn repeated<F: Fn() -> Result<usize, Refusal>>(
    times: &[u8],
    call: F,
) -> Option<Result<usize, Refusal>>
    requires { F.IsAlwaysCallable call }
{
    let mut last = None;
    for _ in times {
        last = Some(call());
    }
    last
}
