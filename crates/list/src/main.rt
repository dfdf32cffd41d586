// Lists the records of the text on standard input, or its refusal. A text of more than 65,536 bytes is not looked at.
#![tactic(auto)]

use vectors::say::Pieces;

const LONGEST: usize = 65536;

fn main(rt: HostRuntime) {
    let rt = Pieces(rt);
    let mut text = [0; 65537];
    let n = io::read_full(0, &mut text);
    if LONGEST < n {
        let _ = print!(rt; "too long\n");
    } else {
        listing::list(&rt, &text[..n]);
    }
}
