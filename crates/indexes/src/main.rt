// Builds, checks and searches indexes: each line of standard input is asked as src/lib.rt of `asking` says, and answered on a line.
#![tactic(auto)]

use vectors::say::Pieces;

fn main(rt: HostRuntime) {
    let rt = Pieces(rt);
    vectors::for_each_line(&rt, |letter, fields| asking::answer(&rt, letter, fields));
}
