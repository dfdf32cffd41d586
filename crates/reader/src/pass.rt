// A pass over the turns: the one loop of all that reads. A turn is one turn of one of the original's loops.
ghost use Rattle.std.specs.Prelude.{◌≡◌};
ghost use Rattle.reader.specs.Passed.{Sound, Begins, Passes};

use crate::open;
use crate::open::State;
use parser::engine::{Step, step_in};
use parser::take;
use refusal::Refusal;

#[derive(Clone, Copy)]
pub enum Passed {
    // The reading is over, with so many records.
    Over(usize),
    // There were as many records as were asked for, and the reading goes on from the state.
    On(State),
}

// A refusal, and the state in which it was met.
#[derive(Clone, Copy)]
pub struct Stuck {
    pub refusal: Refusal,
    pub state: State,
}

impl From<Stuck> for Refusal {
    ghost from_gives = { λ s r. r ≡ s.refusal };

    fn from(stuck: Stuck) -> Self {
        stuck.refusal
    }
}

// A text is begun: it is screened, and its first token is held. The state is the one before the first turn.
pub fn begin(text: &[u8]) -> Result<State, Refusal>
    ensures { Begins text.now result }
{
    lexer::screen(text)?;
    let held = take::token_from(&text, 0, 1)?;
    Ok(open::first(held))
}

// The turns from a state on, up to so many records: each is stored at its index where the file has room for it. A block that has
// ended before the word held hands it to the block around it.
pub fn pass(text: &[u8], start: State, file: &mut [u8], most: usize) -> Result<Passed, Stuck>
    requires { Sound text.now start }
    ensures { Passes text.now start most file.old file.new result }
{
    let mut held = start.held;
    let mut open = start.open;
    let mut outer = start.outer;
    let mut n: usize = 0;
    loop {
        if n == most {
            break Ok(Passed::On(State { held, open, outer }));
        }
        match step_in(&text, open.version, open.inner, held) {
            Ok(Step::Gives(next, r, opens)) => {
                file::put(r, file, n);
                n += 1;
                held = next;
                open = open::shift(open, &mut outer, r, opens);
            }
            Ok(Step::Ends(next)) => {
                if open.depth == 0 {
                    break Ok(Passed::Over(n));
                }
                held = next;
                open = open::left(open, &outer);
            }
            Ok(Step::Goes(next, block)) => {
                held = next;
                open = open::turned(open, block);
            }
            Ok(Step::Back) => {
                if open.depth == 0 {
                    break Ok(Passed::Over(n));
                }
                open = open::left(open, &outer);
            }
            Err(refusal) => {
                let state = State { held, open, outer };
                break Err(Stuck { refusal, state });
            }
        }
    }
}
