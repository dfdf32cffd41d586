// The windows one after the other: what each shows of the file is added to what the earlier ones did.
ghost use Rattle.std.specs.Prelude.{◌≡◌, List, ℕ, ◌+◌, ◌/◌, ◌≤◌, ◌<◌, length};
ghost use Rattle.record.specs.declared.Record.{Record};
ghost use Rattle.file.specs.File.{held, record_in};
ghost use Rattle.refusal.specs.Table.{judgement};
ghost use Rattle.grammar.specs.Reading.{records};
ghost use Rattle.reader.specs.Passed.{read_from};
ghost use Rattle.verdict.specs.Verdict.{verdict};
ghost use Rattle.verdict.specs.Meaning.{nth};
ghost use Rattle.checker.specs.Windows.{Sorted, Inside};
ghost use Rattle.checker.specs.Covered.{Covered, Fills};
ghost use Rattle.checker.specs.Passing.{Reads, width};

use crate::held::at_of;
use crate::window::window;
use reader::open::State;
use reader::pass::{Passed, pass};
use record::Record;
use refusal::Refusal;

// The records of the reading below `low` have been in a window. `limit` is the index of the first record of the file that is known to be
// wrong, or the file's count; `lack` is the `at` of the first record of the windows that it has not.
#[derive(Clone, Copy)]
pub struct Seen {
    pub low: usize,
    pub limit: usize,
    pub lack: Option<usize>,
}

// What is seen after a window of c records up to `high`.
fn seen_after(seen: Seen, file: &[u8], w: &[u8], c: usize, high: usize, marks: &mut [u8]) -> Seen
    requires { (seen.limit ≤ length file.now / 36) × (c ≤ length w.now / 36) × (c ≤ length marks.old) × Sorted (record_in w.now) c × Inside (record_in w.now) c seen.low high × (high < 4294967296) }
    ensures low { result.low ≡ high + 1 }
    ensures covers { (m : ℕ) (r : ℕ → Record) (a : ℕ) → Covered m (length file.now / 36) r (record_in file.now) a seen → Fills m r (record_in w.now) a c high → Covered m (length file.now / 36) r (record_in file.now) (a + c) result }
{
    let step = window(file, seen.limit, seen.low, high, w, c, marks);
    let lack = match seen.lack {
        Some(at) => Some(at),
        None => match step.unmet {
            Some(k) => Some(at_of(w, k)),
            None => None,
        },
    };
    Seen {
        low: high + 1,
        limit: step.limit,
        lack,
    }
}

// The verdict, where every record of the reading has been in a window.
fn verdict_of(seen: Seen, file: &[u8]) -> Result<(), Refusal>
    requires { 4294967296 ≤ seen.low }
    ensures { (rs : List Record) → Covered (length rs) (length file.now / 36) (nth rs) (record_in file.now) (length rs) seen → result ≡ judgement (verdict rs (held file.now)) }
{
    if seen.limit < file.len() / Record::SIZE {
        return Err(Refusal::wrong_record(seen.limit));
    }
    match seen.lack {
        Some(at) => Err(Refusal::lacking(at)),
        None => Ok(()),
    }
}

// How many records a window holds.
const WIDTH: usize = 16384;

const WIDTH_BYTES: usize = 589824;

// The largest number of four bytes: the last window reaches to it.
const LAST: usize = 4294967295;

// The verdict on a file by windows: `w` is filled with a stretch of the reading at a time, and the file is scanned once for each.
pub(crate) fn by_windows(text: &[u8], start: State, file: &[u8]) -> Result<(), Refusal>
    requires { (rs : List Record) × Reads text.now start rs }
    ensures { (rs : List Record) → read_from text.now start ≡ records rs → result ≡ judgement (verdict rs (held file.now)) }
{
    let mut w = [0u8; WIDTH_BYTES];
    let mut marks = [0u8; WIDTH];
    windows(text, start, file, &mut w, &mut marks)
}

fn windows(
    text: &[u8],
    start: State,
    file: &[u8],
    w: &mut [u8],
    marks: &mut [u8],
) -> Result<(), Refusal>
    requires { (width ≤ length w.old / 36) × (width ≤ length marks.old) × ((rs : List Record) × Reads text.now start rs) }
    ensures { (rs : List Record) → read_from text.now start ≡ records rs → result ≡ judgement (verdict rs (held file.now)) }
{
    let mut st = start;
    let mut seen = Seen {
        low: 0,
        limit: file.len() / Record::SIZE,
        lack: None,
    };
    loop {
        match pass(text, st, w, WIDTH)? {
            Passed::Over(c) => {
                break verdict_of(seen_after(seen, file, w, c, LAST, marks), file);
            }
            Passed::On(next) => {
                let high = at_of(w, WIDTH - 1);
                seen = seen_after(seen, file, w, WIDTH, high, marks);
                st = next;
            }
        }
    }
}
