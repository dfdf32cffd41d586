// The first pass over a text: its refusal, or whether the file holds its records in the reading's own order.
ghost use Rattle.std.specs.Prelude.{◌≡◌, true, ℕ, ◌+◌, ◌/◌, ◌≤◌, ◌<◌, length, IfSome};
ghost use Rattle.file.specs.File.{record_in};
ghost use Rattle.reader.specs.Passed.{Sound};
ghost use Rattle.checker.specs.Passing.{Orders, Goes, stretch};

use reader::open::State;
use reader::pass::{Passed, pass};
use record::Record;
use refusal::Refusal;

// How many records are compared at a time.
const STRETCH: usize = 64;

const STRETCH_BYTES: usize = 2304;

// Reads the text from the state on, a stretch of records at a time, and compares each stretch with what the file has in its place.
// After the first that differs the rest is read only for a refusal.
pub(crate) fn in_order(text: &[u8], start: State, file: &[u8]) -> Result<bool, Refusal>
    requires { Sound text.now start }
    ensures { Orders text.now start file.now result }
{
    let mut w = [0u8; STRETCH_BYTES];
    stretches(text, start, file, &mut w)
}

fn stretches(text: &[u8], start: State, file: &[u8], w: &mut [u8]) -> Result<bool, Refusal>
    requires { (stretch ≤ length w.old / 36) × Sound text.now start }
    ensures { Orders text.now start file.now result }
{
    let mut st = start;
    let mut run = Some(0);
    loop {
        match pass(text, st, w, STRETCH)? {
            Passed::Over(c) => {
                run = run_after(run, w, c, file);
                break Ok(run == Some(file.len() / Record::SIZE));
            }
            Passed::On(next) => {
                run = run_after(run, w, STRETCH, file);
                st = next;
            }
        }
    }
}

// A run is how many records of the file were found to be the reading's, in its order; none, where another has been seen. This is the run after
// a stretch of c records.
fn run_after(run: Option<usize>, w: &[u8], c: usize, file: &[u8]) -> Option<usize>
    requires { (c ≤ length w.now / 36) × IfSome run (λ done. done ≤ length file.now / 36) }
    ensures { Goes run c (record_in w.now) file.now result }
{
    let done = run?;
    if stands(w, c, file, done) {
        Some(done + c)
    } else {
        None
    }
}

// Whether the file has, from the index i on, the c records of the stretch.
fn stands(w: &[u8], c: usize, file: &[u8], i: usize) -> bool
    requires { (c ≤ length w.now / 36) × (i ≤ length file.now / 36) }
    ensures { result ≡ true → (i + c ≤ length file.now / 36) × ((k : ℕ) → k < c → record_in file.now (i + k) ≡ record_in w.now k) }
{
    if file.len() / Record::SIZE - i < c {
        return false;
    }
    let start = Record::SIZE * i;
    let bytes = Record::SIZE * c;
    let stop = start + bytes;
    file[start..stop] == w[..bytes]
}
