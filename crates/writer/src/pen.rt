// Writing records: the open blocks, and the page that the text is written on. The blocks around the innermost stand in an array that is lent.
ghost use Rattle.std.specs.Prelude.{◌≡◌, true, List, [], ◌∷◌, map, ℕ, ◌/◌, ◌≤◌, ◌<◌, length};
ghost use Rattle.record.specs.declared.Record.{Record};
ghost use Rattle.file.specs.File.{front, held};
ghost use Rattle.grammar.specs.Reading.{records};
ghost use Rattle.reader.specs.Open.{blocks_of, state_of, Pushes, Ranked};
ghost use Rattle.reader.specs.Passed.{read_from};
ghost use Rattle.checker.specs.Passing.{stretch};
ghost use Rattle.render.specs.Pieces.{text as bytes_of};
ghost use Rattle.render.specs.Plain.{bare};
ghost use Rattle.render.specs.Lines.{end_all, lines};
ghost use Rattle.render.specs.Fit.{admits};
ghost use Rattle.lines.specs.Put.{Put, Puts};
ghost use Rattle.writer.specs.Penned.{frames_of, May, Wrote, Reached, Settled, move_in, Enters, Ready};

use lines::block::owns;
use lines::form::{Form, form_for};
use lines::page::Page;
use parser::open::Frame;
use reader::open::{AROUND, Open, State, left, shift, turned};
use reader::pass::{Passed, pass};
use record::Record;
use rows::form;

// The open blocks where the innermost takes a record, and the form that the record has there.
#[derive(Clone, Copy)]
pub struct Taken {
    pub open: Open,
    pub form: Option<Form>,
}

// How many records are written at a time.
const STRETCH: usize = 64;

const STRETCH_BYTES: usize = 2304;

// Writes the records of the text from the state on, and answers how many bytes they are.
pub(crate) fn write_from(text: &[u8], start: State, out: &mut [u8]) -> usize
    requires { (rs : List Record) × Ready text.now start rs }
    ensures { (rs : List Record) → read_from text.now start ≡ records rs → Put out.old 0 (bytes_of (lines (state_of text.now start) (map (bare text.now) rs))) result out.new }
{
    let mut w = [0u8; STRETCH_BYTES];
    let mut page = Page { text, out, at: 0 };
    write_stretches(start, &mut w, &mut page);
    page.at
}

// The records of stretch after stretch. The checker's loop over stretches is another: it shares the pass with this one and nothing of what
// is done with a stretch.
fn write_stretches(start: State, w: &mut [u8], page: &mut Page)
    requires { (stretch ≤ length w.old / 36) × ((rs : List Record) × Ready page.old.text.now start rs) }
    ensures { (rs : List Record) → read_from page.old.text.now start ≡ records rs → Puts page.old page.new (bytes_of (lines (state_of page.old.text.now start) (map (bare page.old.text.now) rs))) }
{
    let mut outer = start.outer;
    let mut open = start.open;
    let mut st = start;
    loop {
        match pass(page.text, st, w, STRETCH) {
            Err(_) => break,
            Ok(Passed::Over(c)) => {
                write_last(open, &mut outer, w, c, page);
                break;
            }
            Ok(Passed::On(next)) => {
                open = write_stretch(open, &mut outer, w, STRETCH, page);
                st = next;
            }
        }
    }
}

// Writes the records that a file holds, from the state on, and answers how many bytes they are.
pub(crate) fn write_held(text: &[u8], start: State, file: &[u8], out: &mut [u8]) -> usize
    requires { May text.now start.«open» start.outer (map (bare text.now) (held file.now)) }
    ensures { Put out.old 0 (bytes_of (lines (state_of text.now start) (map (bare text.now) (held file.now)))) result out.new }
{
    let mut outer = start.outer;
    let mut page = Page { text, out, at: 0 };
    let count = file.len() / Record::SIZE;
    write_last(start.open, &mut outer, file, count, &mut page);
    page.at
}

// The last stretch, of c records, and the ends of the blocks.
fn write_last(o: Open, outer: &mut [Frame; AROUND], w: &[u8], c: usize, page: &mut Page)
    requires { (c ≤ length w.now / 36) × May page.old.text.now o outer.old (map (bare page.old.text.now) (front c w.now)) }
    ensures { Puts page.old page.new (bytes_of (lines (blocks_of page.old.text.now o outer.old) (map (bare page.old.text.now) (front c w.now)))) }
{
    let open = write_stretch(o, outer, w, c, page);
    write_ends(open, outer, page);
}

// A stretch of c records.
fn write_stretch(o: Open, outer: &mut [Frame; AROUND], w: &[u8], c: usize, page: &mut Page) -> Open
    requires { (c ≤ length w.now / 36) × May page.old.text.now o outer.old (map (bare page.old.text.now) (front c w.now)) }
    ensures { Wrote page.old.text.now (blocks_of page.old.text.now o outer.old) (map (bare page.old.text.now) (front c w.now)) page.old result outer.new page.new }
{
    let mut open = o;
    for k in 0..c {
        let Some(r) = file::read(w, k) else {
            return open;
        };
        open = write_record(open, outer, r, page);
    }
    open
}

// A record: the blocks that do not have it end first.
fn write_record(o: Open, outer: &mut [Frame; AROUND], r: Record, page: &mut Page) -> Open
    requires { Ranked (frames_of page.old.text.now o outer.old) × (admits o.version (frames_of page.old.text.now o outer.old) (bare page.old.text.now r) ≡ true) }
    ensures { Wrote page.old.text.now (blocks_of page.old.text.now o outer.old) (bare page.old.text.now r ∷ []) page.old result outer.new page.new }
{
    let owner = reach_owner(o, outer, r, page);
    let taken = settle(owner, r, page);
    let home = taken.open;
    let form = taken.form;
    page.write_statement(home.inner, home.depth, form, r);
    entered(home, outer, r, form)
}

// The open blocks after a record of the innermost, which it has in that form.
fn entered(o: Open, outer: &mut [Frame; AROUND], r: Record, form: Option<Form>) -> Open
    requires { Pushes (move_in form) → o.depth < 5 }
    ensures { (s : List ℕ) → Enters s o outer.old r form result outer.new }
{
    match form {
        Some(found) => shift(o, outer, r, found.row.head / 256),
        None => o,
    }
}

// Blocks end up to the one that has the record.
fn reach_owner(o: Open, outer: &[Frame; AROUND], r: Record, page: &mut Page) -> Open
    requires { Ranked (frames_of page.old.text.now o outer.now) × (admits o.version (frames_of page.old.text.now o outer.now) (bare page.old.text.now r) ≡ true) }
    ensures { Reached page.old.text.now o outer.now (bare page.old.text.now r) page.old result page.new }
{
    let mut open = o;
    loop {
        let f = open.inner;
        if owns(f, r) {
            break open;
        }
        page.write_closing(f, open.depth);
        open = left(open, outer);
    }
}

// The line of a layer's options ends before a record that is none. After options comes a block that has none, so it turns at most once;
// one place asks for the form, whose answer would else go through memory.
fn settle(o: Open, r: Record, page: &mut Page) -> Taken
    ensures { (s : List ℕ) → Settled s o (bare s r) page.old result page.new }
{
    let mut open = o;
    loop {
        let f = open.inner;
        let form = form_for(f.block, r.kind(), r.code());
        if let Some(_) = form {
            break Taken { open, form };
        }
        if rows::form_of(f.block) != form::OPTIONS {
            break Taken { open, form };
        }
        page.end_statement();
        open = turned(open, rows::after_options(f.block));
    }
}

// All blocks end.
fn write_ends(o: Open, outer: &[Frame; AROUND], page: &mut Page)
    requires { Ranked (frames_of page.old.text.now o outer.now) }
    ensures { Puts page.old page.new (bytes_of (end_all (frames_of page.old.text.now o outer.now))) }
{
    let mut open = o;
    loop {
        page.write_closing(open.inner, open.depth);
        if open.depth == 0 {
            break;
        }
        open = left(open, outer);
    }
}
