// The innermost block: whether it has a record, what the record says in it, and how it ends.
ghost use Rattle.std.specs.Prelude.{◌≡◌, List, ℕ, ◌-◌, ◌*◌, ◌≤◌, length};
ghost use Rattle.grammar.specs.Table.{body};
ghost use Rattle.grammar.specs.Engine.{Frame as Open};
ghost use Rattle.rows.specs.Packed.{block_of, move_of};
ghost use Rattle.parser.specs.Kept.{frame_of};
ghost use Rattle.render.specs.Pieces.{text as bytes_of};
ghost use Rattle.render.specs.Plain.{owner_of, bare};
ghost use Rattle.render.specs.Lines.{same, form_in, on_line, goes_on, ending, closing};
ghost use Rattle.lines.specs.Put.{Puts};
ghost use Rattle.lines.specs.Formed.{as_formed};
ghost use Rattle.lines.specs.Stated.{stated_in, started};

use crate::form::Form;
use crate::page::Page;
use parser::open::Frame;
use record::Record;
use rows::{act, block, form};
use word::names;

// Whether the record is the block's.
pub fn owns(f: Frame, r: Record) -> bool
    ensures { (s : List ℕ) → result ≡ same (frame_of s f).at (owner_of r.owner) }
{
    let owner = r.owner();
    if f.block == block::LIBRARY {
        return owner == Record::LIBRARY;
    }
    (owner != Record::LIBRARY) & (f.at == owner)
}

impl<'t, 'b> Page<'t, 'b> {
    // The statement of a record in the block, which so many are around, in the form that it has there.
    pub fn write_statement(&mut self, f: Frame, depth: usize, form: Option<Form>, r: Record)
        requires { (depth ≤ 16) × (form_in (frame_of self.old.text.now f) (bare self.old.text.now r) ≡ as_formed r.kind form) }
        ensures { Puts self.old self.new (stated_in self.old.text.now depth (frame_of self.old.text.now f) r) }
    {
        let Some(found) = form else {
            return;
        };
        self.start(f.block, depth, found.word);
        self.say_all(found.row.items, f, r);
        if !goes_on(f.block, found.row.head / 256) {
            self.end_line();
        }
    }

    // The word that begins a statement in the block, where there is one.
    fn start(&mut self, block: u64, depth: usize, word: u8)
        requires { depth ≤ 16 }
        ensures { Puts self.old self.new (started (on_line (body (block_of block))) depth word) }
    {
        if word != 0 {
            self.begin(if on_line(block) { 1 } else { 2 * depth }, word);
        }
    }

    // END under what opened the block, or the `;` of its line, where so many blocks are around it.
    pub fn write_closing(&mut self, f: Frame, depth: usize)
        requires { depth ≤ 16 }
        ensures { (fs : List (Open ℕ)) → length fs ≡ depth → Puts self.old self.new (bytes_of (closing (frame_of self.old.text.now f) fs)) }
    {
        let mut ending = f;
        if rows::form_of(f.block) == form::OPTIONS {
            self.end_statement();
            ending.block = rows::after_options(f.block);
        }
        self.write_ending(ending, depth);
    }

    // The same of a block whose options, if it had any, are over.
    fn write_ending(&mut self, f: Frame, depth: usize)
        requires { depth ≤ 16 }
        ensures { (o : Open ℕ) → o.label ≡ (frame_of self.old.text.now f).label → Puts self.old self.new (bytes_of (ending (depth - 1) o (body (block_of f.block)))) }
    {
        if form::OPTIONS < rows::form_of(f.block) {
            self.end_statement();
            return;
        }
        let row = rows::row_of(f.block, names::END);
        if row.head % 256 != act::CLOSE {
            return;
        }
        self.begin(2 * depth.saturating_sub(1), names::END);
        self.say_all(
            row.items,
            f,
            Record::of(0, 0, 0, Record::LIBRARY, 0, 0, 0, 0),
        );
        self.end_line();
    }
}

// Whether the records of the block stand on the line of what opened it.
fn on_line(block: u64) -> bool
    ensures { result ≡ on_line (body (block_of block)) }
{
    form::OPTIONS <= rows::form_of(block)
}

// Whether the line goes on after a statement that does this to the open blocks.
fn goes_on(block: u64, does: u64) -> bool
    ensures { (f : Open ℕ) → f.block ≡ block_of block → result ≡ goes_on f (move_of does) }
{
    on_line(next(block, does))
}

// The block in which the next record stands.
fn next(block: u64, does: u64) -> u64
    ensures { (f : Open ℕ) → f.block ≡ block_of block → on_line (body (block_of result)) ≡ goes_on f (move_of does) }
{
    let how = does % 8;
    if (how == act::ENTER) | (how == act::NAMED) {
        does / 8 % 32
    } else {
        block
    }
}
