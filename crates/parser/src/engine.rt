// What the innermost block makes of what is ahead: the row that it has for it, and the row's items.
ghost use Rattle.std.specs.Prelude.{◌≡◌, cond, List, ℕ, ◌%◌, ◌≤◌, eqb};
ghost use Rattle.grammar.specs.Table.{body};
ghost use Rattle.grammar.specs.Engine.{blank};
ghost use Rattle.grammar.specs.Reading.{filed, owner_at};
ghost use Rattle.rows.specs.Packed.{block_of, act_of};
ghost use Rattle.parser.specs.Code.{ahead_of};
ghost use Rattle.parser.specs.Kept.{frame_of};
ghost use Rattle.parser.specs.Drafts.{draft_of};
ghost use Rattle.parser.specs.Stepped.{as_step, step_in, filed_step, runs};

use crate::draft::Sketch;
use crate::items::items;
use crate::open::Frame;
use crate::step::{Chosen, choose};
use crate::take;
use lexer::Token;
use record::Record;
use refusal::Refusal;
use rows::{Row, act, block};

#[derive(Clone, Copy)]
pub enum Step {
    // A record, what it does to the open blocks, and the token then held.
    Gives(Token, Record, u64),
    // The block ends.
    Ends(Token),
    // The block goes on as another.
    Goes(Token, u64),
    // The block has ended, and what is ahead is the enclosing block's.
    Back,
}

// One step in the block f, while the version is in force and the token is held.
pub fn step_in(lent: &&[u8], version: u64, f: Frame, held: Token) -> Result<Step, Refusal>
    ensures { as_step lent.now.now result ≡ step_in lent.now.now version (frame_of lent.now.now f) held (body (block_of f.block)) }
{
    let chosen = choose(lent, version, f, held)?;
    match chosen {
        Chosen::Runs(row, first) => run(lent, f, row, held, first),
        Chosen::Goes(next, block) => Ok(Step::Goes(next, block)),
        Chosen::Back => Ok(Step::Back),
    }
}

// The items of a row from the token `first` on, of a statement that starts with the token held.
fn run(lent: &&[u8], f: Frame, row: Row, held: Token, first: Token) -> Result<Step, Refusal>
    requires { row.head % 256 ≤ 64 }
    ensures { as_step lent.now.now result ≡ filed_step (runs (frame_of lent.now.now f) (ahead_of lent.now.now held) (ahead_of lent.now.now first) (act_of row.head row.items)) }
{
    let act = row.head % 256;
    let kind = kind_of(act);
    let (d, next) = items(lent, row.items, kind, f, first)?;
    if act == act::CLOSE {
        return Ok(Step::Ends(next));
    }
    Ok(Step::Gives(next, record_of(lent, kind, f, held, d), row.head / 256))
}

// The kind of the record that an act gives, and 0 where the block ends.
fn kind_of(act: u64) -> u8
    requires { act ≤ 64 }
    ensures { result ≡ cond (eqb act 64) 0 act }
{
    if act == act::CLOSE {
        return 0;
    }
    act as u8
}

// The record of a sketch.
fn record_of(lent: &&[u8], kind: u8, f: Frame, held: Token, d: Sketch) -> Record
    ensures { result ≡ filed (draft_of lent.now.now (blank kind (frame_of lent.now.now f) (ahead_of lent.now.now held)) d).rec }
{
    Record::of(
        kind,
        (d.code % 256) as u8,
        held.start,
        owner_of(f),
        d.name,
        take::part(*lent, d.name, d.len).len(),
        d.x,
        d.y,
    )
}

// Where the block starts, as its records have it.
fn owner_of(f: Frame) -> usize
    ensures { (s : List ℕ) → result ≡ owner_at (frame_of s f).at }
{
    if f.block == block::LIBRARY {
        return Record::LIBRARY;
    }
    f.at
}
