// The row that a block has for what is ahead, and the token that is held before its items.
ghost use Rattle.std.specs.Prelude.{◌≡◌, ℕ, ◌%◌, ◌<◌, List};
ghost use Rattle.grammar.specs.Turns as T;
ghost use Rattle.grammar.specs.Table.{body};
ghost use Rattle.rows.specs.Packed.{block_of, act_of, form_in};
ghost use Rattle.parser.specs.Code.{ahead_of};
ghost use Rattle.parser.specs.Kept.{frame_of};
ghost use Rattle.parser.specs.Stepped.{as_chosen, runs_low, SameAct, stopped_as, worded_by};
ghost use Rattle.grammar.specs.Engine.{get_name};
ghost use Rattle.grammar.specs.Tokens.{next_token};
ghost use Rattle.lexer.specs.declared.Token.{Token};
ghost use Rattle.parser.specs.declared.open.Frame.{Frame};

use crate::open::Frame;
use crate::take::Taken;
use crate::{peek, take};
use lexer::{Kind, Token};
use refusal::Refusal;
use rows::{Row, act, form};

#[derive(Clone, Copy)]
pub enum Chosen {
    // The row's items follow, from the token on.
    Runs(Row, Token),
    // The block goes on as another.
    Goes(Token, u64),
    // The block has ended, and what is ahead is the enclosing block's.
    Back,
}

// What the block f has for the token held, while the version is in force.
pub fn choose(lent: &&[u8], version: u64, f: Frame, held: Token) -> Result<Chosen, Refusal>
    ensures of { as_chosen lent.now.now f held result ≡ T.step version (frame_of lent.now.now f) (ahead_of lent.now.now held) (body (block_of f.block)) }
    ensures low { runs_low result }
{
    match rows::form_of(f.block) {
        form::KEYED => keyed(lent, version, f, held),
        form::PARTS => parts(f, held),
        form::COUNTED => counted(f, held),
        _ => spoken(lent, version, f, held),
    }
}

// The word is looked at while it is held. Nearly all rows hold at every version and take the word: they are told first, since choosing
// between a row and what it is at another version took a twentieth of reading.
fn keyed(lent: &&[u8], version: u64, f: Frame, held: Token) -> Result<Chosen, Refusal>
    ensures of { form_in f.block ≡ 0 → as_chosen lent.now.now f held result ≡ T.step version (frame_of lent.now.now f) (ahead_of lent.now.now held) (body (block_of f.block)) }
    ensures low { runs_low result }
{
    let key = peek::peek_key(lent, held)?;
    let row = rows::row_of(f.block, key);
    if act::CLOSE < row.head % 256 {
        return perform(lent, version, row, held);
    }
    let first = take::next_token(lent, held)?;
    Ok(Chosen::Runs(row, first))
}

// What a row does at this version while its word is held.
fn perform(lent: &&[u8], version: u64, any: Row, held: Token) -> Result<Chosen, Refusal>
    ensures of { (f : Frame) → as_chosen lent.now.now f held result ≡ T.perform version (frame_of lent.now.now f) (ahead_of lent.now.now held) (next_token (ahead_of lent.now.now held)) (ahead_of lent.now.now held).held.mark (act_of any.head any.items) }
    ensures low { runs_low result }
{
    let row = settled(version, any);
    let act = row.head % 256;
    if act::CLOSE < act {
        return stopped(act, held);
    }
    let first = take::next_token(lent, held)?;
    Ok(Chosen::Runs(row, first))
}

// The word is taken before it is looked at.
fn worded(lent: &&[u8], version: u64, f: Frame, held: Token) -> Result<Chosen, Refusal>
    ensures of { as_chosen lent.now.now f held result ≡ worded_by version (frame_of lent.now.now f) (ahead_of lent.now.now held) (body (block_of f.block)) (get_name (ahead_of lent.now.now held)) }
    ensures low { runs_low result }
{
    let next = take::next_token(lent, held)?;
    let taken = Taken {
        token: held,
        held: next,
    };
    let first = taken.get_name()?;
    let row = settled(
        version,
        rows::row_of(f.block, word::word_in(lent, held.start, held.stop)),
    );
    let act = row.head % 256;
    if act::CLOSE < act {
        return stopped(act, first);
    }
    Ok(Chosen::Runs(row, first))
}

// A word that is taken, or the `;` that ends options. Both forms of block come here, so that `worded` has one caller.
fn spoken(lent: &&[u8], version: u64, f: Frame, held: Token) -> Result<Chosen, Refusal>
    ensures of { (form_in f.block ≡ 0 → ⊥) → (form_in f.block ≡ 3 → ⊥) → (form_in f.block ≡ 4 → ⊥) → as_chosen lent.now.now f held result ≡ T.step version (frame_of lent.now.now f) (ahead_of lent.now.now held) (body (block_of f.block)) }
    ensures low { runs_low result }
{
    let form = rows::form_of(f.block);
    if (form != form::OPTIONS) | (held.kind != Kind::SemiColon) {
        return worded(lent, version, f, held);
    }
    let next = take::next_token(lent, held)?;
    Ok(Chosen::Goes(next, rows::after_options(f.block)))
}

// A part, or the `;` that ends them.
fn parts(f: Frame, held: Token) -> Result<Chosen, Refusal>
    ensures of { form_in f.block ≡ 3 → (s : List ℕ) (v : ℕ) → as_chosen s f held result ≡ T.step v (frame_of s f) (ahead_of s held) (body (block_of f.block)) }
    ensures low { form_in f.block ≡ 3 → runs_low result }
{
    if held.kind == Kind::SemiColon {
        return Ok(Chosen::Runs(rows::end_of(form::PARTS), held));
    }
    Ok(Chosen::Runs(rows::part_of(f.block), held))
}

// A part, or the `;` after the last that the block lacked.
fn counted(f: Frame, held: Token) -> Result<Chosen, Refusal>
    ensures of { form_in f.block ≡ 4 → (s : List ℕ) (v : ℕ) → as_chosen s f held result ≡ T.step v (frame_of s f) (ahead_of s held) (body (block_of f.block)) }
    ensures low { form_in f.block ≡ 4 → runs_low result }
{
    if f.lacks < 256 {
        return Ok(Chosen::Runs(rows::end_of(form::COUNTED), held));
    }
    Ok(Chosen::Runs(rows::part_of(f.block), held))
}

// A row that takes nothing.
fn stopped(act: u64, mark: Token) -> Result<Chosen, Refusal>
    requires { (64 < act) × (act < 128) }
    ensures of { (s : List ℕ) (f : Frame) (held : Token) → as_chosen s f held result ≡ stopped_as act (ahead_of s mark).held.mark }
    ensures low { runs_low result }
{
    if act == act::BACK {
        return Ok(Chosen::Back);
    }
    if act < act::REFUSE {
        return Err(take::complain(0, mark));
    }
    Err(take::complain((act - act::REFUSE) as usize, mark))
}

// The row at this version: what holds only up to 5.4 is the row without that, or refusal 5.
fn settled(version: u64, row: Row) -> Row
    ensures same { SameAct version (act_of result.head result.items) (act_of row.head row.items) }
    ensures plain { result.head % 256 < 128 }
{
    let h = row.head;
    if h % 256 < act::UP_TO_54 {
        return row;
    }
    if version <= 5400000 {
        Row {
            head: h - act::UP_TO_54,
            ..row
        }
    } else {
        Row {
            head: act::REFUSE + 5,
            items: 0,
        }
    }
}
