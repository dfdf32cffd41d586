// The form of a record in a block: the word that begins it, and its row of the table.
ghost use Rattle.std.specs.Prelude.{◌≡◌, false, ℕ};
ghost use Rattle.grammar.specs.Engine.{Frame};
ghost use Rattle.rows.specs.Packed.{act_of, block_of};
ghost use Rattle.render.specs.Plain.{Plain};
ghost use Rattle.render.specs.Lines.{form_in};
ghost use Rattle.lines.specs.Formed.{as_formed, form_by, word_for};

use record::kind;
use rows::{Row, act, form, item};
use word::codes::first_word;

// The number of the word, 0 where there is none, and the row.
#[derive(Clone, Copy)]
pub struct Form {
    pub word: u8,
    pub row: Row,
}

// The form of a record of the kind and code in a block, which may have none for it.
pub fn form_for(block: u64, kind: u8, code: u8) -> Option<Form>
    ensures { (f : Frame ℕ) (p : Plain) → f.block ≡ block_of block → p.kind ≡ kind → p.code ≡ code → form_in f p ≡ as_formed kind result }
{
    if rows::form_of(block) < form::PARTS {
        let word = word_for(kind, code);
        return fitting(word, kind, code, rows::row_of(block, word));
    }
    fitting(0, kind, code, rows::part_of(block))
}

// The row, where it gives such records.
fn fitting(word: u8, kind: u8, code: u8, row: Row) -> Option<Form>
    ensures { as_formed kind result ≡ form_by word kind code false (act_of row.head row.items) }
{
    let does = row.head % 128;
    let first = row.items % 256;
    if (does < act::CLOSE)
        & (does == kind as u64)
        & ((first < item::CODE) | (item::IF_MORE <= first) | (first == item::CODE + code as u64))
    {
        Some(Form { word, row })
    } else {
        None
    }
}

// The number of the word that begins a record of the kind and code, or 0.
fn word_for(kind: u8, code: u8) -> u8
    ensures { result ≡ word_for kind code }
{
    if (kind == kind::ANTENNA) | (kind == kind::LAYER_OPTION) {
        return first_word(kind, code);
    }
    rows::word_of(kind)
}
