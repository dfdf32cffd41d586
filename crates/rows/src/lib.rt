// The grammar's table in numbers: what each word begins in each block. Its rows stand in outer.rt and inner.rt.
#![tactic(auto)]

ghost use Rattle.std.specs.Prelude.{◌≡◌, false, ◌≤◌, drop};
ghost use Rattle.rows.specs.Packed.{items_of, act_of, block_of, act_in, form_in, part_in, end_in, after_in, coded, word_of_kind};

use crate::inner::{END_COUNTED, END_PARTS, POINT, of_layer, of_obs, of_options, of_pin, of_port};
use crate::outer::{NONE, SYMMETRY_WORD, of_library, of_macro, of_site, of_units};

pub mod act;
pub mod block;
pub mod form;
mod inner;
pub mod item;
mod outer;

// A row: its items, the first in the lowest byte; and what it does, in the lowest byte of its head, with what a record opens above it.
// Two words are handed back in registers: with what it opens in a word of its own reading was 7 in 100 slower, with the items as an array
// of bytes 11 in 100.
#[derive(Clone, Copy)]
pub struct Row {
    pub head: u64,
    pub items: u64,
}

// What a word begins in a block. The arms here and below are the table itself, in the order of the definition's.
#[tactic(auto, unfolding(crate::specs::Packed::act_in, crate::specs::Packed::look_up, crate::specs::Packed::block_of, crate::specs::Packed::plain, crate::specs::Packed::act_of))]
pub fn row_of(block: u64, word: u8) -> Row
    ensures { act_of result.head result.items ≡ act_in block word }
{
    match block {
        block::LIBRARY => of_library(word),
        block::UNITS => of_units(word),
        block::SITE => of_site(word),
        block::MACRO => of_macro(word),
        block::PIN => of_pin(word),
        block::PORT => of_port(word),
        block::OBS => of_obs(word),
        block::OPTIONS => of_options(word),
        block::LAYER => of_layer(word),
        _ => NONE,
    }
}

// What a block is made of.
#[tactic(auto, unfolding(crate::specs::Packed::block_of, crate::specs::Packed::form_of, crate::specs::Packed::form_in))]
pub fn form_of(block: u64) -> u64
    ensures { result ≡ form_in block }
{
    match block {
        block::LIBRARY => form::KEYED,
        block::UNITS => form::WORDED,
        block::SITE => form::KEYED,
        block::SYMMETRY => form::PARTS,
        block::MACRO => form::KEYED,
        block::PIN => form::KEYED,
        block::PORT => form::KEYED,
        block::OBS => form::KEYED,
        block::OPTIONS => form::OPTIONS,
        block::LAYER => form::KEYED,
        block::RECT => form::COUNTED,
        _ => form::PARTS,
    }
}

// The row of each part of a block that has no words.
#[tactic(auto, unfolding(crate::specs::Packed::item_at, crate::specs::Packed::items_in, crate::specs::Packed::items_of, crate::specs::Packed::block_of, crate::specs::Packed::move_of, crate::specs::Packed::plain, crate::specs::Packed::act_of, crate::specs::Packed::part_of, crate::specs::Packed::part_in))]
pub fn part_of(block: u64) -> Row
    ensures { act_of result.head result.items ≡ part_in block }
{
    match block {
        block::LIBRARY => NONE,
        block::UNITS => NONE,
        block::SITE => NONE,
        block::SYMMETRY => SYMMETRY_WORD,
        block::MACRO => NONE,
        block::PIN => NONE,
        block::PORT => NONE,
        block::OBS => NONE,
        block::OPTIONS => NONE,
        block::LAYER => NONE,
        _ => POINT,
    }
}

// The row of the `;` that ends such a block.
#[tactic(auto, unfolding(crate::specs::Packed::item_at, crate::specs::Packed::items_in, crate::specs::Packed::items_of, crate::specs::Packed::plain, crate::specs::Packed::act_of, crate::specs::Packed::end_in))]
pub fn end_of(form: u64) -> Row
    ensures { act_of result.head result.items ≡ end_in form }
{
    match form {
        form::COUNTED => END_COUNTED,
        _ => END_PARTS,
    }
}

// The block that options turn into.
pub fn after_options(block: u64) -> u64
    ensures { block_of result ≡ after_in block }
{
    let body = block::LAYER;
    body
}

// The items of a row without the first n.
pub fn skip(items: u64, n: u64) -> u64
    ensures of { items_of result ≡ drop n (items_of items) }
    ensures less { result ≤ items }
{
    let mut r = items;
    for _k in 0..n {
        r /= 256;
    }
    r
}

// The word that begins records of the kind, where it is not by their code, or 0.
pub fn word_of(kind: u8) -> u8
    ensures { coded kind ≡ false → result ≡ word_of_kind kind }
{
    let w = outer::word_of(kind);
    if w != 0 {
        return w;
    }
    inner::word_of(kind)
}
