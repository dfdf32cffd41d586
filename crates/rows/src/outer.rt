// THE TABLE, beside crates/grammar/specs/Table.antt line by line: the rows of the library, its units, its sites and its macros, and under
// those of each block what each word begins in it.
#![tactic(auto, unfolding(crate::specs::Packed::act_of, crate::specs::Packed::plain, crate::specs::Packed::move_of, crate::specs::Packed::block_of, crate::specs::Packed::items_of, crate::specs::Packed::items_in, crate::specs::Packed::item_at, crate::specs::Packed::kinds_of, crate::specs::Packed::kinds_in, crate::specs::Packed::key_at, crate::specs::Packed::nth, crate::specs::Packed::look_up, crate::specs::Packed::gives, crate::specs::Packed::begun_by, crate::specs::Packed::coded, grammar::specs::Turns::act_for, word::specs::Words::keys, word::specs::Words::values, word::specs::Words::words, word::specs::Words::raised, word::specs::Words::upper, word::specs::Words::same, word::specs::Words::first_where, word::specs::Words::word_of))]

ghost use Rattle.std.specs.Prelude.{◌≡◌};
ghost use Rattle.grammar.specs.Grammar.{Library, Units, Site, Macro};
ghost use Rattle.grammar.specs.Table.{body};
ghost use Rattle.rows.specs.Packed.{act_of, look_up, begun_by, outer_rows};

use crate::act::*;
use crate::item::*;
use crate::{Row, block};
use record::{code, kind};
use word::names;

// The next byte of a number.
const S: u64 = 256;

// A word that begins nothing, and one that is not supported; and a block that has no words.
pub const UNKNOWN: Row = Row {
    head: REFUSE + 5,
    items: 0,
};

pub const LATER: Row = Row {
    head: REFUSE + 8,
    items: 0,
};

pub const NONE: Row = Row {
    head: REFUSE,
    items: 0,
};

// `parse_size`
const SIZE: Row = Row {
    head: (kind::SIZE as u64),
    items: X + S * (KEY + (names::BY as u64) + S * (Y + S * SEMI)),
};

// `parse_symmetries`: the words up to the `;`
const SYMMETRY: Row = Row {
    head: (kind::SYMMETRY as u64) + S * (ENTER + 8 * block::SYMMETRY),
    items: 0,
};

// `parse_lib`
const VERSION_ROW: Row = Row {
    head: (kind::VERSION as u64) + S * (VERSION),
    items: X + S * (SEMI + S * VERSIONS),
};

const BUSBITCHARS: Row = Row {
    head: (kind::BUSBITCHARS as u64),
    items: STRING + 2 + S * SEMI,
};

const DIVIDERCHAR: Row = Row {
    head: (kind::DIVIDERCHAR as u64),
    items: STRING + 1 + S * SEMI,
};

const NAMESCASESENSITIVE: Row = Row {
    head: (kind::NAMESCASESENSITIVE as u64) + UP_TO_54,
    items: VALUE + S * SEMI,
};

const NOWIREEXTENSIONATPIN: Row = Row {
    head: (kind::NOWIREEXTENSIONATPIN as u64),
    items: VALUE + S * SEMI,
};

const UNITS: Row = Row {
    head: (kind::UNITS as u64) + S * (ENTER + 8 * block::UNITS),
    items: 0,
};

const SITE: Row = Row {
    head: (kind::SITE as u64)
        + S * (NAMED
            + 8 * block::SITE
            + S * ((kind::SITE_CLASS as u64) + S * ((kind::SIZE as u64) + S))),
    items: NAME,
};

const MACRO: Row = Row {
    head: (kind::MACRO as u64) + S * (NAMED + 8 * block::MACRO),
    items: NAME,
};

const END_LIBRARY: Row = Row {
    head: CLOSE,
    items: KEY + (names::LIBRARY as u64),
};

// What a word begins in the library.
pub(crate) fn of_library(word: u8) -> Row
    ensures { act_of result.head result.items ≡ look_up (body Library) word }
{
    match word {
        names::VERSION => VERSION_ROW,
        names::BUSBITCHARS => BUSBITCHARS,
        names::DIVIDERCHAR => DIVIDERCHAR,
        names::NAMESCASESENSITIVE => NAMESCASESENSITIVE,
        names::NOWIREEXTENSIONATPIN => NOWIREEXTENSIONATPIN,
        names::UNITS => UNITS,
        names::SITE => SITE,
        names::MACRO => MACRO,
        names::BEGINEXT => LATER,
        names::END => END_LIBRARY,
        _ => UNKNOWN,
    }
}

// `parse_units`
const DATABASE: Row = Row {
    head: (kind::DATABASE as u64),
    items: WORD_MICRONS + S * (X + S * (SEMI + S * MICRONS)),
};

const END_UNITS: Row = Row {
    head: CLOSE,
    items: WORD_UNITS,
};

// What a word begins in UNITS.
pub(crate) fn of_units(word: u8) -> Row
    ensures { act_of result.head result.items ≡ look_up (body Units) word }
{
    match word {
        names::DATABASE => DATABASE,
        names::TIME => LATER,
        names::CAPACITANCE => LATER,
        names::RESISTANCE => LATER,
        names::POWER => LATER,
        names::CURRENT => LATER,
        names::VOLTAGE => LATER,
        names::FREQUENCY => LATER,
        names::END => END_UNITS,
        _ => UNKNOWN,
    }
}

// `parse_site_def`: CLASS and SIZE must both occur
const SITE_CLASS: Row = Row {
    head: (kind::SITE_CLASS as u64),
    items: VALUE + S * SEMI,
};

const SITE_ELSE: Row = Row {
    head: REFUSE + 6,
    items: 0,
};

const END_SITE: Row = Row {
    head: CLOSE,
    items: OWN + S * (WHOLE + 10),
};

// What a word begins in a SITE.
pub(crate) fn of_site(word: u8) -> Row
    ensures { act_of result.head result.items ≡ look_up (body Site) word }
{
    match word {
        names::CLASS => SITE_CLASS,
        names::SYMMETRY => SYMMETRY,
        names::SIZE => SIZE,
        names::ROWPATTERN => LATER,
        names::END => END_SITE,
        _ => SITE_ELSE,
    }
}

// The words of a SYMMETRY
pub const SYMMETRY_WORD: Row = Row {
    head: (kind::SYMMETRY_WORD as u64),
    items: VALUE,
};

// `parse_macro`, but that SOURCE, which it reads, is refused while it is still held
const MACRO_CLASS: Row = Row {
    head: (kind::MACRO_CLASS as u64),
    items: FIRST + S * (SECOND + S * SEMI),
};

const MACRO_SITE: Row = Row {
    head: (kind::MACRO_SITE as u64),
    items: NAME + S * SEMI,
};

const FOREIGN: Row = Row {
    head: (kind::FOREIGN as u64),
    items: NAME
        + S * (IF_MORE
            + 3
            + S * (X
                + S * (Y + S * (CODE + (code::WITH_POINT as u64) + S * (NO_NAME + S * SEMI))))),
};

const ORIGIN: Row = Row {
    head: (kind::ORIGIN as u64),
    items: X + S * (Y + S * SEMI),
};

const SOURCE: Row = Row {
    head: REFUSE + 8 + UP_TO_54,
    items: 0,
};

const PIN: Row = Row {
    head: (kind::PIN as u64) + S * (NAMED + 8 * block::PIN),
    items: NAME,
};

const OBS: Row = Row {
    head: (kind::OBS as u64) + S * (ENTER + 8 * block::OBS),
    items: 0,
};

pub const END_NAMED: Row = Row {
    head: CLOSE,
    items: OWN,
};

// What a word begins in a MACRO.
pub(crate) fn of_macro(word: u8) -> Row
    ensures { act_of result.head result.items ≡ look_up (body Macro) word }
{
    match word {
        names::CLASS => MACRO_CLASS,
        names::SITE => MACRO_SITE,
        names::FOREIGN => FOREIGN,
        names::ORIGIN => ORIGIN,
        names::SIZE => SIZE,
        names::SYMMETRY => SYMMETRY,
        names::SOURCE => SOURCE,
        names::PIN => PIN,
        names::OBS => OBS,
        names::END => END_NAMED,
        _ => UNKNOWN,
    }
}

// The word that begins a record of the kind, of those whose rows stand here; 0 of another kind.
pub(crate) fn word_of(kind: u8) -> u8
    ensures { result ≡ begun_by kind outer_rows }
{
    match kind {
        kind::VERSION => names::VERSION,
        kind::BUSBITCHARS => names::BUSBITCHARS,
        kind::DIVIDERCHAR => names::DIVIDERCHAR,
        kind::NAMESCASESENSITIVE => names::NAMESCASESENSITIVE,
        kind::NOWIREEXTENSIONATPIN => names::NOWIREEXTENSIONATPIN,
        kind::UNITS => names::UNITS,
        kind::DATABASE => names::DATABASE,
        kind::SITE => names::SITE,
        kind::SITE_CLASS => names::CLASS,
        kind::SYMMETRY => names::SYMMETRY,
        kind::SIZE => names::SIZE,
        kind::MACRO => names::MACRO,
        kind::MACRO_CLASS => names::CLASS,
        kind::MACRO_SITE => names::SITE,
        kind::FOREIGN => names::FOREIGN,
        kind::ORIGIN => names::ORIGIN,
        kind::PIN => names::PIN,
        kind::OBS => names::OBS,
        _ => 0,
    }
}
