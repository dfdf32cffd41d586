// THE TABLE, beside crates/grammar/specs/Table.antt line by line: the rows of pins, ports, obstructions and layers, and under those of each
// block what each word begins in it.
#![tactic(auto, unfolding(crate::specs::Packed::act_of, crate::specs::Packed::plain, crate::specs::Packed::move_of, crate::specs::Packed::block_of, crate::specs::Packed::items_of, crate::specs::Packed::items_in, crate::specs::Packed::item_at, crate::specs::Packed::kinds_of, crate::specs::Packed::kinds_in, crate::specs::Packed::key_at, crate::specs::Packed::nth, crate::specs::Packed::look_up, crate::specs::Packed::gives, crate::specs::Packed::begun_by, crate::specs::Packed::coded, grammar::specs::Turns::act_for, word::specs::Words::keys, word::specs::Words::values, word::specs::Words::words, word::specs::Words::raised, word::specs::Words::upper, word::specs::Words::same, word::specs::Words::first_where, word::specs::Words::word_of))]

ghost use Rattle.std.specs.Prelude.{◌≡◌, false};
ghost use Rattle.grammar.specs.Grammar.{Pin, Port, Obs, Options, Layer};
ghost use Rattle.grammar.specs.Table.{body};
ghost use Rattle.rows.specs.Packed.{act_of, look_up, coded, begun_by, inner_rows};

use crate::act::*;
use crate::item::*;
use crate::outer::{END_NAMED, LATER, UNKNOWN};
use crate::{Row, block};
use record::{code, kind};
use word::names;

// The next byte of a number.
const S: u64 = 256;

// An antenna amount, with its layer if one is given
const AMOUNT: u64 = X
    + S * (IF_MORE + 2 + S * (KEY + (names::LAYER as u64) + S * (NAME + S * SEMI)));

// `parse_pin`
const DIRECTION: Row = Row {
    head: (kind::DIRECTION as u64),
    items: FIRST_KEY + S * (SECOND + S * SEMI),
};

const USE: Row = Row {
    head: (kind::USE as u64),
    items: VALUE + S * SEMI,
};

const SHAPE: Row = Row {
    head: (kind::SHAPE as u64),
    items: VALUE + S * SEMI,
};

const ANTENNAMODEL: Row = Row {
    head: (kind::ANTENNAMODEL as u64),
    items: VALUE,
};

const ANTENNADIFFAREA: Row = Row {
    head: (kind::ANTENNA as u64),
    items: CODE + 1 + S * AMOUNT,
};

const ANTENNAGATEAREA: Row = Row {
    head: (kind::ANTENNA as u64),
    items: CODE + 2 + S * AMOUNT,
};

const ANTENNAPARTIALMETALAREA: Row = Row {
    head: (kind::ANTENNA as u64),
    items: CODE + 3 + S * AMOUNT,
};

const ANTENNAPARTIALMETALSIDEAREA: Row = Row {
    head: (kind::ANTENNA as u64),
    items: CODE + 4 + S * AMOUNT,
};

const ANTENNAPARTIALCUTAREA: Row = Row {
    head: (kind::ANTENNA as u64),
    items: CODE + 5 + S * AMOUNT,
};

const ANTENNAPARTIALDIFFAREA: Row = Row {
    head: (kind::ANTENNA as u64),
    items: CODE + 6 + S * AMOUNT,
};

const ANTENNAMAXAREACAR: Row = Row {
    head: (kind::ANTENNA as u64),
    items: CODE + 7 + S * AMOUNT,
};

const ANTENNAMAXSIDEAREACAR: Row = Row {
    head: (kind::ANTENNA as u64),
    items: CODE + 8 + S * AMOUNT,
};

const ANTENNAMAXCUTCAR: Row = Row {
    head: (kind::ANTENNA as u64),
    items: CODE + 9 + S * AMOUNT,
};

const PORT: Row = Row {
    head: (kind::PORT as u64) + S * (ENTER + 8 * block::PORT),
    items: 0,
};

// What a word begins in a PIN.
pub(crate) fn of_pin(word: u8) -> Row
    ensures { act_of result.head result.items ≡ look_up (body Pin) word }
{
    match word {
        names::DIRECTION => DIRECTION,
        names::USE => USE,
        names::SHAPE => SHAPE,
        names::ANTENNAMODEL => ANTENNAMODEL,
        names::ANTENNADIFFAREA => ANTENNADIFFAREA,
        names::ANTENNAGATEAREA => ANTENNAGATEAREA,
        names::ANTENNAPARTIALMETALAREA => ANTENNAPARTIALMETALAREA,
        names::ANTENNAPARTIALMETALSIDEAREA => ANTENNAPARTIALMETALSIDEAREA,
        names::ANTENNAPARTIALCUTAREA => ANTENNAPARTIALCUTAREA,
        names::ANTENNAPARTIALDIFFAREA => ANTENNAPARTIALDIFFAREA,
        names::ANTENNAMAXAREACAR => ANTENNAMAXAREACAR,
        names::ANTENNAMAXSIDEAREACAR => ANTENNAMAXSIDEAREACAR,
        names::ANTENNAMAXCUTCAR => ANTENNAMAXCUTCAR,
        names::PORT => PORT,
        names::TAPERRULE => LATER,
        names::NETEXPR => LATER,
        names::SUPPLYSENSITIVITY => LATER,
        names::GROUNDSENSITIVITY => LATER,
        names::MUSTJOIN => LATER,
        names::PROPERTY => LATER,
        names::END => END_NAMED,
        _ => UNKNOWN,
    }
}

// What a layer is made of in a port or among the obstructions: `parse_layer_geometries`
const LAYER: Row = Row {
    head: (kind::LAYER as u64) + S * (ENTER + 8 * block::OPTIONS),
    items: NAME,
};

// `parse_port`, `parse_obstructions`
const PORT_CLASS: Row = Row {
    head: (kind::PORT_CLASS as u64),
    items: VALUE + S * SEMI,
};

const END: Row = Row {
    head: CLOSE,
    items: 0,
};

// What a word begins in a PORT.
pub(crate) fn of_port(word: u8) -> Row
    ensures { act_of result.head result.items ≡ look_up (body Port) word }
{
    match word {
        names::CLASS => PORT_CLASS,
        names::LAYER => LAYER,
        names::END => END,
        _ => UNKNOWN,
    }
}

// What a word begins in an OBS.
pub(crate) fn of_obs(word: u8) -> Row
    ensures { act_of result.head result.items ≡ look_up (body Obs) word }
{
    match word {
        names::LAYER => LAYER,
        names::END => END,
        _ => UNKNOWN,
    }
}

// `parse_layer_geometries`: the options of the LAYER line
const EXCEPTPGNET: Row = Row {
    head: (kind::LAYER_OPTION as u64),
    items: CODE + (code::EXCEPTPGNET as u64),
};

const SPACING: Row = Row {
    head: (kind::LAYER_OPTION as u64),
    items: CODE + (code::SPACING as u64) + S * X,
};

const DESIGNRULEWIDTH: Row = Row {
    head: (kind::LAYER_OPTION as u64),
    items: CODE + (code::DESIGNRULEWIDTH as u64) + S * X,
};

// What a word begins in a LAYER's options.
pub(crate) fn of_options(word: u8) -> Row
    ensures { act_of result.head result.items ≡ look_up (body Options) word }
{
    match word {
        names::EXCEPTPGNET => EXCEPTPGNET,
        names::SPACING => SPACING,
        names::DESIGNRULEWIDTH => DESIGNRULEWIDTH,
        _ => UNKNOWN,
    }
}

// The body of a layer, which ends before a LAYER or an END
const WIDTH: Row = Row {
    head: (kind::WIDTH as u64),
    items: X + S * SEMI,
};

const RECT: Row = Row {
    head: (kind::RECT as u64)
        + S * (ENTER
            + 8 * block::RECT
            + S * ((kind::POINT as u64) + S * ((kind::POINT as u64) + S))),
    items: NO_NAME,
};

const POLYGON: Row = Row {
    head: (kind::POLYGON as u64)
        + S * (ENTER
            + 8 * block::POLYGON
            + S * ((kind::POINT as u64)
                + S * ((kind::POINT as u64) + S * ((kind::POINT as u64) + S)))),
    items: 0,
};

const PATH: Row = Row {
    head: (kind::PATH as u64)
        + S * (ENTER
            + 8 * block::PATH
            + S * ((kind::POINT as u64) + S * ((kind::POINT as u64) + S))),
    items: 0,
};

const VIA: Row = Row {
    head: (kind::VIA as u64),
    items: NO_NAME + S * (X + S * (Y + S * (NAME + S * SEMI))),
};

const BEFORE: Row = Row {
    head: BACK,
    items: 0,
};

// What a word begins in a LAYER.
pub(crate) fn of_layer(word: u8) -> Row
    ensures { act_of result.head result.items ≡ look_up (body Layer) word }
{
    match word {
        names::WIDTH => WIDTH,
        names::RECT => RECT,
        names::POLYGON => POLYGON,
        names::PATH => PATH,
        names::VIA => VIA,
        names::LAYER => BEFORE,
        names::END => BEFORE,
        _ => UNKNOWN,
    }
}

// `parse_geometry`: two points, at least three, at least two
pub const POINT: Row = Row {
    head: (kind::POINT as u64),
    items: X + S * Y,
};

// The `;` that ends parts, of which none may lack, and that which ends as many as the block lacked
pub const END_PARTS: Row = Row {
    head: CLOSE,
    items: WHOLE + 6 + S * SEMI,
};

pub const END_COUNTED: Row = Row {
    head: CLOSE,
    items: SEMI,
};

// The word that begins a record of the kind, of those whose rows stand here; 0 of another kind. Those of ANTENNA and LAYER_OPTION
// begin with a word by their code.
pub(crate) fn word_of(kind: u8) -> u8
    ensures { coded kind ≡ false → result ≡ begun_by kind inner_rows }
{
    match kind {
        kind::DIRECTION => names::DIRECTION,
        kind::USE => names::USE,
        kind::SHAPE => names::SHAPE,
        kind::ANTENNAMODEL => names::ANTENNAMODEL,
        kind::PORT => names::PORT,
        kind::PORT_CLASS => names::CLASS,
        kind::LAYER => names::LAYER,
        kind::WIDTH => names::WIDTH,
        kind::RECT => names::RECT,
        kind::POLYGON => names::POLYGON,
        kind::PATH => names::PATH,
        kind::VIA => names::VIA,
        _ => 0,
    }
}
