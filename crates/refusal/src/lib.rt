// What every call says when it cannot use what it was given: a number, a place and a line, as the table
// "Numbers that come back" of the rules has them.
#![tactic(auto)]

ghost use Rattle.std.specs.Prelude.{◌≡◌};
ghost use Rattle.refusal.specs.Table.{refused, done, too_long, not_ascii, no_token, wrong_kind, not_key, not_allowed, another_word, not_supported, not_numeral, site_lacks, record_room, text_room, not_whole, wrong_record, lacking, index_differs};

// A number and no enum: the steps of the grammar are proved for the numbers of all rows, also for one that no case has, and C is told it.
// It has a whole word, so that a token and a refusal lie alike in an answer that is the one or the other.
#[derive(Clone, Copy)]
pub struct Refusal {
    pub number: usize,
    pub place: usize,
    pub line: usize,
}

impl Refusal {
    pub const DONE: usize = 0;

    pub const TOO_LONG: usize = 1;

    pub const NOT_ASCII: usize = 2;

    pub const NO_TOKEN: usize = 3;

    pub const WRONG_KIND: usize = 4;

    pub const NOT_KEY: usize = 5;

    pub const NOT_ALLOWED: usize = 6;

    pub const ANOTHER_WORD: usize = 7;

    pub const NOT_SUPPORTED: usize = 8;

    pub const NOT_NUMERAL: usize = 9;

    pub const SITE_LACKS: usize = 10;

    pub const RECORD_ROOM: usize = 11;

    pub const TEXT_ROOM: usize = 12;

    pub const NOT_WHOLE: usize = 13;

    pub const WRONG_RECORD: usize = 14;

    pub const LACKING: usize = 15;

    pub const INDEX_DIFFERS: usize = 16;

    // No refusal: the call is done, with so many rows or bytes written.
    pub fn done(count: usize) -> Self
        ensures { result ≡ refused done count 0 }
    {
        Self {
            number: Self::DONE,
            place: count,
            line: 0,
        }
    }

    // The text has more bytes than the library reads.
    pub fn too_long() -> Self
        ensures { result ≡ refused too_long 0 0 }
    {
        Self {
            number: Self::TOO_LONG,
            place: 0,
            line: 0,
        }
    }

    // The byte at the place is above 127.
    pub fn not_ascii(place: usize) -> Self
        ensures { result ≡ refused not_ascii place 0 }
    {
        Self {
            number: Self::NOT_ASCII,
            place,
            line: 0,
        }
    }

    // The byte at the place, on the line, starts no token.
    pub fn no_token(place: usize, line: usize) -> Self
        ensures { result ≡ refused no_token place line }
    {
        Self::on_line(Self::NO_TOKEN, place, line)
    }

    // The token before the one held is of the wrong kind, or the end cannot be taken. From here to 10 the place is the end of the token
    // held ahead, or the text's length, and the line is that of the place.
    pub fn wrong_kind(place: usize, line: usize) -> Self
        ensures { result ≡ refused wrong_kind place line }
    {
        Self::on_line(Self::WRONG_KIND, place, line)
    }

    // A word is no key word here.
    pub fn not_key(place: usize, line: usize) -> Self
        ensures { result ≡ refused not_key place line }
    {
        Self::on_line(Self::NOT_KEY, place, line)
    }

    // A value is not allowed.
    pub fn not_allowed(place: usize, line: usize) -> Self
        ensures { result ≡ refused not_allowed place line }
    {
        Self::on_line(Self::NOT_ALLOWED, place, line)
    }

    // Another word is required.
    pub fn another_word(place: usize, line: usize) -> Self
        ensures { result ≡ refused another_word place line }
    {
        Self::on_line(Self::ANOTHER_WORD, place, line)
    }

    // Known, and not supported.
    pub fn not_supported(place: usize, line: usize) -> Self
        ensures { result ≡ refused not_supported place line }
    {
        Self::on_line(Self::NOT_SUPPORTED, place, line)
    }

    // A numeral is none, or cannot be held.
    pub fn not_numeral(place: usize, line: usize) -> Self
        ensures { result ≡ refused not_numeral place line }
    {
        Self::on_line(Self::NOT_NUMERAL, place, line)
    }

    // A SITE lacks CLASS or SIZE.
    pub fn site_lacks(place: usize, line: usize) -> Self
        ensures { result ≡ refused site_lacks place line }
    {
        Self::on_line(Self::SITE_LACKS, place, line)
    }

    // What is refused at a place of the text, on its line.
    fn on_line(number: usize, place: usize, line: usize) -> Self
        ensures { result ≡ refused number place line }
    {
        Self {
            number,
            place,
            line,
        }
    }

    // The buffer has room for fewer rows than are needed: records, entries of an index, or answers.
    pub fn record_room(needed: usize) -> Self
        ensures { result ≡ refused record_room needed 0 }
    {
        Self {
            number: Self::RECORD_ROOM,
            place: needed,
            line: 0,
        }
    }

    // The text buffer has room for fewer bytes than are needed.
    pub fn text_room(bytes: usize) -> Self
        ensures { result ≡ refused text_room bytes 0 }
    {
        Self {
            number: Self::TEXT_ROOM,
            place: bytes,
            line: 0,
        }
    }

    // The bytes of a file, so many, are no whole number of its rows.
    pub fn not_whole(length: usize) -> Self
        ensures { result ≡ refused not_whole length 0 }
    {
        Self {
            number: Self::NOT_WHOLE,
            place: length,
            line: 0,
        }
    }

    // The record at the index is foreign, or equal to an earlier one.
    pub fn wrong_record(index: usize) -> Self
        ensures { result ≡ refused wrong_record index 0 }
    {
        Self {
            number: Self::WRONG_RECORD,
            place: index,
            line: 0,
        }
    }

    // The record whose statement starts there is lacking.
    pub fn lacking(start: usize) -> Self
        ensures { result ≡ refused lacking start 0 }
    {
        Self {
            number: Self::LACKING,
            place: start,
            line: 0,
        }
    }

    // The index differs at the position from the one that would be built.
    pub fn index_differs(position: usize) -> Self
        ensures { result ≡ refused index_differs position 0 }
    {
        Self {
            number: Self::INDEX_DIFFERS,
            place: position,
            line: 0,
        }
    }
}
