// The tokens of a line.
ghost use Rattle.std.specs.Prelude.{[], ◌∷◌, ◌++◌, replicate};
ghost use Rattle.word.specs.Spelling.{spelling};
ghost use Rattle.parser.specs.Kept.{name_in};
ghost use Rattle.render.specs.Pieces.{text as bytes_of};
ghost use Rattle.render.specs.Says.{word, number as number_of, semicolon, quoted};
ghost use Rattle.render.specs.Lines.{spaced, line_end};
ghost use Rattle.lines.specs.Put.{Puts};
ghost use Rattle.lines.specs.Said.{name_said};

use crate::page::Page;

impl<'t, 'b> Page<'t, 'b> {
    // A word after so many spaces.
    pub(crate) fn begin(&mut self, n: usize, k: u8)
        ensures { Puts self.old self.new (replicate n 32 ++ spelling k) }
    {
        self.put_spaces(n);
        self.put_word(k);
    }

    pub(crate) fn next_word(&mut self, k: u8)
        ensures { Puts self.old self.new (bytes_of (spaced (word k ∷ []))) }
    {
        self.put_byte(b' ');
        self.put_word(k);
    }

    pub(crate) fn next_number(&mut self, v: u64)
        ensures { Puts self.old self.new (bytes_of (spaced (number_of v ∷ []))) }
    {
        self.put_byte(b' ');
        self.put_number(v);
    }

    // A part of the text.
    pub(crate) fn next_name(&mut self, start: usize, len: usize)
        ensures { Puts self.old self.new (bytes_of (spaced (name_said (name_in self.old.text.now start len) ∷ []))) }
    {
        self.put_byte(b' ');
        self.put_part(start, len);
    }

    // A part of the text in quotes.
    pub(crate) fn next_quoted(&mut self, start: usize, len: usize)
        ensures { Puts self.old self.new (bytes_of (spaced (quoted (name_in self.old.text.now start len) ∷ []))) }
    {
        self.put_byte(b' ');
        self.put_byte(b'"');
        self.put_part(start, len);
        self.put_byte(b'"');
    }

    pub(crate) fn next_semicolon(&mut self)
        ensures { Puts self.old self.new (bytes_of (spaced (semicolon ∷ []))) }
    {
        self.put_byte(b' ');
        self.put_byte(b';');
    }

    // ` ;` and the end of the line.
    pub fn end_statement(&mut self)
        ensures { Puts self.old self.new (bytes_of line_end) }
    {
        self.next_semicolon();
        self.end_line();
    }

    pub(crate) fn end_line(&mut self)
        ensures { Puts self.old self.new (10 ∷ []) }
    {
        self.put_byte(b'\n');
    }
}
