// The key word that begins a statement, looked at while it is held.
ghost use Rattle.std.specs.Prelude.{◌≡◌, ℕ};
ghost use Rattle.grammar.specs.Engine.{Rec};
ghost use Rattle.grammar.specs.Turns.{Step, peek_key};
ghost use Rattle.grammar.specs.Reading.{Mark};
ghost use Rattle.parser.specs.Code.{ahead_of, as_peeked};

use crate::take;
use lexer::{Kind, Token};
use refusal::Refusal;

// The number of the key word held: no name is refused, and no key word.
pub fn peek_key(lent: &&[u8], held: Token) -> Result<u8, Refusal>
    ensures { (k : ℕ → Step ℕ Mark (Rec ℕ)) → as_peeked result k ≡ peek_key (ahead_of lent.now.now held) k }
{
    if held.kind != Kind::Name {
        return Err(take::complain(4, held));
    }
    let w = word::word_in(lent, held.start, held.stop);
    if word::is_key(w) {
        Ok(w)
    } else {
        Err(take::complain(5, held))
    }
}
