// The open blocks: the innermost by value, and those around it in an array, the library first.
ghost use Rattle.std.specs.Prelude.{◌≡◌, List, ◌∷◌, ℕ, ◌+◌, ◌≤◌, ◌<◌, length};
ghost use Rattle.grammar.specs.Turns as T;
ghost use Rattle.grammar.specs.Reading.{start};
ghost use Rattle.rows.specs.Packed.{block_of, kinds_of, move_of};
ghost use Rattle.parser.specs.declared.open.Frame.{Frame};
ghost use Rattle.parser.specs.Kept.{name_in, frame_of};
ghost use Rattle.reader.specs.Open.{nothing, frames_in, blocks_of, state_of, Pushes, Inside, Opens};

use lexer::Token;
use parser::open::Frame;
use record::Record;
use rows::{act, block};

// How many blocks can be around the innermost.
pub const AROUND: usize = 5;

// The version in force, in millionths; the innermost block; and how many are around it.
#[derive(Clone, Copy)]
pub struct Open {
    pub version: u64,
    pub depth: usize,
    pub inner: Frame,
}

// The state between two turns: the token held and the open blocks. What stands past the depth in the blocks around the innermost means nothing.
#[derive(Clone, Copy)]
pub struct State {
    pub held: Token,
    pub open: Open,
    pub outer: [Frame; AROUND],
}

// A block that starts nowhere, has no name and lacks nothing.
fn nowhere(block: u64) -> Frame
    ensures { result ≡ nothing block }
{
    Frame {
        block,
        at: 0,
        title: 0,
        len: 0,
        lacks: 0,
    }
}

// The library, before any statement: version 5.8 holds.
pub fn library() -> Open
    ensures { (s : List ℕ) (o : List Frame) → blocks_of s result o ≡ start }
{
    Open {
        version: 5800000,
        depth: 0,
        inner: nowhere(block::LIBRARY),
    }
}

// The state before the first turn.
pub fn first(held: Token) -> State
    ensures { (result.held ≡ held) × ((s : List ℕ) → state_of s result ≡ start) }
{
    State {
        held,
        open: library(),
        outer: [nowhere(0); AROUND],
    }
}

// The open blocks as the innermost ends.
pub fn left(o: Open, outer: &[Frame; AROUND]) -> Open
    requires { (0 < o.depth) × (o.depth < 6) }
    ensures { (s : List ℕ) → blocks_of s result outer.now ≡ T.state o.version (frames_in s o.depth outer.now) }
{
    let depth = o.depth - 1;
    Open {
        depth,
        inner: outer[depth],
        ..o
    }
}

// The innermost block goes on as another.
pub fn turned(o: Open, block: u64) -> Open
    ensures { (s : List ℕ) (outer : List Frame) → (o.inner.block ≡ 0 → ⊥) → (block ≡ 0 → ⊥) → blocks_of s result outer ≡ T.state o.version (T.become (block_of block) (frame_of s o.inner) ∷ frames_in s o.depth outer) }
{
    Open {
        inner: Frame { block, ..o.inner },
        ..o
    }
}

// The open blocks after a record of the innermost, which does this to them.
pub fn shift(o: Open, outer: &mut [Frame; AROUND], r: Record, opens: u64) -> Open
    requires { Pushes (move_of opens) → o.depth < 5 }
    ensures { (s : List ℕ) → Inside (move_of opens) → blocks_of s result outer.new ≡ T.shift (move_of opens) r.kind r.at (name_in s r.name r.len) r.x o.version (frame_of s o.inner) (frames_in s o.depth outer.old) }
{
    let f = counting(o.inner, r.kind());
    let how = opens % 8;
    if how == act::VERSION {
        return Open {
            version: r.x(),
            inner: f,
            ..o
        };
    }
    if (how != act::ENTER) & (how != act::NAMED) {
        return Open { inner: f, ..o };
    }
    outer[o.depth] = f;
    Open {
        depth: o.depth + 1,
        inner: opened(opens, r),
        ..o
    }
}

// The block that a record opens; only a named one has the record's name.
fn opened(opens: u64, r: Record) -> Frame
    ensures { (s : List ℕ) → Inside (move_of opens) → Opens (move_of opens) r.at (name_in s r.name r.len) (frame_of s result) }
{
    let how = opens % 8;
    let unnamed = Frame {
        at: r.at(),
        lacks: opens / 256,
        ..nowhere(opens / 8 % 32)
    };
    if how == act::NAMED {
        return Frame {
            title: r.name(),
            len: r.len(),
            ..unnamed
        };
    }
    unnamed
}

// A block after a record of the kind in it. Most blocks lack nothing, and `without`, which calls itself, is not called for them.
fn counting(f: Frame, kind: u8) -> Frame
    ensures { (s : List ℕ) → frame_of s result ≡ T.counting kind (frame_of s f) }
{
    if f.lacks < 256 {
        return f;
    }
    Frame {
        lacks: without(u64::from(kind), f.lacks),
        ..f
    }
}

// The first of the kinds taken away. It calls itself as the definition does: a loop over the bytes of a number would be no plainer.
fn without(kind: u64, lacks: u64) -> u64
    ensures of { kinds_of result ≡ T.without kind (kinds_of lacks) }
    ensures some { (0 < lacks → 0 < result) × (result ≤ lacks) }
{
    if lacks < 256 {
        return lacks;
    }
    if lacks % 256 == kind {
        return lacks / 256;
    }
    lacks % 256 + 256 * without(kind, lacks / 256)
}
