// Fields without parts of their own: literals, names and operators, each drawn.
ghost use Rattle.std.specs.Prelude.{◌≡◌, ℕ, ◌+◌, ◌<◌, ◌≤◌, [], length, slice_index_or};
ghost use Rattle.definition.specs.Node.{leaf};
ghost use Rattle.load.specs.Draw.{drawn};
ghost use Rattle.load.specs.Load.{leaf_of, letters, words, name_of, function_names};
ghost use Rattle.load.specs.Writing.{Wrote};

use super::draw::Draws;
use super::row::Leaf;
use definition::{operator, tag};
use session::write::{put_field, put_head};

// The first of the three letters that names are made of.
pub const LETTER: u8 = b'a';

// The operators from Plus to Gt, without Bang.
pub const INFIXES: [u8; 8] = [
    operator::PLUS,
    operator::MINUS,
    operator::STAR,
    operator::SLASH,
    operator::EQUAL,
    operator::NOT_EQUAL,
    operator::LESS_THAN,
    operator::GREATER_THAN,
];

// A field of a content, whatever the state is; its length.
pub fn put(out: &mut [u8], field_tag: u8, content: &[u8]) -> usize
    requires in_bounds { 3 + length content.now ≤ length out.old }
    requires len_bound { length content.now ≤ 32 }
    ensures { (s : ℕ) → Wrote (drawn (leaf field_tag content.now) s) result s out.old out.new }
{
    put_field(out, 0, field_tag, content);
    3 + content.len()
}

// The names that an Identifier has.
static WORDS: [&[u8]; 9] = [
    b"len", b"puts", b"first", b"last", b"rest", b"push", b"a", b"b", b"c",
];

// The names that a function has: none, or a, b, c.
static FUNCTION_WORDS: [&[u8]; 4] = [b"", b"a", b"b", b"c"];

// The name that an Identifier has: one of six words, or a, b, c.
fn word(k: usize) -> &'static [u8]
    requires { k < 9 }
    ensures is { result.now ≡ slice_index_or words k (name_of 0) }
    ensures small { length result.now ≤ 5 }
{
    WORDS[k]
}

// The name that a function has: none, or a, b, c.
pub fn function_word(k: usize) -> &'static [u8]
    requires { k < 4 }
    ensures is { result.now ≡ slice_index_or function_names k [] }
    ensures small { length result.now ≤ 1 }
{
    FUNCTION_WORDS[k]
}

// As many letters as there is room for.
fn put_letters(out: &mut [u8], draws: &mut Draws)
    ensures bytes { out.new ≡ (letters (length out.old) draws.old.state).value }
    ensures state { draws.new.state ≡ (letters (length out.old) draws.old.state).state }
{
    for byte in out {
        *byte = LETTER + draws.draw(26) as u8;
    }
}

// An expression without parts: a word, an Integer of one byte's value, a Boolean, a String of up to eight letters.
pub fn put_leaf(out: &mut [u8], leaf: Leaf, draws: &mut Draws) -> usize
    requires { 11 ≤ length out.old }
    ensures { Wrote (leaf_of leaf draws.old.state) result draws.new.state out.old out.new }
{
    match leaf {
        Leaf::Identifier => put(out, tag::IDENTIFIER, word(draws.draw(9))),
        Leaf::Integer => put(
            out,
            tag::INTEGER,
            &[0, 0, 0, 0, 0, 0, 0, draws.draw(256) as u8],
        ),
        Leaf::Boolean => put(out, tag::BOOLEAN, &[draws.draw(2) as u8]),
        Leaf::String => {
            let n = draws.draw(9);
            put_letters(&mut out[3..3 + n], draws);
            put_head(out, 0, tag::STRING, n);
            3 + n
        }
    }
}
