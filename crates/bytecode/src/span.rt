// Parts of an image.
ghost use Rattle.std.specs.Prelude.{◌≡◌, ◌≤◌, length};
ghost use Rattle.bytecode.specs.Parts.{Divides, function_code};

use crate::constants::{Constants, PoolConstants};
use definition::tag;
use field::length_at;
use opcode::instructions::Instructions;

// A part of bytes, from an offset up to another.
#[derive(Clone, Copy)]
pub struct Span<'a> {
    pub bytes: &'a [u8],
    pub start: usize,
    pub end: usize,
}

impl<'a> Span<'a> {
    // The instructions of code, one after the other.
    pub fn instructions(self) -> Instructions<'a>
        ensures code { result.code.now ≡ self.entry.bytes.now }
        ensures at { result.at ≡ self.entry.start }
        ensures end { result.end ≡ self.entry.end }
    {
        Instructions::new(self.bytes, self.start, self.end)
    }

    // The constants of a pool, one after the other.
    pub fn constants(self) -> PoolConstants<'a>
        ensures image { result.constants.image.now ≡ self.entry.bytes.now }
        ensures at { result.constants.at ≡ self.entry.start }
        ensures end { result.constants.end ≡ self.entry.end }
    {
        let constants = Constants::new(self.bytes, self.start, self.end);
        PoolConstants { constants }
    }

    // Of a constant, if it is a function: its code, behind the head and three bytes of numbers.
    pub fn function(self) -> Option<Span<'a>>
        ensures { result ≡ function_code self.entry }
    {
        match self.bytes.get(self.start) {
            Some(&tag::FUNCTION_CONST) => Some(Span {
                start: self.start + 3 + 3,
                ..self
            }),
            _ => None,
        }
    }
}

// The two parts of an image that are read: main's code, and the constants of its pool.
#[derive(Clone, Copy)]
pub struct Parts<'a> {
    pub code: Span<'a>,
    pub pool: Span<'a>,
}

impl<'a> Parts<'a> {
    // Of an image, by the content length of its main field: each part stands behind a head of three bytes.
    pub fn of(image: &'a [u8]) -> Self
        requires { 3 ≤ length image.now }
        ensures { Divides image.now result }
    {
        let end = 3 + length_at(image, 0);
        let code = Span {
            bytes: image,
            start: 3,
            end,
        };
        let pool = Span {
            bytes: image,
            start: end + 3,
            end: image.len(),
        };
        Parts { code, pool }
    }
}
