// A program, and the integers of its pool.
ghost use Rattle.std.specs.Prelude.{◌≡◌, true, List, length};
ghost use Rattle.definition.specs.Bytecode.{Const};
ghost use Rattle.definition.specs.Decode.{read_image};
ghost use Rattle.definition.specs.Trusted.{constant_at};
ghost use Rattle.bytecode.specs.Parts.{Divides};
ghost use Rattle.listing.specs.Reads.{PoolIn, is_image};
ghost use Rattle.trial.specs.Run.{integer_in};

use crate::cells::Value;
use bytecode::{Parts, Span};
use definition::tag;
use listing::text::integer;

// A sound image whose main code is run, in its parts.
#[derive(Clone, Copy)]
pub struct Program<'a> {
    pub parts: Parts<'a>,
    ghost sound: { is_image (read_image parts.code.bytes.now) (length parts.code.bytes.now) ≡ true },
    ghost divides: { Divides parts.code.bytes.now parts },
}

impl Program<'_> {
    // The value of the constant of an index, if it is an integer.
    pub fn integer_at(self, k: usize) -> Option<Value>
        ensures { (cs : List Const) → PoolIn self.entry.parts.pool cs → result ≡ integer_in (constant_at cs k) }
    {
        let Span { bytes, start, .. } = self.parts.pool.constants().nth(k)?;
        if bytes[start] != tag::INTEGER_CONST {
            return None;
        }
        let content = bytes[start + 3..].first_chunk().unwrap();
        Some(Value::Integer(integer(content)))
    }
}
