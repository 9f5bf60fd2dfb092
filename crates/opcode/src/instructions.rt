// The instructions of code, one after the other.
ghost use Rattle.std.specs.Prelude.{◌≡◌};

use crate::{Instruction, decode_at};

// The instructions from an offset up to another: each with its own offset and the one behind it. They end before bytes that are
// no instruction.
#[derive(Clone, Copy)]
pub struct Instructions<'a> {
    pub code: &'a [u8],
    pub at: usize,
    pub end: usize,
}

impl<'a> Instructions<'a> {
    // From an offset up to another.
    // Kept: the code with both offsets: a loop goes on at the items, which count from the start of the whole code.
    pub fn new(code: &'a [u8], at: usize, end: usize) -> Self
        ensures code { result.code.now ≡ code.now }
        ensures at { result.at ≡ at }
        ensures end { result.end ≡ end }
    {
        Instructions { code, at, end }
    }
}

impl<'a> Iterator for Instructions<'a> {
    ghost use Rattle.std.specs.Prelude.{◌-◌};
    ghost use Rattle.std.specs.Iterator.{at_most};
    ghost use Rattle.opcode.specs.Instructions.{Gives};

    type Item = (usize, Instruction, usize);

    ghost next_gives = { Gives };

    ghost remaining = { λ s. at_most (s.end - s.at) };

    fn next(&mut self) -> Option<(usize, Instruction, usize)> {
        let at = self.at;
        match decode_at(self.code, at, self.end) {
            Err(_) => None,
            Ok(found) => {
                self.at = found.after;
                Some((at, found.instruction, found.after))
            }
        }
    }
}
