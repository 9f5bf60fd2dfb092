// Fields that stand one after the other.
ghost use Rattle.field.specs.Fields.{Begins};

use super::after_at;

// The fields of some bytes from an offset up to an end, by their offsets.
#[derive(Clone, Copy)]
pub struct Fields<'a> {
    pub bytes: &'a [u8],
    pub at: usize,
    pub end: usize,
}

impl<'a> Fields<'a> {
    // From an offset up to an end.
    // Kept: offsets, no slice: callers keep the items, as places of refusals, of names and in records, and these count from the start.
    pub fn new(bytes: &'a [u8], at: usize, end: usize) -> Self
        ensures { Begins bytes.now at end result }
    {
        Fields { bytes, at, end }
    }
}

impl<'a> Iterator for Fields<'a> {
    ghost use Rattle.std.specs.Prelude.{◌-◌};
    ghost use Rattle.std.specs.Iterator.{at_most};
    ghost use Rattle.field.specs.Fields.{FieldsTo, Gives};

    type Item = usize;

    ghost can_next = { λ s. FieldsTo s.bytes.now s.end s.at };

    ghost next_gives = { Gives };

    ghost remaining = { λ s. at_most (s.end - s.at) };

    fn next(&mut self) -> Option<usize> {
        let at = self.at;
        if self.end <= at {
            return None;
        }
        self.at = after_at(self.bytes, at);
        Some(at)
    }
}
