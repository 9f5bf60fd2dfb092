// The constants of a pool, one after the other.
ghost use Rattle.std.specs.Prelude.{◌≡◌};

use crate::Span;
use field::length_at;

// The constants from an offset up to another: each offset and the one behind.
// Kept: offsets, beside `PoolConstants`: with a `Span` a translation of `chin` takes 7 to 15 % more instructions, and the bar is 3 %.
#[derive(Clone, Copy)]
pub struct Constants<'a> {
    pub image: &'a [u8],
    pub at: usize,
    pub end: usize,
}

impl<'a> Constants<'a> {
    // From an offset up to another.
    pub fn new(image: &'a [u8], at: usize, end: usize) -> Self
        ensures image { result.image.now ≡ image.now }
        ensures at { result.at ≡ at }
        ensures end { result.end ≡ end }
    {
        Constants { image, at, end }
    }
}

impl<'a> Iterator for Constants<'a> {
    ghost use Rattle.std.specs.Prelude.{◌-◌};
    ghost use Rattle.std.specs.Iterator.{at_most};
    ghost use Rattle.bytecode.specs.Constants.{Gives};

    type Item = (usize, usize);

    ghost next_gives = { Gives };

    ghost remaining = { λ s. at_most (s.end - s.at) };

    fn next(&mut self) -> Option<(usize, usize)> {
        let at = self.at;
        if self.end <= at || self.image.len().saturating_sub(at) < 3 {
            return None;
        }
        let next = at + 3 + length_at(self.image, at);
        self.at = next;
        Some((at, next))
    }
}

// The constants of a pool, each as a part of its bytes.
#[derive(Clone, Copy)]
pub struct PoolConstants<'a> {
    pub constants: Constants<'a>,
}

impl<'a> Iterator for PoolConstants<'a> {
    ghost use Rattle.std.specs.Prelude.{◌-◌};
    ghost use Rattle.std.specs.Iterator.{at_most};
    ghost use Rattle.bytecode.specs.Constants.{GivesSpan};

    type Item = Span<'a>;

    ghost next_gives = { GivesSpan };

    ghost remaining = { λ s. at_most (s.constants.end - s.constants.at) };

    fn next(&mut self) -> Option<Span<'a>> {
        let bytes = self.constants.image;
        let (start, end) = self.constants.next()?;
        Some(Span { bytes, start, end })
    }
}
