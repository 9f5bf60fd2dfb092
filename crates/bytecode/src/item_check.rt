// What is left of a section, and items that fill it, one after the other.
ghost use Rattle.std.specs.Prelude.{◌≡◌, ℕ, ◌≤◌, ◌<◌, Result, Ok};
ghost use Rattle.bytecode.specs.declared.Malformed.{Malformed as Wrong};
ghost use Rattle.bytecode.specs.Checked.{Part, counted};
ghost use Rattle.bytecode.specs.Sections.{from};

use crate::{Malformed, Section, Span};

// How many items were read, and the offset after them.
#[derive(Clone, Copy)]
pub struct Items {
    pub count: usize,
    pub end: usize,
}

impl<'a> Section<'a> {
    // What is left of it from an offset on.
    pub fn from(self, start: usize) -> Self
        requires { Part self.span.bytes.now start self.span.end }
        ensures bytes { result.span.bytes.now ≡ self.entry.span.bytes.now }
        ensures start { result.span.start ≡ start }
        ensures end { result.span.end ≡ self.entry.span.end }
        ensures is { (w : Part self.entry.span.bytes.now start self.entry.span.end) → result ≡ from self.entry start w }
    {
        let span = Span { start, ..self.span };
        Section { span }
    }

    // Check that items, at most so many, fill it: `check` answers the offset after the item that a section begins with.
    pub fn check_items<F: Fn(Section<'_>) -> Result<usize, Malformed>>(
        self,
        most: usize,
        check: F,
    ) -> Result<Items, Malformed>
        requires calls { F.IsAlwaysCallable check }
        requires ahead { (at next : ℕ) (w : Part self.span.bytes.now at self.span.end) → at < self.span.end → F.post check (from self at w) (Ok next) → (at < next) × (next ≤ self.span.end) }
        ensures { (next : ℕ → Result ℕ Wrong) → ((at : ℕ) (w : Part self.entry.span.bytes.now at self.entry.span.end) (r : Result ℕ Wrong) → at < self.entry.span.end → F.post check (from self.entry at w) r → r ≡ next at) → result ≡ counted next self.entry.span.end most 0 self.entry.span.start }
    {
        // Kept: a `while`, since `check` answers the next offset; a `for` over the counts has two ends, and is no plainer.
        let mut at = self.span.start;
        let mut count = 0;
        while at < self.span.end {
            if count == most {
                return Err(Malformed { place: at });
            }
            at = check(self.from(at))?;
            count += 1;
        }
        Ok(Items {
            count: count,
            end: at,
        })
    }
}
