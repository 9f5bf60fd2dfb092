// Sections of bytes.
ghost use Rattle.std.specs.Prelude.{◌≡◌, ◌+◌, ◌≤◌, Bool, length};
ghost use Rattle.definition.specs.Basic.{byte_at};
ghost use Rattle.definition.specs.Field.{Head as FieldHead};
ghost use Rattle.definition.specs.Decode.{read_head};
ghost use Rattle.bytecode.specs.Checked.{Part, head_of, head_answer, found};

use crate::{Head, Malformed, Span};
use field::length_before;

// A part of bytes that lies within them.
#[derive(Clone, Copy)]
pub struct Section<'a> {
    pub span: Span<'a>,
    pub ghost within: { Part span.bytes.now span.start span.end },
}

impl<'a> Section<'a> {
    // All of some bytes.
    pub fn whole(bytes: &'a [u8]) -> Self
        ensures bytes { result.span.bytes.now ≡ bytes.now }
        ensures start { result.span.start ≡ 0 }
        ensures end { result.span.end ≡ length bytes.now }
    {
        let end = bytes.len();
        let span = Span {
            bytes,
            start: 0,
            end,
        };
        Section { span }
    }

    // The content of the field that it begins with, by the field's head.
    pub fn behind(self, head: Head) -> Self
        requires { self.span.start + 3 + head.len ≤ self.span.end }
        ensures bytes { result.span.bytes.now ≡ self.entry.span.bytes.now }
        ensures start { result.span.start ≡ self.entry.span.start + 3 }
        ensures end { result.span.end ≡ self.entry.span.start + 3 + head.len }
    {
        let start = self.span.start + 3;
        let end = start + head.len;
        let span = Span {
            start,
            end,
            ..self.span
        };
        Section { span }
    }

    // The head of the field that it begins with, if the field stands whole in it.
    pub fn head(self) -> Option<Head>
        ensures { result ≡ head_answer (byte_at self.entry.span.bytes.now) self.entry.span.start self.entry.span.end }
    {
        let Span { bytes, start, end } = self.span;
        let len = length_before(bytes, start, end)?;
        Some(Head {
            tag: bytes[start],
            len,
        })
    }

    // The head of the field that it begins with, if the field stands whole in it and its head passes a test.
    pub fn head_where<F: Fn(Head) -> bool>(self, test: F) -> Result<Head, Malformed>
        requires calls { F.IsAlwaysCallable test }
        ensures { (good : FieldHead → Bool) → ((h : Head) (r : Bool) → F.post test h r → r ≡ good (head_of h)) → result ≡ found (read_head (byte_at self.entry.span.bytes.now) good self.entry.span.start self.entry.span.end) }
    {
        match self.head() {
            Some(head) if test(head) => Ok(head),
            _ => Err(Malformed {
                place: self.span.start,
            }),
        }
    }
}
