// Reading and writing the parts of a field: a tag, a two-byte length, the content.
#![tactic(auto)]

pub mod fields;
pub mod names;

ghost use Rattle.std.specs.Prelude.{◌≡◌, ◌+◌, ◌*◌, ◌≤◌, ◌<◌, length};
ghost use Rattle.definition.specs.Basic.{byte_at};
ghost use Rattle.definition.specs.Field.{head};
ghost use Rattle.field.specs.Layout.{Whole, after, content, len_before};
ghost use Rattle.field.specs.Fields.{Begins};

use fields::Fields;

// A byte as a length or an offset; its bound stands here, so that no caller proves it.
pub fn wide(x: u8) -> usize
    ensures is { result ≡ x }
    ensures small { result < 256 }
{
    usize::from(x)
}

// A number of two bytes, the high one first; its equation and its bound stand here, so that no caller proves them.
pub fn word(high: u8, low: u8) -> usize
    ensures is { result ≡ high * 256 + low }
    ensures small { result < 65536 }
{
    usize::from(u16::from_be_bytes([high, low]))
}

// The content length of the field at `at`.
pub fn length_at(bytes: &[u8], at: usize) -> usize
    requires { at + 2 < length bytes.now }
    ensures is { result ≡ (head (byte_at bytes.now) at).len }
    ensures small { result < 65536 }
{
    word(bytes[at + 1], bytes[at + 2])
}

// The content length of the field at `at`, if the field stands whole before `end`.
// Kept: offsets, no slice: what its callers prove reads heads at offsets of the whole bytes; from a slice each would move its promise back.
#[inline(always)]
pub fn length_before(bytes: &[u8], at: usize, end: usize) -> Option<usize>
    requires { (at ≤ end) × (end ≤ length bytes.now) }
    ensures { result ≡ len_before bytes.now at end }
{
    if end < at + 3 {
        return None;
    }
    let len = length_at(bytes, at);
    if end < at + 3 + len {
        return None;
    }
    Some(len)
}

// The offset after the field at `at`.
pub fn after_at(bytes: &[u8], at: usize) -> usize
    requires { Whole bytes.now at }
    ensures is { result ≡ after bytes.now at }
    ensures near { result < at + 65539 }
{
    at + 3 + length_at(bytes, at)
}

// The content of the field at `at`, a part of the bytes.
pub fn content_at(bytes: &[u8], at: usize) -> &[u8]
    requires { Whole bytes.now at }
    ensures { result.now ≡ content bytes.now at }
{
    let from = at + 3;
    let end = after_at(bytes, at);
    &bytes[from..end]
}

// A field that stands whole in some bytes, by its offset.
#[derive(Clone, Copy)]
pub struct Field<'a> {
    pub bytes: &'a [u8],
    pub at: usize,
    pub ghost whole: { Whole bytes.now at },
}

impl<'a> Field<'a> {
    // The offset after it.
    #[inline(always)]
    pub fn after(self) -> usize
        ensures is { result ≡ after self.entry.bytes.now self.entry.at }
        ensures near { result < self.entry.at + 65539 }
    {
        after_at(self.bytes, self.at)
    }

    // Its content, a part of the bytes.
    #[inline(always)]
    pub fn content(self) -> &'a [u8]
        ensures { result.now ≡ content self.entry.bytes.now self.entry.at }
    {
        content_at(self.bytes, self.at)
    }

    // The fields of its content.
    #[inline(always)]
    pub fn children(self) -> Fields<'a>
        ensures { Begins self.entry.bytes.now (self.entry.at + 3) (after self.entry.bytes.now self.entry.at) result }
    {
        Fields::new(self.bytes, self.at + 3, self.after())
    }

    // The first field of its content.
    #[inline(always)]
    pub fn first(self) -> Field<'a>
        requires { Whole self.bytes.now (self.at + 3) }
        ensures bytes { result.bytes.now ≡ self.entry.bytes.now }
        ensures at { result.at ≡ self.entry.at + 3 }
    {
        Field {
            bytes: self.bytes,
            at: self.at + 3,
        }
    }

    // The field behind it.
    #[inline(always)]
    pub fn next(self) -> Field<'a>
        requires { Whole self.bytes.now (after self.bytes.now self.at) }
        ensures bytes { result.bytes.now ≡ self.entry.bytes.now }
        ensures at { result.at ≡ after self.entry.bytes.now self.entry.at }
    {
        Field {
            bytes: self.bytes,
            at: self.after(),
        }
    }
}
