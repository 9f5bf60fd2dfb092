// Checks an image and counts its listing, in one reading.
ghost use Rattle.std.specs.Prelude.{◌≡◌, true, ℕ, ◌+◌, ◌-◌, ◌*◌, ◌≤◌, length};
ghost use Rattle.definition.specs.Basic.{byte_at};
ghost use Rattle.definition.specs.Field.{head};
ghost use Rattle.definition.specs.Decode.{read_code, read_function, read_content, read_const, read_pool, read_image};
ghost use Rattle.bytecode.specs.Checked.{head_of, is_constant, constants, main_code};
ghost use Rattle.listing.specs.Put.{per_byte};
ghost use Rattle.listing.specs.Measured.{code_measured, constant_measured, pool_measured, image_measured, text_of, pool_text_of};

use crate::lengths::{decimal_length, function_length, integer_length, line_length, string_length};
use bytecode::{Form, Head, Malformed, Section, Span};
use definition::{Refusal, limit, tag};
use field::{wide, word};
use opcode::size_at;

// The length of the text of code or a constant that was read, and the offset after it.
#[derive(Clone, Copy)]
pub struct Measured {
    pub text: usize,
    pub end: usize,
}

// How many constants were read, the length of their lines, and the offset after them.
#[derive(Clone, Copy)]
pub struct MeasuredPool {
    pub count: usize,
    pub text: usize,
    pub end: usize,
}

// How many constants a sound image has, and the length of its listing.
#[derive(Clone, Copy)]
pub struct MeasuredImage {
    pub constants: usize,
    pub size: usize,
}

// A part of an image, short enough for its text to be counted.
#[derive(Clone, Copy)]
struct Piece<'a> {
    part: Section<'a>,
    ghost few: { part.span.end ≤ part.span.start + 65536 },
}

impl<'a> Piece<'a> {
    // Reads code.
    fn measure_code(self) -> Result<Measured, Malformed>
        ensures is { (len : ℕ) → self.entry.part.span.end ≤ self.entry.part.span.start + len → result ≡ code_measured (read_code (byte_at self.entry.part.span.bytes.now) len self.entry.part.span.start self.entry.part.span.end) }
        ensures small { text_of result ≤ per_byte * (self.entry.part.span.end - self.entry.part.span.start) }
    {
        let Span { bytes, start, end } = self.part.span;
        // Kept: a `while`, since over `Instructions` the check of an image takes 4 to 6 % more instructions, and the bar is 3 %.
        let mut at = start;
        let mut text = 0;
        while at < end {
            match size_at(bytes, at, end) {
                Some(size) => {
                    text += line_length(bytes, at - start, at, size);
                    at += size;
                }
                None => return Err(Malformed { place: at }),
            }
        }
        Ok(Measured {
            text: text,
            end: at,
        })
    }

    // Reads a function constant's content, of at least three bytes.
    fn measure_function(self) -> Result<Measured, Malformed>
        requires { self.part.span.start + 3 ≤ self.part.span.end }
        ensures is { result ≡ constant_measured (read_function (byte_at self.entry.part.span.bytes.now) self.entry.part.span.start (self.entry.part.span.end - self.entry.part.span.start)) }
        ensures small { text_of result + 20 ≤ per_byte * (1 + (self.entry.part.span.end - self.entry.part.span.start)) }
    {
        let Span { bytes, start, end } = self.part.span;
        let locals = word(bytes[start], bytes[start + 1]);
        let parameters = wide(bytes[start + 2]);
        let code = Piece {
            part: self.part.from(start + 3),
        };
        let measured = code.measure_code()?;
        Ok(Measured {
            text: function_length(locals, parameters, end - start - 3) + measured.text,
            end: measured.end,
        })
    }

    // Reads a constant's content, whose head is good.
    fn measure_content(self, head: Head) -> Result<Measured, Malformed>
        requires { (self.part.span.end ≡ self.part.span.start + head.len) × (is_constant Form.Plain (head_of head) ≡ true) }
        ensures is { result ≡ constant_measured (read_content (byte_at self.entry.part.span.bytes.now) (head_of head) self.entry.part.span.start) }
        ensures small { text_of result + 20 ≤ per_byte * (1 + head.len) }
    {
        let Span { bytes, start, end } = self.part.span;
        let text = match head.tag {
            tag::INTEGER_CONST => integer_length(bytes[start..].first_chunk().unwrap()),
            tag::STRING_CONST => string_length(head.len),
            _ => return self.measure_function(),
        };
        Ok(Measured { text, end })
    }

    // Reads the constant that it begins with.
    fn measure_constant(self) -> Result<Measured, Malformed>
        ensures is { result ≡ constant_measured (read_const (byte_at self.entry.part.span.bytes.now) self.entry.part.span.start self.entry.part.span.end) }
        ensures small { text_of result + 20 ≤ per_byte * (1 + (head (byte_at self.entry.part.span.bytes.now) self.entry.part.span.start).len) }
    {
        let head = self.part.head_where(|head| head.is_constant(Form::Plain))?;
        let content = Piece {
            part: self.part.behind(head),
        };
        content.measure_content(head)
    }

    // Reads constants, at most 4,096.
    // Kept: a loop beside `check_items`, which does not sum: a third reading takes up to 75 % more (docs/PERFORMANCE.md); the bar is 3 %.
    fn measure_constants(self) -> Result<MeasuredPool, Malformed>
        ensures is { result ≡ pool_measured (constants (byte_at self.entry.part.span.bytes.now) self.entry.part.span.start self.entry.part.span.end) }
        ensures small { pool_text_of result ≤ per_byte * (self.entry.part.span.end - self.entry.part.span.start) }
    {
        let mut at = self.part.span.start;
        let mut count = 0;
        let mut text = 0;
        while at < self.part.span.end {
            if count == limit::CONSTANTS_LIMIT {
                return Err(Malformed { place: at });
            }
            let rest = Piece {
                part: self.part.from(at),
            };
            let constant = rest.measure_constant()?;
            text = text + decimal_length(count) + constant.text;
            at = constant.end;
            count += 1;
        }
        Ok(MeasuredPool {
            count: count,
            text: text,
            end: at,
        })
    }
}

// Reads the pool at `at`.
fn measure_pool(image: &[u8], at: usize) -> Result<MeasuredPool, Malformed>
    requires { at ≤ length image.now }
    ensures is { result ≡ pool_measured (read_pool (byte_at image.now) at (length image.now)) }
    ensures small { pool_text_of result ≤ per_byte * 65536 }
{
    let rest = Section::whole(image).from(at);
    let head = rest.head_where(|head| head.is_pool())?;
    let constants = Piece {
        part: rest.behind(head),
    };
    constants.measure_constants()
}

// Reads the main code.
fn measure_main(image: &[u8]) -> Result<Measured, Malformed>
    ensures is { result ≡ code_measured (main_code (byte_at image.now) Form.Plain (length image.now)) }
    ensures small { text_of result ≤ per_byte * 65536 }
{
    let whole = Section::whole(image);
    let head = whole.head_where(|head| head.is_main(Form::Plain))?;
    let code = Piece {
        part: whole.behind(head),
    };
    code.measure_code()
}

// Reads an image: it is sound, with so many constants and a listing of such a length, or 17 at its first wrong field or instruction.
pub fn measure_image(image: &[u8]) -> Result<MeasuredImage, Refusal>
    ensures { result ≡ image_measured (read_image image.now) }
{
    let main = measure_main(image)?;
    let pool = measure_pool(image, main.end)?;
    if pool.end != image.len() {
        return Err(Refusal::from(Malformed { place: pool.end }));
    }
    let heads = 12 + decimal_length(main.end - 3) + decimal_length(pool.count);
    Ok(MeasuredImage {
        constants: pool.count,
        size: heads + main.text + pool.text,
    })
}
