// Text put into an output: stored where there is room.
ghost use Rattle.std.specs.Prelude.{◌≡◌, [], ◌∷◌, ◌+◌, ◌-◌, ◌*◌, ◌≤◌, ◌<◌, length, min, replicate};
ghost use Rattle.std.specs.Int.{w64, cast_signed};
ghost use Rattle.definition.specs.Basic.{byte_at};
ghost use Rattle.definition.specs.Field.{bytes};
ghost use Rattle.definition.specs.Text.{digit as digitOf, digits, decimal, padded, number, signed, hex_digit, hex};
ghost use Rattle.definition.specs.Listing.{newline, also, hex_field};
ghost use Rattle.listing.specs.PutAt.{Room, PutsAt};

use crate::lengths::{decimal_length, padded_length, signed_length};
use session::write::copy;

// A lent output, and the offset up to which it is filled: a text that does not fit is cut off.
#[derive(Drop)]
pub struct Writer<'a> {
    pub output: &'a mut [u8],
    pub at: usize,
    ghost within: { at ≤ length output.now },
}

// A decimal digit.
// Kept: arithmetic, here and below, since the text is bytes, and `char::from_digit` gives a character to convert.
fn digit(d: usize) -> u8
    requires { d < 10 }
    ensures { result ≡ digitOf d }
{
    b'0' + d as u8
}

// A lower-case hexadecimal digit.
fn hex_digit(d: u8) -> u8
    requires { d < 16 }
    ensures { result ≡ hex_digit d }
{
    if d < 10 {
        return b'0' + d;
    }
    b'a' + (d - 10)
}

// The number of eight bytes in two's complement, high byte first.
pub fn integer(bytes: &[u8; 8]) -> i64
    ensures { result ≡ cast_signed w64 (number 0 bytes.now) }
{
    i64::from_be_bytes(*bytes)
}

impl<'a> Writer<'a> {
    ghost use Rattle.listing.specs.Put.{Puts};

    // Puts a byte.
    pub fn put(&mut self, b: u8)
        ensures { Puts self.old self.new (b ∷ []) }
    {
        if self.at < self.output.len() {
            self.output[self.at] = b;
            self.at += 1;
        }
    }

    // Puts bytes.
    pub fn put_bytes(&mut self, text: &[u8])
        ensures { Puts self.old self.new text.now }
    {
        let size = text.len().min(self.output.len() - self.at);
        copy(self.output, self.at, &text[..size]);
        self.at += size;
    }

    // Puts the end of a line.
    pub fn put_newline(&mut self)
        ensures { Puts self.old self.new newline }
    {
        self.put(b'\n');
    }

    // Puts a number's last digits, at most so many.
    // Kept: by hand, here and below: `fmt::Write` and `write!`, tried, promise of `Ok` alone: what an `Err` would have put stays open.
    fn put_digits(&mut self, n: usize, most: usize)
        ensures { Puts self.old self.new (digits most n) }
    {
        if most == 0 {
            return;
        }
        if n < 10 {
            return self.put(digit(n));
        }
        self.put_digits(n / 10, most - 1);
        self.put(digit(n % 10));
    }

    // Puts a number in decimal; one digit without a call, as most are in a listing.
    pub fn put_decimal(&mut self, n: usize)
        ensures { Puts self.old self.new (decimal n) }
    {
        if n < 10 {
            return self.put(digit(n));
        }
        self.put_digits(n, 20);
    }

    // Puts the zeros before a number of fewer than four digits.
    fn put_zeros(&mut self, n: usize)
        ensures { Puts self.old self.new (replicate (4 - length (decimal n)) (digitOf 0)) }
    {
        match n {
            0..10 => self.put_bytes(b"000"),
            10..100 => self.put_bytes(b"00"),
            100..1000 => self.put_bytes(b"0"),
            _ => {}
        }
    }

    // Puts a number in decimal with at least four digits.
    pub fn put_padded(&mut self, n: usize)
        ensures { Puts self.old self.new (padded n) }
    {
        self.put_zeros(n);
        self.put_decimal(n);
    }

    // Puts a further field of a line, a number.
    pub fn put_field(&mut self, n: usize)
        ensures { Puts self.old self.new (also (decimal n)) }
    {
        self.put(b' ');
        self.put_decimal(n);
    }

    // Puts eight bytes in two's complement as a number in decimal.
    pub fn put_signed(&mut self, bytes: &[u8; 8])
        ensures { Puts self.old self.new (signed bytes.now) }
    {
        let n = integer(bytes);
        let size = n.unsigned_abs() as usize;
        if n.is_negative() {
            self.put(b'-');
            return self.put_decimal(size);
        }
        self.put_decimal(size);
    }

    // Puts a byte as two hexadecimal digits.
    fn put_hex_byte(&mut self, b: u8)
        ensures { Puts self.old self.new (hex (b ∷ [])) }
    {
        self.put(hex_digit(b / 16));
        self.put(hex_digit(b % 16));
    }

    // Puts bytes in hexadecimal.
    fn put_hex(&mut self, bytes: &[u8])
        ensures { Puts self.old self.new (hex bytes.now) }
    {
        for b in bytes {
            self.put_hex_byte(*b);
        }
    }

    // Puts a further field of a line, bytes in hexadecimal; no field for none.
    pub fn put_hex_field(&mut self, bytes: &[u8])
        ensures { Puts self.old self.new (hex_field bytes.now) }
    {
        if !bytes.is_empty() {
            self.put(b' ');
            self.put_hex(bytes);
        }
    }
}

// What follows puts at any offset, and counts on behind the output's end, so that an output of no bytes measures. Each function answers
// the offset behind its text.

// A writer at an offset, or at the output's end where the offset is behind it.
fn begin<'a>(output: &'a mut [u8], at: usize) -> Writer<'a>
    ensures at { result.at ≡ min at (length output.entry.now) }
    ensures now { result.output.now ≡ output.entry.now }
    ensures same { result.output.ghost_name ≡ output.entry.ghost_name }
{
    Writer {
        at: at.min(output.len()),
        output,
    }
}

// Puts the end of a line.
pub fn put_newline(output: &mut [u8], at: usize) -> usize
    requires { Room 1 at }
    ensures { PutsAt 1 output.old output.new at result newline }
{
    let mut writer = begin(output, at);
    writer.put_newline();
    at + 1
}

// Puts a number in decimal.
pub fn put_decimal(output: &mut [u8], at: usize, n: usize) -> usize
    requires { Room 20 at }
    ensures { PutsAt 20 output.old output.new at result (decimal n) }
{
    let mut writer = begin(output, at);
    writer.put_decimal(n);
    at + decimal_length(n)
}

// Puts a number in decimal with at least four digits.
pub fn put_padded(output: &mut [u8], at: usize, n: usize) -> usize
    requires { Room 23 at }
    ensures { PutsAt 23 output.old output.new at result (padded n) }
{
    let mut writer = begin(output, at);
    writer.put_padded(n);
    at + padded_length(n)
}

// Puts a further field of a line, a number.
pub fn put_field(output: &mut [u8], at: usize, n: usize) -> usize
    requires { Room 21 at }
    ensures { PutsAt 21 output.old output.new at result (also (decimal n)) }
{
    let mut writer = begin(output, at);
    writer.put_field(n);
    at + 1 + decimal_length(n)
}

// Puts eight bytes in two's complement as a number in decimal.
pub fn put_signed(output: &mut [u8], at: usize, image: &[u8], from: usize) -> usize
    requires { Room 21 at × (from + 8 ≤ length image.now) }
    ensures { PutsAt 21 output.old output.new at result (signed (bytes (byte_at image.now) from 8)) }
{
    let content = image[from..].first_chunk().unwrap();
    let mut writer = begin(output, at);
    writer.put_signed(content);
    at + signed_length(content)
}

// Puts a further field of a line, `len` bytes in hexadecimal; no field for none.
pub fn put_hex_field(output: &mut [u8], at: usize, image: &[u8], from: usize, len: usize) -> usize
    requires { Room (1 + 2 * len) at × (from + len ≤ length image.now) }
    ensures { PutsAt (1 + 2 * len) output.old output.new at result (hex_field (bytes (byte_at image.now) from len)) }
{
    if len == 0 {
        return at;
    }
    let mut writer = begin(output, at);
    writer.put_hex_field(&image[from..from + len]);
    at + 1 + 2 * len
}
