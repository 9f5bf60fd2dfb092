// How long the texts of a listing are, counted without writing them.
ghost use Rattle.std.specs.Prelude.{◌≡◌, ◌+◌, ◌*◌, ◌≤◌, ◌<◌, length};
ghost use Rattle.definition.specs.Basic.{Bytes, byte_at};
ghost use Rattle.definition.specs.Opcode.{instr_at};
ghost use Rattle.definition.specs.Field.{bytes};
ghost use Rattle.definition.specs.Text.{decimal, padded, signed};
ghost use Rattle.definition.specs.Bytecode.{Const};
ghost use Rattle.definition.specs.Listing.{word as word_of, code_line, constant_fields};
ghost use Rattle.listing.specs.Put.{per_byte};
ghost use Rattle.listing.specs.Reads.{function_head};
ghost use Rattle.listing.specs.Measured.{InstrAt, operands_of};

use crate::text::integer;
use field::{wide, word};

// How many digits a number has in decimal.
pub fn decimal_length(n: usize) -> usize
    ensures is { result ≡ length (decimal n) }
    ensures small { result ≤ 20 }
{
    n.checked_ilog10().map_or(1, |d| d as usize + 1)
}

// The length of a number in decimal with at least four digits.
pub fn padded_length(n: usize) -> usize
    ensures is { result ≡ length (padded n) }
    ensures small { result ≤ 20 }
{
    if n < 10000 {
        return 4;
    }
    decimal_length(n)
}

// The length of eight bytes in two's complement as a number in decimal.
pub fn signed_length(bytes: &[u8; 8]) -> usize
    ensures is { result ≡ length (signed bytes.now) }
    ensures small { result ≤ 21 }
{
    let n = integer(bytes);
    let size = decimal_length(n.unsigned_abs() as usize);
    if n.is_negative() { 1 + size } else { size }
}

// The length of the operands of an instruction of `size` bytes at `at`.
fn operands_length(image: &[u8], at: usize, size: usize) -> usize
    requires { InstrAt image.now at size }
    ensures is { result ≡ length (operands_of (instr_at (byte_at image.now) at)) }
    ensures small { result ≤ 42 }
{
    match size {
        1 => 0,
        2 => 1 + decimal_length(wide(image[at + 1])),
        3 => 1 + decimal_length(word(image[at + 1], image[at + 2])),
        _ => {
            let first = decimal_length(word(image[at + 1], image[at + 2]));
            1 + first + 1 + decimal_length(wide(image[at + 3]))
        }
    }
}

// The length of the word of an instruction byte.
fn word_length(op: u8) -> usize
    requires { op < 30 }
    ensures is { result ≡ length (word_of op) }
    ensures small { result < 256 }
{
    opcode::word_of(op).len()
}

// The length of the line of the instruction of `size` bytes at `at`, which has a position in its code.
pub fn line_length(image: &[u8], position: usize, at: usize, size: usize) -> usize
    requires { InstrAt image.now at size }
    ensures is { result ≡ length (code_line position (instr_at (byte_at image.now) at)) }
    ensures small { result ≤ per_byte }
{
    let before = padded_length(position) + 1 + word_length(image[at]);
    before + operands_length(image, at, size) + 1
}

// The length of an integer constant's line behind its index.
pub fn integer_length(content: &[u8; 8]) -> usize
    ensures is { result ≡ length (constant_fields (Const.integer content.now)) }
    ensures small { result ≤ 31 }
{
    9 + signed_length(content) + 1
}

// The length of the line of a string constant of `len` bytes behind its index.
pub fn string_length(len: usize) -> usize
    requires { len ≤ 65536 }
    ensures is { (b : Bytes) → length b ≡ len → result ≡ length (constant_fields (Const.string b)) }
    ensures small { result ≤ 30 + 2 * len }
{
    let before = 8 + decimal_length(len);
    if len == 0 {
        return before + 1;
    }
    before + 1 + 2 * len + 1
}

// The length of a function constant's line behind its index.
pub fn function_length(locals: usize, parameters: usize, size: usize) -> usize
    ensures is { result ≡ length (function_head locals parameters size) }
    ensures small { result ≤ 73 }
{
    let before = 9 + 1 + decimal_length(locals) + 1 + decimal_length(parameters);
    before + 1 + decimal_length(size) + 1
}
