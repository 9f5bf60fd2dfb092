// Instructions on bytes: the operand length of every first byte, decoding, encoding, and the words of the listing.
#![tactic(auto)]

pub mod instructions;
pub mod opcodes;
pub mod table;

ghost use Rattle.std.specs.Prelude.{◌≡◌, ◌+◌, ◌*◌, ◌≤◌, ◌<◌, length};
ghost use Rattle.definition.specs.Basic.{byte_at};
ghost use Rattle.definition.specs.Opcode.{instr_at, bytes_of, width as operandLength};
ghost use Rattle.definition.specs.Decode.{read_instr};
ghost use Rattle.definition.specs.Output.{over};
ghost use Rattle.definition.specs.Listing.{word};
ghost use Rattle.definition.specs.Valid.{operand_bound, captures_bound};
ghost use Rattle.opcode.specs.Table.{entry};
ghost use Rattle.opcode.specs.Decoding.{size_at, instruction, instr_of, read_before, decode_answer};
ghost use Rattle.opcode.specs.Words.{word_answer, word_into};
ghost use Rattle.opcode.specs.Encoding.{valid, encode_answer, encode_into, Ready};

use definition::{Reason, Refusal, refused};
use field::wide;
use table::{INSTRUCTIONS, WIDTHS, WORDS};

// An instruction: its byte, its operand, and the captures of a Closure.
#[derive(Clone, Copy)]
pub struct Instruction {
    pub op: u8,
    pub operand: u16,
    pub captures: u8,
}

// An instruction that was read, and the offset after it.
#[derive(Clone, Copy)]
pub struct Decoded {
    pub instruction: Instruction,
    pub after: usize,
}

// The operand length of an instruction with this first byte, or 255 where it begins none: the table's entry.
// Kept: 255 for "none", a count of bits in `bytecode::decodes`: in the loop before it a `match` took up to 2.7 times as long as the table
// (docs/PERFORMANCE.md).
pub fn width(op: u8) -> u8
    ensures { result ≡ entry op }
{
    WIDTHS[wide(op)]
}

// How many operand bytes follow a first byte; none after a byte that is no instruction's.
pub fn operand_length(op: u8) -> usize
    ensures { result ≡ operandLength op }
{
    if INSTRUCTIONS <= wide(op) {
        return 0;
    }
    wide(width(op))
}

// The length of the instruction at `at`, if it stands whole before `end`. A byte that begins no instruction is tested for by itself,
// so that the next offset of a loop waits for the table's entry alone.
// Kept: offsets in the whole code, at which loops go on and the definitions read: from a slice each caller would move the promise back.
pub fn size_at(code: &[u8], at: usize, end: usize) -> Option<usize>
    requires { end ≤ length code.now }
    ensures { result ≡ size_at (byte_at code.now) at end }
{
    if end <= at {
        return None;
    }
    let op = code[at];
    if INSTRUCTIONS <= wide(op) {
        return None;
    }
    let n = wide(width(op));
    if end - at <= n {
        return None;
    }
    Some(1 + n)
}

// The instruction of `size` bytes at `at`.
fn instruction_at(code: &[u8], at: usize, size: usize) -> Instruction
    requires { (at + size ≤ length code.now) × (size ≡ 1 + operandLength (byte_at code.now at)) }
    ensures { result ≡ instruction (instr_at (byte_at code.now) at) }
{
    let (operand, captures) = match &code[at..at + size] {
        &[_, low] => (u16::from(low), 0),
        &[_, high, low] => (u16::from_be_bytes([high, low]), 0),
        &[_, high, low, captures] => (u16::from_be_bytes([high, low]), captures),
        _ => (0, 0),
    };
    Instruction {
        op: code[at],
        operand,
        captures,
    }
}

// The instruction at `at`, if it stands whole before `end`, which is within the slice; else number 16 there.
// Kept: offsets and no slice, here and at `decode_at`: the refusal and the offset after count from the start of the code.
fn decode_before(code: &[u8], at: usize, end: usize) -> Result<Decoded, Refusal>
    requires { end ≤ length code.now }
    ensures { result ≡ decode_answer (read_instr (byte_at code.now) at end) }
{
    match size_at(code, at, end) {
        Some(size) => Ok(Decoded {
            instruction: instruction_at(code, at, size),
            after: at + size,
        }),
        None => refused(Reason::BadInstruction, at),
    }
}

// The instruction at `at`, if it stands whole before `end`; else, and for an `end` past the slice, number 16 there.
pub fn decode_at(code: &[u8], at: usize, end: usize) -> Result<Decoded, Refusal>
    ensures { result ≡ decode_answer (read_before code.now at end) }
{
    if code.len() < end {
        return refused(Reason::BadInstruction, at);
    }
    decode_before(code, at, end)
}

// The first instruction of a slice; an empty slice is refused, 16 at 0.
pub fn decode(code: &[u8]) -> Result<Decoded, Refusal>
    ensures { result ≡ decode_answer (read_instr (byte_at code.now) 0 (length code.now)) }
{
    decode_before(code, 0, code.len())
}

// What an operand is below, by the number of operand bytes.
fn operand_bound(w: u8) -> usize
    ensures { result ≡ operand_bound w }
{
    match w {
        0 => 1,
        1 => 256,
        _ => 65536,
    }
}

// What the captures are below, by the number of operand bytes.
fn captures_bound(w: u8) -> usize
    ensures { result ≡ captures_bound w }
{
    if w < 3 { 1 } else { 256 }
}

// Whether the bytes of an instruction can hold it: a known byte, and 0 for an operand that it does not have.
pub fn is_valid(i: Instruction) -> bool
    ensures { result ≡ valid (instr_of i) }
{
    if INSTRUCTIONS <= wide(i.op) {
        return false;
    }
    let w = width(i.op);
    if operand_bound(w) <= i.operand as usize {
        return false;
    }
    wide(i.captures) < captures_bound(w)
}

// Write an instruction of `w` operand bytes at the start of `out`, which has room for it.
fn put(out: &mut [u8], i: Instruction, w: usize)
    requires { Ready (instr_of i) w out.old }
    ensures { out.new ≡ over (bytes_of (instr_of i)) out.old }
{
    let [high, low] = i.operand.to_be_bytes();
    match w {
        0 => out[..1].copy_from_slice(&[i.op]),
        1 => out[..2].copy_from_slice(&[i.op, low]),
        2 => out[..3].copy_from_slice(&[i.op, high, low]),
        _ => out[..4].copy_from_slice(&[i.op, high, low, i.captures]),
    }
}

// Encode an instruction at the start of `out`: its length, or 16 at 0 if it is not valid, or 15 at 0 if it is longer than `out`.
pub fn encode(out: &mut [u8], i: Instruction) -> Result<usize, Refusal>
    ensures answers { result ≡ encode_answer (instr_of i) (length out.old) }
    ensures writes { out.new ≡ encode_into (instr_of i) out.old }
{
    if !is_valid(i) {
        return refused(Reason::BadInstruction, 0);
    }
    let w = wide(width(i.op));
    if out.len() <= w {
        return refused(Reason::OutputShort, 0);
    }
    put(out, i, w);
    Ok(1 + w)
}

// The word of an instruction byte.
pub fn word_of(op: u8) -> &'static [u8]
    requires { op < 30 }
    ensures is { result.now ≡ word op }
    ensures short { length result.now ≤ 14 }
{
    WORDS[wide(op)]
}

// Copy a word to the start of `out`, which has room for it.
fn put_word(out: &mut [u8], word: &[u8])
    requires { length word.now ≤ length out.old }
    ensures { out.new ≡ over word.now out.old }
{
    out[..word.len()].copy_from_slice(word);
}

// Write the word of an instruction byte at the start of `out`: its length, or 16 at 0 if the byte begins no instruction, or 15 at 0 if
// the word is longer than `out`.
pub fn write_word(out: &mut [u8], op: u8) -> Result<usize, Refusal>
    ensures answers { result ≡ word_answer op (length out.old) }
    ensures writes { out.new ≡ word_into op out.old }
{
    if INSTRUCTIONS <= wide(op) {
        return refused(Reason::BadInstruction, 0);
    }
    let word = word_of(op);
    if out.len() < word.len() {
        return refused(Reason::OutputShort, 0);
    }
    put_word(out, word);
    Ok(word.len())
}
