// An instruction's bytes, written into the code area.
ghost use Rattle.std.specs.Prelude.{◌≡◌, [], ◌∷◌, ◌+◌, ◌/◌, ◌%◌, ◌≤◌, ◌<◌, length};
ghost use Rattle.std.proofs.lemmas.List.Edits.{sets};
ghost use Rattle.definition.specs.Opcode.{instr, size, width, operands, bytes_of};

use opcode::operand_length;

// An instruction to emit: its byte, and what its operand bytes are made of.
// Kept: beside `opcode::Instruction`, whose operands fit: here they are any numbers, of which the low bytes are written.
#[derive(Clone, Copy)]
pub struct Instruction {
    pub op: u8,
    pub a: usize,
    pub b: usize,
}

// The low byte of a number.
fn low(x: usize) -> u8
    ensures { result ≡ x % 256 }
{
    let [.., low] = x.to_be_bytes();
    low
}

// Writes a number as two bytes, the high one first.
pub fn write_word(code: &mut [u8], at: usize, x: usize)
    requires { at + 1 < length code.old }
    ensures { code.new ≡ sets code.old at (x / 256 % 256 ∷ x % 256 ∷ []) }
{
    let [.., high, low] = x.to_be_bytes();
    code[at] = high;
    code[at + 1] = low;
}

// Writes an instruction's operands.
fn write_operands(code: &mut [u8], at: usize, i: Instruction)
    requires { at + width i.op ≤ length code.old }
    ensures { code.new ≡ sets code.old at (operands (width i.op) i.a i.b) }
{
    match operand_length(i.op) {
        0 => {}
        1 => {
            code[at] = low(i.a);
        }
        2 => {
            write_word(code, at, i.a);
        }
        _ => {
            write_word(code, at, i.a);
            code[at + 2] = low(i.b);
        }
    }
}

// Writes an instruction.
pub fn write_instruction(code: &mut [u8], at: usize, i: Instruction)
    requires { at + size (instr i.op i.a i.b) ≤ length code.old }
    ensures { code.new ≡ sets code.old at (bytes_of (instr i.op i.a i.b)) }
{
    code[at] = i.op;
    write_operands(code, at + 1, i);
}
