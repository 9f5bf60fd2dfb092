// Emission and patching: the chunk record is lent by mutable reference.
ghost use Rattle.std.specs.Prelude.{◌≡◌, ◌+◌, ◌≤◌};
ghost use Rattle.definition.specs.Limit.{code_size};
ghost use Rattle.scope.specs.Emission.{longer_chunk, Within, Adds, Changes};

use super::Chunk;
use super::instruction::{Instruction, write_instruction, write_word};
use definition::limit::CODE_SIZE;
use opcode::operand_length;

// The chunk with an instruction of `n` bytes more.
fn longer(c: Chunk, n: usize) -> Chunk
    requires { c.len + n ≤ code_size }
    ensures { result ≡ longer_chunk n c }
{
    Chunk {
        start: c.start,
        len: c.len + n as u32,
        last: c.len,
        prev: c.last,
    }
}

// Adds an instruction to the chunk that is lent, and says whether there was room.
// The place that a refusal names is known to the caller alone.
pub fn add_instruction(code: &mut [u8], chunk: &mut Chunk, i: Instruction) -> bool
    requires { Within code.old chunk.old }
    ensures { Adds code.old chunk.old i chunk.new result code.new }
{
    let at = (chunk.start + chunk.len) as usize;
    let n = 1 + operand_length(i.op);
    if CODE_SIZE < at + n {
        return false;
    }
    write_instruction(code, at, i);
    *chunk = longer(*chunk, n);
    true
}

// The jump at a position of the chunk that is lent goes to the chunk's end, where its operand is within the code area.
// Kept: lent by mutable reference though it is only read, since document 01 wants the chunk's record lent so to emission and patching.
pub fn change_operand(code: &mut [u8], chunk: &mut Chunk, at: usize)
    requires { Within code.old chunk.old }
    ensures { Changes code.old chunk.old at chunk.new code.new }
{
    if CODE_SIZE <= at {
        return;
    }
    let target = chunk.start as usize + at;
    if target + 2 < CODE_SIZE {
        write_word(code, target + 1, chunk.len as usize);
    }
}
