// Number 27, and how many globals main names.
ghost use Rattle.std.specs.Prelude.{◌≡◌, ℕ, ◌+◌, ◌<◌, ◌≤◌, List, length, slice_index_or};
ghost use Rattle.definition.specs.Bytecode.{size_of, Const, Image};
ghost use Rattle.opcode.specs.Decoding.{instr_of};
ghost use Rattle.listing.specs.Reads.{PoolIn, ImageAt};
ghost use Rattle.heights.specs.Marks.{marks_from};
ghost use Rattle.heights.specs.Pass.{Passing, pass as passed, Passed};
ghost use Rattle.trial.specs.Run.{actions, other, runnable as takes};
ghost use Rattle.trial.specs.Output.{names_as, named_globals};
ghost use Rattle.trial.specs.Call.{first_refused, refused_with, scan_answer};

use crate::cells::STACK_LIMIT;
use crate::pool::Program;
use definition::limit::GLOBALS_LIMIT;
use definition::{Reason, Refusal, refused};
use heights::chunk::{GROUND, pass};
use opcode::{Instruction, opcodes};

// Whether a run takes an instruction, its height apart.
fn runnable(program: Program<'_>, i: Instruction) -> bool
    ensures { (cs : List Const) → PoolIn program.entry.parts.pool cs → result ≡ takes cs (instr_of i) }
{
    match i.op {
        opcodes::CONSTANT => program.integer_at(usize::from(i.operand)).is_some(),
        opcodes::GET_GLOBAL | opcodes::SET_GLOBAL => usize::from(i.operand) < GLOBALS_LIMIT,
        opcodes::ADD
        | opcodes::POP
        | opcodes::SUB
        | opcodes::MUL
        | opcodes::DIV
        | opcodes::TRUE
        | opcodes::FALSE
        | opcodes::EQUAL
        | opcodes::NOT_EQUAL
        | opcodes::GREATER_THAN
        | opcodes::MINUS
        | opcodes::BANG
        | opcodes::JUMP_NOT_TRUTHY
        | opcodes::JUMP
        | opcodes::NULL
        | opcodes::RETURN_VALUE => true,
        _ => false,
    }
}

// One more than the highest index that is named, with one more instruction.
fn named(n: usize, i: Instruction) -> usize
    ensures { result ≡ names_as n i.operand (slice_index_or actions i.op other) }
{
    match i.op {
        opcodes::GET_GLOBAL | opcodes::SET_GLOBAL => n.max(usize::from(i.operand) + 1),
        _ => n,
    }
}

// The instructions of main, with what arrives before each: how many globals they name, or 27 at the first that a run does not take.
fn scan_marked(marks: &[u32], program: Program<'_>) -> Result<usize, Refusal>
    requires { program.parts.code.end < length marks.now }
    ensures { (m : Image) → ImageAt program.entry.parts.code.bytes.now m → result ≡ scan_answer (first_refused m.pool (marks_from marks.now 3) m.code) (named_globals m.code) }
{
    let mut names = 0;
    for (at, i, _) in program.parts.code.instructions() {
        if !runnable(program, i) || GROUND + STACK_LIMIT < marks[at] {
            return refused(Reason::NotRunnable, at);
        }
        names = named(names, i);
    }
    Ok(names)
}

// Main, which passes with its heights.
pub fn scan(program: Program<'_>, heights: &[u32]) -> Result<usize, Refusal>
    ensures { (m : Image) → ImageAt program.entry.parts.code.bytes.now m → (s : Passing) → passed heights.now 0 (size_of m.code) m.code ≡ Passed.passed s → result ≡ scan_answer (refused_with heights.now m) (named_globals m.code) }
{
    let mut marks = [0u32; 65536];
    marks[3] = GROUND;
    let _ = pass(&mut marks, program.parts.code, heights);
    scan_marked(&marks, program)
}
