// The open chunks in the code area, as the Rust's CompilationScope has them: the chunk in work is a record in the state, and lent to
// emission and patching.
#![tactic(auto)]

ghost use Rattle.std.specs.Prelude.{◌≡◌, ◌+◌, ◌≤◌, length, get_or};
ghost use Rattle.std.proofs.Math.Option.{none};
ghost use Rattle.definition.specs.Opcode.{instr, plain, op_closure};
ghost use Rattle.definition.specs.Walk.{on, operate, prefixes, infixes};
ghost use Rattle.scope.specs.Machine;
ghost use Rattle.scope.specs.Code.{opcode_of, jump_and_patch, last};
ghost use Rattle.scope.specs.Lent.{Emits, Jumps, Patches};

mod emission;
mod instruction;
mod lent;
mod operators;

use definition::{Reason, Refusal, refused};
use emission::{add_instruction, change_operand};
use instruction::Instruction;
pub use lent::Scope;
use opcode::opcodes;

// The target of a jump that is not yet patched.
const UNPATCHED: usize = 9999;

// The chunk in work: where it starts in the code area, its length, and in it the positions of its last and its previous instruction.
// Kept: `u32`, here and in State, with casts at the slices: each number is at most 65,536, and a state that is kept or restored is small.
#[derive(Clone, Copy)]
pub struct Chunk {
    pub start: u32,
    pub len: u32,
    pub last: u32,
    pub prev: u32,
}

// The compiler's state beside the lent memory: the chunk in work, the number of open functions, the number of constants, and in the
// session the offsets where the names and the constants end.
#[derive(Clone, Copy)]
pub struct State {
    pub chunk: Chunk,
    pub level: u32,
    pub constants: u32,
    pub names_end: u32,
    pub pool_end: u32,
}

// The chunk without its last instruction.
fn without_last(s: State) -> State
    ensures { result ≡ Machine.without_last s }
{
    let c = s.chunk;
    let next = Chunk {
        start: c.start,
        len: c.last,
        last: c.prev,
        prev: c.prev,
    };
    State { chunk: next, ..s }
}

impl<'a> Scope<'a> {
    // Emits an instruction.
    fn emit_instruction(&mut self, place: usize, i: Instruction) -> Result<(), Refusal>
        ensures { Emits self.old self.new result (Machine.emit place (instr i.op i.a i.b)) }
    {
        if add_instruction(self.code, &mut self.state.chunk, i) {
            return Ok(());
        }
        refused(Reason::Code, place)
    }

    // Emits an instruction without operands.
    pub fn emit(&mut self, place: usize, op: u8) -> Result<(), Refusal>
        ensures { Emits self.old self.new result (Machine.emit place (plain op)) }
    {
        self.emit_operand(place, op, 0)
    }

    // Emits an instruction with at most one operand, of one or two bytes.
    pub fn emit_operand(&mut self, place: usize, op: u8, operand: usize) -> Result<(), Refusal>
        ensures { Emits self.old self.new result (Machine.emit place (instr op operand 0)) }
    {
        let i = Instruction {
            op,
            a: operand,
            b: 0,
        };
        self.emit_instruction(place, i)
    }

    // Emits Closure: the constant that holds its function, and how many free symbols it captures.
    pub fn emit_closure(
        &mut self,
        place: usize,
        constant: usize,
        captures: usize,
    ) -> Result<(), Refusal>
        ensures { Emits self.old self.new result (Machine.emit place (instr op_closure constant captures)) }
    {
        let i = Instruction {
            op: opcodes::CLOSURE,
            a: constant,
            b: captures,
        };
        self.emit_instruction(place, i)
    }

    // Emits a jump without its target, and answers its position.
    pub fn jump(&mut self, place: usize, op: u8) -> Result<usize, Refusal>
        ensures { Jumps self.old self.new result (Machine.jump place op) }
    {
        let at = self.state.chunk.len as usize;
        self.emit_operand(place, op, UNPATCHED)?;
        Ok(at)
    }

    // The jump at a position goes to what comes next.
    pub fn patch(&mut self, at: usize)
        ensures { Patches at self.old self.new }
    {
        change_operand(self.code, &mut self.state.chunk, at);
    }

    // Emits a Jump, and patches the jump from before behind it.
    pub fn jump_and_patch(&mut self, place: usize, at: usize) -> Result<usize, Refusal>
        ensures { Jumps self.old self.new result (jump_and_patch place at) }
    {
        let away = self.jump(place, opcodes::JUMP)?;
        self.patch(at);
        Ok(away)
    }

    // The byte of the chunk's last instruction, if it has one.
    fn last(&self) -> Option<u8>
        ensures { result ≡ last self.now.code.now self.now.state.chunk }
    {
        let c = self.state.chunk;
        if c.len <= c.last {
            return None;
        }
        Some(self.code[(c.start + c.last) as usize])
    }

    // Ends a branch of the if at a place: its last Pop is dropped, a last ReturnValue stays; without either it yields no value.
    pub fn drop_pop(&mut self, place: usize) -> Result<(), Refusal>
        ensures { Emits self.old self.new result (Machine.dropped place) }
    {
        match self.last() {
            Some(opcodes::POP) => {
                self.state = without_last(self.state);
                Ok(())
            }
            Some(opcodes::RETURN_VALUE) => Ok(()),
            _ => refused(Reason::NoValue, place),
        }
    }

    // Ends a function's chunk: its last Pop becomes ReturnValue; where ReturnValue isn't last, Return follows.
    pub fn returned(&mut self, place: usize) -> Result<(), Refusal>
        ensures { Emits self.old self.new result (Machine.returned place) }
    {
        match self.last() {
            Some(opcodes::POP) => {
                let c = self.state.chunk;
                self.code[(c.start + c.last) as usize] = opcodes::RETURN_VALUE;
                Ok(())
            }
            Some(opcodes::RETURN_VALUE) => Ok(()),
            _ => self.emit(place, opcodes::RETURN),
        }
    }

    // Emits a boolean's instruction.
    pub fn boolean(&mut self, place: usize, b: u8) -> Result<(), Refusal>
        ensures { Emits self.old self.new result ((Machine.machine).boolean place b) }
    {
        self.emit(place, operators::boolean_opcode(b))
    }

    // Emits an operator's instruction, or refuses where it has none.
    fn operator(&mut self, place: usize, op: Option<u8>) -> Result<(), Refusal>
        ensures { Emits self.old self.new result (operate Machine.machine place (opcode_of op)) }
    {
        match op {
            Some(op) => self.emit(place, op),
            None => refused(Reason::Operator, place),
        }
    }

    // Emits the instruction of a prefix operator.
    pub fn prefix_operator(&mut self, place: usize, o: u8) -> Result<(), Refusal>
        ensures { Emits self.old self.new result (operate Machine.machine place (get_or prefixes o none)) }
    {
        self.operator(place, operators::prefix_opcode(o))
    }

    // Emits the instruction of an infix operator.
    pub fn infix_operator(&mut self, place: usize, o: u8) -> Result<(), Refusal>
        ensures { Emits self.old self.new result (operate Machine.machine place (get_or infixes o none)) }
    {
        self.operator(place, operators::infix_opcode(o))
    }
}
