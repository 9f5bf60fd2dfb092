// A run of main: one step, and the loop over its instructions.
ghost use Rattle.std.specs.Prelude.{◌≡◌, ℕ, ◌+◌, ◌-◌, ◌<◌, ◌≤◌, Option, List, length, slice_index, slice_index_or};
ghost use Rattle.definition.specs.Opcode.{size};
ghost use Rattle.definition.specs.Bytecode.{Const, Image};
ghost use Rattle.opcode.specs.Decoding.{instr_of};
ghost use Rattle.listing.specs.Reads.{PoolIn, ImageAt};
ghost use Rattle.trial.specs.Value.{Globals};
ghost use Rattle.trial.specs.Run.{actions, other, Frame, execute as executed, top as topmost, trial, unset_globals};
ghost use Rattle.trial.specs.Cells.{Keeps, Stacked, Keeping, kinds_at};
ghost use Rattle.trial.specs.Machine.{Produces, Runs, product, reason_of, KeptAt, Room, StepReady, Framed, After, Stays, Steps, Starts, SafeToRun, EndsAs};

use crate::WORK_SIZE;
use crate::cells::{KINDS, STACK, Value, combine, negate, parts, truthy, value_in};
use crate::pool::Program;
use definition::{Reason, Refusal, refused};
use heights::effect::takes;
use opcode::{Instruction, opcodes};
use std::ops::ControlFlow;

// A run that goes on: the offset that it stands before, the height of its stack, the instructions executed.
#[derive(Clone, Copy)]
pub struct State {
    pub next: usize,
    pub height: usize,
    pub steps: usize,
}

// The machine that runs main: the work area that it is lent, the program, and how far the run is.
// Kept: the whole work area beside a height: a value's kind stands KINDS numbers behind its word, outside the stack.
#[derive(Drop)]
pub struct Machine<'a> {
    pub work: &'a mut [u64; WORK_SIZE],
    pub program: Program<'a>,
    pub state: State,
}

// Why an instruction stops the run that puts no value.
fn reason(op: u8) -> Reason
    ensures { result ≡ reason_of op }
{
    match op {
        opcodes::GET_GLOBAL => Reason::Unset,
        opcodes::CONSTANT => Reason::NotRunnable,
        _ => Reason::Operand,
    }
}

impl Machine<'_> {
    // The value that the work area keeps at a place: its word there, its kind KINDS numbers behind.
    fn kept(&self, at: usize) -> Option<Value>
        requires { at < 3072 }
        ensures { (v : Option Value) → Keeps (slice_index self.now.work.now (kinds_at + at)) (slice_index self.now.work.now at) v → result ≡ v }
    {
        let work = &*self.work;
        value_in(work[KINDS + at], work[at])
    }

    // Keeps a value at a place.
    fn keep(&mut self, at: usize, x: Value)
        requires { at < 3072 }
        ensures stores { KeptAt self.old.work.now at x self.new.work.now }
        ensures still { self.new.state ≡ self.old.state }
        ensures lent { Stays self.old self.new }
    {
        let (kind, word) = parts(x);
        self.work[at] = word;
        self.work[KINDS + at] = kind;
    }

    // The top of the stack without so many values.
    fn top_without(&self, n: usize) -> Value
        requires { (n + 1 ≤ self.now.state.height) × (self.now.state.height ≤ 1024) }
        ensures { (st : List Value) → Stacked self.now.work.now (self.now.state.height - n) st → result ≡ topmost st }
    {
        self.kept(STACK + self.state.height - n - 1)
            .unwrap_or(Value::Null)
    }

    // The top of the stack.
    fn top(&self) -> Value
        requires { (1 ≤ self.now.state.height) × (self.now.state.height ≤ 1024) }
        ensures { (st : List Value) → Stacked self.now.work.now self.now.state.height st → result ≡ topmost st }
    {
        self.top_without(0)
    }

    // One instruction executed: the run stands before an offset, with a stack so high.
    fn step_to(&mut self, next: usize, height: usize) -> ControlFlow<usize>
        requires { self.old.state.steps ≤ 131072 }
        ensures { Steps self.old self.new next height result }
    {
        let steps = self.state.steps + 1;
        self.state = State {
            next,
            height,
            steps,
        };
        ControlFlow::Continue(())
    }

    // What an instruction puts on the stack; none where it stops the run.
    fn produced(&self, i: Instruction) -> Option<Value>
        requires { Room (instr_of i) self.now.state.height × Produces i.op }
        ensures { (cs : List Const) (st : List Value) (g : Globals) → PoolIn self.now.program.parts.pool cs → Keeping self.now.work.now g → Stacked self.now.work.now self.now.state.height st → result ≡ product cs i.operand st g (slice_index_or actions i.op other) }
    {
        match i.op {
            opcodes::CONSTANT => self.program.integer_at(usize::from(i.operand)),
            opcodes::GET_GLOBAL => self.kept(usize::from(i.operand)),
            opcodes::TRUE => Some(Value::Boolean(true)),
            opcodes::FALSE => Some(Value::Boolean(false)),
            opcodes::NULL => Some(Value::Null),
            opcodes::MINUS => negate(self.top()),
            opcodes::BANG => Some(Value::Boolean(!truthy(self.top()))),
            op => combine(op, self.top_without(1), self.top()),
        }
    }

    // An instruction that puts a value.
    fn produce(&mut self, i: Instruction, next: usize) -> Result<ControlFlow<usize>, Refusal>
        requires { StepReady (instr_of i) next self.old.state × Produces i.op }
        ensures runs { (cs : List Const) (f : Frame) → PoolIn self.old.program.parts.pool cs → Framed self.old.work.now self.old.state f → next ≡ 3 + (f.at + size (instr_of i)) → After self.new.work.now self.new.state f.at result (executed cs (instr_of i) f) }
        ensures lent { Stays self.old self.new }
    {
        let Some(x) = self.produced(i) else {
            return refused(reason(i.op), self.state.next);
        };
        let left = self.state.height - takes(i) as usize;
        self.keep(STACK + left, x);
        Ok(self.step_to(next, left + 1))
    }

    // One instruction, `next` behind it: the run goes on, or ReturnValue ends it with its steps.
    fn execute(&mut self, i: Instruction, next: usize) -> Result<ControlFlow<usize>, Refusal>
        requires { StepReady (instr_of i) next self.old.state × Runs i.op }
        ensures runs { (cs : List Const) (f : Frame) → PoolIn self.old.program.parts.pool cs → Framed self.old.work.now self.old.state f → next ≡ 3 + (f.at + size (instr_of i)) → After self.new.work.now self.new.state f.at result (executed cs (instr_of i) f) }
        ensures lent { Stays self.old self.new }
    {
        let k = usize::from(i.operand);
        let height = self.state.height;
        match i.op {
            opcodes::RETURN_VALUE => Ok(ControlFlow::Break(self.state.steps + 1)),
            opcodes::JUMP => Ok(self.step_to(3 + k, height)),
            opcodes::POP => Ok(self.step_to(next, height - 1)),
            opcodes::SET_GLOBAL => {
                let x = self.top();
                self.keep(k, x);
                Ok(self.step_to(next, height - 1))
            }
            opcodes::JUMP_NOT_TRUTHY => {
                if truthy(self.top()) {
                    Ok(self.step_to(next, height - 1))
                } else {
                    Ok(self.step_to(3 + k, height - 1))
                }
            }
            _ => self.produce(i, next),
        }
    }

    // The run of main: the instructions executed.
    fn run(&mut self) -> Result<usize, Refusal>
        requires { Starts self.old }
        ensures ends { (m : Image) → ImageAt self.old.program.parts.code.bytes.now m → EndsAs self.new.work.now result (trial m) }
        ensures same { self.new.work.ghost_name ≡ self.old.work.ghost_name }
    {
        for (at, i, next) in self.program.parts.code.instructions() {
            if at == self.state.next {
                if let ControlFlow::Break(steps) = self.execute(i, next)? {
                    return Ok(steps);
                }
            }
        }
        Ok(self.state.steps)
    }
}

// The run of main: the instructions executed.
pub fn run_main(work: &mut [u64; WORK_SIZE], program: Program<'_>) -> Result<usize, Refusal>
    requires { Keeping work.old unset_globals × SafeToRun program.parts.code.bytes.now }
    ensures { (m : Image) → ImageAt program.entry.parts.code.bytes.now m → EndsAs work.new result (trial m) }
{
    let state = State {
        next: 3,
        height: 0,
        steps: 0,
    };
    let mut machine = Machine {
        work,
        program,
        state,
    };
    machine.run()
}
