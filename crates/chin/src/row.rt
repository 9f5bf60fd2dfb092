// Instructions and constants, one after the other: each is read in the image, and what differs is stored into its copy in the output, if
// there is room.
ghost use Rattle.std.specs.Prelude.{◌≡◌, List, ◌+◌, ◌<◌};
ghost use Rattle.definition.specs.Bytecode.{Code, Const, Image};
ghost use Rattle.chin.specs.Lent.{Keeps};
ghost use Rattle.chin.specs.Rows.{jump_of, stored_operand, InstrIn, TurnsInstr, CodeAt, HasCode, TurnsCode, ConstAt, HasConst, TurnsConst, PoolAt, HasPool, TurnsPool, ImageAt, HasImage, TurnsImage};

use crate::BadJump;
use crate::operand::{other_form, other_operand};
use bytecode::constants::Constants;
use bytecode::{Form, Parts};
use definition::output::store;
use field::{length_at, word};
use opcode::instructions::Instructions;

// A sound image of a form, and the output where its copy turns into the other form.
#[derive(Drop)]
pub struct Turning<'a> {
    pub output: &'a mut [u8],
    pub image: &'a [u8],
    pub from: Form,
}

impl Turning<'_> {
    // Puts the operand of the instruction at an offset, high byte first, if there is room.
    fn put_operand(&mut self, at: usize, a: usize)
        requires { at < 9223372036854775808 }
        ensures stores { self.new.output.now ≡ stored_operand self.old.output.now at a }
        ensures lent { Keeps self.old self.new }
    {
        let output = &mut *self.output;
        if output.len() <= at + 2 {
            return;
        }
        let [.., high, low] = a.to_be_bytes();
        output[at + 1] = high;
        output[at + 2] = low;
    }

    // Turns the instruction of so many bytes at an offset, in the chunk that begins at `start`; or answers its offset, where its jump has
    // no operand in the other form.
    fn turn_instruction(&mut self, start: usize, at: usize, size: usize) -> Result<(), BadJump>
        requires { InstrIn self.old.image.now start at size }
        ensures turns { TurnsInstr (jump_of self.old.from) self.old.image.now start at size self.old.output.now self.new.output.now result }
        ensures lent { Keeps self.old self.new }
    {
        if size < 3 {
            return Ok(());
        }
        let image = self.image;
        let operand = word(image[at + 1], image[at + 2]);
        match other_operand(self.from, image[at], at - start + size, operand) {
            Some(a) => {
                self.put_operand(at, a);
                Ok(())
            }
            None => Err(BadJump { place: at }),
        }
    }

    // Turns the code of a chunk, up to a jump that has no operand in the other form: then its offset.
    fn turn_code(&mut self, start: usize, end: usize) -> Result<(), BadJump>
        requires { HasCode self.old.image.now start end }
        ensures turns { (c : Code) → CodeAt self.old.image.now start end c → TurnsCode (jump_of self.old.from) self.old.image.now start end c self.old.output.now self.new.output.now result }
        ensures lent { Keeps self.old self.new }
    {
        // Kept: two offsets, here and in the two below: with a `Span` a translation takes 7 to 15 % more instructions, and the bar is 3 %.
        for (at, _, next) in Instructions::new(self.image, start, end) {
            self.turn_instruction(start, at, next - at)?;
        }
        Ok(())
    }

    // Turns the constant at an offset: a function has the other form's tag, and its code is turned; any other stays.
    fn turn_constant(&mut self, at: usize, end: usize) -> Result<(), BadJump>
        requires { HasConst self.old.from self.old.image.now at end }
        ensures turns { (x : Const) → ConstAt self.old.from self.old.image.now at end x → TurnsConst self.old.from self.old.image.now at x self.old.output.now self.new.output.now result }
        ensures lent { Keeps self.old self.new }
    {
        let image = self.image;
        let function = self.from.tags().function;
        if image[at] != function {
            return Ok(());
        }
        let tag = other_form(self.from).tags().function;
        store(self.output, at, tag);
        let len = length_at(image, at);
        self.turn_code(at + 6, at + 3 + len)
    }

    // Turns the constants that fill the part from an offset up to another.
    fn turn_constants(&mut self, start: usize, end: usize) -> Result<(), BadJump>
        requires { HasPool self.old.from self.old.image.now start end }
        ensures turns { (cs : List Const) → PoolAt self.old.from self.old.image.now start end cs → TurnsPool self.old.from self.old.image.now start end cs self.old.output.now self.new.output.now result }
        ensures lent { Keeps self.old self.new }
    {
        for (at, _) in Constants::new(self.image, start, end) {
            self.turn_constant(at, end)?;
        }
        Ok(())
    }

    // Puts the other form of the image over its copy at the front of the output, up to a jump that has no operand there. Where the output
    // is empty it only looks for one.
    pub fn turn_image(&mut self) -> Result<(), BadJump>
        requires { HasImage self.old.from self.old.image.now }
        ensures turns { (m : Image) → ImageAt self.old.from self.old.image.now m → TurnsImage self.old.from m self.old.image.now self.old.output.now self.new.output.now result }
        ensures lent { Keeps self.old self.new }
    {
        let Parts { code, pool } = Parts::of(self.image);
        let tag = other_form(self.from).tags().main;
        store(self.output, 0, tag);
        self.turn_code(code.start, code.end)?;
        self.turn_constants(pool.start, pool.end)
    }
}
