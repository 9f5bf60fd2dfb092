// The lines of code.
ghost use Rattle.definition.specs.Bytecode.{Code};
ghost use Rattle.definition.specs.Listing.{word, operand_fields, code_line, code_lines};
ghost use Rattle.opcode.specs.Decoding.{instr_of};
ghost use Rattle.listing.specs.Put.{Puts};
ghost use Rattle.listing.specs.Reads.{CodeIn, HasCodeIn};

use crate::text::Writer;
use bytecode::Span;
use field::wide;
use opcode::table::INSTRUCTIONS;
use opcode::{Instruction, operand_length, word_of};

impl<'a> Writer<'a> {
    // Puts the word of an instruction byte; nothing for another byte.
    // Kept: beside `opcode::write_word`, which refuses where there is no room and writes nothing; here what fits is stored.
    fn put_word(&mut self, op: u8)
        ensures { Puts self.old self.new (word op) }
    {
        if wide(op) < INSTRUCTIONS {
            self.put_bytes(word_of(op));
        }
    }

    // Puts the operands of an instruction, by its number of operand bytes.
    fn put_operands(&mut self, width: usize, a: usize, b: usize)
        ensures { Puts self.old self.new (operand_fields width a b) }
    {
        match width {
            0 => {}
            1 | 2 => self.put_field(a),
            _ => {
                self.put_field(a);
                self.put_field(b);
            }
        }
    }

    // Puts the line of an instruction at a position.
    fn put_line(&mut self, position: usize, i: Instruction)
        ensures { Puts self.old self.new (code_line position (instr_of i)) }
    {
        self.put_padded(position);
        self.put(b' ');
        self.put_word(i.op);
        self.put_operands(operand_length(i.op), i.operand as usize, wide(i.captures));
        self.put_newline();
    }

    // Puts the lines of code.
    pub fn put_code(&mut self, code: Span<'_>)
        requires { HasCodeIn code }
        ensures { (c : Code) → CodeIn code.entry c → Puts self.old self.new (code_lines c) }
    {
        for (place, i, _) in code.instructions() {
            self.put_line(place - code.start, i);
        }
    }
}
