// Operands in the other form.
ghost use Rattle.std.specs.Prelude.{◌≡◌, ◌<◌};
ghost use Rattle.chin.specs.Turn.{exchanged as exchangedOf};
ghost use Rattle.chin.specs.Rows.{jump_of, other_form, wide_operand};

use bytecode::Form;
use field::word;
use opcode::opcodes::{JUMP, JUMP_NOT_TRUTHY};

// The form that an image is translated into.
pub fn other_form(form: Form) -> Form
    ensures { result ≡ other_form form }
{
    match form {
        Form::Plain => Form::Chin,
        Form::Chin => Form::Plain,
    }
}

// A number of two bytes with its bytes exchanged.
fn exchanged(a: usize) -> usize
    ensures { result ≡ exchangedOf a }
{
    let [.., high, low] = a.to_be_bytes();
    word(low, high)
}

// The operand of a jump that ends at an offset of its chunk: the distance to its target, or the target of its distance; or there is none.
fn jump_operand(from: Form, end: usize, a: usize) -> Option<usize>
    requires { end < 9223372036854775808 }
    ensures { result ≡ jump_of from end a }
{
    match from {
        Form::Plain => Some(exchanged(a.checked_sub(end)?)),
        Form::Chin => {
            let target = end + exchanged(a);
            (target <= 65535).then_some(target)
        }
    }
}

// The operand of two bytes of any instruction in the other form, if there is one: exchanged, unless it jumps.
pub fn other_operand(from: Form, op: u8, end: usize, a: usize) -> Option<usize>
    requires { end < 9223372036854775808 }
    ensures { result ≡ wide_operand (jump_of from) op end a }
{
    match op {
        JUMP | JUMP_NOT_TRUTHY => jump_operand(from, end, a),
        _ => Some(exchanged(a)),
    }
}
