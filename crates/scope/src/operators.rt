// The instructions of operators and booleans.
ghost use Rattle.std.specs.Prelude.{◌≡◌, eqb, get_or};
ghost use Rattle.std.proofs.Math.Option.{none};
ghost use Rattle.definition.specs.Basic.{pick};
ghost use Rattle.definition.specs.Opcode.{op_true, op_false};
ghost use Rattle.definition.specs.Walk.{prefixes, infixes};
ghost use Rattle.scope.specs.Code.{opcode_of};

use opcode::opcodes;

// The instructions of the prefix operators, by the bytes of `definition::operator` from 0 up to Bang.
const PREFIXES: [Option<u8>; 4] = [None, None, Some(opcodes::MINUS), Some(opcodes::BANG)];

// The instructions of the infix operators, by those from 0 up to GreaterThan.
const INFIXES: [Option<u8>; 10] = [
    None,
    Some(opcodes::ADD),
    Some(opcodes::SUB),
    None,
    Some(opcodes::MUL),
    Some(opcodes::DIV),
    Some(opcodes::EQUAL),
    Some(opcodes::NOT_EQUAL),
    Some(opcodes::GREATER_THAN),
    Some(opcodes::GREATER_THAN),
];

// The instruction of a prefix operator, if it has one.
pub fn prefix_opcode(o: u8) -> Option<u8>
    ensures { opcode_of result ≡ get_or prefixes o none }
{
    PREFIXES.get(usize::from(o)).copied().flatten()
}

// The instruction of an infix operator, if it has one.
pub fn infix_opcode(o: u8) -> Option<u8>
    ensures { opcode_of result ≡ get_or infixes o none }
{
    INFIXES.get(usize::from(o)).copied().flatten()
}

// The instruction of a boolean.
pub fn boolean_opcode(b: u8) -> u8
    ensures { result ≡ pick (eqb b 0) op_false op_true }
{
    if b == 0 {
        opcodes::FALSE
    } else {
        opcodes::TRUE
    }
}
