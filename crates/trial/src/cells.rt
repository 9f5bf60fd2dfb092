// The values of a run: as the work area keeps them, and what the operators make of them.
ghost use Rattle.std.specs.Prelude.{◌≡◌, ℕ, ◌≢◌, Option};
ghost use Rattle.trial.specs.Value.{integer, Infix, minus, combined, changed, truthy as isTruthy};
ghost use Rattle.trial.specs.Cells.{Keeps};
ghost use Rattle.trial.specs.Machine.{InfixAt};

use opcode::opcodes;
use std::fmt;

// A value.
#[derive(Clone, Copy, PartialEq, Eq)]
pub enum Value {
    Integer(i64),
    Boolean(bool),
    Null,
}

impl fmt::Display for Value {
    fn fmt<W: fmt::Write>(&self, f: &mut fmt::Formatter<W>) -> fmt::Result {
        match self {
            Value::Integer(n) => write!(f, "integer {n}"),
            Value::Boolean(b) => write!(f, "boolean {b}"),
            Value::Null => f.write_str("null"),
        }
    }
}

// The kind of an integer; a number that is no kind stands where no value is set.
// Kept: numbers, words and kinds as parts of one slice: C lends one area of u64 that may hold anything: no enum, no struct stands in it.
const INTEGER: u64 = 1;

// The kind of a boolean.
const BOOLEAN: u64 = 2;

// The kind of null.
const NULL: u64 = 3;

// Where the kinds of the globals start in the work area, behind their words: a kind stands so far behind its word, the stack's too.
pub const KINDS: usize = 1024;

// Where the words of the stack start.
pub const STACK: usize = 2048;

// The most values on a stack.
pub const STACK_LIMIT: u32 = 1024;

// The value that a kind and a word of the work area keep, or a cell of the output; none where none is set.
pub fn value_in(kind: u64, word: u64) -> Option<Value>
    ensures { (v : Option Value) → Keeps kind word v → result ≡ v }
{
    match kind {
        INTEGER => Some(Value::Integer(word.cast_signed())),
        BOOLEAN => Some(Value::Boolean(word == 1)),
        NULL => Some(Value::Null),
        _ => None,
    }
}

// The kind and the word that keep a value.
pub fn parts(x: Value) -> (u64, u64)
    ensures { Keeps result.0 result.1 (Some x) }
{
    match x {
        Value::Integer(n) => (INTEGER, n.cast_unsigned()),
        Value::Boolean(b) => (BOOLEAN, u64::from(b)),
        Value::Null => (NULL, 0),
    }
}

// False and null are false, all else true.
pub fn truthy(x: Value) -> bool
    ensures { result ≡ isTruthy x }
{
    match x {
        Value::Integer(_) => true,
        Value::Boolean(b) => b,
        Value::Null => false,
    }
}

// An operator on two integers; none where the result does not fit, or the divisor is zero.
fn calculate(op: u8, a: i64, b: i64) -> Option<Value>
    ensures { (o : Infix) → InfixAt op o → (op ≢ 0x08) → (op ≢ 0x09) → result ≡ combined o (integer a) (integer b) }
{
    match op {
        opcodes::ADD => a.checked_add(b).map(Value::Integer),
        opcodes::SUB => a.checked_sub(b).map(Value::Integer),
        opcodes::MUL => a.checked_mul(b).map(Value::Integer),
        opcodes::DIV => a.checked_div(b).map(Value::Integer),
        _ => Some(Value::Boolean(b < a)),
    }
}

// An operator on the left and the right operand; none where it does not take them.
pub fn combine(op: u8, x: Value, y: Value) -> Option<Value>
    ensures { (o : Infix) → InfixAt op o → result ≡ combined o x y }
{
    match op {
        opcodes::EQUAL => Some(Value::Boolean(x == y)),
        opcodes::NOT_EQUAL => Some(Value::Boolean(x != y)),
        _ => match (x, y) {
            (Value::Integer(a), Value::Integer(b)) => calculate(op, a, b),
            _ => None,
        },
    }
}

// The number with the other sign; none where it is no number, or does not fit.
pub fn negate(x: Value) -> Option<Value>
    ensures { result ≡ changed minus x }
{
    match x {
        Value::Integer(n) => n.checked_neg().map(Value::Integer),
        _ => None,
    }
}
