// The tags of fields, as specs/Tag.antt has them.
// Kept: named numbers, no enum: trees, sessions and images that callers lend hold any byte, and functions take it as it stands.

// A tree: statements.
pub const PROGRAM: u8 = 0x10;

// Statements.
pub const EXPR_STMT: u8 = 0x11;

pub const BLOCK: u8 = 0x12;

pub const LET: u8 = 0x13;

pub const RETURN: u8 = 0x14;

// Expressions.
pub const IDENTIFIER: u8 = 0x20;

pub const PREFIX: u8 = 0x21;

pub const INFIX: u8 = 0x22;

pub const IF: u8 = 0x23;

pub const FUNCTION: u8 = 0x24;

pub const CALL: u8 = 0x25;

pub const INTEGER: u8 = 0x26;

pub const BOOLEAN: u8 = 0x27;

pub const STRING: u8 = 0x28;

pub const ARRAY: u8 = 0x29;

pub const INDEX: u8 = 0x2a;

pub const HASH: u8 = 0x2b;

pub const MACRO: u8 = 0x2c;

// A name, parameters, an operator.
pub const NAME: u8 = 0x30;

pub const PARAMS: u8 = 0x31;

pub const OPERATOR: u8 = 0x32;

// A session's global names.
pub const NAMES: u8 = 0x40;

// A session's words.
pub const WORDS: u8 = 0x42;

// An image's main code.
pub const MAIN: u8 = 0x50;

// Constants.
pub const POOL: u8 = 0x51;

pub const INTEGER_CONST: u8 = 0x60;

pub const STRING_CONST: u8 = 0x61;

pub const FUNCTION_CONST: u8 = 0x62;
