// The instruction bytes, as the definition's Opcode has them.
// Kept: numbers, no enum: lent code may hold any byte; an enum for those that scope and step choose would name all thirty a second time.

// The instructions, by the names of `Opcode`.
pub const CONSTANT: u8 = 0x00;

pub const ADD: u8 = 0x01;

pub const POP: u8 = 0x02;

pub const SUB: u8 = 0x03;

pub const MUL: u8 = 0x04;

pub const DIV: u8 = 0x05;

pub const TRUE: u8 = 0x06;

pub const FALSE: u8 = 0x07;

pub const EQUAL: u8 = 0x08;

pub const NOT_EQUAL: u8 = 0x09;

pub const GREATER_THAN: u8 = 0x0A;

pub const MINUS: u8 = 0x0B;

pub const BANG: u8 = 0x0C;

pub const JUMP_NOT_TRUTHY: u8 = 0x0D;

pub const JUMP: u8 = 0x0E;

pub const NULL: u8 = 0x0F;

pub const GET_GLOBAL: u8 = 0x10;

pub const SET_GLOBAL: u8 = 0x11;

pub const ARRAY: u8 = 0x12;

pub const HASH: u8 = 0x13;

pub const INDEX: u8 = 0x14;

pub const CALL: u8 = 0x15;

pub const RETURN_VALUE: u8 = 0x16;

pub const RETURN: u8 = 0x17;

pub const GET_LOCAL: u8 = 0x18;

pub const SET_LOCAL: u8 = 0x19;

pub const GET_BUILTIN: u8 = 0x1A;

pub const CLOSURE: u8 = 0x1B;

pub const GET_FREE: u8 = 0x1C;

pub const CURRENT_CLOSURE: u8 = 0x1D;
