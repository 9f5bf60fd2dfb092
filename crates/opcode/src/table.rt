// The constant tables.

// The operand length of each first byte: of the 30 that begin an instruction, and 255 for the others, which begin none.
pub static WIDTHS: [u8; 256] = [
    2, // 00 Constant
    0, // 01 Add
    0, // 02 Pop
    0, // 03 Sub
    0, // 04 Mul
    0, // 05 Div
    0, // 06 True
    0, // 07 False
    0, // 08 Equal
    0, // 09 NotEqual
    0, // 0A GreaterThan
    0, // 0B Minus
    0, // 0C Bang
    2, // 0D JumpNotTruthy
    2, // 0E Jump
    0, // 0F Null
    2, // 10 GetGlobal
    2, // 11 SetGlobal
    2, // 12 Array
    2, // 13 Hash
    0, // 14 Index
    1, // 15 Call
    0, // 16 ReturnValue
    0, // 17 Return
    1, // 18 GetLocal
    1, // 19 SetLocal
    1, // 1A GetBuiltin
    3, // 1B Closure
    1, // 1C GetFree
    0, // 1D CurrentClosure
    255, 255, // 1E, 1F
    255, 255, 255, 255, 255, 255, 255, 255, 255, 255, 255, 255, 255, 255, 255, 255, // from 20
    255, 255, 255, 255, 255, 255, 255, 255, 255, 255, 255, 255, 255, 255, 255, 255, // from 30
    255, 255, 255, 255, 255, 255, 255, 255, 255, 255, 255, 255, 255, 255, 255, 255, // from 40
    255, 255, 255, 255, 255, 255, 255, 255, 255, 255, 255, 255, 255, 255, 255, 255, // from 50
    255, 255, 255, 255, 255, 255, 255, 255, 255, 255, 255, 255, 255, 255, 255, 255, // from 60
    255, 255, 255, 255, 255, 255, 255, 255, 255, 255, 255, 255, 255, 255, 255, 255, // from 70
    255, 255, 255, 255, 255, 255, 255, 255, 255, 255, 255, 255, 255, 255, 255, 255, // from 80
    255, 255, 255, 255, 255, 255, 255, 255, 255, 255, 255, 255, 255, 255, 255, 255, // from 90
    255, 255, 255, 255, 255, 255, 255, 255, 255, 255, 255, 255, 255, 255, 255, 255, // from A0
    255, 255, 255, 255, 255, 255, 255, 255, 255, 255, 255, 255, 255, 255, 255, 255, // from B0
    255, 255, 255, 255, 255, 255, 255, 255, 255, 255, 255, 255, 255, 255, 255, 255, // from C0
    255, 255, 255, 255, 255, 255, 255, 255, 255, 255, 255, 255, 255, 255, 255, 255, // from D0
    255, 255, 255, 255, 255, 255, 255, 255, 255, 255, 255, 255, 255, 255, 255, 255, // from E0
    255, 255, 255, 255, 255, 255, 255, 255, 255, 255, 255, 255, 255, 255, 255, 255, // from F0
];

// How many bytes begin an instruction: those below this one.
pub const INSTRUCTIONS: usize = 0x1E;

// The word of the listing of each byte that begins an instruction.
pub static WORDS: [&[u8]; 30] = [
    b"Constant",
    b"Add",
    b"Pop",
    b"Sub",
    b"Mul",
    b"Div",
    b"True",
    b"False",
    b"Equal",
    b"NotEqual",
    b"GreaterThan",
    b"Minus",
    b"Bang",
    b"JumpNotTruthy",
    b"Jump",
    b"Null",
    b"GetGlobal",
    b"SetGlobal",
    b"Array",
    b"Hash",
    b"Index",
    b"Call",
    b"ReturnValue",
    b"Return",
    b"GetLocal",
    b"SetLocal",
    b"GetBuiltin",
    b"Closure",
    b"GetFree",
    b"CurrentClosure",
];
