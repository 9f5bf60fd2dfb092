// The operators' bytes in a tree, in the order of the published compiler's `Token`.
// Kept: bytes and no enum: a tree holds any byte there, and the functions that take one take any.

pub const PLUS: u8 = 1;

pub const MINUS: u8 = 2;

pub const BANG: u8 = 3;

pub const STAR: u8 = 4;

pub const SLASH: u8 = 5;

pub const EQUAL: u8 = 6;

pub const NOT_EQUAL: u8 = 7;

// The operator whose right side is compiled first.
pub const LESS_THAN: u8 = 8;

// The last of them.
pub const GREATER_THAN: u8 = 9;
