// The sizes and limits of documents 01 and 02, as specs/Limit.antt has them.

// The session: words, names, pool, zeros.
pub const SESSION_SIZE: usize = 65536;

// The code area; the open chunks together, and an image's main code.
pub const CODE_SIZE: usize = 32768;

// The table area, in 32-bit numbers.
pub const TABLE_SIZE: usize = 16384;

// A tree.
pub const TREE_LIMIT: usize = 32768;

// The deepest level of a field, Program's being 1.
pub const LEVEL_LIMIT: usize = 64;

// The bytes of a name.
pub const NAME_LIMIT: usize = 32;

// The definitions of a session.
pub const GLOBALS_LIMIT: usize = 1024;

// The words of a session.
pub const WORDS_LIMIT: usize = 24;

// The constants of a pool.
pub const CONSTANTS_LIMIT: usize = 4096;

// A pool's content.
pub const POOL_LIMIT: usize = 28672;

// The definitions of a function, its parameters among them.
pub const LOCALS_LIMIT: usize = 256;

// The free symbols of a function.
pub const FREE_LIMIT: usize = 255;

// The parameters of a function, and the arguments of a call.
pub const ARGUMENTS_LIMIT: usize = 255;

// The open functions.
pub const NESTING_LIMIT: usize = 16;
