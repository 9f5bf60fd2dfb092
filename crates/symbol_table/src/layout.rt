// The table area. First the globals, 3,073 numbers: their count, 1,024 names, 1,024 nodes, the heads of 1,024 buckets.
// Then a part for each open function, 811 numbers: 1 where it has a name, its definitions, its free symbols, 512 entries, 255 originals,
// how many of its entries are marked, and 1,280 marks, 32 to a number: one for each builtin and each global, set where a marked entry has
// its name.
use definition::limit;
use definition::limit::{FREE_LIMIT, GLOBALS_LIMIT, LOCALS_LIMIT, SESSION_SIZE, TREE_LIMIT};

// The hashes of names: their bound; their buckets, by the low bits; the bits that are left.
pub const HASHES: usize = 4294967296;

// What the hash of the bytes before is multiplied by: 37 and a multiple of 1,024, so that the buckets are those of 37 alone.
pub const FACTOR: usize = 2654440485;

pub const BUCKETS: usize = 1024;

pub const BUCKET_BITS: usize = 10;

pub const SIDE_BITS: usize = 22;

// The node of a global is behind this, by its index and 1.
pub const NODES_AT: usize = GLOBALS_LIMIT;

pub const HEADS_AT: usize = 1 + NODES_AT + GLOBALS_LIMIT;

pub const GLOBALS_SIZE: usize = HEADS_AT + BUCKETS;

pub const ENTRIES_AT: usize = 3;

pub const ORIGINALS_AT: usize = ENTRIES_AT + 1 + LOCALS_LIMIT + FREE_LIMIT;

pub const MARKED_AT: usize = ORIGINALS_AT + FREE_LIMIT;

pub const MARKS_AT: usize = MARKED_AT + 1;

pub const MARK_NUMBERS: usize = 40;

pub const PART_SIZE: usize = MARKS_AT + MARK_NUMBERS;

// The definitions of a session and of a function, and a function's free symbols, as the area counts them.
pub const GLOBALS: u32 = limit::GLOBALS_LIMIT as u32;

pub const LOCALS: u32 = limit::LOCALS_LIMIT as u32;

pub const CAPTURES: u32 = limit::FREE_LIMIT as u32;

// The codes of symbols: a function's own name is below LOCAL, a local from there on, and so on.
// Kept: numbers, since the entries and originals of the lent area hold them; `Symbol::from` tells what each stands for.
pub const FUNCTION: u32 = 0;

pub const LOCAL: u32 = 256;

pub const FREE: u32 = 512;

pub const BUILTIN: u32 = 768;

pub const GLOBAL: u32 = 1024;

// The codes that an entry can have are below this.
pub const CODES: u32 = 1024;

// A table of so many entries is searched without marks.
pub const SHORT: usize = 16;

// The marks: that of a code is the code's remainder.
pub const MARKS: u32 = 1280;

// An entry: the offset of its name, the code of its symbol, and seven bits of its name's hash.
pub const CODE_UNIT: u32 = TREE_LIMIT as u32;

pub const TAG_UNIT: u32 = CODE_UNIT * CODES;

// A node: the globals on its two sides, and the index of the latest global of its name. A bucket's heads: the first of the session's
// globals and of the tree's. A global stands there as its index and 1, so that 0 is none.
pub const SIDE_UNIT: u32 = 2048;

pub const LATEST_UNIT: u32 = SIDE_UNIT * SIDE_UNIT;

// A global's name is an offset among the session's names, or that much more than an offset in the tree.
pub const IN_TREE: usize = SESSION_SIZE;
