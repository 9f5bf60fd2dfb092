// The symbol tables of the open functions, in the table area: what a name stands for.
// Kept: the tables are numbers packed in `&mut [u32]`, since C lends them as such: fixed memory, and no heap.
#![tactic(auto)]

mod enclosed;
mod globals;
pub mod layout;
mod marks;
mod name;
mod query;
mod words;

ghost use Rattle.std.specs.Prelude.{◌≡◌, ◌+◌, ◌<◌, ◌≤◌, length, get_or, take, drop};
ghost use Rattle.definition.specs.Basic.{Bytes};
ghost use Rattle.definition.specs.Limit.{tree_limit, session_size};
ghost use Rattle.definition.specs.Opcode.{instr};
ghost use Rattle.definition.specs.SymbolTable.{load_of};
ghost use Rattle.definition.specs.Decode.{words_in};
ghost use Rattle.field.specs.Layout.{after};
ghost use Rattle.symbol_table.specs.Layout.{globals_size, part_size, base, part, symbol_of, Sized, Good};
ghost use Rattle.symbol_table.specs.Symbols.{meant_by};
ghost use Rattle.symbol_table.specs.Contract.{lookup_reason, define_reason, Inside, Resolves, DefinesLocal, Defines, HasParams, Enters, HasWords, HasNames, HasItems, StartsFrom, Starts};

use definition::Reason;
pub use enclosed::Part;
use enclosed::{open_in, part_range, place_in};
use field::fields::Fields;
pub use globals::NamePlace;
use globals::{place_global, start_in};
use layout::{BUILTIN, FREE, GLOBAL, LOCAL};
pub use name::Key;
use name::Label;
use opcode::opcodes;
use query::{Known, Query};

// A symbol that a lookup found: its code, and the functions crossed.
// Kept: the code, which goes into an original, a mark or a log as it stands: a `Symbol` would be turned back into it at each of the three.
#[derive(Clone, Copy, PartialEq, Eq, Debug)]
pub struct Found {
    pub code: u32,
    pub crossed: usize,
}

// Why a lookup finds no symbol: an undefined name, or a table with no room for a free symbol.
#[derive(Clone, Copy, PartialEq, Eq, Debug)]
pub enum LookupError {
    Undefined,
    Full,
}

// The reason that a caller is told.
impl From<LookupError> for Reason {
    ghost from_gives = { λ error reason. reason ≡ lookup_reason error };

    fn from(error: LookupError) -> Reason {
        match error {
            LookupError::Undefined => Reason::Undefined,
            LookupError::Full => Reason::Captures,
        }
    }
}

// Where a definition stands: its index among the globals, or among the definitions of a function.
#[derive(Clone, Copy, PartialEq, Eq, Debug)]
pub enum Slot {
    Global(u32),
    Local(u32),
}

// The table that has no room for a definition.
#[derive(Clone, Copy, PartialEq, Eq, Debug)]
pub enum DefineError {
    GlobalsFull,
    LocalsFull,
}

// The reason that a caller is told.
impl From<DefineError> for Reason {
    ghost from_gives = { λ error reason. reason ≡ define_reason error };

    fn from(error: DefineError) -> Reason {
        match error {
            DefineError::GlobalsFull => Reason::Globals,
            DefineError::LocalsFull => Reason::Locals,
        }
    }
}

// A symbol: the function itself, or the index of a local, a free symbol, a builtin or a global.
#[derive(Clone, Copy, PartialEq, Eq, Debug)]
pub enum Symbol {
    Function,
    Local(u32),
    Free(u32),
    Builtin(u32),
    Global(u32),
}

// The symbol of a code.
impl From<u32> for Symbol {
    ghost from_gives = { λ code symbol. meant_by symbol ≡ symbol_of code };

    fn from(code: u32) -> Symbol {
        match code {
            0..LOCAL => Symbol::Function,
            LOCAL..FREE => Symbol::Local(code - LOCAL),
            FREE..BUILTIN => Symbol::Free(code - FREE),
            BUILTIN..GLOBAL => Symbol::Builtin(code - BUILTIN),
            _ => Symbol::Global(code - GLOBAL),
        }
    }
}

// The instruction that loads or sets a symbol, with at most one operand.
#[derive(Clone, Copy)]
pub struct Access {
    pub op: u8,
    pub operand: usize,
}

// A name's symbol, with the builtins that the session begins with, or document 01's.
pub fn resolve_name(
    key: Key<'_>,
    names: &[u8],
    table: &mut [u32],
    level: usize,
) -> Result<Found, LookupError>
    requires has_words { HasWords names.now }
    requires level_in_bounds { base level ≤ length table.old }
    requires good { Good key.tree.now names.now level table.old }
    ensures { Resolves (words_in names.now) key.entry.tree.now names.now level key.entry.at result table.old table.new }
{
    if level == 0 {
        return Query { key, names }.find_outermost(table);
    }
    Query { key, names }.resolve(table, level, Known::Unasked)
}

// A definition in the table of the function at a level.
fn place_at(table: &mut [u32], level: usize, label: Label) -> Result<Slot, DefineError>
    requires part_size_in_bounds { base level + part_size ≤ length table.old }
    requires sized { Sized (part level table.old) }
    ensures { Inside (DefinesLocal label.at label.hash result) level table.old table.new }
{
    place_in(&mut table[part_range(level)], label)
}

// A definition more, in the innermost of so many open functions, or among the globals.
pub fn define(key: Key<'_>, table: &mut [u32], level: usize) -> Result<Slot, DefineError>
    requires level_in_bounds { base level ≤ length table.old }
    requires good { (names : Bytes) × Good key.tree.now names level table.old }
    ensures { Defines key.entry.tree.now level key.entry.at result table.old table.new }
{
    if level == 0 {
        let Some(globals) = table.first_chunk_mut() else {
            unreachable!()
        };
        return place_global(&key, globals);
    }
    place_at(table, level - 1, key.label())
}

// One function more is open, with its name and its parameters, the fields from an offset up to an end.
// Kept: `from` and `end`, here and at `open_in`: `Fields` would bring the key's tree again, and a clause that both trees are one.
pub fn enter(key: Key<'_>, table: &mut [u32], level: usize, from: usize, end: usize)
    requires part_size_in_bounds { base level + part_size ≤ length table.old }
    requires tree_len_bound { length key.tree.now ≤ tree_limit }
    requires params { HasParams key.tree.now from end }
    ensures { (h : HasParams key.entry.tree.now from end) → Enters key.entry.tree.now level key.entry.at h.row.names table.old table.new }
{
    open_in(&mut table[part_range(level)], &key, from, end);
}

// The table area as a walk starts: a session's names are the globals, and no function is open.
// Kept: clauses, here, at `start_in` and in trace's pass: `HasItems` holds a list, so it is no proposition, as a ghost field is to be; nor
// can `session_size` stand in `Fields`, which other bytes have, too.
pub fn start_from(names: Fields<'_>, table: &mut [u32])
    requires session_len_bound { length names.bytes.now ≤ session_size }
    requires has_items { HasItems names.bytes.now names.at names.end }
    requires globals_size_in_bounds { globals_size ≤ length table.old }
    ensures { StartsFrom names.entry.bytes.now names.entry.at names.entry.end table.old table.new }
{
    let Some(globals) = table.first_chunk_mut() else {
        unreachable!()
    };
    start_in(names, globals);
}

// The table area as a compile starts: the global names of the session, and no open function. `at` is where the names' field is; their end.
pub fn start(session: &[u8], table: &mut [u32], at: usize) -> usize
    requires session_len_bound { length session.now ≤ session_size }
    requires has_names { HasNames session.now at }
    requires globals_size_in_bounds { globals_size ≤ length table.old }
    ensures value { result ≡ after session.now at }
    ensures starts { Starts session.now at result table.old table.new }
{
    let from = at + 3;
    let end = from + field::length_at(session, at);
    start_from(Fields::new(session, from, end), table);
    end
}

// How many globals there are.
pub fn count_globals(table: &[u32]) -> usize
    requires { 0 < length table.now }
    ensures { result ≡ get_or table.now 0 0 }
{
    table[0] as usize
}

// The names of the globals, each as the number of its place, and what stands behind the last.
pub fn global_names(table: &[u32]) -> &[u32]
    requires { 0 < length table.now }
    ensures { result.now ≡ drop 1 table.now }
{
    &table[1..]
}

// The instruction that loads a symbol.
pub fn load_of(code: u32) -> Access
    ensures { instr result.op result.operand 0 ≡ load_of (symbol_of code) }
{
    let (op, operand) = match Symbol::from(code) {
        Symbol::Function => (opcodes::CURRENT_CLOSURE, 0),
        Symbol::Local(k) => (opcodes::GET_LOCAL, k),
        Symbol::Free(k) => (opcodes::GET_FREE, k),
        Symbol::Builtin(k) => (opcodes::GET_BUILTIN, k),
        Symbol::Global(k) => (opcodes::GET_GLOBAL, k),
    };
    Access {
        op,
        operand: operand as usize,
    }
}
