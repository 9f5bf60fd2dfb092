// The steps of the compiler on session and table area.
#![tactic(auto)]

mod closing;
mod pool;

ghost use Rattle.std.specs.Prelude.{◌≡◌, ◌+◌, ◌≤◌, ◌<◌, length};
ghost use Rattle.definition.specs.Limit.{nesting_limit, tree_limit};
ghost use Rattle.field.specs.Layout.{Whole, content};
ghost use Rattle.scope.specs.View.{Fits};
ghost use Rattle.scope.specs.Machine as machine;
ghost use Rattle.step.specs.Memory.{rest, RoomyState, FineState};
ghost use Rattle.step.specs.Contract.{placed_at, FineBeside, DefinesBeside, HeadAt, FineFor, Inside};
ghost use Rattle.step.specs.Lent.{StepsOn, LoadsOn, EntersOn, LeavesOn};
ghost use Rattle.step.specs.Frame.{LeavesAlone};

use closing::close;
use definition::limit::ARGUMENTS_LIMIT;
use definition::{Reason, Refusal, limit, refused};
use field::Field;
use opcode::opcodes;
use pool::add_constant;
use scope::{Chunk, Scope, State};
use symbol_table::{Access, DefineError, Key, Slot, load_of, resolve_name};

// The most open functions, as a level.
const NESTING_LIMIT: u32 = limit::NESTING_LIMIT as u32;

// Compiles an integer or a string: a constant of its own, and Constant.
// Kept: the slices one by one, here and below: each step is lent what it reads or writes, so that of the rest nothing need be said.
pub fn literal(
    field: Field<'_>,
    session: &mut [u8],
    scope: &mut Scope<'_>,
    tag: u8,
) -> Result<(), Refusal>
    requires roomy { RoomyState session.old scope.old.state }
    ensures { StepsOn field.entry.bytes.now (machine.literal field.entry.at tag (content field.entry.bytes.now field.entry.at)) scope.old scope.new session.old session.new result }
{
    let index = add_constant(session, &mut scope.state, field.at, tag, field.content())?;
    scope.emit_operand(field.at, opcodes::CONSTANT, index)
}

// Looks an identifier up, and loads its symbol.
pub fn load(
    field: Field<'_>,
    session: &[u8],
    scope: &mut Scope<'_>,
    table: &mut [u32],
) -> Result<(), Refusal>
    requires at_lt_tree_limit { field.at < tree_limit }
    requires fine { FineState field.bytes.now (rest session.now table.old) scope.old.state }
    ensures { LoadsOn field.entry.bytes.now field.entry.at scope.old scope.new (rest session.now table.old) (rest session.now table.new) result }
{
    let end = scope.state.names_end as usize;
    let level = scope.state.level as usize;
    match resolve_name(
        Key::new(field.bytes, field.at),
        &session[..end],
        table,
        level,
    ) {
        Ok(found) => {
            let l = load_of(found.code);
            scope.emit_operand(field.at, l.op, l.operand)
        }
        Err(error) => refused(Reason::from(error), field.at),
    }
}

// A definition's answer: the instruction that will set it, or the refusal.
fn placed(place: usize, answer: Result<Slot, DefineError>) -> Result<Access, Refusal>
    ensures { result ≡ placed_at place answer }
{
    match answer {
        Ok(Slot::Global(k)) => Ok(Access {
            op: opcodes::SET_GLOBAL,
            operand: k as usize,
        }),
        Ok(Slot::Local(k)) => Ok(Access {
            op: opcodes::SET_LOCAL,
            operand: k as usize,
        }),
        Err(error) => refused(Reason::from(error), place),
    }
}

// Defines the name of a let, in a walk that goes on in a state.
// Kept: the whole state, of which the level is read: the contract is on the walk that goes on in it, and names the session's names, too.
pub fn define(field: Field<'_>, table: &mut [u32], state: State) -> Result<Access, Refusal>
    requires whole { Whole field.bytes.now (field.at + 3) }
    requires at_bound { field.at + 3 < tree_limit }
    requires fine_beside { FineBeside field.bytes.now table.old state }
    ensures { DefinesBeside field.entry.bytes.now field.entry.at table.old table.new state result }
{
    let name = field.first();
    let key = Key::new(name.bytes, name.at);
    placed(
        field.at,
        symbol_table::define(key, table, state.level as usize),
    )
}

// The state inside a function: an empty chunk behind the chunk in work.
fn inside(s: State) -> State
    requires fits { Fits s }
    requires level_lt_nesting_limit { s.level < nesting_limit }
    ensures { result ≡ machine.inside s }
{
    let next = Chunk {
        start: s.chunk.start + s.chunk.len,
        len: 0,
        last: 0,
        prev: 0,
    };
    State {
        chunk: next,
        level: s.level + 1,
        ..s
    }
}

// Enters a function, which has `n` parameters.
pub fn enter(
    field: Field<'_>,
    table: &mut [u32],
    scope: &mut Scope<'_>,
    n: usize,
) -> Result<(), Refusal>
    requires tree_len_bound { length field.bytes.now ≤ tree_limit }
    requires head_at { HeadAt field.bytes.now field.at n }
    requires fine_beside { FineBeside field.bytes.now table.old scope.old.state }
    ensures { EntersOn field.entry.bytes.now field.entry.at table.old table.new scope.old scope.new result }
{
    let level = scope.state.level;
    if NESTING_LIMIT <= level {
        return refused(Reason::Nesting, field.at);
    }
    if ARGUMENTS_LIMIT < n {
        return refused(Reason::TooMany, field.at);
    }
    let name = field.first();
    let params = name.next();
    let key = Key::new(name.bytes, name.at);
    symbol_table::enter(key, table, level as usize, params.at + 3, params.after());
    scope.state = inside(scope.state);
    Ok(())
}

// Leaves the function whose chunk is in work: its constant, and outside it, in the state before it was entered, the loads of what it
// captures and Closure. Its code is copied once, from the code area into the constant.
pub fn leave(
    session: &mut [u8],
    scope: &mut Scope<'_>,
    table: &[u32],
    outer: State,
    place: usize,
    params: usize,
) -> Result<(), Refusal>
    requires fits { Fits outer }
    requires deeper { Inside outer scope.old.state }
    requires fine_for { FineFor (rest session.old table.now) scope.old.state }
    ensures closed { LeavesOn place params scope.old scope.new session.old session.new table.now outer result }
    ensures alone { LeavesAlone scope.old.code.now scope.new.code.now session.old session.new outer scope.old.state scope.new.state }
{
    scope.returned(place)?;
    close(session, scope, table, outer, place, params)
}
