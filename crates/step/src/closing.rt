// A function is closed over the code outside it.
ghost use Rattle.std.specs.Prelude.{◌≡◌, ◌*◌, ◌≤◌, length};
ghost use Rattle.definition.specs.Opcode.{instr, op_closure};
ghost use Rattle.symbol_table.specs.Layout.{symbols_in};
ghost use Rattle.scope.specs.View.{then};
ghost use Rattle.scope.specs.Lent.{Emits};
ghost use Rattle.scope.specs.Machine as machine;
ghost use Rattle.step.specs.Contract.{Closable};
ghost use Rattle.step.specs.Lent.{Closes};

use super::pool::add_function;
use definition::limit::CODE_SIZE;
use definition::{Reason, Refusal, refused};
use opcode::operand_length;
use scope::{Scope, State};
use symbol_table::{Part, load_of};

// How long the loads of the originals that a function has captured are together.
fn loads_size(originals: &[u32]) -> usize
    ensures is { result ≡ machine.loads_size (symbols_in originals.now) }
    ensures small { result ≤ 4 * length originals.now }
{
    originals
        .iter()
        .map(|code| 1 + operand_length(load_of(*code).op))
        .sum()
}

// Emits the loads of captured originals, the first one first.
fn loads(scope: &mut Scope<'_>, originals: &[u32], place: usize) -> Result<(), Refusal>
    ensures { Emits scope.old scope.new result (machine.loads place (symbols_in originals.now)) }
{
    for code in originals {
        let l = load_of(*code);
        scope.emit_operand(place, l.op, l.operand)?;
    }
    Ok(())
}

// Outside a function whose constant was added at an index: the loads of the originals that it captures, and Closure.
fn emit_function(
    scope: &mut Scope<'_>,
    originals: &[u32],
    index: usize,
    place: usize,
) -> Result<(), Refusal>
    ensures { Emits scope.old scope.new result (λ v. then (machine.loads place (symbols_in originals.now) v) (machine.emit place (instr op_closure index (length originals.now)))) }
{
    loads(scope, originals, place)?;
    scope.emit_closure(place, index, originals.len())
}

// The state in the chunk outside again, with what was added inside.
fn outside(o: State, s: State) -> State
    ensures { result ≡ machine.outside o s }
{
    State {
        chunk: o.chunk,
        level: o.level,
        ..s
    }
}

// Closes the function whose chunk is in work: the loads have to fit beside its chunk; its chunk becomes its constant; what loads and makes
// it is written over its chunk, behind the chunk outside.
// Kept: six parameters, here and at `leave`, as the steps have them (lib.rt): a struct of them would be made once and taken apart here.
pub fn close(
    session: &mut [u8],
    scope: &mut Scope<'_>,
    table: &[u32],
    outer: State,
    place: usize,
    params: usize,
) -> Result<(), Refusal>
    requires { Closable session.old table.now outer scope.old.state }
    ensures { Closes place params scope.old scope.new session.old session.new table.now outer result }
{
    let part = Part::of(table, outer.level as usize);
    let originals = &part.originals()[..part.captures()];
    let end = outer.chunk.start + outer.chunk.len + scope.state.chunk.len;
    if CODE_SIZE < end as usize + loads_size(originals) {
        return refused(Reason::Code, place);
    }
    let locals = part.definitions();
    let index = add_function(session, scope, place, locals, params)?;
    scope.state = outside(outer, scope.state);
    emit_function(scope, originals, index, place)
}
