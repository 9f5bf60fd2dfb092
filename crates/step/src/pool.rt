// Constants behind the pool of the session.
ghost use Rattle.std.specs.Prelude.{◌≡◌, [], ◌∷◌, ◌+◌, ◌/◌, ◌%◌, ◌≤◌, ◌<◌, length, take, drop};
ghost use Rattle.std.proofs.lemmas.List.Edits.{sets};
ghost use Rattle.definition.specs.Limit.{constants_limit, session_size};
ghost use Rattle.definition.specs.Tag.{tag_function_const};
ghost use Rattle.definition.specs.Field.{field};
ghost use Rattle.scope.specs.Machine.{with_constant, add_constant, function_content};
ghost use Rattle.step.specs.Memory.{RoomyState};
ghost use Rattle.step.specs.Contract.{has_room, Adds};
ghost use Rattle.step.specs.Lent.{AddsOn};

use definition::limit::POOL_LIMIT;
use definition::{Reason, Refusal, limit, refused, tag};
use scope::{Scope, State};
use session::write::{copy, put_field, put_head};

// The most constants of a pool, as the state counts them.
const CONSTANTS_LIMIT: u32 = limit::CONSTANTS_LIMIT as u32;

// Whether the pool has room for a constant of `n` bytes more, and its head.
fn has_room(s: State, n: usize) -> bool
    requires { s.names_end + 3 ≤ s.pool_end }
    ensures { result ≡ has_room n s }
{
    let used = (s.pool_end - s.names_end) as usize;
    s.constants < CONSTANTS_LIMIT && used <= POOL_LIMIT && n <= POOL_LIMIT - used
}

// A constant of `n` bytes more.
fn advance(s: State, n: usize) -> State
    requires constants_lt_constants_limit { s.constants < constants_limit }
    requires n_bound { s.pool_end + (3 + n) ≤ session_size }
    ensures { result ≡ with_constant n s }
{
    State {
        constants: s.constants + 1,
        pool_end: s.pool_end + (3 + n) as u32,
        ..s
    }
}

// Adds a constant behind the pool, and answers its index.
pub fn add_constant(
    session: &mut [u8],
    state: &mut State,
    place: usize,
    tag: u8,
    content: &[u8],
) -> Result<usize, Refusal>
    requires { RoomyState session.old state.old }
    ensures { Adds (add_constant place tag content.now) session.old session.new state.old state.new result }
{
    let n = content.len();
    if !has_room(*state, n) {
        return refused(Reason::Pool, place);
    }
    let index = state.constants as usize;
    put_field(session, state.pool_end as usize, tag, content);
    *state = advance(*state, n);
    Ok(index)
}

// Writes a function's locals and parameters.
fn put_counts(out: &mut [u8], at: usize, locals: usize, params: usize)
    requires { at + 3 ≤ length out.old }
    ensures { out.new ≡ sets out.old at (locals / 256 % 256 ∷ locals % 256 ∷ params % 256 ∷ []) }
{
    let [.., high, low] = locals.to_be_bytes();
    out[at..at + 3].copy_from_slice(&[high, low, (params % 256) as u8]);
}

// Writes a function's constant: its head, its locals and parameters, its code.
fn put_function(out: &mut [u8], at: usize, locals: usize, params: usize, code: &[u8])
    requires { at + (3 + (3 + length code.now)) ≤ length out.old }
    ensures { out.new ≡ sets out.old at (field tag_function_const (function_content locals params code.now)) }
{
    put_head(out, at, tag::FUNCTION_CONST, 3 + code.len());
    put_counts(out, at + 3, locals, params);
    copy(out, at + 6, code);
}

// The code of the chunk in work.
// Kept: a function of its own: as a part of `scope.code` cut in `add_function` the proof lost that the code stays.
fn chunk_of<'a>(scope: &'a Scope<'_>) -> &'a [u8]
    ensures { result.now ≡ take scope.now.state.chunk.len (drop scope.now.state.chunk.start scope.now.code.now) }
{
    let c = scope.state.chunk;
    let start = c.start as usize;
    &scope.code[start..start + c.len as usize]
}

// Adds the function whose chunk is in work behind the pool, and answers its index; its code is copied from the code area.
// Kept: the two counts one by one: it is called once, where they come from the table: a struct of them would be taken apart at once.
pub fn add_function(
    session: &mut [u8],
    scope: &mut Scope<'_>,
    place: usize,
    locals: usize,
    params: usize,
) -> Result<usize, Refusal>
    requires { RoomyState session.old scope.old.state }
    ensures { AddsOn (add_constant place tag_function_const (function_content locals params (take scope.old.state.chunk.len (drop scope.old.state.chunk.start scope.old.code.now)))) scope.old scope.new session.old session.new result }
{
    let s = scope.state;
    let n = 3 + s.chunk.len as usize;
    if !has_room(s, n) {
        return refused(Reason::Pool, place);
    }
    let chunk = chunk_of(scope);
    put_function(session, s.pool_end as usize, locals, params, chunk);
    scope.state = advance(s, n);
    Ok(s.constants as usize)
}
