// Compiling in a session: the public functions.
#![tactic(auto)]

mod names;
mod translate;

ghost use Rattle.std.specs.Prelude.{◌≡◌, ◌≤◌, length, replicate};
ghost use Rattle.definition.specs.Limit.{session_size, code_size, table_size};
ghost use Rattle.definition.specs.Call.{cleared};
ghost use Rattle.compiler.specs.Result.{call_result};
ghost use Rattle.compiler.specs.Promise.{Compiles, Makes, MakesWords};
ghost use Rattle.compiler.specs.Stage.{lent_of};

use bytecode::{read_layout, words_stand};
use definition::limit::{CODE_SIZE, SESSION_SIZE, TABLE_SIZE};
use definition::{Reason, Refusal, refused};
use session::words::begin_session;
use translate::translate;

// Makes a fresh session of document 01's two fields.
pub fn make_session(session: &mut [u8]) -> Result<usize, Refusal>
    ensures { Makes session.old result session.new }
{
    session::write_fresh(session)
}

// Makes a session of three fields with words that are handed over as name fields: at most 24, none repeated.
pub fn make_session_words(session: &mut [u8], names: &[u8]) -> Result<usize, Refusal>
    ensures { MakesWords session.old names.now result session.new }
{
    if session.len() < SESSION_SIZE {
        return refused(Reason::ShortBuffer, 0);
    }
    if words_stand(names) {
        begin_session(session, names);
        return Ok(SESSION_SIZE);
    }
    refused(Reason::BadWords, 0)
}

// Zeroes the code area.
pub fn clear_code(code: &mut [u8])
    requires { code_size ≤ length code.old }
    ensures { code.new ≡ cleared code_size code.old }
{
    code[..CODE_SIZE].fill(0);
}

// Compiles a tree in buffers of just these sizes: the session's layout, the tree, then the walk.
fn compile_in(
    session: &mut [u8; SESSION_SIZE],
    tree: &[u8],
    output: &mut [u8],
    code: &mut [u8; CODE_SIZE],
    table: &mut [u32; TABLE_SIZE],
) -> Result<usize, Refusal>
    ensures { record { answer = result; session = session.new; output = output.new } ≡ call_result tree.now session.old output.old }
{
    let Some(layout) = read_layout(session) else {
        return refused(Reason::NoSession, 0);
    };
    tree::check(tree)?;
    translate(session, tree, output, code, table, layout)
}

// The same, and zeroes the work areas.
fn compile_lent(
    session: &mut [u8; SESSION_SIZE],
    tree: &[u8],
    output: &mut [u8],
    code: &mut [u8; CODE_SIZE],
    table: &mut [u32; TABLE_SIZE],
) -> Result<usize, Refusal>
    ensures result { record { answer = result; session = session.new; output = output.new } ≡ call_result tree.now session.old output.old }
    ensures code { code.new ≡ replicate code_size 0 }
    ensures table { table.new ≡ replicate table_size 0 }
{
    let answer = compile_in(session, tree, output, code, table);
    code.fill(0);
    table.fill(0);
    answer
}

// Compiles a tree in a session, and leaves image, session and zeroed work areas; or refuses it.
// Kept: the slices one by one, here and in the functions that it calls: a struct would be made here once, and taken apart at each call.
pub fn compile(
    session: &mut [u8],
    tree: &[u8],
    output: &mut [u8],
    code: &mut [u8],
    table: &mut [u32],
) -> Result<usize, Refusal>
    ensures { Compiles tree.now (lent_of session.old output.old code.old table.old) result (lent_of session.new output.new code.new table.new) }
{
    let Some(session) = session.first_chunk_mut() else {
        return refused(Reason::ShortBuffer, 0);
    };
    let Some(code) = code.first_chunk_mut() else {
        return refused(Reason::ShortBuffer, 0);
    };
    let Some(table) = table.first_chunk_mut() else {
        return refused(Reason::ShortBuffer, 0);
    };
    compile_lent(session, tree, output, code, table)
}
