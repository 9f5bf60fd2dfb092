// Compiling in a session with a record for each Identifier: all but the caller's records themselves.
#![tactic(auto)]

pub mod log;
mod pass;

ghost use Rattle.std.specs.Prelude.{◌≡◌, ℕ, ◌+◌, ◌<◌, ◌≤◌, length, Err};
ghost use Rattle.definition.specs.Limit.{session_size, code_size};
ghost use Rattle.field.specs.Layout.{after};
ghost use Rattle.definition.specs.Tree.{read_tree};
ghost use Rattle.tree.specs.Check.{Good, verdict};
ghost use Rattle.compiler.specs.Stage.{lent_of};
ghost use Rattle.trace.specs.Pass.{PassesTree};
ghost use Rattle.trace.specs.Promise.{few_of, LooksAhead, HasOlder, Traces};

use bytecode::read_layout;
use compiler::compile;
use definition::limit::{CODE_SIZE, SESSION_SIZE, TABLE_SIZE};
use definition::{Reason, Refusal, refused};
use field::after_at;
use field::fields::Fields;
use pass::name_tree;

// What an accepted call with records gives: the image's length, and how many records are in the log.
#[derive(Clone, Copy)]
pub struct CallTrace {
    pub length: usize,
    pub count: usize,
}

// What is known before the tree is compiled: how many records there will be, and the length of the session's names.
// Kept: the default where session or tree don't read, since compiling refuses those itself; an Option would only be taken apart again.
#[derive(Clone, Copy, Default)]
pub struct Outlook {
    pub count: usize,
    pub names: usize,
}

// The pass over a tree's names before it is compiled: it uses the work areas.
fn look_ahead(
    session: &[u8; SESSION_SIZE],
    tree: &[u8],
    code: &mut [u8; CODE_SIZE],
    table: &mut [u32; TABLE_SIZE],
) -> Outlook
    ensures { LooksAhead tree.now session.now result }
{
    let Some(layout) = read_layout(session) else {
        return Outlook::default();
    };
    let Ok(()) = tree::check(tree) else {
        return Outlook::default();
    };
    let from = layout.words_end + 3;
    let end = layout.names_end;
    let count = name_tree(Fields::new(session, from, end), tree, table, code);
    Outlook {
        count,
        names: end - from,
    }
}

// The pass over the names of an accepted tree, from the first `names` bytes of the session's names: the log is left in the code area.
// Kept: that the tree is sound, here and at `name_tree`: a struct of a checked tree would be made once and taken apart at once.
fn log_names(
    session: &[u8; SESSION_SIZE],
    tree: &[u8],
    code: &mut [u8; CODE_SIZE],
    table: &mut [u32; TABLE_SIZE],
    names: usize,
) -> usize
    requires has_older { HasOlder session.now names }
    requires tree_value { verdict (read_tree tree.now) ≡ Good }
    ensures { PassesTree tree.now session.now (after session.now 0 + 3) (after session.now 0 + 3 + names) code.new result }
{
    let from = after_at(session, 0) + 3;
    name_tree(Fields::new(session, from, from + names), tree, table, code)
}

// The refusal of a call with few records, from the answer without an output: 18 comes in the place of 15.
fn few(answer: Result<usize, Refusal>) -> Refusal
    ensures { Err result ≡ few_of answer }
{
    let few = Refusal {
        reason: Reason::FewRecords,
        place: 0,
    };
    match answer {
        Ok(_) => few,
        Err(r) => {
            if r.reason == Reason::OutputShort {
                return few;
            }
            r
        }
    }
}

// Compiles a tree, and logs the records of one that is accepted, in buffers of just these sizes.
// With fewer records than Identifiers it compiles without an output, so that no tree is accepted.
fn trace_in(
    session: &mut [u8; SESSION_SIZE],
    tree: &[u8],
    output: &mut [u8],
    code: &mut [u8; CODE_SIZE],
    table: &mut [u32; TABLE_SIZE],
    room: usize,
) -> Result<CallTrace, Refusal>
    ensures traces { Traces tree.now (lent_of session.old output.old code.old table.old) room result (lent_of session.new output.new code.new table.new) }
    ensures sizes { (length session.new ≡ session_size) × (length code.new ≡ code_size) }
{
    let ahead = look_ahead(session, tree, code, table);
    if room < ahead.count {
        let answer = compile(session, tree, &mut output[..0], code, table);
        return Err(few(answer));
    }
    let length = compile(session, tree, output, code, table)?;
    let count = log_names(session, tree, code, table, ahead.names);
    table.fill(0);
    Ok(CallTrace { length, count })
}

// Compiles a tree in a session with so many records, and leaves all as such a call does but for two things:
// the records to be written are in a log at the front of the code area, and the log is still to be cleared.
// Kept: the slices one by one, here and above, as C lends them and `compile` takes them: a struct would be taken apart at each call.
pub fn compile_log(
    session: &mut [u8],
    tree: &[u8],
    output: &mut [u8],
    code: &mut [u8],
    table: &mut [u32],
    room: usize,
) -> Result<CallTrace, Refusal>
    ensures { Traces tree.now (lent_of session.old output.old code.old table.old) room result (lent_of session.new output.new code.new table.new) }
{
    let Some(session) = session.first_chunk_mut() else {
        return refused(Reason::ShortBuffer, 0);
    };
    let Some(code) = code.first_chunk_mut() else {
        return refused(Reason::ShortBuffer, 0);
    };
    let Some(table) = table.first_chunk_mut() else {
        return refused(Reason::ShortBuffer, 0);
    };
    trace_in(session, tree, output, code, table, room)
}
