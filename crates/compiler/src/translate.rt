// Translating a tree that was checked, in a session whose layout is known: the walk, then image and session, or all restored.
ghost use Rattle.std.specs.Prelude.{◌≡◌};
ghost use Rattle.compiler.specs.Result.{call_result};
ghost use Rattle.compiler.specs.Stage.{Checked};
ghost use Rattle.compiler.specs.Translated.{Small, start_state, Translated, final_result, WalkEnded};
ghost use Rattle.scope.specs.Walked.{walked};

use super::names::append_names;
use bytecode::SessionLayout;
use definition::{Reason, Refusal, refused};
use scope::{Chunk, Scope, State};
use session::image::write_image;
use session::write_back;
use session::zero::clear;
use walk::compile_tree;

// The state as the walk starts: an empty chunk.
fn start_state(layout: SessionLayout) -> State
    requires { Small layout }
    ensures { result ≡ start_state layout }
{
    State {
        chunk: Chunk {
            start: 0,
            len: 0,
            last: 0,
            prev: 0,
        },
        level: 0,
        constants: layout.constants as u32,
        names_end: layout.names_end as u32,
        pool_end: layout.pool_end as u32,
    }
}

// The end of a walk that went through: the output has room, and the image is written, then the session of three fields with the new names
// and the new pool; or the output is short, and the session is restored.
// Kept: the slices one by one, here and below: a struct of them would be taken apart at each call, as at `compile`.
fn finish(
    session: &mut [u8],
    tree: &[u8],
    output: &mut [u8],
    scope: &Scope<'_>,
    table: &[u32],
    layout: SessionLayout,
) -> Result<usize, Refusal>
    requires { Translated tree.now scope.now.code.now session.old table.now layout scope.now.state }
    ensures { ((p : Translated tree.now scope.now.code.now session.old table.now layout scope.now.state) → record { answer = result; session = session.new; output = output.new } ≡ final_result p output.old) }
{
    let len = scope.state.chunk.len as usize;
    let from = layout.names_end + 3;
    let to = scope.state.pool_end as usize;
    let total = 6 + len + (to - from);
    if output.len() < total {
        clear(session, layout.pool_end, to);
        return refused(Reason::OutputShort, 0);
    }
    write_image(output, &scope.code[..len], &session[from..to]);
    let end = append_names(session, tree, table, layout.names, layout.names_end);
    write_back(session, layout.words_end, end, &output[6 + len..total]);
    Ok(total)
}

// The walk over a checked tree, from the session's names.
fn walk_tree(
    tree: &[u8],
    session: &mut [u8],
    scope: &mut Scope<'_>,
    table: &mut [u32],
    layout: SessionLayout,
) -> Result<(), Refusal>
    requires checked { Checked tree.now session.old scope.old.code.now table.old layout }
    requires first { scope.old.state ≡ start_state layout }
    ensures ended { WalkEnded tree.now session.old scope.new.code.now session.new table.new layout (walked result scope.new.state) }
    ensures same { scope.new.code.ghost_name ≡ scope.old.code.ghost_name }
{
    symbol_table::start(session, table, layout.words_end);
    compile_tree(tree, session, scope, table)
}

// Translates a checked tree. What a refused one added to the session is zeroed again.
pub fn translate(
    session: &mut [u8],
    tree: &[u8],
    output: &mut [u8],
    code: &mut [u8],
    table: &mut [u32],
    layout: SessionLayout,
) -> Result<usize, Refusal>
    requires { Checked tree.now session.old code.old table.old layout }
    ensures { record { answer = result; session = session.new; output = output.new } ≡ call_result tree.now session.old output.old }
{
    let mut scope = Scope {
        code,
        state: start_state(layout),
    };
    match walk_tree(tree, session, &mut scope, table, layout) {
        Err(refusal) => {
            clear(session, layout.pool_end, scope.state.pool_end as usize);
            Err(refusal)
        }
        Ok(()) => finish(session, tree, output, &scope, table, layout),
    }
}
