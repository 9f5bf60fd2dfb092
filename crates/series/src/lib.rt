// A whole series of compile calls: a session is made, and a row of trees compiled in it.
#![tactic(auto)]

ghost use Rattle.std.specs.Prelude.{◌≡◌, map};
ghost use Rattle.compiler.specs.Stage.{lent_of};
ghost use Rattle.series.specs.Row.{trees_of, RunsRow};

use compiler::{compile, make_session};
use definition::Refusal;

// Makes a session, and compiles a row of trees in it, so many bytes each and one behind the other: the last call's answer and image.
// Kept: one buffer and lengths, which are known when a program runs: a slice of slices would want memory for as many as there are trees;
// `compile_slices` is for a caller that has it. The lent slices one by one, as `compile` takes them.
pub fn compile_row(
    session: &mut [u8],
    trees: &[u8],
    lengths: &[usize],
    output: &mut [u8],
    code: &mut [u8],
    table: &mut [u32],
) -> Result<usize, Refusal>
    ensures { RunsRow (trees_of trees.now lengths.now) (lent_of session.old output.old code.old table.old) result (lent_of session.new output.new code.new table.new) }
{
    let mut answer = make_session(session);
    let mut at = 0;
    for length in lengths {
        let end = at + (*length).min(trees.len() - at);
        answer = compile(session, &trees[at..end], output, code, table);
        at = end;
    }
    answer
}

// The same of a row of trees that are slices.
pub fn compile_slices(
    session: &mut [u8],
    trees: &[&[u8]],
    output: &mut [u8],
    code: &mut [u8],
    table: &mut [u32],
) -> Result<usize, Refusal>
    ensures { RunsRow (map (λ tree. tree.now) trees.now) (lent_of session.old output.old code.old table.old) result (lent_of session.new output.new code.new table.new) }
{
    let mut answer = make_session(session);
    for tree in trees {
        answer = compile(session, tree, output, code, table);
    }
    answer
}
