// Compiling in a session of its own.
ghost use Rattle.std.specs.Prelude.{◌≡◌};
ghost use Rattle.definition.specs.Call.{call};
ghost use Rattle.report.specs.Fresh.{fresh_lent};

use definition::Refusal;
use definition::limit::{CODE_SIZE, SESSION_SIZE, TABLE_SIZE};
use std::io;

// Compiles a tree in a fresh session.
#[tactic(auto, using(crate::proofs::Made::made_fresh))]
pub fn compile_fresh(tree: &[u8], output: &mut [u8]) -> Result<usize, Refusal>
    ensures answer { result ≡ (call tree.now (fresh_lent output.old)).answer }
    ensures output { output.new ≡ (call tree.now (fresh_lent output.old)).lent.output }
{
    let mut session = [0u8; SESSION_SIZE];
    compiler::make_session(&mut session)?;
    let mut code = [0u8; CODE_SIZE];
    let mut table = [0u32; TABLE_SIZE];
    compiler::compile(&mut session, tree, output, &mut code, &mut table)
}

// Compiles a tree in a fresh session, and writes its image; or its refusal, behind a program's name.
pub fn write_compiled(rt: &(impl Print + Eprint), program: &str, tree: &[u8]) -> io::Result<()> {
    crate::write_output(
        rt,
        |output| compile_fresh(tree, output),
        |r| crate::print_at_offset(rt, program, r, "tree"),
    )
}
