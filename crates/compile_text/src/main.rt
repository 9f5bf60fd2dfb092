// Reads a script in text form from standard input, compiles it in a fresh session, and writes the image to standard output. A refusal is
// a sentence on standard error, with line and column where the text is at fault, and standard output stays empty.
#![tactic(auto)]

use report::{with_input, with_tree, write_compiled};
use std::io;
use text::TEXT_MOST;

// Compiles the tree of a text.
fn run(rt: &(impl Print + Eprint), text: &[u8]) -> io::Result<()> {
    with_tree(rt, "compile_text", text, |tree| {
        write_compiled(rt, "compile_text", tree)
    })
}

fn main(rt: HostRuntime) -> io::Result<()> {
    with_input(&rt, &mut [0u8; TEXT_MOST], |text| run(&rt, text))
}
