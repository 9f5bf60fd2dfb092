// Reads a script in text form from standard input and writes its tree to standard output. A refusal is a sentence on standard error, with
// line and column, and standard output stays empty.
#![tactic(auto)]

use report::{with_input, with_tree};
use std::io;
use text::TEXT_MOST;

// Writes the tree of a text.
fn run(rt: &(impl Print + Eprint), text: &[u8]) -> io::Result<()> {
    with_tree(rt, "read_script", text, |tree| rt.write_all(tree))
}

fn main(rt: HostRuntime) -> io::Result<()> {
    with_input(&rt, &mut [0u8; TEXT_MOST], |text| run(&rt, text))
}
