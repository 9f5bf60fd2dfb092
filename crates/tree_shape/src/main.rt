// Reads a tree from standard input and writes its shape to standard output: of two trees that are not refused it is the same exactly when
// they are alike. A refusal is a sentence on standard error, and standard output stays empty.
#![tactic(auto)]

use definition::limit::TREE_LIMIT;
use report::{print_at_offset, with_input, write_output};
use shape::write_shape;
use std::io;

// Writes the shape of a tree.
fn run(rt: &(impl Print + Eprint), tree: &[u8]) -> io::Result<()> {
    write_output(
        rt,
        |output| write_shape(tree, output),
        |r| print_at_offset(rt, "tree_shape", r, "tree"),
    )
}

// A tree has at most 32,768 bytes: a longer one is refused as its first 32,769 are.
fn main(rt: HostRuntime) -> io::Result<()> {
    with_input(&rt, &mut [0u8; TREE_LIMIT + 1], |tree| run(&rt, tree))
}
