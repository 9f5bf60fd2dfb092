// Reads a tree from standard input, compiles it in a fresh session, and writes the image to standard output. A refusal is a sentence on
// standard error, and standard output stays empty.
#![tactic(auto)]

use definition::limit::TREE_LIMIT;
use report::{with_input, write_compiled};
use std::io;

// A tree has at most 32,768 bytes: a longer one is refused as its first 32,769 are.
fn main(rt: HostRuntime) -> io::Result<()> {
    with_input(
        &rt,
        &mut [0u8; TREE_LIMIT + 1],
        |tree| write_compiled(&rt, "compile_tree", tree),
    )
}
