// What the programs do first with what they read: hand it on, read a text's tree, or propose an image's heights.
ghost use Rattle.std.specs.Prelude.{◌≡◌, ◌≤◌, ℕ, List, length, IfOk, Ok};
ghost use Rattle.std.specs.Fn.{FnOnceReturnsAt};
ghost use Rattle.definition.specs.Limit.{tree_limit};
ghost use Rattle.definition.specs.Decode.{read_image};
ghost use Rattle.heights.specs.Proposal.{proposal_answer};
ghost use Rattle.text.specs.Script.{Outcome, read_text};

use crate::{print_in_heights, print_in_text, read_full};
use definition::limit::TREE_LIMIT;
use std::io;

// So many bytes hold any image, of 61,446 bytes at most: a longer input is refused as its first 61,447 are.
pub const IMAGE_MOST: usize = 65536;

// Hands on what standard input holds, or as much as the buffer does.
pub fn with_input<R: Input, F: FnOnce(&[u8]) -> io::Result<()>>(
    rt: &R,
    buffer: &mut [u8],
    run: F,
) -> io::Result<()>
    requires { F.IsAlwaysCallable run }
    ensures { IfOk result (λ u. (input : List ℕ) × length input ≤ length buffer.old × FnOnceReturnsAt F.FnOnce run input result) }
{
    let length = read_full(&mut rt.reader(), buffer)?;
    run(&buffer[..length])
}

// Hands on the tree of a text; a refusal is a sentence behind the program's name.
pub fn with_tree<R: Eprint, F: FnOnce(&[u8]) -> io::Result<()>>(
    rt: &R,
    program: &str,
    text: &[u8],
    run: F,
) -> io::Result<()>
    requires { F.IsAlwaysCallable run }
    ensures { (tree : List ℕ) → read_text tree_limit text.now ≡ Outcome.tree tree → FnOnceReturnsAt F.FnOnce run tree result }
{
    let mut tree = [0u8; TREE_LIMIT];
    match text::read_text(text, &mut tree) {
        Ok(n) => match tree.get(..n) {
            Some(tree) => run(tree),
            None => Ok(()),
        },
        Err(r) => print_in_text(rt, program, text, r),
    }
}

// Hands on the heights that are proposed for an image; a refusal is a sentence behind the program's name. An image has fewer instructions
// than bytes; heights behind the last are not read.
pub fn with_heights<R: Eprint, F: FnOnce(&[u32]) -> io::Result<()>>(
    rt: &R,
    program: &str,
    image: &[u8],
    run: F,
) -> io::Result<()>
    requires { F.IsAlwaysCallable run }
    ensures { (n : ℕ) → proposal_answer (read_image image.now) 65536 ≡ Ok n → (heights : List ℕ) × FnOnceReturnsAt F.FnOnce run heights result }
{
    let mut heights = [0u32; IMAGE_MOST];
    match heights::propose_heights(image, &mut heights) {
        Ok(_) => run(&heights),
        Err(r) => print_in_heights(rt, program, r),
    }
}
