// The shape of a tree: its bytes, with 0 for the content of each literal. Two trees that are read have equal shapes exactly when they are
// alike.
#![tactic(auto)]

mod heads;

ghost use Rattle.std.specs.Prelude.{◌≡◌, length};
ghost use Rattle.definition.specs.Shape.{shape};
ghost use Rattle.definition.specs.Tree.{read_tree};
ghost use Rattle.shape.specs.Fields.{is_literal};
ghost use Rattle.shape.specs.Promise.{answer_of, output_of, IsRead};

use definition::{Reason, Refusal, refused, tag};
use field::after_at;
use heads::Heads;
use session::zero::clear;

// Whether a field of a tag is a literal.
fn is_literal(t: u8) -> bool
    ensures { result ≡ is_literal t }
{
    (tag::INTEGER..=tag::STRING).contains(&t)
}

// Puts 0 over the literals in a copy of a tree.
fn blank(tree: &[u8], copy: &mut [u8])
    requires { IsRead tree.now × (copy.old ≡ tree.now) }
    ensures { copy.new ≡ shape tree.now }
{
    for at in Heads::new(tree) {
        if is_literal(tree[at]) {
            clear(copy, at + 3, after_at(tree, at));
        }
    }
}

// Writes the shape of a tree to the front of the output: its length, which is the tree's; or 3, 4 or 15, and the output stays.
pub fn write_shape(tree: &[u8], output: &mut [u8]) -> Result<usize, Refusal>
    ensures answer { result ≡ answer_of (read_tree tree.now) tree.now (length output.old) }
    ensures output { output.new ≡ output_of (read_tree tree.now) tree.now output.old }
{
    tree::check(tree)?;
    let n = tree.len();
    if output.len() < n {
        return refused(Reason::OutputShort, 0);
    }
    let front = &mut output[..n];
    front.copy_from_slice(tree);
    blank(tree, front);
    Ok(n)
}
