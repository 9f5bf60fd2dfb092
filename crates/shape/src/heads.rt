// The fields of a tree one behind the other.
ghost use Rattle.std.specs.Prelude.{◌≡◌};
ghost use Rattle.tree.specs.Grammar.{is_leaf};

use definition::tag;
use field::length_at;

// Whether a field of a tag has no children.
// Kept: `tree`'s own stands in a module that other crates don't see.
fn is_leaf(t: u8) -> bool
    ensures { result ≡ is_leaf t }
{
    matches!(
        t,
        tag::IDENTIFIER | tag::INTEGER | tag::BOOLEAN | tag::STRING | tag::NAME | tag::OPERATOR
    )
}

// The fields of a tree in the order of their heads, by their offsets: behind a head come its children, or the next head where it has none.
#[derive(Clone, Copy)]
pub struct Heads<'a> {
    pub tree: &'a [u8],
    pub at: usize,
}

impl<'a> Heads<'a> {
    // From the first on.
    pub fn new(tree: &'a [u8]) -> Self
        ensures tree { result.tree.now ≡ tree.now }
        ensures at { result.at ≡ 0 }
    {
        Heads { tree, at: 0 }
    }
}

impl<'a> Iterator for Heads<'a> {
    ghost use Rattle.std.specs.Prelude.{◌-◌, length};
    ghost use Rattle.std.specs.Iterator.{at_most};
    ghost use Rattle.shape.specs.Heads.{Gives};

    type Item = usize;

    ghost next_gives = { Gives };

    ghost remaining = { λ s. at_most (length s.tree.now - s.at) };

    fn next(&mut self) -> Option<usize> {
        let at = self.at;
        if self.tree.len().saturating_sub(at) < 3 {
            return None;
        }
        let inside = at + 3;
        self.at = if is_leaf(self.tree[at]) {
            inside + length_at(self.tree, at)
        } else {
            inside
        };
        Some(at)
    }
}
