// The tree check: a tree is good, or refused 3 or 4 at its place; and a count of fields, which the compiler uses afterwards.
#![tactic(auto)]

use definition::limit::{LEVEL_LIMIT, TREE_LIMIT};
use definition::{Reason, Refusal, refused, tag};
use field::fields::Fields;
use field::{after_at, length_at, length_before};

mod grammar;

ghost use Rattle.std.specs.Prelude.{◌≡◌, ◌+◌, ◌≤◌, ◌<◌, length};
ghost use Rattle.definition.specs.Basic.{byte_at};
ghost use Rattle.definition.specs.Limit.{tree_limit};
ghost use Rattle.definition.specs.Tree.{read_tree};
ghost use Rattle.tree.specs.Reads.{Some, InRow, Counted};
ghost use Rattle.tree.specs.Check.{verdict, bad_tree, too_deep, outcome_of, good_wanted, check_all};

use grammar::{Wanted, child_kinds, good_content, good_tag, is_leaf};

// A refusal 3 at a place as a number; 0 stands for none.
// Kept: here, in `deep`, `outcome` and `check_children`: tried with Result and `?`: the check of a tree takes 20 % more instructions,
// and a call on 30 KB of closures 5 %; the bar is 3 %.
fn bad(at: usize) -> usize
    requires { at ≤ tree_limit }
    ensures { outcome_of result ≡ bad_tree at }
{
    2 * at + 1
}

// A refusal 4 at a place as a number.
fn deep(at: usize) -> usize
    requires { at ≤ tree_limit }
    ensures { outcome_of result ≡ too_deep at }
{
    2 * at + 2
}

// What a number says.
fn outcome(n: usize) -> Result<(), Refusal>
    ensures { result ≡ outcome_of n }
{
    if n == 0 {
        return Ok(());
    }
    if n % 2 == 1 {
        return refused(Reason::BadTree, n / 2);
    }
    refused(Reason::TooDeep, n / 2 - 1)
}

// Whether a whole field that is wanted stands at `at`, before `end`: its tag, its length and its own bytes.
// Kept: offsets and no slice: `check_all` says `good_wanted` at offsets of the whole tree; a slice would need a lemma that moves it there.
fn good_field(tree: &[u8], wanted: Wanted, at: usize, end: usize) -> bool
    requires { (at ≤ end) × (end ≤ length tree.now) }
    ensures { result ≡ good_wanted (byte_at tree.now) wanted at end }
{
    let Some(len) = length_before(tree, at, end) else {
        return false;
    };
    let t = tree[at];
    if !good_tag(wanted, t) {
        return false;
    }
    let from = at + 3;
    good_content(&tree[from..from + len], wanted, t)
}

// The children of the field at `parent`, whose content goes up to `end`, in order; then whether one is missing. The answer is a
// refusal's number.
// Kept: `field::fields::Fields` goes over fields that are known to be whole, and here each is tested before the next can be found.
// Kept: `k` is counted beside `at`: `kinds.iter().cycle()` would answer an `Option` that is never `None`.
fn check_children(tree: &[u8], levels: usize, parent: usize, end: usize) -> usize
    requires { (parent + 3 ≤ end) × (end ≤ length tree.now) × (end ≤ tree_limit) }
    ensures { outcome_of result ≡ check_all (byte_at tree.now) levels parent end }
{
    let t = tree[parent];
    let mut at = parent + 3;
    if (at == end) && (t == tag::CALL) {
        return bad(parent);
    }
    let kinds = child_kinds(t);
    let mut k = 0;
    while at != end {
        let next = kinds[k % 4];
        let Some(wanted) = next else {
            return bad(at);
        };
        if !good_field(tree, wanted, at, end) {
            return bad(at);
        }
        if levels == 0 {
            return deep(at);
        }
        let next = after_at(tree, at);
        if !is_leaf(tree[at]) {
            let found = check_children(tree, levels - 1, at, next);
            if found != 0 {
                return found;
            }
        }
        k += 1;
        at = next;
    }
    let next = kinds[k % 4];
    match next {
        Some(wanted) if !wanted.ends => bad(parent),
        _ => 0,
    }
}

// A whole tree: one Program, as long as the tree.
pub fn check(tree: &[u8]) -> Result<(), Refusal>
    ensures { result ≡ verdict (read_tree tree.now) }
{
    let n = tree.len();
    if n < 3 || TREE_LIMIT < n || tree[0] != tag::PROGRAM || 3 + length_at(tree, 0) != n {
        return refused(Reason::BadTree, 0);
    }
    outcome(check_children(tree, LEVEL_LIMIT - 1, 0, n))
}

// How many fields there are.
pub fn count_fields(fields: Fields<'_>) -> usize
    requires { Some (InRow fields.bytes.now fields.at fields.end) }
    ensures { Counted fields.entry.bytes.now fields.entry.at fields.entry.end result }
{
    fields.count()
}
