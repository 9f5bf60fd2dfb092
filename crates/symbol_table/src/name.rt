// Names: a name is known by the offset of its field, and sought by its hash.
ghost use Rattle.std.specs.Prelude.{◌≡◌, ◌<◌};
ghost use Rattle.definition.specs.Limit.{tree_limit};
ghost use Rattle.field.specs.Layout.{content};
ghost use Rattle.symbol_table.specs.Name.{Stands, hash_bound, hash_of};
ghost use Rattle.symbol_table.specs.Layout.{packed};

use super::layout::{CODE_UNIT, FACTOR, HASHES, TAG_UNIT};
use field::content_at;

// A name's hash.
pub fn hash_name(name: &[u8]) -> usize
    ensures is { result ≡ hash_of name.now }
    ensures small { result < hash_bound }
{
    let mut hash: usize = 0;
    for b in name {
        hash = (hash * FACTOR + usize::from(*b)) % HASHES;
    }
    hash
}

// The hash of the name at an offset.
pub fn hash_at(bytes: &[u8], at: usize) -> usize
    requires { Stands bytes.now at }
    ensures is { result ≡ hash_of (content bytes.now at) }
    ensures small { result < hash_bound }
{
    hash_name(content_at(bytes, at))
}

// A name that is sought: its bytes, and its hash, which is computed once.
#[derive(Clone, Copy)]
pub struct Name<'a> {
    pub bytes: &'a [u8],
    pub hash: usize,
    pub ghost is: { hash ≡ hash_of bytes.now },
}

// What an entry of a table tells of its name: the offset of the name's field, and a hash.
#[derive(Clone, Copy)]
pub struct Label {
    pub at: usize,
    pub hash: usize,
    pub ghost within: { at < tree_limit },
}

impl Label {
    // The entry, with its symbol's code, as a number.
    pub fn entry(self, code: u32) -> u32
        requires { code < 1024 }
        ensures { result ≡ packed self.at code self.hash }
    {
        self.at as u32 + CODE_UNIT * code + TAG_UNIT * (self.hash % 128) as u32
    }
}

// A name of the tree, and the offset of its field.
#[derive(Clone, Copy)]
pub struct Key<'a> {
    pub tree: &'a [u8],
    pub at: usize,
    pub name: Name<'a>,
    pub ghost stands: { Stands tree.now at },
    pub ghost within: { at < tree_limit },
    pub ghost named: { name.bytes.now ≡ content tree.now at },
}

impl<'a> Key<'a> {
    // That of the name at an offset.
    pub fn new(tree: &'a [u8], at: usize) -> Self
        requires stands { Stands tree.now at }
        requires within { at < tree_limit }
        ensures tree { result.tree.now ≡ tree.now }
        ensures at { result.at ≡ at }
        ensures hash { result.name.hash ≡ hash_of (content tree.now at) }
    {
        let bytes = content_at(tree, at);
        let hash = hash_name(bytes);
        let name = Name { bytes, hash };
        Key { tree, at, name }
    }

    // What its entry in a table tells of it.
    #[inline(always)]
    pub fn label(&self) -> Label
        ensures at { result.at ≡ self.now.at }
        ensures hash { result.hash ≡ self.now.name.hash }
    {
        Label {
            at: self.at,
            hash: self.name.hash,
        }
    }
}
