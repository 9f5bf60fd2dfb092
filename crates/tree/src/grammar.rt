// The grammar of a tree: what the children of a tag must be, and the tags, lengths and own bytes of a field of a kind.
ghost use Rattle.std.specs.Prelude.{◌≡◌, ◌+◌, ◌≤◌, leb, length};
ghost use Rattle.definition.specs.Basic.{byte_at, both};
ghost use Rattle.tree.specs.Grammar.{is_leaf};
ghost use Rattle.tree.specs.Kinds.{good_tag, good_byte, good_content, kinds_of};

use definition::limit::NAME_LIMIT;
use definition::{operator, tag};

// What a child must be: its lowest and its highest tag, the fewest bytes of a name, and whether the content may end before it.
#[derive(Clone, Copy)]
pub struct Wanted {
    pub low: u8,
    pub high: u8,
    pub least: usize,
    pub ends: bool,
}

const STATEMENT_OR_END: Wanted = Wanted {
    low: tag::EXPR_STMT,
    high: tag::RETURN,
    least: 0,
    ends: true,
};

const BLOCK: Wanted = Wanted {
    low: tag::BLOCK,
    high: tag::BLOCK,
    least: 0,
    ends: false,
};

const BLOCK_OR_END: Wanted = Wanted {
    ends: true,
    ..BLOCK
};

const EXPRESSION: Wanted = Wanted {
    low: tag::IDENTIFIER,
    high: tag::MACRO,
    least: 0,
    ends: false,
};

const EXPRESSION_OR_END: Wanted = Wanted {
    ends: true,
    ..EXPRESSION
};

const NAME: Wanted = Wanted {
    low: tag::NAME,
    high: tag::NAME,
    least: 1,
    ends: false,
};

const NAME_OR_EMPTY: Wanted = Wanted { least: 0, ..NAME };

const NAME_OR_END: Wanted = Wanted { ends: true, ..NAME };

const PARAMS: Wanted = Wanted {
    low: tag::PARAMS,
    high: tag::PARAMS,
    least: 0,
    ends: false,
};

const OPERATOR: Wanted = Wanted {
    low: tag::OPERATOR,
    high: tag::OPERATOR,
    least: 0,
    ends: false,
};

// What the children of each tag must be, or that there are none: the first four, and then the same again.
static OF_BLOCK: [Option<Wanted>; 4] = [Some(STATEMENT_OR_END); 4];

static OF_VALUE: [Option<Wanted>; 4] = [Some(EXPRESSION), None, None, None];

static OF_LET: [Option<Wanted>; 4] = [Some(NAME), Some(EXPRESSION), None, None];

static OF_PREFIX: [Option<Wanted>; 4] = [Some(OPERATOR), Some(EXPRESSION), None, None];

static OF_INFIX: [Option<Wanted>; 4] = [Some(EXPRESSION), Some(OPERATOR), Some(EXPRESSION), None];

static OF_IF: [Option<Wanted>; 4] = [Some(EXPRESSION), Some(BLOCK), Some(BLOCK_OR_END), None];

static OF_FUNCTION: [Option<Wanted>; 4] = [Some(NAME_OR_EMPTY), Some(PARAMS), Some(BLOCK), None];

static OF_LIST: [Option<Wanted>; 4] = [Some(EXPRESSION_OR_END); 4];

static OF_INDEX: [Option<Wanted>; 4] = [Some(EXPRESSION), Some(EXPRESSION), None, None];

static OF_HASH: [Option<Wanted>; 4] = [
    Some(EXPRESSION_OR_END),
    Some(EXPRESSION),
    Some(EXPRESSION_OR_END),
    Some(EXPRESSION),
];

static OF_MACRO: [Option<Wanted>; 4] = [Some(PARAMS), Some(BLOCK), None, None];

static OF_PARAMS: [Option<Wanted>; 4] = [Some(NAME_OR_END); 4];

static OF_OTHERS: [Option<Wanted>; 4] = [None; 4];

// Whether a field may have this tag.
pub fn good_tag(wanted: Wanted, t: u8) -> bool
    ensures { result ≡ good_tag wanted t }
{
    (wanted.low..=wanted.high).contains(&t)
}

// Whether a content is one byte, and at most so much.
fn good_byte(content: &[u8], most: u8) -> bool
    ensures { result ≡ good_byte (length content.now) (byte_at content.now 0) most }
{
    matches!(content, [b] if *b <= most)
}

// Whether a field of a tag may have this content: its length, and a boolean's or an operator's byte.
pub fn good_content(content: &[u8], wanted: Wanted, t: u8) -> bool
    ensures { result ≡ good_content wanted t (length content.now) (byte_at content.now 0) }
{
    let len = content.len();
    match t {
        tag::IDENTIFIER => (1..=NAME_LIMIT).contains(&len),
        tag::INTEGER => len == 8,
        tag::BOOLEAN => good_byte(content, 1),
        tag::NAME => (wanted.least..=NAME_LIMIT).contains(&len),
        tag::OPERATOR => good_byte(content, operator::GREATER_THAN),
        _ => true,
    }
}

// Whether all bytes of a field of a tag are its own: it has no children.
pub fn is_leaf(t: u8) -> bool
    ensures { result ≡ is_leaf t }
{
    matches!(
        t,
        tag::IDENTIFIER | tag::INTEGER | tag::BOOLEAN | tag::STRING | tag::NAME | tag::OPERATOR
    )
}

// What the first four children of a tag must be; that a call has one is tested on its own.
#[tactic(auto, unfolding(crate::specs::Kinds::wanted, crate::specs::Kinds::kinds_of))]
pub fn child_kinds(t: u8) -> &'static [Option<Wanted>; 4]
    ensures { result.now ≡ kinds_of t }
{
    match t {
        tag::PROGRAM | tag::BLOCK => &OF_BLOCK,
        tag::EXPR_STMT | tag::RETURN => &OF_VALUE,
        tag::LET => &OF_LET,
        tag::PREFIX => &OF_PREFIX,
        tag::INFIX => &OF_INFIX,
        tag::IF => &OF_IF,
        tag::FUNCTION => &OF_FUNCTION,
        tag::CALL | tag::ARRAY => &OF_LIST,
        tag::INDEX => &OF_INDEX,
        tag::HASH => &OF_HASH,
        tag::MACRO => &OF_MACRO,
        tag::PARAMS => &OF_PARAMS,
        _ => &OF_OTHERS,
    }
}
