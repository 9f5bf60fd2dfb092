// What was put of a tree, and the parts of it that hold no expression.
ghost use Rattle.std.specs.Prelude.{◌≡◌, None, Some, [], ◌∷◌, ℕ, ◌+◌, ◌-◌, ◌≤◌, ◌<◌, ◌^◌, length};
ghost use Rattle.std.proofs.lemmas.List.Edits.{sets};
ghost use Rattle.definition.specs.Basic.{pick};
ghost use Rattle.definition.specs.Field.{field};
ghost use Rattle.definition.specs.Tag.{tag_name, tag_operator};
ghost use Rattle.definition.specs.Node.{larger as largerOf};
ghost use Rattle.session.specs.Write.{heading};
ghost use Rattle.text.specs.Parse.{NamesRow, ParametersRow};
ghost use Rattle.text.specs.Shape.{separating as separatingOf};
ghost use Rattle.text.specs.Kind.{number_of};
ghost use Rattle.text.specs.declared.kind.Kind.TheVariants as kinds;
ghost use Rattle.text.specs.Parts.{end_of, moved_by, Sees, Holds, content_of, PutToken, Ready, Writes, WritesNode, Skips, Passes, Named, joined_of, moved_on, closed_of};

use crate::kind::Kind;
use crate::scan::{Token, next_token, text_end, value};
use crate::tokens::Tokens;
use definition::output::store;
use definition::tag;
use session::write::put_bytes;

// The offset behind it in the text and in the output, its levels of fields, and its tag if it is one field.
#[derive(Clone, Copy)]
pub struct Part {
    pub at: usize,
    pub to: usize,
    pub levels: usize,
    pub tag: Option<u8>,
}

// Where an operand stands, behind so many parentheses.
#[derive(Clone, Copy)]
pub struct Groups {
    pub at: usize,
    pub opened: usize,
}

// No token: the text has ended.
fn no_token(text: &[u8]) -> Token
    ensures { result ≡ record { kind = kinds.Ended; start = end_of text.now; end = end_of text.now } }
{
    let end = text_end(text);
    Token {
        kind: Kind::Ended,
        start: end,
        end,
    }
}

// The token at an offset of a script.
#[tactic(auto, using(crate::proofs::RowAt::end_within))]
pub fn token_at(text: &[u8], at: usize) -> Token
    requires { at ≤ end_of text.now }
    ensures { Sees text.now at result }
{
    next_token(text, at).unwrap_or(no_token(text))
}

impl Part {
    // Nothing was put.
    pub fn empty(at: usize, to: usize) -> Part
        ensures { result ≡ record { at = at; to = to; levels = 0; tag = None } }
    {
        Part {
            at,
            to,
            levels: 0,
            tag: None,
        }
    }

    // More levels than are left; no more is read.
    // Kept: a part like any other, since levels add up over what is around it, and one comparison at the end refuses, as in the definition.
    pub fn deep(text: &[u8], to: usize, left: usize) -> Part
        requires { left ≤ 64 }
        ensures { result ≡ record { at = end_of text.now; to = to; levels = left + 1; tag = None } }
    {
        Part {
            at: text_end(text),
            to,
            levels: left + 1,
            tag: None,
        }
    }

    // A part and the one behind it.
    pub fn joined(self, next: Part) -> Part
        ensures { result ≡ joined_of self next }
    {
        Part {
            at: next.at,
            to: next.to,
            levels: self.levels.max(next.levels),
            tag: None,
        }
    }

    // The same further on in the text.
    pub fn moved_on(self, at: usize) -> Part
        ensures { result ≡ moved_on self at }
    {
        Part { at, ..self }
    }

    // The same behind a `;`, if one stands there.
    pub fn past_semicolon(self, text: &[u8]) -> Part
        requires { self.at ≤ end_of text.now }
        ensures { Passes text.now self result }
    {
        let token = token_at(text, self.at);
        if token.kind == Kind::Semicolon {
            return self.moved_on(token.end);
        }
        self
    }
}

// Puts a field's head where there is room.
// Kept: beside `session::write::put_head`, which has room: one for both, tried, takes 14 % more instructions on a tree of the load.
fn put_head(output: &mut [u8], at: usize, tag: u8, len: usize)
    requires { at < 2 ^ 63 }
    ensures { output.new ≡ sets output.old at (heading tag len) }
{
    let [.., high, low] = len.to_be_bytes();
    put_bytes(output, at, &[tag, high, low]);
}

// Moves the bytes from an offset up to another further back.
// Kept: offsets and no slice, since an output that is too short measures, and has no such part.
pub fn make_room(output: &mut [u8], from: usize, end: usize, by: usize)
    requires { (from ≤ end) × (end < 1048576) × (by < 10000) }
    ensures { output.new ≡ moved_by output.old from end by }
{
    if end + by <= output.len() {
        output.copy_within(from..end, from + by);
    }
}

// A field of what was put behind its head.
pub fn close(output: &mut [u8], to: usize, tag: u8, inside: Part) -> Part
    requires { (to + 3 ≤ inside.to) × (inside.to < 1048576) × (inside.levels ≤ 1000) }
    ensures part { result ≡ closed_of tag inside }
    ensures stored { output.new ≡ sets output.old to (heading tag (inside.to - to - 3)) }
{
    put_head(output, to, tag, inside.to - to - 3);
    Part {
        at: inside.at,
        to: inside.to,
        levels: 1 + inside.levels,
        tag: Some(tag),
    }
}

// The parentheses that an expression begins with.
#[tactic(auto, using(crate::proofs::RowAt::end_within, crate::proofs::RowAt::end_early))]
pub fn skip_groups(text: &[u8], from: usize) -> Groups
    requires { from ≤ end_of text.now }
    ensures { Skips text.now from result }
{
    let mut groups = Groups {
        at: from,
        opened: 0,
    };
    for token in Tokens::new(text, from) {
        match token.kind {
            Kind::OpenParen => {
                groups = Groups {
                    at: token.end,
                    opened: groups.opened + 1,
                }
            }
            _ => return groups,
        }
    }
    groups
}

// Where an item stands: behind the token between it and the one before.
pub fn item_start(token: Token, at: usize) -> usize
    ensures { result ≡ pick (separatingOf (number_of token.kind)) token.end at }
{
    if token.kind.separates() {
        token.end
    } else {
        at
    }
}

// The bytes that a token denotes, or a flag.
// Kept: text and token apart, here and below: a token that lends its bytes still has offsets, to go on from, which must agree with them.
#[tactic(auto, using(crate::proofs::RowAt::end_within))]
fn put_content(text: &[u8], output: &mut [u8], token: Token, to: usize) -> usize
    requires { Holds text.now token × (to < 1048576) }
    ensures behind { result ≡ to + length (content_of text.now token) }
    ensures stored { output.new ≡ sets output.old to (content_of text.now token) }
    ensures most { length (content_of text.now token) ≤ 8 + (token.end - token.start) }
{
    let Token { kind, start, end } = token;
    match kind {
        Kind::Integer => put_bytes(output, to, &value(&text[start..end]).unwrap().to_be_bytes()),
        Kind::String => put_bytes(output, to, &text[start + 1..end - 1]),
        Kind::True => put_bytes(output, to, &[1]),
        Kind::False => put_bytes(output, to, &[0]),
        _ => put_bytes(output, to, &text[start..end]),
    }
}

// A field of such content: a name's, or that of an operand that is one token.
pub fn put_field(text: &[u8], output: &mut [u8], tag: u8, token: Token, to: usize) -> Part
    requires { Holds text.now token × (to < 1000000) }
    ensures { PutToken tag text.now token to output.old output.new result }
{
    let end = put_content(text, output, token, to + 3);
    close(output, to, tag, Part::empty(token.end, end))
}

// A name of no bytes.
pub fn put_empty_name(output: &mut [u8], at: usize, to: usize) -> Part
    requires { to < 1000000 }
    ensures part { result ≡ record { at = at; to = to + 3; levels = 1; tag = Some tag_name } }
    ensures stored { output.new ≡ sets output.old to (field tag_name []) }
{
    close(output, to, tag::NAME, Part::empty(at, to + 3))
}

// An operator's field.
pub fn put_operator(output: &mut [u8], at: usize, to: usize, b: u8) -> Part
    requires { to < 1000000 }
    ensures part { result ≡ record { at = at; to = to + 4; levels = 1; tag = Some tag_operator } }
    ensures stored { output.new ≡ sets output.old to (field tag_operator (b ∷ [])) }
{
    store(output, to + 3, b);
    close(output, to, tag::OPERATOR, Part::empty(at, to + 4))
}

// Names, and the token behind them.
#[tactic(auto, using(crate::proofs::RowAt::end_within))]
fn put_names(text: &[u8], output: &mut [u8], at: usize, to: usize) -> Part
    requires { Ready 139996 text.now at to 64 }
    ensures writes { (left : ℕ) → Writes NamesRow text.now at to 0 left output.old output.new result }
    ensures flat { result.levels ≤ 1 }
{
    let mut names = Part::empty(at, to);
    for token in Tokens::new(text, at) {
        match token.kind {
            Kind::Name => names = names.joined(put_field(text, output, tag::NAME, token, names.to)),
            Kind::Comma => names = names.moved_on(token.end),
            _ => return names.moved_on(token.end),
        }
    }
    names.moved_on(text_end(text))
}

// The parameters in their parentheses.
pub fn put_parameters(text: &[u8], output: &mut [u8], at: usize, to: usize) -> Part
    requires { Ready 139993 text.now at to 64 }
    ensures { (left : ℕ) → WritesNode ParametersRow text.now at to 3 left output.old output.new result }
{
    let token = token_at(text, at);
    let names = put_names(text, output, token.end, to + 3);
    close(output, to, tag::PARAMS, names)
}

// A value as it is, but a function with the name instead of its empty one.
#[tactic(auto, using(crate::proofs::RowAt::end_early))]
pub fn named(text: &[u8], output: &mut [u8], name: Token, to: usize, value: Part) -> Part
    requires { Holds text.now name × (value.to < 1000000) × (to ≤ value.to) }
    ensures { Named text.now name to value output.old output.new result }
{
    if value.tag != Some(tag::FUNCTION) {
        return value;
    }
    if value.to < to + 6 {
        return value;
    }
    let by = name.end - name.start;
    make_room(output, to + 6, value.to, by);
    put_field(text, output, tag::NAME, name, to + 3);
    put_head(output, to, tag::FUNCTION, value.to + by - to - 3);
    Part {
        to: value.to + by,
        ..value
    }
}
