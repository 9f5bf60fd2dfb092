// Passes 2 and 3: the tree that a script denotes, put into an output; an output of no bytes measures. Calls nest by the levels of the tree.
ghost use Rattle.std.specs.Prelude.{◌≡◌, ◌+◌, ◌-◌, ◌≤◌, ◌<◌};
ghost use Rattle.text.specs.Kind.{number_of};
ghost use Rattle.text.specs.Parse.{ExpressionRow, OperandRow, InsideRow, ListRow, IfRow, ElseRow, FunctionRow, BlockRow, StatementsRow, StatementRow, ClauseRow, LetRow};
ghost use Rattle.text.specs.Parts.{end_of, Sees, Ready, Writes, WritesNode, Spares, Continues, PutsTree};

use crate::kind::Kind;
use crate::part::{
    Part, close, item_start, make_room, named, put_empty_name, put_field, put_operator,
    put_parameters, skip_groups, token_at,
};
use crate::scan::Token;
use definition::tag;

// From where a part is put: its offsets in the text and in the output, and how many levels are left.
// Kept: text and output beside it: of 15 functions of `part` that take either, 10 take one alone, so a struct would be taken apart there.
// Kept: `Ready` a clause: each function asks for its own room, 139,990 to 140,003, and the ghost field of a struct is one for all.
#[derive(Clone, Copy)]
struct Place {
    at: usize,
    to: usize,
    left: usize,
}

// The level of a prefix operator: only calls and indices are tighter.
const PREFIX_LEVEL: usize = 5;

// An expression with the operators tighter than `least`; between its leading parentheses, with all.
#[cycle(write)]
fn write_expression(text: &[u8], output: &mut [u8], from: Place, least: usize) -> Part
    requires ready { Ready 140003 text.now from.at from.to from.left }
    requires least_bound { least ≤ 6 }
    ensures writes { WritesNode (ExpressionRow least 0) text.now from.at from.to 0 from.left output.old output.new result }
    ensures spares { Spares text.now from.at from.to result }
{
    let Place { at, to, left } = from;
    if left == 0 {
        return Part::deep(text, to, 0);
    }
    let first = skip_groups(text, at);
    let mut opened = first.opened;
    let mut so_far = write_operand(
        text,
        output,
        Place {
            at: first.at,
            ..from
        },
    );
    // Kept: a loop, here and below: each turn goes on behind a part of many tokens, so an iterator over tokens would be made anew.
    loop {
        let token = token_at(text, so_far.at);
        if token.kind.closes_group(opened) {
            opened -= 1;
            so_far = so_far.moved_on(token.end);
        } else {
            if token.kind.ends_at(opened, least) {
                return so_far;
            }
            so_far = write_continued(text, output, token, from, so_far);
        }
    }
}

// A call, an index or an infix operator behind its left operand, which moves to make room for a head.
#[cycle(write)]
fn write_continued(text: &[u8], output: &mut [u8], token: Token, from: Place, before: Part) -> Part
    requires ready { Ready 140003 text.now before.at before.to from.left × (before.at < token.end) × (token.end ≤ end_of text.now) × (from.to ≤ before.to) }
    requires levels_bound { before.levels ≤ from.left + 2 }
    ensures { Continues text.now token from.to before from.left output.old output.new result }
{
    let Place { to, left, .. } = from;
    if left <= before.levels {
        return Part::deep(text, before.to, left);
    }
    make_room(output, to, before.to, 3);
    let behind = Place {
        at: token.end,
        to: before.to + 3,
        left: left - 1,
    };
    let rest = write_inside(text, output, token.kind, behind, token.kind.tightness());
    close(output, to, token.kind.continued_tag(), before.joined(rest))
}

// A primary or a prefix operator with its operand; a level is left.
#[cycle(write)]
fn write_operand(text: &[u8], output: &mut [u8], from: Place) -> Part
    requires { Ready 140003 text.now from.at from.to from.left × (0 < from.left) }
    ensures writes { WritesNode OperandRow text.now from.at from.to 0 from.left output.old output.new result }
    ensures spares { Spares text.now from.at from.to result }
{
    let Place { at, to, left } = from;
    let token = token_at(text, at);
    match token.kind {
        Kind::Ended => Part::empty(token.end, to),
        kind if kind.is_leaf() => put_field(text, output, kind.operand_tag(), token, to),
        kind => {
            let behind = Place {
                at: token.end,
                to: to + 3,
                left: left - 1,
            };
            let inside = write_inside(text, output, kind, behind, PREFIX_LEVEL);
            close(output, to, kind.operand_tag(), inside)
        }
    }
}

// What an operator, a bracket, `if` or `fn` has inside its field, behind the left operand if there is one.
#[cycle(write)]
fn write_inside(text: &[u8], output: &mut [u8], kind: Kind, from: Place, least: usize) -> Part
    requires ready { Ready 139990 text.now from.at from.to from.left }
    requires least_bound { least ≤ 6 }
    ensures { Writes (InsideRow (number_of kind) least) text.now from.at from.to 9 from.left output.old output.new result }
{
    match kind {
        Kind::If => write_if(text, output, from),
        Kind::Fn => write_function(text, output, from),
        kind if kind.begins_list() => write_list(text, output, from),
        kind => {
            let first = put_operator(output, from.at, from.to, kind.operator());
            let Part { at, to, .. } = first;
            let operand = write_expression(text, output, Place { at, to, ..from }, least);
            first.joined(operand)
        }
    }
}

// Items, keys and values up to the token that closes them, and that token.
#[cycle(write)]
fn write_list(text: &[u8], output: &mut [u8], from: Place) -> Part
    requires { Ready 139990 text.now from.at from.to from.left }
    ensures { Writes ListRow text.now from.at from.to 0 from.left output.old output.new result }
{
    let mut so_far = Part::empty(from.at, from.to);
    loop {
        let token = token_at(text, so_far.at);
        if token.kind.closes_list() {
            return so_far.moved_on(token.end);
        }
        let at = item_start(token, so_far.at);
        let to = so_far.to;
        let item = write_expression(text, output, Place { at, to, ..from }, 0);
        so_far = so_far.joined(item);
    }
}

// The condition and the blocks behind `if`.
#[cycle(write)]
fn write_if(text: &[u8], output: &mut [u8], from: Place) -> Part
    requires { Ready 139990 text.now from.at from.to from.left }
    ensures { Writes IfRow text.now from.at from.to 6 from.left output.old output.new result }
{
    let token = token_at(text, from.at);
    let inside = Place {
        at: token.end,
        ..from
    };
    let condition = write_expression(text, output, inside, 0);
    let token2 = token_at(text, condition.at);
    let brace = Place {
        at: token2.end,
        to: condition.to,
        ..from
    };
    let branch = write_block(text, output, brace);
    let behind = Place {
        at: branch.at,
        to: branch.to,
        ..from
    };
    let other = write_else(text, output, behind);
    condition.joined(branch.joined(other))
}

// The other block, if there is one.
#[cycle(write)]
fn write_else(text: &[u8], output: &mut [u8], from: Place) -> Part
    requires { Ready 139996 text.now from.at from.to from.left }
    ensures { Writes ElseRow text.now from.at from.to 3 from.left output.old output.new result }
{
    let token = token_at(text, from.at);
    match token.kind {
        Kind::Else => {
            let at = token.end;
            write_block(text, output, Place { at, ..from })
        }
        _ => Part::empty(from.at, from.to),
    }
}

// The empty name, the parameters and the block behind `fn`.
#[cycle(write)]
fn write_function(text: &[u8], output: &mut [u8], from: Place) -> Part
    requires { Ready 139990 text.now from.at from.to from.left }
    ensures { Writes FunctionRow text.now from.at from.to 9 from.left output.old output.new result }
{
    let name = put_empty_name(output, from.at, from.to);
    let names = put_parameters(text, output, name.at, name.to);
    let Part { at, to, .. } = names;
    let block = write_block(text, output, Place { at, to, ..from });
    name.joined(names.joined(block))
}

// A block in its braces.
#[cycle(write)]
fn write_block(text: &[u8], output: &mut [u8], from: Place) -> Part
    requires { Ready 139996 text.now from.at from.to from.left }
    ensures { WritesNode BlockRow text.now from.at from.to 3 from.left output.old output.new result }
{
    let Place { at, to, left } = from;
    if left == 0 {
        return Part::deep(text, to, 0);
    }
    let token = token_at(text, at);
    let behind = Place {
        at: token.end,
        to: to + 3,
        left: left - 1,
    };
    let inside = write_statements(text, output, behind);
    let token2 = token_at(text, inside.at);
    close(output, to, tag::BLOCK, inside.moved_on(token2.end))
}

// Statements up to `}` or the text's end.
#[cycle(write)]
fn write_statements(text: &[u8], output: &mut [u8], from: Place) -> Part
    requires { Ready 140000 text.now from.at from.to from.left }
    ensures { Writes StatementsRow text.now from.at from.to 0 from.left output.old output.new result }
{
    let mut so_far = Part::empty(from.at, from.to);
    loop {
        let token = token_at(text, so_far.at);
        if token.kind.ends_statements() {
            return so_far;
        }
        let Part { at, to, .. } = so_far;
        let next = write_one(text, output, token, Place { at, to, ..from });
        so_far = so_far.joined(next);
    }
}

// A statement with its first token, and a `;` behind it.
#[cycle(write)]
fn write_one(text: &[u8], output: &mut [u8], token: Token, from: Place) -> Part
    requires { Ready 140000 text.now from.at from.to from.left × Sees text.now from.at token × (from.at < end_of text.now) }
    ensures writes { WritesNode StatementRow text.now from.at from.to 0 from.left output.old output.new result }
    ensures onward { from.at < result.at }
{
    let Place { at, to, left } = from;
    if left == 0 {
        return Part::deep(text, to, 0);
    }
    let behind = Place {
        at,
        to: to + 3,
        left: left - 1,
    };
    let inside = write_clause(text, output, token, behind);
    let whole = close(output, to, token.kind.statement_tag(), inside);
    whole.past_semicolon(text)
}

// What a statement has inside.
#[cycle(write)]
fn write_clause(text: &[u8], output: &mut [u8], token: Token, from: Place) -> Part
    requires { Ready 140003 text.now from.at from.to from.left × Sees text.now from.at token × (from.at < end_of text.now) }
    ensures writes { Writes ClauseRow text.now from.at from.to 0 from.left output.old output.new result }
    ensures spares { Spares text.now from.at from.to result }
{
    let at = token.end;
    match token.kind {
        Kind::Let => write_let(text, output, Place { at, ..from }),
        Kind::Return => write_expression(text, output, Place { at, ..from }, 0),
        _ => write_expression(text, output, from, 0),
    }
}

// The name and the value behind `let`; a function takes the name.
#[cycle(write)]
fn write_let(text: &[u8], output: &mut [u8], from: Place) -> Part
    requires { Ready 139990 text.now from.at from.to from.left }
    ensures { Writes LetRow text.now from.at from.to 11 from.left output.old output.new result }
{
    let name = token_at(text, from.at);
    let first = put_field(text, output, tag::NAME, name, from.to);
    let token = token_at(text, name.end);
    let behind = Place {
        at: token.end,
        to: first.to,
        ..from
    };
    let value = write_expression(text, output, behind, 0);
    first.joined(named(text, output, name, first.to, value))
}

// The whole tree.
#[tactic(auto, using(crate::proofs::RowAt::end_early))]
pub fn write_script(text: &[u8], output: &mut [u8]) -> Part
    ensures { PutsTree text.now output.old output.new result }
{
    let start = Place {
        at: 0,
        to: 3,
        left: 63,
    };
    let inside = write_statements(text, output, start);
    close(output, 0, tag::PROGRAM, inside)
}
