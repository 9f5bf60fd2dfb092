// A repeatable load of scripts: the tree of a seed, by the list of choices.
#![tactic(auto)]

mod draw;
mod leaf;
mod row;

ghost use Rattle.std.specs.Prelude.{◌≡◌, ◌+◌, ◌<◌, ◌≤◌, length, sum_by};
ghost use Rattle.definition.specs.Output.{output_answer, output_after};
ghost use Rattle.load.specs.Draw.{row, field_of};
ghost use Rattle.load.specs.Load as list;
ghost use Rattle.load.specs.Load.{row_need, row_below, tree_of};
ghost use Rattle.load.specs.Items.{need_of, part_of, parts};
ghost use Rattle.load.specs.Writing.{Wrote, WroteAll};

use definition::{Reason, Refusal, operator, refused, tag};
use draw::Draws;
use leaf::{INFIXES, LETTER, function_word, put, put_leaf};
use row::Item::{
    Block, Branch, Definition, Expression, FunctionName, InfixOperator, Integer, LetName, Name,
    Parameters, PrefixOperator, Statement, Yielding,
};
use row::{Item, LEAVES, Leaf, ROWS, Row, STATEMENT_ROWS, StatementRow, needs};

// The bytes that a tree may take.
pub const TREE_MOST: usize = 2048;

// The levels below a statement of Program.
const STATEMENT_LEVELS: usize = 10;

const NAMES: [Item; 2] = [LetName; 2];

const EXPRESSIONS: [Item; 6] = [Expression; 6];

const STATEMENTS: [Item; 2] = [Statement; 2];

// The definitions of a and b, and as many statements as a Program has at most.
const PROGRAM: [Item; 10] = [
    Definition(0x61),
    Definition(0x62),
    Statement,
    Statement,
    Statement,
    Statement,
    Statement,
    Statement,
    Statement,
    Statement,
];

// The same, with the definition of c.
// Kept: beside `PROGRAM`, since a row is one slice, and c's definition stands in the middle of this one.
const PROGRAM_WITH_C: [Item; 11] = [
    Definition(0x61),
    Definition(0x62),
    Definition(0x63),
    Statement,
    Statement,
    Statement,
    Statement,
    Statement,
    Statement,
    Statement,
    Statement,
];

// How many rows are open to an expression with so many levels below and so many bytes.
fn choices(below: usize, most: usize) -> usize
    ensures { result ≡ list.choices below most }
{
    if 3 <= below && 96 <= most {
        13
    } else if 1 <= below && 48 <= most {
        10
    } else {
        4
    }
}

// How many rows are open to a statement.
fn statement_choices(below: usize, most: usize) -> usize
    ensures { result ≡ list.statement_choices below most }
{
    if 3 <= below && 48 <= most { 4 } else { 3 }
}

// Kept: (out, below, draws) apart, here and below: a struct of buffer, length and draws, tried and proved, takes 17 % more instructions.
// Items one after the other, with so many levels below. Each may take what those behind it leave.
#[cycle(items)]
fn put_items(out: &mut [u8], items: &[Item], below: usize, draws: &mut Draws) -> usize
    requires { sum_by need_of items.now ≤ length out.old }
    ensures { WroteAll (row (parts below items.now) (length out.old) draws.old.state) result draws.new.state out.old out.new }
{
    let [item, rest @ ..] = items else {
        return 0;
    };
    let end = out.len() - needs(rest);
    let n = put_item(&mut out[..end], *item, below, draws);
    n + put_items(&mut out[n..], rest, below, draws)
}

// A field of items.
#[cycle(items)]
fn put_node(out: &mut [u8], field_tag: u8, items: &[Item], below: usize, draws: &mut Draws) -> usize
    requires { 3 + sum_by need_of items.now ≤ length out.old }
    ensures { Wrote (field_of field_tag (parts below items.now) (length out.old) draws.old.state) result draws.new.state out.old out.new }
{
    let n = put_items(&mut out[3..], items, below, draws);
    session::write::put_head(out, 0, field_tag, n);
    3 + n
}

// An item. A statement, a Block, a branch or what that ends with is a Block of no statements where no level is below it.
#[cycle(items)]
fn put_item(out: &mut [u8], item: Item, below: usize, draws: &mut Draws) -> usize
    requires { need_of item ≤ length out.old }
    ensures { Wrote ((part_of below item).make (length out.old) draws.old.state) result draws.new.state out.old out.new }
{
    if below == 0 && matches!(item, Statement | Yielding | Block | Branch) {
        return put_node(out, tag::BLOCK, &[], below, draws);
    }
    match item {
        PrefixOperator => put(out, tag::OPERATOR, &[operator::MINUS + draws.draw(2) as u8]),
        InfixOperator => put(out, tag::OPERATOR, &[INFIXES[draws.draw(8)]]),
        Name(letter) => put(out, tag::NAME, &[letter]),
        LetName => put(out, tag::NAME, &[LETTER + draws.draw(3) as u8]),
        FunctionName => put(out, tag::NAME, function_word(draws.draw(4))),
        Parameters => {
            let n = draws.draw(3);
            put_node(out, tag::PARAMS, &NAMES[..n], below, draws)
        }
        Integer => put_leaf(out, Leaf::Integer, draws),
        Definition(letter) => put_node(out, tag::LET, &[Name(letter), Integer], below, draws),
        Expression => put_expression(out, below, draws),
        Statement => put_statement(out, below, draws),
        Yielding => put_yielding(out, below, draws),
        Block => put_block(out, below, draws),
        Branch => put_branch(out, below, draws),
    }
}

// An expression.
#[cycle(items)]
fn put_expression(out: &mut [u8], below: usize, draws: &mut Draws) -> usize
    requires { 11 ≤ length out.old }
    ensures { Wrote (list.expression below (length out.old) draws.old.state) result draws.new.state out.old out.new }
{
    if below == 0 {
        return put_leaf(out, LEAVES[draws.draw(4)], draws);
    }
    let k = draws.draw(choices(below, out.len()));
    put_row(out, ROWS[k], below - 1, draws)
}

// A row of an expression, with so many levels below its items.
#[cycle(items)]
fn put_row(out: &mut [u8], row: Row, below: usize, draws: &mut Draws) -> usize
    requires { row_need row ≤ length out.old }
    ensures { Wrote (row_below below row (length out.old) draws.old.state) result draws.new.state out.old out.new }
{
    match row {
        Row::Simple(leaf) => put_leaf(out, leaf, draws),
        Row::Prefix => put_node(
            out,
            tag::PREFIX,
            &[PrefixOperator, Expression],
            below,
            draws,
        ),
        Row::Infix => put_node(
            out,
            tag::INFIX,
            &[Expression, InfixOperator, Expression],
            below,
            draws,
        ),
        Row::Call => {
            let n = 1 + draws.draw(3);
            put_node(out, tag::CALL, &EXPRESSIONS[..n], below, draws)
        }
        Row::Array => {
            let n = draws.draw(4);
            put_node(out, tag::ARRAY, &EXPRESSIONS[..n], below, draws)
        }
        Row::Index => put_node(out, tag::INDEX, &[Expression, Expression], below, draws),
        Row::Hash => {
            let n = 2 * draws.draw(3);
            put_node(out, tag::HASH, &EXPRESSIONS[..n], below, draws)
        }
        Row::If => put_node(out, tag::IF, &[Expression, Branch], below, draws),
        Row::IfElse => put_node(out, tag::IF, &[Expression, Branch, Branch], below, draws),
        Row::Function => put_node(
            out,
            tag::FUNCTION,
            &[FunctionName, Parameters, Block],
            below,
            draws,
        ),
    }
}

// A statement.
#[cycle(items)]
fn put_statement(out: &mut [u8], below: usize, draws: &mut Draws) -> usize
    requires { (0 < below) × (18 ≤ length out.old) }
    ensures { Wrote (list.statement below (length out.old) draws.old.state) result draws.new.state out.old out.new }
{
    let k = draws.draw(statement_choices(below, out.len()));
    match STATEMENT_ROWS[k] {
        StatementRow::Expression => put_node(out, tag::EXPR_STMT, &[Expression], below - 1, draws),
        StatementRow::Let => put_node(out, tag::LET, &[LetName, Expression], below - 1, draws),
        StatementRow::Return => put_node(out, tag::RETURN, &[Expression], below - 1, draws),
        StatementRow::Block => put_block(out, below, draws),
    }
}

// A Block of none to two statements.
#[cycle(items)]
fn put_block(out: &mut [u8], below: usize, draws: &mut Draws) -> usize
    requires { (0 < below) × (39 ≤ length out.old) }
    ensures { Wrote (list.block below (length out.old) draws.old.state) result draws.new.state out.old out.new }
{
    let n = draws.draw(3);
    put_node(out, tag::BLOCK, &STATEMENTS[..n], below - 1, draws)
}

// A branch: a statement or none, then one that yields a value.
#[cycle(items)]
fn put_branch(out: &mut [u8], below: usize, draws: &mut Draws) -> usize
    requires { (0 < below) × (39 ≤ length out.old) }
    ensures { Wrote (list.branch below (length out.old) draws.old.state) result draws.new.state out.old out.new }
{
    let row: &[Item] = if draws.draw(2) == 0 {
        &[Yielding]
    } else {
        &[Statement, Yielding]
    };
    put_node(out, tag::BLOCK, row, below - 1, draws)
}

// The ExprStmt that a branch ends with.
#[cycle(items)]
fn put_yielding(out: &mut [u8], below: usize, draws: &mut Draws) -> usize
    requires { (0 < below) × (18 ≤ length out.old) }
    ensures { Wrote (list.yielding below (length out.old) draws.old.state) result draws.new.state out.old out.new }
{
    put_node(out, tag::EXPR_STMT, &[Expression], below - 1, draws)
}

// The tree of a seed, in a buffer of as many bytes as a tree may take.
fn put_program(out: &mut [u8], draws: &mut Draws) -> usize
    requires { length out.old ≡ 2048 }
    ensures { Wrote (list.program draws.old.state) result draws.new.state out.old out.new }
{
    let with_c = draws.draw(4) != 0;
    let n = 1 + draws.draw(8);
    let row = if with_c {
        &PROGRAM_WITH_C[..3 + n]
    } else {
        &PROGRAM[..2 + n]
    };
    put_node(out, tag::PROGRAM, row, STATEMENT_LEVELS, draws)
}

// Writes the tree of a seed to the output; or refuses, 15, where it is too short, and leaves it as it was.
pub fn make_tree(seed: u32, output: &mut [u8]) -> Result<usize, Refusal>
    ensures answers { result ≡ output_answer (tree_of seed) (length output.old) }
    ensures writes { output.new ≡ output_after (tree_of seed) output.old }
{
    let mut tree = [0u8; TREE_MOST];
    let n = put_program(&mut tree, &mut Draws { state: seed });
    if output.len() < n {
        return refused(Reason::OutputShort, 0);
    }
    output[..n].copy_from_slice(&tree[..n]);
    Ok(n)
}
