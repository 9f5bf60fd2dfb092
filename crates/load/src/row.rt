// The list of choices: what an expression and a statement may be, and the items of their rows.
ghost use Rattle.std.specs.Prelude.{◌≡◌, ◌^◌, ◌<◌, sum_by};
ghost use Rattle.load.specs.Items.{need_of};

// An expression without parts.
#[derive(Clone, Copy)]
pub enum Leaf {
    Identifier,
    Integer,
    Boolean,
    String,
}

pub const LEAVES: [Leaf; 4] = [Leaf::Identifier, Leaf::Integer, Leaf::Boolean, Leaf::String];

// An expression.
#[derive(Clone, Copy)]
pub enum Row {
    Simple(Leaf),
    Prefix,
    Infix,
    Call,
    Array,
    Index,
    Hash,
    If,
    IfElse,
    Function,
}

pub const ROWS: [Row; 13] = [
    Row::Simple(Leaf::Identifier),
    Row::Simple(Leaf::Integer),
    Row::Simple(Leaf::Boolean),
    Row::Simple(Leaf::String),
    Row::Prefix,
    Row::Infix,
    Row::Call,
    Row::Array,
    Row::Index,
    Row::Hash,
    Row::If,
    Row::IfElse,
    Row::Function,
];

// A statement.
#[derive(Clone, Copy)]
pub enum StatementRow {
    Expression,
    Let,
    Return,
    Block,
}

pub const STATEMENT_ROWS: [StatementRow; 4] = [
    StatementRow::Expression,
    StatementRow::Let,
    StatementRow::Return,
    StatementRow::Block,
];

// A part of a row, drawn when its turn comes. A name and a definition are of a letter.
#[derive(Clone, Copy)]
pub enum Item {
    PrefixOperator,
    InfixOperator,
    Name(u8),
    LetName,
    FunctionName,
    Parameters,
    Integer,
    Definition(u8),
    Expression,
    Statement,
    Yielding,
    Block,
    Branch,
}

impl Item {
    // The bytes that it needs at least.
    pub fn need(self) -> usize
        ensures { result ≡ need_of self }
    {
        match self {
            Item::PrefixOperator
            | Item::InfixOperator
            | Item::Name(_)
            | Item::LetName
            | Item::FunctionName => 4,
            Item::Parameters | Item::Integer | Item::Expression => 11,
            Item::Definition(_) | Item::Statement | Item::Yielding => 18,
            Item::Block | Item::Branch => 39,
        }
    }
}

// The bytes that items need at least.
pub fn needs(items: &[Item]) -> usize
    requires { sum_by need_of items.now < 2 ^ 64 }
    ensures { result ≡ sum_by need_of items.now }
{
    items.iter().map(|item| item.need()).sum()
}
