// What the kinds of tokens mean for the writing of a tree: tests by their order, tags and operators.
ghost use Rattle.std.specs.Prelude.{◌≡◌};
ghost use Rattle.text.specs.Kind.{number_of};
ghost use Rattle.text.specs.Shape as shape;

use crate::kind::Kind;
use definition::{operator, tag};

impl Kind {
    // How tight a token holds the operand before it: 0 if it does not continue an expression.
    // Kept: 0, the level below all (the book's LOWEST): an `Option` goes to `write_continued` as a sixth parameter, or is read twice.
    #[tactic(auto, unfolding(crate::specs::Shape::tight_of))]
    pub fn tightness(self) -> usize
        ensures { result ≡ shape.tight_of (number_of self) }
    {
        match self {
            Kind::OpenParen | Kind::OpenBracket => 6,
            Kind::Star | Kind::Slash => 4,
            Kind::Minus | Kind::Plus => 3,
            Kind::Less | Kind::Greater => 2,
            Kind::Equal | Kind::Unequal => 1,
            _ => 0,
        }
    }

    // Whether a token closes the innermost of the parentheses that an expression began with.
    #[tactic(auto, unfolding(crate::specs::Shape::closes_group))]
    pub fn closes_group(self, opened: usize) -> bool
        ensures { result ≡ shape.closes_group opened (number_of self) }
    {
        0 < opened && self == Kind::CloseParen
    }

    // Whether an expression with operators tighter than a level ends before a token of that tightness.
    #[tactic(auto, unfolding(crate::specs::Shape::ends_at))]
    pub fn ends_at(self, opened: usize, least: usize) -> bool
        ensures { result ≡ shape.ends_at opened least (number_of self) }
    {
        let tight = self.tightness();
        tight == 0 || opened == 0 && tight <= least
    }

    // Whether a list ends at a token.
    #[tactic(auto, unfolding(crate::specs::Shape::closing))]
    pub fn closes_list(self) -> bool
        ensures { result ≡ shape.closing (number_of self) }
    {
        matches!(
            self,
            Kind::CloseParen | Kind::CloseBracket | Kind::CloseBrace | Kind::Ended
        )
    }

    // Whether a token stands between two items.
    #[tactic(auto, unfolding(crate::specs::Shape::separating))]
    pub fn separates(self) -> bool
        ensures { result ≡ shape.separating (number_of self) }
    {
        matches!(self, Kind::Comma | Kind::Colon)
    }

    // Whether statements end at a token.
    #[tactic(auto, unfolding(crate::specs::Shape::ending))]
    pub fn ends_statements(self) -> bool
        ensures { result ≡ shape.ending (number_of self) }
    {
        matches!(self, Kind::CloseBrace | Kind::Ended)
    }

    // Whether a token is an operand of its own.
    #[tactic(auto, unfolding(crate::specs::Shape::is_leaf))]
    pub fn is_leaf(self) -> bool
        ensures { result ≡ shape.is_leaf (number_of self) }
    {
        matches!(
            self,
            Kind::Name | Kind::Integer | Kind::String | Kind::True | Kind::False
        )
    }

    // Whether a token begins a list.
    #[tactic(auto, unfolding(crate::specs::Shape::is_list))]
    pub fn begins_list(self) -> bool
        ensures { result ≡ shape.is_list (number_of self) }
    {
        matches!(self, Kind::OpenBrace | Kind::OpenParen | Kind::OpenBracket)
    }

    // The byte of an operator.
    #[tactic(auto, unfolding(crate::specs::Shape::operator_of))]
    pub fn operator(self) -> u8
        ensures { result ≡ shape.operator_of (number_of self) }
    {
        match self {
            Kind::Plus => operator::PLUS,
            Kind::Minus => operator::MINUS,
            Kind::Bang => operator::BANG,
            Kind::Star => operator::STAR,
            Kind::Slash => operator::SLASH,
            Kind::Equal => operator::EQUAL,
            Kind::Unequal => operator::NOT_EQUAL,
            Kind::Less => operator::LESS_THAN,
            _ => operator::GREATER_THAN,
        }
    }

    // The tag of the field that a token makes of the operand before it.
    // Kept: tables, here and at the two below: a kind has a tag in each: `[` is an Index, an Array, or begins an ExprStmt.
    #[tactic(auto, unfolding(crate::specs::Shape::continued_tag))]
    pub fn continued_tag(self) -> u8
        ensures { result ≡ shape.continued_tag (number_of self) }
    {
        match self {
            Kind::OpenParen => tag::CALL,
            Kind::OpenBracket => tag::INDEX,
            _ => tag::INFIX,
        }
    }

    // The tag of the operand that a token begins.
    #[tactic(auto, unfolding(crate::specs::Shape::operand_tag))]
    pub fn operand_tag(self) -> u8
        ensures { result ≡ shape.operand_tag (number_of self) }
    {
        match self {
            Kind::Name => tag::IDENTIFIER,
            Kind::Integer => tag::INTEGER,
            Kind::String => tag::STRING,
            Kind::True | Kind::False => tag::BOOLEAN,
            Kind::OpenBracket => tag::ARRAY,
            Kind::OpenBrace => tag::HASH,
            Kind::If => tag::IF,
            Kind::Fn => tag::FUNCTION,
            _ => tag::PREFIX,
        }
    }

    // The tag of the statement that a token begins.
    #[tactic(auto, unfolding(crate::specs::Shape::statement_tag))]
    pub fn statement_tag(self) -> u8
        ensures { result ≡ shape.statement_tag (number_of self) }
    {
        match self {
            Kind::Let => tag::LET,
            Kind::Return => tag::RETURN,
            _ => tag::EXPR_STMT,
        }
    }
}
