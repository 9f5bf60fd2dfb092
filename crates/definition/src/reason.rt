// Why a call was refused, and where.
ghost use Rattle.std.specs.Prelude.{◌≡◌, ◌<◌};
ghost use Rattle.definition.specs.Number.{number_of, refusal};

use std::error::Error;
use std::fmt;

// Why a call was refused: each variant's number is sent back.
#[derive(Clone, Copy, Debug, PartialEq, Eq)]
pub enum Reason {
    // A work area below its size, or a session below 65,536.
    ShortBuffer = 1,
    // The session's layout is broken.
    NoSession = 2,
    // The tree's layout is broken.
    BadTree = 3,
    // A field at level 65.
    TooDeep = 4,
    // An Identifier without symbol.
    Undefined = 5,
    // An operator that is none here.
    Operator = 6,
    // A MacroLit.
    Macro = 7,
    // Over 255 parameters or arguments.
    TooMany = 8,
    // A function's 257th definition.
    Locals = 9,
    // A table's 256th free symbol.
    Captures = 10,
    // The 1,025th definition.
    Globals = 11,
    // A constant would pass a limit of the pool.
    Pool = 12,
    // The open chunks together would pass 32,768.
    Code = 13,
    // The 17th open function.
    Nesting = 14,
    // The result is longer than the output.
    OutputShort = 15,
    // An unknown byte or missing operands.
    BadInstruction = 16,
    // A wrong field or instruction of an image.
    BadImage = 17,
    // More Identifiers than records.
    FewRecords = 18,
    // Bytes that are no words: no name fields, a name of wrong length, a repeated name or a 25th; when making a session.
    BadWords = 19,
    // A text that is no script.
    BadScript = 20,
    // An integer above the limit.
    LargeInteger = 21,
    // A branch of an If that yields no value.
    NoValue = 22,
    // A size that a frame may not have.
    BadSize = 23,
    // No such frame.
    NoFrame = 24,
    // A chunk that does not pass with the heights offered.
    BadHeights = 25,
    // A jump to before its own end, or a distance whose target passes 65,535.
    BadJump = 26,
    // An instruction that a trial run does not take.
    NotRunnable = 27,
    // An operand that an instruction does not take.
    Operand = 28,
    // A global that is not set.
    Unset = 29,
}

// A reason, and its place: an offset, or as its call says.
#[derive(Clone, Copy, Debug, PartialEq, Eq)]
pub struct Refusal {
    pub reason: Reason,
    pub place: usize,
}

impl Reason {
    // The number that is sent back.
    pub fn number(self) -> u64
        ensures is { result ≡ number_of self }
        ensures small { result < 30 }
    {
        self as u64
    }
}

// A call is refused for a reason, at a place.
pub fn refused<T>(reason: Reason, place: usize) -> Result<T, Refusal>
    ensures { result ≡ Err (refusal reason place) }
{
    Err(Refusal { reason, place })
}

impl fmt::Display for Reason {
    fn fmt<W: fmt::Write>(&self, f: &mut fmt::Formatter<W>) -> fmt::Result {
        let words = match self {
            Reason::ShortBuffer => "short buffer",
            Reason::NoSession => "no session",
            Reason::BadTree => "bad tree",
            Reason::TooDeep => "tree too deep",
            Reason::Undefined => "undefined name",
            Reason::Operator => "operator that is none here",
            Reason::Macro => "macro",
            Reason::TooMany => "too many parameters or arguments",
            Reason::Locals => "too many locals",
            Reason::Captures => "too many captures",
            Reason::Globals => "too many globals",
            Reason::Pool => "pool full",
            Reason::Code => "code full",
            Reason::Nesting => "functions nested too deep",
            Reason::OutputShort => "output short",
            Reason::BadInstruction => "bad instruction",
            Reason::BadImage => "bad image",
            Reason::FewRecords => "few records",
            Reason::BadWords => "bad words",
            Reason::BadScript => "no script",
            Reason::LargeInteger => "integer too large",
            Reason::NoValue => "branch without a value",
            Reason::BadSize => "bad frame size",
            Reason::NoFrame => "no such frame",
            Reason::BadHeights => "no heights pass",
            Reason::BadJump => "jump without an operand in the other form",
            Reason::NotRunnable => "instruction that a trial run does not take",
            Reason::Operand => "wrong operand kind, overflow or zero divisor",
            Reason::Unset => "global not yet set",
        };
        f.write_str(words)
    }
}

impl fmt::Display for Refusal {
    fn fmt<W: fmt::Write>(&self, f: &mut fmt::Formatter<W>) -> fmt::Result {
        let reason = self.reason;
        let place = self.place;
        write!(f, "{reason}, at {place}")
    }
}

impl Error for Refusal {}
