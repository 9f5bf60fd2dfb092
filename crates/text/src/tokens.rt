// The tokens of a text, one after the other.
ghost use Rattle.std.specs.Prelude.{◌≡◌, ◌≤◌, length};

use crate::scan::{Token, next_token};

// The tokens from an offset on, up to where none is next.
#[derive(Clone, Copy)]
pub struct Tokens<'a> {
    pub text: &'a [u8],
    pub at: usize,
    ghost within: { at ≤ length text.now },
}

impl<'a> Tokens<'a> {
    // From an offset on.
    pub fn new(text: &'a [u8], at: usize) -> Self
        requires { at ≤ length text.now }
        ensures text { result.text.now ≡ text.now }
        ensures at { result.at ≡ at }
    {
        Tokens { text, at }
    }
}

impl<'a> Iterator for Tokens<'a> {
    ghost use Rattle.std.specs.Prelude.{◌-◌};
    ghost use Rattle.std.specs.Iterator.{at_most};
    ghost use Rattle.text.specs.Tokens.{Gives};

    type Item = Token;

    ghost next_gives = { Gives };

    ghost remaining = { λ s. at_most (length s.text.now - s.at) };

    fn next(&mut self) -> Option<Token> {
        let token = next_token(self.text, self.at).ok()?;
        self.at = token.end;
        Some(token)
    }
}
