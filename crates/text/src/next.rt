// The token that is next in a text, as three numbers or a refusal, for those who have an offset and know nothing of it.
ghost use Rattle.std.specs.Prelude.{◌≡◌};
ghost use Rattle.text.specs.Next.{three_of, token_at};

use crate::kind::Kind;
use crate::scan;
use crate::scan::{NextToken, Stop, text_end};
use definition::{Reason, Refusal, refused};

// The token that is next from an offset on; or 20 or 21 at what stands there instead, 20 for an offset behind all tokens.
pub fn next_token(text: &[u8], at: usize) -> Result<NextToken, Refusal>
    ensures { three_of result ≡ token_at text.now at }
{
    let end = text_end(text);
    if end < at {
        return refused(Reason::BadScript, end);
    }
    match scan::next_token(text, at) {
        Ok(token) => Ok(NextToken {
            start: token.start,
            len: token.end - token.start,
            kind: token.kind,
        }),
        Err(Stop::Finished(start)) => Ok(NextToken {
            start,
            len: 0,
            kind: Kind::Ended,
        }),
        Err(Stop::Broken(start)) => refused(Reason::BadScript, start),
        Err(Stop::Large(start)) => refused(Reason::LargeInteger, start),
    }
}
