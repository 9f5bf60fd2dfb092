// Writing the session and the image, and zeroing lent memory. Each contract gives the lent lists by equations.
#![tactic(auto)]

pub mod image;
pub mod words;
pub mod write;
pub mod zero;

ghost use Rattle.std.specs.Prelude.{◌≡◌, ◌+◌, ◌≤◌, length};
ghost use Rattle.definition.specs.Call.{made};
ghost use Rattle.definition.specs.Session.{Words, words_field};
ghost use Rattle.session.specs.Write.{finished, written_back};

use definition::limit::SESSION_SIZE;
use definition::{Reason, Refusal, refused, tag};
use words::raise;

// Writes a fresh session of two fields to the first 65,536 bytes, and leaves the others; a shorter buffer is refused, and nothing in it
// touched.
pub fn write_fresh(session: &mut [u8]) -> Result<usize, Refusal>
    ensures { made session.old ≡ record { answer = result; session = session.new } }
{
    if session.len() < SESSION_SIZE {
        return refused(Reason::ShortBuffer, 0);
    }
    zero::clear(session, 0, SESSION_SIZE);
    finish_session(session, 0, 3, &[]);
    Ok(SESSION_SIZE)
}

// Writes the head of the names, which begin at an offset and end at another, and the pool behind them.
// Kept: offsets and no slice, here and at `write_back`, since bytes before, between and behind belong to the one session that is written.
pub fn finish_session(session: &mut [u8], start: usize, end: usize, pool: &[u8])
    requires { (start + 3 ≤ end) × (end + (3 + length pool.now) ≤ length session.old) }
    ensures { session.new ≡ finished start end pool.now session.old }
{
    write::put_head(session, start, tag::NAMES, end - (start + 3));
    write::put_field(session, end, tag::POOL, pool);
}

// Writes a session of three fields back, whose names begin behind the words: where it had two, the six words are put in front first.
pub fn write_back(session: &mut [u8], start: usize, end: usize, pool: &[u8])
    requires { (start + 3 ≤ end) × (end + 45 + (3 + length pool.now) ≤ length session.old) }
    ensures { (w : Words) → start ≡ length (words_field w) → session.new ≡ written_back w end pool.now session.old }
{
    if start == 0 {
        raise(session, end);
        return finish_session(session, 45, end + 45, pool);
    }
    finish_session(session, start, end, pool)
}
