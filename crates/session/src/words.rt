// The first field of a session: its words.
ghost use Rattle.std.specs.Prelude.{◌≡◌, List, reverse, ◌+◌, ◌≤◌, length};
ghost use Rattle.definition.specs.Basic.{Bytes};
ghost use Rattle.definition.specs.Limit.{session_size};
ghost use Rattle.definition.specs.Output.{over};
ghost use Rattle.definition.specs.Session.{listed, begun, names_bytes, session_bytes};
ghost use Rattle.session.specs.Write.{raised};

use crate::zero::clear;
use crate::{finish_session, write};
use definition::builtins::SIX_WORDS;
use definition::limit::SESSION_SIZE;
use definition::tag;

// Puts the field of document 01's six words in front of the bytes before an offset.
pub fn raise(session: &mut [u8], end: usize)
    requires { end + 45 ≤ length session.old }
    ensures { session.new ≡ raised end session.old }
{
    session.copy_within(..end, 45);
    write::copy(session, 0, SIX_WORDS);
}

// Writes a session of three fields to the first 65,536 bytes: words as name fields, no names and no constants.
pub fn begin_session(session: &mut [u8], words: &[u8])
    requires { (session_size ≤ length session.old) × (length words.now ≤ 840) }
    ensures { (ws : List Bytes) → names_bytes (reverse ws) ≡ words.now → session.new ≡ over (session_bytes (begun (listed ws))) session.old }
{
    let end = 3 + words.len();
    clear(session, 0, SESSION_SIZE);
    write::put_field(session, 0, tag::WORDS, words);
    finish_session(session, end, end + 3, &[]);
}
