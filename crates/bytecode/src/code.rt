// Whether the bytes of code decode.
ghost use Rattle.std.specs.Prelude.{◌≡◌, ℕ, ◌+◌, ◌≤◌};
ghost use Rattle.definition.specs.Basic.{byte_at};
ghost use Rattle.definition.specs.Decode.{read_code};
ghost use Rattle.bytecode.specs.Checked.{is_code, item};

use crate::{Malformed, Section, Span};
use field::wide;
use opcode::width;

// Whether code decodes from its start up to its end, read from the end: bit k of `good` says whether it does from k bytes behind `at`.
// Every byte is taken as the first of an instruction, so no step waits for the length of another, and the bytes decide no branch. A byte
// that begins no instruction asks for bit 63, which is never set.
fn decodes(code: Section<'_>) -> bool
    ensures { result ≡ is_code (byte_at code.entry.span.bytes.now) code.entry.span.end code.entry.span.start }
{
    let Span { bytes, start, end } = code.span;
    let mut good: usize = 1;
    for at in (start..end).rev() {
        let behind = wide(width(bytes[at])) % 64;
        good = good % 8 * 2 + (good >> behind) % 2;
    }
    good % 2 == 1
}

// Check that code decodes up to its end; where it does not, its first wrong instruction is looked for.
pub fn check_code(code: Section<'_>) -> Result<usize, Malformed>
    ensures { (len : ℕ) → code.entry.span.end ≤ code.entry.span.start + len → result ≡ item (read_code (byte_at code.entry.span.bytes.now) len code.entry.span.start code.entry.span.end) }
{
    if decodes(code) {
        return Ok(code.span.end);
    }
    let mut reached = code.span.start;
    for (_, _, next) in code.span.instructions() {
        reached = next;
    }
    if reached < code.span.end {
        return Err(Malformed { place: reached });
    }
    Ok(reached)
}
