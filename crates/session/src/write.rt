// Writing bytes and fields at an offset.
ghost use Rattle.std.specs.Prelude.{◌≡◌, ◌+◌, ◌^◌, ◌≤◌, ◌<◌, length};
ghost use Rattle.std.proofs.lemmas.List.Edits.{sets};
ghost use Rattle.definition.specs.Field.{field};
ghost use Rattle.session.specs.Write.{heading};

use definition::output::store;

// Puts bytes at an offset, each where there is room, so that an output of no bytes measures; the offset behind them.
pub fn put_bytes(output: &mut [u8], at: usize, bytes: &[u8]) -> usize
    requires { at < 2 ^ 63 }
    ensures behind { result ≡ at + length bytes.now }
    ensures puts { output.new ≡ sets output.old at bytes.now }
{
    for (k, b) in bytes.iter().enumerate() {
        store(output, at + k, *b);
    }
    at + bytes.len()
}

// Copies bytes to an offset: the library's `copy_from_slice`, with the equation on the whole of the bytes, which each caller would else
// prove.
pub fn copy(out: &mut [u8], at: usize, from: &[u8])
    requires { at + length from.now ≤ length out.old }
    ensures { out.new ≡ sets out.old at from.now }
{
    let end = at + from.len();
    out[at..end].copy_from_slice(from);
}

// Writes a field's head: its tag, and the length of its content in two bytes.
pub fn put_head(out: &mut [u8], at: usize, tag: u8, len: usize)
    requires { at + 3 ≤ length out.old }
    ensures { out.new ≡ sets out.old at (heading tag len) }
{
    let [.., high, low] = len.to_be_bytes();
    out[at..at + 3].copy_from_slice(&[tag, high, low]);
}

// Writes a field.
pub fn put_field(out: &mut [u8], at: usize, tag: u8, content: &[u8])
    requires { at + (3 + length content.now) ≤ length out.old }
    ensures { out.new ≡ sets out.old at (field tag content.now) }
{
    put_head(out, at, tag, content.len());
    copy(out, at + 3, content);
}
