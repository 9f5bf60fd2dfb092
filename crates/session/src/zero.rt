// Zeroing lent memory.
ghost use Rattle.std.specs.Prelude.{◌≡◌, ◌-◌, ◌≤◌, length, replicate};
ghost use Rattle.std.proofs.lemmas.List.Edits.{sets};

// Zeroes the bytes from an offset up to another.
// Kept: the library's `fill`, with the equation on the whole session; of a slice each caller would have to put the part back.
pub fn clear(session: &mut [u8], from: usize, to: usize)
    requires { (from ≤ to) × (to ≤ length session.old) }
    ensures { session.new ≡ sets session.old from (replicate (to - from) 0) }
{
    session[from..to].fill(0);
}
