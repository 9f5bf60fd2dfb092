// What is written of the globals.
ghost use Rattle.std.specs.Prelude.{◌≡◌, ◌+◌, ◌*◌, ◌<◌, ◌≤◌, length};
ghost use Rattle.std.proofs.lemmas.List.Edits.{sets};
ghost use Rattle.definition.specs.Output.{over};
ghost use Rattle.trial.specs.Value.{Globals};
ghost use Rattle.trial.specs.Output.{cell, shown};
ghost use Rattle.trial.specs.Cells.{Keeping, KeepsGlobals};

use crate::WORK_SIZE;
use crate::cells::KINDS;

// Writes the nine bytes of a value, its kind and its word, the high byte first.
fn put_cell(output: &mut [u8], at: usize, kind: u64, word: u64)
    requires { (at + 9 ≤ length output.old) × (kind < 256) }
    ensures { output.new ≡ sets output.old at (cell kind word) }
{
    output[at] = kind as u8;
    output[at + 1..at + 9].copy_from_slice(&word.to_be_bytes());
}

// Writes the first so many globals.
pub fn put_globals(output: &mut [u8], work: &[u64; WORK_SIZE], n: usize)
    requires { (9 * n ≤ length output.old) × (n ≤ 1024) × KeepsGlobals work.now }
    ensures { (g : Globals) → Keeping work.now g → output.new ≡ over (shown n g) output.old }
{
    // Kept: an index: with `for (k, cell) in output[..9 * n].chunks_exact_mut(9).enumerate()` it stood open that a cell has nine bytes.
    for k in 0..n {
        put_cell(output, 9 * k, work[KINDS + k], work[k]);
    }
}
