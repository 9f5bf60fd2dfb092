// Values put into memory that is lent, and may be too short for them.
ghost use Rattle.std.specs.Prelude.{◌≡◌, set};

// Stores a value where there is room.
// Kept: tried with `get_mut`: the proof does not close, since nothing is known of the slice behind the element that is lent.
pub fn store<T: Copy>(output: &mut [T], at: usize, value: T)
    ensures { output.new ≡ set output.old at value }
{
    if at < output.len() {
        output[at] = value;
    }
}
