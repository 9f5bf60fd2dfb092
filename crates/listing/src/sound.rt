// An image that was read as a whole.
ghost use Rattle.std.specs.Prelude.{◌≡◌, true, length};
ghost use Rattle.definition.specs.Decode.{read_image};
ghost use Rattle.bytecode.specs.Parts.{Divides};
ghost use Rattle.listing.specs.Reads.{is_image};

use bytecode::Parts;

// The bytes of a sound image.
#[derive(Clone, Copy)]
pub struct SoundImage<'a> {
    pub bytes: &'a [u8],
    ghost sound: { is_image (read_image bytes.now) (length bytes.now) ≡ true },
}

impl<'a> SoundImage<'a> {
    // Its code and its pool.
    pub fn parts(self) -> Parts<'a>
        ensures { Divides self.entry.bytes.now result }
    {
        Parts::of(self.bytes)
    }
}
