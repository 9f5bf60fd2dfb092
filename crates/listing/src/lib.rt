// The listing of an image as text.
#![tactic(auto)]

mod code;
mod lengths;
mod measure;
mod pool;
pub mod sound;
pub mod text;

ghost use Rattle.std.specs.Prelude.{◌≡◌, length};
ghost use Rattle.definition.specs.Bytecode.{Image};
ghost use Rattle.definition.specs.Decode.{read_image};
ghost use Rattle.definition.specs.Listing.{listing, list_answer, list_into};
ghost use Rattle.listing.specs.Put.{Puts};
ghost use Rattle.listing.specs.Reads.{ImageAt};

use bytecode::Parts;
use definition::{Reason, Refusal, refused};
use measure::measure_image;
use sound::SoundImage;
use text::Writer;

impl<'a> Writer<'a> {
    // Puts the listing of a sound image, which has so many constants.
    fn put_listing(&mut self, image: SoundImage<'_>, constants: usize)
        ensures { (m : Image) → ImageAt image.entry.bytes.now m → constants ≡ length m.pool → Puts self.old self.new (listing m) }
    {
        let Parts { code, pool } = image.parts();
        self.put_bytes(b"main");
        self.put_field(code.end - code.start);
        self.put_newline();
        self.put_code(code);
        self.put_pool(pool, constants);
    }
}

// Checks an image and lists it: the length of its listing, which stands at the start of the output then; or 17 where the image is wrong;
// or 15 where the listing is longer than the output. One reading checks and counts, before the first byte is written; a second one
// writes.
pub fn list_image(image: &[u8], output: &mut [u8]) -> Result<usize, Refusal>
    ensures answers { result ≡ list_answer (read_image image.now) (length output.old) }
    ensures writes { output.new ≡ list_into (read_image image.now) output.old }
{
    let sound = measure_image(image)?;
    if output.len() < sound.size {
        return refused(Reason::OutputShort, 0);
    }
    let mut writer = Writer { output, at: 0 };
    writer.put_listing(SoundImage { bytes: image }, sound.constants);
    Ok(sound.size)
}
