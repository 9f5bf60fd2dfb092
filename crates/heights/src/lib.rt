// Stack heights of an image: offered by a proposer that nobody trusts, checked here.
#![tactic(auto)]

pub mod chunk;
pub mod effect;
pub mod image;
mod propose;

ghost use Rattle.heights.specs.Promise.{Checks, Proposes};

use bytecode::check_image;
use definition::{Reason, Refusal, refused};
use image::judge;
use listing::sound::SoundImage;
use propose::propose;

// Checks the heights offered for an image: how many greatest heights stand at the start of the output then; or 17 where the image is
// wrong; or 25 at the first chunk that fails; or 15 where there are more chunks than the output has room for.
pub fn check_heights(image: &[u8], heights: &[u32], output: &mut [u32]) -> Result<usize, Refusal>
    ensures { Checks image.now heights.now output.old result output.new }
{
    check_image(image)?;
    let image = SoundImage { bytes: image };
    let count = judge(&mut output[..0], image, heights)?;
    if output.len() < count {
        return refused(Reason::OutputShort, 0);
    }
    let _ = judge(output, image, heights);
    Ok(count)
}

// Proposes heights for an image by forward flow along the code, 0 where there is no way from the chunk's start: how many stand at the
// start of the list then, one for each instruction; or 17 where the image is wrong; or 15 where there are more than the list has room
// for.
pub fn propose_heights(image: &[u8], heights: &mut [u32]) -> Result<usize, Refusal>
    ensures { Proposes image.now heights.old result heights.new }
{
    check_image(image)?;
    let image = SoundImage { bytes: image };
    let count = propose(&mut heights[..0], image);
    if heights.len() < count {
        return refused(Reason::OutputShort, 0);
    }
    propose(heights, image);
    Ok(count)
}
