// Frames: an image cut into parts of one size, and the shorter part that is left.
#![tactic(auto)]

ghost use Rattle.std.specs.Prelude.{◌≡◌, ◌*◌, ◌<◌};
ghost use Rattle.frames.specs.Promise.{Counts, Places, Refuses};
ghost use Rattle.frames.specs.Frames.{size_in_range, place_in, IsFrame};

use bytecode::check_image;
use definition::{Reason, Refusal, refused};

// The least and the greatest size of a frame.
pub const LEAST_SIZE: usize = 16;

pub const GREATEST_SIZE: usize = 1024;

// How many whole frames an image has, and how many bytes are left behind them.
#[derive(Clone, Copy)]
pub struct FrameCount {
    pub whole: usize,
    pub rest: usize,
}

// Where a frame lies in its image, and its length.
#[derive(Clone, Copy)]
pub struct FramePlace {
    pub start: usize,
    pub len: usize,
}

// Whether a frame may have this size.
fn size_in_range(size: usize) -> bool
    ensures { result ≡ size_in_range size }
{
    LEAST_SIZE <= size && size <= GREATEST_SIZE
}

// Counts an image's whole frames and the bytes behind them; or 17 where the image is wrong, or 23 where the size is.
pub fn count_frames(image: &[u8], size: usize) -> Result<FrameCount, Refusal>
    ensures { Counts image.now size result }
{
    check_image(image)?;
    if !size_in_range(size) {
        return refused(Reason::BadSize, 0);
    }
    let len = image.len();
    Ok(FrameCount {
        whole: len / size,
        rest: len % size,
    })
}

// Where the frame of a number from 0 lies, among so many whole ones and a rest; or 24.
fn place_in(count: FrameCount, size: usize, index: usize) -> Result<FramePlace, Refusal>
    requires { count.whole * size < 18446744073709551616 }
    ensures { result ≡ place_in count.whole count.rest size index }
{
    if index < count.whole {
        return Ok(FramePlace {
            start: index * size,
            len: size,
        });
    }
    if index == count.whole && 0 < count.rest {
        return Ok(FramePlace {
            start: index * size,
            len: count.rest,
        });
    }
    refused(Reason::NoFrame, 0)
}

// Finds the frame of a number from 0 in an image: its offset and length; or 17, 23 or 24, in that order.
// Kept: image, size and index one by one, here and at the two below, as C hands them over (include/monkey.h).
pub fn find_frame(image: &[u8], size: usize, index: usize) -> Result<FramePlace, Refusal>
    ensures { Places image.now size index result }
{
    let count = count_frames(image, size)?;
    place_in(count, size, index)
}

// The frame of a number from 0, as a part of the image itself; empty where it refuses, and only there.
// Kept: no `Result` of part or refusal: docs/FORMAT.md answers both, the part empty where it refuses; `find_frame` is the `Result`.
pub fn frame(image: &[u8], size: usize, index: usize) -> &[u8]
    ensures { IsFrame image.entry result size index }
{
    match find_frame(image, size, index) {
        Ok(place) => &image[place.start..place.start + place.len],
        Err(_) => &image[0..0],
    }
}

// Why `frame` refuses the same arguments, where it does.
pub fn frame_refusal(image: &[u8], size: usize, index: usize) -> Option<Refusal>
    ensures { Refuses image.now size index result }
{
    find_frame(image, size, index).err()
}
