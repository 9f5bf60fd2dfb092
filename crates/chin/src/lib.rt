// Images in the chin unit's form, and back.
#![tactic(auto)]

mod operand;
mod row;

ghost use Rattle.std.specs.Prelude.{◌≡◌, length};
ghost use Rattle.definition.specs.Bytecode.{Image};
ghost use Rattle.definition.specs.Number.{refusal, bad_jump};
ghost use Rattle.chin.specs.Chin.{translate as translated, to_chin, from_chin};
ghost use Rattle.chin.specs.Promise.{Turns};
ghost use Rattle.chin.specs.Rows.{jump_of, other_form, ImageAt, HasImage, TurnsImage, Copied};

use bytecode::{Form, check_form};
use definition::{Reason, Refusal, refused};
use operand::other_form;
use row::Turning;

// The offset of the first jump that has no operand in the other form.
#[derive(Clone, Copy)]
struct BadJump {
    place: usize,
}

// Such an image is refused with number 26.
impl From<BadJump> for Refusal {
    ghost from_gives = { λ wrong r. r ≡ refusal bad_jump wrong.place };

    fn from(wrong: BadJump) -> Refusal {
        Refusal {
            reason: Reason::BadJump,
            place: wrong.place,
        }
    }
}

// Turns the copy of a sound image at the front of the output into the other form, up to a jump that has no operand there. Where the output
// is empty it only looks for one.
// Kept: output, image and form one by one, here and at the two below, as C lends them: a `Turning` is made of the part that is turned.
fn put_form(output: &mut [u8], image: &[u8], from: Form) -> Result<(), BadJump>
    requires { HasImage from image.now }
    ensures { (m : Image) → ImageAt from image.now m → TurnsImage from m image.now output.old output.new result }
{
    let mut turning = Turning {
        output,
        image,
        from,
    };
    turning.turn_image()
}

// Writes the other form of a sound image whose jumps have operands there; or 15.
fn write_form(image: &[u8], output: &mut [u8], from: Form) -> Result<usize, Refusal>
    requires { HasImage from image.now }
    ensures { (m : Image) → ImageAt from image.now m → Copied from m output.old result output.new }
{
    let len = image.len();
    if output.len() < len {
        return refused(Reason::OutputShort, 0);
    }
    output[..len].copy_from_slice(image);
    let _ = put_form(output, image, from);
    Ok(len)
}

// Translates an image of one form into the other: its length; or 17, 26 or 15, and the output stays.
fn translate(image: &[u8], output: &mut [u8], from: Form) -> Result<usize, Refusal>
    ensures { Turns (translated from (other_form from) (jump_of from) image.now) output.old result output.new }
{
    check_form(image, from)?;
    put_form(&mut output[..0], image, from)?;
    write_form(image, output, from)
}

// An image into the chin form: its length, which is the image's; or 17, 26 or 15, and the output stays.
pub fn to_chin(image: &[u8], output: &mut [u8]) -> Result<usize, Refusal>
    ensures { Turns (to_chin image.now) output.old result output.new }
{
    translate(image, output, Form::Plain)
}

// The chin form back into an image, likewise.
pub fn from_chin(image: &[u8], output: &mut [u8]) -> Result<usize, Refusal>
    ensures { Turns (from_chin image.now) output.old result output.new }
{
    translate(image, output, Form::Chin)
}
