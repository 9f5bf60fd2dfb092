// A trial run of an image's main code: its globals afterwards, or why it stops.
#![tactic(auto)]

mod cells;
mod machine;
mod output;
mod pool;
mod scan;

ghost use Rattle.std.specs.Prelude.{◌≡◌, length, replicate};
ghost use Rattle.definition.specs.Bytecode.{Image};
ghost use Rattle.definition.specs.Decode.{read_image};
ghost use Rattle.listing.specs.Reads.{ImageAt};
ghost use Rattle.trial.specs.Cells.{work_size};
ghost use Rattle.trial.specs.Call.{taken_outcome, refused_with, image_outcome, outcome_answer, outcome_into, ChunkToRun};
ghost use Rattle.trial.specs.Promise.{TrialRuns};

use bytecode::{Parts, check_image};
pub use cells::{Value, value_in};
use definition::{Reason, Refusal, refused};
use heights::image::judge;
use listing::sound::SoundImage;
use machine::run_main;
use output::put_globals;
use pool::Program;
use scan::scan;

// How many numbers a work area has.
pub const WORK_SIZE: usize = 4096;

// A trial run that ended well: how many globals it wrote, and the instructions executed.
#[derive(Clone, Copy)]
pub struct Ran {
    pub globals: usize,
    pub steps: usize,
}

// Kept: four parameters, also below. Tried: a struct of three: in `run` it stood open that what it gives back is the caller's output.
// Main of a sound image that passes with its heights, on a cleared work area.
fn run_chunk(
    image: &[u8],
    heights: &[u32],
    work: &mut [u64; WORK_SIZE],
    output: &mut [u8],
) -> Result<Ran, Refusal>
    requires { ChunkToRun image.now heights.now × (work.old ≡ replicate work_size 0) }
    ensures answers { (m : Image) → ImageAt image.now m → result ≡ outcome_answer (taken_outcome (refused_with heights.now m) m (length output.old)) }
    ensures writes { (m : Image) → ImageAt image.now m → output.new ≡ outcome_into (taken_outcome (refused_with heights.now m) m (length output.old)) output.old }
{
    let parts = Parts::of(image);
    let program = Program { parts };
    let globals = scan(program, heights)?;
    if output.len() < 9 * globals {
        return refused(Reason::OutputShort, 0);
    }
    let steps = run_main(work, program)?;
    put_globals(output, work, globals);
    Ok(Ran { globals, steps })
}

// The same of any bytes.
fn run_image(
    image: &[u8],
    heights: &[u32],
    work: &mut [u64; WORK_SIZE],
    output: &mut [u8],
) -> Result<Ran, Refusal>
    requires { work.old ≡ replicate work_size 0 }
    ensures answers { result ≡ outcome_answer (image_outcome (read_image image.now) heights.now (length output.old)) }
    ensures writes { output.new ≡ outcome_into (image_outcome (read_image image.now) heights.now (length output.old)) output.old }
{
    check_image(image)?;
    let sound = SoundImage { bytes: image };
    judge(&mut [0u32; 0], sound, heights)?;
    run_chunk(image, heights, work, output)
}

// The same on a work area of just its size, which is cleared before and after.
fn run_in(
    image: &[u8],
    heights: &[u32],
    work: &mut [u64; WORK_SIZE],
    output: &mut [u8],
) -> Result<Ran, Refusal>
    ensures answers { result ≡ outcome_answer (image_outcome (read_image image.now) heights.now (length output.old)) }
    ensures writes { output.new ≡ outcome_into (image_outcome (read_image image.now) heights.now (length output.old)) output.old }
    ensures clears { work.new ≡ replicate work_size 0 }
{
    work.fill(0);
    let answer = run_image(image, heights, work, output);
    work.fill(0);
    answer
}

// Runs main of an image with the heights offered for it, all globals unset. The output then starts with nine bytes for each global up to
// the highest index that main names. The first 4,096 numbers of the work area are 0 after every answer but number 1.
pub fn run(
    image: &[u8],
    heights: &[u32],
    work: &mut [u64],
    output: &mut [u8],
) -> Result<Ran, Refusal>
    ensures { TrialRuns image.now heights.now work.old output.old result work.new output.new }
{
    match work.first_chunk_mut() {
        Some(work) => run_in(image, heights, work, output),
        None => refused(Reason::ShortBuffer, 0),
    }
}
