// Reads an image from standard input and writes its chin form to standard output; or reads a chin form, which begins with 58, and writes
// its image. A refusal is a sentence on standard error, and standard output stays empty.
#![tactic(auto)]

use bytecode::CHIN_MAIN;
use definition::Refusal;
use report::{IMAGE_MOST, print_at_offset, with_input, write_output};
use std::io;

// Translates an image by its first byte.
fn turn(image: &[u8], output: &mut [u8]) -> Result<usize, Refusal> {
    match image.first() {
        Some(&CHIN_MAIN) => chin::from_chin(image, output),
        _ => chin::to_chin(image, output),
    }
}

// Translates an image, and writes what comes of it.
fn run(rt: &(impl Print + Eprint), image: &[u8]) -> io::Result<()> {
    write_output(
        rt,
        |output| turn(image, output),
        |r| print_at_offset(rt, "turn_image", r, "image"),
    )
}

fn main(rt: HostRuntime) -> io::Result<()> {
    with_input(&rt, &mut [0u8; IMAGE_MOST], |image| run(&rt, image))
}
