// Reads an image from standard input, runs its main code with all globals unset, and writes a line for each global up to the highest
// index that main names: its index, its kind and its value, as `0 integer -3`, `1 boolean true`, `2 null`, `3 unset`. The heights are
// proposed here. A refusal or a stop is a sentence on standard error, and standard output stays empty.
#![tactic(auto)]

use report::{IMAGE_MOST, print_in_heights, with_heights, with_input};
use std::io;
use trial::{Value, value_in};

// The global of a cell: its kind in one byte, its word in eight.
fn global_of(cell: &[u8]) -> Option<Value> {
    let (kind, word) = cell.split_first()?;
    value_in(
        u64::from(*kind),
        u64::from_be_bytes(*word.first_chunk::<8>()?),
    )
}

// Writes the lines of the first so many globals.
fn print_globals(rt: &impl Print, output: &[u8], globals: usize) -> io::Result<()> {
    for (index, cell) in output.chunks_exact(9).take(globals).enumerate() {
        match global_of(cell) {
            Some(value) => println!(rt; "{index} {value}")?,
            None => println!(rt; "{index} unset")?,
        }
    }
    Ok(())
}

// Runs main with heights that were proposed.
fn run_main(rt: &(impl Print + Eprint), image: &[u8], heights: &[u32]) -> io::Result<()> {
    let mut work = [0u64; trial::WORK_SIZE];
    let mut output = [0u8; 9216];
    match trial::run(image, heights, &mut work, &mut output) {
        Ok(ran) => print_globals(rt, &output, ran.globals),
        Err(r) => print_in_heights(rt, "run_image", r),
    }
}

// Proposes heights, and runs main with them.
fn run(rt: &(impl Print + Eprint), image: &[u8]) -> io::Result<()> {
    with_heights(rt, "run_image", image, |heights| {
        run_main(rt, image, heights)
    })
}

fn main(rt: HostRuntime) -> io::Result<()> {
    with_input(&rt, &mut [0u8; IMAGE_MOST], |image| run(&rt, image))
}
