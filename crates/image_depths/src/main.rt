// Reads an image from standard input and writes the greatest height of the stack in each chunk, a line each: `main 3`, and `function 4 2`
// for the function at index 4 of the pool. The heights are proposed here and then checked. A refusal is a sentence on standard error, and
// standard output stays empty.
#![tactic(auto)]

use bytecode::{Parts, Span};
use report::{IMAGE_MOST, print_in_heights, with_heights, with_input};
use std::io;

// Writes the line of each function among the constants of a pool, with the greatest heights in their order.
fn print_functions(rt: &impl Print, pool: Span<'_>, tops: &[u32]) -> io::Result<()> {
    let constants = pool.constants().enumerate();
    let functions = constants.filter(|(_, constant)| constant.function().is_some());
    for ((index, _), top) in functions.zip(tops) {
        println!(rt; "function {index} {top}")?;
    }
    Ok(())
}

// Writes the line of each chunk of an image that passed.
fn print_depths(rt: &impl Print, image: &[u8], tops: &[u32]) -> io::Result<()> {
    let Some((main, functions)) = tops.split_first() else {
        return Ok(());
    };
    if image.len() < 3 {
        return Ok(());
    }
    println!(rt; "main {main}")?;
    print_functions(rt, Parts::of(image).pool, functions)
}

// Checks the heights that were proposed. An image has at most 4,096 functions besides main.
fn check(rt: &(impl Print + Eprint), image: &[u8], heights: &[u32]) -> io::Result<()> {
    let mut tops = [0u32; 4097];
    match heights::check_heights(image, heights, &mut tops) {
        Ok(_) => print_depths(rt, image, &tops),
        Err(r) => print_in_heights(rt, "image_depths", r),
    }
}

// Proposes heights, and checks them.
fn run(rt: &(impl Print + Eprint), image: &[u8]) -> io::Result<()> {
    with_heights(rt, "image_depths", image, |heights| {
        check(rt, image, heights)
    })
}

fn main(rt: HostRuntime) -> io::Result<()> {
    with_input(&rt, &mut [0u8; IMAGE_MOST], |image| run(&rt, image))
}
