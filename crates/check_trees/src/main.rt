// Runs the tree check on recorded cases, and prints for each topic how many agree and how many differ.
#![tactic(auto)]

use definition::Refusal;
use field::{wide, word};
use report::{Counts, as_recorded, open_cases, read_full};
use std::io;
use std::io::Read;
use std::rt::Files;

// Reads a tree and checks it.
fn check_next<R: Read>(reader: &mut R, tree: &mut [u8]) -> io::Result<Result<(), Refusal>> {
    read_full(reader, tree)?;
    Ok(tree::check(tree))
}

// Reads the next case, if there is one, and says whether its tree's check came out as recorded: a number in one byte, a place and the
// tree's length in two each, the tree. The number 0 stands for a good tree, whatever the place.
fn run_case<R: Read>(reader: &mut R) -> io::Result<Option<bool>> {
    let mut head = [0u8; 5];
    if read_full(reader, &mut head)? < 5 {
        return Ok(None);
    }
    let length = word(head[3], head[4]);
    let place = word(head[1], head[2]);
    let mut buffer = [0u8; 65536];
    let checked = check_next(reader, &mut buffer[..length])?;
    Ok(Some(as_recorded(checked.map(|()| place), wide(head[0]), place)))
}

// Runs a topic's cases, at most so many.
fn run_cases<R: Read>(reader: &mut R, most: u64) -> io::Result<Counts> {
    let mut counts = Counts::default();
    for _ in 0..most {
        match run_case(reader)? {
            Some(true) => counts.agree += 1,
            Some(false) => counts.differ += 1,
            None => break,
        }
    }
    Ok(counts)
}

// The cases of the file that a topic names: a line of its counts.
fn run_topic<R: Files + Print + Eprint + Alloc>(rt: &R, topic: &str) -> io::Result<()> {
    let Some(mut reader) = open_cases(rt, topic)? else {
        return Ok(());
    };
    let counts = run_cases(&mut reader, 10000)?;
    println!(rt; "{topic}: {counts}")
}

fn main(rt: HostRuntime) -> io::Result<()> {
    run_topic(&rt, "damaged")?;
    run_topic(&rt, "random-damage")?;
    run_topic(&rt, "boundary")
}
