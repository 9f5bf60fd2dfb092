// Makes the tree of each seed from 0 to 999, compiles each in a fresh session, and writes a line for each: the seed, the length of its
// tree, and the number of the refusal, 0 where the tree is accepted.
#![tactic(auto)]

use definition::limit::SESSION_SIZE;
use load::TREE_MOST;
use report::compile_fresh;
use std::io;

// The number of seeds.
const SEEDS: u32 = 1000;

// The number of the refusal of a tree, 0 where it is accepted.
fn outcome(tree: &[u8]) -> u64 {
    let mut output = [0u8; SESSION_SIZE];
    compile_fresh(tree, &mut output)
        .err()
        .map_or(0, |refusal| refusal.reason.number())
}

// Writes the line of a seed. A tree always fits.
fn print_seed_line(rt: &impl Print, seed: u32) -> io::Result<()> {
    let mut lent = [0u8; TREE_MOST];
    let Ok(length) = load::make_tree(seed, &mut lent) else {
        return Ok(());
    };
    let Some(tree) = lent.get(..length) else {
        return Ok(());
    };
    let number = outcome(tree);
    println!(rt; "{seed} {length} {number}")
}

fn main(rt: HostRuntime) -> io::Result<()> {
    for seed in 0..SEEDS {
        print_seed_line(&rt, seed)?;
    }
    Ok(())
}
