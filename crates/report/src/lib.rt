// What the programs share: reading input into a buffer, compiling in a fresh session, the sentences of refusals, and cases as they were
// recorded.
#![tactic(auto)]

mod fresh;
mod input;
mod recorded;

ghost use Rattle.std.specs.Prelude.{◌≡◌, ◌+◌, ◌<◌, ◌≤◌, ℕ, List, length, take, replicate, IfOk, IfErr};
ghost use Rattle.std.specs.Fn.{FnOnceReturns, FnOnceReturnsAtMut};
ghost use Rattle.definition.specs.Answer.{Answer};
ghost use Rattle.std.specs.Io.KnownBytes.{Consumes, IsAtEnd};

use definition::{Reason, Refusal};
pub use fresh::{compile_fresh, write_compiled};
pub use input::{IMAGE_MOST, with_heights, with_input, with_tree};
pub use recorded::{Counts, as_recorded, open_cases};
use std::io;
use std::io::Read;

// Reads until the buffer is full or the input ends: how many bytes then stand at its front.
pub fn read_full<R: Read>(reader: &mut R, buffer: &mut [u8]) -> io::Result<usize>
    ensures bound { IfOk result (λ n. n ≤ length buffer.new) }
    ensures same_length { length buffer.new ≡ length buffer.old }
    ensures bytes { IfOk result (λ n. Consumes (R.remaining reader.old) (R.remaining reader.new) (take n buffer.new)) }
    ensures end { IfOk result (λ n. n < length buffer.new → IsAtEnd (R.remaining reader.new)) }
{
    let mut done = 0;
    // Kept: how much a turn reads is the reader's, so a `for` would need a number of turns, which nothing else names.
    while done < buffer.len() {
        let n = reader.read(&mut buffer[done..])?;
        if n == 0 {
            break;
        }
        done += n;
    }
    Ok(done)
}

// The words of an error's text, without the system's number behind them.
fn words_of(text: &str) -> &str {
    match text.split_once(" (os error ") {
        Some((words, _)) => words,
        None => text,
    }
}

// Writes why a call of the system failed, behind the name of what it was for.
pub fn print_failure<R: Eprint + Alloc>(rt: &R, name: &str, error: &io::Error) -> io::Result<()> {
    let text = format!(in rt.alloc(); "{error}")?;
    let words = words_of(text.as_str());
    eprintln!(rt; "{name}: {words}")
}

// Writes a refusal and its offset in what was read, `tree` or `image`, behind a program's name.
pub fn print_at_offset(
    rt: &impl Eprint,
    program: &str,
    refusal: Refusal,
    whole: &str,
) -> io::Result<()> {
    let Refusal { reason, place } = refusal;
    let number = reason.number();
    eprintln!(rt;
        "{program}: refused with number {number}, {reason}, at offset {place} of the {whole}."
    )
}

// What the place of a refusal counts, where heights are checked.
fn place_word(reason: Reason) -> &'static str {
    match reason {
        Reason::BadHeights => "in chunk",
        Reason::OutputShort => "at",
        _ => "at offset",
    }
}

// Writes a refusal of an image or of its heights, behind a program's name.
pub fn print_in_heights(rt: &impl Eprint, program: &str, refusal: Refusal) -> io::Result<()> {
    let Refusal { reason, place } = refusal;
    let number = reason.number();
    let word = place_word(reason);
    eprintln!(rt; "{program}: refused with number {number}, {reason}, {word} {place}.")
}

// Writes a refusal's number and place alone.
pub fn print_refusal(rt: &impl Print, refusal: Refusal) -> io::Result<()> {
    let number = refusal.reason.number();
    let place = refusal.place;
    println!(rt; "refused {number} {place}")
}

// A line and a column, both from 1.
#[derive(Clone, Copy)]
pub struct Position {
    pub line: usize,
    pub column: usize,
}

// Where an offset of a text stands; one behind its end stands as the end does.
fn position_of(text: &[u8], place: usize) -> Position {
    let before = text.get(..place).unwrap_or(text);
    let newlines = before.iter().filter(|b| **b == b'\n').count();
    let behind = before.iter().rev().take_while(|b| **b != b'\n').count();
    Position {
        line: newlines + 1,
        column: behind + 1,
    }
}

// Writes a refusal and its line and column in a text, behind a program's name. Where the output has room for the longest tree, 15 is a
// longer one.
pub fn print_in_text(
    rt: &impl Eprint,
    program: &str,
    text: &[u8],
    refusal: Refusal,
) -> io::Result<()> {
    let Position { line, column } = position_of(text, refusal.place);
    let number = refusal.reason.number();
    let reason = refusal.reason;
    match reason {
        Reason::OutputShort => eprint!(rt;
            "{program}: refused with number {number}, tree too long"
        )?,
        _ => eprint!(rt; "{program}: refused with number {number}, {reason}")?,
    }
    eprintln!(rt; ", at line {line}, column {column}.")
}

// Writes to standard output what a call puts into an output of 65,536 bytes; or has its refusal printed.
pub fn write_output<
    R: Print,
    F: FnOnce(&mut [u8]) -> Result<usize, Refusal>,
    G: FnOnce(Refusal) -> io::Result<()>,
>(rt: &R, call: F, print: G) -> io::Result<()>
    requires { F.IsAlwaysCallable call × G.IsAlwaysCallable print }
    ensures { (answer : Answer) × (output : List ℕ) × FnOnceReturnsAtMut F.FnOnce call (replicate 65536 0) answer output × IfErr answer (λ r. FnOnceReturns G.FnOnce print (r, tt) result) }
{
    let mut output = [0u8; 65536];
    match call(&mut output) {
        Ok(n) => match output.get(..n) {
            Some(first) => rt.write_all(first),
            None => Ok(()),
        },
        Err(r) => print(r),
    }
}
