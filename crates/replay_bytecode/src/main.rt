// Runs recorded cases of instructions, images, listings and sessions, and writes the answer to each on a line. The file `cases` has a
// question on each line: a word (image, list, decode or start), a space, and bytes in hexadecimal, where `{6100}3.` stands for the bytes
// between the braces three times over; of the bytes 65,536 are kept, and of the word its first letter says what is asked.
// A session's bytes (start) are followed by zeros up to 65,536. A listing's image (list) stands
// behind the length of its output in three bytes; the listing follows its answer. Frames are counted (count) in an image behind a size in
// four bytes, and found (part) in one behind size and number. An image (turn) or a chin form (unturn) behind the length of its output in
// three bytes is translated, and the answer has the bytes.
#![tactic(auto)]

ghost use Rattle.std.specs.Prelude.{◌<◌, IfSome};

use definition::{Reason, Refusal};
use opcode::Instruction;
use report::{print_failure, print_refusal};
use std::io::Read;
use std::{fs, io};

// Write a number with a space before it.
fn write_number(rt: &impl Print, n: usize) -> io::Result<()> {
    print!(rt; " {n}")
}

// Write a decoded instruction's line: its byte, its operands and its length.
fn write_instruction(rt: &impl Print, i: Instruction, size: usize) -> io::Result<()> {
    rt.print("ok")?;
    write_number(rt, field::wide(i.op))?;
    if size > 1 {
        write_number(rt, i.operand as usize)?;
    }
    if size > 3 {
        write_number(rt, field::wide(i.captures))?;
    }
    write_number(rt, size)?;
    rt.println("")
}

// Write what the check of an image answered: into an empty output no listing fits, so that 15 says that the image is sound.
fn write_check(rt: &impl Print, refusal: Refusal) -> io::Result<()> {
    match refusal.reason {
        Reason::OutputShort => rt.println("ok"),
        _ => print_refusal(rt, refusal),
    }
}

// Answer a question on the image check: the call that checks and lists, with an empty output.
fn answer_image(rt: &impl Print, image: &[u8]) -> io::Result<()> {
    let mut none: [u8; 1] = [0];
    match listing::list_image(image, &mut none[..0]) {
        Ok(n) => write_number(rt, n),
        Err(r) => write_check(rt, r),
    }
}

// The number that four bytes hold.
fn number_of(bytes: [u8; 4]) -> usize {
    u32::from_be_bytes(bytes) as usize
}

// Answer a question that wants an output: the output's length in three bytes, then what a function turns into it, whose bytes another
// writes.
fn answer_turned<
    R: Print,
    T: Fn(&[u8], &mut [u8]) -> Result<usize, Refusal>,
    W: Fn(&R, &[u8]) -> io::Result<()>,
>(rt: &R, bytes: &[u8], turn: T, write: W) -> io::Result<()>
    requires { T.IsAlwaysCallable turn × W.IsAlwaysCallable write }
{
    let Some(([a, b, c], image)) = bytes.split_first_chunk::<3>() else {
        return Ok(());
    };
    let mut output = [0u8; 65536];
    let Some(part) = output.get_mut(..number_of([0, *a, *b, *c])) else {
        return Ok(());
    };
    match turn(image, part) {
        Ok(n) => write(rt, part.get(..n).unwrap_or(part)),
        Err(r) => print_refusal(rt, r),
    }
}

// Write a listing behind its answer's line.
fn write_listing<R: Print>(rt: &R, listing: &[u8]) -> io::Result<()> {
    rt.println("ok")?;
    rt.write_all(listing)
}

// Answer a question on decoding.
fn answer_decode(rt: &impl Print, code: &[u8]) -> io::Result<()> {
    match opcode::decode(code) {
        Ok(found) => write_instruction(rt, found.instruction, found.after),
        Err(r) => print_refusal(rt, r),
    }
}

// Answer a question on a session's layout.
fn answer_session(rt: &impl Print, session: &[u8]) -> io::Result<()> {
    match bytecode::read_layout(session) {
        Some(_) => rt.println("ok"),
        None => print_refusal(
            rt,
            Refusal {
                reason: Reason::NoSession,
                place: 0,
            },
        ),
    }
}

// Write the line of two numbers.
fn write_two(rt: &impl Print, first: usize, second: usize) -> io::Result<()> {
    rt.print("ok")?;
    write_number(rt, first)?;
    write_number(rt, second)?;
    rt.println("")
}

// Answer a question on the count of frames: the size, then the image.
fn answer_count(rt: &impl Print, bytes: &[u8]) -> io::Result<()> {
    let Some((size, image)) = bytes.split_first_chunk::<4>() else {
        return Ok(());
    };
    match frames::count_frames(image, number_of(*size)) {
        Ok(count) => write_two(rt, count.whole, count.rest),
        Err(r) => print_refusal(rt, r),
    }
}

// Write where a frame lies and how long the part is that was given; or the refusal, and whether a part was given all the same.
fn show_part(rt: &impl Print, image: &[u8], size: usize, index: usize) -> io::Result<()> {
    let part = frames::frame(image, size, index);
    let len = part.len();
    if let Some(refusal) = frames::frame_refusal(image, size, index) {
        print_refusal(rt, refusal)?;
        if len != 0 {
            rt.println("a part was given")?;
        }
        return Ok(());
    }
    match frames::find_frame(image, size, index) {
        Ok(place) => write_two(rt, place.start, len),
        Err(_) => rt.println("no frame was found"),
    }
}

// Answer a question on a frame: the size, its number, then the image.
fn answer_part(rt: &impl Print, bytes: &[u8]) -> io::Result<()> {
    let Some((size, rest)) = bytes.split_first_chunk::<4>() else {
        return Ok(());
    };
    let Some((index, image)) = rest.split_first_chunk::<4>() else {
        return Ok(());
    };
    show_part(rt, image, number_of(*size), number_of(*index))
}

// Write the line of a translation's bytes.
fn write_bytes<R: Print>(rt: &R, bytes: &[u8]) -> io::Result<()> {
    rt.print("ok ")?;
    for b in bytes {
        print!(rt; "{b:02x}")?;
    }
    rt.println("")
}

// Answer a line's question, by the first letter of its word, on its first `length` bytes; a session is all of them.
fn answer<R: Print>(rt: &R, bytes: &[u8; 65536], kind: u8, length: usize) -> io::Result<()> {
    let Some(asked) = bytes.get(..length) else {
        return Ok(());
    };
    match kind {
        b'i' => answer_image(rt, asked),
        b'l' => answer_turned(rt, asked, listing::list_image, write_listing::<R>),
        b'd' => answer_decode(rt, asked),
        b's' => answer_session(rt, bytes),
        b'c' => answer_count(rt, asked),
        b'p' => answer_part(rt, asked),
        b't' => answer_turned(rt, asked, chin::to_chin, write_bytes::<R>),
        _ => answer_turned(rt, asked, chin::from_chin, write_bytes::<R>),
    }
}

// The value of a hexadecimal digit, if it is one.
fn digit(b: u8) -> Option<u8>
    ensures { IfSome result (λ d. d < 16) }
{
    match b {
        b'0'..=b'9' => Some(b - b'0'),
        b'a'..=b'f' => Some(b - b'a' + 10),
        _ => None,
    }
}

// Where reading stands in a line: its first letter, whether its bytes have begun, how many there are, the digit that waits for a second
// one, where the last group began, and, behind its brace, how often it is to stand.
// Kept: no `String` and no `Vec` of a file and its lines: the bytes that are kept of a line have one bound, whatever the file asks for.
#[derive(Clone, Copy, Default)]
struct Line {
    kind: u8,
    begun: bool,
    length: usize,
    high: Option<u8>,
    group: usize,
    times: Option<usize>,
}

impl Line {
    // Read a byte of the line's first word.
    fn read_word(&mut self, b: u8) {
        if b == b' ' {
            self.begun = true;
        } else if self.kind == 0 {
            self.kind = b;
        }
    }

    // Put a byte behind the others, if there is room.
    fn put(&mut self, bytes: &mut [u8; 65536], b: u8) {
        if let Some(place) = bytes.get_mut(self.length) {
            *place = b;
            self.length += 1;
        }
    }

    // Put the bytes from the group's beginning on behind the others, so that they stand so many times, as far as there is room.
    fn repeat(&mut self, bytes: &mut [u8; 65536], times: usize) {
        let size = self.length.saturating_sub(self.group);
        let more = size.saturating_mul(times.saturating_sub(1));
        let end = self.length.saturating_add(more).min(bytes.len());
        for k in self.length..end {
            bytes[k] = bytes[k - size];
        }
        self.length = end;
    }

    // Read a byte of a group's count.
    fn read_count(&mut self, bytes: &mut [u8; 65536], times: usize, b: u8) {
        if b == b'.' {
            self.times = None;
            self.repeat(bytes, times);
        } else if times < 65536 {
            self.times = Some(times * 10 + digit(b).map_or(16, usize::from));
        }
    }

    // Read a byte of the line's bytes.
    fn read_byte(&mut self, bytes: &mut [u8; 65536], b: u8) {
        match (b, digit(b), self.high) {
            (b'{', _, _) => self.group = self.length,
            (b'}', _, _) => self.times = Some(0),
            (_, Some(low), Some(high)) => {
                self.high = None;
                self.put(bytes, high % 16 * 16 + low % 16);
            }
            (_, Some(high), None) => self.high = Some(high),
            _ => {}
        }
    }

    // Read a byte of the cases; at a line's end its question is answered, and the next line begins.
    fn read<R: Print>(&mut self, rt: &R, bytes: &mut [u8; 65536], b: u8) -> io::Result<()> {
        if b == b'\n' {
            if let Some(rest) = bytes.get_mut(self.length..) {
                rest.fill(0);
            }
            answer(rt, bytes, self.kind, self.length)?;
            *self = Line::default();
            return Ok(());
        }
        match self.times {
            _ if !self.begun => self.read_word(b),
            Some(times) => self.read_count(bytes, times, b),
            None => self.read_byte(bytes, b),
        }
        Ok(())
    }
}

// Read a whole file of cases, and answer each line as it ends. Nothing says that a file ends, so the turns are counted.
fn read_all<R: Read>(rt: &impl Print, reader: &mut R, bytes: &mut [u8; 65536]) -> io::Result<()> {
    let mut line = Line::default();
    let mut part = [0u8; 4096];
    for _ in 0..u64::MAX {
        let n = reader.read(&mut part)?;
        if n == 0 {
            break;
        }
        for b in &part[..n] {
            line.read(rt, bytes, *b)?;
        }
    }
    Ok(())
}

fn main(rt: HostRuntime) -> io::Result<()> {
    let path = "cases";
    match fs::open(&rt, path) {
        Ok(mut file) => read_all(&rt, &mut file, &mut [0u8; 65536]),
        Err(e) => print_failure(&rt, path, &e),
    }
}
