// Replays recorded compile calls: series over one session, compared byte by byte with what was recorded.
#![tactic(auto)]

ghost use Rattle.std.specs.Prelude.{◌<◌, IfOk};

use definition::limit::{CODE_SIZE, SESSION_SIZE, TABLE_SIZE};
use definition::{Reason, Refusal};
use field::{wide, word};
use report::{Counts, as_recorded, open_cases, read_full};
use std::io;
use std::io::Read;
use std::rt::Files;

// What a record holds.
#[derive(Clone, Copy)]
enum Record {
    // A fresh session.
    Fresh = 1,
    // A session of its own.
    Own = 2,
    // A call.
    Call = 3,
    // The session as it must be.
    Session = 4,
    // A session made in a part of the buffer.
    Made = 5,
    // A call in parts of the buffers.
    CallInParts = 6,
    // A session made with words.
    MadeWithWords = 7,
}

// A number that is no record's.
#[derive(Clone, Copy)]
struct NoRecord;

impl TryFrom<usize> for Record {
    type Error = NoRecord;

    fn try_from(number: usize) -> Result<Self, NoRecord> {
        match number {
            1 => Ok(Record::Fresh),
            2 => Ok(Record::Own),
            3 => Ok(Record::Call),
            4 => Ok(Record::Session),
            5 => Ok(Record::Made),
            6 => Ok(Record::CallInParts),
            7 => Ok(Record::MadeWithWords),
            _ => Err(NoRecord),
        }
    }
}

// The lengths of the session's buffer and of the work areas that are lent.
#[derive(Clone, Copy)]
struct Sizes {
    session: usize,
    code: usize,
    table: usize,
}

// The next bytes of the records, with zeros behind their end.
fn read_array<R: Read, const N: usize>(reader: &mut R) -> io::Result<[u8; N]> {
    let mut bytes = [0u8; N];
    read_full(reader, &mut bytes)?;
    Ok(bytes)
}

// One byte as a number.
// Kept: three, here and below, each by the pattern of its bytes: one over N would ask that N is at most 8, and shift in a loop.
fn read_byte<R: Read>(reader: &mut R) -> io::Result<usize>
    ensures { IfOk result (λ n. n < 256) }
{
    let [low] = read_array::<R, 1>(reader)?;
    Ok(wide(low))
}

// Two bytes as a number.
fn read_word<R: Read>(reader: &mut R) -> io::Result<usize>
    ensures { IfOk result (λ n. n < 65536) }
{
    let [high, low] = read_array::<R, 2>(reader)?;
    Ok(word(high, low))
}

// Three bytes as a number.
fn read_long<R: Read>(reader: &mut R) -> io::Result<usize> {
    let [high, middle, low] = read_array::<R, 3>(reader)?;
    Ok(u32::from_be_bytes([0, high, middle, low]) as usize)
}

// So many bytes of the records.
// Kept: the length beside the buffer, since the records tell it, and it may be more than there is room for.
fn read_part<R: Read>(reader: &mut R, buffer: &mut [u8], length: usize) -> io::Result<()> {
    if let Some(part) = buffer.get_mut(..length) {
        read_full(reader, part)?;
    }
    Ok(())
}

// Whether all numbers of an area are the same as one.
fn all_are<T: Copy + PartialEq>(area: &[T], number: T) -> bool {
    area.iter().all(|n| *n == number)
}

// Compiles a tree in parts of these lengths, if the buffers are as long.
// Kept: the slices one by one, as `compile` takes them.
fn compile_in(
    session: &mut [u8],
    tree: &[u8],
    output: &mut [u8],
    code: &mut [u8],
    table: &mut [u32],
    sizes: Sizes,
) -> Option<Result<usize, Refusal>> {
    let session = session.get_mut(..sizes.session)?;
    let code = code.get_mut(..sizes.code)?;
    let table = table.get_mut(..sizes.table)?;
    Some(compiler::compile(session, tree, output, code, table))
}

// A call: the output's length in three bytes, the tree, the outcome, the image of an accepted tree. Number 1 leaves the work areas as
// they were; any other outcome has them zeroed.
fn run_call<R: Read>(
    reader: &mut R,
    session: &mut [u8; SESSION_SIZE],
    sizes: Sizes,
) -> io::Result<bool> {
    let lend = read_long(reader)?;
    let length = read_word(reader)?;
    let mut tree = [0u8; 65536];
    read_part(reader, &mut tree, length)?;
    let number = read_byte(reader)?;
    let value = read_word(reader)?;
    let mut expected = [0xA5u8; SESSION_SIZE];
    if number == 0 {
        read_part(reader, &mut expected, value)?;
    }
    if SESSION_SIZE < lend {
        return Ok(false);
    }
    let before = *session;
    let mut output = [0xA5u8; SESSION_SIZE];
    let mut code = [0x5Au8; CODE_SIZE];
    let mut table = [7u32; TABLE_SIZE];
    let Some(answer) = compile_in(
        session,
        &tree[..length],
        &mut output[..lend],
        &mut code,
        &mut table,
        sizes,
    ) else {
        return Ok(false);
    };
    let kept = answer.is_ok() | (before == *session);
    let areas = match answer {
        Err(
            Refusal {
                reason: Reason::ShortBuffer,
                ..
            },
        ) => { all_are(&code, 0x5A) & all_are(&table, 7) }
        _ => all_are(&code, 0) & all_are(&table, 0),
    };
    Ok(as_recorded(answer, number, value) & (output == expected) & kept & areas)
}

// Buffers of the full lengths.
fn full_sizes() -> Sizes {
    Sizes {
        session: SESSION_SIZE,
        code: CODE_SIZE,
        table: TABLE_SIZE,
    }
}

// The lengths of the buffers, in three bytes each.
fn read_sizes<R: Read>(reader: &mut R) -> io::Result<Sizes> {
    let session = read_long(reader)?;
    let code = read_long(reader)?;
    let table = read_long(reader)?;
    Ok(Sizes {
        session,
        code,
        table,
    })
}

// What a call makes of the first so many bytes, if there are as many; where there are not, its outcome counts as a length of 0.
fn make_in<F: Fn(&mut [u8]) -> Result<usize, Refusal>>(
    session: &mut [u8],
    size: usize,
    make: F,
) -> Option<Result<usize, Refusal>>
    requires { F.IsAlwaysCallable make }
{
    Some(make(session.get_mut(..size)?))
}

// Making a session: the length of its buffer, the outcome.
fn run_make<R: Read>(reader: &mut R, session: &mut [u8; SESSION_SIZE]) -> io::Result<bool> {
    let size = read_long(reader)?;
    let number = read_byte(reader)?;
    let value = read_long(reader)?;
    let answer = make_in(session, size, compiler::make_session);
    Ok(as_recorded(answer.unwrap_or(Ok(0)), number, value))
}

// Making a session with words: the length of its buffer, the name fields, the outcome.
fn run_make_words<R: Read>(reader: &mut R, session: &mut [u8; SESSION_SIZE]) -> io::Result<bool> {
    let size = read_long(reader)?;
    let length = read_word(reader)?;
    let mut names = [0u8; 65536];
    read_part(reader, &mut names, length)?;
    let number = read_byte(reader)?;
    let value = read_long(reader)?;
    let words = &names[..length];
    let answer = make_in(session, size, |part| {
        compiler::make_session_words(part, words)
    });
    Ok(as_recorded(answer.unwrap_or(Ok(0)), number, value))
}

// Reads a session: its first bytes, and zeros after them.
// Kept: into a session that is lent: one that is answered by value is zeroed and copied for each record, which takes twice the time.
fn read_session<R: Read>(reader: &mut R, session: &mut [u8; SESSION_SIZE]) -> io::Result<()> {
    let length = read_word(reader)?;
    session.fill(0);
    read_part(reader, session, length)
}

// Whether the session is the one that is read.
fn check_session<R: Read>(reader: &mut R, session: &[u8; SESSION_SIZE]) -> io::Result<bool> {
    let mut expected = [0u8; SESSION_SIZE];
    read_session(reader, &mut expected)?;
    Ok(expected == *session)
}

// Runs a record: whether it agrees; none of what lies between two calls.
fn run_record<R: Read>(
    reader: &mut R,
    session: &mut [u8; SESSION_SIZE],
    record: Record,
) -> io::Result<Option<bool>> {
    match record {
        Record::Fresh => {
            let _ = compiler::make_session(session);
            Ok(None)
        }
        Record::Own => {
            read_session(reader, session)?;
            Ok(None)
        }
        Record::Call => Ok(Some(run_call(reader, session, full_sizes())?)),
        Record::Session => Ok(Some(check_session(reader, session)?)),
        Record::Made => Ok(Some(run_make(reader, session)?)),
        Record::CallInParts => {
            let sizes = read_sizes(reader)?;
            Ok(Some(run_call(reader, session, sizes)?))
        }
        Record::MadeWithWords => Ok(Some(run_make_words(reader, session)?)),
    }
}

// What the next record holds; none at the end, and where its number is no record's.
fn next_record<R: Read>(reader: &mut R) -> io::Result<Option<Record>> {
    let mut number = [0u8; 1];
    match read_full(reader, &mut number)? {
        0 => Ok(None),
        _ => Ok(Record::try_from(wide(number[0])).ok()),
    }
}

// Runs the records of a file up to the first number that is no record's: how many agree and how many differ.
fn run_records<R: Read>(reader: &mut R, most: u64) -> io::Result<Counts> {
    let mut session = [0u8; SESSION_SIZE];
    let mut counts = Counts::default();
    for _ in 0..most {
        let Some(record) = next_record(reader)? else {
            break;
        };
        match run_record(reader, &mut session, record)? {
            Some(true) => counts.agree += 1,
            Some(false) => counts.differ += 1,
            None => {}
        }
    }
    Ok(counts)
}

// The records of the file that a topic names: a line of their counts.
// Kept: beside that of `check_trees`, whose line begins behind the opening of its file, and whose every case agrees or differs.
fn run_topic<R: Files + Print + Eprint + Alloc>(rt: &R, topic: &str) -> io::Result<()> {
    print!(rt; "{topic}: ")?;
    let Some(mut reader) = open_cases(rt, topic)? else {
        return Ok(());
    };
    let counts = run_records(&mut reader, 100000)?;
    println!(rt; "{counts}")
}

// The topics, in the order of their lines.
const TOPICS: [&str; 18] = [
    "hand",
    "wrong-turns",
    "symbols",
    "enclosing-names",
    "branches",
    "operators",
    "series",
    "output-short",
    "refused-in-the-middle",
    "random-series",
    "random-damage",
    "damaged",
    "session-broken",
    "boundary",
    "short-buffers",
    "alike",
    "words",
    "compared",
];

fn main(rt: HostRuntime) -> io::Result<()> {
    for topic in TOPICS {
        run_topic(&rt, topic)?;
    }
    Ok(())
}
