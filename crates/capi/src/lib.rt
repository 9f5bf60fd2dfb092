// What a C program links: each function answers one 64-bit number. include/monkey.h declares them.
#![tactic(auto)]

ghost use Rattle.std.specs.Prelude.{◌≡◌, ◌<◌, length};
ghost use Rattle.compiler.specs.Stage.{lent_of};
ghost use Rattle.exported.specs.Packed.{Fits, Packs, MakesPacked, WordsPacked, CompilesPacked, ListsPacked, LoadsPacked, ReadsPacked};
ghost use Rattle.chin.specs.Chin.{to_chin, from_chin};
ghost use Rattle.exported.specs.Named.{NamesPacked};
ghost use Rattle.exported.specs.Turned.{TurnsPacked};
ghost use Rattle.exported.specs.Shaped.{ShapesPacked};
ghost use Rattle.exported.specs.Heights.{ChecksPacked, ProposesPacked};
ghost use Rattle.exported.specs.Framed.{pair_answer, refusal_answer, CountsPacked, PlacesPacked, RefusesPacked};
ghost use Rattle.exported.specs.Trial.{RunsPacked};
ghost use Rattle.exported.specs.Token.{numbers_answer, numbers_into, TokenPacked};
ghost use Rattle.text.specs.Next.{three_of};

use definition::{Reason, Refusal, refused};
use text::NextToken;

// What the numbers of a half are below: 2 to the 32nd.
const HALF_BOUND: u64 = 4294967296;

// What the two numbers of a pair are below: 2 to the 16th.
const QUARTER_BOUND: usize = 65536;

// An answer as one number: a length; or a refusal's number in the high half and its place in the low one.
// Kept: halves of a number, here and in `pair`, since C is answered one of 64 bits (include/monkey.h).
fn pack(answer: Result<usize, Refusal>) -> u64
    requires { Fits answer }
    ensures { Packs answer result }
{
    match answer {
        Ok(n) => n as u64,
        Err(r) => r.reason.number() * HALF_BOUND + r.place as u64,
    }
}

// Two numbers as one length, the first above the low 16 bits; or the refusal.
fn pair(answer: Result<(usize, usize), Refusal>) -> Result<usize, Refusal>
    requires { Fits (pair_answer answer) }
    ensures { result ≡ pair_answer answer }
{
    let (first, second) = answer?;
    Ok(first * QUARTER_BOUND + second)
}

// Makes a fresh session of document 01's two fields.
#[unsafe(no_mangle)]
pub extern "C" fn monkey_make_session(session: &mut [u8]) -> u64
    ensures { MakesPacked session.old result session.new }
{
    let answer = compiler::make_session(session);
    pack(answer)
}

// Makes a session with words, handed over as name fields; or refuses: 1, then 19.
#[unsafe(no_mangle)]
pub extern "C" fn monkey_make_session_words(session: &mut [u8], names: &[u8]) -> u64
    ensures { WordsPacked session.old names.now result session.new }
{
    let answer = compiler::make_session_words(session, names);
    pack(answer)
}

// Compiles a tree in a session, and leaves image, session and zeroed work areas; or refuses it.
#[unsafe(no_mangle)]
pub extern "C" fn monkey_compile(
    session: &mut [u8],
    tree: &[u8],
    output: &mut [u8],
    code: &mut [u8],
    table: &mut [u32],
) -> u64
    ensures { CompilesPacked tree.now (lent_of session.old output.old code.old table.old) result (lent_of session.new output.new code.new table.new) }
{
    let answer = compiler::compile(session, tree, output, code, table);
    pack(answer)
}

// Compiles a tree as `monkey_compile` does, and writes how each of its names was resolved, four numbers for each Identifier in walk
// order: count × 65,536 + the image's length; or a refusal, 18 among them, and the numbers stay.
// Kept: the slices one by one, here and at `monkey_compile`, as C lends them (include/monkey.h).
#[unsafe(no_mangle)]
pub extern "C" fn monkey_compile_names(
    session: &mut [u8],
    tree: &[u8],
    output: &mut [u8],
    code: &mut [u8],
    table: &mut [u32],
    names: &mut [u32],
) -> u64
    ensures { NamesPacked tree.now (lent_of session.old output.old code.old table.old) names.old result (lent_of session.new output.new code.new table.new) names.new }
{
    let named = names::compile_names(session, tree, output, code, table, names);
    let answer = pair(named.map(|t| (t.count, t.length)));
    pack(answer)
}

// Checks an image and lists it as text: the listing's length; or 17 and the place, or 15 where the output is too short, and the output
// stays. An empty output is always too short, so that 15 says there that the image is sound.
#[unsafe(no_mangle)]
pub extern "C" fn monkey_list_image(image: &[u8], output: &mut [u8]) -> u64
    ensures { ListsPacked image.now output.old result output.new }
{
    let answer = listing::list_image(image, output);
    pack(answer)
}

// What a frame's refusal answers, or that there is none.
fn refusal_answer(refusal: Option<Refusal>) -> Result<usize, Refusal>
    ensures { result ≡ refusal_answer refusal }
{
    refusal.map_or(Ok(0), Err)
}

// Counts the whole frames of an image and the bytes behind them: whole × 65,536 + rest; or 17 and the place, or 23.
#[unsafe(no_mangle)]
pub extern "C" fn monkey_count_frames(image: &[u8], size: usize) -> u64
    ensures { CountsPacked image.now size result }
{
    let counted = frames::count_frames(image, size);
    let answer = pair(counted.map(|c| (c.whole, c.rest)));
    pack(answer)
}

// Finds the frame of a number from 0: offset × 65,536 + length; or 17 and the place, 23, or 24.
#[unsafe(no_mangle)]
pub extern "C" fn monkey_frame(image: &[u8], size: usize, number: usize) -> u64
    ensures { PlacesPacked image.now size number result }
{
    let found = frames::find_frame(image, size, number);
    let answer = pair(found.map(|p| (p.start, p.len)));
    pack(answer)
}

// Why `monkey_frame` refuses the same arguments: 17 and the place, 23, or 24; 0 where it does not.
#[unsafe(no_mangle)]
pub extern "C" fn monkey_frame_refusal(image: &[u8], size: usize, number: usize) -> u64
    ensures { RefusesPacked image.now size number result }
{
    let answer = refusal_answer(frames::frame_refusal(image, size, number));
    pack(answer)
}

// Translates an image into the chin form: its length; or 17 or 26 and the place, or 15, and the output stays.
#[unsafe(no_mangle)]
pub extern "C" fn monkey_to_chin(image: &[u8], output: &mut [u8]) -> u64
    ensures { TurnsPacked (to_chin image.now) output.old result output.new }
{
    let answer = chin::to_chin(image, output);
    pack(answer)
}

// Translates the chin form back into an image, likewise.
#[unsafe(no_mangle)]
pub extern "C" fn monkey_from_chin(image: &[u8], output: &mut [u8]) -> u64
    ensures { TurnsPacked (from_chin image.now) output.old result output.new }
{
    let answer = chin::from_chin(image, output);
    pack(answer)
}

// Writes the tree of a seed to the output: its length; or 15 where the output is too short, and the output stays.
#[unsafe(no_mangle)]
pub extern "C" fn monkey_load_tree(seed: u32, output: &mut [u8]) -> u64
    ensures { LoadsPacked seed output.old result output.new }
{
    let answer = load::make_tree(seed, output);
    pack(answer)
}

// Checks the heights offered for an image: how many greatest heights stand at the front of the output; or 17 and the place, 25 and the
// first chunk that fails, or 15, and the output stays.
#[unsafe(no_mangle)]
pub extern "C" fn monkey_check_heights(image: &[u8], heights: &[u32], output: &mut [u32]) -> u64
    ensures { ChecksPacked image.now heights.now output.old result output.new }
{
    let answer = heights::check_heights(image, heights, output);
    pack(answer)
}

// Proposes heights for an image: how many stand at the front of the list; or 17 and the place, or 15, and the list stays.
#[unsafe(no_mangle)]
pub extern "C" fn monkey_propose_heights(image: &[u8], heights: &mut [u32]) -> u64
    ensures { ProposesPacked image.now heights.old result heights.new }
{
    let answer = heights::propose_heights(image, heights);
    pack(answer)
}

// Runs main of an image with the heights offered for it: globals × 65,536 + steps, and nine bytes for each global at the front of the
// output; or 1, 17 and the place, 25 and the chunk, 27 and the offset, 15, 28 or 29 and the offset, and the output stays. The work area's
// first 4,096 numbers are 0 then, except after 1.
#[unsafe(no_mangle)]
pub extern "C" fn monkey_run(
    image: &[u8],
    heights: &[u32],
    work: &mut [u64],
    output: &mut [u8],
) -> u64
    ensures { RunsPacked image.now heights.now work.old output.old result work.new output.new }
{
    let ran = trial::run(image, heights, work, output);
    let answer = pair(ran.map(|r| (r.globals, r.steps)));
    pack(answer)
}

// Reads a script in text form and writes its tree to the output: its length; or 20 or 21 and the place in the text, 4 or 15, and the
// output stays.
#[unsafe(no_mangle)]
pub extern "C" fn monkey_read_text(text: &[u8], output: &mut [u8]) -> u64
    ensures { ReadsPacked text.now output.old result output.new }
{
    let answer = text::read_text(text, output);
    pack(answer)
}

// Writes the shape of a tree to the output: its length, which is the tree's; or 3 or 4 and the place in the tree, or 15, and the output
// stays.
#[unsafe(no_mangle)]
pub extern "C" fn monkey_write_shape(tree: &[u8], output: &mut [u8]) -> u64
    ensures { ShapesPacked tree.now output.old result output.new }
{
    let answer = shape::write_shape(tree, output);
    pack(answer)
}

// Writes a token's start, length and kind at the front of a list: how many numbers; or why there is no token, or 15.
fn put_token(next: Result<NextToken, Refusal>, numbers: &mut [u32]) -> Result<usize, Refusal>
    ensures answer { result ≡ numbers_answer (three_of next) (length numbers.old) }
    ensures output { numbers.new ≡ numbers_into (three_of next) numbers.old }
{
    let token = next?;
    if numbers.len() < 3 {
        return refused(Reason::OutputShort, 0);
    }
    numbers[..3].copy_from_slice(&[token.start as u32, token.len as u32, token.kind.number()]);
    Ok(3)
}

// Finds the token that is next from an offset of a text on: 3, and its start, length and kind stand at the front of the list; or 20 or 21
// and the place in the text, or 15, and the list stays.
#[unsafe(no_mangle)]
pub extern "C" fn monkey_next_token(text: &[u8], at: usize, token: &mut [u32]) -> u64
    ensures { TokenPacked text.now at token.old result token.new }
{
    let answer = put_token(text::next_token(text, at), token);
    pack(answer)
}
