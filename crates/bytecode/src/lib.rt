// Images and sessions on bytes: whether they are sound, and where a session's parts lie.
#![tactic(auto)]

mod code;
pub mod constants;
mod field_head;
mod item_check;
mod section;
mod span;
mod zero;

ghost use Rattle.std.specs.Prelude.{◌≡◌, length};
ghost use Rattle.definition.specs.Basic.{byte_at};
ghost use Rattle.definition.specs.Number.{refusal, bad_image};
ghost use Rattle.definition.specs.Decode.{read_image, read_name_field, read_name_fields, read_words, read_handed};
ghost use Rattle.bytecode.specs.Form.{tag_main_in, tag_function_in, read_const_in, read_pool_in, read_form};
ghost use Rattle.bytecode.specs.Checked.{item, checked, name_fields, main_code, image_answer, is_read, layout_of, WordsEnd, LaysOut};

use code::check_code;
use definition::{Reason, Refusal, limit, tag};
use field::fields::Fields;
use field::names::distinct_names;
pub use field_head::Head;
use item_check::Items;
pub use section::Section;
pub use span::{Parts, Span};
use zero::all_zero;

// The tags of the chin unit's main code and functions.
// Kept: named bytes, no enum, as `definition::tag` has them: images that callers lend hold any byte, and functions take it as it stands.
pub const CHIN_MAIN: u8 = 0x58;

pub const CHIN_FUNCTION: u8 = 0x63;

// The forms of an image: document 01's, and the chin unit's.
#[derive(Clone, Copy)]
pub enum Form {
    Plain,
    Chin,
}

// The tags of a form: its main code's, and its functions'.
#[derive(Clone, Copy)]
pub struct Tags {
    pub main: u8,
    pub function: u8,
}

impl Form {
    // The tags of this form.
    pub fn tags(self) -> Tags
        ensures main { result.main ≡ tag_main_in self }
        ensures function { result.function ≡ tag_function_in self }
    {
        match self {
            Form::Plain => Tags {
                main: tag::MAIN,
                function: tag::FUNCTION_CONST,
            },
            Form::Chin => Tags {
                main: CHIN_MAIN,
                function: CHIN_FUNCTION,
            },
        }
    }
}

// The offset of the first thing that is wrong.
#[derive(Clone, Copy)]
pub struct Malformed {
    pub place: usize,
}

// An image that is wrong there is refused with number 17.
impl From<Malformed> for Refusal {
    ghost from_gives = { λ wrong r. r ≡ refusal bad_image wrong.place };

    fn from(wrong: Malformed) -> Refusal {
        Refusal {
            reason: Reason::BadImage,
            place: wrong.place,
        }
    }
}

// Where a session's parts lie: its words end, its names end, its pool ends, and how many names and constants there are.
#[derive(Clone, Copy)]
pub struct SessionLayout {
    pub words_end: usize,
    pub names_end: usize,
    pub pool_end: usize,
    pub names: usize,
    pub constants: usize,
}

impl<'a> Section<'a> {
    // Check the constant that it begins with: the offset after it.
    fn check_constant(self, form: Form) -> Result<usize, Malformed>
        ensures { result ≡ item (read_const_in form (byte_at self.entry.span.bytes.now) self.entry.span.start self.entry.span.end) }
    {
        let head = self.head_where(|head| head.is_constant(form))?;
        let content = self.behind(head);
        if head.tag != form.tags().function {
            return Ok(content.span.end);
        }
        check_code(content.from(content.span.start + 3))
    }

    // Check the pool that it begins with: how many constants it has, and the offset after it.
    fn check_pool(self, form: Form) -> Result<Items, Malformed>
        ensures { result ≡ checked (read_pool_in form (byte_at self.entry.span.bytes.now) self.entry.span.start self.entry.span.end) }
    {
        let head = self.head_where(|head| head.is_pool())?;
        self.behind(head)
            .check_items(limit::CONSTANTS_LIMIT, |rest| rest.check_constant(form))
    }

    // Check the name that it begins with: the offset after it.
    fn check_name(self) -> Result<usize, Malformed>
        ensures { result ≡ item (read_name_field (byte_at self.entry.span.bytes.now) self.entry.span.start self.entry.span.end) }
    {
        let head = self.head_where(|head| head.is_name())?;
        Ok(self.span.start + 3 + head.len)
    }

    // Check that names, at most so many, fill it.
    fn check_name_fields(self, most: usize) -> Result<Items, Malformed>
        ensures { result ≡ checked (name_fields (byte_at self.entry.span.bytes.now) most self.entry.span.start self.entry.span.end) }
    {
        self.check_items(most, |rest| rest.check_name())
    }

    // Check the field of names that it begins with, of a tag, and at most so many.
    fn check_names(self, tag: u8, most: usize) -> Result<Items, Malformed>
        ensures { result ≡ checked (read_name_fields (byte_at self.entry.span.bytes.now) tag most self.entry.span.start self.entry.span.end) }
    {
        let head = self.head_where(|head| head.tag == tag)?;
        self.behind(head).check_name_fields(most)
    }
}

// Check an image's main code: the offset after it.
fn check_main(image: &[u8], form: Form) -> Result<usize, Malformed>
    ensures { result ≡ item (main_code (byte_at image.now) form (length image.now)) }
{
    let whole = Section::whole(image);
    let head = whole.head_where(|head| head.is_main(form))?;
    check_code(whole.behind(head))
}

// Check an image of a form: how many constants it has; or 17 at its first wrong field or instruction.
pub fn check_form(image: &[u8], form: Form) -> Result<usize, Refusal>
    ensures { result ≡ image_answer (read_form form image.now) }
{
    let at = check_main(image, form)?;
    let pool = Section::whole(image).from(at).check_pool(form)?;
    if pool.end != image.len() {
        return Err(Refusal::from(Malformed { place: pool.end }));
    }
    Ok(pool.count)
}

// Check an image.
pub fn check_image(image: &[u8]) -> Result<usize, Refusal>
    ensures { result ≡ image_answer (read_image image.now) }
{
    check_form(image, Form::Plain)
}

// Check a session's words: its own, where it begins with their tag. The offset after them.
fn check_words(session: &[u8]) -> Result<usize, Malformed>
    ensures { result ≡ item (read_words (byte_at session.now) 0 (length session.now)) }
{
    if session.first() != Some(&tag::WORDS) {
        return Ok(0);
    }
    let words = Section::whole(session).check_names(tag::WORDS, limit::WORDS_LIMIT)?;
    if distinct_names(Fields::new(session, 3, words.end)) {
        return Ok(words.end);
    }
    Err(Malformed { place: words.end })
}

// Whether bytes that are handed over are the name fields of a list of words.
pub fn words_stand(names: &[u8]) -> bool
    ensures { result ≡ is_read (read_handed names.now) }
{
    match Section::whole(names).check_name_fields(limit::WORDS_LIMIT) {
        Ok(words) => distinct_names(Fields::new(names, 0, words.end)),
        Err(_) => false,
    }
}

// Read what is behind a session's words: its names, its pool, and zeros up to the end.
fn read_behind(session: &[u8], start: usize) -> Option<SessionLayout>
    requires { WordsEnd session.now start }
    ensures { result ≡ layout_of session.now }
{
    let whole = Section::whole(session);
    let names = whole
        .from(start)
        .check_names(tag::NAMES, limit::GLOBALS_LIMIT)
        .ok()?;
    let pool = whole.from(names.end).check_pool(Form::Plain).ok()?;
    if all_zero(&session[pool.end..]) {
        return Some(SessionLayout {
            words_end: start,
            names_end: names.end,
            pool_end: pool.end,
            names: names.count,
            constants: pool.count,
        });
    }
    None
}

// Read a session's layout: its words, its names, its pool, and zeros up to the end.
pub fn read_layout(session: &[u8]) -> Option<SessionLayout>
    ensures { LaysOut session.now result }
{
    let words_end = check_words(session).ok()?;
    read_behind(session, words_end)
}
