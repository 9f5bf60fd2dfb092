// The table of an open function, in its part of the area.
// Kept: a part is a slice. Tried: `&mut [u32; PART_SIZE]` by `first_chunk_mut`: the proof of what comes back to the area did not close.
ghost use Rattle.std.specs.Prelude.{◌≡◌, ◌+◌, ◌^◌, ◌<◌, ◌≤◌, min, length, get_or, take, drop};
ghost use Rattle.definition.specs.Limit.{tree_limit, locals_limit, free_limit};
ghost use Rattle.definition.specs.SymbolTable.{find};
ghost use Rattle.field.specs.Layout.{len};
ghost use Rattle.symbol_table.specs.Layout.{part_size, entries_at, originals_at, base, part, entries, table_of, Sized, GoodTable};
ghost use Rattle.symbol_table.specs.Store.{entered_in, entry_in, local_in, free_in};
ghost use Rattle.symbol_table.specs.Contract.{hit_of, PassedOver, Few, Crosses, DefinesLocal, HasParams, Params, Opens};

use super::layout::{
    CAPTURES, CODE_UNIT, CODES, ENTRIES_AT, FREE, FUNCTION, GLOBALS_SIZE, LOCAL, LOCALS, MARKED_AT,
    ORIGINALS_AT, PART_SIZE, TAG_UNIT,
};
use super::name::{Key, Label, Name};
use super::{DefineError, Found, LookupError, Slot, Symbol};
use field::content_at;
use field::fields::Fields;
use field::names::same_name;
use std::ops::Range;

// Where the part of the function at a level stands.
pub fn part_range(level: usize) -> Range<usize>
    requires { base level + part_size < 2 ^ 64 }
    ensures start { result.start ≡ base level }
    ensures end { result.end ≡ base level + part_size }
{
    let start = GLOBALS_SIZE + PART_SIZE * level;
    start..start + PART_SIZE
}

// The part of an open function, which is read.
#[derive(Clone, Copy)]
pub struct Part<'a> {
    pub numbers: &'a [u32],
    pub ghost size: { length numbers.now ≡ part_size },
}

// Kept: where a part is written, its range stands at the call. Tried: `part_mut`, whose clause on what comes back did not close.
impl<'a> Part<'a> {
    // That of the function at a level.
    pub fn of(table: &'a [u32], level: usize) -> Self
        requires { base level + part_size ≤ length table.now }
        ensures { result.numbers.now ≡ part level table.now }
    {
        Part {
            numbers: &table[part_range(level)],
        }
    }

    // Its entries.
    pub fn entries(self) -> usize
        ensures { result ≡ entries self.entry.numbers.now }
    {
        self.numbers[0] as usize + self.numbers[1] as usize + self.numbers[2] as usize
    }

    // Its definitions.
    pub fn definitions(self) -> usize
        ensures { result ≡ get_or self.entry.numbers.now 1 0 }
    {
        self.numbers[1] as usize
    }

    // How many originals it has captured.
    pub fn captures(self) -> usize
        ensures { result ≡ get_or self.entry.numbers.now 2 0 }
    {
        self.numbers[2] as usize
    }

    // The codes of originals, as many as it can capture; those that it has captured stand first.
    pub fn originals(self) -> &'a [u32]
        ensures { result.now ≡ take free_limit (drop originals_at self.entry.numbers.now) }
    {
        &self.numbers[ORIGINALS_AT..ORIGINALS_AT + CAPTURES as usize]
    }
}

// How many of the first so many entries are left once those behind the latest with a tag are passed over: 0 where none has it.
// Kept: as `for` over `(0..from).rev()` chosen names take up to 7 % more instructions, as an `Option` index nested functions 3.4 %: over
// the bar of 3 %.
fn tagged_below(part: &[u32], from: usize, tag: usize) -> usize
    requires { entries_at + from ≤ length part.now }
    ensures { PassedOver part.now from tag result }
{
    let mut k = from;
    while k > 0 {
        let v = part[ENTRIES_AT + (k - 1)];
        if (v / TAG_UNIT) as usize == tag {
            return k;
        }
        k -= 1;
    }
    k
}

// The latest entry of a name in a table. Those whose tag is another are passed over in a loop of their own, which looks at no name.
// Kept: each turn goes on where a search ended; as an iterator the same search would stand in a struct with its invariant.
// Never inlined: its loop has the registers to itself.
#[inline(never)]
pub fn find_in(name: &Name, tree: &[u8], part: Part<'_>) -> Option<u32>
    requires { GoodTable tree.now part.numbers.now }
    ensures { hit_of result ≡ find name.now.bytes.now (table_of tree.now part.entry.numbers.now).entries }
{
    let tag = name.hash % 128;
    let mut k = tagged_below(part.numbers, part.entries(), tag);
    while k > 0 {
        k -= 1;
        let v = part.numbers[ENTRIES_AT + k];
        if same_name(name.bytes, content_at(tree, (v % CODE_UNIT) as usize)) {
            return Some(v / CODE_UNIT % CODES);
        }
        k = tagged_below(part.numbers, k, tag);
    }
    None
}

// A table as its function is entered, with the function's name if that has bytes.
fn enter_in(part: &mut [u32], key: &Key)
    requires { length part.old ≡ part_size }
    ensures { part.new ≡ entered_in part.old key.now.at key.now.name.hash (len key.now.tree.now key.now.at) }
{
    let own = field::length_at(key.tree, key.at).min(1) as u32;
    let v = key.label().entry(FUNCTION);
    part[MARKED_AT] = 0;
    part[0] = own;
    part[1] = 0;
    part[2] = 0;
    part[ENTRIES_AT] = v;
}

// An entry more, with its symbol's code.
// Kept: `Sized` in clauses, here and below. Tried: a struct that holds it: each method needs a clause `same` instead, or what comes back
// stays open.
fn push_entry(part: &mut [u32], label: Label, code: u32)
    requires sized { Sized part.old }
    requires code { code < 1024 }
    ensures { part.new ≡ entry_in part.old label.at label.hash code }
{
    let n = Part { numbers: part }.entries();
    part[ENTRIES_AT + n] = label.entry(code);
}

// A definition more: its index.
fn define_in(part: &mut [u32], label: Label) -> u32
    requires sized { Sized part.old }
    requires part_bound { get_or part.old 1 0 < locals_limit }
    ensures value { result ≡ get_or part.old 1 0 }
    ensures part_after { part.new ≡ local_in part.old label.at label.hash }
{
    let d = part[1];
    push_entry(part, label, LOCAL + d);
    part[1] = d + 1;
    d
}

// A free symbol more, for the code of its original: its own code.
fn capture_in(part: &mut [u32], label: Label, code: u32) -> u32
    requires sized { Sized part.old }
    requires part_bound { get_or part.old 2 0 < free_limit }
    ensures value { result ≡ 512 + get_or part.old 2 0 }
    ensures part_after { part.new ≡ free_in part.old label.at label.hash code }
{
    let f = part[2];
    push_entry(part, label, FREE + f);
    part[ORIGINALS_AT + f as usize] = code;
    part[2] = f + 1;
    FREE + f
}

// A lookup comes back through a function, one more crossed: its own name, a local or a free symbol becomes a free symbol there.
pub fn cross_in(
    part: &mut [u32],
    label: Label,
    outer: Result<Found, LookupError>,
) -> Result<Found, LookupError>
    requires sized { Sized part.old }
    requires few { Few outer }
    ensures { Crosses label.at label.hash outer result part.old part.new }
{
    let found = outer?;
    let crossed = found.crossed + 1;
    if let Symbol::Builtin(_) | Symbol::Global(_) = Symbol::from(found.code) {
        return Ok(Found {
            code: found.code,
            crossed,
        });
    }
    if CAPTURES <= part[2] {
        return Err(LookupError::Full);
    }
    let code = capture_in(part, label, found.code);
    Ok(Found { code, crossed })
}

// A definition more, if there is room.
pub fn place_in(part: &mut [u32], label: Label) -> Result<Slot, DefineError>
    requires { Sized part.old }
    ensures { DefinesLocal label.at label.hash result part.old part.new }
{
    let n = part[1];
    if LOCALS <= n {
        return Err(DefineError::LocalsFull);
    }
    let d = define_in(part, label);
    Ok(Slot::Local(d))
}

// The definitions of a function's parameters, its first.
fn define_params(params: Fields<'_>, part: &mut [u32])
    requires tree_len_bound { length params.bytes.now ≤ tree_limit }
    requires good_table { GoodTable params.bytes.now part.old }
    requires none { get_or part.old 1 0 ≡ 0 }
    requires params { HasParams params.bytes.now params.at params.end }
    ensures { (h : HasParams params.entry.bytes.now params.entry.at params.entry.end) → Params params.entry.bytes.now h.row.names part.old part.new }
{
    for at in params {
        define_in(part, Key::new(params.bytes, at).label());
    }
}

// A table as its function is opened: its name, then its parameters, the fields from an offset up to an end.
pub fn open_in(part: &mut [u32], key: &Key, from: usize, end: usize)
    requires tree_len_bound { length key.now.tree.now ≤ tree_limit }
    requires part_len { length part.old ≡ part_size }
    requires params { HasParams key.now.tree.now from end }
    ensures { (h : HasParams key.now.tree.now from end) → Opens key.now.tree.now key.now.at h.row.names part.new }
{
    enter_in(part, key);
    define_params(Fields::new(key.tree, from, end), part);
}
