// The marks of an open function's part: by them a lookup of a builtin or a global passes the function's table over.
// Kept: a part that is written is a slice, as in `enclosed`: a struct of it would say in each promise that its slice is the same.
ghost use Rattle.std.specs.Prelude.{◌≡◌, false, ◌+◌, ◌<◌, ◌≤◌, length, get_or};
ghost use Rattle.symbol_table.specs.Layout.{part_size, marked_at, marks_at, base, part, IsMarked};
ghost use Rattle.symbol_table.specs.Store.{mark_in};
ghost use Rattle.symbol_table.specs.Lookups.{Opened, IsKnown, MarksEntries, Lacks};
ghost use Rattle.symbol_table.specs.Contract.{Inside, SameBelow, BeginsMarks, MarksNext, code_or};

use super::enclosed::{Part, part_range};
use super::layout::{CODE_UNIT, ENTRIES_AT, MARKED_AT, MARKS, MARKS_AT, SHORT};
use super::name::Key;
use super::query::{Known, Query};

// No mark is set; the numbers before the marks stay.
fn clear_marks(part: &mut [u32])
    requires { length part.old ≡ part_size }
    ensures { SameBelow marks_at part.old part.new }
{
    part[MARKS_AT..].fill(0);
}

// The mark of a code is set.
fn mark(part: &mut [u32], code: u32)
    requires { length part.old ≡ part_size }
    ensures { part.new ≡ mark_in part.old code }
{
    let k = code % MARKS;
    let at = MARKS_AT + (k / 32) as usize;
    let one: u32 = 1;
    let v = part[at] | (one << (k % 32));
    part[at] = v;
}

// Whether the mark of a code is set.
fn is_marked(part: Part<'_>, code: u32) -> bool
    ensures { result ≡ false → IsMarked part.entry.numbers.now code → ⊥ }
{
    let k = code % MARKS;
    let v = part.numbers[MARKS_AT + (k / 32) as usize];
    (v >> (k % 32)) % 2 == 1
}

// How many entries are marked. Before the first, the marks are cleared.
fn begin_marks(part: &mut [u32]) -> u32
    requires { length part.old ≡ part_size }
    ensures value { result ≡ get_or part.old marked_at 0 }
    ensures begins_marks { BeginsMarks part.old part.new }
{
    let m = part[MARKED_AT];
    if m == 0 {
        clear_marks(part);
    }
    m
}

// One entry more is marked, with the code of the builtin or the global of its name, if there is one.
fn mark_next(part: &mut [u32], code: Option<u32>)
    requires part_len { length part.old ≡ part_size }
    requires marked_at_bound { get_or part.old marked_at 0 < 1024 }
    ensures { MarksNext (code_or code) part.old part.new }
{
    let m = begin_marks(part);
    part[MARKED_AT] = m + 1;
    if let Some(code) = code {
        mark(part, code);
    }
}

// The same in the part of the function at a level.
fn next_at(table: &mut [u32], level: usize, code: Option<u32>)
    requires part_size_in_bounds { base level + part_size ≤ length table.old }
    requires marked_at_bound { get_or (part level table.old) marked_at 0 < 1024 }
    ensures { Inside (MarksNext (code_or code)) level table.old table.new }
{
    mark_next(&mut table[part_range(level)], code);
}

// The entries of the function at a level are marked, those that are not yet.
fn mark_entries(query: &Query, table: &mut [u32], level: usize)
    requires { Opened query.now level table.old }
    ensures { MarksEntries query.now level table.old table.new }
{
    let part = Part::of(table, level);
    let from = part.numbers[MARKED_AT] as usize;
    let n = part.entries();
    // Kept: by index: each turn lends the whole table to look a name up and to mark it, so no part can be lent over the turns.
    for i in from..n {
        let name = (Part::of(table, level).numbers[ENTRIES_AT + i] % CODE_UNIT) as usize;
        let other = Query {
            key: Key::new(query.key.tree, name),
            names: query.names,
        };
        let code = other.code_outermost(table);
        next_at(table, level, code);
    }
}

// Whether the function at a level surely has no entry of the name of a builtin or a global.
pub fn is_absent(query: &Query, table: &mut [u32], level: usize, known: Known) -> bool
    requires opened { Opened query.now level table.old }
    requires known { IsKnown query.now table.old known }
    ensures { Lacks query.now level known result table.old table.new }
{
    let Known::Code(code) = known else {
        return false;
    };
    if Part::of(table, level).entries() <= SHORT {
        return false;
    }
    mark_entries(query, table, level);
    !is_marked(Part::of(table, level), code)
}
