// A lookup: a name that is sought, from inside so many open functions outward.
ghost use Rattle.std.specs.Prelude.{◌+◌, ◌≤◌, length};
ghost use Rattle.symbol_table.specs.Layout.{part_size, base, part, Sized};
ghost use Rattle.symbol_table.specs.Contract.{Few, Inside, Crosses};
ghost use Rattle.symbol_table.specs.Lookups.{Outside, Opened, Standing, IsKnown, HasCode, IsOutermost, IsEntry, Remarks, IsResolved};

use super::enclosed::{Part, cross_in, find_in, part_range};
use super::globals::find_global;
use super::layout::{GLOBALS_SIZE, PART_SIZE, SHORT};
use super::marks::is_absent;
use super::name::{Key, Label};
use super::words::find_builtin;
use super::{Found, LookupError};

// The name sought, and the session's bytes before its pool, which have its words and its global names.
#[derive(Clone, Copy)]
pub struct Query<'a> {
    pub key: Key<'a>,
    pub names: &'a [u8],
}

// What is known of a name outside all functions: it was not looked for, it is not there, or the code of its builtin or global.
// Kept: the code, by which a mark of the lent area is found: a `Symbol` would be turned back into it at each function that is looked at.
#[derive(Clone, Copy)]
pub enum Known {
    Unasked,
    Absent,
    Code(u32),
}

// A lookup comes back through the function at a level.
fn cross_at(
    table: &mut [u32],
    level: usize,
    label: Label,
    outer: Result<Found, LookupError>,
) -> Result<Found, LookupError>
    requires part_size_in_bounds { base level + part_size ≤ length table.old }
    requires sized { Sized (part level table.old) }
    requires few { Few outer }
    ensures { Inside (Crosses label.at label.hash outer result) level table.old table.new }
{
    cross_in(&mut table[part_range(level)], label, outer)
}

// What its methods need of the area is said once, in `Outside`, `Opened` and `Standing`.
// Kept: clauses: a ghost field is to be a proposition, and these are none, since they hold a search's way, of which there may be two.
impl<'a> Query<'a> {
    // The latest entry of the name in the table of the function at a level.
    fn find_at(&self, table: &[u32], level: usize) -> Option<u32>
        requires { Opened self.now level table.now }
        ensures { IsEntry self.now level table.now result }
    {
        find_in(&self.key.name, self.key.tree, Part::of(table, level))
    }

    // The global or the builtin of the name: outside all functions, globals come before builtins.
    #[inline(always)]
    pub fn find_outermost(&self, table: &[u32]) -> Result<Found, LookupError>
        requires { Outside self.now table.now }
        ensures { IsOutermost self.now table.now result }
    {
        if let Some(code) = find_global(
            &self.key.name,
            self.key.tree,
            self.names,
            &table[..GLOBALS_SIZE],
        ) {
            return Ok(Found { code, crossed: 0 });
        }
        if let Some(code) = find_builtin(self.names, self.key.name.bytes) {
            return Ok(Found { code, crossed: 0 });
        }
        Err(LookupError::Undefined)
    }

    // The same, where the name's code may be known.
    fn resolve_outermost(&self, table: &[u32], known: Known) -> Result<Found, LookupError>
        requires outside { Outside self.now table.now }
        requires known { IsKnown self.now table.now known }
        ensures { IsOutermost self.now table.now result }
    {
        if let Known::Code(code) = known {
            return Ok(Found { code, crossed: 0 });
        }
        self.find_outermost(table)
    }

    // The code of the name's builtin or global, where there is one.
    pub fn code_outermost(&self, table: &[u32]) -> Option<u32>
        requires { Outside self.now table.now }
        ensures { HasCode self.now table.now result }
    {
        self.find_outermost(table).ok().map(|found| found.code)
    }

    // What is known of the name outside all functions, which is asked where it is of use in the table of the function at a level.
    fn known_for(&self, table: &[u32], level: usize, known: Known) -> Known
        requires opened { Opened self.now level table.now }
        requires known { IsKnown self.now table.now known }
        ensures { IsKnown self.now table.now result }
    {
        let Known::Unasked = known else {
            return known;
        };
        if Part::of(table, level).entries() <= SHORT {
            return known;
        }
        match self.code_outermost(table) {
            Some(code) => Known::Code(code),
            None => Known::Absent,
        }
    }

    // The same as `find_at`, but the table is passed over where its marks show that the name is not there.
    fn look_at(&self, table: &mut [u32], level: usize, known: Known) -> Option<u32>
        requires opened { Opened self.now level table.old }
        requires known { IsKnown self.now table.old known }
        ensures entry { IsEntry self.now level table.old result }
        ensures inside { Remarks self.now level table.old table.new }
    {
        if is_absent(self, table, level, known) {
            return None;
        }
        self.find_at(table, level)
    }

    // The name's symbol, seen from inside so many open functions: outward one function at a time, capturing on the way back.
    pub fn resolve(
        &self,
        table: &mut [u32],
        level: usize,
        known: Known,
    ) -> Result<Found, LookupError>
        requires standing { Standing self.now level table.old }
        requires known { IsKnown self.now table.old known }
        ensures { IsResolved self.now level result table.old table.new }
    {
        if level == 0 {
            return self.resolve_outermost(table, known);
        }
        let l = level - 1;
        let outside = self.known_for(table, l, known);
        if let Some(code) = self.look_at(table, l, outside) {
            return Ok(Found { code, crossed: 0 });
        }
        let outer = self.resolve(&mut table[..GLOBALS_SIZE + PART_SIZE * l], l, outside);
        cross_at(table, l, self.key.label(), outer)
    }
}
