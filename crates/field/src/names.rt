// Names in fields one after the other.
ghost use Rattle.std.specs.Prelude.{◌≡◌};
ghost use Rattle.definition.specs.SymbolTable.{same, find_builtin, distinct};
ghost use Rattle.field.specs.Row.{RowOf, found_of};

use super::fields::Fields;
use super::{after_at, content_at};

// Whether two names are the same.
// Kept: tried otherwise: a call on names takes up to a sixth more instructions with `==` of slices, 7 to 13 % over `zip`; the bar is 3 %.
pub fn same_name(x: &[u8], y: &[u8]) -> bool
    ensures { result ≡ same x.now y.now }
{
    if x.len() != y.len() {
        return false;
    }
    for (i, b) in x.iter().enumerate() {
        if *b != y[i] {
            return false;
        }
    }
    true
}

// The first of the fields that has a name.
pub fn find_name(mut fields: Fields<'_>, name: &[u8]) -> Option<usize>
    requires { RowOf fields }
    ensures { (h : RowOf fields.entry) → found_of result ≡ find_builtin name.now h.names 0 }
{
    let bytes = fields.bytes;
    fields.position(|at| same_name(name, content_at(bytes, at)))
}

// Whether no name stands twice among the fields.
pub fn distinct_names(fields: Fields<'_>) -> bool
    requires { RowOf fields }
    ensures { (h : RowOf fields.entry) → result ≡ distinct h.names }
{
    for at in fields {
        let rest = Fields {
            at: after_at(fields.bytes, at),
            ..fields
        };
        if find_name(rest, content_at(fields.bytes, at)).is_some() {
            return false;
        }
    }
    true
}
