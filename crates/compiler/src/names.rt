// Appending the names that a tree defined to those of the session.
ghost use Rattle.std.specs.Prelude.{◌≡◌, ◌+◌, ◌≤◌, length, get_or, take, drop};
ghost use Rattle.std.proofs.lemmas.List.Edits.{sets};
ghost use Rattle.definition.specs.Session.{name_bytes};
ghost use Rattle.symbol_table.specs.Layout.{global_name};
ghost use Rattle.compiler.specs.Names.{Appends, HasName, later_fields, LaterNames};

use definition::tag;
use field::{content_at, length_at};
use session::write;
use symbol_table::{NamePlace, count_globals, global_names};

// Appends the name of a global, by its number in the table area. The offset behind it.
fn append_name(session: &mut [u8], tree: &[u8], v: u32, at: usize) -> usize
    requires { HasName tree.now session.old at v }
    ensures { (h : HasName tree.now session.old at v) → Appends (name_bytes (global_name tree.now (take h.names session.old) v)) at session.old session.new result }
{
    match NamePlace::from(v) {
        NamePlace::Session(own) => {
            let n = length_at(session, own);
            write::put_head(session, at, tag::NAME, n);
            session.copy_within(own + 3..own + 3 + n, at + 3);
            at + (3 + n)
        }
        NamePlace::Tree(offset) => {
            let name = content_at(tree, offset);
            write::put_field(session, at, tag::NAME, name);
            at + (3 + name.len())
        }
    }
}

// Appends the names of the globals from an index on, behind the session's own. The offset behind them.
pub fn append_names(session: &mut [u8], tree: &[u8], table: &[u32], from: usize, at: usize) -> usize
    requires later_names { LaterNames tree.now (take at session.old) table.now from (get_or table.now 0 0) }
    requires table_in_bounds { at + length (later_fields tree.now (take at session.old) table.now from (get_or table.now 0 0)) ≤ length session.old }
    ensures { Appends (later_fields tree.now (take at session.old) table.now from (get_or table.now 0 0)) at session.old session.new result }
{
    let mut end = at;
    for v in &global_names(table)[from..count_globals(table)] {
        end = append_name(session, tree, *v, end);
    }
    end
}
