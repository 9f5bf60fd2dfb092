// The pass over a tree's names: symbol tables alone, and a record in the log for each Identifier.
ghost use Rattle.std.specs.Prelude.{◌≡◌, ◌+◌, ◌-◌, ◌≤◌, length, take};
ghost use Rattle.definition.specs.Limit.{session_size, code_size, table_size};
ghost use Rattle.definition.specs.Walk.{walk_stmt, walk_expr};
ghost use Rattle.tree.specs.Check.{Good, verdict};
ghost use Rattle.definition.specs.Tree.{read_tree};
ghost use Rattle.tree.specs.Reads.{Some};
ghost use Rattle.symbol_table.specs.Contract.{HasWords, HasItems};
ghost use Rattle.walk.specs.Parts.{Let, Infix, Function};
ghost use Rattle.records.specs.Naming.{naming};
ghost use Rattle.trace.specs.Pass.{is_parent, walk_node, walk_nodes, ReadsNode, ReadsNodes, PassesTree};
ghost use Rattle.trace.specs.Namer.{Stands, StandsAt, Names, NamesAt, NamesRow, LogsAt};

use super::log::put_entry;
use definition::limit::{ARGUMENTS_LIMIT, NESTING_LIMIT};
use definition::operator::LESS_THAN;
use definition::tag;
use field::Field;
use field::fields::Fields;
use symbol_table::{Key, define, enter, resolve_name, start_from};
use tree::count_fields;

// Whether the names of a field of a tag are those of its children, in order.
fn has_children(t: u8) -> bool
    ensures { result ≡ is_parent t }
{
    matches!(
        t,
        tag::EXPR_STMT
            | tag::BLOCK
            | tag::RETURN
            | tag::PREFIX
            | tag::IF
            | tag::CALL
            | tag::ARRAY
            | tag::INDEX
            | tag::HASH
    )
}

// What a pass is lent: the table area, and the log with so many records.
#[derive(Drop)]
struct Namer<'a> {
    table: &'a mut [u32],
    log: &'a mut [u8],
    count: usize,
}

// Kept: names and level apart, the rest as clauses: in a struct each promise would say that the names are as they were; the level differs.
impl<'a> Namer<'a> {
    // Looks an Identifier up, and logs its record.
    fn log_identifier(&mut self, field: Field<'_>, names: &[u8], level: usize)
        requires standing { Stands field.bytes.now names.now level self.old 4 }
        ensures { LogsAt field.entry names.now level self.old self.new }
    {
        let key = Key::new(field.bytes, field.at);
        if let Ok(found) = resolve_name(key, names, self.table, level) {
            put_entry(self.log, self.count, field.at, found);
            self.count += 1;
        }
    }

    // Logs the records of what stands at a field.
    #[cycle(pass)]
    fn name_field(&mut self, field: Field<'_>, names: &[u8], level: usize)
        requires some { Some (ReadsNode field.bytes.now field.at) }
        requires standing { StandsAt field names.now level self.old }
        ensures { NamesAt field.entry ReadsNode walk_node names.now level self.old self.new }
    {
        match field.bytes[field.at] {
            tag::IDENTIFIER => self.log_identifier(field, names, level),
            tag::LET => self.name_let(field, names, level),
            tag::FUNCTION => self.name_function(field, names, level),
            tag::INFIX => self.name_infix(field, names, level),
            t if has_children(t) => self.name_row(field.children(), names, level),
            _ => {}
        }
    }

    // Logs the records of fields in a row.
    #[cycle(pass)]
    fn name_row(&mut self, fields: Fields<'_>, names: &[u8], level: usize)
        requires some { Some (ReadsNodes fields.bytes.now fields.at fields.end) }
        requires standing { Stands fields.bytes.now names.now level self.old (fields.end - fields.at) }
        ensures { NamesRow fields.entry names.now level self.old self.new }
    {
        for at in fields {
            let field = Field {
                bytes: fields.bytes,
                at,
            };
            self.name_field(field, names, level);
        }
    }

    // A let: its name is defined before its value.
    #[cycle(pass)]
    fn name_let(&mut self, field: Field<'_>, names: &[u8], level: usize)
        requires some { Some (Let field.bytes.now field.at) }
        requires standing { StandsAt field names.now level self.old }
        ensures { NamesAt field.entry Let (walk_stmt naming) names.now level self.old self.new }
    {
        let name = field.first();
        let _ = define(Key::new(name.bytes, name.at), self.table, level);
        self.name_row(field.children(), names, level)
    }

    // An infix: for `<` its right operand comes first.
    #[cycle(pass)]
    fn name_infix(&mut self, field: Field<'_>, names: &[u8], level: usize)
        requires some { Some (Infix field.bytes.now field.at) }
        requires standing { StandsAt field names.now level self.old }
        ensures { NamesAt field.entry Infix (walk_expr naming) names.now level self.old self.new }
    {
        let left = field.first();
        let op = left.next();
        if field.bytes[op.at + 3] == LESS_THAN {
            self.name_field(op.next(), names, level);
            return self.name_field(left, names, level);
        }
        self.name_row(field.children(), names, level)
    }

    // A function: its body, with a table of its own.
    #[cycle(pass)]
    fn name_function(&mut self, field: Field<'_>, names: &[u8], level: usize)
        requires some { Some (Function field.bytes.now field.at) }
        requires standing { StandsAt field names.now level self.old }
        ensures { NamesAt field.entry Function (walk_expr naming) names.now level self.old self.new }
    {
        let name = field.first();
        let params = name.next();
        let body = params.next();
        let row = params.children();
        let k = count_fields(row);
        if NESTING_LIMIT <= level || ARGUMENTS_LIMIT < k {
            return;
        }
        let key = Key::new(name.bytes, name.at);
        enter(key, self.table, level, row.at, row.end);
        self.name_field(body, names, level + 1);
    }

    // Logs the records of a whole tree; the slices are those that were lent.
    fn name_statements(&mut self, tree: &[u8], names: &[u8])
        requires some { Some (ReadsNodes tree.now 3 (length tree.now)) }
        requires standing { Stands tree.now names.now 0 self.old (length tree.now - 3) }
        ensures named { Names tree.now names.now 0 (ReadsNodes tree.now 3 (length tree.now)) walk_nodes (length tree.now - 3) self.old self.new }
        ensures same_table { self.new.table.ghost_name ≡ self.old.table.ghost_name }
        ensures same_log { self.new.log.ghost_name ≡ self.old.log.ghost_name }
    {
        self.name_row(Fields::new(tree, 3, tree.len()), names, 0)
    }
}

// Logs the records of a whole tree that was checked, with a session's names. How many there are.
pub fn name_tree(names: Fields<'_>, tree: &[u8], table: &mut [u32], log: &mut [u8]) -> usize
    requires session_len_bound { length names.bytes.now ≤ session_size }
    requires has_items { HasItems names.bytes.now names.at names.end }
    requires has_words { HasWords (take names.end names.bytes.now) }
    requires tree_value { verdict (read_tree tree.now) ≡ Good }
    requires table_size_in_bounds { table_size ≤ length table.old }
    requires code_size_in_bounds { code_size ≤ length log.old }
    ensures { PassesTree tree.now names.entry.bytes.now names.entry.at names.entry.end log.new result }
{
    start_from(names, table);
    let mut namer = Namer {
        table,
        log,
        count: 0,
    };
    namer.name_statements(tree, &names.bytes[..names.end]);
    namer.count
}
