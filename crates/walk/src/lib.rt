// The walk over a tree that reads: statements, blocks and expressions compile each other.
#![tactic(auto)]

ghost use Rattle.std.specs.Prelude.{◌≡◌, Ok};
ghost use Rattle.definition.specs.Walk.{walk_stmt, walk_stmts, walk_expr, walk_exprs};
ghost use Rattle.scope.specs.Walked.{walked};
ghost use Rattle.scope.specs.Machine.{machine};
ghost use Rattle.tree.specs.Reads.{Some, ReadsStmt, ReadsStmts, ReadsExpr, ReadsExprs, ReadsBlock};
ghost use Rattle.step.specs.Memory.{rest, FineState, Walks};
ghost use Rattle.walk.specs.Compiles.{Stands, Compiles, CompilesAt, CompilesRow};
ghost use Rattle.walk.specs.Parts.{Let, Prefix, Infix, If, Function, Call, Index, Items, walk_list, walk_branch, ReadsTree};

use definition::limit::ARGUMENTS_LIMIT;
use definition::operator::LESS_THAN;
use definition::{Reason, Refusal, refused, tag};
use field::Field;
use field::fields::Fields;
use opcode::opcodes;
use scope::Scope;
use step::{define, enter, leave, literal, load};
use tree::count_fields;

// The memory that a walk is lent: the session, the table area, the code area with the state.
// Kept: that all stands well is a clause: a ghost field would have to hold after a refusal, too, when a lookup may have captured outside.
#[derive(Drop)]
struct Compiler<'a, 's> {
    session: &'a mut [u8],
    table: &'a mut [u32],
    scope: &'a mut Scope<'s>,
}

impl<'a, 's> Compiler<'a, 's> {
    // Compiles a statement.
    #[cycle(walk)]
    fn walk_statement(&mut self, field: Field<'_>) -> Result<(), Refusal>
        requires some { Some (ReadsStmt field.bytes.now field.at) }
        requires standing { Stands field.bytes.now self.old }
        ensures { CompilesAt field.entry ReadsStmt (walk_stmt machine) self.old self.new result }
    {
        match field.bytes[field.at] {
            tag::EXPR_STMT => {
                self.walk_expression(field.first())?;
                self.scope.emit(field.at, opcodes::POP)
            }
            tag::BLOCK => self.walk_block(field.children()),
            tag::LET => self.walk_let(field),
            _ => {
                self.walk_expression(field.first())?;
                self.scope.emit(field.at, opcodes::RETURN_VALUE)
            }
        }
    }

    // Compiles a let: the name is defined before its value.
    #[cycle(walk)]
    fn walk_let(&mut self, field: Field<'_>) -> Result<(), Refusal>
        requires some { Some (Let field.bytes.now field.at) }
        requires standing { Stands field.bytes.now self.old }
        ensures { CompilesAt field.entry Let (walk_stmt machine) self.old self.new result }
    {
        let value = field.first().next();
        let setting = define(field, self.table, self.scope.state)?;
        self.walk_expression(value)?;
        self.scope
            .emit_operand(field.at, setting.op, setting.operand)
    }

    // Compiles statements in a row.
    #[cycle(walk)]
    fn walk_block(&mut self, fields: Fields<'_>) -> Result<(), Refusal>
        requires some { Some (ReadsStmts fields.bytes.now fields.at fields.end) }
        requires standing { Stands fields.bytes.now self.old }
        ensures { CompilesRow fields.entry ReadsStmts (walk_stmts machine) self.old self.new result }
    {
        for at in fields {
            self.walk_statement(Field {
                bytes: fields.bytes,
                at,
            })?;
        }
        Ok(())
    }

    // Compiles an expression.
    #[cycle(walk)]
    fn walk_expression(&mut self, field: Field<'_>) -> Result<(), Refusal>
        requires some { Some (ReadsExpr field.bytes.now field.at) }
        requires standing { Stands field.bytes.now self.old }
        ensures { CompilesAt field.entry ReadsExpr (walk_expr machine) self.old self.new result }
    {
        match field.bytes[field.at] {
            tag::IDENTIFIER => {
                let session = &mut *self.session;
                load(field, session, self.scope, self.table)
            }
            tag::PREFIX => self.walk_prefix(field),
            tag::INFIX => self.walk_infix(field),
            tag::IF => self.walk_if(field),
            tag::FUNCTION => self.walk_function(field),
            tag::CALL => self.walk_call(field),
            tag::INTEGER => literal(field, self.session, self.scope, tag::INTEGER_CONST),
            tag::BOOLEAN => self.scope.boolean(field.at, field.bytes[field.at + 3]),
            tag::STRING => literal(field, self.session, self.scope, tag::STRING_CONST),
            tag::ARRAY => self.walk_list(field, opcodes::ARRAY),
            tag::INDEX => self.walk_index(field),
            tag::HASH => self.walk_list(field, opcodes::HASH),
            _ => refused(Reason::Macro, field.at),
        }
    }

    // Compiles a prefix: its operand, then its operator.
    #[cycle(walk)]
    fn walk_prefix(&mut self, field: Field<'_>) -> Result<(), Refusal>
        requires some { Some (Prefix field.bytes.now field.at) }
        requires standing { Stands field.bytes.now self.old }
        ensures { CompilesAt field.entry Prefix (walk_expr machine) self.old self.new result }
    {
        self.walk_expression(Field {
            bytes: field.bytes,
            at: field.at + 7,
        })?;
        self.scope
            .prefix_operator(field.at, field.bytes[field.at + 6])
    }

    // Compiles an infix: its operands, the right one first for `<`, then its operator.
    #[cycle(walk)]
    fn walk_infix(&mut self, field: Field<'_>) -> Result<(), Refusal>
        requires some { Some (Infix field.bytes.now field.at) }
        requires standing { Stands field.bytes.now self.old }
        ensures { CompilesAt field.entry Infix (walk_expr machine) self.old self.new result }
    {
        let left = field.first();
        let op = left.next();
        let right = Field {
            bytes: field.bytes,
            at: op.at + 4,
        };
        let o = field.bytes[op.at + 3];
        if o == LESS_THAN {
            self.walk_expression(right)?;
            self.walk_expression(left)?;
        } else {
            self.walk_expression(left)?;
            self.walk_expression(right)?;
        }
        self.scope.infix_operator(field.at, o)
    }

    // Compiles an if: its test, a jump over its first branch, that branch, a jump over the other one, and that, or Null where there is
    // none.
    #[cycle(walk)]
    fn walk_if(&mut self, field: Field<'_>) -> Result<(), Refusal>
        requires some { Some (If field.bytes.now field.at) }
        requires standing { Stands field.bytes.now self.old }
        ensures { CompilesAt field.entry If (walk_expr machine) self.old self.new result }
    {
        self.walk_expression(field.first())?;
        let skip = self.scope.jump(field.at, opcodes::JUMP_NOT_TRUTHY)?;
        let branch = field.first().next();
        self.walk_branch(field.at, branch)?;
        let away = self.scope.jump_and_patch(field.at, skip)?;
        let at = branch.after();
        let end = field.after();
        if at < end {
            self.walk_branch(field.at, branch.next())?;
        } else {
            self.scope.emit(field.at, opcodes::NULL)?;
        }
        self.scope.patch(away);
        Ok(())
    }

    // Compiles a block as a branch of the if at `place`: without its last Pop.
    #[inline(always)]
    #[cycle(walk)]
    fn walk_branch(&mut self, place: usize, field: Field<'_>) -> Result<(), Refusal>
        requires some { Some (ReadsBlock field.bytes.now field.at) }
        requires standing { Stands field.bytes.now self.old }
        ensures { CompilesAt field.entry ReadsBlock (walk_branch place) self.old self.new result }
    {
        self.walk_block(field.children())?;
        self.scope.drop_pop(place)
    }

    // Compiles an index: what is indexed, then by what.
    #[cycle(walk)]
    fn walk_index(&mut self, field: Field<'_>) -> Result<(), Refusal>
        requires some { Some (Index field.bytes.now field.at) }
        requires standing { Stands field.bytes.now self.old }
        ensures { CompilesAt field.entry Index (walk_expr machine) self.old self.new result }
    {
        let left = field.first();
        self.walk_expression(left)?;
        self.walk_expression(left.next())?;
        self.scope.emit(field.at, opcodes::INDEX)
    }

    // Compiles a call: its callee, its arguments unless there are too many, Call.
    #[cycle(walk)]
    fn walk_call(&mut self, field: Field<'_>) -> Result<(), Refusal>
        requires some { Some (Call field.bytes.now field.at) }
        requires standing { Stands field.bytes.now self.old }
        ensures { CompilesAt field.entry Call (walk_expr machine) self.old self.new result }
    {
        let callee = field.first();
        let args = Fields {
            bytes: field.bytes,
            at: callee.after(),
            end: field.after(),
        };
        let n = count_fields(args);
        self.walk_expression(callee)?;
        if ARGUMENTS_LIMIT < n {
            return refused(Reason::TooMany, field.at);
        }
        self.walk_expressions(args)?;
        self.scope.emit_operand(field.at, opcodes::CALL, n)
    }

    // Compiles the items of an array or a hash, then its instruction with their number.
    #[inline(always)]
    #[cycle(walk)]
    fn walk_list(&mut self, field: Field<'_>, op: u8) -> Result<(), Refusal>
        requires some { Some (Items field.bytes.now field.at) }
        requires standing { Stands field.bytes.now self.old }
        ensures { CompilesAt field.entry Items (walk_list field.entry.at op) self.old self.new result }
    {
        let items = field.children();
        let n = count_fields(items);
        self.walk_expressions(items)?;
        self.scope.emit_operand(field.at, op, n)
    }

    // Compiles expressions in a row.
    // Kept: beside `walk_block`: one method for both would take the step as a closure of this recursion, which is no plainer.
    #[cycle(walk)]
    fn walk_expressions(&mut self, fields: Fields<'_>) -> Result<(), Refusal>
        requires some { Some (ReadsExprs fields.bytes.now fields.at fields.end) }
        requires standing { Stands fields.bytes.now self.old }
        ensures { CompilesRow fields.entry ReadsExprs (walk_exprs machine) self.old self.new result }
    {
        for at in fields {
            self.walk_expression(Field {
                bytes: fields.bytes,
                at,
            })?;
        }
        Ok(())
    }

    // Compiles a function: its body in a chunk of its own, then its closure.
    #[cycle(walk)]
    fn walk_function(&mut self, field: Field<'_>) -> Result<(), Refusal>
        requires some { Some (Function field.bytes.now field.at) }
        requires standing { Stands field.bytes.now self.old }
        ensures { CompilesAt field.entry Function (walk_expr machine) self.old self.new result }
    {
        let params = field.first().next();
        let body = params.next();
        let n = count_fields(params.children());
        let outer = self.scope.state;
        enter(field, self.table, self.scope, n)?;
        self.walk_block(body.children())?;
        let table = &mut *self.table;
        leave(self.session, self.scope, table, outer, field.at, n)
    }

    // Compiles the statements of a whole tree.
    fn walk_tree(&mut self, tree: &[u8]) -> Result<(), Refusal>
        requires some { Some (ReadsTree tree.now) }
        requires standing { Stands tree.now self.old }
        ensures { Compiles tree.now (ReadsTree tree.now) (walk_stmts machine) self.old self.new result }
    {
        self.walk_block(Fields {
            bytes: tree,
            at: 3,
            end: tree.len(),
        })
    }
}

// Compiles a whole tree that reads, on from the state that is lent: the walk of its statements.
pub fn compile_tree(
    tree: &[u8],
    session: &mut [u8],
    scope: &mut Scope<'_>,
    table: &mut [u32],
) -> Result<(), Refusal>
    requires some { Some (ReadsTree tree.now) }
    requires fine { FineState tree.now (rest session.old table.old) scope.old.state }
    ensures walks { Walks tree.now (ReadsTree tree.now) (walk_stmts machine) scope.old.code.now scope.new.code.now (rest session.old table.old) (rest session.new table.new) (Ok scope.old.state) (walked result scope.new.state) }
    ensures same { scope.new.code.ghost_name ≡ scope.old.code.ghost_name }
{
    let mut compiler = Compiler {
        session,
        table,
        scope,
    };
    compiler.walk_tree(tree)
}
