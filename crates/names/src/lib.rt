// Compiling in a session with a record for each Identifier, for a caller that lends numbers, four for each record, or records.
#![tactic(auto)]

ghost use Rattle.std.specs.Prelude.{ℕ, List, ◌≡◌, ◌+◌, ◌*◌, ◌≤◌, ◌<◌, length};
ghost use Rattle.std.proofs.Common.{rules};
ghost use Rattle.std.proofs.lemmas.List.Edits.{sets};
ghost use Rattle.compiler.specs.Stage.{lent_of};
ghost use Rattle.records.specs.declared.Record as recorded;
ghost use Rattle.names.specs.Rows.{row_of, alone, filled_over, filled_records, Small};
ghost use Rattle.names.specs.Promise.{Written, Names, Records};

use compiler::clear_code;
use definition::Refusal;
use records::{Record, put_record};
use trace::log::record_at;
use trace::{CallTrace, compile_log};

// What a caller lends for records: so many in a row make up one.
trait Slot {
    ghost WIDTH: { ℕ };

    ghost shown: { recorded.Record → List Self };

    const WIDTH: usize;

    // Writes a record over so many of them.
    fn put(slots: &mut [Self], i: usize, r: Record)
        requires i_in_bounds { i + WIDTH ≤ length slots.old }
        requires small { Small r }
        ensures { slots.new ≡ sets slots.old i (shown r) };

    ghost some: { 0 < WIDTH };
}

impl Slot for u32 {
    ghost WIDTH = { 4 };

    ghost shown = { row_of };

    const WIDTH: usize = 4;

    fn put(slots: &mut [u32], i: usize, r: Record) {
        slots[i] = r.offset as u32;
        slots[i + 1] = u32::from(r.kind);
        slots[i + 2] = r.index as u32;
        slots[i + 3] = r.crossed as u32;
    }

    ghost some = { Prim.search rules };
}

impl Slot for Record {
    ghost WIDTH = { 1 };

    ghost shown = { alone };

    const WIDTH: usize = 1;

    fn put(slots: &mut [Record], i: usize, r: Record) {
        put_record(slots, i, r);
    }

    ghost some = { Prim.search rules };
}

// Writes the first n records of a log over what the caller lends.
// Kept: an index. Tried: `chunks_exact_mut`, where the proof did not close: nothing is known of what was written through its parts.
fn fill<S: Slot>(slots: &mut [S], log: &[u8], n: usize)
    requires n_in_bounds { S.WIDTH * n ≤ length slots.old }
    requires n_in_bounds_2 { 4 * n ≤ length log.now }
    ensures { slots.new ≡ filled_over S.WIDTH S.shown log.now n slots.old }
{
    for k in 0..n {
        S::put(slots, S::WIDTH * k, record_at(log, k));
    }
}

// Writes the first n records of a log over the caller's records.
pub fn fill_records(records: &mut [Record], log: &[u8], n: usize)
    requires n_in_bounds { n ≤ length records.old }
    requires n_in_bounds_2 { 4 * n ≤ length log.now }
    ensures { records.new ≡ filled_records log.now n records.old }
{
    fill(records, log, n);
}

// Compiles a tree in a session as `compile` does, and writes the records of its Identifiers in walk order over what the caller lends.
// Kept: the slices one by one, here and below, as C lends them and `compile_log` takes them.
fn compile_over<S: Slot>(
    session: &mut [u8],
    tree: &[u8],
    output: &mut [u8],
    code: &mut [u8],
    table: &mut [u32],
    slots: &mut [S],
) -> Result<CallTrace, Refusal>
    ensures { Written S.WIDTH S.shown tree.now (lent_of session.old output.old code.old table.old) slots.old result (lent_of session.new output.new code.new table.new) slots.new }
{
    let t = compile_log(session, tree, output, code, table, slots.len() / S::WIDTH)?;
    fill(slots, code, t.count);
    clear_code(code);
    Ok(t)
}

// Compiles a tree in a session as `compile` does, and writes the records of its Identifiers in walk order,
// four numbers for each: tree offset, kind, index, functions crossed.
// There is room for a fourth as many records as numbers; 18 where that is too few.
pub fn compile_names(
    session: &mut [u8],
    tree: &[u8],
    output: &mut [u8],
    code: &mut [u8],
    table: &mut [u32],
    rows: &mut [u32],
) -> Result<CallTrace, Refusal>
    ensures { Names tree.now (lent_of session.old output.old code.old table.old) rows.old result (lent_of session.new output.new code.new table.new) rows.new }
{
    compile_over(session, tree, output, code, table, rows)
}

// Compiles a tree in a session as `compile` does, and writes the records of its Identifiers in walk order over the caller's;
// 18 where those are too few.
pub fn compile_with_records(
    session: &mut [u8],
    tree: &[u8],
    output: &mut [u8],
    code: &mut [u8],
    table: &mut [u32],
    records: &mut [Record],
) -> Result<CallTrace, Refusal>
    ensures { Records tree.now (lent_of session.old output.old code.old table.old) records.old result (lent_of session.new output.new code.new table.new) records.new }
{
    compile_over(session, tree, output, code, table, records)
}
