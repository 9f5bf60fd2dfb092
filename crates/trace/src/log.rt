// The log of the records: four bytes for each.
ghost use Rattle.std.specs.Prelude.{◌≡◌, ◌∷◌, ◌+◌, ◌*◌, ◌<◌, ◌≤◌, length};
ghost use Rattle.definition.specs.Limit.{tree_limit};
ghost use Rattle.symbol_table.specs.Layout.{symbol_of};
ghost use Rattle.records.specs.Records.{record_of};
ghost use Rattle.trace.specs.Log.{record_at, log_of};

use records::{Kind, Record};
use symbol_table::{Found, Symbol};

// Writes record n behind those before it: an Identifier's offset, and what its lookup found.
// Kept: packed by hand, here and in `record_at`, four bytes for each record, since the log is a part of the code area, which is lent.
pub fn put_entry(log: &mut [u8], n: usize, at: usize, found: Found)
    requires n_in_bounds { 4 * n + 4 ≤ length log.old }
    requires at_lt_tree_limit { at < tree_limit }
    requires code_bound { found.code < 2048 }
    requires crossed_bound { found.crossed < 32 }
    ensures { log_of log.new (n + 1) ≡ record_of at found.crossed (symbol_of found.code) ∷ log_of log.old n }
{
    let i = 4 * n;
    let entry = (at * 65536 + found.crossed * 2048 + found.code as usize) as u32;
    log[i..i + 4].copy_from_slice(&entry.to_be_bytes());
}

// The record of what the lookup of an Identifier found.
fn record_of(offset: usize, found: Found) -> Record
    ensures { result ≡ record_of offset found.crossed (symbol_of found.code) }
{
    let (kind, index) = match Symbol::from(found.code) {
        Symbol::Function => (Kind::Function, 0),
        Symbol::Local(k) => (Kind::Local, k),
        Symbol::Free(k) => (Kind::Free, k),
        Symbol::Builtin(k) => (Kind::Builtin, k),
        Symbol::Global(k) => (Kind::Global, k),
    };
    Record {
        offset,
        kind,
        index: index as usize,
        crossed: found.crossed,
    }
}

// Record k of a log.
pub fn record_at(log: &[u8], k: usize) -> Record
    requires { 4 * k + 4 ≤ length log.now }
    ensures { result ≡ record_at log.now k }
{
    let i = 4 * k;
    let entry = u32::from_be_bytes([log[i], log[i + 1], log[i + 2], log[i + 3]]);
    let found = Found {
        code: entry % 2048,
        crossed: (entry / 2048 % 32) as usize,
    };
    record_of((entry / 65536) as usize, found)
}
