// The records that a caller lends, one for each Identifier: a slice of structs, and the one function that writes there.
#![tactic(auto)]

ghost use Rattle.std.specs.Prelude.{◌≡◌, ◌<◌, length, set};
ghost use Rattle.records.specs.Kinds.{kind_number};

// What a name stands for, in document 02's order, with its number.
#[derive(Clone, Copy)]
pub enum Kind {
    Global = 0,
    Local = 1,
    Builtin = 2,
    Free = 3,
    Function = 4,
}

// The number of a kind.
impl From<Kind> for u32 {
    ghost from_gives = { λ kind number. number ≡ kind_number kind };

    fn from(kind: Kind) -> u32 {
        kind as u32
    }
}

// How an Identifier was resolved: its tree offset, kind and index (0 for a function), and the functions crossed.
#[derive(Clone, Copy)]
pub struct Record {
    pub offset: usize,
    pub kind: Kind,
    pub index: usize,
    pub crossed: usize,
}

// Writes one record.
pub fn put_record(records: &mut [Record], k: usize, r: Record)
    requires { k < length records.old }
    ensures { records.new ≡ set records.old k r }
{
    records[k] = r;
}
