// The global names, in the first numbers of the area: for each bucket of hashes a search tree of the session's and one of the tree's.
// A global stands in a node by its index and 1, so that 0 is none.
ghost use Rattle.std.specs.Prelude.{◌≡◌, ℕ, ◌+◌, ◌*◌, ◌%◌, ◌<◌, ◌≤◌, length, get_or};
ghost use Rattle.std.proofs.Math.Option.{Option};
ghost use Rattle.definition.specs.Basic.{Bytes};
ghost use Rattle.field.specs.Layout.{content};
ghost use Rattle.definition.specs.Limit.{session_size, globals_limit};
ghost use Rattle.definition.specs.SymbolTable.{Symbol, find_global};
ghost use Rattle.symbol_table.specs.Name.{buckets, hash_of};
ghost use Rattle.symbol_table.specs.Search.{side_number, turn_number, side_of, child_of, with_child, Way, Goes};
ghost use Rattle.symbol_table.specs.Layout.{globals_size, heads_at, head_of, globals_of, offset_of, StandsAt, GoodGlobals};
ghost use Rattle.symbol_table.specs.Store.{global_in};
ghost use Rattle.symbol_table.specs.Contract.{hit_of, standing_as, as_symbol, Searchable, Ends, Addable, Adds, DefinesGlobal, HasItems, StartsGlobals};

use super::layout::{
    BUCKET_BITS, BUCKETS, GLOBAL, GLOBALS, GLOBALS_SIZE, HEADS_AT, IN_TREE, LATEST_UNIT, NODES_AT,
    SIDE_BITS, SIDE_UNIT,
};
use super::name::{Key, Name, hash_at};
use super::{DefineError, Slot};
use field::content_at;
use field::fields::Fields;
use field::names::same_name;

// Whose a global is, and so the side of its bucket's heads: the session's or the tree's.
#[derive(Clone, Copy)]
enum Side {
    Session,
    Tree,
}

// Where a search goes on from a node: to the global on its left or on its right.
#[derive(Clone, Copy)]
enum Turn {
    Left,
    Right,
}

impl Turn {
    // By the lowest bit.
    fn by(bits: usize) -> Turn
        ensures { turn_number result ≡ bits % 2 }
    {
        if bits % 2 == 0 {
            Turn::Left
        } else {
            Turn::Right
        }
    }
}

impl Side {
    // Where the first of its globals stands among a bucket's heads, which are kept as a node is.
    fn turn(self) -> Turn
        ensures { turn_number result ≡ side_number self }
    {
        match self {
            Side::Session => Turn::Left,
            Side::Tree => Turn::Right,
        }
    }

    // The first of its globals, of a bucket's heads.
    fn head(self, heads: u32) -> Option<usize>
        ensures { standing_as result ≡ child_of heads (side_number self) }
    {
        child(heads, self.turn())
    }

    // The number of a global of its own, whose name is at an offset.
    fn global(self, at: usize) -> u32
        requires { at < 65536 }
        ensures { result ≡ 65536 * side_number self + at }
    {
        match self {
            Side::Session => NamePlace::Session(at).number(),
            Side::Tree => NamePlace::Tree(at).number(),
        }
    }
}

// Where the name of a global stands: at an offset among the session's names, or in the tree.
#[derive(Clone, Copy)]
pub enum NamePlace {
    Session(usize),
    Tree(usize),
}

impl NamePlace {
    // Its number, as the area has it.
    fn number(self) -> u32
        requires { offset_of self < 65536 }
        ensures { StandsAt result self }
    {
        match self {
            NamePlace::Session(at) => at as u32,
            NamePlace::Tree(at) => (IN_TREE + at) as u32,
        }
    }

    // Its offset, in the bytes that are its own.
    fn offset(self) -> usize
        ensures { result ≡ offset_of self }
    {
        match self {
            NamePlace::Session(at) | NamePlace::Tree(at) => at,
        }
    }
}

// The place of a number of the area.
impl From<u32> for NamePlace {
    ghost from_gives = { StandsAt };

    fn from(v: u32) -> NamePlace {
        let at = v as usize;
        if at < IN_TREE {
            NamePlace::Session(at)
        } else {
            NamePlace::Tree(at - IN_TREE)
        }
    }
}

// Where a global more goes: an index of the area, and the number that is to stand there.
#[derive(Clone, Copy)]
struct Place {
    at: usize,
    number: u32,
}

// The side of a node on which a name is sought further, at a depth: by the bits of its hash that its bucket leaves, then by its own.
fn side_of(name: &[u8], hash: usize, depth: usize) -> Turn
    ensures { turn_number result ≡ side_of name.now hash depth }
{
    if depth < SIDE_BITS {
        return Turn::by(hash >> (BUCKET_BITS + depth));
    }
    let i = (depth - SIDE_BITS) / 8;
    if name.len() <= i {
        return Turn::Left;
    }
    Turn::by(usize::from(name[i]) >> ((depth - SIDE_BITS) % 8))
}

// The global that stands by its index and 1, if one does.
fn standing(n: u32) -> Option<usize>
    ensures { standing_as result ≡ n }
{
    (n as usize).checked_sub(1)
}

// The global on a side of a node, or of a bucket's heads.
fn child(node: u32, turn: Turn) -> Option<usize>
    ensures { standing_as result ≡ child_of node (turn_number turn) }
{
    match turn {
        Turn::Left => standing(node % SIDE_UNIT),
        Turn::Right => standing(node / SIDE_UNIT % SIDE_UNIT),
    }
}

// A node with a global on a side that had none.
fn with_child(node: u32, turn: Turn, k: u32) -> u32
    requires side_value { child_of node (turn_number turn) ≡ 0 }
    requires k_le_globals_limit { k ≤ globals_limit }
    ensures { result ≡ with_child node (turn_number turn) k }
{
    match turn {
        Turn::Left => node + k,
        Turn::Right => node + SIDE_UNIT * k,
    }
}

// Where the search for a name ends: at a global of that name, or on a side of a node or of a bucket's heads where none hangs.
#[derive(Clone, Copy)]
enum End {
    Hit(usize),
    Open(usize, Turn),
}

// The search for a name among the globals of a side, whose names are in these bytes.
// Kept: a way down a tree, where each node decides the next by the name: an iterator would hold the name and its way as `Way` says it.
#[inline(always)]
fn search(name: &Name, bytes: &[u8], side: Side, globals: &[u32]) -> End
    requires { Searchable bytes.now (side_number side) globals.now name.now.bytes.now }
    ensures { Ends bytes.now (side_number side) globals.now name.now.bytes.now result }
{
    let mut at = HEADS_AT + name.hash % BUCKETS;
    let mut on = side.turn();
    let mut next = child(globals[at], on);
    let mut depth = 0;
    while let Some(k) = next {
        let i = k + 1;
        let offset = NamePlace::from(globals[i]).offset();
        if same_name(name.bytes, content_at(bytes, offset)) {
            return End::Hit(i);
        }
        at = NODES_AT + i;
        on = side_of(name.bytes, name.hash, depth);
        next = child(globals[at], on);
        depth += 1;
    }
    End::Open(at, on)
}

// The latest global of a name among those of a side, whose names are in these bytes.
#[inline(always)]
fn find_side(name: &Name, bytes: &[u8], side: Side, globals: &[u32]) -> Option<u32>
    requires { Searchable bytes.now (side_number side) globals.now name.now.bytes.now }
    ensures { (r : Option ℕ) → Way bytes.now (side_number side) globals.now name.now.bytes.now 0 (head_of globals.now name.now.bytes.now (side_number side)) r → hit_of result ≡ as_symbol Symbol.global r }
{
    match search(name, bytes, side, globals) {
        End::Hit(i) => Some(GLOBAL + globals[NODES_AT + i] / LATEST_UNIT),
        End::Open(_, _) => None,
    }
}

// The latest global of a name: those of the tree come after those of the session.
#[inline(always)]
pub fn find_global(name: &Name, tree: &[u8], names: &[u8], globals: &[u32]) -> Option<u32>
    requires { GoodGlobals tree.now names.now globals.now }
    ensures { hit_of result ≡ as_symbol Symbol.global (find_global name.now.bytes.now (globals_of tree.now names.now globals.now)) }
{
    if let Some(code) = find_side(name, tree, Side::Tree, globals) {
        return Some(code);
    }
    find_side(name, names, Side::Session, globals)
}

// A global more, which has a node of its own, and the number at a place.
fn push_global(globals: &mut [u32; GLOBALS_SIZE], v: u32, place: Place)
    requires globals_bound { get_or globals.old 0 0 < globals_limit }
    requires at_lt_globals_size { place.at < globals_size }
    ensures { globals.new ≡ global_in globals.old v place.at place.number }
{
    let k = globals[0];
    let i = 1 + k as usize;
    globals[i] = v;
    globals[NODES_AT + i] = LATEST_UNIT * k;
    globals[place.at] = place.number;
    globals[0] = k + 1;
}

// A global that is to be added: whose it is, in which bytes its name stands at an offset, and the name's hash.
#[derive(Clone, Copy)]
struct NewGlobal<'a> {
    side: Side,
    bytes: &'a [u8],
    at: usize,
    hash: usize,
}

// Kept: `Addable` in four clauses: a ghost field is to be a proposition, and it is none, since it holds a search's way (as in query.rt).
impl NewGlobal<'_> {
    // Where it goes: it becomes the latest of its name, or hangs where the search for its name ends.
    fn find_place(self, globals: &[u32; GLOBALS_SIZE]) -> Place
        requires { Addable self.bytes.now (side_number self.side) globals.now self.at self.hash }
        ensures { Goes self.entry.bytes.now (side_number self.entry.side) globals.now (content self.entry.bytes.now self.entry.at) 0 (heads_at + self.entry.hash % buckets) (side_number self.entry.side) result.at result.number }
    {
        let name = Name {
            bytes: content_at(self.bytes, self.at),
            hash: self.hash,
        };
        let new = globals[0];
        match search(&name, self.bytes, self.side, globals) {
            End::Hit(i) => Place {
                at: NODES_AT + i,
                number: globals[NODES_AT + i] % LATEST_UNIT + LATEST_UNIT * new,
            },
            End::Open(at, on) => Place {
                at,
                number: with_child(globals[at], on, new + 1),
            },
        }
    }

    // It is added as the first of its side in its bucket.
    #[inline(always)]
    fn add_first(self, globals: &mut [u32; GLOBALS_SIZE])
        requires addable { Addable self.bytes.now (side_number self.side) globals.old self.at self.hash }
        requires side_value { child_of (get_or globals.old (heads_at + self.hash % buckets) 0) (side_number self.side) ≡ 0 }
        ensures { Adds self.entry.bytes.now (side_number self.entry.side) self.entry.at globals.old globals.new }
    {
        let at = HEADS_AT + self.hash % BUCKETS;
        let number = with_child(globals[at], self.side.turn(), globals[0] + 1);
        push_global(globals, self.side.global(self.at), Place { at, number });
    }

    // It is added where the search for its name ends.
    fn add_below(self, globals: &mut [u32; GLOBALS_SIZE])
        requires { Addable self.bytes.now (side_number self.side) globals.old self.at self.hash }
        ensures { Adds self.entry.bytes.now (side_number self.entry.side) self.entry.at globals.old globals.new }
    {
        let place = self.find_place(globals);
        push_global(globals, self.side.global(self.at), place);
    }

    // It is added.
    #[inline(always)]
    fn add(self, globals: &mut [u32; GLOBALS_SIZE])
        requires { Addable self.bytes.now (side_number self.side) globals.old self.at self.hash }
        ensures { Adds self.entry.bytes.now (side_number self.entry.side) self.entry.at globals.old globals.new }
    {
        match self.side.head(globals[HEADS_AT + self.hash % BUCKETS]) {
            None => self.add_first(globals),
            Some(_) => self.add_below(globals),
        }
    }
}

// A global of the tree more, if there is room.
pub fn place_global(key: &Key, globals: &mut [u32; GLOBALS_SIZE]) -> Result<Slot, DefineError>
    requires { (names : Bytes) × GoodGlobals key.now.tree.now names globals.old }
    ensures { DefinesGlobal key.now.tree.now key.now.at result globals.old globals.new }
{
    let k = globals[0];
    if GLOBALS <= k {
        return Err(DefineError::GlobalsFull);
    }
    let global = NewGlobal {
        side: Side::Tree,
        bytes: key.tree,
        at: key.at,
        hash: key.name.hash,
    };
    global.add(globals);
    Ok(Slot::Global(k))
}

// No global in any bucket, as a search reads the heads.
fn clear_heads(globals: &mut [u32; GLOBALS_SIZE])
    ensures { (h : ℕ) → h < buckets → get_or globals.new (heads_at + h) 0 ≡ 0 }
{
    globals[HEADS_AT..].fill(0);
}

// The names of a session become the globals.
pub fn start_in(names: Fields<'_>, globals: &mut [u32; GLOBALS_SIZE])
    requires session_len_bound { length names.bytes.now ≤ session_size }
    requires has_items { HasItems names.bytes.now names.at names.end }
    ensures { StartsGlobals names.entry.bytes.now names.entry.at names.entry.end globals.new }
{
    clear_heads(globals);
    globals[0] = 0;
    for at in names {
        let global = NewGlobal {
            side: Side::Session,
            bytes: &names.bytes[..names.end],
            at,
            hash: hash_at(names.bytes, at),
        };
        global.add(globals);
    }
}
