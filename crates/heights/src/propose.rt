// Heights by forward flow along the code. How many are written is promised, and nothing of the heights: the check judges them.
ghost use Rattle.std.specs.Prelude.{List, [], ◌≡◌, ◌+◌, ◌<◌, ◌≤◌, length, drop, replicate};
ghost use Rattle.definition.specs.Bytecode.{Code, Const, Image};
ghost use Rattle.listing.specs.Reads.{CodeIn, PoolIn, ImageAt};
ghost use Rattle.heights.specs.Judgement.{instructions, counted};
ghost use Rattle.heights.specs.Chunks.{Standing};
ghost use Rattle.heights.specs.Proposal.{Proposed, FlowSpot, FlowReady, ConstantFlow, PoolFlow};
ghost use Rattle.heights.specs.Lent.{Lends};

use crate::chunk::{GROUND, Marks, NO_WAY, height};
use crate::effect::{falls, gives, leaps, takes};
use bytecode::{Parts, Span};
use definition::output::store;
use listing::sound::SoundImage;
use opcode::Instruction;

// What arrives behind an instruction, as if there were no way to it where it takes more than is there.
fn flow(i: Instruction, level: u32) -> u32 {
    if level <= NO_WAY || 100000 < level {
        return NO_WAY;
    }
    let taken = takes(i);
    if level - GROUND < taken {
        return NO_WAY;
    }
    level - taken + gives(i.op)
}

// What proposing is lent, the list and the marks, and how many heights were proposed so far.
#[derive(Drop)]
struct Proposer<'a> {
    heights: &'a mut [u32],
    marks: &'a mut [u32],
    count: usize,
}

impl<'a> Proposer<'a> {
    // Proposes the height of an instruction, and goes on along the code from it.
    fn propose_one(&mut self, code: Span<'_>, at: usize, next: usize, i: Instruction)
        requires spot { FlowSpot self.old.marks.now code.start code.end at next }
        requires few { self.old.count ≤ at }
        ensures stays { drop (self.old.count + 1) self.new.heights.now ≡ drop (self.old.count + 1) self.old.heights.now }
        ensures counts { self.new.count ≡ self.old.count + 1 }
        ensures lent { Lends self.old self.new }
    {
        let level = self.marks[at];
        store(self.heights, self.count, height(level));
        let after = flow(i, level);
        let mut marks = Marks {
            levels: &mut *self.marks,
            code,
        };
        let to = code.start + i.operand as usize;
        marks.leap(leaps(i.op), next, to, after);
        marks.fall(falls(i.op), next, after);
        self.count += 1;
    }

    // Proposes heights for the instructions of a chunk, as far as there is room.
    fn propose_chunk(&mut self, code: Span<'_>)
        requires { FlowReady self.old.marks.now code.bytes.now code.start code.end self.old.count }
        ensures proposes { (c : Code) → CodeIn code.entry c → Proposed (self.old.count + length c) code.entry.end self.old.heights.now self.new.count self.new.heights.now }
        ensures lent { Lends self.old self.new }
    {
        self.marks[code.start] = GROUND;
        for (at, i, next) in code.instructions() {
            self.propose_one(code, at, next, i);
        }
    }

    // Proposes heights for a constant, if it is a function.
    fn propose_constant(&mut self, constant: Span<'_>)
        requires { ConstantFlow self.old.marks.now constant.bytes.now constant.start constant.end self.old.count }
        ensures proposes { (x : Const) → Standing constant.entry.bytes.now constant.entry.start constant.entry.end x → Proposed (self.old.count + instructions x) constant.entry.end self.old.heights.now self.new.count self.new.heights.now }
        ensures lent { Lends self.old self.new }
    {
        let Some(code) = constant.function() else {
            return;
        };
        self.propose_chunk(code)
    }

    // Proposes heights for the functions among the constants of a pool.
    fn propose_pool(&mut self, pool: Span<'_>)
        requires { PoolFlow self.old.marks.now pool.bytes.now pool.start pool.end self.old.count }
        ensures proposes { (cs : List Const) → PoolIn pool.entry cs → (m : Image) → counted m [] ≡ self.old.count → Proposed (counted m cs) pool.entry.end self.old.heights.now self.new.count self.new.heights.now }
        ensures lent { Lends self.old self.new }
    {
        for constant in pool.constants() {
            self.propose_constant(constant);
        }
    }

    // Proposes heights for main and the pool of a sound image.
    fn propose_image(&mut self, image: SoundImage<'_>)
        requires blank { self.old.marks.now ≡ replicate 65536 0 }
        requires none { self.old.count ≡ 0 }
        ensures proposes { (m : Image) → ImageAt image.entry.bytes.now m → Proposed (counted m m.pool) (length image.entry.bytes.now) self.old.heights.now self.new.count self.new.heights.now }
        ensures same { self.new.heights.ghost_name ≡ self.old.heights.ghost_name }
    {
        let Parts { code, pool } = image.parts();
        self.propose_chunk(code);
        self.propose_pool(pool)
    }
}

// Proposes heights for main and the pool of a sound image, as far as there is room; how many there are.
pub fn propose(heights: &mut [u32], image: SoundImage<'_>) -> usize
    ensures { (m : Image) → ImageAt image.entry.bytes.now m → Proposed (counted m m.pool) (length image.entry.bytes.now) heights.old result heights.new }
{
    let marks = &mut [0u32; 65536];
    let mut proposer = Proposer {
        heights,
        marks,
        count: 0,
    };
    proposer.propose_image(image);
    proposer.count
}
