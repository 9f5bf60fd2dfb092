// One forward pass over a chunk. A mark says what arrives at an offset of the image: nothing, no way from the chunk's start, or
// GROUND + h: the height h.
// Kept: numbers: an enum with `Height(u16)`, proved, takes up to 9 % more (the bar is 3 %), and code may end at 65,536.
ghost use Rattle.std.specs.Prelude.{true, ◌≡◌, ℕ, ◌+◌, ◌-◌, ◌<◌, ◌≤◌, leb, ltb, length, get_or};
ghost use Rattle.definition.specs.Basic.{pick, both};
ghost use Rattle.definition.specs.Effect.{takes as taken, flow_of, falls as follows, leaps as targets};
ghost use Rattle.opcode.specs.Decoding.{instr_of};
ghost use Rattle.heights.specs.Pass.{agree as agreeing, behind as after, free as clear, fits as fitting, lastly};
ghost use Rattle.definition.specs.Bytecode.{Code};
ghost use Rattle.listing.specs.Reads.{CodeIn};
ghost use Rattle.heights.specs.Marks.{with_arrival, Spot, Stepped, PassReady, PassEnds, ChunkReady, ChunkEnds};
ghost use Rattle.heights.specs.Lent.{Keeps};

use crate::effect::{falls, gives, leaps, takes};
use bytecode::Span;
use opcode::Instruction;

// The mark where nothing arrives.
pub const NOTHING: u32 = 0;

// The mark where only what has no way from the chunk's start arrives.
pub const NO_WAY: u32 = 1;

// The mark where height 0 arrives, as at a chunk's start.
pub const GROUND: u32 = 2;

// A chunk that passes: its greatest height, and the heights behind its own.
#[derive(Clone, Copy)]
pub struct ChunkTop<'a> {
    pub top: u32,
    pub rest: &'a [u32],
}

// The kinds of chunks.
#[derive(Clone, Copy)]
pub enum Kind {
    Main,
    Function,
}

impl Kind {
    // The most that may arrive at the end: height 0 at that of main, no way at a function's.
    pub fn last(self) -> u32
        ensures { result ≡ lastly self }
    {
        match self {
            Kind::Main => GROUND,
            Kind::Function => NO_WAY,
        }
    }
}

// Whether two arrivals do not bring two heights.
fn agree(a: u32, b: u32) -> bool
    ensures { result ≡ agreeing a b }
{
    a <= NO_WAY || b <= NO_WAY || a == b
}

// Whether what arrives has the height offered, and the instruction takes no more.
fn fits(i: Instruction, level: u32, offered: u32) -> bool
    ensures { result ≡ fitting (instr_of i) level offered }
{
    level <= NO_WAY || level - GROUND == offered && takes(i) <= level - GROUND
}

// What arrives behind an instruction.
fn behind(i: Instruction, level: u32) -> u32
    requires { (level ≤ 100000) × (1 < level → 2 + taken (instr_of i) ≤ level) }
    ensures { result ≡ after (instr_of i) level }
{
    if level <= NO_WAY {
        NO_WAY
    } else {
        level + gives(i.op) - takes(i)
    }
}

// The height of a level.
pub fn height(level: u32) -> u32
    ensures { result ≡ level - 2 }
{
    level.saturating_sub(GROUND)
}

// What going over a chunk is lent: what arrives at each offset of the image, and the code that it goes over.
#[derive(Drop)]
pub struct Marks<'a> {
    pub levels: &'a mut [u32],
    pub code: Span<'a>,
}

impl<'a> Marks<'a> {
    // Let a level arrive at an offset; whether it agrees with what arrived before.
    fn arrive(&mut self, at: usize, level: u32) -> bool
        requires { at < length self.old.levels.now }
        ensures answers { result ≡ agreeing (get_or self.old.levels.now at 0) level }
        ensures stores { self.new.levels.now ≡ with_arrival self.old.levels.now at level }
        ensures lent { Keeps self.old self.new }
    {
        let levels = &mut *self.levels;
        let before = levels[at];
        levels[at] = before.max(level);
        agree(before, level)
    }

    // Whether nothing arrives at the operands of an instruction.
    fn free(&self, at: usize, width: usize) -> bool
        requires { at + width < length self.now.levels.now }
        ensures { result ≡ clear (λ k. get_or self.now.levels.now k 0) at width }
    {
        self.levels[at + 1..at + 1 + width]
            .iter()
            .all(|m| *m == NOTHING)
    }

    // Go on at a target, where an instruction jumps: it must lie before the end and not before the next instruction.
    pub fn leap(&mut self, jumps: bool, next: usize, to: usize, level: u32) -> bool
        requires { self.old.code.end < length self.old.levels.now }
        ensures answers { result ≡ pick jumps (both (leb next to) (both (ltb to self.old.code.end) (agreeing (get_or self.old.levels.now to 0) level))) true }
        ensures stores { result ≡ true → self.new.levels.now ≡ pick jumps (with_arrival self.old.levels.now to level) self.old.levels.now }
        ensures lent { Keeps self.old self.new }
    {
        !jumps || next <= to && to < self.code.end && self.arrive(to, level)
    }

    // Go on at the next instruction, where an instruction does.
    pub fn fall(&mut self, goes: bool, next: usize, level: u32) -> bool
        requires { next < length self.old.levels.now }
        ensures answers { result ≡ pick goes (agreeing (get_or self.old.levels.now next 0) level) true }
        ensures stores { self.new.levels.now ≡ pick goes (with_arrival self.old.levels.now next level) self.old.levels.now }
        ensures lent { Keeps self.old self.new }
    {
        !goes || self.arrive(next, level)
    }

    // One instruction; whether it passes.
    fn step(&mut self, at: usize, next: usize, i: Instruction, offered: u32) -> bool
        requires { Spot self.old.levels.now self.old.code.start self.old.code.end at next (instr_of i) }
        ensures steps { Stepped self.old.levels.now self.old.code.start self.old.code.end at offered (instr_of i) result self.new.levels.now }
        ensures lent { Keeps self.old self.new }
    {
        let level = self.levels[at];
        if !fits(i, level, offered) {
            return false;
        }
        if !self.free(at, next - at - 1) {
            return false;
        }
        let after = behind(i, level);
        let to = self.code.start + i.operand as usize;
        if !self.leap(leaps(i.op), next, to, after) {
            return false;
        }
        self.fall(falls(i.op), next, after)
    }

    // The instructions, with a height each.
    fn go<'h>(&mut self, heights: &'h [u32]) -> Option<ChunkTop<'h>>
        requires { PassReady self.old.levels.now self.old.code.bytes.now self.old.code.start self.old.code.end }
        ensures passes { (c : Code) → CodeIn self.old.code c → PassEnds heights.now (self.old.code.end - self.old.code.start) self.old.code.start c result self.new.levels.now }
        ensures same { self.new.levels.ghost_name ≡ self.old.levels.ghost_name }
    {
        let mut rest = heights;
        let mut top = 0u32;
        for (at, i, next) in self.code.instructions() {
            let [offered, behind @ ..] = rest else {
                return None;
            };
            let level = self.levels[at];
            if !self.step(at, next, i, *offered) {
                return None;
            }
            top = top.max(height(level));
            rest = behind;
        }
        Some(ChunkTop { top, rest })
    }
}

// The instructions of a chunk, with a height each.
pub fn pass<'h>(marks: &mut [u32], code: Span<'_>, heights: &'h [u32]) -> Option<ChunkTop<'h>>
    requires { PassReady marks.old code.bytes.now code.start code.end }
    ensures { (c : Code) → CodeIn code.entry c → PassEnds heights.now (code.entry.end - code.entry.start) code.entry.start c result marks.new }
{
    let mut marks = Marks {
        levels: marks,
        code,
    };
    marks.go(heights)
}

// A chunk of a kind, at whose end no more may arrive than at that of its kind.
pub fn check_chunk<'h>(
    marks: &mut [u32],
    code: Span<'_>,
    heights: &'h [u32],
    kind: Kind,
) -> Option<ChunkTop<'h>>
    requires { ChunkReady marks.old code.bytes.now code.start code.end }
    ensures { (c : Code) → CodeIn code.entry c → ChunkEnds heights.now kind code.entry.end c result marks.new }
{
    marks[code.start] = GROUND;
    let chunk = pass(marks, code, heights)?;
    if kind.last() < marks[code.end] {
        return None;
    }
    Some(chunk)
}
