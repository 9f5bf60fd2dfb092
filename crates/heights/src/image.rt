// The chunks of an image, main first, then each function of its pool.
ghost use Rattle.std.specs.Prelude.{List, [], ◌≡◌, ℕ, ◌<◌, length, drop, replicate};
ghost use Rattle.definition.specs.Number.{refusal, bad_heights};
ghost use Rattle.definition.specs.Bytecode.{Code, Const, Image};
ghost use Rattle.listing.specs.Reads.{CodeIn, PoolIn, ImageAt};
ghost use Rattle.heights.specs.Pass.{top_of};
ghost use Rattle.heights.specs.Marks.{ChunkReady};
ghost use Rattle.heights.specs.Chunks.{top_answer, top_into, constant_answer, constant_into, Judges, Standing, ConstantReady, PoolReady, SoFar, PoolJudges};
ghost use Rattle.heights.specs.Lent.{Lent};

use crate::chunk::{Kind, check_chunk};
use bytecode::{Parts, Span};
use definition::output::store;
use definition::{Reason, Refusal};
use listing::sound::SoundImage;

// How far the chunks were judged: how many passed, and the heights behind theirs.
#[derive(Clone, Copy)]
pub struct Progress<'a> {
    pub chunks: usize,
    pub heights: &'a [u32],
}

// The place of the first chunk that fails: 0 is main's, and one behind its index a constant's.
#[derive(Clone, Copy)]
pub struct BadChunk {
    pub place: usize,
}

// Such heights are refused with number 25.
impl From<BadChunk> for Refusal {
    ghost from_gives = { λ bad r. r ≡ refusal bad_heights bad.place };

    fn from(bad: BadChunk) -> Refusal {
        Refusal {
            reason: Reason::BadHeights,
            place: bad.place,
        }
    }
}

// What judging is lent: the output and the marks.
#[derive(Drop)]
struct Judging<'a> {
    output: &'a mut [u32],
    marks: &'a mut [u32],
}

impl<'a> Judging<'a> {
    // Judges a chunk behind others; none where it fails.
    fn judge_chunk<'h>(
        &mut self,
        code: Span<'_>,
        before: Progress<'h>,
        kind: Kind,
    ) -> Option<Progress<'h>>
        requires { ChunkReady self.old.marks.now code.bytes.now code.start code.end × (before.chunks < 131072) }
        ensures judges { (c : Code) → CodeIn code.entry c → Judges code.entry.end (top_answer (top_of before.entry.heights.now kind 0 c) before.entry.chunks (drop (length c) before.entry.heights.now)) (top_into (top_of before.entry.heights.now kind 0 c) before.entry.chunks self.old.output.now) result self.new.output.now self.new.marks.now }
        ensures lent { Lent self.old self.new }
    {
        let chunk = check_chunk(self.marks, code, before.heights, kind)?;
        store(self.output, before.chunks, chunk.top);
        Some(Progress {
            chunks: before.chunks + 1,
            heights: chunk.rest,
        })
    }

    // Judges a constant; none where its chunk fails.
    fn judge_constant<'h>(
        &mut self,
        constant: Span<'_>,
        before: Progress<'h>,
    ) -> Option<Progress<'h>>
        requires { ConstantReady self.old.marks.now constant.bytes.now constant.start constant.end before.chunks }
        ensures judges { (x : Const) → Standing constant.entry.bytes.now constant.entry.start constant.entry.end x → Judges constant.entry.end (constant_answer x before.entry) (constant_into x before.entry self.old.output.now) result self.new.output.now self.new.marks.now }
        ensures lent { Lent self.old self.new }
    {
        let Some(code) = constant.function() else {
            return Some(before);
        };
        self.judge_chunk(code, before, Kind::Function)
    }

    // Judges the constants of a pool: how many chunks there are, or the first that fails.
    fn judge_pool(&mut self, pool: Span<'_>, before: Progress<'_>) -> Result<usize, BadChunk>
        requires { PoolReady self.old.marks.now pool.bytes.now pool.start pool.end before.chunks }
        ensures judges { (cs : List Const) → PoolIn pool.entry cs → (hs : List ℕ) → (m : Image) → (o : List ℕ) → SoFar hs m [] o self.old.output.now before.entry → PoolJudges hs m cs o result self.new.output.now }
        ensures lent { Lent self.old self.new }
    {
        let mut progress = before;
        for (index, constant) in pool.constants().enumerate() {
            let Some(p) = self.judge_constant(constant, progress) else {
                return Err(BadChunk { place: index + 1 });
            };
            progress = p;
        }
        Ok(progress.chunks)
    }

    // Judges main and the pool of a sound image.
    fn judge_image(&mut self, image: SoundImage<'_>, heights: &[u32]) -> Result<usize, BadChunk>
        requires blank { self.old.marks.now ≡ replicate 65536 0 }
        ensures judges { (m : Image) → ImageAt image.entry.bytes.now m → PoolJudges heights.now m m.pool self.old.output.now result self.new.output.now }
        ensures lent { Lent self.old self.new }
    {
        let Parts { code, pool } = image.parts();
        let none = Progress { chunks: 0, heights };
        let Some(main) = self.judge_chunk(code, none, Kind::Main) else {
            return Err(BadChunk { place: 0 });
        };
        self.judge_pool(pool, main)
    }
}

// Judges main and the pool of a sound image, and stores the greatest heights as far as there is room: how many chunks there are, or the
// first that fails.
pub fn judge(output: &mut [u32], image: SoundImage<'_>, heights: &[u32]) -> Result<usize, BadChunk>
    ensures { (m : Image) → ImageAt image.entry.bytes.now m → PoolJudges heights.now m m.pool output.old result output.new }
{
    let marks = &mut [0u32; 65536];
    let mut judge = Judging { output, marks };
    judge.judge_image(image, heights)
}
