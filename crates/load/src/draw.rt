// The generator of draws.
ghost use Rattle.std.specs.Prelude.{◌≡◌, ◌*◌, ◌%◌, ◌^◌, ◌<◌};
ghost use Rattle.load.specs.Draw.{draw};

const MULTIPLIER: u32 = 1664525;

const INCREMENT: u32 = 1013904223;

// The product modulo 2^32, of sums that wrap.
// Kept: no library's `wrapping_mul`: document 01 asks for a helper over wrapping sums here.
pub fn wrapping_mul(a: u32, b: u32) -> u32
    ensures { result ≡ a * b % 2 ^ 32 }
{
    if b == 0 {
        return 0;
    }
    let half = wrapping_mul(a, b / 2);
    let double = half.wrapping_add(half);
    if b % 2 == 0 {
        return double;
    }
    double.wrapping_add(a)
}

// A generator, by its state.
#[derive(Drop)]
pub struct Draws {
    pub state: u32,
}

impl Draws {
    // One of so many choices, by the state after its step.
    pub fn draw(&mut self, choices: usize) -> usize
        requires { 0 < choices }
        ensures is { result ≡ (draw choices self.old.state).value }
        ensures small { result < choices }
        ensures state { self.new.state ≡ (draw choices self.old.state).state }
    {
        self.state = wrapping_mul(self.state, MULTIPLIER).wrapping_add(INCREMENT);
        (self.state / 65536) as usize % choices
    }
}
