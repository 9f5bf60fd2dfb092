// What emission is lent and what it changes.
ghost use Rattle.std.specs.Prelude.{◌≤◌, length};
ghost use Rattle.definition.specs.Limit.{code_size};
ghost use Rattle.scope.specs.View.{Fits};

use super::State;

// The code area that is lent, and the state: a chunk within the area is in work.
#[derive(Drop)]
pub struct Scope<'a> {
    pub code: &'a mut [u8],
    pub state: State,
    pub ghost area: { code_size ≤ length code.now },
    pub ghost fits: { Fits state },
}
