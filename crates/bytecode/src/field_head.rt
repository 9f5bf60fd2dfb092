// The heads of fields: their tag and content length, and which field they begin.
ghost use Rattle.std.specs.Prelude.{◌≡◌};
ghost use Rattle.bytecode.specs.Checked.{head_of, is_constant, is_pool, is_main, is_name};

use crate::Form;
use definition::{limit, tag};

// A field's tag and content length.
#[derive(Clone, Copy)]
pub struct Head {
    pub tag: u8,
    pub len: usize,
}

impl Head {
    // Whether it is a constant's.
    pub fn is_constant(self, form: Form) -> bool
        ensures { result ≡ is_constant form (head_of self) }
    {
        match self.tag {
            tag::INTEGER_CONST => self.len == 8,
            tag::STRING_CONST => true,
            tag => tag == form.tags().function && 3 <= self.len,
        }
    }

    // Whether it is a pool's.
    pub fn is_pool(self) -> bool
        ensures { result ≡ is_pool (head_of self) }
    {
        self.tag == tag::POOL && self.len <= limit::POOL_LIMIT
    }

    // Whether it is that of an image's main code.
    pub fn is_main(self, form: Form) -> bool
        ensures { result ≡ is_main form (head_of self) }
    {
        self.tag == form.tags().main && self.len <= limit::CODE_SIZE
    }

    // Whether it is a name's.
    pub fn is_name(self) -> bool
        ensures { result ≡ is_name (head_of self) }
    {
        self.tag == tag::NAME && 1 <= self.len && self.len <= limit::NAME_LIMIT
    }
}
