// Writing an image.
ghost use Rattle.std.specs.Prelude.{◌≡◌, ◌++◌, ◌+◌, ◌≤◌, length};
ghost use Rattle.definition.specs.Output.{over};
ghost use Rattle.definition.specs.Field.{field};
ghost use Rattle.definition.specs.Tag.{tag_main, tag_pool};

use crate::write;
use definition::tag;

// Writes main code and pool to the front of the output.
pub fn write_image(output: &mut [u8], code: &[u8], pool: &[u8])
    requires { 6 + length code.now + length pool.now ≤ length output.old }
    ensures { output.new ≡ over (field tag_main code.now ++ field tag_pool pool.now) output.old }
{
    write::put_field(output, 0, tag::MAIN, code);
    write::put_field(output, 3 + code.len(), tag::POOL, pool);
}
