// The lines of the pool.
ghost use Rattle.std.specs.Prelude.{◌≡◌, List, ◌+◌, length};
ghost use Rattle.definition.specs.Basic.{byte_at};
ghost use Rattle.definition.specs.Bytecode.{Code, Const};
ghost use Rattle.definition.specs.Listing.{constant_fields, constant_lines};
ghost use Rattle.listing.specs.Put.{Puts};
ghost use Rattle.listing.specs.Reads.{CodeAt, HasCode, ConstantAt, HasConstant, PoolIn, HasPoolIn, function_of, function_head, pool_text};

use crate::text::Writer;
use bytecode::Span;
use definition::tag;
use field::{length_at, wide, word};

impl<'a> Writer<'a> {
    // Puts an integer constant behind its index.
    fn put_integer(&mut self, content: &[u8; 8])
        ensures { Puts self.old self.new (constant_fields (Const.integer content.now)) }
    {
        self.put_bytes(b" integer ");
        self.put_signed(content);
        self.put_newline();
    }

    // Puts a string constant behind its index.
    fn put_string(&mut self, content: &[u8])
        ensures { Puts self.old self.new (constant_fields (Const.string content.now)) }
    {
        self.put_bytes(b" string");
        self.put_field(content.len());
        self.put_hex_field(content);
        self.put_newline();
    }

    // Puts the three numbers of a function constant.
    fn put_numbers(&mut self, locals: usize, parameters: usize, size: usize)
        ensures { Puts self.old self.new (function_head locals parameters size) }
    {
        self.put_bytes(b" function");
        self.put_field(locals);
        self.put_field(parameters);
        self.put_field(size);
        self.put_newline();
    }

    // Puts a function constant behind its index.
    fn put_function(&mut self, content: Span<'_>)
        requires { HasCode content.bytes.now (content.start + 3) content.end }
        ensures { (c : Code) → CodeAt content.entry.bytes.now (content.entry.start + 3) content.entry.end c → Puts self.old self.new (constant_fields (function_of (byte_at content.entry.bytes.now) content.entry.start c)) }
    {
        let Span { bytes, start, end } = content;
        let locals = word(bytes[start], bytes[start + 1]);
        let parameters = wide(bytes[start + 2]);
        let code = Span {
            start: start + 3,
            ..content
        };
        self.put_numbers(locals, parameters, end - code.start);
        self.put_code(code);
    }

    // Puts the constant at the start of a part behind its index, by its tag.
    fn put_constant(&mut self, part: Span<'_>)
        requires { HasConstant part.bytes.now part.start part.end }
        ensures { (x : Const) → ConstantAt part.entry.bytes.now part.entry.start part.entry.end x → Puts self.old self.new (constant_fields x) }
    {
        let bytes = part.bytes;
        let start = part.start + 3;
        let end = start + length_at(bytes, part.start);
        match bytes[part.start] {
            tag::INTEGER_CONST => self.put_integer(bytes[start..].first_chunk().unwrap()),
            tag::STRING_CONST => self.put_string(&bytes[start..end]),
            _ => self.put_function(Span { bytes, start, end }),
        }
    }

    // Puts the lines of the constants of a pool.
    fn put_constants(&mut self, pool: Span<'_>)
        requires { HasPoolIn pool }
        ensures { (cs : List Const) → PoolIn pool.entry cs → Puts self.old self.new (constant_lines cs) }
    {
        for (index, constant) in pool.constants().enumerate() {
            self.put_decimal(index);
            self.put_constant(constant);
        }
    }

    // Puts the lines of a pool, which has so many constants.
    pub fn put_pool(&mut self, pool: Span<'_>, count: usize)
        requires { HasPoolIn pool }
        ensures { (cs : List Const) → PoolIn pool.entry cs → count ≡ length cs → Puts self.old self.new (pool_text cs) }
    {
        self.put_bytes(b"pool");
        self.put_field(count);
        self.put_newline();
        self.put_constants(pool);
    }
}
