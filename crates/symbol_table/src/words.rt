// The builtins: the words that a session begins with, or document 01's.
ghost use Rattle.std.specs.Prelude.{◌≡◌};
ghost use Rattle.definition.specs.SymbolTable.{Symbol, find_builtin};
ghost use Rattle.definition.specs.Decode.{words_in};
ghost use Rattle.symbol_table.specs.Contract.{hit_of, as_symbol, HasWords};

use super::layout::BUILTIN;
use definition::builtins::SIX_WORDS;
use definition::tag;
use field::after_at;
use field::fields::Fields;
use field::names::find_name;

// The builtin of a name, among the words that a session begins with, or document 01's.
pub fn find_builtin(names: &[u8], name: &[u8]) -> Option<u32>
    requires { HasWords names.now }
    ensures { hit_of result ≡ as_symbol Symbol.builtin (find_builtin name.now (words_in names.now) 0) }
{
    let words = if names.first() != Some(&tag::WORDS) {
        Fields::new(SIX_WORDS, 3, 45)
    } else {
        Fields::new(names, 3, after_at(names, 0))
    };
    let k = find_name(words, name)?;
    Some(BUILTIN + k as u32)
}
