//! The procedure of a name.

ghost use Rattle.std.specs.Prelude.{◌≡◌, ◌↔◌, IfSome, IfNone, IsTrue, slice_get, Some};
ghost use Rattle.std.specs.List.{Contains};
ghost use Rattle.elf_obj.specs.Good.{names_of};
ghost use Rattle.elf_obj.specs.declared.object.Symbol.{Symbol as Named};

use elf_obj::{Object, Symbol};

/// Whether a procedure has a name.
fn has_name(symbol: &Symbol, name: &str) -> bool
    ensures { IsTrue result ↔ (symbol.now.name ≡ name.now) }
{
    symbol.name.as_slice() == name.as_bytes()
}

/// The place of the procedure of a name, `None` exactly where no symbol has the name.
pub(crate) fn procedure_of(object: &Object, name: &str) -> Option<usize>
    ensures some { IfSome result (λ k. (symbol : Named) × (slice_get object.now.symbols k ≡ Some symbol) × (symbol.name ≡ name.now)) }
    ensures none { IfNone result (¬ (Contains (names_of object.now.symbols) name.now)) }
{
    for (k, symbol) in object.symbols.as_slice().iter().enumerate() {
        if has_name(symbol, name) {
            return Some(k);
        }
    }
    None
}
