//! The words that pure opcodes give.

ghost use Rattle.std.specs.Prelude.{◌≡◌, ◌<◌, ◌^◌, IsTrue};
ghost use Rattle.b3_base.specs.Word.{bits};
ghost use Rattle.b3_ir.specs.Types.{AllowsTypes, width_of};
ghost use Rattle.b3_meaning.specs.Foldable.{IsFoldable};
ghost use Rattle.b3_meaning.specs.Opcodes.{AreWordsOf};

use crate::arithmetic::hex;
use b3_ir::{Kind, Opcode, Ty, allows_types};
use b3_items::{read_kind, read_type};
use b3_meaning::{Role, fold, role_of};
use std::alloc::Global;
use std::test::Fail;
use tests_rows::Teller;

/// Tells the word of an opcode, as it is asked by its type, its kind, and the type and the word of each child.
#[derive(Drop)]
pub(crate) struct Folding;

impl Teller for Folding {
    fn told(&mut self, alloc: Global, asked: &str) -> Result<String, Fail> {
        let mut parts = asked.split_whitespace();
        let ty = type_named(parts.next().unwrap_or(""))?;
        let kind = read_kind(parts.next().unwrap_or("").as_bytes()).ok_or("no kind")?;
        let mut types = Vec::new(alloc);
        let mut words = Vec::new(alloc);
        while let Some(part) = parts.next() {
            types.push(type_named(part)?)?;
            words.push(hex(parts.next().unwrap_or(""))?)?;
        }
        match folded(kind, ty, words.as_slice(), types.as_slice())? {
            Some(word) => Ok(format!(in alloc; "{word:X}")?),
            None => Ok(String::from_str(alloc, "undefined")?),
        }
    }
}

fn type_named(name: &str) -> Result<Ty, Fail> {
    Ok(read_type(name.as_bytes()).ok_or("no type")?)
}

/// The word, where there may be one.
fn folded(kind: Kind, ty: Ty, words: &[u64], types: &[Ty]) -> Result<Option<u64>, Fail> {
    if !is_foldable(kind.opcode, ty, words, types) {
        return Err(Fail::from("no such value"));
    }
    Ok(fold(kind.opcode, kind.chill, ty, words, types))
}

#[tactic(auto, using(crate::proofs::Foldable::foldable))]
fn is_foldable(opcode: Opcode, ty: Ty, words: &[u64], types: &[Ty]) -> bool
    ensures { IsTrue result → IsFoldable opcode ty words.now types.now }
{
    match role_of(opcode) {
        Role::Pure => are_children(opcode, ty, words, types),
        _ => false,
    }
}

/// Whether a row allows these types, and these are words of them.
#[tactic(auto, using(crate::proofs::Foldable::allowed_by_test))]
fn are_children(opcode: Opcode, ty: Ty, words: &[u64], types: &[Ty]) -> bool
    ensures types { IsTrue result → AllowsTypes opcode ty types.now }
    ensures words { IsTrue result → AreWordsOf types.now words.now }
{
    allows_types(opcode, ty, types) && are_words(types, words)
}

/// Whether these are words of these types, of three at most.
fn are_words(types: &[Ty], words: &[u64]) -> bool
    ensures { IsTrue result → AreWordsOf types.now words.now }
{
    match (types, words) {
        ([a], [x]) => is_word(*a, *x),
        ([a, b], [x, y]) => is_word(*a, *x) && is_word(*b, *y),
        ([a, b, c], [x, y, z]) => is_word(*a, *x) && is_word(*b, *y) && is_word(*c, *z),
        _ => false,
    }
}

fn is_word(ty: Ty, word: u64) -> bool
    ensures { IsTrue result → word < 2 ^ bits (width_of ty) }
{
    match ty {
        Ty::Void => false,
        Ty::Int32 => word < 0x1_0000_0000,
        Ty::Int64 => true,
    }
}
