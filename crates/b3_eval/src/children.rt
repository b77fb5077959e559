//! The types and words of a value's children.

ghost use Rattle.std.specs.Prelude.{◌≡◌, ◌^◌, IfOk, map, nat_lt};
ghost use Rattle.std.specs.BTreeMap as tree;
ghost use Rattle.std.specs.Ordering.{nat_cmp};
ghost use Rattle.b3_base.specs.Word.{bits};
ghost use Rattle.b3_eval.specs.Lookup.{type_in};
ghost use Rattle.b3_ir.specs.Types as types_of;
ghost use Rattle.b3_meaning.specs.Run as run;

use crate::state::word_at;
use crate::types::type_at;
use b3_base::{NoMemory, Seq, Width, Words};
use b3_ir::Ty;
use std::alloc::Global;
use std::collections::BTreeMap;

/// The types of some children.
pub(crate) fn child_types(
    alloc: Global,
    types: &BTreeMap<u32, Ty>,
    children: &[u32],
) -> Result<Seq<Ty>, NoMemory>
    ensures { IfOk result (λ found. found ≡ map (type_in types.now) children.now) }
{
    let mut found = Seq::new(alloc);
    for child in children {
        found.push(type_at(types, *child))?;
    }
    Ok(found)
}

/// The words of some children, where each has a word of its type.
pub(crate) fn child_words(
    alloc: Global,
    types: &BTreeMap<u32, Ty>,
    words: &BTreeMap<u32, u64>,
    children: &[u32],
) -> Result<Option<Words>, NoMemory>
    ensures { IfOk result (λ found. found
        ≡ run.words_of (type_in types.now) (tree.get nat_cmp words.now) children.now) }
{
    let mut found = Seq::new(alloc);
    for child in children {
        match child_word(types, words, *child) {
            Some(word) => found.push(word)?,
            None => return Ok(None),
        }
    }
    Ok(Some(found))
}

/// The word of a child, where it has one of its type.
fn child_word(types: &BTreeMap<u32, Ty>, words: &BTreeMap<u32, u64>, child: u32) -> Option<u64>
    ensures { result ≡ run.word_in (types_of.width_of (type_in types.now child)) (tree.get nat_cmp words.now child) }
{
    match word_at(words, child) {
        Some(word) if is_word_of(type_at(types, child), word) => Some(word),
        _ => None,
    }
}

/// Whether a word is one of a type.
fn is_word_of(ty: Ty, word: u64) -> bool
    ensures { result ≡ nat_lt word (2 ^ bits (types_of.width_of ty)) }
{
    match width_of(ty) {
        Width::W32 => word < 0x1_0000_0000,
        Width::W64 => true,
    }
}

/// The width of the words of a type.
pub(crate) fn width_of(ty: Ty) -> Width
    ensures { result ≡ types_of.width_of ty }
{
    match ty {
        Ty::Int32 => Width::W32,
        Ty::Void | Ty::Int64 => Width::W64,
    }
}
