//! What is known of a value by its id.

ghost use Rattle.std.specs.Prelude.{◌≡◌};
ghost use Rattle.air_fold.specs.Values as values;

use b3_ir::{Body, Children, Opcode, Ty, Value};

/// What is looked up of a value: its type, its opcode, the block in which it stands, the word of a constant,
/// its first two children, and the offset of an access.
#[derive(Clone, Copy)]
pub struct Known {
    pub ty: Ty,
    pub opcode: Opcode,
    pub block: u32,
    pub word: u64,
    pub first: u32,
    pub second: u32,
    pub offset: i64,
}

/// What is known where an id names no value.
pub(crate) fn unknown() -> Known
    ensures { result ≡ values.unknown }
{
    Known {
        ty: Ty::Void,
        opcode: Opcode::Nop,
        block: 0,
        word: 0,
        first: 0,
        second: 0,
        offset: 0,
    }
}

/// What is known of a value in a block.
pub(crate) fn known_in(block: u32, value: &Value) -> Known
    ensures { result ≡ values.known_in block value.now }
{
    Known {
        ty: value.ty,
        opcode: value.kind.opcode,
        block,
        word: word_in(&value.body),
        first: child(&value.children, 0),
        second: child(&value.children, 1),
        offset: offset_in(&value.body),
    }
}

/// The word of a constant.
pub fn word_in(body: &Body) -> u64
    ensures { result ≡ values.word_in body.now }
{
    match body {
        Body::Constant(word) => *word,
        _ => 0,
    }
}

/// A child of a value, 0 where it has none at this place.
pub fn child(children: &Children, at: usize) -> u32
    ensures { result ≡ values.child children.now at }
{
    if at < children.len() {
        *children.get(at)
    } else {
        0
    }
}

/// The offset of an access, in bytes.
pub fn offset_in(body: &Body) -> i64
    ensures { result ≡ values.offset_in body.now }
{
    match body {
        Body::Offset(offset) => i64::from(*offset),
        _ => 0,
    }
}
