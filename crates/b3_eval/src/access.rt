//! Loads and stores.

ghost use Rattle.std.specs.Prelude.{◌≡◌, ◌⊎◌, [], ◌∷◌, if◌then◌else◌, List, IfOk};
ghost use Rattle.std.specs.List.{list_any};
ghost use Rattle.b3_base.specs.Observed.{start_of, in_range as is_in, Answer as LeftAnswer};
ghost use Rattle.b3_eval.specs.Stands.{state_of, Shows};
ghost use Rattle.b3_meaning.specs.Access as spec;
ghost use Rattle.b3_meaning.specs.Opcodes.{UnmappedByte};
ghost use Rattle.b3_meaning.specs.Roles as roles;
ghost use Rattle.b3_meaning.specs.Run as run;

use crate::children::width_of;
use crate::state::{Flow, State};
use b3_base::{NoMemory, Range, Start, Status, Width, low, sext};
use b3_ir::{Body, Ty, Value};
use b3_meaning::Extent;

/// A load of a value's pointer.
pub(crate) fn load(
    start: &Start,
    st: &mut State,
    v: &Value,
    extent: Extent,
    extends: bool,
    words: &[u64],
) -> Result<Flow, NoMemory>
    ensures { (rest : List LeftAnswer) → IfOk result (λ flow. Shows flow (state_of rest st.new)
        (run.loads (start_of start.now) (state_of rest st.old) v.now extent extends v.now.body words.now)) }
{
    match (&v.body, words) {
        (Body::Offset(offset), [pointer]) => {
            load_at(start, st, v, extent, extends, *offset, *pointer)
        }
        _ => Ok(Flow::Lost),
    }
}

/// A load of a pointer with an offset.
fn load_at(
    start: &Start,
    st: &mut State,
    v: &Value,
    extent: Extent,
    extends: bool,
    offset: i32,
    pointer: u64,
) -> Result<Flow, NoMemory>
    ensures { (rest : List LeftAnswer) → IfOk result (λ flow. Shows flow (state_of rest st.new)
        (run.loads (start_of start.now) (state_of rest st.old) v.now extent extends
        (Body.Offset offset) (pointer ∷ []))) }
{
    let address = offset_address(pointer, offset);
    let bytes = extent_bytes(extent, v.ty);
    if touches_private(start, address, bytes) {
        return Ok(Flow::Lost);
    }
    match st.memory.read(address, bytes) {
        Some(word) => st.give(v.id, Some(extended(extends, bytes, word))),
        None => Ok(refused(v, address)),
    }
}

/// A store of a value's first child at its second.
pub(crate) fn store(
    start: &Start,
    st: &mut State,
    v: &Value,
    extent: Extent,
    types: &[Ty],
    words: &[u64],
) -> Flow
    ensures { (rest : List LeftAnswer) → Shows result (state_of rest st.new)
        (run.stores (start_of start.now) (state_of rest st.old) v.now extent v.now.body types.now words.now) }
{
    let (Body::Offset(offset), [ty, ..], [word, pointer]) = (&v.body, types, words) else {
        return Flow::Lost;
    };
    let address = offset_address(*pointer, *offset);
    let bytes = extent_bytes(extent, *ty);
    if touches_private(start, address, bytes) {
        return Flow::Lost;
    }
    if st.memory.write(address, bytes, *word) {
        Flow::Next
    } else {
        refused(v, address)
    }
}

/// What an access of unmapped bytes comes to.
fn refused(v: &Value, address: u64) -> Flow
    ensures { (st : run.State) (done : run.Effect)
        → Shows result st (run.accesses st v.now.id
        (if v.now.kind.traps then spec.Trap address else spec.Refused UnmappedByte) done) }
{
    if v.kind.traps {
        Flow::Over(Status::Trapped {
            value: v.id,
            address,
        })
    } else {
        Flow::Lost
    }
}

/// How many bytes an access touches.
fn extent_bytes(extent: Extent, ty: Ty) -> u32
    ensures value { result ≡ roles.extent_bytes extent ty }
    ensures size { (result ≡ 1) ⊎ (result ≡ 2) ⊎ (result ≡ 4) ⊎ (result ≡ 8) }
{
    match extent {
        Extent::Byte => 1,
        Extent::Half => 2,
        Extent::Whole => match width_of(ty) {
            Width::W32 => 4,
            Width::W64 => 8,
        },
    }
}

/// The address at a pointer, modulo 2^64.
fn offset_address(pointer: u64, offset: i32) -> u64
    ensures { result ≡ spec.offset_address pointer offset }
{
    pointer.wrapping_add_signed(i64::from(offset))
}

/// What a load of some bytes gives: zeros above them, or their sign in 32 bits.
fn extended(extends: bool, bytes: u32, word: u64) -> u64
    requires { (bytes ≡ 1) ⊎ (bytes ≡ 2) ⊎ (bytes ≡ 4) ⊎ (bytes ≡ 8) }
    ensures { result ≡ run.extended extends bytes word }
{
    if extends {
        low(Width::W32, sext(8 * bytes, word))
    } else {
        word
    }
}

/// Whether one of the bytes from an address on is private.
fn touches_private(start: &Start, address: u64, bytes: u32) -> bool
    ensures { result ≡ spec.touches_private (start_of start.now) address bytes }
{
    let mut touched = false;
    for i in 0..bytes {
        touched = touched || is_private(start, address.wrapping_add(u64::from(i)));
    }
    touched
}

/// Whether a byte is hidden or one of the code.
fn is_private(start: &Start, address: u64) -> bool
    ensures { result ≡ spec.is_private (start_of start.now) address }
{
    is_hidden(start.hidden.as_slice(), address) || in_range(address, start.code)
}

fn is_hidden(hidden: &[Range], address: u64) -> bool
    ensures { result ≡ list_any (is_in address) hidden.now }
{
    hidden.iter().any(|range| in_range(address, *range))
}

/// Whether an address is one of a range.
pub(crate) fn in_range(address: u64, range: Range) -> bool
    ensures { result ≡ is_in address range }
{
    address >= range.first && address - range.first < range.len
}
