//! Which values are folded, by one pass over the uses.

ghost use Rattle.std.specs.Prelude.{◌≡◌, ℕ, ◌<◌, ◌≤◌, ◌&&◌, ◌||◌, not, ◌++◌, ◌∷◌, [], length, map, nat_eq, IfOk, OnOk, suc};
ghost use Rattle.b3_ir.specs.Types as types;
ghost use Rattle.b3_rules.specs.Valid.{IsValidProcedure};
ghost use Rattle.air_fold.specs.Foldable as fold;
ghost use Rattle.air_fold.specs.Values as values;
ghost use Rattle.air_fold.specs.Tallied as tallied;

use crate::accesses::{access_bytes, reaches};
use crate::index::Index;
use crate::known::Known;
use crate::rows::{
    is_add, is_bit, is_comparison, is_constant, is_first, is_second, is_shl, width_of,
};
use b3_base::{NoMemory, Seq};
use b3_ir::{Opcode, Proc, Value};
use std::alloc::Global;

/// What the uses of a value add up to, as far as they are seen: 0, 1, or 2 for more, and whether each fits.
#[derive(Clone, Copy)]
pub(crate) struct Tally {
    pub(crate) count: u32,
    pub(crate) fit: bool,
}

/// A use: the block, the id and the opcode of the value that uses another one, and which child that is.
#[derive(Clone, Copy)]
pub(crate) struct Used {
    pub(crate) block: u32,
    pub(crate) user: u32,
    pub(crate) opcode: Opcode,
    pub(crate) at: usize,
}

impl Tally {
    /// The tally with one more use.
    fn with(self, fits: bool) -> Tally
        ensures { result ≡ tallied.with_use self fits }
    {
        Tally {
            count: if self.count < 2 { self.count + 1 } else { 2 },
            fit: self.fit && fits,
        }
    }
}

/// Whether a constant fits in a use as an immediate.
fn constant_fits(known: Known, used: Used) -> bool
    ensures { result ≡ fold.constant_fits used.opcode used.at (types.width_of known.ty) known.word }
{
    match used.at {
        0 => is_first(used.opcode, width_of(known.ty), known.word),
        1 => is_second(used.opcode, width_of(known.ty), known.word),
        _ => false,
    }
}

/// Whether a value is known to be folded as a pointer.
fn is_pointer(index: &Index, pointers: &Seq<bool>, id: u32) -> bool
    ensures { result ≡ fold.is_pointer index.now pointers.now id }
{
    let place = index.place(id) as usize;
    place < pointers.len() && *pointers.get(place)
}

/// Whether a constant fits in a use as a part of a sum that is folded as a pointer.
fn sum_fits(index: &Index, pointers: &Seq<bool>, used: Used) -> bool
    ensures { result ≡ fold.sum_fits index.now pointers.now used.opcode used.at used.user }
{
    used.opcode == Opcode::Add && used.at == 1 && is_pointer(index, pointers, used.user)
}

/// Whether a value is the conjunction with a constant of one bit.
fn is_bit_test(index: &Index, known: Known) -> bool
    ensures { result ≡ fold.is_bit_test index.now known }
{
    let second = index.known(known.second);
    known.opcode == Opcode::BitAnd && is_constant(second.opcode) && is_bit(second.word)
}

/// Whether a value is the constant 3.
fn is_three(known: Known) -> bool
    ensures { result ≡ fold.is_three known }
{
    is_constant(known.opcode) && known.word == 3
}

/// Whether the children of a shift make it one by 3 bits, of no constant.
fn is_scale(first: Known, second: Known) -> bool
    ensures { result ≡ (fold.is_three second && not (fold.is_constant first.opcode)) }
{
    is_three(second) && !is_constant(first.opcode)
}

/// Whether a value is a shift to the left by 3 bits, of no constant.
fn is_index(index: &Index, known: Known) -> bool
    ensures { result ≡ fold.is_index index.now known }
{
    let first = index.known(known.first);
    let second = index.known(known.second);
    is_shl(known.opcode) && is_scale(first, second)
}

/// Whether a value fits in a use as the pointer of an access.
fn pointer_fits(index: &Index, used: Used, is_word: bool, known: Known) -> bool
    ensures { result ≡ fold.pointer_of index.now used.user used.opcode is_word known }
{
    let user = index.known(used.user);
    let second = index.known(known.second);
    let bytes = access_bytes(index, used.opcode, user);
    is_add(known.opcode) && reaches(bytes, is_word, user.offset, second)
}

/// Whether a value that is no constant fits in a use as a first child.
fn first_fits(index: &Index, known: Known, used: Used) -> bool
    ensures { result ≡ fold.first_fits index.now used.opcode used.user known }
{
    match used.opcode {
        Opcode::Branch | Opcode::Check => is_comparison(known.opcode) || is_bit_test(index, known),
        Opcode::Select => is_comparison(known.opcode),
        Opcode::Load8Z | Opcode::Load8S | Opcode::Load16Z | Opcode::Load16S => {
            pointer_fits(index, used, false, known)
        }
        Opcode::Load => pointer_fits(index, used, true, known),
        _ => false,
    }
}

/// Whether one fits as a second child.
fn second_fits(index: &Index, pointers: &Seq<bool>, known: Known, used: Used) -> bool
    ensures { result ≡ fold.second_fits index.now pointers.now used.opcode used.user known }
{
    match used.opcode {
        Opcode::Store8 | Opcode::Store16 => pointer_fits(index, used, false, known),
        Opcode::Store => pointer_fits(index, used, true, known),
        Opcode::Add => is_pointer(index, pointers, used.user) && is_index(index, known),
        _ => false,
    }
}

/// Whether a value that is no constant fits in a use.
fn value_fits(index: &Index, pointers: &Seq<bool>, known: Known, used: Used) -> bool
    ensures { result ≡ fold.value_fits index.now pointers.now used.opcode used.at used.user known }
{
    match used.at {
        0 => first_fits(index, known, used),
        1 => second_fits(index, pointers, known, used),
        _ => false,
    }
}

/// Whether a value fits in a use.
fn fits(index: &Index, pointers: &Seq<bool>, id: u32, used: Used) -> bool
    ensures { result ≡ fold.fits index.now pointers.now (tallied.use_of id used) }
{
    let known = index.known(id);
    if is_constant(known.opcode) {
        constant_fits(known, used) || sum_fits(index, pointers, used)
    } else {
        used.block == known.block && value_fits(index, pointers, known, used)
    }
}

/// Adds a use to the tallies.
fn note_use(tallies: &mut Seq<Tally>, index: &Index, pointers: &Seq<bool>, id: u32, used: Used)
    ensures { tallies.new ≡ tallied.with_one index.now pointers.now tallies.old (tallied.use_of id used) }
{
    let place = index.place(id) as usize;
    if place < tallies.len() {
        let tally = *tallies.get(place);
        tallies.set(place, tally.with(fits(index, pointers, id, used)));
    }
}

/// Adds the uses of a value to the tallies.
fn note_value(
    tallies: &mut Seq<Tally>,
    index: &Index,
    pointers: &Seq<bool>,
    block: u32,
    value: &Value,
)
    ensures { tallies.new ≡ tallied.with_all index.now pointers.now tallies.old (fold.uses_by block value.now) }
{
    let children = value.children.as_slice();
    for at in 0..children.len() {
        let used = Used {
            block,
            user: value.id,
            opcode: value.kind.opcode,
            at,
        };
        note_use(tallies, index, pointers, children[at], used);
    }
}

/// Adds the uses of the values of a block to the tallies.
fn note_block(tallies: &mut Seq<Tally>, index: &Index, pointers: &Seq<bool>, p: &Proc, block: u32)
    requires { block < length p.now.procedure.blocks }
    ensures { tallies.new ≡ tallied.with_all index.now pointers.now tallies.old (tallied.block_uses p.now.procedure block) }
{
    p.whole();
    let mut at = p.first(block as usize);
    while let Some(node) = at {
        note_value(tallies, index, pointers, block, p.value(node));
        at = p.next(node);
    }
}

/// No use yet, for so many values.
fn no_uses(alloc: Global, values: usize) -> Result<Seq<Tally>, NoMemory>
    ensures { IfOk result (λ list. list ≡ tallied.none values) }
{
    let mut list = Seq::new(alloc);
    for _ in 0..values {
        list.push(Tally {
            count: 0,
            fit: true,
        })?;
    }
    Ok(list)
}

/// Whether a value of which this is known is folded, by what its uses add up to.
fn is_folded(known: Known, tally: Tally) -> bool
    ensures { result ≡ tallied.is_folded known tally }
{
    tally.fit && (is_constant(known.opcode) || tally.count == 1)
}

/// For each value whether it is folded, where it is known which sums are folded as pointers.
fn folded_by(
    alloc: Global,
    p: &Proc,
    index: &Index,
    pointers: &Seq<bool>,
) -> Result<Seq<bool>, NoMemory>
    requires valid { IsValidProcedure p.now.procedure }
    requires index { index.now ≡ values.index_of p.now.procedure }
    ensures { IfOk result (λ folds. folds ≡ map
        (fold.is_folded_by (values.index_of p.now.procedure) pointers.now (fold.uses p.now.procedure))
        (values.ids_of p.now.procedure)) }
{
    p.whole();
    let mut tallies = no_uses(alloc, index.known.len())?;
    for block in 0..p.blocks() {
        note_block(&mut tallies, index, pointers, p, block as u32);
    }
    let mut folds = Seq::new(alloc);
    for place in 0..index.known.len() {
        folds.push(is_folded(*index.known.get(place), *tallies.get(place)))?;
    }
    Ok(folds)
}

/// For each value of a valid procedure, in order, whether it is folded. It is refused for want of memory alone.
pub fn folded_values(alloc: Global, p: &Proc, index: &Index) -> Result<Seq<bool>, NoMemory>
    requires valid { IsValidProcedure p.now.procedure }
    requires index { index.now ≡ values.index_of p.now.procedure }
    ensures { IfOk result (λ folds. folds ≡ map (fold.is_foldable p.now.procedure) (values.ids_of p.now.procedure)) }
{
    let none = Seq::new(alloc);
    let pointers = folded_by(alloc, p, index, &none)?;
    folded_by(alloc, p, index, &pointers)
}
