//! One raw allocation with room for `PLACES` values. The values stand in its first places.

ghost use Rattle.std.specs.Prelude.{◌≡◌, ◌+◌, ◌<◌, List, [], ◌∷◌, ◌++◌, length, slice_get, Some, IfOk, IsTrue, ◌↔◌};
ghost use Rattle.std.specs.Borrow.{sem};
ghost use Rattle.ir_arena.specs.Block.{FitsBlock, block_owns, block_lends};

use std::alloc::{AllocError, Allocator};
use std::marker::{Model, PhantomData, Send, Sync};
use std::mem::{align_of, size_of};

/// The number of places of a block.
pub(crate) const PLACES: usize = 64;

/// The one owner of an allocation: of its values, of the room after them, and of the right to free it.
pub(crate) struct Block<T, A: Allocator> {
    start: *mut T,
    by: PhantomData<A>,
    ghost alloc: { A },
    ghost items: { List T },
}

impl<T, A: Allocator> Model for Block<T, A> {
    ghost also_owns = { λ b. block_owns T.row (A.dealloc_token b.alloc) b.start b.items };

    ghost also_shares = { λ b _ κ. block_lends T.row b.start b.items κ };
}

// It crosses threads as its values and its allocator do.
unsafe impl<T: Send, A: Allocator + Send> Send for Block<T, A> {}

unsafe impl<T: Sync, A: Allocator + Sync> Sync for Block<T, A> {}

/// Whether `PLACES` values take fewer than 2^63 bytes, which is the most that an allocation may have.
pub(crate) fn fits_block<T>() -> bool
    ensures { IsTrue result ↔ FitsBlock T.row }
{
    size_of::<T>() < 0x200_0000_0000_0000
}

/// A block with no value yet.
pub(crate) fn allocate<T, A: Allocator>(alloc: &A) -> Result<Block<T, A>, AllocError>
    requires { FitsBlock T.row }
    ensures alloc { IfOk result (λ block. block.alloc ≡ alloc.now) }
    ensures items { IfOk result (λ block. block.items ≡ []) }
{
    match alloc.allocate(PLACES * size_of::<T>(), align_of::<T>()) {
        Ok(room) => Ok(Block {
            start: room as *mut T,
            by: PhantomData,
        }),
        Err(refusal) => Err(refusal),
    }
}

/// Frees a block with no value left.
pub(crate) fn release<T, A: Allocator>(block: Block<T, A>, alloc: &A)
    requires alloc { block.alloc ≡ alloc.now }
    requires items { block.items ≡ [] }
{
    let Block { start, by: _ } = block;
    unsafe {
        alloc.deallocate(start as *mut u8, PLACES * size_of::<T>(), align_of::<T>());
    }
}

impl<T, A: Allocator> Block<T, A> {
    ghost use Rattle.ir_arena.specs.BlockLends.{lends_item};

    /// Writes a value into the place after the last value.
    pub(crate) fn put(&mut self, len: usize, value: T)
        requires len { len ≡ length self.old.items }
        requires room { len < PLACES }
        ensures alloc { self.new.alloc ≡ self.old.alloc }
        ensures items { self.new.items ≡ self.old.items ++ value ∷ [] }
    {
        unsafe { self.start.add(len).write(value) }
    }

    /// Moves the last value out of its place.
    pub(crate) fn take(&mut self, last: usize) -> T
        requires { length self.old.items ≡ last + 1 }
        ensures alloc { self.new.alloc ≡ self.old.alloc }
        ensures items { self.old.items ≡ self.new.items ++ result ∷ [] }
    {
        unsafe { self.start.add(last).read() }
    }

    /// The value at a place.
    pub(crate) fn get(&self, at: usize) -> &T
        requires { at < length self.now.items }
        ensures { slice_get self.now.items at ≡ Some result.now }
    {
        unsafe { &*self.start.add(at) }
    }

    /// The value at a place, to be changed.
    pub(crate) fn get_mut(&mut self, at: usize) -> &mut T
        requires { at < length self.old.items }
        ensures* lends { sem 𝓛 (lends_item T.row A.row A.Allocator self.entry at result) }
        ensures value { slice_get self.old.items at ≡ Some result.now }
    {
        unsafe { &mut *self.start.add(at) }
    }
}
