//! Kernels that change one run of words by another: union and difference.

ghost use Rattle.std.specs.Prelude.{◌≡◌, ℕ, ◌+◌, ◌*◌, ◌<◌, ◌≤◌, length, bit_or, ◌↔◌, slice_index, false};
ghost use Rattle.std.specs.FinSet as set;
ghost use Rattle.bit_rows.specs.Words.{Merges, Apart, Nothing, KeepsOthers, added, without, kept};

use std::simd::prelude::*;

/// Adds the bits of four words from place `b` on to the four from `a` on, and gives what is new.
#[inline(always)]
fn union_block(words: &mut [u64], a: usize, b: usize) -> u64x4
    requires to { a + 4 ≤ length words.old }
    requires from { b + 4 ≤ length words.old }
    ensures merges { Merges bit_or words.old words.new a b 4 }
    ensures lanes { length result ≡ 4 }
    ensures fresh { (j : ℕ) → j < 4 → slice_index result j ≡ added (slice_index words.old (a + j)) (slice_index words.old (b + j)) }
{
    let old = u64x4::from_slice(&words[a..]);
    let more = u64x4::from_slice(&words[b..]);
    (old | more).copy_to_slice(&mut words[a..]);
    more ^ (more & old)
}

/// Adds the bits of `4 * blocks` words from place `b` on to those from `a` on, four lanes at a
/// time. The answer is 0 exactly where nothing is new.
fn union_blocks(words: &mut [u64], a: usize, b: usize, blocks: usize) -> u64
    requires to { a + 4 * blocks ≤ length words.old }
    requires from { b + 4 * blocks ≤ length words.old }
    requires apart { Apart a b (4 * blocks) }
    ensures merges { Merges bit_or words.old words.new a b (4 * blocks) }
    ensures fresh { (result ≡ 0) ↔ Nothing added words.old a b (4 * blocks) }
{
    let mut fresh = u64x4::splat(0);
    for block in 0..blocks {
        fresh |= union_block(words, a + 4 * block, b + 4 * block);
    }
    fresh.reduce_or()
}

/// Adds the bits of `n` words from place `b` on to those from `a` on, word by word. The answer is
/// 0 exactly where nothing is new.
fn union_plain(words: &mut [u64], a: usize, b: usize, n: usize) -> u64
    requires to { a + n ≤ length words.old }
    requires from { b + n ≤ length words.old }
    requires apart { Apart a b n }
    ensures merges { Merges bit_or words.old words.new a b n }
    ensures fresh { (result ≡ 0) ↔ Nothing added words.old a b n }
{
    let mut fresh = 0;
    for j in 0..n {
        let old = words[a + j];
        let more = words[b + j];
        words[a + j] = old | more;
        fresh |= more ^ (more & old);
    }
    fresh
}

/// Adds the bits of `n` words from place `b` on to those from `a` on. True exactly where that
/// adds a bit.
pub(crate) fn union_words(words: &mut [u64], a: usize, b: usize, n: usize) -> bool
    requires to { a + n ≤ length words.old }
    requires from { b + n ≤ length words.old }
    requires apart { Apart a b n }
    ensures union { kept words.new a n ≡ set.union (kept words.old a n) (kept words.old b n) }
    ensures others { KeepsOthers words.old words.new a n }
    ensures grew { (result ≡ false) ↔ (kept words.new a n ≡ kept words.old a n) }
{
    let blocks = n / 4;
    let whole = 4 * blocks;
    let first = union_blocks(words, a, b, blocks);
    let rest = union_plain(words, a + whole, b + whole, n - whole);
    first | rest != 0
}

/// Takes the bits of four words from place `b` on out of the four from `a` on.
#[inline(always)]
fn take_block(words: &mut [u64], a: usize, b: usize)
    requires to { a + 4 ≤ length words.old }
    requires from { b + 4 ≤ length words.old }
    ensures { Merges without words.old words.new a b 4 }
{
    let old = u64x4::from_slice(&words[a..]);
    let what = u64x4::from_slice(&words[b..]);
    (old ^ (old & what)).copy_to_slice(&mut words[a..]);
}

/// Takes the bits of `4 * blocks` words from place `b` on out of those from `a` on, four lanes at
/// a time.
fn take_blocks(words: &mut [u64], a: usize, b: usize, blocks: usize)
    requires to { a + 4 * blocks ≤ length words.old }
    requires from { b + 4 * blocks ≤ length words.old }
    requires apart { Apart a b (4 * blocks) }
    ensures { Merges without words.old words.new a b (4 * blocks) }
{
    for block in 0..blocks {
        take_block(words, a + 4 * block, b + 4 * block);
    }
}

/// Takes the bits of `n` words from place `b` on out of those from `a` on, word by word.
fn take_plain(words: &mut [u64], a: usize, b: usize, n: usize)
    requires to { a + n ≤ length words.old }
    requires from { b + n ≤ length words.old }
    requires apart { Apart a b n }
    ensures { Merges without words.old words.new a b n }
{
    for j in 0..n {
        let old = words[a + j];
        let what = words[b + j];
        words[a + j] = old ^ (old & what);
    }
}

/// Takes the bits of `n` words from place `b` on out of those from `a` on.
pub(crate) fn take_words(words: &mut [u64], a: usize, b: usize, n: usize)
    requires to { a + n ≤ length words.old }
    requires from { b + n ≤ length words.old }
    requires apart { Apart a b n }
    ensures difference { kept words.new a n ≡ set.difference (kept words.old a n) (kept words.old b n) }
    ensures others { KeepsOthers words.old words.new a n }
{
    let blocks = n / 4;
    let whole = 4 * blocks;
    take_blocks(words, a, b, blocks);
    take_plain(words, a + whole, b + whole, n - whole);
}
