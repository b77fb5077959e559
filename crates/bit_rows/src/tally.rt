//! Kernels that only read runs of words: whether two meet, and how many bits one has.

ghost use Rattle.std.specs.Prelude.{◌≡◌, ℕ, ◌+◌, ◌*◌, ◌^◌, ◌<◌, ◌≤◌, length, bit_and, ◌↔◌, slice_index, false};
ghost use Rattle.std.specs.FinSet as set;
ghost use Rattle.bit_rows.specs.Words.{Nothing, ones_from, kept};

use std::simd::prelude::*;

/// The bits that four words from place `a` on and four from `b` on have in common.
#[inline(always)]
fn meet_block(words: &[u64], a: usize, b: usize) -> u64x4
    requires first { a + 4 ≤ length words.now }
    requires second { b + 4 ≤ length words.now }
    ensures lanes { length result ≡ 4 }
    ensures common { (j : ℕ) → j < 4 → slice_index result j ≡ bit_and (slice_index words.now (a + j)) (slice_index words.now (b + j)) }
{
    u64x4::from_slice(&words[a..]) & u64x4::from_slice(&words[b..])
}

/// 0 exactly where `4 * blocks` words from place `a` on have no bit in common with those from `b`
/// on; four lanes at a time.
fn meet_blocks(words: &[u64], a: usize, b: usize, blocks: usize) -> u64
    requires first { a + 4 * blocks ≤ length words.now }
    requires second { b + 4 * blocks ≤ length words.now }
    ensures { (result ≡ 0) ↔ Nothing bit_and words.now a b (4 * blocks) }
{
    let mut common = u64x4::splat(0);
    for block in 0..blocks {
        common |= meet_block(words, a + 4 * block, b + 4 * block);
    }
    common.reduce_or()
}

/// 0 exactly where `n` words from place `a` on have no bit in common with those from `b` on; word
/// by word.
fn meet_plain(words: &[u64], a: usize, b: usize, n: usize) -> u64
    requires first { a + n ≤ length words.now }
    requires second { b + n ≤ length words.now }
    ensures { (result ≡ 0) ↔ Nothing bit_and words.now a b n }
{
    let mut common = 0;
    for j in 0..n {
        common |= words[a + j] & words[b + j];
    }
    common
}

/// False exactly where `n` words from place `a` on have no bit in common with those from `b` on.
pub(crate) fn meet_words(words: &[u64], a: usize, b: usize, n: usize) -> bool
    requires first { a + n ≤ length words.now }
    requires second { b + n ≤ length words.now }
    ensures { (result ≡ false) ↔ (set.intersection (kept words.now a n) (kept words.now b n) ≡ set.empty) }
{
    let blocks = n / 4;
    let whole = 4 * blocks;
    let first = meet_blocks(words, a, b, blocks);
    let rest = meet_plain(words, a + whole, b + whole, n - whole);
    first | rest != 0
}

/// The ones in four words from place `at` on.
#[inline(always)]
fn count_block(words: &[u64], at: usize) -> u64
    requires { at + 4 ≤ length words.now }
    ensures { result ≡ ones_from words.now at 4 }
{
    u64x4::from_slice(&words[at..])
        .count_ones()
        .strict_reduce_sum()
}

/// The ones in `4 * blocks` words from place `at` on, four lanes at a time.
fn count_blocks(words: &[u64], at: usize, blocks: usize) -> u64
    requires within { at + 4 * blocks ≤ length words.now }
    requires few { 4 * blocks < 2 ^ 50 }
    ensures { result ≡ ones_from words.now at (4 * blocks) }
{
    let mut total = 0;
    for block in 0..blocks {
        total += count_block(words, at + 4 * block);
    }
    total
}

/// The ones in `n` words from place `at` on, word by word.
fn count_plain(words: &[u64], at: usize, n: usize) -> u64
    requires within { at + n ≤ length words.now }
    requires few { n < 2 ^ 50 }
    ensures { result ≡ ones_from words.now at n }
{
    let mut total = 0;
    for j in 0..n {
        total += u64::from(words[at + j].count_ones());
    }
    total
}

/// The ones in `n` words from place `at` on.
pub(crate) fn count_words(words: &[u64], at: usize, n: usize) -> u64
    requires within { at + n ≤ length words.now }
    requires few { n < 2 ^ 50 }
    ensures { result ≡ set.len (kept words.now at n) }
{
    let blocks = n / 4;
    let whole = 4 * blocks;
    let first = count_blocks(words, at, blocks);
    first + count_plain(words, at + whole, n - whole)
}
