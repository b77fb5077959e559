//! The bits of a run of words as a list.

ghost use Rattle.std.specs.Prelude.{◌≡◌, ◌+◌, ◌*◌, ◌^◌, ◌<◌, ◌≤◌, length, [], OnOk, IfOk};
ghost use Rattle.bit_rows.specs.Words.{Lists, is_one};

use b3_base::{NoMemory, Seq};
use std::alloc::Global;

/// Adds the bits of the word at place `j` of those from place `at` on to a list of the bits before
/// it, lowest bit first, with a step for each bit that is set.
fn add_word(list: &mut Seq<usize>, words: &[u64], at: usize, j: usize) -> Result<(), NoMemory>
    requires within { at + j < length words.now }
    requires few { j < 2 ^ 50 }
    requires listed { Lists (is_one words.now at) (64 * j) list.old }
    ensures { OnOk result (Lists (is_one words.now at) (64 * (j + 1)) list.new) }
{
    let mut left = words[at + j];
    'bits: while left != 0 {
        let bit = left.trailing_zeros();
        left &= !(1u64 << bit);
        list.push(64 * j + bit as usize)?;
    }
    Ok(())
}

/// The bits of `n` words from place `at` on, lowest first.
pub(crate) fn list_words(
    alloc: Global,
    words: &[u64],
    at: usize,
    n: usize,
) -> Result<Seq<usize>, NoMemory>
    requires within { at + n ≤ length words.now }
    requires few { n < 2 ^ 50 }
    ensures { IfOk result (λ list. Lists (is_one words.now at) (64 * n) list) }
{
    let mut list = Seq::new(alloc);
    for j in 0..n {
        add_word(&mut list, words, at, j)?;
    }
    Ok(list)
}
