//! One bit of a run of words.

ghost use Rattle.std.specs.Prelude.{◌≡◌, ◌≢◌, ℕ, ◌+◌, ◌/◌, ◌<◌, ◌&&◌, ◌||◌, ◌==◌, not, length, slice_index};
ghost use Rattle.bit_rows.specs.Words.{is_one};

/// Sets the bit `bit` of the words from place `at` on.
pub(crate) fn set_bit(words: &mut [u64], at: usize, bit: usize)
    requires { at + bit / 64 < length words.old }
    ensures bits { (q : ℕ) → is_one words.new at q ≡ (q == bit || is_one words.old at q) }
    ensures others { (i : ℕ) → i ≢ at + bit / 64 → slice_index words.new i ≡ slice_index words.old i }
{
    words[at + bit / 64] |= 1 << (bit % 64);
}

/// Clears the bit `bit` of the words from place `at` on.
pub(crate) fn clear_bit(words: &mut [u64], at: usize, bit: usize)
    requires { at + bit / 64 < length words.old }
    ensures bits { (q : ℕ) → is_one words.new at q ≡ (not (q == bit) && is_one words.old at q) }
    ensures others { (i : ℕ) → i ≢ at + bit / 64 → slice_index words.new i ≡ slice_index words.old i }
{
    words[at + bit / 64] &= !(1 << (bit % 64));
}

/// Whether the bit `bit` of the words from place `at` on is set.
pub(crate) fn has_bit(words: &[u64], at: usize, bit: usize) -> bool
    requires { at + bit / 64 < length words.now }
    ensures { result ≡ is_one words.now at bit }
{
    words[at + bit / 64] >> (bit % 64) & 1 == 1
}
