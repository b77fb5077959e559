//! Rows of bits. Each row is a set of numbers below a bound that all rows share. The kernels over
//! whole rows work lane by lane on vectors of 64-bit words, with a plain loop for the rest.
#![tactic(auto)]

ghost use Rattle.std.specs.Prelude.{◌≡◌, ℕ, ◌*◌, ◌^◌, ◌<◌, ◌≤◌, ◌↔◌, length, replicate, true, false, Contains, IfOk};
ghost use Rattle.std.specs.List.Sorted.{IsStrictlyIncreasing};
ghost use Rattle.std.specs.FinSet as set;

use b3_base::{NoMemory, Seq};
use std::alloc::Global;
use std::marker::Model;

mod listing;
mod merge;
mod single;
mod tally;

/// Rows of bits, each a set of numbers below the bound that the rows were made with. A row stands
/// in 64-bit words of its own, lowest bit first.
#[derive(Drop)]
pub struct Rows {
    words: Vec<u64>,
    rows: usize,
    bits: usize,
    stride: usize,
}

impl Model for Rows {
    ghost use Rattle.bit_rows.specs.BitRows.{BitRows, bit_rows_code};

    ghost Value = { BitRows };

    ghost coded = { bit_rows_code };

    ghost use Rattle.std.specs.Prelude.{◌≡◌, ◌*◌, ◌^◌, ◌≤◌, vec_len};
    ghost use Rattle.bit_rows.specs.Words.{sets_of, FillsWords};

    ghost view = { λ r. record { bits = r.bits; sets = sets_of r.words.items r.stride r.rows } };

    ghost invariant = { λ r. FillsWords (vec_len r.words) r.rows r.stride r.bits };
}

impl Rows {
    ghost use Rattle.bit_rows.specs.BitRows.{row_of, with_row};

    /// `rows` empty rows of `bits` bits. It is refused for want of memory alone.
    pub fn new(alloc: Global, rows: usize, bits: usize) -> Result<Rows, NoMemory>
        requires { rows * bits ≤ 2 ^ 34 }
        ensures { IfOk result (λ made. made ≡ record { bits = bits; sets = replicate rows set.empty }) }
    {
        let stride = bits.div_ceil(64);
        Ok(Rows {
            words: vec![in alloc; 0; rows * stride]?,
            rows,
            bits,
            stride,
        })
    }

    /// Puts `bit` into the row `row`.
    pub fn set(&mut self, row: usize, bit: usize)
        requires row { row < length self.old.sets }
        requires bit { bit < self.old.bits }
        ensures { self.new ≡ with_row self.old row (set.insert (row_of self.old row) bit) }
    {
        single::set_bit(&mut self.words, row * self.stride, bit);
    }

    /// Takes `bit` out of the row `row`.
    pub fn clear(&mut self, row: usize, bit: usize)
        requires row { row < length self.old.sets }
        requires bit { bit < self.old.bits }
        ensures { self.new ≡ with_row self.old row (set.remove (row_of self.old row) bit) }
    {
        single::clear_bit(&mut self.words, row * self.stride, bit);
    }

    /// Whether `bit` is in the row `row`.
    pub fn has(&self, row: usize, bit: usize) -> bool
        requires row { row < length self.now.sets }
        requires bit { bit < self.now.bits }
        ensures { result ≡ set.contains (row_of self.now row) bit }
    {
        single::has_bit(&self.words, row * self.stride, bit)
    }

    /// Adds all bits of the row `from` to the row `into`. True exactly where `into` grew.
    pub fn union_into(&mut self, into: usize, from: usize) -> bool
        requires into { into < length self.old.sets }
        requires from { from < length self.old.sets }
        ensures union { self.new ≡ with_row self.old into (set.union (row_of self.old into) (row_of self.old from)) }
        ensures grew { (result ≡ false) ↔ (self.new ≡ self.old) }
    {
        let stride = self.stride;
        merge::union_words(&mut self.words, into * stride, from * stride, stride)
    }

    /// Takes all bits of the row `what` out of the row `from`.
    pub fn take_away(&mut self, from: usize, what: usize)
        requires from { from < length self.old.sets }
        requires what { what < length self.old.sets }
        ensures { self.new ≡ with_row self.old from (set.difference (row_of self.old from) (row_of self.old what)) }
    {
        let stride = self.stride;
        merge::take_words(&mut self.words, from * stride, what * stride, stride);
    }

    /// Whether the rows `a` and `b` have a bit in common.
    pub fn meets(&self, a: usize, b: usize) -> bool
        requires a { a < length self.now.sets }
        requires b { b < length self.now.sets }
        ensures { (result ≡ false) ↔ (set.intersection (row_of self.now a) (row_of self.now b) ≡ set.empty) }
    {
        let stride = self.stride;
        tally::meet_words(&self.words, a * stride, b * stride, stride)
    }

    /// How many bits the row `row` has.
    pub fn count(&self, row: usize) -> usize
        requires { row < length self.now.sets }
        ensures { result ≡ set.len (row_of self.now row) }
    {
        tally::count_words(&self.words, row * self.stride, self.stride) as usize
    }

    /// The bits of the row `row`, from the lowest to the highest. It takes a step for each word of
    /// the row and one for each of its bits. It is refused for want of memory alone.
    pub fn members(&self, alloc: Global, row: usize) -> Result<Seq<usize>, NoMemory>
        requires { row < length self.now.sets }
        ensures members { IfOk result (λ list. (bit : ℕ)
            → Contains list bit ↔ (set.contains (row_of self.now row) bit ≡ true)) }
        ensures rising { IfOk result (λ list. IsStrictlyIncreasing list) }
    {
        listing::list_words(alloc, &self.words, row * self.stride, self.stride)
    }
}
