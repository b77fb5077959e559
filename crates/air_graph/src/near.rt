//! Lists of numbers, one for each number.

ghost use Rattle.std.specs.Prelude.{◌≡◌, ◌≢◌, ◌++◌, ◌∷◌, ◌<◌, ◌-◌, ℕ, [], List, length, replicate, take, slice_index_or, IfOk, OnOk, OnErr};
ghost use Rattle.std.specs.FinSet as set;

use crate::pages::Pages;
use b3_base::NoMemory;
use std::alloc::Global;
use std::marker::Model;

/// A list of numbers that grows and shrinks at its end.
#[derive(Drop)]
pub(crate) struct Near {
    items: Vec<u32>,
}

impl Model for Near {
    ghost use Rattle.std.specs.Prelude.{ℕ, List};

    ghost Value = { List ℕ };

    ghost view = { λ s. s.items.items };
}

impl Near {
    /// An empty list. It takes no memory.
    pub(crate) fn new(alloc: Global) -> Near
        ensures { result ≡ [] }
    {
        Near {
            items: Vec::new(alloc),
        }
    }

    /// Adds a number at the end. It is refused for want of memory alone, and then changes nothing.
    pub(crate) fn push(&mut self, x: u32) -> Result<(), NoMemory>
        ensures ok { OnOk result (self.new ≡ self.old ++ x ∷ []) }
        ensures err { OnErr result (self.new ≡ self.old) }
    {
        self.items.push(x)?;
        Ok(())
    }

    /// Takes the last number away.
    pub(crate) fn shorten(&mut self)
        ensures { self.new ≡ take (length self.old - 1) self.old }
    {
        let n = self.items.len();
        self.items.truncate(n.saturating_sub(1));
    }

    /// The numbers in order. It takes no memory.
    pub(crate) fn as_slice(&self) -> &[u32]
        ensures { result.now ≡ self.now }
    {
        self.items.as_slice()
    }
}

/// So many empty lists.
pub(crate) fn empty_lists(alloc: Global, n: usize) -> Result<Vec<Near>, NoMemory>
    ensures { IfOk result (λ lists. lists.items ≡ replicate n []) }
{
    let mut lists = Vec::new(alloc);
    for _ in 0..n {
        lists.push(Near::new(alloc))?;
    }
    Ok(lists)
}

/// Adds a number to one of the lists. It is refused for want of memory alone, and then changes nothing.
fn push_at(lists: &mut [Near], i: usize, x: u32) -> Result<(), NoMemory>
    requires { i < length lists.old }
    ensures long { length lists.new ≡ length lists.old }
    ensures others { (a : ℕ) → a ≢ i → slice_index_or lists.new a [] ≡ slice_index_or lists.old a [] }
    ensures ok { OnOk result (slice_index_or lists.new i [] ≡ slice_index_or lists.old i [] ++ x ∷ []) }
    ensures err { OnErr result (slice_index_or lists.new i [] ≡ slice_index_or lists.old i []) }
{
    lists[i].push(x)
}

/// Takes the last number of one of the lists away.
fn shorten_at(lists: &mut [Near], i: usize)
    requires { i < length lists.old }
    ensures long { length lists.new ≡ length lists.old }
    ensures others { (a : ℕ) → a ≢ i → slice_index_or lists.new a [] ≡ slice_index_or lists.old a [] }
    ensures short { slice_index_or lists.new i [] ≡ take (length (slice_index_or lists.old i []) - 1)
        (slice_index_or lists.old i []) }
{
    lists[i].shorten();
}

/// Adds each of two numbers to the list of the other. It is refused for want of memory alone, and then changes nothing.
fn put_both(lists: &mut [Near], i: u32, j: u32) -> Result<(), NoMemory>
    requires i { i < length lists.old }
    requires j { j < length lists.old }
    requires differ { i ≢ j }
    ensures long { length lists.new ≡ length lists.old }
    ensures others { (a : ℕ) → a ≢ i → a ≢ j → slice_index_or lists.new a [] ≡ slice_index_or lists.old a [] }
    ensures first { OnOk result (slice_index_or lists.new i [] ≡ slice_index_or lists.old i [] ++ j ∷ []) }
    ensures second { OnOk result (slice_index_or lists.new j [] ≡ slice_index_or lists.old j [] ++ i ∷ []) }
    ensures err { OnErr result ((a : ℕ) → slice_index_or lists.new a [] ≡ slice_index_or lists.old a []) }
{
    push_at(lists, i as usize, j)?;
    let more = push_at(lists, j as usize, i);
    if more.is_err() {
        shorten_at(lists, i as usize);
    }
    more
}

/// Takes the last number of each of two lists away.
fn shorten_both(lists: &mut [Near], i: usize, j: usize)
    requires i { i < length lists.old }
    requires j { j < length lists.old }
    requires differ { i ≢ j }
    ensures long { length lists.new ≡ length lists.old }
    ensures others { (a : ℕ) → a ≢ i → a ≢ j → slice_index_or lists.new a [] ≡ slice_index_or lists.old a [] }
    ensures first { slice_index_or lists.new i [] ≡ take (length (slice_index_or lists.old i []) - 1)
        (slice_index_or lists.old i []) }
    ensures second { slice_index_or lists.new j [] ≡ take (length (slice_index_or lists.old j []) - 1)
        (slice_index_or lists.old j []) }
{
    shorten_at(lists, i);
    shorten_at(lists, j);
}

/// Adds each of two numbers to the list of the other, and the number of their pair to the set. It is refused for want
/// of memory alone, and then changes nothing.
pub(crate) fn put_pair(
    lists: &mut [Near],
    pairs: &mut Pages,
    i: u32,
    j: u32,
    pair: usize,
) -> Result<(), NoMemory>
    requires i { i < length lists.old }
    requires j { j < length lists.old }
    requires differ { i ≢ j }
    requires pair { pair < pairs.old.bits }
    ensures long { length lists.new ≡ length lists.old }
    ensures others { (a : ℕ) → a ≢ i → a ≢ j → slice_index_or lists.new a [] ≡ slice_index_or lists.old a [] }
    ensures first { OnOk result (slice_index_or lists.new i [] ≡ slice_index_or lists.old i [] ++ j ∷ []) }
    ensures second { OnOk result (slice_index_or lists.new j [] ≡ slice_index_or lists.old j [] ++ i ∷ []) }
    ensures pairs { OnOk result (pairs.new ≡ record {
      bits = pairs.old.bits;
      members = set.insert pairs.old.members pair;
    }) }
    ensures err { OnErr result ((a : ℕ) → slice_index_or lists.new a [] ≡ slice_index_or lists.old a []) }
    ensures same { OnErr result (pairs.new ≡ pairs.old) }
{
    put_both(lists, i, j)?;
    let more = pairs.set(pair);
    if more.is_err() {
        shorten_both(lists, i as usize, j as usize);
    }
    more
}
