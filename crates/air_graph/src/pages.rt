//! A set of numbers by bits, of which only what is written takes memory.

ghost use Rattle.std.specs.Prelude.{◌≡◌, ◌≢◌, ℕ, ◌+◌, ◌*◌, ◌/◌, ◌%◌, ◌^◌, ◌<◌, ◌≤◌, ◌||◌, ◌==◌, [], length, replicate, slice_index_or, IfOk, OnOk, OnErr};
ghost use Rattle.std.specs.FinSet as set;
ghost use Rattle.bit_rows.specs.Words.{is_one};

use b3_base::NoMemory;
use std::alloc::Global;
use std::marker::Model;

/// How many bits a page has.
const BITS: usize = 4096;

/// Bits in words, lowest bit first, as far as the last word that has one.
#[derive(Drop)]
struct Page {
    words: Vec<u64>,
}

impl Model for Page {
    ghost use Rattle.std.specs.Prelude.{ℕ, List};

    ghost Value = { List ℕ };

    ghost view = { λ p. p.words.items };
}

/// Adds words without a bit, as long as there is none at a place. It is refused for want of memory alone.
fn widen(words: &mut Vec<u64>, at: usize) -> Result<(), NoMemory>
    ensures long { OnOk result (at < length words.new.items) }
    ensures same { (q : ℕ) → is_one words.new.items 0 q ≡ is_one words.old.items 0 q }
{
    while words.len() <= at {
        words.push(0)?;
    }
    Ok(())
}

impl Page {
    /// A page without a bit. It takes no memory.
    fn new(alloc: Global) -> Page
        ensures { result ≡ [] }
    {
        Page {
            words: Vec::new(alloc),
        }
    }

    /// Whether a bit is set. It takes no memory.
    fn has(&self, bit: usize) -> bool
        ensures { result ≡ is_one self.now 0 bit }
    {
        let at = bit / 64;
        if at < self.words.len() {
            self.words[at] >> (bit % 64) & 1 == 1
        } else {
            false
        }
    }

    /// Sets a bit. It is refused for want of memory alone, and then no bit changes.
    fn set(&mut self, bit: usize) -> Result<(), NoMemory>
        ensures ok { OnOk result ((q : ℕ) → is_one self.new 0 q ≡ (q == bit || is_one self.old 0 q)) }
        ensures err { OnErr result ((q : ℕ) → is_one self.new 0 q ≡ is_one self.old 0 q) }
    {
        widen(&mut self.words, bit / 64)?;
        self.words[bit / 64] |= 1 << (bit % 64);
        Ok(())
    }
}

/// So many empty pages.
fn empty_pages(alloc: Global, n: usize) -> Result<Vec<Page>, NoMemory>
    ensures { IfOk result (λ pages. pages.items ≡ replicate n []) }
{
    let mut pages = Vec::new(alloc);
    for _ in 0..n {
        pages.push(Page::new(alloc))?;
    }
    Ok(pages)
}

/// Whether a bit of one of the pages is set.
fn has_at(pages: &[Page], i: usize, bit: usize) -> bool
    requires { i < length pages.now }
    ensures { result ≡ is_one (slice_index_or pages.now i []) 0 bit }
{
    pages[i].has(bit)
}

/// Sets a bit of one of the pages. It is refused for want of memory alone, and then no bit changes.
fn set_at(pages: &mut [Page], i: usize, bit: usize) -> Result<(), NoMemory>
    requires { i < length pages.old }
    ensures long { length pages.new ≡ length pages.old }
    ensures others { (a : ℕ) → a ≢ i → slice_index_or pages.new a [] ≡ slice_index_or pages.old a [] }
    ensures ok { OnOk result ((q : ℕ) → is_one (slice_index_or pages.new i []) 0 q
        ≡ (q == bit || is_one (slice_index_or pages.old i []) 0 q)) }
    ensures err { OnErr result ((q : ℕ) → is_one (slice_index_or pages.new i []) 0 q
        ≡ is_one (slice_index_or pages.old i []) 0 q) }
{
    pages[i].set(bit)
}

/// Numbers below a bound, by bits in pages.
#[derive(Drop)]
pub(crate) struct Pages {
    pages: Vec<Page>,
    bits: usize,
}

impl Model for Pages {
    ghost use Rattle.air_graph.specs.Pages.{PagedBits, ArePages, members_in, paged_bits_code};

    ghost Value = { PagedBits };

    ghost coded = { paged_bits_code };

    ghost view = { λ p. record { bits = p.bits; members = members_in p.pages.items p.bits } };

    ghost invariant = { λ p. ArePages p.pages.items p.bits };
}

impl Pages {
    /// No numbers, of those below a bound. It is refused for want of memory alone.
    pub(crate) fn new(alloc: Global, bits: usize) -> Result<Pages, NoMemory>
        ensures { IfOk result (λ made. made ≡ record { bits = bits; members = set.empty }) }
    {
        let pages = empty_pages(alloc, bits.div_ceil(BITS))?;
        Ok(Pages { pages, bits })
    }

    /// Whether a number is in the set. It takes no memory.
    pub(crate) fn has(&self, bit: usize) -> bool
        requires { bit < self.now.bits }
        ensures { result ≡ set.contains self.now.members bit }
    {
        has_at(&self.pages, bit / BITS, bit % BITS)
    }

    /// Adds a number. It is refused for want of memory alone, and then changes nothing.
    pub(crate) fn set(&mut self, bit: usize) -> Result<(), NoMemory>
        requires { bit < self.old.bits }
        ensures ok { OnOk result (self.new ≡ record {
          bits = self.old.bits;
          members = set.insert self.old.members bit;
        }) }
        ensures err { OnErr result (self.new ≡ self.old) }
    {
        set_at(&mut self.pages, bit / BITS, bit % BITS)
    }
}
