//! Rows of bits against a plain loop.

ghost use Rattle.std.specs.Prelude.{◌≡◌, ◌<◌, ◌≤◌, length};

use b3_base::NoMemory;
use bit_rows::Rows;
use std::alloc::Global;
use std::test::Fail;
use tests_rows::Teller;

/// The most bits of a row.
const MOST_BITS: usize = 10_000;

/// Tells whether rows of so many bits, with the members that a seed gives, are what a plain loop says.
#[derive(Drop)]
pub(crate) struct Sets;

impl Teller for Sets {
    fn told(&mut self, alloc: Global, asked: &str) -> Result<String, Fail> {
        let mut words = asked.split_whitespace();
        let bits = words.next().unwrap_or("").parse::<usize>()?;
        let seed = words.next().unwrap_or("").parse::<u64>()?;
        if bits > MOST_BITS {
            return Err(Fail::from("too many bits"));
        }
        let said = if agree(alloc, bits, seed)? {
            "agree"
        } else {
            "differ"
        };
        Ok(String::from_str(alloc, said)?)
    }
}

/// Whether a seed gives this member: about one of four.
fn is_given(seed: u64, bit: usize) -> bool {
    (bit as u64 ^ seed).wrapping_mul(0x9E37_79B9_7F4A_7C15) >> 62 == 0
}

fn put(rows: &mut Rows, row: usize, seed: u64, bits: usize)
    requires row { row < length rows.old.sets }
    requires bits { bits ≡ rows.old.bits }
    ensures bits { rows.new.bits ≡ rows.old.bits }
    ensures rows { length rows.new.sets ≡ length rows.old.sets }
{
    for bit in 0..bits {
        if is_given(seed, bit) {
            rows.set(row, bit);
        }
    }
}

/// Whether the difference and the union of two rows are those of a plain loop.
fn agree(alloc: Global, bits: usize, seed: u64) -> Result<bool, NoMemory>
    requires { bits ≤ 10000 }
{
    let mut rows = Rows::new(alloc, 3, bits)?;
    let other = seed.wrapping_add(1);
    put(&mut rows, 0, seed, bits);
    put(&mut rows, 1, other, bits);
    let first = rows.count(0);
    let grew = rows.union_into(2, 0);
    let _ = rows.union_into(2, 1);
    let again = rows.union_into(2, 1);
    rows.take_away(0, 1);
    let members = rows.members(alloc, 2)?;
    Ok(
        grew == (first > 0)
            && !again
            && !rows.meets(0, 1)
            && are_counted(&rows, seed, bits)
            && are_members(members.as_slice(), seed, bits),
    )
}

/// Whether row 0 is the difference and row 2 the union, bit by bit and in number.
fn are_counted(rows: &Rows, seed: u64, bits: usize) -> bool
    requires rows { length rows.now.sets ≡ 3 }
    requires bits { bits ≡ rows.now.bits }
{
    let mut apart = 0usize;
    let mut all = 0usize;
    for bit in 0..bits {
        let one = is_given(seed, bit);
        let other = is_given(seed.wrapping_add(1), bit);
        if rows.has(0, bit) != (one && !other) || rows.has(2, bit) != (one || other) {
            return false;
        }
        apart = apart.wrapping_add(usize::from(one && !other));
        all = all.wrapping_add(usize::from(one || other));
    }
    rows.count(0) == apart && rows.count(2) == all
}

/// Whether these are the members of the union, in rising order.
fn are_members(members: &[usize], seed: u64, bits: usize) -> bool {
    let mut rest = members;
    for bit in 0..bits {
        if is_given(seed, bit) || is_given(seed.wrapping_add(1), bit) {
            match rest.split_first() {
                Some((first, more)) if *first == bit => rest = more,
                _ => return false,
            }
        }
    }
    rest.is_empty()
}
