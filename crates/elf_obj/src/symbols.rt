//! Reading the symbols and their names.

ghost use Rattle.std.specs.Prelude.{◌≡◌, ◌+◌, ◌*◌, ◌/◌, ◌-◌, ◌^◌, ◌<◌, ◌≤◌, ◌++◌, ◌∷◌, [], length, drop, map, All, IfOk, IsTrue, sum_by};
ghost use Rattle.std.specs.List.{AllByRecursion};
ghost use Rattle.elf_obj.specs.Fields.{fields_fault};
ghost use Rattle.elf_obj.specs.Reading as rule;

use crate::field::{Field, Number, fields_fault, offset, position, wanted};
use crate::layout::long_at;
use crate::object::{Symbol, Symbols};
use b3_base::{Name, NoMemory};
use b3_ir::is_name;
use indexmap::IndexSet;
use std::alloc::Global;

/// The bytes from a byte on.
pub(crate) fn behind(bytes: &[u8], at: usize) -> &[u8]
    ensures { result.now ≡ drop at bytes.now }
{
    if at < bytes.len() { &bytes[at..] } else { &[] }
}

/// A name up to its zero byte, or all bytes.
fn name_in(bytes: &[u8]) -> &[u8]
    ensures { result.now ≡ rule.name_in bytes.now }
{
    for (i, byte) in bytes.iter().enumerate() {
        if *byte == 0 {
            return &bytes[..i];
        }
    }
    bytes
}

/// Whole words, at least one; and the last procedure ends where the text does.
fn is_size(text: u64, start: u128, last: bool, size: u64) -> bool
    requires { start < 2 ^ 127 }
    ensures { result ≡ rule.is_size text start last size }
{
    0 < size && size % 4 == 0 && (!last || start + u128::from(size) == u128::from(text))
}

/// The fields of the entry of a procedure.
fn entry_fields(at: usize, named: bool, start: u128, size: u64, good: bool) -> [Field; 6]
    ensures { result ≡ rule.entry_fields at named start size good }
{
    [
        position(at, named),
        wanted(Number::Byte(0x12)),
        wanted(Number::Byte(0)),
        wanted(Number::Half(1)),
        offset(start),
        Field {
            number: Number::Long(size),
            good,
        },
    ]
}

/// Whether bytes are a name.
fn is_some_name(name: &[u8]) -> bool
    ensures { result ≡ rule.is_name name.now }
{
    is_name(name)
}

/// The names that were read, in order.
type Earlier<'a> = IndexSet<&'a [u8]>;

/// Whether the bytes at a byte of `.strtab` are a name that ends there with a zero byte and is none
/// of those that were read. It is then one of them.
fn is_new_name<'a>(
    earlier: &mut Earlier<'a>,
    names: &[u8],
    at: usize,
    name: &'a [u8],
) -> Result<bool, NoMemory>
    ensures named { IfOk result (λ named. named ≡ rule.is_new_name names.now (map (λ other. other.now) earlier.old.keys) at name.now) }
    ensures noted { IfOk result (λ named. IsTrue named → map (λ other. other.now) earlier.new.keys ≡ map (λ other. other.now) earlier.old.keys ++ name.now ∷ []) }
{
    if names.len() <= at || names.len() - at <= name.len() {
        return Ok(false);
    }
    if !is_some_name(name) {
        return Ok(false);
    }
    let (_, new) = earlier.insert_full(name)?;
    Ok(new)
}

/// The first fault of the entries of procedures of a text of so many bytes. The first entry stands
/// at byte `first` of the file.
pub(crate) fn entries_fault(
    alloc: Global,
    names: &[u8],
    text: u64,
    count: u64,
    first: u64,
    entries: &[u8],
) -> Result<Option<u64>, NoMemory>
    requires long { 24 * count ≤ length entries.now }
    requires fits { first + length entries.now < 2 ^ 64 }
    ensures { IfOk result (λ byte. byte ≡ fields_fault first (rule.entries_fields names.now text [] 1 0 (rule.symbols_at names.now 1 count entries.now)) entries.now) }
{
    let mut earlier = IndexSet::new(alloc);
    let mut at = first;
    let mut name_at = 1;
    let mut start = 0;
    let mut left = entries;
    for i in 0..count {
        let name = name_in(behind(names, name_at));
        if !is_new_name(&mut earlier, names, name_at, name)? {
            return Ok(Some(at));
        }
        let size = long_at(left, 16);
        let sized = is_size(text, start, i + 1 == count, size);
        let fields = entry_fields(name_at, true, start, size, sized);
        match fields_fault(at, &fields, left) {
            None => {}
            Some(byte) => return Ok(Some(byte)),
        }
        at += 24;
        name_at += name.len() + 1;
        start += u128::from(size);
        left = behind(left, 24);
    }
    Ok(None)
}

/// So many symbols as their entries say, and their names one behind the other.
pub(crate) fn symbols_at(
    alloc: Global,
    names: &[u8],
    count: u64,
    entries: &[u8],
) -> Result<Symbols, NoMemory>
    requires long { 24 * count ≤ length entries.now }
    requires small { AllByRecursion (λ symbol. symbol.offset + symbol.size < 2 ^ 32) (rule.symbols_at names.now 1 count entries.now) }
    requires ends { 1 + sum_by (λ symbol. length symbol.name + 1) (rule.symbols_at names.now 1 count entries.now) < 2 ^ 63 }
    ensures { IfOk result (λ symbols. symbols ≡ rule.symbols_at names.now 1 count entries.now) }
{
    let mut symbols = Symbols::new(alloc);
    let mut name_at = 1;
    let mut left = entries;
    for _ in 0..count {
        let name = name_in(behind(names, name_at));
        let mut copy = Name::new(alloc);
        copy.extend(name)?;
        symbols.push(Symbol {
            name: copy,
            offset: long_at(left, 8) as u32,
            size: long_at(left, 16) as u32,
        })?;
        name_at += name.len() + 1;
        left = behind(left, 24);
    }
    Ok(symbols)
}
