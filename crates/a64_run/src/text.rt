//! The words of the text, and the sites that stand at them.

ghost use Rattle.std.specs.Prelude.{◌≡◌, ◌^◌, ◌<◌, ◌≤◌, Some, None, IfSome, IfNone, length, slice_get};
ghost use Rattle.std.specs.List.Sorted.{IsNonDecreasingBy, IsPartitionPoint};
ghost use Rattle.elf_obj.specs.Good.{IsGood};
ghost use Rattle.exit_table.specs.declared.tables.SiteRow.{SiteRow as Row};
ghost use Rattle.a64_run.specs.Kept.{entry_of, HasRegisters};
ghost use Rattle.a64_run.specs.Machine as spec;

use crate::entry::Entry;
use crate::placement::{is_within, text_bytes};
use exit_table::SiteRow;
use stackmap::{Site, SiteKind};

/// The word of the text at an address, where one begins there.
pub(crate) fn word_at(e: &Entry<'_>, address: u64) -> Option<u32>
    ensures { result ≡ spec.word_at (entry_of e.now) address }
{
    if address < e.start.code || (address - e.start.code) % 4 != 0 {
        return None;
    }
    let at = (address - e.start.code) / 4;
    e.object.text.as_slice().get(at as usize).copied()
}

/// Whether an address is that of a word of the text.
pub(crate) fn is_text_word(e: &Entry<'_>, address: u64) -> bool
    ensures { result ≡ spec.is_text_word (entry_of e.now) address }
{
    word_at(e, address).is_some()
}

/// Whether an address is that of a byte of the text.
pub(crate) fn is_text_byte(e: &Entry<'_>, address: u64) -> bool
    requires { length e.now.object.now.text < 2 ^ 24 }
    ensures { result ≡ spec.is_text_byte (entry_of e.now) address }
{
    is_within(e.start.code, text_bytes(e.object), address)
}

/// How many sites stand before a byte of the text.
fn sites_before(rows: &[SiteRow], pc: u64) -> usize
    requires { IsNonDecreasingBy (λ (row : Row). row.pc) rows.now }
    ensures { IsPartitionPoint (λ (row : Row). row.pc < pc) (λ (row : Row). pc ≤ row.pc) rows.now result }
{
    rows.partition_point(|row| u64::from(row.pc) < pc)
}

/// The place of the site that is listed at a byte of the text.
fn place_of(rows: &[SiteRow], pc: u64) -> Option<usize>
    requires { IsNonDecreasingBy (λ (row : Row). row.pc) rows.now }
    ensures there { IfSome result (λ k. k < length rows.now) }
    ensures some { IfSome result (λ k. (row : Row) → slice_get rows.now k ≡ Some row
        → spec.site_among pc rows.now ≡ Some row.site) }
    ensures none { IfNone result (spec.site_among pc rows.now ≡ None) }
{
    let at = sites_before(rows, pc);
    if at < rows.len() && u64::from(rows[at].pc) == pc {
        Some(at)
    } else {
        None
    }
}

/// The site of a kind that is listed at an address.
pub(crate) fn site_of<'a>(e: &Entry<'a>, kind: SiteKind, address: u64) -> Option<&'a Site>
    requires { IsGood e.now.object.now }
    ensures some { IfSome result (λ site. spec.of_kind kind (spec.site_at (entry_of e.now) address) ≡ Some site.now) }
    ensures registers { IfSome result (λ site. HasRegisters site.now) }
    ensures none { IfNone result (spec.of_kind kind (spec.site_at (entry_of e.now) address) ≡ None) }
{
    if address < e.start.code {
        return None;
    }
    let rows = &e.object.tables.sites;
    let at = place_of(rows.as_slice(), address - e.start.code)?;
    let row = rows.get(at);
    if is_kind(kind, row.site.kind) {
        Some(&row.site)
    } else {
        None
    }
}

/// Whether a kind is another.
fn is_kind(kind: SiteKind, other: SiteKind) -> bool
    ensures { result ≡ spec.same_kind kind other }
{
    matches!(
        (kind, other),
        (SiteKind::Call, SiteKind::Call)
            | (SiteKind::Patchpoint, SiteKind::Patchpoint)
            | (SiteKind::Exit, SiteKind::Exit)
            | (SiteKind::Trap, SiteKind::Trap)
    )
}
