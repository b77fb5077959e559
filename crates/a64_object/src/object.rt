//! The object of a module.

ghost use Rattle.std.specs.Prelude.{◌≡◌, ◌*◌, ◌<◌, ◌≤◌, ◌^◌, ◌++◌, length, map, All, IfOk, OnOk};
ghost use Rattle.b3_ir.specs.Procedure.{AllFit, Procedure, procedures};
ghost use Rattle.elf_obj.specs.Size.{size_bound};
ghost use Rattle.a64_run.specs.CodeOf.{IsCodeOf};
ghost use Rattle.air_select.specs.Contract.{IsWithinLimits, procedure_at};
ghost use Rattle.a64_object.specs.Joined.{IsJoinedOf, IsPartOf, Part, site_from, with_part};
ghost use Rattle.a64_object.specs.Made.{site_rows};
ghost use Rattle.a64_object.specs.Taken.{AreWithinLimits, HasFewSlots, HaveNames};

use crate::procedure::procedure_text;
use b3_base::{CodeWords, Ids, Name, NoMemory};
use b3_ir::Module;
use b3_validate::Valid;
use elf_obj::{Object, Symbol, Symbols};
use exit_table::{FrameRows, SiteRow, SiteRows, Tables};
use stackmap::{Site, Sites};
use std::alloc::Global;

/// The object of a valid module's procedures with their code, one after the other: of each what the passes make of it.
/// Its file has at most 134,217,728 bytes. It is refused for want of memory alone.
pub fn module_object(alloc: Global, valid: &Valid) -> Result<Object, NoMemory>
    requires named { HaveNames (procedures valid.now) }
    requires limits { AreWithinLimits (procedures valid.now) }
    ensures code { IfOk result (IsCodeOf (procedures valid.now) (procedures valid.now)) }
    ensures joined { IfOk result (IsJoinedOf (procedures valid.now)) }
    ensures small { IfOk result (λ o. size_bound o ≤ 134217728) }
{
    all_fit(valid.module());
    joined_object(alloc, valid)
}

/// Tells that each value of a module is one that may stand in a procedure. It takes no memory.
fn all_fit(module_: &Module)
    ensures { All (λ (p : Procedure). AllFit p.blocks) (procedures module_.now) }
{
    for at in 0..module_.procs() {
        module_.proc(at).whole();
    }
}

/// The same, with words of 32 bits.
fn joined_object(alloc: Global, valid: &Valid) -> Result<Object, NoMemory>
    requires named { HaveNames (procedures valid.now) }
    requires limits { AreWithinLimits (procedures valid.now) }
    ensures joined { IfOk result (IsJoinedOf (procedures valid.now)) }
    ensures narrow { IfOk result (λ o. All (λ word. word < 2 ^ 32) o.text) }
{
    let mut object = Object {
        text: CodeWords::new(alloc),
        symbols: Symbols::new(alloc),
        tables: Tables {
            frames: FrameRows::new(alloc),
            sites: SiteRows::new(alloc),
        },
    };
    for at in 0..valid.module().procs() {
        push_procedure(alloc, &mut object, valid, at)?;
    }
    object.text.ranged();
    Ok(object)
}

/// One more procedure at the end of an object.
fn push_procedure(
    alloc: Global,
    object: &mut Object,
    valid: &Valid,
    at: usize,
) -> Result<(), NoMemory>
    requires there { at < length valid.now }
    requires limits { IsWithinLimits (procedure_at valid.now at) }
    requires slots { HasFewSlots (procedure_at valid.now at) }
    requires short { length object.old.text < 2 ^ 24 }
    ensures { OnOk result ((part : Part) × IsPartOf (procedure_at valid.now at) part
        × (object.new ≡ with_part object.old part)) }
{
    let made = procedure_text(alloc, valid, at)?;
    let symbol = Symbol {
        name: Name::from_text(alloc, valid.module().proc(at).name())?,
        offset: 4 * object.text.len() as u32,
        size: 4 * made.words.len() as u32,
    };
    let first = object.text.len() as u32;
    push_sites(
        alloc,
        &mut object.tables.sites,
        first,
        &made.marks,
        &made.sites,
    )?;
    push_words(&mut object.text, &made.words)?;
    object.symbols.push(symbol)?;
    object.tables.frames.push(made.row)?;
    Ok(())
}

/// The sites of a text at the end of these rows, where so many words stand before the text: each begins at the word of
/// its mark.
fn push_sites(
    alloc: Global,
    rows: &mut SiteRows,
    first: u32,
    marks: &Ids,
    sites: &Sites,
) -> Result<(), NoMemory>
    requires each { length marks.now ≡ length sites.now }
    requires within { All (λ mark. mark < 2 ^ 24) marks.now }
    requires short { first < 2 ^ 24 }
    ensures { OnOk result (rows.new ≡ rows.old ++ map (site_from (4 * first)) (site_rows marks.now sites.now)) }
{
    for k in 0..marks.len() {
        rows.push(SiteRow {
            pc: 4 * (first + *marks.get(k)),
            site: copied(alloc, sites.get(k))?,
        })?;
    }
    Ok(())
}

/// A site like this one.
fn copied(alloc: Global, site: &Site) -> Result<Site, NoMemory>
    ensures { IfOk result (λ other. other ≡ site.now) }
{
    Ok(Site {
        kind: site.kind,
        value: site.value,
        size: site.size,
        reps: site.reps.copy(alloc)?,
        result: site.result,
        clobbers: site.clobbers,
    })
}

/// Words at the end of a text.
fn push_words(text: &mut CodeWords, words: &CodeWords) -> Result<(), NoMemory>
    ensures { OnOk result (text.new ≡ text.old ++ words.now) }
{
    for k in 0..words.len() {
        text.push(*words.get(k))?;
    }
    Ok(())
}
