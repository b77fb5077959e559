//! The first breach of the procedures of a module.

ghost use Rattle.std.specs.Prelude.{◌≡◌, length, None, Some, IfOk, option_map, if◌then◌else◌};
ghost use Rattle.b3_ir.specs.Procedure.{procedures};
ghost use Rattle.b3_validate.specs.Firsts.{IsEarlierOf, IsFirstBelow, IsOther, IsUses};

use crate::procedure::procedure_breach;
use crate::spot::{Spot, sooner, spot_on};
use b3_base::NoMemory;
use b3_ir::Module;
use b3_rules::Rule;
use b3_uses::uncovered_use;
use indexmap::IndexSet;
use std::alloc::Global;

/// A spot of the procedure at a place, counted from 0.
#[derive(Clone, Copy)]
pub(crate) struct Found {
    pub(crate) spot: Spot,
    pub(crate) procedure: usize,
}

/// What was found, or the spot of a later procedure where it comes before.
fn earlier(found: Option<Found>, spot: Option<Spot>, procedure: usize) -> Option<Found>
    ensures { IsEarlierOf found spot procedure result }
{
    match (found, spot) {
        (Some(first), Some(next)) => {
            if first.spot.is_no_later(next) {
                Some(first)
            } else {
                Some(Found {
                    spot: next,
                    procedure,
                })
            }
        }
        (None, Some(next)) => Some(Found {
            spot: next,
            procedure,
        }),
        (first, None) => first,
    }
}

/// The rule that the name of a procedure breaks.
fn name_breach(new: bool) -> Option<Rule>
    ensures { result ≡ (if new then None else Some Rule.Names) }
{
    if new { None } else { Some(Rule::Names) }
}

/// The first breach of a module of the rules other than that on uses. It is refused for want of memory alone.
pub(crate) fn other_breach(alloc: Global, module_: &Module) -> Result<Option<Found>, NoMemory>
    ensures { IfOk result (IsFirstBelow IsOther (procedures module_.now) (length module_.now)) }
{
    let mut names = IndexSet::new(alloc);
    let mut found = None;
    for at in 0..module_.procs() {
        let p = module_.proc(at);
        let new = names.insert(p.name().as_bytes())?;
        let of_name = spot_on(p.line(), name_breach(new));
        let of_procedure = procedure_breach(alloc, p)?;
        let here = sooner(of_name, of_procedure);
        found = earlier(found, here, at);
    }
    Ok(found)
}

/// The rule that a line breaks on which a use isn't covered.
fn use_spot(line: Option<u32>) -> Option<Spot>
    ensures { result ≡ option_map (λ line. record { line = line; rule = Rule.Uses }) line }
{
    match line {
        Some(line) => Some(Spot {
            line,
            rule: Rule::Uses,
        }),
        None => None,
    }
}

/// The first breach of a module of the rule on uses. It is refused for want of memory alone.
pub(crate) fn use_breach(alloc: Global, module_: &Module) -> Result<Option<Found>, NoMemory>
    ensures { IfOk result (IsFirstBelow IsUses (procedures module_.now) (length module_.now)) }
{
    let mut found = None;
    for at in 0..module_.procs() {
        let line = uncovered_use(alloc, module_.proc(at))?;
        found = earlier(found, use_spot(line), at);
    }
    Ok(found)
}
