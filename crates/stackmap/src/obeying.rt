//! Whether a site obeys the constraints of its value.

ghost use Rattle.std.specs.Prelude.{◌≡◌, ◌<◌, ◌≤◌, ◌↔◌, ◌||◌, ◌&&◌, ℕ, true, IfSome, IsTrue};
ghost use Rattle.b3_ir.specs.declared.value.Reg.{Reg};
ghost use Rattle.stackmap.specs.Registers.{has};
ghost use Rattle.stackmap.specs.Obeys.{HasKind, IsNamed, Keeps, Obeys};
ghost use Rattle.stackmap.specs.Standing.{child_count, counts, is_clobbered, stands_at, ClobbersKeep, FitBelow, ResultHasKind, ResultKeeps, SetsKeep, StandsBelow, TwiceBelow};

use crate::constraint::{fixed_by, is_late, is_patchpoint};
use crate::set;
use crate::site::{Rep, Site};
use b3_ir::{Body, Constraint, Reg, Stackmap, Value};

// Some of the reported children of a site.
#[derive(Clone, Copy)]
enum Group {
    Every,
    Late,
    Clobbered,
}

/// Whether the places, the result and the clobbers of a site obey the constraints of its value, a
/// Patchpoint or a check. Whether it has a place for each reported child, and a result where the
/// value has one, isn't looked at. It takes no memory.
pub fn obeys(value: &Value, site: &Site) -> bool
    ensures { IsTrue result ↔ Obeys value.now site.now }
{
    match &value.body {
        Body::Map(map) => keeps(is_patchpoint(value.kind.opcode), map, site),
        _ => false,
    }
}

fn keeps(patchpoint: bool, map: &Stackmap, site: &Site) -> bool
    ensures { IsTrue result ↔ Keeps patchpoint map.now site.now }
{
    if !places_fit(map, site) {
        return false;
    }
    let every = registers_of(Group::Every, map, site);
    let late = registers_of(Group::Late, map, site);
    let clobbered = registers_of(Group::Clobbered, map, site);
    let twice = shared_registers(map, site);
    sets_keep(patchpoint, map, site, every, late, clobbered, twice)
}

fn sets_keep(
    patchpoint: bool,
    map: &Stackmap,
    site: &Site,
    every: u32,
    late: u32,
    clobbered: u32,
    twice: u32,
) -> bool
    ensures { IsTrue result ↔ SetsKeep patchpoint map.now site.now every late clobbered twice }
{
    set::are_disjoint(clobbered, twice)
        && set::are_disjoint(every, map.early.bits())
        && set::are_disjoint(late, set::union(map.late.bits(), clobbered))
        && result_keeps(map, site, every, late)
        && clobbers_keep(patchpoint, map, site, clobbered)
}

fn result_keeps(map: &Stackmap, site: &Site, every: u32, late: u32) -> bool
    ensures { IsTrue result ↔ IfSome site.now.result (λ result. ResultKeeps map.now every late result.1) }
{
    match site.result {
        Some((_, reg)) => result_fits(map, every, late, reg),
        None => true,
    }
}

fn result_fits(map: &Stackmap, every: u32, late: u32, reg: Reg) -> bool
    ensures { IsTrue result ↔ ResultKeeps map.now every late reg }
{
    if reg.0 > 30 || set::is_in(map.late.bits(), reg.0) || set::is_in(late, reg.0) {
        return false;
    }
    result_has_kind(map.result, map.early.bits(), every, reg)
}

fn result_has_kind(constraint: Constraint, early: u32, every: u32, reg: Reg) -> bool
    ensures { IsTrue result ↔ ResultHasKind constraint early every reg }
{
    match constraint {
        Constraint::SomeEarlyRegister => { !set::is_in(early, reg.0) && !set::is_in(every, reg.0) }
        Constraint::Fixed(fixed) | Constraint::LateFixed(fixed) => reg.0 == fixed.0,
        _ => true,
    }
}

fn clobbers_keep(patchpoint: bool, map: &Stackmap, site: &Site, clobbered: u32) -> bool
    ensures { IsTrue result ↔ ClobbersKeep patchpoint map.now site.now clobbered }
{
    let listed = site.clobbers.bits();
    if patchpoint {
        let changed = set::union(map.early.bits(), map.late.bits());
        set::are_equal(listed, set::union(changed, clobbered))
    } else {
        listed == 0
    }
}

// How many children have both a constraint and a place.
fn child_count(map: &Stackmap, site: &Site) -> usize
    ensures { result ≡ child_count map.now site.now }
{
    map.constraints.len().min(site.reps.len())
}

fn places_fit(map: &Stackmap, site: &Site) -> bool
    ensures { IsTrue result ↔ FitBelow map.now site.now (child_count map.now site.now) }
{
    for k in 0..child_count(map, site) {
        if !fits(*map.constraints.get(k), site.reps.get(k).rep) {
            return false;
        }
    }
    true
}

fn fits(constraint: Constraint, rep: Rep) -> bool
    ensures { IsTrue result ↔ (HasKind constraint rep × IsNamed rep) }
{
    match rep {
        Rep::Register(reg) => {
            reg.0 <= 30
                && match fixed_by(constraint) {
                    Some(fixed) => reg.0 == fixed.0,
                    None => true,
                }
        }
        _ => matches!(
            constraint,
            Constraint::WarmAny
                | Constraint::ColdAny
                | Constraint::LateColdAny
                | Constraint::SomeEarlyRegister
        ),
    }
}

fn counts(group: Group, constraint: Constraint) -> bool
    ensures { result ≡ counts group constraint }
{
    match group {
        Group::Every => true,
        Group::Late => is_late(constraint),
        Group::Clobbered => matches!(constraint, Constraint::SomeRegisterWithClobber),
    }
}

// The registers in which children of a group stand.
fn registers_of(group: Group, map: &Stackmap, site: &Site) -> u32
    requires { FitBelow map.now site.now (child_count map.now site.now) }
    ensures { (reg : Reg) → (has result reg.0 ≡ true)
        ↔ StandsBelow group map.now site.now (child_count map.now site.now) reg }
{
    let mut set = 0;
    for k in 0..child_count(map, site) {
        let counted = counts(group, *map.constraints.get(k));
        set = with_place(set, counted, site.reps.get(k).rep);
    }
    set
}

// The registers in which more than one child stands.
fn shared_registers(map: &Stackmap, site: &Site) -> u32
    requires { FitBelow map.now site.now (child_count map.now site.now) }
    ensures { (reg : Reg) → (has result reg.0 ≡ true) ↔ TwiceBelow map.now site.now (child_count map.now site.now) reg }
{
    let mut once = 0;
    let mut twice = 0;
    for k in 0..child_count(map, site) {
        let rep = site.reps.get(k).rep;
        twice = with_place(twice, is_at(once, rep), rep);
        once = with_place(once, true, rep);
    }
    twice
}

fn is_at(set: u32, rep: Rep) -> bool
    ensures { (r : ℕ) → stands_at r rep ≡ true → result ≡ has set r }
{
    match rep {
        Rep::Register(reg) => set::is_in(set, reg.0),
        _ => false,
    }
}

fn with_place(set: u32, counted: bool, rep: Rep) -> u32
    requires { IsNamed rep }
    ensures { (r : ℕ) → has result r ≡ (has set r || (counted && stands_at r rep)) }
{
    match rep {
        Rep::Register(reg) if counted => set::with(set, reg.0),
        _ => set,
    }
}
