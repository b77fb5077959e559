//! The edges of one instruction.

ghost use Rattle.std.specs.Prelude.{◌≡◌, filter, not, ◌≢◌, ◌↔◌, ◌⊎◌, ◌+◌, ◌<◌, ℕ, Contains, IfOk, OnOk};
ghost use Rattle.std.specs.List.{list_any};
ghost use Rattle.air_ir.specs.Operands.{same_home};
ghost use Rattle.air_ir.specs.declared.operand.Home.{Home};
ghost use Rattle.air_graph.specs.Homes.{home_at};
ghost use Rattle.air_graph.specs.Walk.{Adds, AreBelow, IsMet, in_list, is_move};

use crate::edges::Edges;
use crate::homes::home_at;
use crate::moves::Copied;
use crate::touched::{Numbers, Touched};
use air_ir::Home;
use b3_base::{NoMemory, Seq};
use std::alloc::Global;

fn is_same(a: Home, b: Home) -> bool
    ensures { result ≡ same_home a b }
{
    match (a, b) {
        (Home::Tmp(m), Home::Tmp(n)) => m == n,
        (Home::Reg(m), Home::Reg(n)) => m.0 == n.0,
        (Home::Spill(m), Home::Spill(n)) => m == n,
        _ => false,
    }
}

/// Whether the number is in the list.
pub(crate) fn in_list(list: &[usize], n: usize) -> bool
    ensures { result ≡ in_list list.now n }
{
    for x in list {
        if *x == n {
            return true;
        }
    }
    false
}

fn has_home(homes: &[Home], home: Home) -> bool
    ensures { result ≡ list_any (λ h. same_home h home) homes.now }
{
    for h in homes {
        if is_same(*h, home) {
            return true;
        }
    }
    false
}

/// The homes that moves copy to a home.
fn sources_of(alloc: Global, moves: &[Copied], to: Home) -> Result<Seq<Home>, NoMemory>
    ensures { IfOk result (λ homes. (from : Home)
        → list_any (λ h. same_home h from) homes ≡ is_move moves.now from to) }
{
    let mut homes = Seq::new(alloc);
    for m in moves {
        if is_same(m.to, to) {
            homes.push(m.from)?;
        }
    }
    Ok(homes)
}

/// The live homes that no move copies to that of x.
fn apart(
    alloc: Global,
    tmps: u32,
    moves: &[Copied],
    live: &[usize],
    x: usize,
) -> Result<Numbers, NoMemory>
    requires x { x < tmps + 25 }
    requires live { AreBelow (tmps + 25) live.now }
    ensures { IfOk result (λ list. list ≡ filter (λ y. not (is_move moves.now (home_at tmps y)
        (home_at tmps x))) live.now) }
{
    let sources = sources_of(alloc, moves, home_at(tmps, x))?;
    let mut list = Numbers::new(alloc);
    if sources.is_empty() {
        list.extend(live)?;
        return Ok(list);
    }
    for y in live {
        if !has_home(sources.as_slice(), home_at(tmps, *y)) {
            list.push(*y)?;
        }
    }
    Ok(list)
}

/// What is needed while the home of x is defined.
fn met_by(
    alloc: Global,
    tmps: u32,
    t: &Touched,
    live: &[usize],
    x: usize,
) -> Result<Numbers, NoMemory>
    requires x { x < tmps + 25 }
    requires live { AreBelow (tmps + 25) live.now }
    ensures { IfOk result (λ met. (y : ℕ) → Contains met y ↔ IsMet tmps t.now live.now x y) }
{
    let mut met = apart(alloc, tmps, t.moves.as_slice(), live, x)?;
    met.extend(t.late.as_slice())?;
    met.extend(t.defined.as_slice())?;
    if in_list(t.early.as_slice(), x) {
        met.extend(t.used.as_slice())?;
    }
    Ok(met)
}

/// Adds edges from x to all of a list but x itself.
fn add_all(edges: &mut Edges, x: usize, met: &[usize]) -> Result<(), NoMemory>
    requires x { x < edges.old.names }
    requires met { AreBelow edges.old.names met.now }
    ensures names { edges.new.names ≡ edges.old.names }
    ensures edges { OnOk result (Adds edges.old.names edges.old edges.new (λ a b. ((a ≡ x) × Contains met.now b)
        ⊎ ((b ≡ x) × Contains met.now a))) }
{
    for y in met {
        if *y != x {
            edges.add(x, *y)?;
        }
    }
    Ok(())
}

/// Adds the edges from what an instruction defines, which is this list.
pub(crate) fn add_defined(
    alloc: Global,
    tmps: u32,
    edges: &mut Edges,
    t: &Touched,
    defined: &[usize],
    live: &[usize],
) -> Result<(), NoMemory>
    requires sized { edges.old.names ≡ tmps + 25 }
    requires live { AreBelow (tmps + 25) live.now }
    requires used { AreBelow (tmps + 25) t.now.used }
    requires late { AreBelow (tmps + 25) t.now.late }
    requires all { t.now.defined ≡ defined.now }
    requires defined { AreBelow (tmps + 25) defined.now }
    ensures names { edges.new.names ≡ edges.old.names }
    ensures edges { OnOk result (Adds (tmps + 25) edges.old edges.new (λ a b. (Contains defined.now a
        × IsMet tmps t.now live.now a b)
        ⊎ (Contains defined.now b × IsMet tmps t.now live.now b a))) }
{
    for x in defined {
        let met = met_by(alloc, tmps, t, live, *x)?;
        add_all(edges, *x, met.as_slice())?;
    }
    Ok(())
}
