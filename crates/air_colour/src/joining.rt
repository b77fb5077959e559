//! Whether two classes may be joined, and joining them.

ghost use Rattle.std.specs.Prelude.{◌≡◌, not, ℕ, ◌<◌, ◌≤◌, ◌↔◌, ◌⊎◌, ◌&&◌, length, slice_index_or, slice_set, filter, IsTrue, IfOk, OnOk, Contains, ◌≢◌, leb, true, false};
ghost use Rattle.air_colour.specs.Interference.{IsIn, count, degree};
ghost use Rattle.air_colour.specs.Joining.{is_significant, is_neighbour_of_either, MayJoin};
ghost use Rattle.air_colour.specs.Kept.{graph_of, has, HasRoom, JoinedTo, neighbours_left, significant_left};

use air_graph::Edges;
use b3_base::NoMemory;
use std::alloc::Global;

/// Whether the class `a` interferes with at least `k` of the classes that are left. It stops at the first `k`.
pub(crate) fn reaches(edges: &Edges, left: &[bool], a: usize, k: usize) -> bool
    requires room { HasRoom edges.now (length left.now) (length left.now) }
    requires a { a < length left.now }
    ensures { result ≡ leb k (neighbours_left edges.now left.now a) }
{
    let mut neighbours: usize = 0;
    let near = edges.near(a);
    for b in near {
        if k <= neighbours {
            return true;
        }
        if left[*b as usize] {
            neighbours += 1;
        }
    }
    k <= neighbours
}

/// Whether the class holds a register or has at least `k` neighbours.
fn significant(edges: &Edges, left: &[bool], fixed: &[bool], a: usize, k: usize) -> bool
    requires room { HasRoom edges.now (length left.now) (length fixed.now) }
    requires a { a < length left.now }
    ensures { result ≡ is_significant k (graph_of edges.now left.now fixed.now) a }
{
    fixed[a] || reaches(edges, left, a, k)
}

/// Whether the class `x` is left, and holds a register or has at least `k` neighbours.
fn counts(edges: &Edges, left: &[bool], fixed: &[bool], x: usize, k: usize) -> bool
    requires room { HasRoom edges.now (length left.now) (length fixed.now) }
    requires x { x < length left.now }
    ensures { result ≡ significant_left k edges.now left.now fixed.now x }
{
    left[x] && significant(edges, left, fixed, x, k)
}

/// How many significant neighbours the class `a` has. It stops at the first `k`.
fn significant_near(edges: &Edges, left: &[bool], fixed: &[bool], a: usize, k: usize) -> usize
    requires room { HasRoom edges.now (length left.now) (length fixed.now) }
    requires a { a < length left.now }
    ensures some { result ≤ count (λ x. significant_left k edges.now left.now fixed.now x
        && has edges.now a x) (length left.now) }
    ensures all { result < k → result ≡ count (λ x. significant_left k edges.now left.now fixed.now x
        && has edges.now a x) (length left.now) }
{
    let mut many: usize = 0;
    let near = edges.near(a);
    for x in near {
        if k <= many {
            return many;
        }
        if counts(edges, left, fixed, *x as usize, k) {
            many += 1;
        }
    }
    many
}

/// How many significant neighbours the class `b` has that aren't neighbours of `a`. It stops at the first `most`.
fn significant_beyond(
    edges: &Edges,
    left: &[bool],
    fixed: &[bool],
    a: usize,
    b: usize,
    k: usize,
    most: usize,
) -> usize
    requires room { HasRoom edges.now (length left.now) (length fixed.now) }
    requires a { a < length left.now }
    requires b { b < length left.now }
    ensures some { result ≤ count (λ x. (significant_left k edges.now left.now fixed.now x && not (has edges.now a x))
        && has edges.now b x) (length left.now) }
    ensures all { result < most → result ≡ count (λ x. (significant_left k edges.now left.now fixed.now x
        && not (has edges.now a x)) && has edges.now b x) (length left.now) }
{
    let mut many: usize = 0;
    let near = edges.near(b);
    for y in near {
        if most <= many {
            return many;
        }
        let x = *y as usize;
        if counts(edges, left, fixed, x, k) && !edges.has(a, x) {
            many += 1;
        }
    }
    many
}

/// The Briggs test: the joined class would have fewer than `k` significant neighbours.
fn briggs(edges: &Edges, left: &[bool], fixed: &[bool], a: usize, b: usize, k: usize) -> bool
    requires room { HasRoom edges.now (length left.now) (length fixed.now) }
    requires a { a < length left.now }
    requires b { b < length left.now }
    ensures { IsTrue result ↔ (count (λ x. is_neighbour_of_either (graph_of edges.now left.now fixed.now) a b x
        && is_significant k (graph_of edges.now left.now fixed.now) x) (length left.now) < k) }
{
    let first = significant_near(edges, left, fixed, a, k);
    if first >= k {
        return false;
    }
    significant_beyond(edges, left, fixed, a, b, k, k - first) < k - first
}

/// Whether the neighbour `x` holds a register, interferes with `a`, or has fewer than `k` neighbours.
fn harmless(edges: &Edges, left: &[bool], fixed: &[bool], a: usize, x: usize, k: usize) -> bool
    requires room { HasRoom edges.now (length left.now) (length fixed.now) }
    requires a { a < length left.now }
    requires x { x < length left.now }
    ensures { IsTrue result ↔ ((slice_index_or fixed.now x false ≡ true) ⊎ ((has edges.now x a ≡ true)
        ⊎ (degree (graph_of edges.now left.now fixed.now) x < k))) }
{
    fixed[x] || edges.has(x, a) || !reaches(edges, left, x, k)
}

/// The George test: each neighbour of `b` is harmless.
fn george(edges: &Edges, left: &[bool], fixed: &[bool], a: usize, b: usize, k: usize) -> bool
    requires room { HasRoom edges.now (length left.now) (length fixed.now) }
    requires a { a < length left.now }
    requires b { b < length left.now }
    ensures { IsTrue result ↔ ((x : ℕ) → IsIn (graph_of edges.now left.now fixed.now) x → has edges.now b x ≡ true
        → (slice_index_or fixed.now x false ≡ true) ⊎ ((has edges.now x a ≡ true)
        ⊎ (degree (graph_of edges.now left.now fixed.now) x < k))) }
{
    let near = edges.near(b);
    for y in near {
        let x = *y as usize;
        if left[x] && !harmless(edges, left, fixed, a, x, k) {
            return false;
        }
    }
    true
}

/// Whether class `b` may go into class `a`.
pub(crate) fn may_join(
    edges: &Edges,
    left: &[bool],
    fixed: &[bool],
    a: usize,
    b: usize,
    k: usize,
) -> bool
    requires room { HasRoom edges.now (length left.now) (length fixed.now) }
    requires a { a < length left.now }
    requires b { b < length left.now }
    ensures { IsTrue result ↔ MayJoin k (graph_of edges.now left.now fixed.now) a b }
{
    if a == b || !left[a] || !left[b] || edges.has(a, b) || fixed[b] {
        return false;
    }
    if fixed[a] {
        george(edges, left, fixed, a, b, k)
    } else {
        briggs(edges, left, fixed, a, b, k)
    }
}

/// Adds edges from class `a` to all of a list.
fn add_edges(edges: &mut Edges, a: usize, near: &[u32]) -> Result<(), NoMemory>
    requires a { a < edges.old.names }
    requires below { (x : ℕ) → Contains near.now x → x < edges.old.names }
    requires differ { (x : ℕ) → Contains near.now x → x ≢ a }
    ensures names { edges.new.names ≡ edges.old.names }
    ensures meets { OnOk result ((y z : ℕ) → JoinedTo edges.old edges.new a near.now y z) }
{
    for x in near {
        edges.add(a, *x as usize)?;
    }
    Ok(())
}

/// Neighbours of a class that are left: those that another class has too, and those that it doesn't have.
#[derive(Drop)]
pub(crate) struct Shared {
    pub(crate) both: Vec<u32>,
    pub(crate) fresh: Vec<u32>,
}

/// Which of some classes that are left the class `a` interferes with, and with which it doesn't.
fn split(
    alloc: Global,
    edges: &Edges,
    left: &[bool],
    near: &[u32],
    a: usize,
) -> Result<Shared, NoMemory>
    requires room { HasRoom edges.now (length left.now) (length left.now) }
    requires a { a < length left.now }
    requires near { (x : ℕ) → Contains near.now x → x < length left.now }
    ensures both { IfOk result (λ s. s.both.items ≡ filter (λ x. slice_index_or left.now x false
        && has edges.now a x) near.now) }
    ensures fresh { IfOk result (λ s. s.fresh.items ≡ filter (λ x. slice_index_or left.now x false
        && not (has edges.now a x)) near.now) }
{
    let mut both = Vec::new(alloc);
    let mut fresh = Vec::new(alloc);
    for x in near {
        if left[*x as usize] {
            if edges.has(a, *x as usize) {
                both.push(*x)?;
            } else {
                fresh.push(*x)?;
            }
        }
    }
    Ok(Shared { both, fresh })
}

/// Lets class `b` go into class `a`, which takes over its neighbours that are left. It gives these, and is refused for
/// want of memory alone.
pub(crate) fn join(
    alloc: Global,
    edges: &mut Edges,
    left: &mut [bool],
    a: usize,
    b: usize,
) -> Result<Shared, NoMemory>
    requires room { HasRoom edges.old (length left.old) (length left.old) }
    requires a { a < length left.old }
    requires b { b < length left.old }
    requires apart { has edges.old b a ≡ false }
    ensures room { HasRoom edges.new (length left.old) (length left.old) }
    ensures left { IfOk result (λ _. left.new ≡ slice_set left.old b false) }
    ensures below { IfOk result (λ s. (x : ℕ) → Contains s.both.items x → x < length left.old) }
    ensures meets { IfOk result (λ _. (x y : ℕ) → slice_index_or left.old x false ≡ true
        → slice_index_or left.old y false ≡ true → (has edges.new x y ≡ true)
        ↔ ((has edges.old x y ≡ true) ⊎ (((x ≡ a) × (has edges.old b y ≡ true)) ⊎ ((y ≡ a)
        × (has edges.old b x ≡ true))))) }
{
    let near = split(alloc, edges, left, edges.near(b), a)?;
    add_edges(edges, a, &near.fresh)?;
    left[b] = false;
    Ok(near)
}
