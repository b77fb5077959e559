//! Classes of homes, with lists of their members.

ghost use Rattle.std.specs.Prelude.{◌≡◌, ◌≢◌, ℕ, ◌<◌, ◌⊎◌, ◌++◌, ◌∷◌, [], length, replicate, slice_index_or, Contains, IfOk, OnOk, OnErr};
ghost use Rattle.air_colour.specs.Classes.{merged};
ghost use Rattle.air_colour.specs.Members.{AreMembers};
ghost use Rattle.air_colour.specs.Progress.{class_in};

use b3_base::{NoMemory, Seq};
use std::alloc::Global;
use std::marker::Model;

/// For each home the one that stands for its class. Beside it a home that stands for a class has a list of the other
/// members.
#[derive(Drop)]
pub(crate) struct Classes {
    class: Vec<usize>,
    members: Vec<Seq<usize>>,
}

impl Model for Classes {
    ghost use Rattle.std.specs.Prelude.{ℕ, List};
    ghost use Rattle.air_colour.specs.Members.{AreMembers};

    ghost Value = { List ℕ };

    ghost view = { λ c. c.class.items };

    ghost invariant = { λ c. AreMembers c.class.items c.members.items };
}

/// Each home is a class by itself.
fn stand_alone(alloc: Global, homes: usize) -> Result<Vec<usize>, NoMemory>
    ensures long { IfOk result (λ class. length class.items ≡ homes) }
    ensures alone { IfOk result (λ class. (x : ℕ) → x < homes → slice_index_or class.items x x ≡ x) }
{
    let mut class = Vec::new(alloc);
    for u in 0..homes {
        class.push(u)?;
    }
    Ok(class)
}

/// So many empty lists.
fn empty_lists(alloc: Global, n: usize) -> Result<Vec<Seq<usize>>, NoMemory>
    ensures { IfOk result (λ lists. lists.items ≡ replicate n []) }
{
    let mut lists = Vec::new(alloc);
    for _ in 0..n {
        lists.push(Seq::new(alloc))?;
    }
    Ok(lists)
}

/// Adds numbers to one of the lists. It is refused for want of memory alone, and then changes nothing.
fn extend_at(lists: &mut [Seq<usize>], i: usize, more: &[usize]) -> Result<(), NoMemory>
    requires { i < length lists.old }
    ensures long { length lists.new ≡ length lists.old }
    ensures others { (c : ℕ) → c ≢ i → slice_index_or lists.new c [] ≡ slice_index_or lists.old c [] }
    ensures ok { OnOk result (slice_index_or lists.new i [] ≡ slice_index_or lists.old i [] ++ more.now) }
    ensures err { OnErr result (slice_index_or lists.new i [] ≡ slice_index_or lists.old i []) }
{
    lists[i].extend(more)
}

/// Empties one of the lists.
fn empty_at(alloc: Global, lists: &mut [Seq<usize>], i: usize)
    requires { i < length lists.old }
    ensures long { length lists.new ≡ length lists.old }
    ensures others { (c : ℕ) → c ≢ i → slice_index_or lists.new c [] ≡ slice_index_or lists.old c [] }
    ensures empty { slice_index_or lists.new i [] ≡ [] }
{
    lists[i] = Seq::new(alloc);
}

/// A copy of one of the lists, with a number more at its end. It is refused for want of memory alone.
fn with_one(alloc: Global, lists: &[Seq<usize>], i: usize) -> Result<Seq<usize>, NoMemory>
    requires { i < length lists.now }
    ensures { IfOk result (λ list. list ≡ slice_index_or lists.now i [] ++ i ∷ []) }
{
    let mut list = lists[i].copy(alloc)?;
    list.push(i)?;
    Ok(list)
}

/// Lets a home be a member of `a`, if it is one of `b`.
fn relabel(class: &mut [usize], u: usize, a: usize, b: usize)
    requires { u < length class.old }
    ensures long { length class.new ≡ length class.old }
    ensures here { class_in class.new u ≡ merged (class_in class.old) a b u }
    ensures others { (x : ℕ) → x ≢ u → class_in class.new x ≡ class_in class.old x }
{
    if class[u] == b {
        class[u] = a;
    }
}

/// Lets the homes of a list be members of `a` that are members of `b`.
fn relabel_all(class: &mut [usize], homes: &[usize], a: usize, b: usize)
    requires { (u : ℕ) → Contains homes.now u → u < length class.old }
    ensures long { length class.new ≡ length class.old }
    ensures those { (u : ℕ) → Contains homes.now u → class_in class.new u ≡ merged (class_in class.old) a b u }
    ensures either { (u : ℕ) → (class_in class.new u ≡ class_in class.old u)
        ⊎ (class_in class.new u ≡ merged (class_in class.old) a b u) }
{
    for u in homes {
        relabel(class, *u, a, b);
    }
}

/// Lets the members of class `b` be members of `a`. It is refused for want of memory alone, and then relabels none.
fn move_members(
    alloc: Global,
    class: &mut [usize],
    members: &mut [Seq<usize>],
    a: usize,
    b: usize,
) -> Result<(), NoMemory>
    requires members { AreMembers class.old members.old }
    requires a { a < length class.old }
    requires b { b < length class.old }
    requires differ { a ≢ b }
    ensures members { AreMembers class.new members.new }
    ensures merged { OnOk result ((x : ℕ) → class_in class.new x ≡ merged (class_in class.old) a b x) }
    ensures err { OnErr result (class.new ≡ class.old) }
{
    let going = with_one(alloc, members, b)?;
    extend_at(members, a, going.as_slice())?;
    relabel_all(class, going.as_slice(), a, b);
    empty_at(alloc, members, b);
    Ok(())
}

impl Classes {
    /// Each home is a class by itself. It is refused for want of memory alone.
    pub(crate) fn new(alloc: Global, homes: usize) -> Result<Classes, NoMemory>
        ensures long { IfOk result (λ class. length class ≡ homes) }
        ensures alone { IfOk result (λ class. (x : ℕ) → x < homes → slice_index_or class x x ≡ x) }
    {
        let class = stand_alone(alloc, homes)?;
        let members = empty_lists(alloc, homes)?;
        Ok(Classes { class, members })
    }

    /// For each home the one that stands for its class. It takes no memory.
    pub(crate) fn as_slice(&self) -> &[usize]
        ensures { result.now ≡ self.now }
    {
        self.class.as_slice()
    }

    /// Lets the members of class `b` be members of `a`, which takes as long as `b` has members. It is refused for want
    /// of memory alone, and then changes nothing.
    pub(crate) fn merge(&mut self, alloc: Global, a: usize, b: usize) -> Result<(), NoMemory>
        requires a { a < length self.old }
        requires b { b < length self.old }
        requires differ { a ≢ b }
        ensures long { length self.new ≡ length self.old }
        ensures merged { OnOk result ((x : ℕ) → class_in self.new x ≡ merged (class_in self.old) a b x) }
        ensures err { OnErr result (self.new ≡ self.old) }
    {
        move_members(alloc, &mut self.class, &mut self.members, a, b)
    }
}
