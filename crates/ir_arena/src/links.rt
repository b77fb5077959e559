//! The links around a place of a chain: what stands before it and what after it.

ghost use Rattle.std.specs.Prelude.{◌≡◌, ℕ, ◌<◌, length, slice_get, option_map, Some, None};
ghost use Rattle.std.specs.Option.{ForSome};
ghost use Rattle.ir_arena.specs.Layout.{relinked, old_unless_none, IsAfter, node_in};

use crate::node::Link;
use crate::nodes::Nodes;

/// The ends of a chain: its first and its last node.
#[derive(Clone, Copy)]
pub(crate) struct Ends {
    pub(crate) first: Link,
    pub(crate) last: Link,
}

/// What comes after a place: it stands after the node `before`, or first where that is nothing.
pub(crate) fn after<T>(nodes: &Nodes<T>, ends: Ends, before: Link) -> Link
    requires { ForSome before (λ id. id < length nodes.now) }
    ensures { IsAfter (node_in nodes.now) ends.first before result }
{
    match before {
        None => ends.first,
        Some(id) => nodes.node(id).next,
    }
}

// What comes after the node `before`, or first where that is nothing, is to be `onward`.
fn set_after<T>(nodes: &mut Nodes<T>, ends: &mut Ends, before: Link, onward: Link)
    requires { ForSome before (λ id. id < length nodes.old) }
    ensures nodes { (i : ℕ) → slice_get nodes.new i ≡ option_map (relinked before None onward None i) (slice_get nodes.old i) }
    ensures len { length nodes.new ≡ length nodes.old }
    ensures first { ends.new.first ≡ old_unless_none before onward ends.old.first }
    ensures last { ends.new.last ≡ ends.old.last }
{
    match before {
        None => ends.first = onward,
        Some(id) => nodes.set_next(id, onward),
    }
}

// What comes before the node `after`, or last where that is nothing, is to be `back`.
fn set_before<T>(nodes: &mut Nodes<T>, ends: &mut Ends, after: Link, back: Link)
    requires { ForSome after (λ id. id < length nodes.old) }
    ensures nodes { (i : ℕ) → slice_get nodes.new i ≡ option_map (relinked None after None back i) (slice_get nodes.old i) }
    ensures len { length nodes.new ≡ length nodes.old }
    ensures first { ends.new.first ≡ ends.old.first }
    ensures last { ends.new.last ≡ old_unless_none after back ends.old.last }
{
    match after {
        None => ends.last = back,
        Some(id) => nodes.set_before(id, back),
    }
}

/// Links what stands around a place anew: `onward` comes after what is before it, and `back` comes
/// before what is after it.
pub(crate) fn relink<T>(
    nodes: &mut Nodes<T>,
    ends: &mut Ends,
    around: (Link, Link),
    onward: Link,
    back: Link,
)
    requires before { ForSome around.0 (λ id. id < length nodes.old) }
    requires after { ForSome around.1 (λ id. id < length nodes.old) }
    ensures nodes { (i : ℕ) → slice_get nodes.new i ≡ option_map (relinked around.0 around.1 onward back i) (slice_get nodes.old i) }
    ensures len { length nodes.new ≡ length nodes.old }
    ensures first { ends.new.first ≡ old_unless_none around.0 onward ends.old.first }
    ensures last { ends.new.last ≡ old_unless_none around.1 back ends.old.last }
{
    set_after(nodes, ends, around.0, onward);
    set_before(nodes, ends, around.1, back);
}
