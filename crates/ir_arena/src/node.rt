//! The nodes and their ids.

ghost use Rattle.std.specs.Prelude.{◌≡◌, ℕ, Some, IsSome};
ghost use Rattle.std.specs.Borrow.{sem};

use std::marker::Model;

/// The id of a node: its number among the nodes of its `Chains`, below 2^32. It may be handed out
/// again once its item is removed.
#[derive(Clone, Copy, Debug, PartialEq, Eq)]
pub struct NodeId(pub(crate) u32);

impl Model for NodeId {
    ghost Value = { ℕ };

    ghost view = { λ id. id.0 };

    ghost inverse = { λ n. record { 0 = n } };
}

/// The number of a node, or nothing at the end of a chain.
pub(crate) type Link = Option<u32>;

/// The link to the node of an id.
pub(crate) fn link(id: Option<NodeId>) -> Link
    ensures { result ≡ id }
{
    match id {
        Some(id) => Some(id.0),
        None => None,
    }
}

/// The id of the node that a link leads to.
pub(crate) fn linked(link: Link) -> Option<NodeId>
    ensures { result ≡ link }
{
    match link {
        Some(number) => Some(NodeId(number)),
        None => None,
    }
}

/// The id of a chain: its number in the order in which the chains were added, below 2^32.
#[derive(Clone, Copy, Debug, PartialEq, Eq)]
pub struct ChainId(pub(crate) u32);

impl Model for ChainId {
    ghost Value = { ℕ };

    ghost view = { λ id. id.0 };

    ghost inverse = { λ n. record { 0 = n } };
}

/// A node: in use, with an item and its neighbours in its chain, or free, with the next free node.
#[derive(Drop)]
pub(crate) struct Node<T> {
    pub(crate) chain: u32,
    pub(crate) before: Link,
    pub(crate) next: Link,
    pub(crate) item: Option<T>,
}

impl<T> Node<T> {
    ghost use Rattle.ir_arena.specs.NodeLends.{lends_item};

    /// The item, to be changed.
    pub(crate) fn item_mut(&mut self) -> &mut T
        requires { IsSome self.old.item }
        ensures* lends { sem 𝓛 (lends_item T.row self.entry result) }
        ensures value { self.old.item ≡ Some result.now }
    {
        match &mut self.item {
            Some(item) => item,
            None => unreachable!(),
        }
    }
}
