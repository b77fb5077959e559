//! Chains of nodes in chunks. Contracts see a `Chains` as a list of lists of items, each under the
//! id of its node, and the number of items that fit without memory.
#![tactic(auto)]

mod chains;
mod chunk;
mod links;
mod node;
mod nodes;
mod raw;

pub use chains::Chains;
pub use node::{ChainId, NodeId};
