//! What a Patchpoint or a check asks of its site, as instructions of Air: the reported children in their registers, the
//! registers that are changed, and the result.
#![tactic(auto)]

mod child;
mod laws;
mod moves;
mod operands;
mod site;

pub use child::{Child, arg_of};
pub use laws::site_laws;
pub use site::{push_check, push_patch};
