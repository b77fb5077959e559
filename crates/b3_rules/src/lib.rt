//! The rules of a valid module, as definitions, and which of them a value breaks by itself.
#![tactic(auto)]

mod cases;
mod rule;
mod sites;

pub use cases::cases_keep;
pub use rule::Rule;
pub use sites::site_breach;
