//! Reported children.

ghost use Rattle.std.specs.Prelude.{◌≡◌};
ghost use Rattle.air_stackmap.specs.SiteCode as code;

use air_ir::{Arg, Home};
use b3_base::Width;

/// What is known of a reported child: the width of its word, the home in which the word stands, and the word itself
/// where the child is a constant.
#[derive(Clone, Copy)]
pub struct Child {
    pub width: Width,
    pub home: Home,
    pub constant: Option<u64>,
}

/// Where a site finds the word of a child: in the operand itself where the child is a constant, else in its home.
pub fn arg_of(child: &Child) -> Arg
    ensures { result ≡ code.arg_of child.now }
{
    match child.constant {
        Some(word) => Arg::Imm(word),
        None => Arg::At(child.home),
    }
}
