//! Where the reading of a text stands.

ghost use Rattle.std.specs.Prelude.{◌≡◌};
ghost use Rattle.b3_module.specs.Texts.{cases_in, following, targets_in};

use b3_base::Ids;
use b3_ir::{Body, Opcode, Value};

/// What the next line may be, beside one that carries nothing.
#[derive(Drop)]
pub(crate) enum Place {
    /// The header of the first procedure.
    Outside,
    /// A slot, or the heading of the first block.
    Slots,
    /// A value, the heading of one more block, or the header of one more procedure.
    Values,
    /// One of these, or a bare line of successors.
    Returned,
    /// The successor of this Jump.
    Jump(Value),
    /// The two successors of this Branch.
    Branch(Value),
    /// The successors of this Switch.
    Switch(Value),
}

/// What follows the line of a value.
#[derive(Clone, Copy)]
pub(crate) enum Following {
    /// Nothing.
    Nothing,
    /// A bare line of successors, or nothing.
    Bare,
    /// The line of one successor.
    One,
    /// The line of two successors.
    Two,
    /// The line of one successor more than cases.
    Many,
}

/// What follows the line of a value of this opcode.
pub(crate) fn follows(opcode: Opcode) -> Following
    ensures { result ≡ following opcode }
{
    match opcode {
        Opcode::Jump => Following::One,
        Opcode::Branch => Following::Two,
        Opcode::Switch => Following::Many,
        Opcode::Return | Opcode::Oops => Following::Bare,
        _ => Following::Nothing,
    }
}

/// A body with these successors.
pub(crate) fn with_targets(body: Body, targets: Ids) -> Body
    ensures { result ≡ targets_in body targets }
{
    match body {
        Body::Cases { cases, targets: _ } => Body::Cases { cases, targets },
        _ => Body::Targets(targets),
    }
}

/// How many cases a body has.
pub(crate) fn cases_in(body: &Body) -> usize
    ensures { result ≡ cases_in body.now }
{
    match body {
        Body::Cases { cases, targets: _ } => cases.len(),
        _ => 0,
    }
}
