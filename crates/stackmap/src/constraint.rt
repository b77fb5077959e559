//! What a constraint and a value say of registers.

ghost use Rattle.std.specs.Prelude.{◌≡◌};
ghost use Rattle.stackmap.specs.Registers.{fixed_by, has_result, is_late, is_patchpoint, is_placed, is_placed_result};

use b3_ir::{Constraint, Opcode, Reg, Ty, Value};

/// The register that a constraint fixes, early or late.
pub fn fixed_by(constraint: Constraint) -> Option<Reg>
    ensures { result ≡ fixed_by constraint }
{
    match constraint {
        Constraint::Fixed(reg) | Constraint::LateFixed(reg) => Some(reg),
        _ => None,
    }
}

/// Whether the placing rule gives a child of this constraint a register.
pub fn is_placed(constraint: Constraint) -> bool
    ensures { result ≡ is_placed constraint }
{
    matches!(
        constraint,
        Constraint::SomeRegister
            | Constraint::SomeRegisterWithClobber
            | Constraint::SomeLateRegister
    )
}

/// Whether it gives a result of this constraint one.
pub fn is_placed_result(constraint: Constraint) -> bool
    ensures { result ≡ is_placed_result constraint }
{
    matches!(
        constraint,
        Constraint::SomeRegister | Constraint::SomeEarlyRegister
    )
}

/// Whether a child of this constraint is read late.
pub fn is_late(constraint: Constraint) -> bool
    ensures { result ≡ is_late constraint }
{
    matches!(
        constraint,
        Constraint::LateColdAny | Constraint::SomeLateRegister | Constraint::LateFixed(_)
    )
}

/// Whether this is the opcode of a Patchpoint.
pub fn is_patchpoint(opcode: Opcode) -> bool
    ensures { result ≡ is_patchpoint opcode }
{
    matches!(opcode, Opcode::Patchpoint)
}

/// Whether a value has a result at its site: a Patchpoint that isn't Void.
pub fn has_result(value: &Value) -> bool
    ensures { result ≡ has_result value.now }
{
    is_patchpoint(value.kind.opcode) && !matches!(value.ty, Ty::Void)
}
