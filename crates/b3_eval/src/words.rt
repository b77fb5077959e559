//! The words of values that compute with no child.

ghost use Rattle.std.specs.Prelude.{◌≡◌};
ghost use Rattle.b3_base.specs.Observed.{start_of};
ghost use Rattle.b3_meaning.specs.Opcodes.{word_given};
ghost use Rattle.b3_meaning.specs.Run as run;

use b3_base::Start;
use b3_ir::Body;

/// The word of a constant.
pub(crate) fn constant_of(body: &Body) -> Option<u64>
    ensures { result ≡ word_given (run.constant_of body.now) }
{
    match body {
        Body::Constant(word) => Some(*word),
        _ => None,
    }
}

/// The word of an argument: 0 from x8 on.
pub(crate) fn argument_of(start: &Start, body: &Body) -> Option<u64>
    ensures { result ≡ word_given (run.argument_of (start_of start.now) body.now) }
{
    match body {
        Body::Argument(reg) => Some(
            start
                .arguments
                .as_slice()
                .get(reg.0 as usize)
                .copied()
                .unwrap_or(0),
        ),
        _ => None,
    }
}

/// The address of a slot.
pub(crate) fn slot_of(start: &Start, body: &Body) -> Option<u64>
    ensures { result ≡ word_given (run.slot_of (start_of start.now) body.now) }
{
    match body {
        Body::Slot(number) => start.slots.as_slice().get(*number as usize).copied(),
        _ => None,
    }
}
