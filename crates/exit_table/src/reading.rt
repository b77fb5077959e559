//! Fields of 4 bytes, one after the other.

ghost use Rattle.std.specs.Prelude.{◌≡◌, ◌/◌, length};
ghost use Rattle.b3_base.specs.Fields.{fields};
ghost use Rattle.exit_table.specs.Reading.{Gives, next, placed, check, one, mark_at, is_zero, ended};

use crate::fault::{Cause, Fault, ReadError};
use b3_base::take_u32;

/// The next field, and the bytes behind it.
pub(crate) fn field(section: &[u8]) -> Result<(u32, &[u8]), ReadError>
    ensures { Gives (λ x. (x.0, fields x.1.now)) result (next (fields section.now)) }
{
    match take_u32(section) {
        Some(field) => Ok(field),
        None => Err(ReadError::Fault(Fault::Short)),
    }
}

/// What the first of these fields says, or its fault.
#[tactic(auto, using(b3_base::proofs::FieldLaws::length_fields))]
pub(crate) fn placed<T>(said: Result<T, Cause>, section: &[u8]) -> Result<T, ReadError>
    ensures { Gives (λ x. x) result (placed (length (fields section.now)) said) }
{
    match said {
        Ok(value) => Ok(value),
        Err(cause) => Err(ReadError::Fault(Fault::At(cause, section.len() / 4))),
    }
}

/// What a number says, if it meets a condition.
pub(crate) fn check<T: Drop>(holds: bool, cause: Cause, value: T) -> Result<T, Cause>
    ensures { result ≡ check holds cause value }
{
    if holds { Ok(value) } else { Err(cause) }
}

/// The first fields of a section: its mark and version 1.
#[tactic(auto, unfolding(crate::specs::Reading::mark_at))]
pub(crate) fn mark(mark: u32, section: &[u8]) -> Result<&[u8], ReadError>
    ensures { Gives (λ rest. (tt, fields rest.now)) result (mark_at mark (fields section.now)) }
{
    let (number, behind) = field(section)?;
    placed(check(number == mark, Cause::Mark, number), section)?;
    let (version, rest) = field(behind)?;
    placed(check(version == 1, Cause::Mark, version), behind)?;
    Ok(rest)
}

/// A field that is always zero, and the bytes behind it.
pub(crate) fn zero(section: &[u8]) -> Result<&[u8], ReadError>
    ensures { Gives (λ rest. (0, fields rest.now)) result (one is_zero (fields section.now)) }
{
    let (number, rest) = field(section)?;
    placed(check(number == 0, Cause::Unlisted, number), section)?;
    Ok(rest)
}

/// Whether a section ends with its last row, behind which `rest` is left.
#[tactic(auto, using(b3_base::proofs::FieldLaws::length_fields))]
pub(crate) fn ended(section: &[u8], rest: &[u8]) -> Result<(), ReadError>
    ensures { Gives (λ x. x) result (ended section.now (fields rest.now)) }
{
    let all = rest.len() / 4 == 0 && section.len() % 4 == 0;
    placed(check(all, Cause::Extent, ()), rest)
}
