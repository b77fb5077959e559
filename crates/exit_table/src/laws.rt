//! What a first fault is.

ghost use Rattle.std.specs.Prelude.{◌≡◌, ℕ, ◌+◌, ◌≤◌, ◌++◌, List, length, Err};
ghost use Rattle.exit_table.specs.FrameReading.{frames_at};
ghost use Rattle.exit_table.specs.ExitReading.{sites_at};
ghost use Rattle.exit_table.specs.Rooms.{Room};

use crate::fault::{Cause, Fault};

/// Tells that a section that is cut anywhere before the field of its first fault has no fault but
/// that it ends there: whatever the fields before it are, no fault stands among them.
pub fn no_fault_before()
    ensures frames { (procedures : ℕ) (front back : List ℕ) (cause : Cause) (left : ℕ)
        → frames_at procedures (front ++ back) ≡ Err (Fault.At cause left)
        → left ≤ length back
        → frames_at procedures front ≡ Err Fault.Short }
    ensures sites { (rooms : List Room) (front back : List ℕ) (cause : Cause) (left : ℕ)
        → sites_at rooms (front ++ back) ≡ Err (Fault.At cause left)
        → left ≤ length back
        → sites_at rooms front ≡ Err Fault.Short }
{}

/// Tells that a first fault stays whatever follows: it stands at the same field, from which so many
/// fields more are left.
pub fn first_fault_stays()
    ensures frames { (procedures : ℕ) (front more : List ℕ) (cause : Cause) (left : ℕ)
        → frames_at procedures front ≡ Err (Fault.At cause left)
        → frames_at procedures (front ++ more) ≡ Err (Fault.At cause (left + length more)) }
    ensures sites { (rooms : List Room) (front more : List ℕ) (cause : Cause) (left : ℕ)
        → sites_at rooms front ≡ Err (Fault.At cause left)
        → sites_at rooms (front ++ more) ≡ Err (Fault.At cause (left + length more)) }
{}
