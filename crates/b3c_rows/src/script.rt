//! How a stream of a case behaves.

ghost use Rattle.std.specs.Prelude.{◌≤◌};

use crate::content::number_of;
use crate::fault::Fault;

/// How a stream behaves: the most bytes that a call moves, and which call fails.
#[derive(Clone, Copy, Debug, PartialEq, Eq)]
pub struct Script {
    most: Option<u64>,
    fails_at: Option<u64>,
}

impl Script {
    /// A call moves all that it may, and none fails.
    pub fn new() -> Script {
        Script {
            most: None,
            fails_at: None,
        }
    }

    /// Takes in what a case says of the stream: `at most N` or `fails at N`. It tells whether it says one of these.
    pub fn take(&mut self, what: &str) -> Result<bool, Fault> {
        if let Some(count) = what.strip_prefix("at most ") {
            self.most = Some(number_of(count)?);
        } else if let Some(call) = what.strip_prefix("fails at ") {
            self.fails_at = Some(number_of(call)?);
        } else {
            return Ok(false);
        }
        Ok(true)
    }

    /// Whether the case says nothing of the stream.
    pub fn is_plain(&self) -> bool {
        self.most.is_none() && self.fails_at.is_none()
    }

    /// The most bytes that a call moves.
    pub fn most(&self) -> usize
        ensures { 1 ≤ result }
    {
        match self.most {
            Some(most) if 0 < most => usize::try_from(most).unwrap_or(usize::MAX),
            _ => usize::MAX,
        }
    }

    /// The call that fails, counted from 1; 0 where none does.
    pub fn fails_at(&self) -> u64 {
        self.fails_at.unwrap_or(0)
    }
}
