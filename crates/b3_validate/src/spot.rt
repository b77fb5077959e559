//! Where rules are broken.

ghost use Rattle.std.specs.Prelude.{◌≡◌, false, Some, None, IsTrue, option_map};
ghost use Rattle.b3_validate.specs.Spots.{IsBeforeSpot, IsNoLaterSpot, IsSooner};

use b3_rules::Rule;

/// A rule that is broken on a line, which is counted from 1.
#[derive(Clone, Copy)]
pub(crate) struct Spot {
    pub(crate) line: u32,
    pub(crate) rule: Rule,
}

impl Spot {
    /// Whether it comes no later than another: by line, and on one line by the number of the rule.
    pub(crate) fn is_no_later(self, other: Spot) -> bool
        ensures yes { IsTrue result → IsNoLaterSpot self other }
        ensures no { result ≡ false → IsBeforeSpot other self }
    {
        self.line < other.line
            || self.line == other.line && self.rule.number() <= other.rule.number()
    }
}

/// The spot of a rule that is broken on a line.
pub(crate) fn spot_on(line: u32, broken: Option<Rule>) -> Option<Spot>
    ensures { result ≡ option_map (λ rule. record { line = line; rule = rule }) broken }
{
    match broken {
        Some(rule) => Some(Spot { line, rule }),
        None => None,
    }
}

/// Of two spots the one that comes no later, or the first where they are on one line and of one rule.
pub(crate) fn sooner(a: Option<Spot>, b: Option<Spot>) -> Option<Spot>
    ensures { IsSooner a b result }
{
    match (a, b) {
        (Some(first), Some(second)) => {
            if first.is_no_later(second) {
                Some(first)
            } else {
                Some(second)
            }
        }
        (Some(first), None) => Some(first),
        (None, other) => other,
    }
}
