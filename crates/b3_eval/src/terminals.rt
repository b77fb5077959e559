//! Terminals.

ghost use Rattle.std.specs.Prelude.{◌≡◌};
ghost use Rattle.b3_eval.specs.Stands.{Shows};
ghost use Rattle.b3_meaning.specs.Run as run;

use crate::children::width_of;
use crate::state::Flow;
use b3_base::{Status, Width, low};
use b3_ir::{Body, Ty};

/// A jump to its successor.
pub(crate) fn jump(body: &Body) -> Flow
    ensures { (st : run.State) → Shows result st (run.jumps st body.now) }
{
    match body {
        Body::Targets(targets) => match targets.as_slice() {
            [block] => Flow::To(*block),
            _ => Flow::Lost,
        },
        _ => Flow::Lost,
    }
}

/// A branch to its first successor where its child isn't 0, else to its second.
pub(crate) fn branch(body: &Body, words: &[u64]) -> Flow
    ensures { (st : run.State) → Shows result st (run.branches st body.now words.now) }
{
    match (body, words) {
        (Body::Targets(targets), [word]) => match targets.as_slice() {
            [then_block, else_block] => Flow::To(if *word == 0 {
                *else_block
            } else {
                *then_block
            }),
            _ => Flow::Lost,
        },
        _ => Flow::Lost,
    }
}

/// A switch to the successor of the case that is equal to its child, else to the last one.
pub(crate) fn switch(body: &Body, types: &[Ty], words: &[u64]) -> Flow
    ensures { (st : run.State) → Shows result st (run.switches st body.now types.now words.now) }
{
    match (body, types, words) {
        (Body::Cases { cases, targets }, [ty], [word]) => {
            match chosen(width_of(*ty), *word, cases.as_slice(), targets.as_slice()) {
                Some(block) => Flow::To(block),
                None => Flow::Lost,
            }
        }
        _ => Flow::Lost,
    }
}

/// The successor of the first case that is equal to a word in its width, else the one past the cases.
fn chosen(width: Width, word: u64, cases: &[u64], targets: &[u32]) -> Option<u32>
    ensures { result ≡ run.chosen width word cases.now targets.now }
{
    for at in 0..targets.len() {
        if at >= cases.len() {
            return Some(targets[at]);
        }
        if low(width, cases[at]) == word {
            return Some(targets[at]);
        }
    }
    None
}

/// A return, with the word of its child where it has one.
pub(crate) fn return_(words: &[u64]) -> Flow
    ensures { (st : run.State) → Shows result st (run.returns st words.now) }
{
    match words {
        [] => Flow::Over(Status::Returned(None)),
        [word] => Flow::Over(Status::Returned(Some(*word))),
        _ => Flow::Lost,
    }
}
