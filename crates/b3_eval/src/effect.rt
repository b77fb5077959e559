//! The step of a value.

ghost use Rattle.std.specs.Prelude.{◌≡◌, true, IfOk};
ghost use Rattle.b3_base.specs.Observed.{start_of};
ghost use Rattle.b3_eval.specs.Lookup.{type_in};
ghost use Rattle.b3_eval.specs.Stands.{answers_from, state_of, Shows};
ghost use Rattle.b3_ir.specs.Types as types_of;
ghost use Rattle.b3_meaning.specs.Opcodes.{AreWordsOf};
ghost use Rattle.b3_meaning.specs.Roles as roles;
ghost use Rattle.b3_meaning.specs.Run as run;

use crate::access::{load, store};
use crate::calls::{call, patch};
use crate::checks::{check, checked_result};
use crate::children::{child_types, child_words};
use crate::state::{Flow, State, word_at};
use crate::terminals::{branch, jump, return_, switch};
use crate::words::{argument_of, constant_of, slot_of};
use b3_base::{Answer, NoMemory, Start};
use b3_ir::{Ty, Value, allows_types};
use b3_meaning::{Role, fold, role_of};
use std::alloc::Global;
use std::collections::BTreeMap;

/// What a value leads to: it runs where its row allows its type and those of its children, and each
/// child has a word of its type.
pub(crate) fn effect(
    alloc: Global,
    types: &BTreeMap<u32, Ty>,
    start: &Start,
    answers: &[Answer],
    taken: &mut usize,
    st: &mut State,
    v: &Value,
) -> Result<Flow, NoMemory>
    ensures { IfOk result (λ flow. Shows flow (state_of (answers_from answers.now taken.new) st.new)
        (run.effect (type_in types.now) (start_of start.now)
        (state_of (answers_from answers.now taken.old) st.old) v.now)) }
{
    let found = child_types(alloc, types, v.children.as_slice())?;
    if !allows_types(v.kind.opcode, v.ty, found.as_slice()) {
        return Ok(Flow::Lost);
    }
    match child_words(alloc, types, &st.words, v.children.as_slice())? {
        Some(words) => by_role(
            alloc,
            start,
            answers,
            taken,
            st,
            v,
            role_of(v.kind.opcode),
            found.as_slice(),
            words.as_slice(),
        ),
        None => Ok(Flow::Lost),
    }
}

/// What a value leads to by its role, and its children's types and words.
fn by_role(
    alloc: Global,
    start: &Start,
    answers: &[Answer],
    taken: &mut usize,
    st: &mut State,
    v: &Value,
    role: Role,
    types: &[Ty],
    words: &[u64],
) -> Result<Flow, NoMemory>
    requires role { role ≡ roles.role_of v.now.kind.opcode }
    requires types { types_of.allows_types v.now.kind.opcode v.now.ty types.now ≡ true }
    requires words { AreWordsOf types.now words.now }
    ensures { IfOk result (λ flow. Shows flow (state_of (answers_from answers.now taken.new) st.new)
        (run.effect_by role (start_of start.now)
        (state_of (answers_from answers.now taken.old) st.old) v.now types.now words.now)) }
{
    match role {
        Role::Skip => Ok(Flow::Next),
        Role::Constant => st.give(v.id, constant_of(&v.body)),
        Role::Argument => st.give(v.id, argument_of(start, &v.body)),
        Role::Frame => st.give(v.id, Some(start.frame_pointer)),
        Role::SlotAddress => st.give(v.id, slot_of(start, &v.body)),
        Role::Pure => st.give(v.id, fold(v.kind.opcode, v.kind.chill, v.ty, words, types)),
        Role::SetPhi => st.set_phi(&v.body, words),
        Role::GetPhi => {
            let word = word_at(&st.locations, v.id);
            st.give(v.id, word)
        }
        Role::Load { extent, extends } => load(start, st, v, extent, extends, words),
        Role::Store { extent } => Ok(store(start, st, v, extent, types, words)),
        Role::Call => call(alloc, start, answers, taken, st, v, types, words),
        Role::Patch => patch(alloc, answers, taken, st, v, types, words),
        Role::Check => check(alloc, v, words),
        Role::CheckedResult(kind) => checked_result(alloc, st, v, kind, words),
        Role::Jump => Ok(jump(&v.body)),
        Role::Branch => Ok(branch(&v.body, words)),
        Role::Switch => Ok(switch(&v.body, types, words)),
        Role::Return => Ok(return_(words)),
        Role::Fail => Ok(Flow::Lost),
    }
}
