//! Checks: exits where a child isn't 0, or where a signed result doesn't fit.

ghost use Rattle.std.specs.Prelude.{◌≡◌, ◌∷◌, ◌<◌, ◌^◌, List, IfOk};
ghost use Rattle.b3_base.specs.Observed.{Answer as LeftAnswer};
ghost use Rattle.b3_base.specs.Signed.{signed};
ghost use Rattle.b3_base.specs.Word.{bits};
ghost use Rattle.b3_eval.specs.Signs.{word_where_signed, AreSmall};
ghost use Rattle.b3_eval.specs.Stands.{state_of, Shows};
ghost use Rattle.b3_ir.specs.Types as types;
ghost use Rattle.b3_meaning.specs.Run as run;

use crate::children::width_of;
use crate::state::{Flow, State};
use b3_base::{NoMemory, Seq, Status, Width, Words};
use b3_ir::Value;
use b3_meaning::Checked;
use std::alloc::Global;

/// A Check, which exits where its first child isn't 0 and reports the others.
pub(crate) fn check(alloc: Global, v: &Value, words: &[u64]) -> Result<Flow, NoMemory>
    ensures { (st : run.State) → IfOk result (λ flow. Shows flow st (run.checks st v.now words.now)) }
{
    match words {
        [] => Ok(Flow::Lost),
        [test, reported @ ..] => {
            if *test == 0 {
                Ok(Flow::Next)
            } else {
                exit(alloc, v.id, reported)
            }
        }
    }
}

/// The run exits at a value with these words.
fn exit(alloc: Global, value: u32, reported: &[u64]) -> Result<Flow, NoMemory>
    ensures { (st : run.State) → IfOk result (λ flow. Shows flow st (run.ends st (Status.Exited value reported.now))) }
{
    let mut words: Words = Seq::new(alloc);
    words.extend(reported)?;
    Ok(Flow::Over(Status::Exited {
        value,
        reported: words,
    }))
}

/// Checked arithmetic on its first two children, which exits where the signed result doesn't fit and
/// reports the others.
pub(crate) fn checked_result(
    alloc: Global,
    st: &mut State,
    v: &Value,
    kind: Checked,
    words: &[u64],
) -> Result<Flow, NoMemory>
    requires { AreSmall (types.width_of v.now.ty) words.now }
    ensures { (rest : List LeftAnswer)
        → IfOk result (λ flow. Shows flow (state_of rest st.new)
        (run.checks_result (state_of rest st.old) v.now kind words.now)) }
{
    match words {
        [x, y, reported @ ..] => checked_on(alloc, st, v, kind, *x, *y, reported),
        _ => Ok(Flow::Lost),
    }
}

/// Checked arithmetic on two words, which may report others.
fn checked_on(
    alloc: Global,
    st: &mut State,
    v: &Value,
    kind: Checked,
    x: u64,
    y: u64,
    reported: &[u64],
) -> Result<Flow, NoMemory>
    requires first { x < 2 ^ bits (types.width_of v.now.ty) }
    requires second { y < 2 ^ bits (types.width_of v.now.ty) }
    ensures { (rest : List LeftAnswer)
        → IfOk result (λ flow. Shows flow (state_of rest st.new)
        (run.checks_result (state_of rest st.old) v.now kind (x ∷ y ∷ reported.now))) }
{
    match checked(width_of(v.ty), kind, x, y) {
        Some(word) => st.give(v.id, Some(word)),
        None => exit(alloc, v.id, reported),
    }
}

/// The word of a signed result where it fits in the width.
fn checked(width: Width, kind: Checked, x: u64, y: u64) -> Option<u64>
    requires first { x < 2 ^ bits width }
    requires second { y < 2 ^ bits width }
    ensures { result ≡ word_where_signed width (run.checked_result kind (signed width x) (signed width y)) }
{
    match width {
        Width::W32 => narrow(kind, (x as u32).cast_signed(), (y as u32).cast_signed()),
        Width::W64 => wide(kind, x.cast_signed(), y.cast_signed()),
    }
}

fn narrow(kind: Checked, x: i32, y: i32) -> Option<u64>
    ensures { result ≡ word_where_signed Width.W32 (run.checked_result kind x y) }
{
    let whole = match kind {
        Checked::Sum => x.checked_add(y),
        Checked::Difference => x.checked_sub(y),
        Checked::Product => x.checked_mul(y),
    };
    match whole {
        Some(number) => Some(u64::from(number.cast_unsigned())),
        None => None,
    }
}

fn wide(kind: Checked, x: i64, y: i64) -> Option<u64>
    ensures { result ≡ word_where_signed Width.W64 (run.checked_result kind x y) }
{
    let whole = match kind {
        Checked::Sum => x.checked_add(y),
        Checked::Difference => x.checked_sub(y),
        Checked::Product => x.checked_mul(y),
    };
    match whole {
        Some(number) => Some(number.cast_unsigned()),
        None => None,
    }
}
