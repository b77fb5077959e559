//! Trials: the run of B3 of a text, and the run of the machine of an object.

ghost use Rattle.std.specs.Prelude.{◌≡◌, ◌≢◌, ℕ, ◌-◌, ◌<◌, ◌^◌, length, map, All, IfOk, IfErr, IfSome, IfNone, Some, slice_get};
ghost use Rattle.b3_base.specs.Observed.{answer_of};
ghost use Rattle.b3_base.specs.Ranged.{IsRangedAnswer};
ghost use Rattle.b3_ir.specs.Procedure.{procedures, Procedure};
ghost use Rattle.b3c_core.specs.Compiled.{IsFileOf};
ghost use Rattle.b3_trial.specs.Trials.{trial_of};
ghost use Rattle.elf_obj.specs.Good.{IsGood};
ghost use Rattle.b3c_core.specs.Tried.{IsEvalCause, IsEvaluatedOver, IsRun, IsRunCause, IsRunFaultOf, IsRunOf};

use crate::compiler::{Fault, module_file, valid_module};
use a64_run::{PlaceFault, place, run};
use b3_base::{Answer, Bytes, NoMemory};
use b3_eval::eval;
use b3_ir::Module;
use b3_trial::{Trial, TrialFault, read_trial, show};
use elf_obj::{Object, ObjectFault};
use std::alloc::Global;

/// What the evaluation of a text gives.
#[derive(Drop)]
pub struct Evaluated {
    /// The file of the text's object, as `compile` gives it.
    pub object: Bytes,
    /// What is printed of the run of B3.
    pub shown: Bytes,
}

/// Why a text was not evaluated with a trial. Lines are counted from 1.
#[derive(Drop)]
pub enum EvalFault {
    /// The text has no object, from this cause.
    Text(Fault),
    /// The bytes are no trial; `line` is their bad line.
    Trial { line: u32 },
    /// The trial may not begin the procedure that it names in this object of the text, or names none.
    Placement { object: Bytes },
}

/// Why an object was not run with a trial.
#[derive(Clone, Copy, Debug, PartialEq, Eq)]
pub enum RunFault {
    /// The bytes are no file of a good object; their first fault has this number and stands at this byte.
    Object { code: u8, byte: u64 },
    /// The bytes are no trial; `line` is their bad line.
    Trial { line: u32 },
    /// The trial may not begin the procedure that it names, or names none.
    Placement,
    /// Want of memory.
    NoMemory,
}

impl From<Fault> for EvalFault {
    ghost use Rattle.std.specs.Prelude.{◌≡◌};
    ghost use Rattle.b3c_core.specs.declared.trying.EvalFault.TheVariants.{Text};

    ghost from_gives = { λ fault made. made ≡ Text fault };

    fn from(fault: Fault) -> EvalFault {
        EvalFault::Text(fault)
    }
}

impl From<NoMemory> for EvalFault {
    ghost use Rattle.std.specs.Prelude.{◌≡◌};
    ghost use Rattle.b3c_core.specs.declared.compiler.Fault.TheVariants.{NoMemory as no_memory};
    ghost use Rattle.b3c_core.specs.declared.trying.EvalFault.TheVariants.{Text};

    ghost from_gives = { λ _ made. made ≡ Text no_memory };

    fn from(_refusal: NoMemory) -> EvalFault {
        EvalFault::Text(Fault::NoMemory)
    }
}

/// What is seen of the run of B3 of the procedure that the trial names, from the start that agrees with the trial's
/// in the text's object, after the trial's number of block steps. It is refused where the text has no object, where
/// the bytes are no trial, where the trial may not begin the procedure, in this order, and for want of memory.
pub fn eval_text(alloc: Global, bytes: &[u8], trial: &[u8]) -> Result<Evaluated, EvalFault>
    requires text { length bytes.now < 2 ^ 32 - 1 }
    requires trial { length trial.now < 2 ^ 32 - 1 }
    ensures evaluated { IfOk result (λ made. IsEvaluatedOver bytes.now trial.now made.object made.shown) }
    ensures cause { IfErr result (IsEvalCause bytes.now trial.now) }
{
    let valid = valid_module(alloc, bytes)?;
    let made = module_file(alloc, &valid)?;
    let module = valid.into_module();
    let trial = match read_trial(alloc, trial) {
        Ok(trial) => trial,
        Err(TrialFault::Bad { line }) => return Err(EvalFault::Trial { line }),
        Err(TrialFault::NoMemory) => return Err(EvalFault::Text(Fault::NoMemory)),
    };
    let Some(at) = procedure_named(&module, trial.name.as_slice()) else {
        return Err(EvalFault::Placement { object: made.file });
    };
    let p = module.proc(at);
    let start = match place(alloc, &made.object, p.name(), &trial.start) {
        Ok(start) => start,
        Err(PlaceFault::NoMemory) => return Err(EvalFault::Text(Fault::NoMemory)),
        Err(PlaceFault::NoProcedure) => return Err(EvalFault::Placement { object: made.file }),
        Err(PlaceFault::Placement) => return Err(EvalFault::Placement { object: made.file }),
    };
    let answers = trial.answers.as_slice();
    ranged_answers(answers);
    let seen = eval(alloc, p, &start, answers, trial.blocks)?;
    let shown = show(alloc, &seen)?;
    Ok(Evaluated {
        object: made.file,
        shown,
    })
}

/// Tells that the numbers of answers lie in the ranges of their fields. It takes no memory.
fn ranged_answers(answers: &[Answer])
    ensures { All IsRangedAnswer (map answer_of answers.now) }
{
    for answer in answers {
        answer.ranged();
    }
}

/// The place of the first procedure of a name.
fn procedure_named(module_: &Module, name: &[u8]) -> Option<usize>
    ensures found { IfSome result (λ at. (p : Procedure) × (slice_get (procedures module_.now) at ≡ Some p) × (p.name ≡ name.now)) }
    ensures none { IfNone result ((k : ℕ) (p : Procedure) → slice_get (procedures module_.now) k ≡ Some p → p.name ≢ name.now) }
{
    for at in 0..module_.procs() {
        if module_.proc(at).name().as_bytes() == name {
            return Some(at);
        }
    }
    None
}

/// What is printed of the run of the machine of an object's file from the start of a trial, after the trial's number
/// of steps. It is refused where the bytes are no good object, where the others are no trial, where the trial may not
/// begin the procedure that it names, in this order, and for want of memory.
pub fn run_file(alloc: Global, bytes: &[u8], trial: &[u8]) -> Result<Bytes, RunFault>
    requires trial { length trial.now < 2 ^ 32 - 1 }
    ensures run { IfOk result (IsRun bytes.now trial.now) }
    ensures cause { IfErr result (IsRunCause bytes.now trial.now) }
{
    let object = match elf_obj::read(alloc, bytes) {
        Ok(object) => object,
        Err(ObjectFault::Bad { code, byte }) => return Err(RunFault::Object { code, byte }),
        Err(ObjectFault::NoMemory) => return Err(RunFault::NoMemory),
    };
    let trial = match read_trial(alloc, trial) {
        Ok(trial) => trial,
        Err(TrialFault::Bad { line }) => return Err(RunFault::Trial { line }),
        Err(TrialFault::NoMemory) => return Err(RunFault::NoMemory),
    };
    run_trial(alloc, &object, &trial)
}

/// What is printed of the run of a good object from the start of a trial.
fn run_trial(alloc: Global, object: &Object, trial: &Trial) -> Result<Bytes, RunFault>
    requires { IsGood object.now }
    ensures run { IfOk result (λ output. IsRunOf object.now (trial_of trial.now) output) }
    ensures cause { IfErr result (λ fault. IsRunFaultOf object.now (trial_of trial.now) fault) }
{
    // A name of a trial is ASCII, so its bytes are a text.
    let Ok(name) = std::str::from_utf8(trial.name.as_slice()) else {
        return Err(RunFault::NoMemory);
    };
    let answers = trial.answers.as_slice();
    let seen = match run(alloc, object, name, &trial.start, answers, trial.steps) {
        Ok(seen) => seen,
        Err(PlaceFault::NoMemory) => return Err(RunFault::NoMemory),
        Err(PlaceFault::NoProcedure) => return Err(RunFault::Placement),
        Err(PlaceFault::Placement) => return Err(RunFault::Placement),
    };
    match show(alloc, &seen) {
        Ok(output) => Ok(output),
        Err(NoMemory) => Err(RunFault::NoMemory),
    }
}
