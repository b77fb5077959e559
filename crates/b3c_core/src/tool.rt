//! The tool: one call takes the words of the command line, the input and the streams, and ends
//! with an exit status.

ghost use Rattle.std.specs.Prelude.{◌≡◌, ◌≢◌, ℕ, ◌-◌, ◌^◌, ◌<◌, ◌≤◌, ◌⊎◌, true, false, List, [], length, Some, None, IfOk, IfErr};
ghost use Rattle.b3_io.specs.Faults.{Rose};
ghost use Rattle.b3_io.specs.Taken.{Takes};
ghost use Rattle.b3_rules.specs.Valid.{IsValid};
ghost use Rattle.b3_trial.specs.Trials.{Spells, Trial};
ghost use Rattle.b3_ir.specs.Procedure.{Procedure};
ghost use Rattle.elf_obj.specs.Read.{IsFileOf as IsObjectOf};
ghost use Rattle.elf_obj.specs.declared.object.Object.{Object};
ghost use Rattle.b3c_core.specs.Compiled.{IsCompiled, IsTextOf};
ghost use Rattle.b3c_core.specs.Tried.{Begins};
ghost use Rattle.b3c_core.specs.Tool as spec;
ghost use Rattle.b3c_core.specs.Tool.{Call, HasAnswered, HasEnded, IsAfterReading, IsRefusal, LeavesTrial, TakesLine, cause_of, line_of, output_of, reads_input, status_of, takes_trial};
ghost use Rattle.b3c_core.specs.declared.command.Command.{Command};
ghost use Rattle.b3c_core.specs.declared.ending.Ending.{Ending};

use crate::command::{Command, command_of};
use crate::compiler::{Fault, compile, print};
use crate::ending::Ending;
use crate::generating::generate_object;
use crate::trying::{EvalFault, RunFault, eval_text, run_file};
use b3_base::{Bytes, Name};
use b3_generated::generated_texts_are_good;
use b3_io::{ReadAll, Sink, Source, WriteFault, read_all, write_all};
use std::alloc::Global;

/// The most bytes that a text or a trial may have.
pub const TEXT_LIMIT: usize = 16_777_216;

/// The most bytes that an object may have.
pub const OBJECT_LIMIT: usize = 134_217_728;

/// Runs one command: `compile` reads a text from `input` and writes its object to `out`, and `print` writes its
/// canonical text; `eval` reads a text and a trial, and writes what is seen of the run of B3, and `run` reads an
/// object and a trial, and writes what is seen of the run of the machine; `gen` reads nothing, and writes the summary
/// of the text that is made from a number and of its object. The answer is the exit status: 0 done, 2 the words match
/// no command, 3 a read failed, 4 a write failed, 5 the input is no text, 6 the text breaks a rule, 7 an input has too
/// many bytes or the text passes another limit, 8 the input is no object, the trial is none or may not begin its
/// procedure, 9 want of memory. A status other than 0 puts one line on `err`; a
/// fault of `err` changes nothing else. `trial` is read by `eval` and `run` alone, once `input` was read to its end.
pub fn run_tool<S: Source, T: Source, K: Sink, E: Sink>(
    alloc: Global,
    words: &[Name],
    input: &mut S,
    trial: &mut T,
    out: &mut K,
    err: &mut E,
) -> u8
    // The words.
    ensures usage { spec.command_of words.now ≡ None → result ≡ 2 }
    ensures not_usage { (command : Command) → spec.command_of words.now ≡ Some command → result ≢ 2 }
    ensures nothing_read { result ≡ 2 → input.new ≡ input.old }
    ensures no_trial_read { result ≡ 2 → trial.new ≡ trial.old }
    ensures no_input { (command : Command) → spec.command_of words.now ≡ Some command → reads_input command ≡ false → input.new ≡ input.old }
    ensures no_trial { (command : Command) → spec.command_of words.now ≡ Some command → takes_trial command ≡ false → trial.new ≡ trial.old }

    // The causes.
    ensures read_fault { result ≡ 3 → Rose (S.faults input.old) (S.faults input.new) ⊎ Rose (T.faults trial.old) (T.faults trial.new) }
    ensures write_fault { result ≡ 4 → Rose (K.faults out.old) (K.faults out.new) }
    ensures within { (command : Command) → spec.command_of words.now ≡ Some command → result ≢ 7 → Takes (λ n. n ≤ spec.limit_of command) (S.left input.old) (S.left input.new) }
    ensures trial_within { result ≢ 7 → Takes (λ n. n ≤ TEXT_LIMIT) (T.left trial.old) (T.left trial.new) }

    // The output.
    ensures nothing_written { result ≢ 0 → result ≢ 4 → out.new ≡ out.old }

    // A text within the limits is printed; it is compiled where it is valid, and evaluated where, besides, the trial
    // may begin in each of its objects; a good object is run where the trial may begin in it; and the text that is made
    // from a number is compiled: unless memory is wanted, where nothing failed.
    ensures compiles { spec.command_of words.now ≡ Some Command.Compile
        → (Rose (S.faults input.old) (S.faults input.new) → ⊥) → (Rose (K.faults out.old) (K.faults out.new) → ⊥)
        → (procedures : List Procedure) (text : List ℕ) → S.left input.old ≡ Some text → IsTextOf text procedures → IsValid procedures
        → length text ≤ TEXT_LIMIT → (result ≡ 0) ⊎ (result ≡ 9) }
    ensures prints { spec.command_of words.now ≡ Some Command.Print
        → (Rose (S.faults input.old) (S.faults input.new) → ⊥) → (Rose (K.faults out.old) (K.faults out.new) → ⊥)
        → (procedures : List Procedure) (text : List ℕ) → S.left input.old ≡ Some text → IsTextOf text procedures
        → length text ≤ TEXT_LIMIT → (result ≡ 0) ⊎ (result ≡ 9) }
    ensures evaluates { spec.command_of words.now ≡ Some Command.Eval
        → (Rose (S.faults input.old) (S.faults input.new) → ⊥) → (Rose (T.faults trial.old) (T.faults trial.new) → ⊥)
        → (Rose (K.faults out.old) (K.faults out.new) → ⊥)
        → (procedures : List Procedure) (text : List ℕ) → S.left input.old ≡ Some text → IsTextOf text procedures → IsValid procedures
        → length text ≤ TEXT_LIMIT
        → (t : Trial) (bytes : List ℕ) → T.left trial.old ≡ Some bytes → Spells bytes t → length bytes ≤ TEXT_LIMIT
        → ((file : List ℕ) (made : IsCompiled text file) → Begins made.file_of.object t) → (result ≡ 0) ⊎ (result ≡ 9) }
    ensures runs { spec.command_of words.now ≡ Some Command.Run
        → (Rose (S.faults input.old) (S.faults input.new) → ⊥) → (Rose (T.faults trial.old) (T.faults trial.new) → ⊥)
        → (Rose (K.faults out.old) (K.faults out.new) → ⊥)
        → (o : Object) (file : List ℕ) → S.left input.old ≡ Some file → IsObjectOf file o → length file ≤ OBJECT_LIMIT
        → (t : Trial) (bytes : List ℕ) → T.left trial.old ≡ Some bytes → Spells bytes t → length bytes ≤ TEXT_LIMIT
        → Begins o t → (result ≡ 0) ⊎ (result ≡ 9) }
    ensures generates { (n : ℕ) → spec.command_of words.now ≡ Some (Command.Gen n)
        → (Rose (K.faults out.old) (K.faults out.new) → ⊥) → (result ≡ 0) ⊎ (result ≡ 9) }

    // What has come about, the line on the error stream, and the order of reading.
    ensures ended { let call : Call = record {
      words = words.now;
      left = S.left input.old;
      left' = S.left input.new;
      input_faults = S.faults input.old;
      input_faults' = S.faults input.new;
      trial_left = T.left trial.old;
      trial_left' = T.left trial.new;
      trial_faults = T.faults trial.old;
      trial_faults' = T.faults trial.new;
      held = K.held out.old;
      held' = K.held out.new;
      output_faults = K.faults out.old;
      output_faults' = K.faults out.new;
    } in
        (ending : Ending) × (result ≡ status_of ending) × HasEnded call ending
        × TakesLine (line_of ending) (E.held err.old) (E.held err.new) (E.faults err.old) (E.faults err.new)
        × LeavesTrial (trial.new ≡ trial.old) call ending }
{
    generated_texts_are_good();
    let ending = run_words(alloc, words, input, trial, out);
    ending.report(err);
    ending.status()
}

/// Runs the command that the words name.
fn run_words<S: Source, T: Source, K: Sink>(
    alloc: Global,
    words: &[Name],
    input: &mut S,
    trial: &mut T,
    out: &mut K,
) -> Ending
    ensures usage { spec.command_of words.now ≡ None → result ≡ Ending.Usage }
    ensures not_usage { (command : Command) → spec.command_of words.now ≡ Some command → result ≢ Ending.Usage }
    ensures nothing_read { result ≡ Ending.Usage → input.new ≡ input.old }
    ensures no_trial_read { result ≡ Ending.Usage → trial.new ≡ trial.old }
    ensures no_input { (command : Command) → spec.command_of words.now ≡ Some command → reads_input command ≡ false → input.new ≡ input.old }
    ensures no_trial { (command : Command) → spec.command_of words.now ≡ Some command → takes_trial command ≡ false → trial.new ≡ trial.old }
    ensures write_fault { result ≡ Ending.WriteFault → Rose (K.faults out.old) (K.faults out.new) }
    ensures within { (command : Command) → spec.command_of words.now ≡ Some command → result ≢ Ending.TooLong → Takes (λ n. n ≤ spec.limit_of command) (S.left input.old) (S.left input.new) }
    ensures trial_within { result ≢ Ending.TrialTooLong → Takes (λ n. n ≤ TEXT_LIMIT) (T.left trial.old) (T.left trial.new) }
    ensures nothing_written { result ≢ Ending.Written → result ≢ Ending.WriteFault → out.new ≡ out.old }
    ensures ended { let call : Call = record {
      words = words.now;
      left = S.left input.old;
      left' = S.left input.new;
      input_faults = S.faults input.old;
      input_faults' = S.faults input.new;
      trial_left = T.left trial.old;
      trial_left' = T.left trial.new;
      trial_faults = T.faults trial.old;
      trial_faults' = T.faults trial.new;
      held = K.held out.old;
      held' = K.held out.new;
      output_faults = K.faults out.old;
      output_faults' = K.faults out.new;
    } in
        HasEnded call result }
    ensures order { let call : Call = record {
      words = words.now;
      left = S.left input.old;
      left' = S.left input.new;
      input_faults = S.faults input.old;
      input_faults' = S.faults input.new;
      trial_left = T.left trial.old;
      trial_left' = T.left trial.new;
      trial_faults = T.faults trial.old;
      trial_faults' = T.faults trial.new;
      held = K.held out.old;
      held' = K.held out.new;
      output_faults = K.faults out.old;
      output_faults' = K.faults out.new;
    } in
        LeavesTrial (trial.new ≡ trial.old) call result }
{
    let command = match command_of(words) {
        Some(command) => command,
        None => return Ending::Usage,
    };
    if !command.reads_input() {
        return answer_to(alloc, command, &Bytes::new(alloc), &[], out);
    }
    let bytes = match read_all(alloc, input, command.limit()) {
        Ok(bytes) => bytes,
        Err(ReadAll::Fault) => return Ending::ReadFault,
        Err(ReadAll::TooLong) => return Ending::TooLong,
        Err(ReadAll::NoMemory) => return Ending::NoMemory,
    };
    if !command.takes_trial() {
        return answer_to(alloc, command, &bytes, &[], out);
    }
    match read_all(alloc, trial, TEXT_LIMIT) {
        Ok(tried) => answer_to(alloc, command, &bytes, tried.as_slice(), out),
        Err(ReadAll::Fault) => Ending::TrialReadFault,
        Err(ReadAll::TooLong) => Ending::TrialTooLong,
        Err(ReadAll::NoMemory) => Ending::NoMemory,
    }
}

/// Answers to an input and a trial and writes the answer.
fn answer_to<K: Sink>(
    alloc: Global,
    command: Command,
    bytes: &Bytes,
    trial: &[u8],
    out: &mut K,
) -> Ending
    requires input { length bytes.now < 2 ^ 32 - 1 }
    requires trial { length trial.now < 2 ^ 32 - 1 }
    ensures kinds { IsAfterReading result }
    ensures answered { (call : Call) → call.held ≡ K.held out.old → call.held' ≡ K.held out.new → call.output_faults ≡ K.faults out.old → call.output_faults' ≡ K.faults out.new → HasAnswered (output_of command bytes.now trial.now) (cause_of command bytes.now trial.now) call result }
    ensures write_fault { result ≡ Ending.WriteFault → Rose (K.faults out.old) (K.faults out.new) }
    ensures nothing_written { result ≢ Ending.Written → result ≢ Ending.WriteFault → out.new ≡ out.old }
{
    match answer(alloc, command, bytes.as_slice(), trial) {
        Ok(output) => match write_all(out, output.as_slice()) {
            Ok(()) => Ending::Written,
            Err(WriteFault) => Ending::WriteFault,
        },
        Err(ending) => ending,
    }
}

/// What a command writes for its input and its trial.
fn answer(alloc: Global, command: Command, bytes: &[u8], trial: &[u8]) -> Result<Bytes, Ending>
    requires input { length bytes.now < 2 ^ 32 - 1 }
    requires trial { length trial.now < 2 ^ 32 - 1 }
    ensures output { IfOk result (output_of command bytes.now trial.now) }
    ensures cause { IfErr result (λ ending. IsRefusal ending × cause_of command bytes.now trial.now ending) }
{
    match command {
        Command::Compile => match compile(alloc, bytes) {
            Ok(file) => Ok(file),
            Err(fault) => Err(ending_of(fault)),
        },
        Command::Print => match print(alloc, bytes) {
            Ok(text) => Ok(text),
            Err(fault) => Err(ending_of(fault)),
        },
        Command::Eval => match eval_text(alloc, bytes, trial) {
            Ok(evaluated) => Ok(evaluated.shown),
            Err(fault) => Err(ending_of_eval(fault)),
        },
        Command::Run => match run_file(alloc, bytes, trial) {
            Ok(shown) => Ok(shown),
            Err(fault) => Err(ending_of_run(fault)),
        },
        Command::Gen(n) => match generate_object(alloc, n) {
            Ok(summary) => Ok(summary),
            Err(fault) => Err(ending_of(fault)),
        },
    }
}

/// The ending of a fault of a text.
fn ending_of(fault: Fault) -> Ending
    ensures ending { result ≡ spec.ending_of fault }
    ensures refusal { IsRefusal result }
{
    match fault {
        Fault::Syntax { line } => Ending::Syntax { line },
        Fault::Limit { which, line } => Ending::Limit { which, line },
        Fault::Invalid { rule, line } => Ending::Invalid { rule, line },
        Fault::NoMemory => Ending::NoMemory,
    }
}

/// The ending of a fault of a text and a trial.
fn ending_of_eval(fault: EvalFault) -> Ending
    ensures ending { result ≡ spec.ending_of_eval fault }
    ensures refusal { IsRefusal result }
{
    match fault {
        EvalFault::Text(fault) => ending_of(fault),
        EvalFault::Trial { line } => Ending::BadTrial { line },
        EvalFault::Placement { .. } => Ending::Misplaced,
    }
}

/// The ending of a fault of an object and a trial.
fn ending_of_run(fault: RunFault) -> Ending
    ensures ending { result ≡ spec.ending_of_run fault }
    ensures refusal { IsRefusal result }
{
    match fault {
        RunFault::Object { code, byte } => Ending::BadObject { code, byte },
        RunFault::Trial { line } => Ending::BadTrial { line },
        RunFault::Placement => Ending::Misplaced,
        RunFault::NoMemory => Ending::NoMemory,
    }
}
