//! What a case asks of the tool.

use crate::called::Called;
use crate::content::{bytes_of, number_of};
use crate::damage::{append, cut, put, shorten};
use crate::fault::Fault;
use crate::named::Named;
use crate::script::Script;
use b3_base::{Bytes, Name, Seq};
use b3_io::{AbsentSource, ScriptSink, ScriptSource, SliceSource, Source};
use b3c_core::run_tool;
use std::alloc::Global;

/// The most bytes that an output may have where a case says nothing of it.
const ROOM: usize = 1 << 20;

/// A call of the tool: its words and its streams.
#[derive(Drop)]
pub struct Case {
    words: Seq<Name>,
    /// Whether the text is evaluated and its object run.
    is_both: bool,
    input: Option<Bytes>,
    input_script: Script,
    trial: Option<Bytes>,
    trial_script: Script,
    output_script: Script,
    room: usize,
    complaint_script: Script,
}

impl Case {
    /// The call that the lines of a case ask for.
    pub fn read(alloc: Global, lines: &str, named: &Named) -> Result<Case, Fault> {
        let mut case = Case::new(alloc);
        let trial = bytes_of(alloc, lines, named)?;
        if !trial.is_empty() {
            case.trial = Some(trial);
        }
        for line in lines.lines() {
            case.take_line(alloc, line, named)?;
        }
        Ok(case)
    }

    /// A call with no words and no input, and with no trial.
    fn new(alloc: Global) -> Case {
        Case {
            words: Seq::new(alloc),
            is_both: false,
            input: None,
            input_script: Script::new(),
            trial: None,
            trial_script: Script::new(),
            output_script: Script::new(),
            room: ROOM,
            complaint_script: Script::new(),
        }
    }

    /// Takes in one line.
    fn take_line(&mut self, alloc: Global, line: &str, named: &Named) -> Result<(), Fault> {
        let (verb, rest) = line.split_once(' ').unwrap_or((line, ""));
        match verb {
            "compile" | "print" | "eval" | "run" | "both" => {
                self.set_command(alloc, verb)?;
                self.input = Some(copy_of(alloc, named.get(rest)?)?);
            }
            "gen" => self.set_words(alloc, line)?,
            "words" => self.set_words(alloc, rest)?,
            "input" => {
                if !self.input_script.take(rest)? {
                    self.input = Some(copy_of(alloc, named.get(rest)?)?);
                }
            }
            "trial" => {
                if !self.trial_script.take(rest)? {
                    self.trial = Some(copy_of(alloc, named.get(rest)?)?);
                }
            }
            "output" => self.set_output(rest)?,
            "complaint" => {
                if !self.complaint_script.take(rest)? {
                    return Err(Fault::NotUnderstood);
                }
            }
            "cut" | "shorten" | "append" | "put" => self.damage_input(alloc, verb, rest)?,
            "case" | "for" | "keep" | "show" | "|" | ">" | "hex" | "of" | "each" | "#" => {}
            _ => return Err(Fault::NotUnderstood),
        }
        Ok(())
    }

    /// Makes the words those of a command over an input.
    fn set_command(&mut self, alloc: Global, verb: &str) -> Result<(), Fault> {
        match verb {
            "eval" => self.set_words(alloc, "eval trial"),
            "run" => self.set_words(alloc, "run trial"),
            "both" => {
                self.is_both = true;
                Ok(())
            }
            _ => self.set_words(alloc, verb),
        }
    }

    /// Makes the words those of a line.
    fn set_words(&mut self, alloc: Global, line: &str) -> Result<(), Fault> {
        let mut words = Seq::new(alloc);
        for word in line.split_whitespace() {
            words.push(Name::from_text(alloc, word)?)?;
        }
        self.words = words;
        Ok(())
    }

    /// Takes in what is said of the output.
    fn set_output(&mut self, what: &str) -> Result<(), Fault> {
        if let Some(bytes) = what.strip_prefix("room ") {
            self.room = usize::try_from(number_of(bytes)?).map_err(|_| Fault::NotUnderstood)?;
        } else if !self.output_script.take(what)? {
            return Err(Fault::NotUnderstood);
        }
        Ok(())
    }

    /// Damages the input.
    fn damage_input(&mut self, alloc: Global, verb: &str, what: &str) -> Result<(), Fault> {
        let damaged = match &self.input {
            None => return Err(Fault::NotUnderstood),
            Some(bytes) => match verb {
                "cut" => cut(alloc, bytes.as_slice(), what)?,
                "shorten" => shorten(alloc, bytes.as_slice(), what)?,
                "append" => append(alloc, bytes.as_slice(), what)?,
                _ => put(alloc, bytes.as_slice(), what)?,
            },
        };
        self.input = Some(damaged);
        Ok(())
    }

    /// Whether the text is evaluated and its object run.
    pub fn is_both(&self) -> bool {
        self.is_both
    }

    /// Makes this the evaluation of its text.
    pub fn evaluate(&mut self, alloc: Global) -> Result<(), Fault> {
        self.set_words(alloc, "eval trial")
    }

    /// Compiles the input, and makes this the run of its object: the call of `compile` where that is refused.
    pub fn run(&mut self, alloc: Global) -> Result<Option<Called>, Fault> {
        self.set_words(alloc, "compile")?;
        let called = self.call(alloc)?;
        if called.status != 0 {
            return Ok(Some(called));
        }
        self.input = Some(called.output);
        self.set_words(alloc, "run trial")?;
        Ok(None)
    }

    /// Calls the tool.
    pub fn call(&self, alloc: Global) -> Result<Called, Fault> {
        match &self.input {
            None => self.call_on(alloc, &mut AbsentSource::new()),
            Some(bytes) if self.input_script.is_plain() => {
                self.call_on(alloc, &mut SliceSource::new(bytes.as_slice()))
            }
            Some(bytes) => { self.call_on(alloc, &mut scripted(alloc, bytes, &self.input_script)?) }
        }
    }

    /// Calls the tool on an input.
    fn call_on<S: Source>(&self, alloc: Global, input: &mut S) -> Result<Called, Fault> {
        match &self.trial {
            None => self.call_with(alloc, input, &mut AbsentSource::new()),
            Some(bytes) if self.trial_script.is_plain() => {
                self.call_with(alloc, input, &mut SliceSource::new(bytes.as_slice()))
            }
            Some(bytes) => {
                self.call_with(
                    alloc,
                    input,
                    &mut scripted(alloc, bytes, &self.trial_script)?,
                )
            }
        }
    }

    /// Calls the tool on an input and a trial.
    fn call_with<S: Source, T: Source>(
        &self,
        alloc: Global,
        input: &mut S,
        trial: &mut T,
    ) -> Result<Called, Fault> {
        let script = &self.output_script;
        let mut out = ScriptSink::new(alloc, &[script.fails_at()], script.most(), self.room)?;
        let script = &self.complaint_script;
        let mut err = ScriptSink::new(alloc, &[script.fails_at()], script.most(), 200)?;
        let status = run_tool(
            alloc,
            self.words.as_slice(),
            input,
            trial,
            &mut out,
            &mut err,
        );
        Ok(Called {
            status,
            output: copy_of(alloc, out.bytes())?,
            complaint: copy_of(alloc, err.bytes())?,
        })
    }
}

/// A source that gives these bytes as a script says.
fn scripted(alloc: Global, bytes: &Bytes, script: &Script) -> Result<ScriptSource, Fault> {
    Ok(ScriptSource::new(alloc, bytes.as_slice(), &[script.fails_at()], script.most())?)
}

/// Bytes of their own.
fn copy_of(alloc: Global, bytes: &[u8]) -> Result<Bytes, Fault> {
    let mut copy = Bytes::new(alloc);
    copy.extend(bytes)?;
    Ok(copy)
}
