//! The script of a recorded run.
ghost use Rattle.std.specs.Prelude.{◌≡◌, ◌<◌, ◌+◌, ◌-◌, ◌^◌, IfOk, IfErr, OnOk};
ghost use Rattle.blob_script.specs.Readers.{lines_read};
ghost use Rattle.blob_script.specs.Scripts.{no_script};
ghost use Rattle.blob_states.specs.ScriptTexts.{AddsLine, IsRead, IsRefused, IsScriptOf, RefusesLine, script_so_far, status_of};

use crate::recorded::Recorded;
use blob_lab::first_line;
use blob_script::Call;
use blob_script::script::{Reader, RefusedLine};
use std::alloc::{AllocError, Global};
use std::fmt;

/// Why a script has no states.
#[derive(Clone, Copy, Debug, PartialEq, Eq)]
pub enum RefusedScript {
    /// This line, counted from 1, isn't one of a script.
    BadCall(u64),
    /// It has only this number of calls.
    FewCalls(u64),
    NoMemory,
}

impl RefusedScript {
    /// Returns the exit status of the program, as that of a script's run: 3 if memory ran out, otherwise 2.
    pub fn status(self) -> u8
        ensures { result ≡ status_of self }
    {
        match self {
            RefusedScript::BadCall(_) | RefusedScript::FewCalls(_) => 2,
            RefusedScript::NoMemory => 3,
        }
    }
}

impl From<AllocError> for RefusedScript {
    ghost use Rattle.blob_states.specs.declared.script.RefusedScript.TheVariants.{NoMemory};

    ghost from_gives = { λ _ e. e ≡ NoMemory };

    fn from(_e: AllocError) -> RefusedScript {
        RefusedScript::NoMemory
    }
}

impl fmt::Display for RefusedScript {
    fn fmt<W: fmt::Write>(&self, f: &mut fmt::Formatter<W>) -> fmt::Result {
        match self {
            RefusedScript::BadCall(line) => write!(f, "line {line}: bad call"),
            RefusedScript::FewCalls(calls) => write!(f, "the script has {calls} calls"),
            RefusedScript::NoMemory => f.write_str("no memory"),
        }
    }
}

/// Reads a script. The refusal is that of the first line that can't follow those before it.
pub fn read_script(alloc: Global, text: &[u8]) -> Result<Recorded, RefusedScript>
    ensures script { IfOk result (IsScriptOf text.now) }
    ensures refused { IfErr result (IsRefused text.now) }
{
    let mut reading = Reading::new(alloc);
    let mut rest = text;
    'lines: while let Some((line, others)) = first_line(rest) {
        reading.add(line)?;
        rest = others;
    }
    let Reading { mut reader, calls } = reading;
    Ok(Recorded {
        preamble: reader.begin(),
        calls,
    })
}

/// What the lines so far say.
#[derive(Drop)]
struct Reading {
    reader: Reader,
    calls: Vec<Call>,
}

impl Reading {
    fn new(alloc: Global) -> Reading
        ensures read { IsRead result }
        ensures none { script_so_far result ≡ no_script }
        ensures number { lines_read result.reader ≡ 0 }
    {
        Reading {
            reader: Reader::new(alloc),
            calls: Vec::new(alloc),
        }
    }

    /// Adds the next line.
    fn add(&mut self, line: &[u8]) -> Result<(), RefusedScript>
        requires few { lines_read self.old.reader < 2 ^ 64 - 1 }
        requires read { IsRead self.old }
        ensures read { OnOk result (IsRead self.new) }
        ensures line { OnOk result (AddsLine self.old line.now self.new) }
        ensures number { lines_read self.new.reader ≡ lines_read self.old.reader + 1 }
        ensures refused { IfErr result (RefusesLine self.old line.now (lines_read self.new.reader)) }
    {
        match self.reader.read(line) {
            Ok(Some(call)) => {
                if self.calls.push(call).is_err() {
                    return Err(RefusedScript::NoMemory);
                }
                Ok(())
            }
            Ok(None) => Ok(()),
            Err(RefusedLine::BadCall) => Err(RefusedScript::BadCall(self.reader.number())),
            Err(RefusedLine::NoMemory) => Err(RefusedScript::NoMemory),
        }
    }
}
