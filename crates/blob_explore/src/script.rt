//! A script to be explored: what lies in the store, and the calls.
ghost use Rattle.std.specs.Prelude.{◌≡◌, ◌<◌, ◌+◌, ◌-◌, ◌^◌, ◌++◌, ◌∷◌, [], IfOk, IfErr, OnOk};
ghost use Rattle.std.specs.Bool.{OnFalse, OnTrue};
ghost use Rattle.blob_script.specs.Acts.{act_of};
ghost use Rattle.blob_script.specs.Preambles.{only, words_of};
ghost use Rattle.blob_script.specs.Readers.{lines_read, preamble_of};
ghost use Rattle.blob_script.specs.Scripts.{no_script};
ghost use Rattle.blob_choices.specs.Outcomes.{HasNoPartialResize, SetNoPartialResize, SetsNoPartialResize, acts_of};
ghost use Rattle.blob_explore.specs.Explorations.{AddsNoPartialResize};
ghost use Rattle.blob_explore.specs.ScriptTexts.{AddsLine, IsPlain, IsScriptOf, script_so_far};
ghost use Rattle.blob_explore.specs.RefusedLines.{IsRefused, RefusesCall, RefusesLine, RefusesWords, status_of};

use blob_faulty::Config;
use blob_lab::first_line;
use blob_script::Call;
use blob_script::script::{Reader, RefusedLine};
use std::alloc::{AllocError, Global};
use std::fmt;

/// The images of a script by partition, name and bytes, and its calls.
#[derive(Drop)]
pub struct Script {
    pub images: Vec<(String, Vec<u8>, Vec<u8>)>,
    pub calls: Vec<Call>,
}

/// Why a script isn't explored.
#[derive(Clone, Copy, Debug, PartialEq, Eq)]
pub enum RefusedScript {
    /// This line, counted from 1, isn't a call. A line `words` or `seed` isn't one here.
    BadCall(u64),
    /// This line sets a rate of partial resizes. Such a resize draws a size, which two words don't decide.
    PartialResize(u64),
    NoMemory,
}

impl RefusedScript {
    /// Returns the exit status of the program, as that of a script's run: 3 if memory ran out, otherwise 2.
    pub fn status(self) -> u8
        ensures { result ≡ status_of self }
    {
        match self {
            RefusedScript::BadCall(_) | RefusedScript::PartialResize(_) => 2,
            RefusedScript::NoMemory => 3,
        }
    }
}

impl From<AllocError> for RefusedScript {
    ghost use Rattle.blob_explore.specs.declared.script.RefusedScript.TheVariants.{NoMemory};

    ghost from_gives = { λ _ e. e ≡ NoMemory };

    fn from(_e: AllocError) -> RefusedScript {
        RefusedScript::NoMemory
    }
}

impl fmt::Display for RefusedScript {
    fn fmt<W: fmt::Write>(&self, f: &mut fmt::Formatter<W>) -> fmt::Result {
        match self {
            RefusedScript::BadCall(line) => write!(f, "line {line}: bad call"),
            RefusedScript::PartialResize(line) => {
                write!(
                    f,
                    "line {line}: explore doesn't cover the sizes of partial resizes"
                )
            }
            RefusedScript::NoMemory => f.write_str("no memory"),
        }
    }
}

/// Reads a script without words and seed. No call of it makes a partial resize possible. The refusal is that of the first line that
/// can't follow those before it.
pub fn read_script(alloc: Global, text: &[u8]) -> Result<Script, RefusedScript>
    ensures script { IfOk result (IsScriptOf text.now) }
    ensures sizes { IfOk result (λ script. SetNoPartialResize (acts_of script.calls.items)) }
    ensures refused { IfErr result (IsRefused text.now) }
{
    let mut reading = Reading::new(alloc);
    let mut rest = text;
    'lines: while let Some((line, others)) = first_line(rest) {
        reading.add(line)?;
        rest = others;
    }
    let Reading { mut reader, calls } = reading;
    Ok(Script {
        images: reader.begin().images,
        calls,
    })
}

/// What the lines so far say.
#[derive(Drop)]
struct Reading {
    reader: Reader,
    calls: Vec<Call>,
}

impl Reading {
    fn new(alloc: Global) -> Reading
        ensures plain { IsPlain result }
        ensures none { script_so_far result ≡ no_script }
        ensures number { lines_read result.reader ≡ 0 }
    {
        Reading {
            reader: Reader::new(alloc),
            calls: Vec::new(alloc),
        }
    }

    /// Adds the next line.
    fn add(&mut self, line: &[u8]) -> Result<(), RefusedScript>
        requires few { lines_read self.old.reader < 2 ^ 64 - 1 }
        requires plain { IsPlain self.old }
        ensures plain { OnOk result (IsPlain self.new) }
        ensures sizes { OnOk result (AddsNoPartialResize self.old.calls.items self.new.calls.items) }
        ensures line { OnOk result (AddsLine self.old line.now self.new) }
        ensures number { lines_read self.new.reader ≡ lines_read self.old.reader + 1 }
        ensures refused { IfErr result (RefusesLine self.old line.now (lines_read self.new.reader)) }
    {
        match self.reader.read(line) {
            Ok(Some(call)) => self.add_call(call),
            Ok(None) => self.refuse_words(),
            Err(RefusedLine::BadCall) => Err(RefusedScript::BadCall(self.reader.number())),
            Err(RefusedLine::NoMemory) => Err(RefusedScript::NoMemory),
        }
    }

    /// Rejects the last line if there are words or a seed.
    fn refuse_words(&self) -> Result<(), RefusedScript>
        ensures none { OnOk result (words_of (preamble_of self.now.reader) ≡ only []) }
        ensures some { IfErr result (RefusesWords self.now.reader) }
    {
        if self.reader.preamble().has_words() {
            return Err(RefusedScript::BadCall(self.reader.number()));
        }
        Ok(())
    }

    fn add_call(&mut self, call: Call) -> Result<(), RefusedScript>
        ensures sizes { OnOk result (SetsNoPartialResize (act_of call)) }
        ensures call { OnOk result (self.new.calls.items ≡ self.old.calls.items ++ call ∷ []) }
        ensures reader { self.new.reader ≡ self.old.reader }
        ensures refused { IfErr result (RefusesCall (lines_read self.old.reader) (act_of call)) }
    {
        if draws_size(&call) {
            return Err(RefusedScript::PartialResize(self.reader.number()));
        }
        if self.calls.push(call).is_err() {
            return Err(RefusedScript::NoMemory);
        }
        Ok(())
    }
}

/// Returns whether the call sets a rate of partial resizes other than zero.
pub(crate) fn draws_size(call: &Call) -> bool
    ensures no { OnFalse result (SetsNoPartialResize (act_of call.now)) }
    ensures yes { OnTrue result (SetsNoPartialResize (act_of call.now) → ⊥) }
{
    match call {
        Call::Configure(config) => has_partial_resize(config),
        _ => false,
    }
}

fn has_partial_resize(config: &Config) -> bool
    ensures no { OnFalse result (HasNoPartialResize config.now) }
    ensures yes { OnTrue result (HasNoPartialResize config.now → ⊥) }
{
    match &config.resize_rate {
        None => false,
        Some(resizes) => !resizes.partial_rate.is_zero(),
    }
}
