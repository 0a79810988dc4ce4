// The states of a recorded run, as lines.
ghost use Rattle.std.specs.Prelude.{◌≡◌, ◌<◌, ◌≤◌, ◌+◌, [], true, IfOk, IfErr, IfSome, OnOk, length};
ghost use Rattle.blob_lab_store.specs.LabStands.{LabStandsFor};
ghost use Rattle.blob_distinct.specs.Printed.{Appends};
ghost use Rattle.blob_states.specs.Printed.{HasFewerCalls, HasNoStates, IsCrashRange};
ghost use Rattle.blob_states.specs.Printed.{call_text, counted, point_of, point_text, state_text, total_line, total_of, with_point, words_text};
ghost use Rattle.blob_states.specs.Recorded.{HaveNames, names_of, state_after};
ghost use Rattle.blob_distinct.specs.Found.{left_by};

use crate::names::names_until;
use crate::recorded::Recorded;
use crate::replay::{go_on, replayed};
use crate::script::{RefusedScript, read_script};
use crate::states::{CrashStates, crash_states};
use blob_base::Error;
use blob_distinct::limit::limit_text;
use blob_distinct::words::{noun, print_words};
use blob_lab_store::Lab;
use std::alloc::{AllocError, Global};

/// What is printed of the states of a script's crashes, a crash at a time: of a crash before the first call and after each call, or only
/// after one of them. Each call is made once. It can't be dropped: call `end`.
pub struct StatesText {
    pub(crate) run: Recorded,
    /// The first calls were made in it, as many as `calls`.
    pub(crate) lab: Lab,
    /// The names that may have a file in it.
    pub(crate) names: Vec<(String, Vec<u8>)>,
    pub(crate) first: usize,
    /// After how many calls the next crash is.
    pub(crate) calls: usize,
    pub(crate) end: usize,
    pub(crate) limit: u64,
    pub(crate) total: Total,
    ghost begun: { first ≤ calls },
    ghost more: { calls ≤ end },
    ghost within: { end ≤ length run.calls.items + 1 },
}

impl StatesText {
    ghost use Rattle.blob_states.specs.Streams.{GoesOn, IsPrinting, crashes_left};

    /// Reads a script, and makes its calls before the first crash. At most `limit` outcomes of each crash will be tried. The errors are
    /// those of the script, `FewCalls` if it has fewer than `at` calls, and `NoMemory`.
    pub fn new(
        alloc: Global,
        text: &[u8],
        at: Option<u64>,
        limit: u64,
    ) -> Result<StatesText, RefusedScript>
        ensures begun { IfOk result (λ states. IsPrinting text.now at limit states []) }
        ensures refused { IfErr result (HasNoStates text.now at) }
    {
        let run = read_script(alloc, text)?;
        let (first, end) = crash_range(&run, at)?;
        match begin(alloc, &run, first) {
            Ok((lab, names)) => Ok(StatesText {
                run,
                lab,
                names,
                first,
                calls: first,
                end,
                limit,
                total: Total::new(),
            }),
            Err(_) => Err(RefusedScript::NoMemory),
        }
    }

    /// Appends the states that the next crash leaves or, after the last crash, the line with the counts. Returns whether that line is
    /// still to come.
    ///
    /// The only error is `Memory`, also if a call was refused it or the counts don't fit. Part of what is printed may be lost then.
    pub fn print_next(&mut self, alloc: Global, printed: &mut String) -> Result<bool, Error>
        ensures goes_on { IfOk result (λ more. GoesOn self.old self.new more printed.old printed.new) }
        ensures fewer { IfOk result (λ more. more ≡ true → crashes_left self.new < crashes_left self.old) }
    {
        if self.calls >= self.end {
            print_total(self.total, printed)?;
            return Ok(false);
        }
        let found = crash_states(alloc, &self.lab, &self.names, self.limit)?;
        print_states(self.calls, &found, printed)?;
        let Some(total) = self.total.with(&found) else {
            return Err(Error::Memory(AllocError));
        };
        go_on(
            &self.run,
            self.calls,
            self.end,
            &mut self.lab,
            &mut self.names,
        )?;
        self.total = total;
        self.calls += 1;
        Ok(true)
    }

    /// Ends the laboratory.
    pub fn end(self) {
        let StatesText {
            run: _,
            lab,
            names: _,
            first: _,
            calls: _,
            end: _,
            limit: _,
            total: _,
        } = self;
        lab.end();
    }
}

/// Returns a laboratory in which the first calls were made, and the names that may have a file in it. The only error is `Memory`, also
/// if a call was refused it.
fn begin(
    alloc: Global,
    run: &Recorded,
    count: usize,
) -> Result<(Lab, Vec<(String, Vec<u8>)>), Error>
    requires { count ≤ length run.now.calls.items }
    ensures stands { IfOk result (λ begun. LabStandsFor begun.0 (state_after run.now count)) }
    ensures names { IfOk result (λ begun. HaveNames (names_of begun.1.items) run.now count) }
{
    let names = names_until(alloc, run, count)?;
    let lab = replayed(alloc, run, count)?;
    Ok((lab, names))
}

/// Returns the first number of calls after which there is a crash, and the number after the last.
fn crash_range(run: &Recorded, at: Option<u64>) -> Result<(usize, usize), RefusedScript>
    ensures range { IfOk result (λ range. IsCrashRange at (length run.now.calls.items) range.0 range.1) }
    ensures refused { IfErr result (HasFewerCalls at (length run.now.calls.items)) }
{
    let calls = run.calls.len();
    match at {
        None => match calls.checked_add(1) {
            Some(end) => Ok((0, end)),
            None => Err(RefusedScript::NoMemory),
        },
        Some(at) if at <= calls as u64 => {
            let at = at as usize;
            match at.checked_add(1) {
                Some(end) => Ok((at, end)),
                None => Err(RefusedScript::NoMemory),
            }
        }
        Some(_) => Err(RefusedScript::FewCalls(calls as u64)),
    }
}

/// The counts of the crashes so far, and whether all their outcomes were tried.
#[derive(Clone, Copy)]
pub(crate) struct Total {
    crashes: u64,
    outcomes: u64,
    states: u64,
    is_complete: bool,
}

impl Total {
    fn new() -> Total
        ensures { result ≡ total_of [] }
    {
        Total {
            crashes: 0,
            outcomes: 0,
            states: 0,
            is_complete: true,
        }
    }

    /// Returns the counts with those of one more crash. `None` if they don't fit.
    fn with(self, found: &CrashStates) -> Option<Total>
        ensures { IfSome result (λ total. total ≡ with_point self (point_of 0 found.now)) }
    {
        Some(Total {
            crashes: self.crashes.checked_add(1)?,
            outcomes: self.outcomes.checked_add(found.outcomes)?,
            states: self.states.checked_add(found.states.len() as u64)?,
            is_complete: self.is_complete && found.is_complete,
        })
    }
}

/// Prints the states that a crash after some calls leaves.
fn print_states(calls: usize, found: &CrashStates, printed: &mut String) -> Result<(), AllocError>
    ensures { OnOk result (Appends printed.old printed.new (point_text (point_of calls found.now))) }
{
    for (lines, words) in &found.states {
        print_state(calls, words, lines.as_str(), printed)?;
    }
    Ok(())
}

fn print_state(
    calls: usize,
    words: &[u64],
    lines: &str,
    printed: &mut String,
) -> Result<(), AllocError>
    ensures { OnOk result (Appends printed.old printed.new (state_text calls (left_by words.now lines.now))) }
{
    print_call(calls, printed)?;
    print_drawn(words, printed)?;
    printed.push('\n')?;
    printed.push_str(lines)
}

fn print_call(calls: usize, printed: &mut String) -> Result<(), AllocError>
    ensures { OnOk result (Appends printed.old printed.new (call_text calls)) }
{
    write!(printed, "# crash after call {calls}")
}

/// Prints the words of a crash.
fn print_drawn(words: &[u64], printed: &mut String) -> Result<(), AllocError>
    ensures { OnOk result (Appends printed.old printed.new (words_text words.now)) }
{
    if words.is_empty() {
        return printed.push_str(", no words");
    }
    printed.push_str(", words")?;
    print_words(words, printed)
}

/// Prints the last line.
fn print_total(total: Total, printed: &mut String) -> Result<(), AllocError>
    ensures { OnOk result (Appends printed.old printed.new (total_line total)) }
{
    printed.push_str("# ")?;
    print_count(total.crashes, "crash", "crashes", printed)?;
    print_count(total.outcomes, "outcome", "outcomes", printed)?;
    print_count(total.states, "state", "states", printed)?;
    printed.push_str(limit_text(total.is_complete))?;
    printed.push_str("\n")
}

/// Prints a number of things, and a comma.
fn print_count(count: u64, one: &str, many: &str, printed: &mut String) -> Result<(), AllocError>
    ensures { OnOk result (Appends printed.old printed.new (counted count one.now many.now)) }
{
    let noun = noun(count, one, many);
    write!(printed, "{count} {noun}, ")
}
