//! Explores the toolchain's database on two files of this layer. Two transactions run, each of two rows in two pages.
//! The power fails at each call of the files, and each outcome of the crash is opened, with a power loss at each call
//! again, until no new state of the files is found. Each state must have the acknowledged transactions, and of the next
//! one all or nothing.
//!
//!     blob_sql_explored right|mistakes
//!
//! `right` prints a line for each setting without a mistake: the calls of the transactions, the outcomes of power losses
//! at each and at none, the different states of the files that were found, and the outcomes of their opens. `mistakes`
//! does so for each mistake, up to its first wrong state, and prints that state.
//!
//! Exit statuses: 0 if no state was wrong, or one of each mistake, 1 if not, 2 for other arguments, 3 if the exploration
//! couldn't be done.
#![tactic(auto)]

mod database;
mod exploration;
mod file;
mod machine;
mod run;
mod setting;
mod words;

use anyhow::Result;
use exploration::{Exploration, Loss};
use machine::{Call, Kind, Name};
use setting::{MISTAKES, RIGHT, Setting};
use std::alloc::Global;
use std::env;
use std::process::ExitCode;

fn name_of(call: Option<Call>) -> (&'static str, &'static str) {
    let Some(call) = call else {
        return ("the end", "");
    };
    let kind = match call.kind {
        Kind::Len => "a length",
        Kind::Read => "a read",
        Kind::Write => "a write",
        Kind::Resize => "a resize",
        Kind::Sync => "a sync",
    };
    match call.name {
        Name::Log => (kind, " of the log"),
        Name::File => (kind, " of the file"),
    }
}

/// Prints at which call the power failed, and what was found.
fn print_loss<R: Print>(rt: &R, loss: Loss) -> Result<()> {
    let (kind, name) = name_of(loss.failed);
    let (calls, done) = (loss.calls, loss.done);
    print!(rt; "  after {calls} calls, at {kind}{name}: {done} acknowledged, found ")?;
    match loss.found {
        Some((a, b)) => println!(rt; "{a} and {b}")?,
        None => println!(rt; "nothing")?,
    }
    Ok(())
}

/// Explores a setting and prints its line. Returns whether a state was wrong.
fn explore<R: Print>(rt: &R, alloc: Global, setting: &Setting) -> Result<bool> {
    let mut exploration = Exploration::new(alloc, *setting);
    exploration.explore()?;
    let (name, calls, outcomes) = (setting.name, exploration.calls, exploration.outcomes);
    let (states, opens) = (exploration.states(), exploration.opens);
    println!(rt; "{name:<30} {calls:>8} {outcomes:>8} {states:>8} {opens:>8}")?;
    match exploration.wrong {
        None => Ok(false),
        Some(loss) => {
            print_loss(rt, loss)?;
            Ok(true)
        }
    }
}

/// Explores the settings. Returns whether a state was wrong in each, for mistakes, or in none.
fn explore_all<R: Print>(rt: &R, alloc: Global, are_mistakes: bool) -> Result<bool> {
    let settings: &[Setting] = if are_mistakes { &MISTAKES } else { &RIGHT };
    let mut is_right = true;
    println!(rt; "setting                           calls outcomes   states    opens")?;
    for setting in settings {
        is_right = explore(rt, alloc, setting)? == are_mistakes && is_right;
    }
    Ok(is_right)
}

/// Parses the arguments: whether the mistakes are explored.
fn asked(words: &[String]) -> Option<bool> {
    match words {
        [word] if word.as_str() == "right" => Some(false),
        [word] if word.as_str() == "mistakes" => Some(true),
        _ => None,
    }
}

fn arguments(rt: &HostRuntime) -> Result<Vec<String>> {
    let mut args = env::args(rt)?;
    let _program = args.next();
    Ok(args.collect(rt.alloc())?)
}

fn main(rt: HostRuntime) -> ExitCode {
    let asked = match arguments(&rt) {
        Ok(words) => asked(&words),
        Err(_) => None,
    };
    let Some(are_mistakes) = asked else {
        let _ = eprintln!(rt; "usage: blob_sql_explored right|mistakes");
        return ExitCode::from(2);
    };
    match explore_all(&rt, rt.alloc(), are_mistakes) {
        Ok(true) => ExitCode::from(0),
        Ok(false) => ExitCode::from(1),
        Err(error) => {
            let _ = eprintln!(rt; "blob_sql_explored: {error}");
            ExitCode::from(3)
        }
    }
}
