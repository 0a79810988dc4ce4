// The program of `blobcrash states`: the states in which a crash could have left a recorded run.
#![tactic(auto)]

use blob_lab::script::token::number;
use blob_lab::{Ending, streams};
use blob_states::{RefusedScript, StatesText};
use std::env;
use std::io::{BufReader, ErrorKind};
use std::process::ExitCode;

/// The most outcomes that are tried of a crash, unless `--limit` says otherwise.
const LIMIT: u64 = 1_000_000;

const USAGE: &str = "usage: blobcrash states [--at N] [--limit N]";

const HELP: &str = "usage: blobcrash states [--at N] [--limit N]

  blobcrash states [--at N] [--limit N]
                     makes the calls of a script with its words or its seed, and prints each state in which a crash
                     after each call could leave the store, once, with the words of such a crash
                       --at N     crashes only after the first N calls
                       --limit N  tries at most N outcomes of each crash (1000000)

docs/FORMATS.md has the lines and the exit statuses.";

/// How the program ends.
enum Exit {
    /// As a run of a script does.
    Run(Ending),
    /// The script has no states.
    Refused(RefusedScript),
}

fn main(rt: HostRuntime) -> ExitCode {
    let exit = match env::args(&rt) {
        Ok(args) => run(&rt, args),
        Err(e) if e.kind() == ErrorKind::OutOfMemory => Exit::Run(Ending::NoMemory),
        // An argument that isn't UTF-8.
        Err(_) => Exit::Run(Ending::Usage),
    };
    // If standard error fails too, only the exit status reports the ending.
    let status = match exit {
        Exit::Run(Ending::Done) => Ending::Done.status(),
        Exit::Run(Ending::Usage) => {
            let _ = eprintln!(rt; "{USAGE}");
            Ending::Usage.status()
        }
        Exit::Run(ending) => {
            let _ = eprintln!(rt; "{ending}");
            ending.status()
        }
        Exit::Refused(refused) => {
            let _ = eprintln!(rt; "{refused}");
            refused.status()
        }
    };
    ExitCode::from(status)
}

/// What the arguments ask for.
#[derive(Clone, Copy)]
enum Asked {
    Help,
    States { at: Option<u64>, limit: u64 },
}

/// Reads the arguments, each at most once. Returns None if they are others.
fn read_args(args: env::Args) -> Option<Asked> {
    let mut at = None;
    let mut limit = None;
    let mut help = false;
    let mut wants_at = false;
    let mut wants_limit = false;
    for word in args {
        let is_first = at.is_none() && limit.is_none() && !wants_at && !wants_limit;
        if help {
            return None;
        } else if wants_at {
            at = Some(number(word.as_str())?);
            wants_at = false;
        } else if wants_limit {
            limit = Some(number(word.as_str())?);
            wants_limit = false;
        } else if word.as_str() == "--at" && at.is_none() {
            wants_at = true;
        } else if word.as_str() == "--limit" && limit.is_none() {
            wants_limit = true;
        } else if is_first && (word.as_str() == "help" || word.as_str() == "--help") {
            help = true;
        } else {
            return None;
        }
    }
    if wants_at || wants_limit {
        return None;
    }
    if help {
        return Some(Asked::Help);
    }
    Some(Asked::States {
        at,
        limit: limit.unwrap_or(LIMIT),
    })
}

fn run<T: AllocGlobal + Input + Print>(rt: &T, mut args: env::Args) -> Exit {
    let _program = args.next();
    match read_args(args) {
        Some(Asked::Help) => Exit::Run(print_help(rt)),
        Some(Asked::States { at, limit }) => states_of_input(rt, at, limit),
        None => Exit::Run(Ending::Usage),
    }
}

fn print_help<T: Print>(rt: &T) -> Ending {
    match println!(rt; "{HELP}") {
        Ok(()) => Ending::Done,
        Err(_) => Ending::OutputFailed,
    }
}

fn states_of_input<T: AllocGlobal + Input + Print>(rt: &T, at: Option<u64>, limit: u64) -> Exit {
    let text = match read_input(rt) {
        Ok(text) => text,
        Err(ending) => return Exit::Run(ending),
    };
    let mut states = match StatesText::new(rt.alloc(), text.as_slice(), at, limit) {
        Ok(states) => states,
        Err(refused) => return Exit::Refused(refused),
    };
    let exit = print_states(rt, &mut states);
    states.end();
    exit
}

/// Prints the states of each crash as soon as they are found, so that memory doesn't grow with the text.
fn print_states<T: AllocGlobal + Print>(rt: &T, states: &mut StatesText) -> Exit {
    let mut printed = String::new(rt.alloc());
    'crashes: loop {
        printed.clear();
        let Ok(more) = states.print_next(rt.alloc(), &mut printed) else {
            return Exit::Refused(RefusedScript::NoMemory);
        };
        match print_text(rt, printed.as_str()) {
            Ending::Done if more => {}
            ending => return Exit::Run(ending),
        }
    }
}

fn read_input<T: AllocGlobal + Input>(rt: &T) -> Result<Vec<u8>, Ending> {
    let Ok(reader) = BufReader::new(rt.alloc(), rt.reader()) else {
        return Err(Ending::NoMemory);
    };
    let mut input = streams::Input::new(reader);
    let mut text = Vec::new(rt.alloc());
    input.read_all(&mut text)?;
    Ok(text)
}

fn print_text<T: Print>(rt: &T, text: &str) -> Ending {
    match print!(rt; "{text}") {
        Ok(()) => Ending::Done,
        Err(_) => Ending::OutputFailed,
    }
}
