// The program of `blobcrash explore`: each distinct outcome of a script's draws.
#![tactic(auto)]

use blob_explore::{RefusedScript, explore_text};
use blob_lab::script::token::number;
use blob_lab::{Ending, streams};
use std::env;
use std::io::{BufReader, ErrorKind};
use std::process::ExitCode;

/// The most leaves that an exploration visits, unless `--limit` says otherwise.
const LIMIT: u64 = 1_000_000;

const USAGE: &str = "usage: blobcrash explore [--limit N] [--last]";

const HELP: &str = "usage: blobcrash explore [--limit N] [--last]

  blobcrash explore [--limit N] [--last]
                     runs the script once for each combination of outcomes of its draws, and prints each distinct
                     outcome with the number of its leaves and the words of the first, then the number of leaves
                       --limit N  visits at most N leaves (1000000)
                       --last     compares the last reply alone

docs/FORMATS.md has the lines, the replies and the exit statuses.";

/// How the program ends.
enum Exit {
    /// As a run of a script does.
    Run(Ending),
    /// The script can't be explored.
    Refused(RefusedScript),
}

fn main(rt: HostRuntime) -> ExitCode {
    let exit = match env::args(&rt) {
        Ok(args) => run(&rt, args),
        Err(e) if e.kind() == ErrorKind::OutOfMemory => Exit::Run(Ending::NoMemory),
        // An argument that isn't UTF-8.
        Err(_) => Exit::Run(Ending::Usage),
    };
    // If standard error fails too, only the exit status reports the ending.
    let status = match exit {
        Exit::Run(Ending::Done) => Ending::Done.status(),
        Exit::Run(Ending::Usage) => {
            let _ = eprintln!(rt; "{USAGE}");
            Ending::Usage.status()
        }
        Exit::Run(ending) => {
            let _ = eprintln!(rt; "{ending}");
            ending.status()
        }
        Exit::Refused(refused) => {
            let _ = eprintln!(rt; "{refused}");
            refused.status()
        }
    };
    ExitCode::from(status)
}

/// What the arguments ask for.
#[derive(Clone, Copy)]
enum Asked {
    Help,
    Outcomes { limit: u64, last: bool },
}

/// Reads the arguments, each at most once. Returns None if they are others.
fn read_args(args: env::Args) -> Option<Asked> {
    let mut limit = None;
    let mut last = false;
    let mut help = false;
    let mut wants_limit = false;
    for word in args {
        let is_first = limit.is_none() && !last && !wants_limit;
        if help {
            return None;
        } else if wants_limit {
            limit = Some(number(word.as_str())?);
            wants_limit = false;
        } else if word.as_str() == "--last" && !last {
            last = true;
        } else if word.as_str() == "--limit" && limit.is_none() {
            wants_limit = true;
        } else if is_first && (word.as_str() == "help" || word.as_str() == "--help") {
            help = true;
        } else {
            return None;
        }
    }
    match (wants_limit, help) {
        (true, _) => None,
        (false, true) => Some(Asked::Help),
        (false, false) => Some(Asked::Outcomes {
            limit: limit.unwrap_or(LIMIT),
            last,
        }),
    }
}

fn run<T: AllocGlobal + Input + Print>(rt: &T, mut args: env::Args) -> Exit {
    let _program = args.next();
    match read_args(args) {
        Some(Asked::Help) => Exit::Run(print_help(rt)),
        Some(Asked::Outcomes { limit, last }) => explore_input(rt, limit, last),
        None => Exit::Run(Ending::Usage),
    }
}

fn print_help<T: Print>(rt: &T) -> Ending {
    match println!(rt; "{HELP}") {
        Ok(()) => Ending::Done,
        Err(_) => Ending::OutputFailed,
    }
}

fn explore_input<T: AllocGlobal + Input + Print>(rt: &T, limit: u64, last: bool) -> Exit {
    let text = match read_input(rt) {
        Ok(text) => text,
        Err(ending) => return Exit::Run(ending),
    };
    match explore_text(rt.alloc(), text.as_slice(), limit, last) {
        Ok(printed) => Exit::Run(print_text(rt, printed.as_str())),
        Err(refused) => Exit::Refused(refused),
    }
}

fn read_input<T: AllocGlobal + Input>(rt: &T) -> Result<Vec<u8>, Ending> {
    let Ok(reader) = BufReader::new(rt.alloc(), rt.reader()) else {
        return Err(Ending::NoMemory);
    };
    let mut input = streams::Input::new(reader);
    let mut text = Vec::new(rt.alloc());
    input.read_all(&mut text)?;
    Ok(text)
}

fn print_text<T: Print>(rt: &T, text: &str) -> Ending {
    match print!(rt; "{text}") {
        Ok(()) => Ending::Done,
        Err(_) => Ending::OutputFailed,
    }
}
