// The program of `blobcrash files`: a script of files, the same explained, or each distinct outcome of its draws.
#![tactic(auto)]

use blob_file_scripts::{
    RefusedFiles, explain_files, explain_files_as_json, explore_files, serve_files,
};
use blob_lab::script::token::number;
use blob_lab::{Ending, streams};
use std::env;
use std::io::{self, BufReader, BufWriter, ErrorKind};
use std::process::ExitCode;

/// The most leaves that an exploration visits, unless `--limit` says otherwise.
const LIMIT: u64 = 1_000_000;

/// The capacity of the input's buffer in bytes.
const INPUT_BUFFER: usize = 16384;

const USAGE: &str = "usage: blobcrash files [explain [--json] | explore [--limit N] [--last]]";

const HELP: &str = "usage: blobcrash files [explain [--json] | explore [--limit N] [--last]]

  blobcrash files    runs a script of calls on files, one a line, and prints the reply to each
  blobcrash files explain [--json]
                     prints the same, after each crash also which changes of names and which bytes it kept, and after
                     each sync which changes of names it settled
                       --json     prints JSON, an object for each call, draw, change of names and write
  blobcrash files explore [--limit N] [--last]
                     runs the script once for each combination of outcomes of its draws, and prints each distinct
                     outcome with the number of its leaves and the words of the first, then the number of leaves
                       --limit N  visits at most N leaves (1000000)
                       --last     compares the last reply alone

docs/FORMATS.md has the lines, the replies and the exit statuses.";

fn main(rt: HostRuntime) -> ExitCode {
    let ending = match env::args(&rt) {
        Ok(args) => run(&rt, args),
        Err(e) if e.kind() == ErrorKind::OutOfMemory => Ending::NoMemory,
        // An argument that isn't UTF-8.
        Err(_) => Ending::Usage,
    };
    // If standard error fails too, only the exit status reports the ending.
    if ending == Ending::Usage {
        let _ = eprintln!(rt; "{USAGE}");
    } else if ending != Ending::Done {
        let _ = eprintln!(rt; "{ending}");
    }
    ExitCode::from(ending.status())
}

/// What the arguments ask for.
#[derive(Clone, Copy)]
enum Asked {
    Help,
    Script(Form),
    Outcomes { limit: u64, last: bool },
}

/// How a run is printed.
#[derive(Clone, Copy)]
enum Form {
    Replies,
    Remarks,
    Objects,
}

/// Reads the arguments of `explore`, each at most once. Returns None if they are others.
fn read_explore_args(args: env::Args) -> Option<Asked> {
    let mut limit = None;
    let mut last = false;
    let mut wants_limit = false;
    for word in args {
        if wants_limit {
            limit = Some(number(word.as_str())?);
            wants_limit = false;
        } else if word.as_str() == "--last" && !last {
            last = true;
        } else if word.as_str() == "--limit" && limit.is_none() {
            wants_limit = true;
        } else {
            return None;
        }
    }
    if wants_limit {
        return None;
    }
    Some(Asked::Outcomes {
        limit: limit.unwrap_or(LIMIT),
        last,
    })
}

/// Reads the arguments of `explain`. Returns None if they are others.
fn read_explain_args(mut args: env::Args) -> Option<Asked> {
    match args.next() {
        None => Some(Asked::Script(Form::Remarks)),
        Some(word) if word.as_str() == "--json" && args.next().is_none() => {
            Some(Asked::Script(Form::Objects))
        }
        Some(_) => None,
    }
}

/// Reads the arguments. Returns None if the program takes no such ones.
fn read_args(mut args: env::Args) -> Option<Asked> {
    let Some(word) = args.next() else {
        return Some(Asked::Script(Form::Replies));
    };
    match word.as_str() {
        "explore" => read_explore_args(args),
        "explain" => read_explain_args(args),
        "help" | "--help" if args.next().is_none() => Some(Asked::Help),
        _ => None,
    }
}

fn run<T: AllocGlobal + Input + Print>(rt: &T, mut args: env::Args) -> Ending {
    let _program = args.next();
    match read_args(args) {
        Some(Asked::Help) => print_help(rt),
        Some(Asked::Script(form)) => run_input(rt, form),
        Some(Asked::Outcomes { limit, last }) => explore_input(rt, limit, last),
        None => Ending::Usage,
    }
}

fn print_help<T: Print>(rt: &T) -> Ending {
    match println!(rt; "{HELP}") {
        Ok(()) => Ending::Done,
        Err(_) => Ending::OutputFailed,
    }
}

fn run_input<T: AllocGlobal + Input + Print>(rt: &T, form: Form) -> Ending {
    let Ok(mut reader) = BufReader::with_capacity(rt.alloc(), INPUT_BUFFER, rt.reader()) else {
        return Ending::NoMemory;
    };
    let Ok(writer) = BufWriter::new(rt.alloc(), io::writer(rt)) else {
        return Ending::NoMemory;
    };
    let mut output = streams::Output::new(writer);
    match form {
        Form::Replies => serve_files(rt.alloc(), &mut reader, &mut output),
        Form::Remarks => explain_files(rt.alloc(), &mut reader, &mut output),
        Form::Objects => explain_files_as_json(rt.alloc(), &mut reader, &mut output),
    }
}

fn read_input<T: AllocGlobal + Input>(rt: &T) -> Result<Vec<u8>, Ending> {
    let Ok(reader) = BufReader::new(rt.alloc(), rt.reader()) else {
        return Err(Ending::NoMemory);
    };
    let mut input = streams::Input::new(reader);
    let mut text = Vec::new(rt.alloc());
    input.read_all(&mut text)?;
    Ok(text)
}

fn explore_input<T: AllocGlobal + Input + Print>(rt: &T, limit: u64, last: bool) -> Ending {
    let text = match read_input(rt) {
        Ok(text) => text,
        Err(ending) => return ending,
    };
    match explore_files(rt.alloc(), text.as_slice(), limit, last) {
        Ok(printed) => print_text(rt, printed.as_str()),
        Err(RefusedFiles::BadLine(number)) => Ending::BadCall(number),
        Err(RefusedFiles::NoMemory) => Ending::NoMemory,
    }
}

fn print_text<T: Print>(rt: &T, text: &str) -> Ending {
    match print!(rt; "{text}") {
        Ok(()) => Ending::Done,
        Err(_) => Ending::OutputFailed,
    }
}
