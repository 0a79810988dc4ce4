// The program of `blobcrash explain`: a script's replies, with pictures of its crashes.
#![tactic(auto)]

use blob_explain::{explain_script, explain_script_as_json};
use blob_lab::{Ending, streams};
use std::env;
use std::io::{self, BufReader, BufWriter, ErrorKind};
use std::process::ExitCode;

const USAGE: &str = "usage: blobcrash explain [--json]";

const HELP: &str = "usage: blobcrash explain [--json]

  blobcrash explain  runs the script on standard input to its end, prints the reply to each call, and shows behind each
                     crash what it kept and lost
                       --json  prints JSON, an object for each call, draw and write

docs/FORMATS.md has the lines, the replies and the exit statuses.";

fn main(rt: HostRuntime) -> ExitCode {
    let ending = match env::args(&rt) {
        Ok(args) => run(&rt, args),
        Err(e) if e.kind() == ErrorKind::OutOfMemory => Ending::NoMemory,
        // An argument that isn't UTF-8.
        Err(_) => Ending::Usage,
    };
    // If standard error fails too, only the exit status reports the ending.
    match ending {
        Ending::Done => {}
        Ending::Usage => {
            let _ = eprintln!(rt; "{USAGE}");
        }
        _ => {
            let _ = eprintln!(rt; "{ending}");
        }
    }
    ExitCode::from(ending.status())
}

fn run<T: AllocGlobal + Input + Print>(rt: &T, mut args: env::Args) -> Ending {
    let _program = args.next();
    let word = args.next();
    match word {
        None => explain_input(rt, false),
        Some(word) if args.next().is_none() => match word.as_str() {
            "--json" => explain_input(rt, true),
            "help" | "--help" => print_help(rt),
            _ => Ending::Usage,
        },
        Some(_) => Ending::Usage,
    }
}

fn print_help<T: Print>(rt: &T) -> Ending {
    match println!(rt; "{HELP}") {
        Ok(()) => Ending::Done,
        Err(_) => Ending::OutputFailed,
    }
}

fn explain_input<T: AllocGlobal + Input + Print>(rt: &T, is_json: bool) -> Ending {
    let Ok(reader) = BufReader::new(rt.alloc(), rt.reader()) else {
        return Ending::NoMemory;
    };
    let Ok(writer) = BufWriter::new(rt.alloc(), io::writer(rt)) else {
        return Ending::NoMemory;
    };
    let mut input = streams::Input::new(reader);
    let mut output = streams::Output::new(writer);
    if is_json {
        explain_script_as_json(rt.alloc(), &mut input, &mut output)
    } else {
        explain_script(rt.alloc(), &mut input, &mut output)
    }
}
