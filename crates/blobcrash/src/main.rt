// The program: arguments, buffered streams and the exit status. All else is the library's.
#![tactic(auto)]

use blob_lab::{Ending, serve_resolve, serve_script, streams};
use std::env;
use std::io::{self, BufReader, BufWriter, ErrorKind};
use std::process::ExitCode;

/// The release, and the toolchain that it is proved and built with.
const VERSION: &str = "blobcrash 0.3.0, proved with rattle-kit-13f";

/// The capacity of the input's buffer in bytes. A line that lies in it whole is found fastest.
const INPUT_BUFFER: usize = 16384;

const HELP: &str = "usage: blobcrash [resolve|help|version]

  blobcrash          runs the script on standard input, one call a line, and prints the reply to each
  blobcrash resolve  reads a line of hex, the bytes of a blob, and prints what an open makes of them
  blobcrash help     prints this, as --help does
  blobcrash version  prints the release and the toolchain that it is proved with

docs/FORMATS.md has the lines, the replies and the exit statuses.";

fn main(rt: HostRuntime) -> ExitCode {
    let ending = match env::args(&rt) {
        Ok(args) => run(&rt, args),
        Err(e) if e.kind() == ErrorKind::OutOfMemory => Ending::NoMemory,
        // An argument that isn't UTF-8.
        Err(_) => Ending::Usage,
    };
    if ending != Ending::Done {
        // If standard error fails too, only the exit status reports the ending.
        let _ = eprintln!(rt; "{ending}");
    }
    ExitCode::from(ending.status())
}

fn run<T: AllocGlobal + Input + Print>(rt: &T, mut args: env::Args) -> Ending {
    let _program = args.next();
    let word = args.next();
    match word {
        None => run_input(rt),
        Some(word) if args.next().is_none() => run_word(rt, word.as_str()),
        Some(_) => Ending::Usage,
    }
}

fn run_word<T: AllocGlobal + Input + Print>(rt: &T, word: &str) -> Ending {
    match word {
        "resolve" => resolve_input(rt),
        "help" | "--help" => print_line(rt, HELP),
        "version" => print_line(rt, VERSION),
        _ => Ending::Usage,
    }
}

fn print_line<T: Print>(rt: &T, text: &str) -> Ending {
    match println!(rt; "{text}") {
        Ok(()) => Ending::Done,
        Err(_) => Ending::OutputFailed,
    }
}

fn run_input<T: AllocGlobal + Input + Print>(rt: &T) -> Ending {
    let Ok(reader) = BufReader::with_capacity(rt.alloc(), INPUT_BUFFER, rt.reader()) else {
        return Ending::NoMemory;
    };
    let Ok(writer) = BufWriter::new(rt.alloc(), io::writer(rt)) else {
        return Ending::NoMemory;
    };
    let mut input = streams::Input::new(reader);
    let mut output = streams::Output::new(writer);
    serve_script(rt.alloc(), &mut input, &mut output)
}

// Without a buffer each byte of standard input would be a read of its own.
fn resolve_input<T: AllocGlobal + Input + Print>(rt: &T) -> Ending {
    let Ok(reader) = BufReader::with_capacity(rt.alloc(), INPUT_BUFFER, rt.reader()) else {
        return Ending::NoMemory;
    };
    let Ok(writer) = BufWriter::new(rt.alloc(), io::writer(rt)) else {
        return Ending::NoMemory;
    };
    let mut input = streams::Input::new(reader);
    let mut output = streams::Output::new(writer);
    serve_resolve(rt.alloc(), &mut input, &mut output)
}
