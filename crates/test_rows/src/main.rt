//! Plays rows: calls on the memory store, on the wrapper, on the registries over them and on a laboratory, each with
//! its expected result.
//!
//!     test_rows FILE ..
//!     test_rows try FILE NAME
//!     test_rows script FILE
//!     test_rows resolve FILE
//!
//! Prints a line for each row with another result, and for each file the number of rows. A file that ends in `.calls`
//! has calls that are tried while a preloaded library makes allocations fail: `window` marks them, and without the
//! library none fails. `try` tries one of these calls by its name. Exit statuses: 0 if every result is as expected, 1
//! if one isn't or a file can't be read. `script` and `resolve` print what `run_script` and `run_resolve` write for a file,
//! with the ending on standard error, and end with its status.
#![tactic(auto)]

mod debts;
mod exclusive;
mod laboratory;
mod preamble;
mod sections;
mod slots;
mod table;
mod trial;
mod world;

use anyhow::{Context, Result, bail};
use blob_lab::{Ending, run_resolve, run_script};
use sections::Section;
use std::alloc::Global;
use std::process::ExitCode;
use std::rt::Files;
use std::{env, fs};

// Plays the rows of a file. Returns how many had another result.
fn play<R: AllocGlobal + Print>(rt: &R, file: &str, text: &str) -> Result<u64> {
    let (tally, failures) = table::play(rt.alloc(), file, text)?;
    print!(rt; "{failures}")?;
    let (cases, rows, failed) = (tally.cases, tally.rows, tally.failed);
    println!(rt; "{file}: {cases} cases, {rows} rows, {failed} failed")?;
    Ok(failed)
}

// Tries one call with failing allocations.
fn try_call<R: Print>(rt: &R, alloc: Global, all: &[Section<'_>], one: &Section<'_>) -> Result<()> {
    let name = one.name;
    let tally = trial::try_call(alloc, all, one).context(format_args!("{name}"))?;
    let (refused, compared) = (tally.refused, tally.compared);
    println!(rt; "{name}: {refused} refused, {compared} compared")?;
    Ok(())
}

// Tries the call with this name, or all calls.
fn try_calls<R: AllocGlobal + Print>(rt: &R, text: &str, name: Option<&str>) -> Result<()> {
    let sections = sections::read(rt.alloc(), text)?;
    let mut tried = 0u64;
    for section in sections.iter() {
        if section.kind != "part" && name.unwrap_or(section.name) == section.name {
            try_call(rt, rt.alloc(), &sections, section)?;
            tried = tried.wrapping_add(1);
        }
    }
    if tried == 0 {
        bail!("no such call");
    }
    Ok(())
}

fn read<R: AllocGlobal + Files>(rt: &R, file: &str) -> Result<String> {
    Ok(fs::read_to_string(rt, file).context(format_args!("{file}"))?)
}

// Returns whether all results of a file are as expected.
fn is_right<R: AllocGlobal + Files + Print>(rt: &R, file: &str) -> Result<bool> {
    let text = read(rt, file)?;
    if file.ends_with(".calls") {
        try_calls(rt, &text, None)?;
        return Ok(true);
    }
    Ok(play(rt, file, &text)? == 0)
}

// Runs a whole file by `run_script` or `run_resolve`, and prints what it wrote. Returns the exit status.
fn run_whole<R: AllocGlobal + Files + Print + Eprint>(
    rt: &R,
    resolves: bool,
    file: &str,
) -> Result<u8> {
    let input = fs::read(rt, file).context(format_args!("{file}"))?;
    let output = Vec::new(rt.alloc());
    let (ending, _, printed) = if resolves {
        run_resolve(rt.alloc(), input.as_slice(), output)
    } else {
        run_script(rt.alloc(), input.as_slice(), output)
    };
    let text = std::str::from_utf8(&printed)?;
    print!(rt; "{text}")?;
    if ending != Ending::Done {
        eprintln!(rt; "{ending}")?;
    }
    Ok(ending.status())
}

fn run<R: AllocGlobal + Files + Print + Eprint>(rt: &R, words: &[String]) -> Result<u8> {
    if let [word, file] = words {
        match word.as_str() {
            "script" => return run_whole(rt, false, file),
            "resolve" => return run_whole(rt, true, file),
            _ => {}
        }
    }
    Ok(u8::from(!are_right(rt, words)?))
}

fn are_right<R: AllocGlobal + Files + Print>(rt: &R, words: &[String]) -> Result<bool> {
    if let [word, file, name] = words {
        if word.as_str() == "try" {
            let text = read(rt, file)?;
            try_calls(rt, &text, Some(name))?;
            return Ok(true);
        }
    }
    let mut are_right = true;
    for file in words {
        are_right &= is_right(rt, file)?;
    }
    Ok(are_right)
}

fn main(rt: HostRuntime) -> Result<ExitCode> {
    let mut args = env::args(&rt)?;
    let _program = args.next();
    let words: Vec<String> = args.collect(rt.alloc())?;
    Ok(ExitCode::from(run(&rt, &words)?))
}
