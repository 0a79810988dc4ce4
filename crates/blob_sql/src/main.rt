//! Tests the toolchain's database on disks that fail. For each seed, its log and its file crash several times. Each
//! transaction that succeeded must then be in the database, and each one that failed must be there in whole or not at
//! all.
//!
//!     blob_sql [--lie] FIRST LAST
//!
//! The seeds are FIRST up to LAST, without LAST. Prints a line for each mode, after a line for each wrong row. With
//! `--lie` a sync does nothing and reports success, so rows must be wrong. Exit statuses: 0 if no row was wrong, 1 if
//! one was, 2 for other arguments, 3 if the run couldn't be done.
#![tactic(auto)]

mod counts;
mod disks;
mod file;
mod mode;
mod state;
mod transaction;
mod trial;

use anyhow::Result;
use counts::{Counts, add};
use mode::{MODES, Mode};
use std::alloc::Global;
use std::env;
use std::process::ExitCode;

#[derive(Clone, Copy)]
struct Seeds {
    first: u64,
    last: u64,
    is_lying: bool,
}

fn number(word: &String) -> Option<u64> {
    word.parse::<u64>().ok()
}

/// Parses the arguments.
fn asked(words: &[String]) -> Option<Seeds> {
    let (is_lying, numbers) = match words {
        [word, numbers @ ..] if word.as_str() == "--lie" => (true, numbers),
        numbers => (false, numbers),
    };
    let [first, last] = numbers else {
        return None;
    };
    Some(Seeds {
        first: number(first)?,
        last: number(last)?,
        is_lying,
    })
}

fn words(rt: &HostRuntime) -> Result<Vec<String>> {
    let mut args = env::args(rt)?;
    let _program = args.next();
    Ok(args.collect(rt.alloc())?)
}

/// Prints a line of the table.
fn print_row<R: Print>(rt: &R, mode: &Mode, counts: &Counts) -> Result<()> {
    let (name, syncs) = (mode.name, mode.syncs());
    let (commits, failed, refused) = (counts.commits, counts.failed, counts.refused);
    let (crashes, doubt, kept, wrong) = (counts.crashes, counts.doubt, counts.kept, counts.wrong);
    print!(rt; "{name:<9} {syncs:<5} {commits:>8} {failed:>8} {refused:>8} ")?;
    println!(rt; "{crashes:>8} {doubt:>8} {kept:>8} {wrong:>8}")?;
    Ok(())
}

/// Runs one mode over all seeds. Prints a line for each seed that found a wrong row.
fn run<R: Print>(rt: &R, alloc: Global, mode: &Mode, seeds: Seeds) -> Result<Counts> {
    let mut counts = Counts::default();
    for seed in seeds.first..seeds.last {
        if let Some(wrong) = trial::run(alloc, seed, mode, seeds.is_lying, &mut counts)? {
            add(&mut counts.wrong);
            let (name, syncs) = (mode.name, mode.syncs());
            println!(rt; "{name}, {syncs}: seed {seed}: {wrong}")?;
        }
    }
    print_row(rt, mode, &counts)?;
    Ok(counts)
}

/// Prints the table. Returns whether a row was wrong.
fn run_all<R: Print>(rt: &R, alloc: Global, seeds: Seeds) -> Result<bool> {
    let mut is_wrong = false;
    println!(rt; "mode      syncs  commits   failed  refused  crashes    doubt     kept    wrong")?;
    for mode in &MODES {
        if seeds.is_lying && mode.is_fused {
            continue;
        }
        let counts = run(rt, alloc, mode, seeds)?;
        is_wrong = is_wrong || counts.wrong > 0;
    }
    Ok(is_wrong)
}

fn main(rt: HostRuntime) -> ExitCode {
    let seeds = match words(&rt) {
        Ok(words) => asked(&words),
        Err(_) => None,
    };
    let Some(seeds) = seeds else {
        let _ = eprintln!(rt; "usage: blob_sql [--lie] FIRST LAST");
        return ExitCode::from(2);
    };
    match run_all(&rt, rt.alloc(), seeds) {
        Ok(false) => ExitCode::from(0),
        Ok(true) => ExitCode::from(1),
        Err(error) => {
            let _ = eprintln!(rt; "blob_sql: {error}");
            ExitCode::from(3)
        }
    }
}
