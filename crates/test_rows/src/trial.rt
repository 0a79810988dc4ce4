//! Tries one call with failing allocations, and compares with a world without the call.

use crate::preamble::{Layer, Preamble, layer_of};
use crate::sections::{Section, part};
use crate::table::printed;
use crate::world::World;
use anyhow::{Result, bail, ensure};
use std::alloc::Global;
use test_player::found::line_of;
use test_player::window;

/// The results of a call's trials.
#[derive(Clone, Copy, Default)]
pub struct Tally {
    /// The number of trials in which the call failed with `Memory`.
    pub refused: u64,
    /// How often two worlds were compared.
    pub compared: u64,
}

// What follows a failed call.
#[derive(Clone, Copy)]
enum After {
    Crash,
    CallAgain,
}

// The call of a trial.
#[derive(Clone, Copy)]
struct Tried<'a> {
    call: &'a str,
    answer: &'a str,
    grows: bool,
}

// Runs a call and checks its result.
fn make(alloc: Global, world: &mut World, call: &str, answer: &str) -> Result<()> {
    let found = line_of(alloc, world.perform(call))?;
    let wanted = printed(alloc, answer)?;
    ensure!(found == wanted, "{call}: {found} in place of {wanted}");
    Ok(())
}

// Selects a layer, or runs a row.
fn prepare(alloc: Global, world: &mut World, line: &str) -> Result<()> {
    if let Some(layer) = layer_of(line) {
        world.layer = layer;
        return Ok(());
    }
    match line.split_once(" => ") {
        Some((call, answer)) => make(alloc, world, call, answer),
        None => bail!("no row: {line}"),
    }
}

fn prepare_all(alloc: Global, world: &mut World, lines: &[&str]) -> Result<()> {
    for line in lines {
        prepare(alloc, world, line)?;
    }
    Ok(())
}

// The world with the failing call, and the other one.
struct Worlds {
    tried: World,
    spared: World,
}

fn new_worlds(alloc: Global, preamble: &Preamble) -> Result<Worlds> {
    let tried = World::new(alloc, preamble)?;
    match World::new(alloc, preamble) {
        Ok(spared) => Ok(Worlds { tried, spared }),
        Err(e) => {
            tried.end();
            Err(e.into())
        }
    }
}

impl Worlds {
    fn end(self) {
        let Worlds { tried, spared } = self;
        tried.end();
        spared.end();
    }

    fn turn(&mut self, layer: Layer) {
        self.tried.layer = layer;
        self.spared.layer = layer;
    }

    fn prepare(&mut self, alloc: Global, lines: &[&str]) -> Result<()> {
        prepare_all(alloc, &mut self.tried, lines)?;
        prepare_all(alloc, &mut self.spared, lines)
    }

    // Runs calls in both worlds. The results must be equal.
    fn compare(&mut self, alloc: Global, lines: &[&str]) -> Result<()> {
        for line in lines {
            match layer_of(line) {
                Some(layer) => self.turn(layer),
                None => self.compare_call(alloc, line)?,
            }
        }
        Ok(())
    }

    fn compare_call(&mut self, alloc: Global, call: &str) -> Result<()> {
        let found = line_of(alloc, self.tried.perform(call))?;
        let wanted = line_of(alloc, self.spared.perform(call))?;
        ensure!(found == wanted, "{call}: {found} in place of {wanted}");
        Ok(())
    }

    // Runs the call in both worlds, without failing allocations.
    fn make(&mut self, alloc: Global, layer: Layer, tried: Tried<'_>) -> Result<()> {
        self.turn(layer);
        make(alloc, &mut self.tried, tried.call, tried.answer)?;
        make(alloc, &mut self.spared, tried.call, tried.answer)
    }
}

// Checks that the failed call left no trace. Either both worlds show the same after a crash. Or both show the same now,
// the call returns the expected result without failing allocations, and both show the same after it and after a crash.
fn follow(
    alloc: Global,
    sections: &[Section<'_>],
    worlds: &mut Worlds,
    tried: Tried<'_>,
    after: After,
) -> Result<u64> {
    let (shown, crashes) = (part(sections, "shown"), part(sections, "crashes"));
    match after {
        After::Crash => {
            worlds.compare(alloc, crashes)?;
            worlds.compare(alloc, shown)?;
            worlds.compare(alloc, part(sections, "told"))?;
            Ok(3)
        }
        After::CallAgain => {
            let layer = worlds.tried.layer;
            worlds.compare(alloc, shown)?;
            worlds.make(alloc, layer, tried)?;
            worlds.compare(alloc, shown)?;
            worlds.compare(alloc, crashes)?;
            worlds.compare(alloc, shown)?;
            Ok(4)
        }
    }
}

// Runs the call in one world. Returns whether it failed with `Memory`.
fn is_refused(alloc: Global, world: &mut World, tried: Tried<'_>) -> Result<bool> {
    let answer = printed(alloc, tried.answer)?;
    window::arm(alloc);
    let found = world.perform(tried.call);
    let was_refused = window::was_refused(alloc);
    let line = line_of(alloc, found)?;
    if !was_refused {
        ensure!(line == answer, "{line} in place of {answer}");
        return Ok(false);
    }
    ensure!(tried.grows, "the call asks for memory");
    ensure!(line.as_str() == "error Memory", "{line} after a refusal");
    Ok(true)
}

// Runs one trial. Returns how often it compared, if the call failed with `Memory`.
fn try_in(
    alloc: Global,
    sections: &[Section<'_>],
    worlds: &mut Worlds,
    (before, tried): (&[&str], Tried<'_>),
    (kept, after): (&str, After),
) -> Result<Option<u64>> {
    worlds.prepare(alloc, part(sections, "files"))?;
    worlds.prepare(alloc, part(sections, kept))?;
    worlds.prepare(alloc, part(sections, "pending"))?;
    worlds.prepare(alloc, before)?;
    if !is_refused(alloc, &mut worlds.tried, tried)? {
        return Ok(None);
    }
    Ok(Some(follow(alloc, sections, worlds, tried, after)?))
}

fn preamble(alloc: Global, sections: &[Section<'_>]) -> Result<Preamble> {
    let mut preamble = Preamble::new(alloc);
    for line in part(sections, "words") {
        ensure!(preamble.read(alloc, line)?, "no words: {line}");
    }
    Ok(preamble)
}

// Returns the call of a section, which is its last row. If nothing is kept, a crash of the pending writes has no rows.
fn tried_of<'a>(section: &Section<'a>, kept: &str) -> Option<Tried<'a>> {
    let (call, answer) = section.lines.last()?.split_once(" => ")?;
    let is_lost = kept == "lost" && answer.starts_with("crashed");
    Some(Tried {
        call,
        answer: if is_lost { "crashed" } else { answer },
        grows: section.kind == "grows",
    })
}

fn try_once(
    alloc: Global,
    sections: &[Section<'_>],
    section: &Section<'_>,
    (kept, after): (&str, After),
) -> Result<Option<u64>> {
    let Some(tried) = tried_of(section, kept) else {
        bail!("no row at the end");
    };
    let Some((_call, before)) = section.lines.split_last() else {
        bail!("no row at all");
    };
    let mut worlds = new_worlds(alloc, &preamble(alloc, sections)?)?;
    let outcome = try_in(alloc, sections, &mut worlds, (before, tried), (kept, after));
    worlds.end();
    outcome
}

/// Tries a section's call, once with a crash that keeps all pending writes and once with one that keeps none.
pub fn try_call(alloc: Global, sections: &[Section<'_>], section: &Section<'_>) -> Result<Tally> {
    let trials = [
        ("kept", After::Crash),
        ("kept", After::CallAgain),
        ("lost", After::Crash),
        ("lost", After::CallAgain),
    ];
    let mut tally = Tally::default();
    for trial in trials {
        if let Some(compared) = try_once(alloc, sections, section, trial)? {
            tally.refused = tally.refused.wrapping_add(1);
            tally.compared = tally.compared.wrapping_add(compared);
        }
    }
    Ok(tally)
}
