//! A file of rows, line by line.

use crate::preamble::Preamble;
use crate::world::World;
use anyhow::Result;
use blob_base::Error;
use std::alloc::Global;
use test_player::found::{Found, bytes, line_of};
use test_player::tokens;

/// How many cases and rows were played, and how many rows had another result.
#[derive(Clone, Copy, Default)]
pub struct Tally {
    pub cases: u64,
    pub rows: u64,
    pub failed: u64,
}

// The state of playing a file.
struct Player<'a> {
    alloc: Global,
    file: &'a str,
    title: &'a str,
    preamble: Preamble,
    world: Option<World>,
    // After a row that failed, the rest of its case is skipped.
    is_failed: bool,
    tally: Tally,
    failures: String,
}

/// Returns an expected result as it is printed. Its bytes may be written in pieces.
pub fn printed(alloc: Global, answer: &str) -> Result<String, Error> {
    match answer.strip_prefix("bytes ") {
        Some(token) => Ok(line_of(alloc, Ok(bytes(tokens::bytes(alloc, token)?)))?),
        None => Ok(String::from_str(alloc, answer)?),
    }
}

// Replaces a world, and ends the earlier one.
fn put(place: &mut Option<World>, world: World) {
    if let Some(earlier) = place.replace(world) {
        earlier.end();
    }
}

impl<'a> Player<'a> {
    // Records a failure if the result of a row or a case isn't the expected one.
    fn expect(&mut self, line: usize, asked: &str, wanted: &str, found: &str) -> Result<()> {
        if wanted != found {
            self.is_failed = true;
            self.tally.failed = self.tally.failed.wrapping_add(1);
            let (file, title) = (self.file, self.title);
            writeln!(
                self.failures,
                "{file}:{line}: {title}: {asked}: wanted {wanted}, found {found}"
            )?;
        }
        Ok(())
    }

    // Runs a call in the world of the case. The first row creates the world.
    fn find(&mut self, asked: &str) -> Result<String> {
        if self.world.is_none() {
            match World::new(self.alloc, &self.preamble) {
                Ok(world) => put(&mut self.world, world),
                Err(e) => return Err(e.into()),
            }
        }
        let found = match &mut self.world {
            Some(world) => world.perform(asked),
            None => Err(Error::Closed),
        };
        Ok(line_of(self.alloc, found)?)
    }

    fn row(&mut self, line: usize, asked: &str, answer: &str) -> Result<()> {
        self.tally.rows = self.tally.rows.wrapping_add(1);
        let found = self.find(asked)?;
        let wanted = printed(self.alloc, answer)?;
        self.expect(line, asked, &wanted, &found)
    }

    // Ends the world. Returns how many words were taken.
    fn end_world(&mut self) -> Option<Result<Found, Error>> {
        let mut world = self.world.take()?;
        let taken = world.taken();
        world.end();
        Some(taken)
    }

    // Ends a case: all given words must have been taken.
    fn end(&mut self, line: usize) -> Result<()> {
        if let Some(taken) = self.end_world() {
            if !self.is_failed {
                let given = self.preamble.words.len();
                let wanted = line_of(self.alloc, Ok(Found::Taken(given)))?;
                let found = line_of(self.alloc, taken)?;
                self.expect(line, "the end", &wanted, &found)?;
            }
        }
        Ok(())
    }

    fn begin(&mut self, line: usize, title: &'a str) -> Result<()> {
        self.end(line)?;
        self.title = title;
        self.is_failed = false;
        self.preamble.clear();
        self.tally.cases = self.tally.cases.wrapping_add(1);
        Ok(())
    }

    // Handles a line that isn't a row. Within a case it may select another layer.
    fn say(&mut self, line: usize, text: &str) -> Result<()> {
        if !self.preamble.read(self.alloc, text)? {
            return self.expect(line, text, "a row", "none");
        }
        if let Some(world) = &mut self.world {
            world.layer = self.preamble.layer;
        }
        Ok(())
    }

    fn line(&mut self, line: usize, text: &'a str) -> Result<()> {
        if text.is_empty() || text.starts_with('#') {
            return Ok(());
        }
        if let Some(title) = text.strip_prefix("case ") {
            return self.begin(line, title);
        }
        if self.is_failed {
            return Ok(());
        }
        match text.split_once(" => ") {
            Some((asked, answer)) => self.row(line, asked, answer),
            None => self.say(line, text),
        }
    }

    fn lines(&mut self, text: &'a str) -> Result<()> {
        let mut last = 0;
        for (i, line) in text.lines().enumerate() {
            last = i.wrapping_add(1);
            self.line(last, line)?;
        }
        self.end(last)
    }
}

/// Plays the rows of a file with this text. Returns the counts, and a line for each row with another result.
pub fn play(alloc: Global, file: &str, text: &str) -> Result<(Tally, String)> {
    let mut player = Player {
        alloc,
        file,
        title: "",
        preamble: Preamble::new(alloc),
        world: None,
        is_failed: false,
        tally: Tally::default(),
        failures: String::new(alloc),
    };
    let outcome = player.lines(text);
    let Player {
        alloc: _,
        file: _,
        title: _,
        preamble: _,
        world,
        is_failed: _,
        tally,
        failures,
    } = player;
    if let Some(world) = world {
        world.end();
    }
    outcome?;
    Ok((tally, failures))
}
