//! A machine with two files. Its power fails at one call.
ghost use Rattle.std.specs.Prelude.{◌≡◌, false};
ghost use Rattle.sqlite_disk.specs.Refusal.{finds_no_room};

use std::cell::Cell;
use std::io;

/// One of the two files of a database.
#[derive(Clone, Copy, PartialEq, Eq)]
pub enum Name {
    Log,
    File,
}

#[derive(Clone, Copy)]
pub enum Kind {
    Len,
    Read,
    Write,
    Resize,
    Sync,
}

/// A call of one of the two files.
#[derive(Clone, Copy)]
pub struct Call {
    pub name: Name,
    pub kind: Kind,
}

/// The syncs that do nothing and report success.
#[derive(Clone, Copy)]
pub enum Forgotten {
    Nothing,
    /// Those of one file.
    Of(Name),
}

/// The power of both files, and what they count.
#[derive(Drop)]
pub struct Machine {
    /// How many calls succeed before the power fails.
    limit: u64,
    forgotten: Forgotten,
    /// How many calls have succeeded.
    calls: Cell<u64>,
    /// The call at which the power failed.
    failed: Cell<Option<Call>>,
    /// How many draws the log and the file have made.
    of_log: Cell<u64>,
    of_file: Cell<u64>,
}

impl Machine {
    pub fn new(limit: u64, forgotten: Forgotten) -> Machine {
        Machine {
            limit,
            forgotten,
            calls: Cell::new(0),
            failed: Cell::new(None),
            of_log: Cell::new(0),
            of_file: Cell::new(0),
        }
    }

    pub fn calls(&self) -> u64 {
        self.calls.get()
    }

    pub fn failed(&self) -> Option<Call> {
        self.failed.get()
    }

    /// Returns the draws of a file.
    pub fn draws(&self, name: Name) -> u64 {
        match name {
            Name::Log => self.of_log.get(),
            Name::File => self.of_file.get(),
        }
    }

    /// Counts a draw of a file.
    pub fn count_draw(&self, name: Name) {
        match name {
            Name::Log => self.of_log.set(self.of_log.get().saturating_add(1)),
            Name::File => self.of_file.set(self.of_file.get().saturating_add(1)),
        }
    }

    /// Returns whether a sync of this file does nothing.
    pub fn forgets(&self, name: Name) -> bool {
        match self.forgotten {
            Forgotten::Nothing => false,
            Forgotten::Of(of) => of == name,
        }
    }

    /// Counts a call, which fails if the power has failed.
    pub fn spend(&self, call: Call) -> io::Result<()>
        ensures kind { finds_no_room result ≡ false }
    {
        let calls = self.calls.get();
        if calls < self.limit {
            self.calls.set(calls + 1);
            return Ok(());
        }
        if self.failed.get().is_none() {
            self.failed.set(Some(call));
        }
        Err(io::Error::other("the power has failed"))
    }
}
