//! What is explored: the database's way to commit, what a crash keeps of a write, and a mistake.
ghost use Rattle.blob_faulty.specs.Certain.{IsNever, partial_resizes};

use crate::database::{Session, Visit};
use crate::machine::{Forgotten, Name};
use blob_base::{Probability, SectorSize};
use blob_faulty::{Config, PartialWriteMode, WriteConfig};

#[derive(Clone, Copy)]
pub struct Setting {
    pub name: &'static str,
    /// A commit needs one sync instead of two, since the disk guarantees that a crash leaves each byte of a write old
    /// or new.
    pub is_mixing: bool,
    /// The size of a sector of the file. A crash keeps or loses each sector of a write, and each write of the log.
    pub sector: u64,
    /// After how many frames the log is copied into the file.
    pub frames: usize,
    /// The syncs of the transactions that do nothing.
    pub forgotten: Forgotten,
    /// A transaction counts as acknowledged before its commit.
    pub is_early: bool,
}

/// Larger than the files, so that a crash keeps or loses each write as a whole.
const WHOLE: u64 = 1 << 30;

/// With two syncs the log is then copied into the file between the two transactions. With one sync it has fewer frames,
/// and isn't copied.
const COPIED: usize = 8;

const TWO: Setting = Setting {
    name: "two syncs, whole writes",
    is_mixing: false,
    sector: WHOLE,
    frames: COPIED,
    forgotten: Forgotten::Nothing,
    is_early: false,
};

const ONE: Setting = Setting {
    name: "one sync, whole writes",
    is_mixing: true,
    ..TWO
};

/// Nothing may be lost in these.
pub static RIGHT: [Setting; 3] = [
    TWO,
    ONE,
    Setting {
        name: "two syncs, halves of pages",
        sector: 2048,
        ..TWO
    },
];

/// Something must be lost in each of these.
pub static MISTAKES: [Setting; 6] = [
    Setting {
        name: "two syncs, none of the log",
        forgotten: Forgotten::Of(Name::Log),
        ..TWO
    },
    Setting {
        name: "two syncs, none of the file",
        forgotten: Forgotten::Of(Name::File),
        ..TWO
    },
    Setting {
        name: "two syncs, acknowledged early",
        is_early: true,
        ..TWO
    },
    Setting {
        name: "one sync, none of the log",
        forgotten: Forgotten::Of(Name::Log),
        ..ONE
    },
    Setting {
        name: "one sync, none of the file",
        forgotten: Forgotten::Of(Name::File),
        frames: 1,
        ..ONE
    },
    Setting {
        name: "one sync, acknowledged early",
        is_early: true,
        ..ONE
    },
];

impl Setting {
    pub fn session(&self, visit: Visit) -> Session {
        Session {
            visit,
            is_early: self.is_early,
            frames: self.frames,
        }
    }

    /// Returns the syncs of a session that do nothing.
    pub fn forgotten_in(&self, session: Session) -> Forgotten {
        match session.visit {
            Visit::Run => self.forgotten,
            _ => Forgotten::Nothing,
        }
    }

    /// Returns the rates of a file. No call fails by a draw. A crash keeps each sector with a rate of 1/2.
    pub fn config(&self, name: Name) -> Config
        ensures { IsNever (partial_resizes result.resize_rate) }
    {
        let size = match name {
            Name::Log => WHOLE,
            Name::File => self.sector,
        };
        let mode = match SectorSize::new(size) {
            Some(size) => PartialWriteMode::Sectors(size),
            None => PartialWriteMode::Subset,
        };
        Config::default().write(WriteConfig {
            failure_rate: Probability::ZERO,
            retention_rate: Probability::new(1, 2).unwrap_or(Probability::ZERO),
            mode,
        })
    }
}
