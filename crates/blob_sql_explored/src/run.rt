//! One run: files with durable bytes, a session, a crash, and what is left.
use crate::database::{Seen, Session, run_session};
use crate::file::{Crashing, File};
use crate::machine::{Call, Machine, Name};
use crate::setting::Setting;
use crate::words::Words;
use anyhow::Result;
use blob_disk::BlobDisk;
use sqlite::Files;
use std::alloc::{AllocError, Global};
use std::rc::Rc;

/// The bytes of both files.
#[derive(Drop, PartialEq, Eq)]
pub struct Image {
    pub log: Vec<u8>,
    pub file: Vec<u8>,
}

impl Image {
    pub fn empty(alloc: Global) -> Image {
        Image {
            log: Vec::new(alloc),
            file: Vec::new(alloc),
        }
    }

    pub fn copy(&self, alloc: Global) -> Result<Image, AllocError> {
        Ok(Image {
            log: Vec::from_slice(alloc, &self.log)?,
            file: Vec::from_slice(alloc, &self.file)?,
        })
    }
}

/// What is decided of a run.
#[derive(Drop)]
pub struct Plan {
    /// After how many calls the power fails.
    pub limit: u64,
    /// The words of the draws of each file.
    pub log: Vec<u64>,
    pub file: Vec<u64>,
}

/// What a run did.
#[derive(Drop)]
pub struct Ran {
    pub seen: Seen,
    /// How many calls succeeded, and the one at which the power failed.
    pub calls: u64,
    pub failed: Option<Call>,
    /// How many draws each file made.
    pub of_log: u64,
    pub of_file: u64,
    pub left: Image,
}

fn file(
    alloc: Global,
    setting: &Setting,
    machine: &Rc<Machine>,
    name: Name,
    words: Vec<u64>,
    bytes: &[u8],
) -> Result<File> {
    let words = Words::new(words, name, machine.clone()?);
    let disk = BlobDisk::new(alloc, words, setting.config(name), setting.is_mixing)?;
    Ok(File::new(disk, bytes, name, machine.clone()?)?)
}

fn files(
    alloc: Global,
    setting: &Setting,
    machine: &Rc<Machine>,
    image: &Image,
    plan: Plan,
) -> Result<Files<File>> {
    Ok(Files {
        log: file(alloc, setting, machine, Name::Log, plan.log, &image.log)?,
        db: file(alloc, setting, machine, Name::File, plan.file, &image.file)?,
    })
}

/// Runs a session, crashes the files, and returns what is left.
fn run_files<D: Crashing + Drop>(
    alloc: Global,
    files: Files<D>,
    session: Session,
    seen: &mut Seen,
) -> Result<Image> {
    let mut files = run_session(alloc, files, session, seen);
    Ok(Image {
        log: files.log.crash(alloc)?,
        file: files.db.crash(alloc)?,
    })
}

/// Runs a session on these files, and crashes them.
pub fn run(
    alloc: Global,
    setting: &Setting,
    session: Session,
    image: &Image,
    plan: Plan,
) -> Result<Ran> {
    let machine = Rc::new(
        alloc,
        Machine::new(plan.limit, setting.forgotten_in(session)),
    )?;
    let files = files(alloc, setting, &machine, image, plan)?;
    let mut seen = Seen {
        done: 0,
        rows: None,
    };
    let left = run_files(alloc, files, session, &mut seen)?;
    Ok(Ran {
        seen,
        calls: machine.calls(),
        failed: machine.failed(),
        of_log: machine.draws(Name::Log),
        of_file: machine.draws(Name::File),
        left,
    })
}
