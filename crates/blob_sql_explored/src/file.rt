//! A file of the machine.
ghost use Rattle.std.specs.Prelude.{◌≡◌, false};
ghost use Rattle.sqlite_disk.specs.Disk.{CountsFault};
ghost use Rattle.sqlite_disk.specs.Refusal.{finds_no_room};

use crate::machine::{Call, Kind, Machine, Name};
use crate::words::Words;
use anyhow::{Result, bail};
use blob_disk::BlobDisk;
use sqlite_disk::{Crash, Disk, Tally};
use std::alloc::Global;
use std::io;
use std::rc::Rc;

/// A disk of a machine. Its calls fail once the power has failed, and the machine may forget its syncs.
///
/// Its contract says that a crash leaves all written bytes, synced or not. That satisfies `Disk`, also if a sync does
/// nothing. It doesn't implement `Crash`, because a crash leaves what its inner disk leaves.
#[derive(Drop)]
pub struct File {
    inner: BlobDisk<Words>,
    name: Name,
    machine: Rc<Machine>,
    refused: u64,
    sync_refused: bool,
}

/// Makes these bytes durable.
fn fill(disk: &mut BlobDisk<Words>, bytes: &[u8]) -> io::Result<()> {
    if !disk.may_be_used() {
        return Err(io::Error::other("a file can't be used"));
    }
    disk.write_at(0, bytes)?;
    disk.sync()
}

/// Returns all bytes.
fn read_all(alloc: Global, disk: &mut BlobDisk<Words>) -> Result<Vec<u8>> {
    if !disk.may_be_used() {
        bail!("a file can't be used");
    }
    let len = disk.len()?;
    let mut bytes = Vec::new(alloc);
    bytes.resize(len, 0)?;
    disk.read_at(0, &mut bytes)?;
    Ok(bytes)
}

impl File {
    /// Returns a file in which these bytes are durable.
    pub fn new(
        mut inner: BlobDisk<Words>,
        bytes: &[u8],
        name: Name,
        machine: Rc<Machine>,
    ) -> io::Result<File> {
        fill(&mut inner, bytes)?;
        Ok(File {
            inner,
            name,
            machine,
            refused: 0,
            sync_refused: false,
        })
    }
}

/// A disk that can crash. Its contract doesn't say what a crash leaves.
pub trait Crashing: Disk {
    /// Crashes: bytes that aren't durable are lost by the disk's draws. Returns what is left.
    fn crash(&mut self, alloc: Global) -> Result<Vec<u8>>;
}

impl Crashing for File {
    fn crash(&mut self, alloc: Global) -> Result<Vec<u8>> {
        self.inner.crash();
        read_all(alloc, &mut self.inner)
    }
}

/// Counts a call, which fails if the power has failed.
fn spend(machine: &Machine, name: Name, kind: Kind, refused: &mut u64) -> io::Result<()>
    ensures faults { CountsFault result refused.old refused.new }
    ensures kind { finds_no_room result ≡ false }
{
    if let Err(error) = machine.spend(Call { name, kind }) {
        *refused = refused.saturating_add(1);
        return Err(error);
    }
    Ok(())
}

impl Disk for File {
    ghost use Rattle.std.specs.Prelude.{◌≡◌, ◌+◌, ◌&&◌, not, refl, true};
    ghost use Rattle.blob_disk.specs.Calls.{seen_of, is_usable_of, faults_of, counts_of};

    ghost seen = { λ d. seen_of d.inner };

    ghost may_leave = { λ d c. c ≡ seen_of d.inner };

    ghost is_usable = { λ d. is_usable_of d.inner && not d.sync_refused };

    ghost faults = { λ d. faults_of d.inner + d.refused };

    ghost tally_of = { λ d. counts_of d.inner };

    ghost key_of = { λ _. 0 };

    ghost is_clean = { λ _. true };

    ghost is_fair = { λ _ _. true };

    ghost fair_if_clean = { λ _ _ _. refl };

    ghost seen_may_stay = { λ _. refl };

    ghost is_mixing = { λ d. ⟦<BlobDisk<Words> as Disk>⟧.is_mixing d.inner };

    fn mixes(&self) -> bool {
        self.inner.mixes()
    }

    fn key(&self) -> u64 {
        self.inner.key()
    }

    fn tally(&self) -> Tally {
        self.inner.tally()
    }

    fn may_be_used(&self) -> bool {
        self.inner.may_be_used() && !self.sync_refused
    }

    fn len(&mut self) -> io::Result<usize> {
        spend(&self.machine, self.name, Kind::Len, &mut self.refused)?;
        self.inner.len()
    }

    fn read_at(&mut self, at: usize, buf: &mut [u8]) -> io::Result<()> {
        spend(&self.machine, self.name, Kind::Read, &mut self.refused)?;
        self.inner.read_at(at, buf)
    }

    fn read_checked(&mut self, key: u64, want: u64, at: usize, buf: &mut [u8]) -> io::Result<()> {
        spend(&self.machine, self.name, Kind::Read, &mut self.refused)?;
        self.inner.read_checked(key, want, at, buf)
    }

    fn write_at(&mut self, at: usize, bytes: &[u8]) -> io::Result<()> {
        spend(&self.machine, self.name, Kind::Write, &mut self.refused)?;
        self.inner.write_at(at, bytes)
    }

    fn set_len(&mut self, len: usize) -> io::Result<()> {
        spend(&self.machine, self.name, Kind::Resize, &mut self.refused)?;
        self.inner.set_len(len)
    }

    fn sync(&mut self) -> io::Result<()> {
        if let Err(error) = spend(&self.machine, self.name, Kind::Sync, &mut self.refused) {
            self.sync_refused = true;
            return Err(error);
        }
        if self.machine.forgets(self.name) {
            return Ok(());
        }
        self.inner.sync()
    }
}
