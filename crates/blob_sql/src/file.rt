//! A file of the database: its faults and its crash.
ghost use Rattle.std.specs.Prelude.{◌≡◌, false};
ghost use Rattle.sqlite_disk.specs.Disk.{CountsFault};
ghost use Rattle.sqlite_disk.specs.Refusal.{finds_no_room};
ghost use Rattle.blob_faulty.specs.Certain.{IsNever, partial_resizes};

use blob_disk::BlobDisk;
use blob_faulty::Config;
use rand_xoshiro::Xoshiro256PlusPlus;
use sqlite_disk::{Crash, Disk, Tally};
use std::io;

pub type BlobFile = BlobDisk<Xoshiro256PlusPlus>;

/// Which calls of a file fail, in addition to its draws.
#[derive(Clone, Copy)]
pub struct Habits {
    /// A sync does nothing and reports success.
    pub is_lying: bool,
    /// Calls fail from some call on, and no crash changes the rates of the draws.
    pub is_fused: bool,
    /// How many calls succeed before the others fail. A crash ends that.
    pub calls: u64,
}

/// A file that fails and crashes by the draws of its disk and by its habits. It is one type, so that the database code is compiled
/// once.
///
/// Its contract says that a crash leaves all written bytes, synced or not. That satisfies `Disk`, also if a sync does nothing. It
/// doesn't implement `Crash`, because a crash leaves what its inner disk leaves.
#[derive(Drop)]
pub struct File {
    inner: BlobFile,
    is_lying: bool,
    is_fused: bool,
    calls_left: u64,
    refused: u64,
    sync_refused: bool,
}

impl File {
    pub fn new(inner: BlobFile, habits: Habits) -> File {
        File {
            inner,
            is_lying: habits.is_lying,
            is_fused: habits.is_fused,
            calls_left: habits.calls,
            refused: 0,
            sync_refused: false,
        }
    }
}

/// A disk that can crash.
pub trait Crashing: Disk {
    /// Crashes: bytes that aren't durable are lost by the disk's draws. Faults are then drawn with these rates. A fused
    /// file ignores the rates, and no call of it fails any more.
    fn crash_to(&mut self, config: Config)
        requires { IsNever (partial_resizes config.resize_rate) };
}

impl Crashing for File {
    fn crash_to(&mut self, config: Config) {
        self.inner.crash();
        self.calls_left = u64::MAX;
        self.sync_refused = false;
        if !self.is_fused {
            self.inner.set_config(config);
        }
    }
}

/// Counts a call, which fails if none is left.
fn spend(calls_left: &mut u64, refused: &mut u64) -> io::Result<()>
    ensures faults { CountsFault result refused.old refused.new }
    ensures kind { finds_no_room result ≡ false }
{
    if *calls_left == 0 {
        *refused = refused.saturating_add(1);
        return Err(io::Error::other("the machine has stopped"));
    }
    *calls_left -= 1;
    Ok(())
}

impl Disk for File {
    ghost use Rattle.std.specs.Prelude.{◌≡◌, ◌+◌, ◌&&◌, not, refl, true};
    ghost use Rattle.blob_disk.specs.Calls.{seen_of, is_usable_of, faults_of, counts_of};

    ghost seen = { λ d. seen_of d.inner };

    ghost may_leave = { λ d c. c ≡ seen_of d.inner };

    ghost is_usable = { λ d. is_usable_of d.inner && not d.sync_refused };

    ghost faults = { λ d. faults_of d.inner + d.refused };

    ghost tally_of = { λ d. counts_of d.inner };

    ghost key_of = { λ _. 0 };

    ghost is_clean = { λ _. true };

    ghost is_fair = { λ _ _. true };

    ghost fair_if_clean = { λ _ _ _. refl };

    ghost seen_may_stay = { λ _. refl };

    ghost is_mixing = { λ d. ⟦<BlobFile as Disk>⟧.is_mixing d.inner && not d.is_lying };

    fn mixes(&self) -> bool {
        self.inner.mixes() && !self.is_lying
    }

    fn key(&self) -> u64 {
        self.inner.key()
    }

    fn tally(&self) -> Tally {
        self.inner.tally()
    }

    fn may_be_used(&self) -> bool {
        self.inner.may_be_used() && !self.sync_refused
    }

    fn len(&mut self) -> io::Result<usize> {
        spend(&mut self.calls_left, &mut self.refused)?;
        self.inner.len()
    }

    fn read_at(&mut self, at: usize, buf: &mut [u8]) -> io::Result<()> {
        spend(&mut self.calls_left, &mut self.refused)?;
        self.inner.read_at(at, buf)
    }

    fn read_checked(&mut self, key: u64, want: u64, at: usize, buf: &mut [u8]) -> io::Result<()> {
        spend(&mut self.calls_left, &mut self.refused)?;
        self.inner.read_checked(key, want, at, buf)
    }

    fn write_at(&mut self, at: usize, bytes: &[u8]) -> io::Result<()> {
        spend(&mut self.calls_left, &mut self.refused)?;
        self.inner.write_at(at, bytes)
    }

    fn set_len(&mut self, len: usize) -> io::Result<()> {
        spend(&mut self.calls_left, &mut self.refused)?;
        self.inner.set_len(len)
    }

    fn sync(&mut self) -> io::Result<()> {
        if let Err(error) = spend(&mut self.calls_left, &mut self.refused) {
            self.sync_refused = true;
            return Err(error);
        }
        if self.is_lying {
            return Ok(());
        }
        self.inner.sync()
    }
}
