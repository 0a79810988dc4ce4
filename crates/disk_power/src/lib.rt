//! A disk whose power fails again in each session. The toolchain's `Fuse` fails once.
#![tactic(auto)]

ghost use Rattle.std.specs.Prelude.{◌≡◌, ◌+◌, ◌-◌, ◌==◌, ◌↔◌, ◌&&◌, not, false, IsErr};
ghost use Rattle.sqlite_disk.specs.Disk.{CountsFault};
ghost use Rattle.sqlite_disk.specs.Refusal.{finds_no_room};

use sqlite_disk::{Crash, Disk, Tally};
use std::io;

/// A disk that passes some calls on and fails every later one, until it crashes. The crash starts the next session, with
/// a number of calls of its own.
#[derive(Drop)]
pub struct Power<D: Disk> {
    disk: D,
    calls_left: u64,
    /// The calls of each session.
    sessions: Vec<u64>,
    /// How many sessions have started.
    started: usize,
    refused: u64,
    sync_refused: bool,
}

/// The calls of a session. The power doesn't fail in a session that isn't listed.
fn calls_of(sessions: &[u64], session: usize) -> u64 {
    if session < sessions.len() {
        return sessions[session];
    }
    u64::MAX
}

impl<D: Disk> Power<D> {
    ghost use Rattle.disk_power.specs.Power.{IsFresh, disk_of};

    /// Returns a disk whose power fails after `sessions[i]` calls of session `i`, and doesn't fail in later sessions.
    pub fn new(disk: D, sessions: Vec<u64>) -> Power<D>
        ensures disk { disk_of result ≡ disk }
        ensures fresh { IsFresh result }
    {
        let calls_left = calls_of(&sessions, 0);
        Power {
            disk,
            calls_left,
            sessions,
            started: 1,
            refused: 0,
            sync_refused: false,
        }
    }

    /// Returns the disk that the calls go to.
    pub fn disk(&self) -> &D
        ensures { result.now ≡ disk_of self.now }
    {
        &self.disk
    }
}

/// Counts a call, which fails if the power has failed.
fn spend(calls_left: &mut u64, refused: &mut u64) -> io::Result<()>
    ensures faults { CountsFault result refused.old refused.new }
    ensures kind { finds_no_room result ≡ false }
    ensures off { IsErr result ↔ (calls_left.old ≡ 0) }
    ensures spent { calls_left.new ≡ calls_left.old - 1 }
{
    if *calls_left == 0 {
        *refused = refused.saturating_add(1);
        return Err(io::Error::other("the power has failed"));
    }
    *calls_left -= 1;
    Ok(())
}

impl<D: Disk> Disk for Power<D> {
    ghost seen = { λ p. D.Disk.seen p.disk };

    ghost may_leave = { λ p. D.Disk.may_leave p.disk };

    ghost is_usable = { λ p. D.Disk.is_usable p.disk && not p.sync_refused };

    ghost faults = { λ p. D.Disk.faults p.disk + p.refused };

    ghost tally_of = { λ p. D.Disk.tally_of p.disk };

    ghost is_rotten = { λ p. D.Disk.is_rotten p.disk };

    ghost key_of = { λ p. D.Disk.key_of p.disk };

    ghost is_frozen = { λ p. p.calls_left == 0 };

    ghost is_clean = { λ p. D.Disk.is_clean p.disk };

    ghost is_fair = { λ p. D.Disk.is_fair p.disk };

    ghost fair_if_clean = { λ p. D.Disk.fair_if_clean p.disk };

    ghost seen_may_stay = { λ p. D.Disk.seen_may_stay p.disk };

    ghost is_mixing = { λ p. D.Disk.is_mixing p.disk };

    fn mixes(&self) -> bool {
        self.disk.mixes()
    }

    fn key(&self) -> u64 {
        self.disk.key()
    }

    fn tally(&self) -> Tally {
        self.disk.tally()
    }

    fn may_be_used(&self) -> bool {
        self.disk.may_be_used() && !self.sync_refused
    }

    fn len(&mut self) -> io::Result<usize> {
        spend(&mut self.calls_left, &mut self.refused)?;
        self.disk.len()
    }

    fn read_at(&mut self, at: usize, buf: &mut [u8]) -> io::Result<()> {
        spend(&mut self.calls_left, &mut self.refused)?;
        self.disk.read_at(at, buf)
    }

    fn read_checked(&mut self, key: u64, want: u64, at: usize, buf: &mut [u8]) -> io::Result<()> {
        spend(&mut self.calls_left, &mut self.refused)?;
        self.disk.read_checked(key, want, at, buf)
    }

    fn write_at(&mut self, at: usize, bytes: &[u8]) -> io::Result<()> {
        spend(&mut self.calls_left, &mut self.refused)?;
        self.disk.write_at(at, bytes)
    }

    fn set_len(&mut self, len: usize) -> io::Result<()> {
        spend(&mut self.calls_left, &mut self.refused)?;
        self.disk.set_len(len)
    }

    fn sync(&mut self) -> io::Result<()> {
        if let Err(error) = spend(&mut self.calls_left, &mut self.refused) {
            self.sync_refused = true;
            return Err(error);
        }
        self.disk.sync()
    }
}

/// The power is back, until it fails in the next session.
impl<D: Crash> Crash for Power<D> {
    fn crash(&mut self) {
        self.disk.crash();
        self.calls_left = calls_of(&self.sessions, self.started);
        self.started = self.started.saturating_add(1);
        self.sync_refused = false;
    }
}
