//! The file as a disk of the kit's databases, and its crash.
use crate::BlobDisk;
use crate::calls::{Handle, Wrapper, count, lose, read, resize, sync, write};
use blob_base::{Blob, Error};
use rand_core::Rng;
use sqlite_disk::{Crash, Disk, Tally, digest_of};
use std::io;

impl<R: Rng> Disk for BlobDisk<R> {
    ghost use Rattle.std.specs.Prelude.{◌≡◌, ◌<◌, ℕ, List, IsTrue, true, false, refl, is_ok, length, OnOk, OnErr};
    ghost use Rattle.std.proofs.Common.{inl};
    ghost use Rattle.blob_faulty.specs.Wrapper.{inside};
    ghost use Rattle.blob_memory.specs.Store.{live};
    ghost use Rattle.sqlite_disk.specs.Digest.{digest};
    ghost use Rattle.sqlite_disk.specs.Disk.{CountsFault, Cut, Follows, Holds, Mixed, Only, Torn};
    ghost use Rattle.sqlite_disk.specs.Tally.{CountsCatch};
    ghost use Rattle.blob_disk.specs.Calls.{KeepsBytes, KeepsSettings, MayRead, StepsBytes, TellsCall, TellsTested, counts_of, durable_of, faults_of, is_usable_of, outcomes_of, seen_of};
    ghost use Rattle.blob_disk.specs.Outcomes.{outcomes};

    ghost seen = { λ d. live (inside d.blob) };

    ghost may_leave = { λ d. outcomes d.blob d.store };

    ghost is_usable = { λ d. d.usable };

    ghost faults = { λ d. d.faults };

    // no read lies
    ghost is_clean = { λ _. true };

    ghost tally_of = { λ d. record { caught = d.caught; refused = 0 } };

    ghost key_of = { λ _. 0 };

    ghost is_fair = { λ _ _. true };

    ghost is_mixing = { λ d. d.is_mixing };

    ghost fair_if_clean = { λ _ _ _. refl };

    ghost seen_may_stay = { λ d. inl refl };

    fn mixes(&self) -> bool {
        self.is_mixing
    }

    fn key(&self) -> u64 {
        0
    }

    fn tally(&self) -> Tally {
        Tally {
            caught: self.caught,
            refused: 0,
        }
    }

    fn may_be_used(&self) -> bool {
        self.usable
    }

    fn len(&mut self) -> io::Result<usize>
        ensures len { result ≡ Ok (length (seen_of self.old)) }
        ensures same { self.new ≡ self.old }
        ensures crash { (c : List ℕ) → outcomes_of self.new c → outcomes_of self.old c }
    {
        Ok(self.blob.size() as usize)
    }

    fn read_at(&mut self, at: usize, buf: &mut [u8]) -> io::Result<()>
        requires { IsTrue (is_usable_of self.old) }
        ensures read { OnOk result (Holds (seen_of self.old) at buf.new) }
        ensures answer { TellsCall (MayRead R.stream at (length buf.old)) self.old result }
        ensures faults { CountsFault result (faults_of self.old) (faults_of self.new) }
        ensures counts { counts_of self.new ≡ counts_of self.old }
        ensures bytes { KeepsBytes self.old self.new }
        ensures usable { is_usable_of self.new ≡ is_usable_of self.old }
        ensures settings { KeepsSettings self.old self.new }
    {
        match read(&mut self.store, &self.blob, at, buf) {
            Ok(()) => Ok(()),
            Err(error) => Err(count(&mut self.faults, error)),
        }
    }

    /// Counts what fails the test as caught.
    fn read_checked(&mut self, key: u64, want: u64, at: usize, buf: &mut [u8]) -> io::Result<()>
        requires { IsTrue (is_usable_of self.old) }
        ensures read { OnOk result (Holds (seen_of self.old) at buf.new) }
        ensures tested { OnOk result (digest key buf.new ≡ want) }
        ensures answer { TellsTested (MayRead R.stream at (length buf.old)) key want buf.new result self.old self.new }
        ensures faults { CountsFault result (faults_of self.old) (faults_of self.new) }
        ensures counts { CountsCatch result (counts_of self.old) (counts_of self.new) }
        ensures bytes { KeepsBytes self.old self.new }
        ensures usable { is_usable_of self.new ≡ is_usable_of self.old }
        ensures settings { KeepsSettings self.old self.new }
    {
        self.read_at(at, buf)?;
        if digest_of(key, buf) != want {
            self.faults = self.faults.saturating_add(1);
            self.caught = self.caught.saturating_add(1);
            return Err(io::ErrorKind::InvalidData.into());
        }
        Ok(())
    }

    fn write_at(&mut self, at: usize, bytes: &[u8]) -> io::Result<()>
        requires { IsTrue (is_usable_of self.old) }
        ensures written { OnOk result (0 < length bytes.now → Holds (seen_of self.new) at bytes.now) }
        ensures answer { TellsCall (λ b w. ⟦<Handle as Blob<Wrapper<R>>>⟧.allows_write b w at bytes.now false) self.old result }
        ensures faults { CountsFault result (faults_of self.old) (faults_of self.new) }
        ensures counts { counts_of self.new ≡ counts_of self.old }
        ensures durable { OnOk result (durable_of self.new ≡ durable_of self.old) }
        ensures bytes { StepsBytes (Mixed at bytes.now) self.old self.new }
        ensures others { Torn at (length bytes.now) (seen_of self.old) (seen_of self.new) }
        ensures crash { Follows (Torn at (length bytes.now)) (outcomes_of self.old) (outcomes_of self.new) }
        ensures usable { is_usable_of self.new ≡ is_usable_of self.old }
        ensures settings { KeepsSettings self.old self.new }
    {
        match write(&mut self.store, &mut self.blob, at, bytes) {
            Ok(()) => Ok(()),
            Err(error) => Err(count(&mut self.faults, error)),
        }
    }

    fn set_len(&mut self, len: usize) -> io::Result<()>
        requires { IsTrue (is_usable_of self.old) }
        ensures len { OnOk result (length (seen_of self.new) ≡ len) }
        ensures answer { TellsCall (λ b w. ⟦<Handle as Blob<Wrapper<R>>>⟧.allows_resize b w len) self.old result }
        ensures faults { CountsFault result (faults_of self.old) (faults_of self.new) }
        ensures counts { counts_of self.new ≡ counts_of self.old }
        ensures durable { durable_of self.new ≡ durable_of self.old }
        ensures bytes { StepsBytes (Cut len) self.old self.new }
        ensures usable { is_usable_of self.new ≡ is_usable_of self.old }
        ensures settings { KeepsSettings self.old self.new }
    {
        match resize(&mut self.store, &mut self.blob, len) {
            Ok(()) => Ok(()),
            Err(error) => Err(count(&mut self.faults, error)),
        }
    }

    fn sync(&mut self) -> io::Result<()>
        requires { IsTrue (is_usable_of self.old) }
        ensures durable { OnOk result (Only (seen_of self.old) (outcomes_of self.new)) }
        ensures answer { TellsCall ⟦<Handle as Blob<Wrapper<R>>>⟧.allows_sync self.old result }
        ensures faults { CountsFault result (faults_of self.old) (faults_of self.new) }
        ensures counts { counts_of self.new ≡ counts_of self.old }
        ensures seen { seen_of self.new ≡ seen_of self.old }
        ensures kept { OnErr result (KeepsBytes self.old self.new) }
        ensures crash { (c : List ℕ) → outcomes_of self.new c → outcomes_of self.old c }
        ensures usable { is_usable_of self.new ≡ is_ok result }
        ensures settings { KeepsSettings self.old self.new }
    {
        match sync(&mut self.store, &mut self.blob) {
            Ok(()) => Ok(()),
            Err(error) => {
                self.usable = false;
                Err(count(&mut self.faults, error))
            }
        }
    }
}

impl<R: Rng> BlobDisk<R> {
    ghost use Rattle.std.specs.Prelude.{◌≡◌, ℕ, List, true, OnOk, OnErr};
    ghost use Rattle.blob_header.specs.Refusals.{error_of};
    ghost use Rattle.blob_disk.specs.Calls.{blob_of, counts_of, crash_of, faults_of, is_usable_of, outcomes_of, seen_of, store_of};
    ghost use Rattle.blob_disk.specs.Crashes.{IsLeft, MayCrash};
    ghost use Rattle.blob_disk.specs.Drawn.{MayDraw, rates_of};

    /// Stops the machine: of what wasn't synced there is what is drawn, and the file is opened again, usable.
    ///
    /// # Errors
    ///
    /// After an error the file still holds all that was written, as when only the process dies.
    /// - `Memory` if memory runs out for the crash or the open.
    /// - `Injected` if the draw of the open, which comes after those of the crash, is true.
    pub fn try_crash(&mut self) -> Result<(), Error>
        ensures answer { MayCrash R.stream (store_of self.old) (error_of result) }
        ensures drawn { OnOk result (IsLeft R.stream (blob_of self.old) (store_of self.old) (seen_of self.new)) }
        ensures lost { OnOk result (MayDraw self.old (seen_of self.new)) }
        ensures kept { OnErr result (seen_of self.new ≡ seen_of self.old) }
        ensures left { outcomes_of self.old (seen_of self.new) }
        ensures crash { (c : List ℕ) → outcomes_of self.new c → outcomes_of self.old c }
        ensures usable { is_usable_of self.new ≡ true }
        ensures mixing { ⟦<BlobDisk<R> as Disk>⟧.is_mixing self.new ≡ ⟦<BlobDisk<R> as Disk>⟧.is_mixing self.old }
        ensures faults { faults_of self.new ≡ faults_of self.old }
        ensures tally { counts_of self.new ≡ counts_of self.old }
        ensures rates { rates_of self.new ≡ rates_of self.old }
        ensures last { crash_of self.new ≡ crash_of self.old }
    {
        self.usable = true;
        lose(&mut self.store, &mut self.blob)
    }
}

impl<R: Rng> Crash for BlobDisk<R> {
    ghost use Rattle.std.specs.Prelude.{◌≡◌, ℕ, List, true, OnOk, OnErr};
    ghost use Rattle.blob_header.specs.Refusals.{error_of};
    ghost use Rattle.blob_disk.specs.Calls.{KeepsSettings, blob_of, counts_of, crash_of, faults_of, is_usable_of, outcomes_of, seen_of, store_of};
    ghost use Rattle.blob_disk.specs.Crashes.{IsLeft, MayCrash};

    /// Crashes as `try_crash` does. From then on `last_crash` returns the result.
    fn crash(&mut self)
        ensures answer { MayCrash R.stream (store_of self.old) (error_of (crash_of self.new)) }
        ensures drawn { OnOk (crash_of self.new) (IsLeft R.stream (blob_of self.old) (store_of self.old) (seen_of self.new)) }
        ensures kept { OnErr (crash_of self.new) (seen_of self.new ≡ seen_of self.old) }
        ensures left { outcomes_of self.old (seen_of self.new) }
        ensures usable { is_usable_of self.new ≡ true }
        ensures faults { faults_of self.new ≡ faults_of self.old }
        ensures counts { counts_of self.new ≡ counts_of self.old }
        ensures settings { KeepsSettings self.old self.new }
        ensures crash { (c : List ℕ) → outcomes_of self.new c → outcomes_of self.old c }
    {
        self.crashed = self.try_crash();
    }
}
