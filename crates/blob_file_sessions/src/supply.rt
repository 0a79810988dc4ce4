// Calls on files under the supply of power.
ghost use Rattle.std.specs.Prelude.{◌≡◌};
ghost use Rattle.blob_file_sessions.specs.Supplies.{AnswersSupplied, CutsPower, ReadsSupplied, WritesSupplied};
ghost use Rattle.blob_sessions.specs.Supplies.{state_of};
ghost use Rattle.blob_statuses.specs.Powers.{turned_on};

use crate::call::{FileCall, FileReply};
use crate::effects::effect_of_kind;
use crate::kept::KeptFiles;
use crate::kinds::{READ, WRITE};
use blob_sessions::ran::{DONE, POWER_LOSS};
use blob_sessions::{PowerState, Ran};

impl KeptFiles {
    /// Makes a call, as `apply` does, if the power permits it.
    ///
    /// `POWER_LOSS` changes nothing: no call was made.
    pub fn supplied_apply(&mut self, asked: &FileCall, path: &[u8], to: &[u8]) -> FileReply
        ensures { AnswersSupplied self.old asked.now path.now to.now self.new result }
    {
        if self.power.is_off && !self.power.permits(effect_of_kind(asked.kind)) {
            return FileReply::stopped(POWER_LOSS);
        }
        let reply = self.apply(asked, path, to);
        self.power
            .follow(effect_of_kind(asked.kind), reply.status == DONE);
        reply
    }

    /// Writes bytes through a descriptor, if the power permits it. `POWER_LOSS` changes nothing.
    pub fn supplied_write(&mut self, descriptor: u64, offset: u64, bytes: &[u8]) -> u32
        ensures { WritesSupplied self.old descriptor offset bytes.now self.new result }
    {
        let effect = effect_of_kind(WRITE);
        if !self.power.permits(effect) {
            return POWER_LOSS;
        }
        let status = self.write(descriptor, offset, bytes);
        self.power.follow(effect, status == DONE);
        status
    }

    /// Reads bytes through a descriptor, if the power permits it. `POWER_LOSS` changes nothing.
    pub fn supplied_read(&mut self, descriptor: u64, offset: u64, into: &mut [u8]) -> Ran
        ensures { ReadsSupplied self.old descriptor offset into.old into.new self.new result }
    {
        let effect = effect_of_kind(READ);
        if !self.power.permits(effect) {
            return Ran::stopped(POWER_LOSS);
        }
        let ran = self.read(descriptor, offset, into);
        self.power.follow(effect, ran.status == DONE);
        ran
    }

    /// Lets the power go off after this number of changing calls; with 0 it is off now.
    ///
    /// `POWER_LOSS` if it is off: nothing changes.
    pub fn power_off_after(&mut self, calls: u64) -> u32
        ensures { CutsPower self.old self.new calls result }
    {
        if self.power.is_off {
            return POWER_LOSS;
        }
        self.power.cut_after(calls);
        DONE
    }

    /// Turns the power on. Nothing is counted.
    pub fn power_on(&mut self)
        ensures { self.new ≡ record self.old { power = turned_on self.old.power } }
    {
        self.power.turn_on()
    }

    /// Returns the supply of power.
    pub fn power(&self) -> PowerState
        ensures { result ≡ state_of DONE self.now.power }
    {
        PowerState::of(DONE, &self.power)
    }
}
