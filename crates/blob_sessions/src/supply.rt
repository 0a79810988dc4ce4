// Calls under the supply of power.
ghost use Rattle.std.specs.Prelude.{◌≡◌};
ghost use Rattle.blob_sessions.specs.Applying.{AppliesSupplied};
ghost use Rattle.blob_sessions.specs.Sessions.{ReadsSupplied, WritesSupplied};
ghost use Rattle.blob_sessions.specs.Supplies.{CutsPower, state_of};
ghost use Rattle.blob_statuses.specs.Powers.{always_on, turned_on};

use crate::effect::Role;
use crate::effects::{changing, effect_of_kind, of_role};
use crate::kept::Kept;
use crate::power::Power;
use crate::ran::{DONE, POWER_LOSS};
use crate::typed::{TypedCall, TypedReply};

/// The supply of power of a session.
#[repr(C)]
#[derive(Clone, Copy)]
pub struct PowerState {
    /// `DONE`, or `CLOSED`.
    pub status: u32,
    pub is_off: bool,
    /// The store has crashed while the power was off, and hasn't reopened.
    pub has_crashed: bool,
    pub is_counting: bool,
    /// How many changing calls were made, at most 2^64 - 1.
    pub changes: u64,
    /// How many changing calls are made before the power goes off, if they are counted.
    pub left: u64,
}

impl PowerState {
    /// Without a session.
    pub fn stopped(status: u32) -> PowerState
        ensures { result ≡ state_of status always_on }
    {
        PowerState::of(status, &Power::on())
    }

    /// Returns a supply, with a status.
    pub fn of(status: u32, power: &Power) -> PowerState
        ensures { result ≡ state_of status power.now }
    {
        PowerState {
            status,
            is_off: power.is_off,
            has_crashed: power.has_crashed,
            is_counting: power.is_counting,
            changes: power.changes,
            left: power.left,
        }
    }
}

impl Kept {
    /// Makes a typed call, as `apply` does, if the power permits it.
    ///
    /// `POWER_LOSS` changes nothing: no call was made.
    pub fn supplied_apply(&mut self, asked: &TypedCall, partition: &[u8], name: &[u8]) -> TypedReply
        ensures { AppliesSupplied self.old self.new asked.now partition.now name.now result }
    {
        if self.power.is_off && !self.power.permits(effect_of_kind(asked.kind)) {
            return TypedReply::stopped(POWER_LOSS);
        }
        let reply = self.apply(asked, partition, name);
        self.power
            .follow(effect_of_kind(asked.kind), reply.status == DONE);
        reply
    }

    /// Writes bytes through a handle, if the power permits it. `POWER_LOSS` changes nothing.
    pub fn supplied_write(&mut self, handle: usize, offset: u64, bytes: &[u8], sync: bool) -> u32
        ensures { WritesSupplied self.old self.new handle offset bytes.now sync result }
    {
        let effect = changing(true, sync);
        if !self.power.permits(effect) {
            return POWER_LOSS;
        }
        let status = self.write(handle, offset, bytes, sync);
        self.power.follow(effect, status == DONE);
        status
    }

    /// Reads as many bytes through a handle as `into` has, if the power permits it. `POWER_LOSS` changes nothing.
    pub fn supplied_read(&mut self, handle: usize, offset: u64, into: &mut [u8]) -> u32
        ensures { ReadsSupplied self.old self.new handle offset result into.old into.new }
    {
        let effect = of_role(true, Role::Ordinary);
        if !self.power.permits(effect) {
            return POWER_LOSS;
        }
        let status = self.read(handle, offset, into);
        self.power.follow(effect, status == DONE);
        status
    }

    /// Lets the power go off after this number of changing calls; with 0 it is off now.
    ///
    /// `POWER_LOSS` if it is off: nothing changes.
    pub fn power_off_after(&mut self, calls: u64) -> u32
        ensures { CutsPower self.old self.new calls result }
    {
        if self.power.is_off {
            return POWER_LOSS;
        }
        self.power.cut_after(calls);
        DONE
    }

    /// Turns the power on. Nothing is counted.
    pub fn power_on(&mut self)
        ensures { self.new ≡ record self.old { power = turned_on self.old.power } }
    {
        self.power.turn_on()
    }

    /// Returns the supply of power.
    pub fn power(&self) -> PowerState
        ensures { result ≡ state_of DONE self.now.power }
    {
        PowerState::of(DONE, &self.power)
    }
}
