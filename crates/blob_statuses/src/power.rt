// The supply of power of a session. It goes off after a number of changing calls, and no call is made until the store has crashed.
ghost use Rattle.std.specs.Prelude.{◌≡◌};
ghost use Rattle.blob_statuses.specs.Powers.{after_call, always_on, counted, counting_down, permits, spent, turned_on};

use crate::effect::{Effect, Role};

/// A supply of power. Of all zeros it is on, and counts nothing.
#[derive(Clone, Copy)]
pub struct Power {
    /// How many changing calls were made, at most 2^64 - 1.
    pub changes: u64,
    /// How many changing calls are made before the power goes off, if they are counted.
    pub left: u64,
    pub is_counting: bool,
    pub is_off: bool,
    /// The store has crashed while the power was off, and hasn't reopened.
    pub has_crashed: bool,
}

impl Power {
    /// Returns a supply that is on, and counts nothing.
    pub fn on() -> Power
        ensures { result ≡ always_on }
    {
        Power {
            changes: 0,
            left: 0,
            is_counting: false,
            is_off: false,
            has_crashed: false,
        }
    }

    /// Lets the power go off after this number of changing calls; with 0 it is off now.
    pub fn cut_after(&mut self, calls: u64)
        ensures { self.new ≡ counting_down self.old calls }
    {
        self.left = calls;
        self.is_counting = calls > 0;
        self.is_off = calls == 0;
    }

    /// Turns it on. Nothing is counted.
    pub fn turn_on(&mut self)
        ensures { self.new ≡ turned_on self.old }
    {
        self.left = 0;
        self.is_counting = false;
        self.is_off = false;
        self.has_crashed = false;
    }

    /// Returns whether a call with this effect may be made.
    #[inline]
    pub fn permits(&self, effect: Effect) -> bool
        ensures { result ≡ permits self.now effect }
    {
        if !self.is_off {
            return true;
        }
        match effect.role {
            Role::Sets | Role::Crashes | Role::Restarts => true,
            Role::Closes | Role::Reopens => self.has_crashed,
            _ => false,
        }
    }

    /// Follows a call with this effect that was made: `is_done` unless it was refused.
    #[inline]
    pub fn follow(&mut self, effect: Effect, is_done: bool)
        ensures { self.new ≡ after_call self.old effect is_done }
    {
        if effect.changes {
            self.count();
        }
        match effect.role {
            Role::Crashes if is_done => self.has_crashed = self.is_off,
            Role::Reopens if is_done => {
                self.is_off = false;
                self.has_crashed = false;
            }
            Role::Restarts if is_done => self.is_off = false,
            _ => {}
        }
    }

    /// Counts a changing call.
    fn count(&mut self)
        ensures { self.new ≡ counted self.old }
    {
        if self.changes < u64::MAX {
            self.changes += 1;
        }
        if self.is_counting {
            self.spend();
        }
    }

    /// Takes a call from those that are left.
    fn spend(&mut self)
        ensures { self.new ≡ spent self.old }
    {
        if self.left <= 1 {
            self.left = 0;
            self.is_counting = false;
            self.is_off = true;
        } else {
            self.left -= 1;
        }
    }
}
