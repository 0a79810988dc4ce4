// What a program in another language holds of a laboratory.
ghost use Rattle.std.specs.Prelude.{◌≡◌, Some, None, is_some, option_map};

use crate::kept::Kept;
use crate::loose::Loose;
use std::alloc::Global;
use std::mem;

/// A laboratory, or none. All zeros are none. It can't be dropped or replaced, since what it holds would be lost: `close` ends that.
#[repr(C)]
pub struct Session {
    loose: Loose,
    is_open: bool,
    ghost tells: { is_open ≡ is_some loose.value },
}

impl Session {
    ghost use Rattle.blob_sessions.specs.Sessions.{kept_of};

    pub fn closed(alloc: Global) -> Session
        ensures { kept_of result ≡ None }
    {
        Session {
            loose: Loose::none(alloc),
            is_open: false,
        }
    }

    pub fn is_open(&self) -> bool
        ensures { result ≡ is_some (kept_of self.now) }
    {
        self.is_open
    }

    /// Opens a closed session with a laboratory.
    pub fn put(&mut self, kept: Box<Kept>)
        requires { kept_of self.old ≡ None }
        ensures { kept_of self.new ≡ Some kept.value }
    {
        let opened = Session {
            loose: Loose::of(kept),
            is_open: true,
        };
        let Session { loose, is_open: _ } = mem::replace(self, opened);
        loose.destroy_empty();
    }

    /// Takes out what it holds, and leaves it closed.
    pub fn take(&mut self, alloc: Global) -> Option<Box<Kept>>
        ensures was { option_map (λ kept. kept.value) result ≡ kept_of self.old }
        ensures now { kept_of self.new ≡ None }
    {
        let Session { loose, is_open } = mem::replace(self, Session::closed(alloc));
        if is_open {
            Some(loose.into_box())
        } else {
            loose.destroy_empty();
            None
        }
    }

    /// Closes it, and ends what it held.
    pub fn close(&mut self, alloc: Global)
        ensures { kept_of self.new ≡ None }
    {
        let _ = self.take(alloc);
    }
}
