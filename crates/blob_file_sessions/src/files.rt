// What a program in another language holds of a file system.
ghost use Rattle.std.specs.Prelude.{◌≡◌, Some, None, is_some, option_map};

use crate::kept::KeptFiles;
use crate::loose::Loose;
use std::alloc::Global;
use std::mem;

/// A file system, or none. All zeros are none. It can't be dropped or replaced, since what it holds would be lost: `close` ends that.
#[repr(C)]
pub struct Files {
    loose: Loose,
    is_open: bool,
    ghost tells: { is_open ≡ is_some loose.value },
}

impl Files {
    ghost use Rattle.blob_file_sessions.specs.Held.{files_of};

    pub fn closed(alloc: Global) -> Files
        ensures { files_of result ≡ None }
    {
        Files {
            loose: Loose::none(alloc),
            is_open: false,
        }
    }

    pub fn is_open(&self) -> bool
        ensures { result ≡ is_some (files_of self.now) }
    {
        self.is_open
    }

    /// Opens closed files with a file system.
    pub fn put(&mut self, kept: Box<KeptFiles>)
        requires { files_of self.old ≡ None }
        ensures { files_of self.new ≡ Some kept.value }
    {
        let opened = Files {
            loose: Loose::of(kept),
            is_open: true,
        };
        let Files { loose, is_open: _ } = mem::replace(self, opened);
        loose.destroy_empty();
    }

    /// Takes out what it holds, and leaves it closed.
    pub fn take(&mut self, alloc: Global) -> Option<Box<KeptFiles>>
        ensures was { option_map (λ kept. kept.value) result ≡ files_of self.old }
        ensures now { files_of self.new ≡ None }
    {
        let Files { loose, is_open } = mem::replace(self, Files::closed(alloc));
        if is_open {
            Some(loose.into_box())
        } else {
            loose.destroy_empty();
            None
        }
    }

    /// Closes it, and ends what it held.
    pub fn close(&mut self, alloc: Global)
        ensures { files_of self.new ≡ None }
    {
        let _ = self.take(alloc);
    }
}
