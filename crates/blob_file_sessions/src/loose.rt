// A box as its pointer, or none, in a struct that C may hold.
ghost use Rattle.std.specs.Prelude.{◌≡◌, Option, Some, None, IsSome};
ghost use Rattle.std.specs.contracts.impls.GlobalAllocator.TheImpl.{ghosts};
ghost use Rattle.blob_sessions.specs.Owned.{slot_owns};
ghost use Rattle.blob_file_sessions.specs.Owned.{kept_code};
ghost use Rattle.blob_file_sessions.specs.declared.kept.KeptFiles.{KeptFiles};
ghost use Rattle.blob_file_sessions.specs.contracts.kept.KeptFiles.{the_row as kept-row};

use crate::kept::KeptFiles;
use std::alloc::Global;
use std::marker::Model;

/// An opaque type: C doesn't access what the pointer points to.
#[repr(C)]
pub struct Opaque {
    byte: u8,
}

///
/// It can't be dropped, since the box would be lost: `into_box` takes it out, or `destroy_empty` ends it if it has none.
#[repr(C)]
pub struct Loose {
    at: *mut Opaque,
    alloc: Global,
    pub ghost value: { Option KeptFiles } by { kept_code },
}

impl Model for Loose {
    ghost also_owns = { λ l. slot_owns (ghosts.dealloc_token l.alloc) kept-row l.at l.value };
}

impl Loose {
    pub fn none(alloc: Global) -> Loose
        ensures { result.value ≡ None }
    {
        Loose {
            at: std::ptr::null_mut(),
            alloc,
        }
    }

    pub fn of(value: Box<KeptFiles>) -> Loose
        ensures { result.value ≡ Some value.value }
    {
        let (at, alloc) = Box::into_raw_with_allocator(value);
        let at = at as *mut Opaque;
        Loose { at, alloc }
    }

    pub fn into_box(self) -> Box<KeptFiles>
        requires { IsSome self.value }
        ensures { self.value ≡ Some result.value }
    {
        let Loose { at, alloc } = self;
        let at = at as *mut KeptFiles;
        unsafe { Box::from_raw(alloc, at) }
    }

    /// Ends it. It has no box.
    pub fn destroy_empty(self)
        requires { self.value ≡ None }
    {
        let Loose { at: _, alloc: _ } = self;
    }
}
