//! Copies of edits, for a second file system in the same state.
ghost use Rattle.std.specs.Prelude.{◌≡◌};
ghost use Rattle.blob_directory.specs.Copies.{IsCopy};
ghost use Rattle.blob_directory.specs.Names.{change_of, edit_of};

use crate::edit::{Change, Edit};
use crate::unsettled::Unsettled;
use std::alloc::AllocError;

impl Clone for Change {
    ghost is_clone = { λ a b. change_of b ≡ change_of a };

    /// Returns a copy. The only error is out of memory.
    fn clone(&self) -> Result<Change, AllocError> {
        Ok(Change {
            entry: Vec::from_slice(*self.entry.allocator(), &self.entry)?,
            to: self.to,
        })
    }
}

impl Clone for Edit {
    ghost is_clone = { λ a b. edit_of b ≡ edit_of a };

    /// Returns a copy. The only error is out of memory.
    fn clone(&self) -> Result<Edit, AllocError> {
        let second = match &self.second {
            None => None,
            Some(second) => Some(second.clone()?),
        };
        Ok(Edit {
            first: self.first.clone()?,
            second,
        })
    }
}

impl Clone for Unsettled {
    ghost is_clone = { IsCopy };

    /// Returns a copy. The only error is out of memory.
    fn clone(&self) -> Result<Unsettled, AllocError> {
        Ok(Unsettled {
            edit: self.edit.clone()?,
            record: self.record,
            offset: self.offset,
            number: self.number,
            about: self.about,
            is_wanted: self.is_wanted,
            is_seen: self.is_seen,
            is_followed: self.is_followed,
        })
    }
}
