//! A journal that settles the names of a tree.
ghost use Rattle.std.specs.Prelude.{◌≡◌, ◌+◌, ◌++◌, length, IfOk, OnOk};
ghost use Rattle.blob_packed.specs.Records.{FitFrom, IsPacked};
ghost use Rattle.blob_directory.specs.Checkpoints.{FitsJournal, Gives, bindings_in, packed_names, settled_records};
ghost use Rattle.blob_directory.specs.Records.{found_in};
ghost use Rattle.blob_directory.specs.Settled.{AreSettled};
ghost use Rattle.blob_directory.specs.Tables.{bound};

use crate::edit::{Binding, Edit, entry_of};
use crate::record::edit_bytes;
use crate::tree::Tree;
use blob_packed::record::put_record;
use std::alloc::{AllocError, Global};

/// Appends a settled record for each name of a directory, with numbers from one on. Returns the number of the next
/// record. Fails only if memory runs out.
fn put_names(
    alloc: Global,
    bytes: &mut Vec<u8>,
    number: u64,
    directory: u64,
    names: &[(Vec<u8>, Binding)],
) -> Result<u64, AllocError>
    ensures bytes { OnOk result (bytes.new.items ≡ bytes.old.items ++ packed_names number directory names.now) }
    ensures number { IfOk result (λ next. next ≡ number + length names.now) }
    ensures fit { OnOk result (FitFrom number (settled_records (bindings_in directory names.now))) }
{
    let mut next = number;
    for (name, to) in names {
        let entry = entry_of(alloc, directory, name)?;
        let changes = edit_bytes(alloc, &Edit::one(entry, Some(*to)))?;
        put_record(bytes, next, &changes, true)?;
        // 2^64 records don't fit in memory
        let Some(more) = next.checked_add(1) else {
            return Err(AllocError);
        };
        next = more;
    }
    Ok(next)
}

/// Returns the bytes of a journal that settles the names of a tree, and how many records it has. Fails only if memory
/// runs out.
pub fn checkpoint(alloc: Global, tree: &Tree) -> Result<(Vec<u8>, u64), AllocError>
    ensures gives { IfOk result (λ r. FitsJournal tree.now → Gives r.0.items (bound tree.now.names)) }
    ensures packed { IfOk result (λ r. IsPacked r.1 r.0.items) }
    ensures settled { IfOk result (λ r. AreSettled (found_in r.0.items)) }
{
    let mut bytes = Vec::new(alloc);
    let mut number = 0;
    for (directory, _) in &tree.directories {
        number = put_names(
            alloc,
            &mut bytes,
            number,
            *directory,
            &tree.names.names_in(*directory)?,
        )?;
    }
    Ok((bytes, number))
}
