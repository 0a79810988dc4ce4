//! One of the two files: a version and a value.
ghost use Rattle.std.specs.Prelude.{◌≡◌, ◌<◌, ℕ, List, ◌∷◌, length, slice_index, IsTrue, IfOk, OnOk};
ghost use Rattle.sqlite_disk.specs.Disk.{Follows, Only};
ghost use Rattle.disk_cell.specs.Held.{KeepsFirst, LeavesNoMore, MaySetFirst, next_version};

use sqlite_disk::Disk;
use std::alloc::Global;
use std::io;

/// Returns the version after this one.
pub(crate) fn next(version: u8) -> u8
    ensures { result ≡ next_version version }
{
    match version {
        1 => 2,
        2 => 3,
        _ => 1,
    }
}

/// Writes the value after the version and syncs. The version stays.
pub(crate) fn write_value<D: Disk>(file: &mut D, value: &[u8]) -> io::Result<()>
    requires usable { IsTrue (D.Disk.is_usable file.old) }
    ensures written { OnOk result (0 < length (D.Disk.seen file.old)
        → Only (slice_index (D.Disk.seen file.old) 0 ∷ value.now) (D.Disk.may_leave file.new)) }
    ensures usable { OnOk result (IsTrue (D.Disk.is_usable file.new)) }
    ensures kept { Follows KeepsFirst (D.Disk.may_leave file.old) (D.Disk.may_leave file.new) }
{
    file.write_at(1, value)?;
    file.set_len(value.len() + 1)?;
    file.sync()
}

/// Writes the version and syncs. After an error, and after a crash at any call, the file has the old version or this one.
///
/// Errors: `Unsupported` if the disk doesn't promise that a crash leaves each byte old or new; those of the disk.
pub(crate) fn write_version<D: Disk>(file: &mut D, version: u8) -> io::Result<()>
    requires usable { IsTrue (D.Disk.is_usable file.old) }
    ensures written { OnOk result ((first : ℕ) (rest : List ℕ) → D.Disk.seen file.old ≡ first ∷ rest
        → Only (version ∷ rest) (D.Disk.may_leave file.new)) }
    ensures usable { OnOk result (IsTrue (D.Disk.is_usable file.new)) }
    ensures kept { Follows (MaySetFirst version) (D.Disk.may_leave file.old) (D.Disk.may_leave file.new) }
{
    if !file.mixes() {
        return Err(io::ErrorKind::Unsupported.into());
    }
    file.write_at(0, &[version])?;
    file.sync()
}

/// Makes a file of this version and value, and syncs it.
pub(crate) fn format<D: Disk>(file: &mut D, version: u8, value: &[u8]) -> io::Result<()>
    requires usable { IsTrue (D.Disk.is_usable file.old) }
    ensures written { OnOk result (Only (version ∷ value.now) (D.Disk.may_leave file.new)) }
    ensures usable { OnOk result (IsTrue (D.Disk.is_usable file.new)) }
{
    file.set_len(value.len() + 1)?;
    file.write_at(1, value)?;
    file.write_at(0, &[version])?;
    file.sync()
}

/// Syncs the file, so that what is read is what a crash leaves, and returns its version and value.
///
/// Errors: `InvalidData` if the file is empty; those of the disk; `OutOfMemory`.
pub(crate) fn read<D: Disk>(alloc: Global, file: &mut D) -> io::Result<(u8, Vec<u8>)>
    requires usable { IsTrue (D.Disk.is_usable file.old) }
    ensures found { IfOk result (λ r. IsTrue (D.Disk.is_clean file.new) → D.Disk.seen file.old ≡ r.0 ∷ r.1.items) }
    ensures synced { OnOk result (Only (D.Disk.seen file.old) (D.Disk.may_leave file.new)) }
    ensures usable { OnOk result (IsTrue (D.Disk.is_usable file.new)) }
    ensures kept { LeavesNoMore D.Disk file.old file.new }
{
    file.sync()?;
    let len = file.len()?;
    if len == 0 {
        return Err(io::ErrorKind::InvalidData.into());
    }
    let mut version = [0];
    file.read_at(0, &mut version)?;
    let mut value = Vec::new(alloc);
    if value.resize(len - 1, 0).is_err() {
        return Err(io::ErrorKind::OutOfMemory.into());
    }
    file.read_at(1, value.as_mut_slice())?;
    Ok((version[0], value))
}
