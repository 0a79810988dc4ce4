//! A crash of the machine, and what a cell finds after it.
ghost use Rattle.std.specs.Prelude.{IsTrue, IfOk};
ghost use Rattle.disk_cell.specs.Held.{FindsAfterSet, HoldStill, HoldsValue, IsClean, LeavesNoMore};

use crate::cell::Cell;
use sqlite_disk::Crash;
use std::alloc::Global;
use std::io;

/// Crashes both files. They hold what they held.
pub fn crash<D: Crash>(newer: &mut D, older: &mut D)
    ensures holds { HoldStill D.Disk (newer.old, older.old) (newer.new, older.new) }
    ensures newer { IsTrue (D.Disk.is_usable newer.new) }
    ensures older { IsTrue (D.Disk.is_usable older.new) }
    ensures newer_left { LeavesNoMore D.Disk newer.old newer.new }
    ensures older_left { LeavesNoMore D.Disk older.old older.new }
{
    newer.crash();
    older.crash();
}

/// Sets a value, crashes the machine whether that succeeded or not, and recovers. Returns the cell, the value that it
/// found, and whether `set` returned Ok.
///
/// If it did, the found value is the new one. Otherwise it is the new one or the old one. The next crash loses neither.
///
/// Errors: those of `recover`.
pub fn set_and_crash<D: Crash + Drop>(
    alloc: Global,
    cell: Cell<D>,
    value: &[u8],
) -> Result<(Cell<D>, Vec<u8>, bool), (io::Error, D, D)>
    ensures found { IfOk result (λ r. IsClean D.Disk r.0 → FindsAfterSet D.Disk cell value.now r.2 r.1.items) }
    ensures holds { IfOk result (λ r. IsClean D.Disk r.0 → HoldsValue D.Disk r.0 r.1.items) }
{
    let (is_set, mut newer, mut older) = match cell.set(value) {
        Ok(cell) => {
            let (newer, older) = cell.into_files();
            (true, newer, older)
        }
        Err((_, newer, older)) => (false, newer, older),
    };
    crash(&mut newer, &mut older);
    let (cell, found) = Cell::recover(alloc, newer, older)?;
    Ok((cell, found, is_set))
}
