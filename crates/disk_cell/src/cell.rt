//! The cell: its two files, and which is newer.
ghost use Rattle.std.specs.Prelude.{◌≡◌, List, ℕ, Some, IsTrue, IfOk, IfErr};

use crate::file::{format, next, read, write_value, write_version};
use sqlite_disk::Disk;
use std::alloc::Global;
use std::io;

/// An open cell. A call that fails ends it and returns its files, the newer one first: crash or reopen them, and recover.
#[derive(Drop)]
pub struct Cell<D: Disk> {
    newer: D,
    older: D,
    version: u8,
    ghost newer_usable: { IsTrue (D.Disk.is_usable newer) },
    ghost older_usable: { IsTrue (D.Disk.is_usable older) },
}

impl<D: Disk> Cell<D> {
    ghost use Rattle.disk_cell.specs.Held.{FindsValue, HoldsValue, IsClean, LeavesNoMore, MayHold};

    /// Makes a cell of two files with this value. What the files held is lost.
    ///
    /// If it fails, or the power does before it returns, the files hold no cell yet: create it again.
    ///
    /// Errors: those of the disks.
    pub fn create(mut first: D, mut second: D, value: &[u8]) -> Result<Cell<D>, (io::Error, D, D)>
        requires first { IsTrue (D.Disk.is_usable first) }
        requires second { IsTrue (D.Disk.is_usable second) }
        ensures holds { IfOk result (λ cell. HoldsValue D.Disk cell value.now) }
    {
        if let Err(error) = format(&mut second, 3, &[]) {
            return Err((error, first, second));
        }
        if let Err(error) = format(&mut first, 1, value) {
            return Err((error, first, second));
        }
        Ok(Cell {
            newer: first,
            older: second,
            version: 1,
        })
    }

    /// Replaces the value. Ok means that no crash loses the new one. If it fails, or the power does before it returns,
    /// the files hold the old value, and `recover` finds that or this one.
    ///
    /// Errors: `Unsupported` if a disk doesn't promise that a crash leaves each byte old or new; those of the disks.
    pub fn set(self, value: &[u8]) -> Result<Cell<D>, (io::Error, D, D)>
        ensures acknowledged { IfOk result (λ cell. (old : List ℕ) → HoldsValue D.Disk self old → HoldsValue D.Disk cell value.now) }
        ensures refused { IfErr result (λ e. (old : List ℕ) → HoldsValue D.Disk self old
            → MayHold D.Disk e.1 e.2 self.version old (Some value.now)) }
    {
        let Cell {
            newer,
            mut older,
            version,
        } = self;
        let after = next(version);
        if let Err(error) = write_value(&mut older, value) {
            return Err((error, newer, older));
        }
        if let Err(error) = write_version(&mut older, after) {
            return Err((error, newer, older));
        }
        Ok(Cell {
            newer: older,
            older: newer,
            version: after,
        })
    }

    /// Opens the cell in two files, in any order, and returns its value: the last one for which `set` returned Ok, or one
    /// that was tried after it. What it returns is found again: no crash loses it.
    ///
    /// If it fails, or the power does before it returns, the files hold what they held. They are returned in the order
    /// in which they were passed.
    ///
    /// Errors: `InvalidData` if the files hold no cell; those of the disks; `OutOfMemory`.
    pub fn recover(
        alloc: Global,
        mut first: D,
        mut second: D,
    ) -> Result<(Cell<D>, Vec<u8>), (io::Error, D, D)>
        requires first { IsTrue (D.Disk.is_usable first) }
        requires second { IsTrue (D.Disk.is_usable second) }
        ensures holds { IfOk result (λ r. IsClean D.Disk r.0 → HoldsValue D.Disk r.0 r.1.items) }
        ensures found { IfOk result (λ r. IsClean D.Disk r.0 → FindsValue D.Disk first second r.1.items) }
        ensures first { IfErr result (λ e. LeavesNoMore D.Disk first e.1) }
        ensures second { IfErr result (λ e. LeavesNoMore D.Disk second e.2) }
    {
        let (a, first_value) = match read(alloc, &mut first) {
            Ok(found) => found,
            Err(error) => return Err((error, first, second)),
        };
        let (b, second_value) = match read(alloc, &mut second) {
            Ok(found) => found,
            Err(error) => return Err((error, first, second)),
        };
        if a == next(b) {
            let cell = Cell {
                newer: first,
                older: second,
                version: a,
            };
            return Ok((cell, first_value));
        }
        if b == next(a) {
            let cell = Cell {
                newer: second,
                older: first,
                version: b,
            };
            return Ok((cell, second_value));
        }
        Err((io::ErrorKind::InvalidData.into(), first, second))
    }

    /// Returns the two files, the newer one first.
    pub fn into_files(self) -> (D, D)
        ensures newer { result.0 ≡ self.newer }
        ensures older { result.1 ≡ self.older }
        ensures newer_usable { IsTrue (D.Disk.is_usable result.0) }
        ensures older_usable { IsTrue (D.Disk.is_usable result.1) }
    {
        (self.newer, self.older)
    }
}
