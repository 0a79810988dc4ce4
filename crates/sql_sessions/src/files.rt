//! The two files of a database, and their crash.
ghost use Rattle.std.specs.Prelude.{IsTrue};
ghost use Rattle.sqlite.specs.WalFiles.{outcomes};
ghost use Rattle.sqlite.specs.Files.{image_of};
ghost use Rattle.sqlite_wal.specs.Recovery.{Image};
ghost use Rattle.sqlite.specs.WalReads.{AreClean};

use sqlite::Files;
use sqlite_disk::Crash;

/// Crashes both files.
pub fn lose<D: Crash>(files: &mut Files<D>)
    ensures left { outcomes D.Disk files.old.log files.old.db (image_of D.Disk files.new) }
    ensures kept { (image : Image) → outcomes D.Disk files.new.log files.new.db image → outcomes D.Disk files.old.log files.old.db image }
    ensures log { IsTrue (D.Disk.is_usable files.new.log) }
    ensures db { IsTrue (D.Disk.is_usable files.new.db) }
    ensures clean { AreClean D.Disk files.new.log files.new.db → AreClean D.Disk files.old.log files.old.db }
{
    files.log.crash();
    files.db.crash();
}
