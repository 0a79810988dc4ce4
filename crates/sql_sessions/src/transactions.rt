//! Several statements as one transaction.
ghost use Rattle.std.specs.Prelude.{◌≡◌, false, IsTrue, OnOk};
ghost use Rattle.sqlite.specs.State.{HasCleanDisk, Survives};
ghost use Rattle.sqlite.specs.Held.{state};
ghost use Rattle.sql_sessions.specs.Runs.{CommitsWhole, RunsWhole};

use sqlite::{Alter, Connection, Error};

/// Runs the statements of `text` in one transaction and commits it. Ok means that all of them ran, in order, and are
/// committed. After an error, or a crash at any call of a disk, either all are committed or none is.
///
/// Errors: that of the first statement that fails, and that of the commit. BEGIN, COMMIT and ROLLBACK fail.
pub fn transact<S: Alter>(conn: &mut Connection<S>, text: &str) -> Result<(), Error>
    requires idle { conn.old.in_transaction ≡ false }
    ensures idle { conn.new.in_transaction ≡ false }
    ensures whole { HasCleanDisk (state S.Store conn.new) → OnOk result (RunsWhole S.Store text.now conn.old (state S.Store conn.new).committed) }
    ensures live { HasCleanDisk (state S.Store conn.new) → OnOk result (IsTrue (state S.Store conn.new).is_open) }
    ensures settled { HasCleanDisk (state S.Store conn.new) → OnOk result ((state S.Store conn.new).now ≡ (state S.Store conn.new).committed) }
    ensures crash { Survives (state S.Store conn.old) (state S.Store conn.new) (CommitsWhole S.Store text.now conn.old) }
{
    let mut tx = conn.transaction();
    tx.execute_batch(text)?;
    tx.commit()
}
