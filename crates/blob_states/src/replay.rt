// The run, call by call.
ghost use Rattle.std.specs.Prelude.{◌<◌, ◌≤◌, ◌+◌, IfOk, OnErr, OnOk, length};
ghost use Rattle.blob_header.specs.Refusals.{IsMemory};
ghost use Rattle.blob_lab_store.specs.LabRuns.{StartsAt};
ghost use Rattle.blob_lab_store.specs.LabStands.{LabStandsFor};
ghost use Rattle.blob_states.specs.Recorded.{HaveNames, names_of, state_after};

use crate::names::add_opened;
use crate::recorded::{Recorded, copy_of};
use blob_base::Error;
use blob_distinct::short::is_short;
use blob_faulty::Config;
use blob_lab_store::Lab;
use std::alloc::{AllocError, Global};

/// Returns a laboratory in which the first calls were made. The only error is `Memory`, also if a call was refused it.
pub(crate) fn replayed(alloc: Global, run: &Recorded, count: usize) -> Result<Lab, Error>
    requires { count ≤ length run.now.calls.items }
    ensures stands { StartsAt result (state_after run.now count) }
    ensures memory { OnErr result (IsMemory result) }
{
    let preamble = copy_of(alloc, &run.preamble)?;
    let mut lab = Lab::from_preamble(preamble, Config::default())?;
    let replies = match lab.run(&run.calls[..count]) {
        Ok(replies) => replies,
        Err(e) => {
            lab.end();
            return Err(e);
        }
    };
    if is_short(&replies) {
        lab.end();
        return Err(Error::Memory(AllocError));
    }
    Ok(lab)
}

/// Makes the call of this index and adds the name that it opens, if there is a crash after it: one before `end`.
///
/// The only error is `Memory`, also if the call was refused it.
pub(crate) fn go_on(
    run: &Recorded,
    index: usize,
    end: usize,
    lab: &mut Lab,
    names: &mut Vec<(String, Vec<u8>)>,
) -> Result<(), Error>
    requires more { index < end }
    requires within { end ≤ length run.now.calls.items + 1 }
    ensures stands { OnOk result (index + 1 < end → LabStandsFor lab.old (state_after run.now index) → LabStandsFor lab.new (state_after run.now (index + 1))) }
    ensures names { OnOk result (index + 1 < end → HaveNames (names_of names.old.items) run.now index → HaveNames (names_of names.new.items) run.now (index + 1)) }
    ensures memory { OnErr result (IsMemory result) }
{
    if index + 1 >= end {
        return Ok(());
    }
    add_opened(names, &run.calls[index])?;
    advance(lab, run, index)
}

/// Makes the call of this index. The only error is `Memory`, also if the call was refused it.
fn advance(lab: &mut Lab, run: &Recorded, index: usize) -> Result<(), Error>
    requires { index < length run.now.calls.items }
    ensures ok { OnOk result (LabStandsFor lab.old (state_after run.now index) → LabStandsFor lab.new (state_after run.now (index + 1))) }
    ensures memory { OnErr result (IsMemory result) }
{
    let replies = lab.run(&run.calls[index..index + 1])?;
    if is_short(&replies) {
        return Err(Error::Memory(AllocError));
    }
    Ok(())
}
