// The names that may have a file after the first calls of a run.
ghost use Rattle.std.specs.Prelude.{◌≤◌, IfOk, OnErr, OnOk, length};
ghost use Rattle.std.specs.Bool.{OnTrue};
ghost use Rattle.std.specs.List.{Contains};
ghost use Rattle.blob_header.specs.Refusals.{IsMemory};
ghost use Rattle.blob_script.specs.Acts.{act_of};
ghost use Rattle.blob_lab_model.specs.Accepted.{opened_name};
ghost use Rattle.blob_states.specs.Recorded.{HasOpened, HaveNames, KeepsNames, names_of};

use crate::recorded::Recorded;
use blob_base::Error;
use blob_script::Call;
use std::alloc::Global;

/// Returns the names of the images, and those that the first calls open. The only error is `Memory`.
pub(crate) fn names_until(
    alloc: Global,
    run: &Recorded,
    count: usize,
) -> Result<Vec<(String, Vec<u8>)>, Error>
    requires { count ≤ length run.now.calls.items }
    ensures ok { IfOk result (λ names. HaveNames (names_of names.items) run.now count) }
    ensures memory { OnErr result (IsMemory result) }
{
    let mut names = Vec::new(alloc);
    for image in &run.preamble.images {
        add(&mut names, &image.0, &image.1)?;
    }
    for call in &run.calls[..count] {
        add_opened(&mut names, call)?;
    }
    Ok(names)
}

/// Adds the name that a call opens, if it opens one.
pub(crate) fn add_opened(names: &mut Vec<(String, Vec<u8>)>, call: &Call) -> Result<(), Error>
    ensures opened { OnOk result (HasOpened (names_of names.new.items) (opened_name (act_of call.now))) }
    ensures kept { OnOk result (KeepsNames (names_of names.old.items) (names_of names.new.items)) }
    ensures memory { OnErr result (IsMemory result) }
{
    match call {
        Call::Open {
            partition,
            name,
            ..
        } => add(names, partition, name),
        Call::OpenLoose {
            partition,
            name,
            ..
        } => add(names, partition, name),
        _ => Ok(()),
    }
}

/// Adds a name, unless it exists.
fn add(names: &mut Vec<(String, Vec<u8>)>, partition: &str, name: &[u8]) -> Result<(), Error>
    ensures added { OnOk result (Contains (names_of names.new.items) (partition.now, name.now)) }
    ensures kept { OnOk result (KeepsNames (names_of names.old.items) (names_of names.new.items)) }
    ensures memory { OnErr result (IsMemory result) }
{
    if has(names, partition, name) {
        return Ok(());
    }
    let alloc = *names.allocator();
    let partition = String::from_str(alloc, partition)?;
    let name = Vec::from_slice(alloc, name)?;
    names.push((partition, name))?;
    Ok(())
}

fn has(names: &[(String, Vec<u8>)], partition: &str, name: &[u8]) -> bool
    ensures { OnTrue result (Contains (names_of names.now) (partition.now, name.now)) }
{
    for known in names {
        if known.0.as_str() == partition && known.1.as_slice() == name {
            return true;
        }
    }
    false
}
