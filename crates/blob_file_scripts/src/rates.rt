//! The draws by which calls on files fail.
use crate::call::{Line, OnFile};
use crate::event::{Draw, Event, Told};
use blob_base::Probability;
use blob_draws::Config;
use blob_fs::call::{Call, NumberCall, PathCall};
use blob_fs::{FileSystem, Options, Syncs};
use blob_lab::ScriptedRng;
use std::alloc::AllocError;

/// The reply to a call that failed by its draw.
const INJECTED: &str = "error Injected";

/// Whether a draw of this rate takes a word.
fn is_drawn(rate: Probability) -> bool {
    !rate.is_zero() && rate.numerator() < rate.denominator()
}

/// Returns the rate by which writes fail, if there is one.
fn of_writes(faults: &Config) -> Option<Probability> {
    match &faults.write_rate {
        Some(writes) => Some(writes.failure_rate),
        None => None,
    }
}

/// Returns the rate by which truncations fail, if there is one.
fn of_truncations(faults: &Config) -> Option<Probability> {
    match &faults.resize_rate {
        Some(resizes) => Some(resizes.failure_rate),
        None => None,
    }
}

/// Returns the rate that a call draws to fail, with its word. `None` if it draws none, or several.
fn rate_of(options: &Options, call: &Line<'_>) -> Option<(&'static str, Probability)> {
    let faults = &options.faults;
    let (word, rate) = match call {
        Line::Call(Call::ByPath(PathCall::Create(_)))
        | Line::Call(Call::ByNumber(NumberCall::Create { .. })) => ("open", faults.open_rate),
        Line::On(_, OnFile::Read { .. }) => ("read", faults.read_rate),
        Line::On(_, OnFile::Write { .. }) => ("write", of_writes(faults)),
        Line::On(_, OnFile::Truncate(_)) => ("resize", of_truncations(faults)),
        Line::On(_, OnFile::Sync | OnFile::SyncData) if options.syncs != Syncs::Lie => {
            ("sync", faults.sync_rate)
        }
        _ => return None,
    };
    Some((word, rate?))
}

/// Tells by which draw a call failed or didn't, if its reply says so and it took a word.
pub(crate) fn tell_failure(
    fs: &FileSystem<ScriptedRng>,
    call: &Line<'_>,
    reply: &str,
    told: &mut Told,
) -> Result<(), AllocError> {
    let Some((word, rate)) = rate_of(fs.options(), call) else {
        return Ok(());
    };
    let fails = reply == INJECTED;
    if is_drawn(rate) && (fails || !reply.starts_with("error ")) {
        told.tell(&Event::Draw(Draw::Fails(word, fails)))?;
    }
    Ok(())
}

/// Tells which length a failed truncation of a file of this size has reached, if it was done in part.
pub(crate) fn tell_reached(
    size: u64,
    length: u64,
    reached: u64,
    reply: &str,
    told: &mut Told,
) -> Result<(), AllocError> {
    if reply != INJECTED || reached == size {
        return Ok(());
    }
    let among = size.saturating_sub(length).saturating_sub(1);
    told.tell(&Event::Draw(Draw::Size { among, reached }))
}
