//! What a call may do, and the supply of power of a session and of files. What they are is `blob_statuses`.
ghost use Rattle.std.specs.Prelude.{◌≡◌};
ghost use Rattle.blob_file_sessions.specs.Effects as file_effects;
ghost use Rattle.blob_file_sessions.specs.Exports.{OnFiles, ReadsFiles};
ghost use Rattle.blob_file_sessions.specs.Supplies as file_supplies;
ghost use Rattle.blob_sessions.specs.Effects as effects;
ghost use Rattle.blob_sessions.specs.Sessions.{Inspects, OnHeld, kept_of};
ghost use Rattle.blob_sessions.specs.Supplies.{CutsPower, state_of};
ghost use Rattle.blob_statuses.specs.Effects.{bits_of};
ghost use Rattle.blob_statuses.specs.Powers.{always_on, turned_on};

use blob_file_sessions::Files;
use blob_sessions::ran::{CLOSED, DONE};
use blob_sessions::{PowerState, Session};
use std::alloc::Global;

/// Returns what a call of a kind may do to a store, as bits: `CHANGES`, `DRAWS`, `SYNCS` and `LOOKS`. Of an unknown kind there are none.
#[unsafe(no_mangle)]
pub extern "C" fn blobcrash_effect(kind: u32) -> u32
    ensures { result ≡ bits_of (effects.kind_effect kind) }
{
    blob_sessions::effects::effect_of_kind(kind).bits()
}

/// Returns what a call of a kind may do to files, as bits.
#[unsafe(no_mangle)]
pub extern "C" fn blobcrash_files_effect(kind: u32) -> u32
    ensures { result ≡ bits_of (file_effects.kind_effect kind) }
{
    blob_file_sessions::effects::effect_of_kind(kind).bits()
}

/// Lets the power of a session go off after this number of calls that change what a crash leaves; with 0 it is off now. From then on
/// each call returns `POWER_LOSS`, except settings and a crash, and after the crash a close and the reopening, which turns it on.
///
/// `POWER_LOSS` if it is off, and `CLOSED`: nothing changes.
#[unsafe(no_mangle)]
pub extern "C" fn blobcrash_power_off_after(alloc: Global, session: &mut Session, calls: u64) -> u32
    ensures { OnHeld (kept_of session.old) (kept_of session.new) (λ k k'. CutsPower k k' calls result) (result ≡ CLOSED) }
{
    let Some(mut kept) = session.take(alloc) else {
        return CLOSED;
    };
    let status = kept.power_off_after(calls);
    session.put(kept);
    status
}

/// Turns the power of a session on. Nothing is counted. `CLOSED` if it isn't open.
#[unsafe(no_mangle)]
pub extern "C" fn blobcrash_power_on(alloc: Global, session: &mut Session) -> u32
    ensures { OnHeld (kept_of session.old) (kept_of session.new)
        (λ k k'. (result ≡ DONE) × (k' ≡ record k { power = turned_on k.power })) (result ≡ CLOSED) }
{
    let Some(mut kept) = session.take(alloc) else {
        return CLOSED;
    };
    kept.power_on();
    session.put(kept);
    DONE
}

/// Returns the supply of power of a session. Changes nothing. `CLOSED` if it isn't open.
#[unsafe(no_mangle)]
pub extern "C" fn blobcrash_power(alloc: Global, session: &mut Session) -> PowerState
    ensures { Inspects session.old session.new (λ k. result ≡ state_of DONE k.power) (result ≡ state_of CLOSED always_on) }
{
    let Some(kept) = session.take(alloc) else {
        return PowerState::stopped(CLOSED);
    };
    let state = kept.power();
    session.put(kept);
    state
}

/// Lets the power of files go off after this number of calls that change what a crash leaves; with 0 it is off now. From then on each
/// call returns `POWER_LOSS`, except settings and a crash, which turns it on.
///
/// `POWER_LOSS` if it is off, and `CLOSED`: nothing changes.
#[unsafe(no_mangle)]
pub extern "C" fn blobcrash_files_power_off_after(
    alloc: Global,
    files: &mut Files,
    calls: u64,
) -> u32
    ensures { OnFiles files.old files.new (λ k k'. file_supplies.CutsPower k k' calls result) (result ≡ CLOSED) }
{
    let Some(mut kept) = files.take(alloc) else {
        return CLOSED;
    };
    let status = kept.power_off_after(calls);
    files.put(kept);
    status
}

/// Turns the power of files on. Nothing is counted. `CLOSED` if they aren't open.
#[unsafe(no_mangle)]
pub extern "C" fn blobcrash_files_power_on(alloc: Global, files: &mut Files) -> u32
    ensures { OnFiles files.old files.new
        (λ k k'. (result ≡ DONE) × (k' ≡ record k { power = turned_on k.power })) (result ≡ CLOSED) }
{
    let Some(mut kept) = files.take(alloc) else {
        return CLOSED;
    };
    kept.power_on();
    files.put(kept);
    DONE
}

/// Returns the supply of power of files. Changes nothing. `CLOSED` if they aren't open.
#[unsafe(no_mangle)]
pub extern "C" fn blobcrash_files_power(alloc: Global, files: &mut Files) -> PowerState
    ensures { ReadsFiles files.old files.new (λ k. result ≡ state_of DONE k.power) (result ≡ state_of CLOSED always_on) }
{
    let Some(kept) = files.take(alloc) else {
        return PowerState::stopped(CLOSED);
    };
    let state = kept.power();
    files.put(kept);
    state
}
