//! Writes of a blob, by which bytes of a failed one are written.
ghost use Rattle.std.specs.Prelude.{◌≡◌, ◌<◌, ◌≤◌, ◌⊎◌, [], max, OnOk, Some, false, length};
ghost use Rattle.blob_model.specs.Bytes.{write_live};
ghost use Rattle.blob_faulty.specs.Wrapper.{size_of};
ghost use Rattle.blob_draws.specs.Faults.{retention};
ghost use Rattle.blob_fs.specs.declared.switches.FailedWrite.TheVariants.{ByMode};
ghost use Rattle.blob_fs.specs.Noted.{ResizesOpen};
ghost use Rattle.blob_fs.specs.Reads.{Shows, write_some};
ghost use Rattle.blob_fs.specs.Writes.{leaves_zeros};
ghost use Rattle.blob_journal.specs.Fixed.{ChangesOpen, IsBeside};
ghost use Rattle.blob_journal.specs.Unchanged.{KeepsNamesAndEdits};
ghost use Rattle.blob_journal.specs.Writes.{RecordsWrite};

use crate::base::copy_of;
use crate::switches::FailedWrite;
use blob_base::{Error, Probability};
use blob_directory::profile::Profile;
use blob_faulty::{Config, PartialWriteMode, WriteConfig};
use blob_journal::{FileBlob, Journaled};
use rand_core::Rng;

/// Returns the faults with this rate of failures of writes. A failed one keeps by this rate, in this mode.
pub(crate) fn with_writes(faults: &Config, failure_rate: Probability, writes: WriteConfig) -> Config
    ensures { retention result.write_rate ≡ retention (Some writes) }
{
    copy_of(faults).write(WriteConfig {
        failure_rate,
        ..writes
    })
}

/// Returns the faults of a write of which it is drawn whether it fails.
pub(crate) fn decided(
    faults: &Config,
    how: FailedWrite,
    writes: WriteConfig,
    is_failed: bool,
) -> Config {
    if !is_failed {
        return with_writes(faults, Probability::ZERO, writes);
    }
    match how {
        FailedWrite::ByMode => with_writes(faults, Probability::ONE, writes),
        FailedWrite::Prefix => {
            let prefix = WriteConfig {
                mode: PartialWriteMode::Prefix,
                ..writes
            };
            with_writes(faults, Probability::ONE, prefix)
        }
    }
}

/// The bytes of a page of the kernel's cache.
pub(crate) const PAGE: u64 = 4096;

/// Returns where the zeros end that a write from an offset up to an end first writes from the end of the file on. They are none if
/// that isn't beyond it.
pub(crate) fn zeros_end(profile: &Profile, size: u64, offset: u64, end: u64) -> u64
    ensures none { leaves_zeros profile.now size offset end ≡ false → result ≤ size }
    ensures within { result ≤ max size (max offset end) }
{
    if profile.zeros {
        return end;
    }
    let within = size % PAGE;
    if !profile.pages || within == 0 {
        return size;
    }
    size.saturating_add(PAGE - within).min(offset)
}

/// Writes zeros, unsynced. If there are none, it does nothing.
fn put_zeros<R: Rng + Drop>(
    blob: &mut FileBlob,
    store: &mut Journaled<R>,
    offset: u64,
    zeros: &[u8],
) -> Result<(), Error>
    ensures keeps { KeepsNamesAndEdits store.old store.new }
    ensures none { length zeros.now ≡ 0 → (store.new ≡ store.old) × (blob.new ≡ blob.old) }
    ensures shows { OnOk result (Shows store.old blob.old (λ seen. write_some seen offset zeros.now) blob.new) }
    ensures still { ChangesOpen (IsBeside offset (length zeros.now)) store.old blob.old store.new blob.new }
{
    if zeros.is_empty() {
        return Ok(());
    }
    store.write_file(blob, offset, zeros)
}

/// Writes zeros and then bytes, unsynced. The zeros are beyond the end of the file.
pub(crate) fn write_grown<R: Rng + Drop>(
    blob: &mut FileBlob,
    store: &mut Journaled<R>,
    how: FailedWrite,
    faults: &Config,
    zeros: (u64, &[u8]),
    bytes: (u64, &[u8]),
) -> Result<(), Error>
    requires { size_of blob.old.blob ≤ zeros.0 }
    ensures keeps { KeepsNamesAndEdits store.old store.new }
    ensures recorded { OnOk result (how ≡ ByMode → length zeros.entry.1.now ≡ 0
        → RecordsWrite bytes.entry.0 bytes.entry.1.now store.old blob.old store.new blob.new) }
    ensures shows { OnOk result (how ≡ ByMode
        → Shows store.old blob.old (λ seen. write_live (write_some seen zeros.entry.0 zeros.entry.1.now) bytes.entry.0 bytes.entry.1.now) blob.new) }
    ensures still { ChangesOpen (IsBeside bytes.entry.0 (length bytes.entry.1.now)) store.old blob.old store.new blob.new }
{
    put_zeros(blob, store, zeros.0, zeros.1)?;
    write_blob(blob, store, how, faults, bytes.0, bytes.1)
}

/// Truncates a file to a length, unsynced. Before that it writes these zeros from there on.
pub(crate) fn cut_page<R: Rng + Drop>(
    blob: &mut FileBlob,
    store: &mut Journaled<R>,
    length: u64,
    zeros: &[u8],
) -> Result<(), Error>
    ensures keeps { KeepsNamesAndEdits store.old store.new }
    ensures sized { OnOk result (ResizesOpen length store.old blob.old blob.new) }
    ensures still { ChangesOpen (λ at. at < length) store.old blob.old store.new blob.new }
{
    put_zeros(blob, store, length, zeros)?;
    store.resize_file(blob, length)
}

/// Returns the faults of the zeros that a truncation writes: none. A crash keeps of them what it keeps of writes.
pub(crate) fn zeroing(faults: &Config) -> Config {
    match faults.write_rate {
        None => Config::default(),
        Some(writes) => Config::default().write(WriteConfig {
            failure_rate: Probability::ZERO,
            ..writes
        }),
    }
}

/// Returns the zeros to write, or none of them.
pub(crate) fn chosen(is_written: bool, zeros: &[u8]) -> &[u8]
    ensures { (result.now ≡ zeros.now) ⊎ (result.now ≡ []) }
{
    if is_written { zeros } else { &[] }
}

/// Writes bytes, unsynced.
pub(crate) fn write_blob<R: Rng + Drop>(
    blob: &mut FileBlob,
    store: &mut Journaled<R>,
    how: FailedWrite,
    faults: &Config,
    offset: u64,
    bytes: &[u8],
) -> Result<(), Error>
    ensures keeps { KeepsNamesAndEdits store.old store.new }
    ensures recorded { OnOk result (how ≡ ByMode → RecordsWrite offset bytes.now store.old blob.old store.new blob.new) }
    ensures shows { OnOk result (how ≡ ByMode → Shows store.old blob.old (λ seen. write_live seen offset bytes.now) blob.new) }
    ensures still { ChangesOpen (IsBeside offset (length bytes.now)) store.old blob.old store.new blob.new }
{
    match how {
        FailedWrite::ByMode => store.write_file(blob, offset, bytes),
        FailedWrite::Prefix => write_by_prefix(blob, store, faults, offset, bytes),
    }
}

/// Writes bytes, unsynced. First it draws whether the write fails. If it does, a prefix of the bytes is written, as by a failed write
/// in the mode `Prefix`.
fn write_by_prefix<R: Rng + Drop>(
    blob: &mut FileBlob,
    store: &mut Journaled<R>,
    faults: &Config,
    offset: u64,
    bytes: &[u8],
) -> Result<(), Error>
    ensures keeps { KeepsNamesAndEdits store.old store.new }
    ensures still { ChangesOpen (IsBeside offset (length bytes.now)) store.old blob.old store.new blob.new }
{
    let Some(writes) = faults.write_rate else {
        return store.write_file(blob, offset, bytes);
    };
    let is_failed = store.draw(writes.failure_rate);
    store.set_config(decided(faults, FailedWrite::Prefix, writes, is_failed));
    store.write_file(blob, offset, bytes)
}
