//! The configuration: which calls fail, how often, and which bytes of a failed or lost mutation are kept.
ghost use Rattle.std.specs.Prelude.{◌≡◌, ◌<◌, ◌+◌, ◌*◌, ◌%◌, ◌/◌, Some};
ghost use Rattle.blob_draws.specs.Cells.{rate_in_cell, mode_in_cell};

use crate::mode::PartialWriteMode;
use blob_base::Probability;

/// How writes fail, and which bytes of a failed or unsynced write are kept.
///
/// If the retention rate isn't zero, an unsynced write is pending until `admit`, a sync of its handle or the removal of its blob
/// retires it. A crash keeps the bytes of it that its mode selects. `open_versioned` alone retires nothing.
#[derive(Clone, Copy, Debug, PartialEq, Eq)]
pub struct WriteConfig {
    /// How often a write fails, plain or SYNC. If the retention rate isn't zero, the bytes of a failed write that its mode selects
    /// become durable. Otherwise a failed write changes nothing.
    pub failure_rate: Probability,
    /// How often a byte or sector of a failed or pending write is kept. Zero: a crash loses all unsynced writes.
    pub retention_rate: Probability,
    /// Which submitted bytes can survive together.
    pub mode: PartialWriteMode,
}

/// How resizes fail, and how often one that returned `Ok` survives a crash.
#[derive(Clone, Copy, Debug, PartialEq, Eq)]
pub struct ResizeConfig {
    /// How often a resize fails. A second draw of this rate decides whether one that doesn't fail survives a crash.
    pub failure_rate: Probability,
    /// How often a failed resize reaches a drawn size strictly between the handle's size and the requested one, if there is one.
    pub partial_rate: Probability,
}

/// The fault rates of a wrapper. If a call's rate is `None`, it makes no draw and doesn't fail. All rates are `None` by default.
///
/// A rate of zero is never true and a rate of one always is, without a word of the generator. Any other rate takes one word.
/// docs/FORMATS.md has the order of the draws.
#[derive(Clone, Debug, Default, Drop, PartialEq, Eq)]
pub struct Config {
    /// How often an open fails, before the inner store is called.
    pub open_rate: Option<Probability>,
    /// How often a read fails.
    pub read_rate: Option<Probability>,
    /// How writes fail, and whether an unsynced one may survive a crash. With `None` a crash loses all unsynced writes.
    pub write_rate: Option<WriteConfig>,
    /// How often a sync fails: `sync`, `start_sync` and the sync of a SYNC write.
    pub sync_rate: Option<Probability>,
    /// How resizes fail, and whether one may survive a crash. With `None` a crash loses all unsynced resizes.
    pub resize_rate: Option<ResizeConfig>,
    /// How often a removal fails.
    pub remove_rate: Option<Probability>,
    /// How often a scan fails.
    pub scan_rate: Option<Probability>,
}

impl Config {
    /// Returns the configuration with this rate for opens.
    pub fn open(self, rate: Probability) -> Config
        ensures { result ≡ record self { open_rate = Some rate } }
    {
        Config {
            open_rate: Some(rate),
            ..self
        }
    }

    /// Returns the configuration with this rate for reads.
    pub fn read(self, rate: Probability) -> Config
        ensures { result ≡ record self { read_rate = Some rate } }
    {
        Config {
            read_rate: Some(rate),
            ..self
        }
    }

    /// Returns the configuration with these settings for writes.
    pub fn write(self, config: WriteConfig) -> Config
        ensures { result ≡ record self { write_rate = Some config } }
    {
        Config {
            write_rate: Some(config),
            ..self
        }
    }

    /// Returns the configuration with this rate for syncs, started syncs and the syncs of SYNC writes.
    pub fn sync(self, rate: Probability) -> Config
        ensures { result ≡ record self { sync_rate = Some rate } }
    {
        Config {
            sync_rate: Some(rate),
            ..self
        }
    }

    /// Returns the configuration with these settings for resizes.
    pub fn resize(self, config: ResizeConfig) -> Config
        ensures { result ≡ record self { resize_rate = Some config } }
    {
        Config {
            resize_rate: Some(config),
            ..self
        }
    }

    /// Returns the configuration with this rate for removals.
    pub fn remove(self, rate: Probability) -> Config
        ensures { result ≡ record self { remove_rate = Some rate } }
    {
        Config {
            remove_rate: Some(rate),
            ..self
        }
    }

    /// Returns the configuration with this rate for scans.
    pub fn scan(self, rate: Probability) -> Config
        ensures { result ≡ record self { scan_rate = Some rate } }
    {
        Config {
            scan_rate: Some(rate),
            ..self
        }
    }
}

/// Returns the rate of `part` hundredths.
fn hundredths(part: u64) -> Probability
    requires { part < 101 }
    ensures { result ≡ rate_in_cell part }
{
    Probability::new(part, 100).unwrap()
}

/// Returns the write configuration of a cell. Cells 0 to 20401 have each pair of rates, in hundredths, with each of `Prefix` and
/// `Subset` once. Greater cells repeat some pairs with `Subset`.
pub fn write_config_from_cell(cell: u16) -> WriteConfig
    ensures failure { result.failure_rate ≡ rate_in_cell (cell % 10201 % 101) }
    ensures retention { result.retention_rate ≡ rate_in_cell (cell % 10201 / 101) }
    ensures mode { result.mode ≡ mode_in_cell cell }
{
    let rates = u64::from(cell % 10201);
    WriteConfig {
        failure_rate: hundredths(rates % 101),
        retention_rate: hundredths(rates / 101),
        mode: if cell < 10201 {
            PartialWriteMode::Prefix
        } else {
            PartialWriteMode::Subset
        },
    }
}
