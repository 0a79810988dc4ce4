//! The lines that configure the wrapper.
ghost use Rattle.std.specs.Prelude.{◌≡◌, IfSome, IfNone, Some, None};
ghost use Rattle.blob_script.specs.SettingLines.{setting, rate, mode};
ghost use Rattle.blob_script.specs.Settings.{with_setting};

use crate::script::token::Tokens;
use blob_base::{Probability, SectorSize};
use blob_draws::{Config, PartialWriteMode, ResizeConfig, WriteConfig};

/// The change that a `config` line makes. It leaves the other rates, except `Clear`.
#[derive(Clone, Copy, Debug, PartialEq, Eq)]
pub enum Setting {
    /// How often an open fails.
    Open(Probability),
    /// How often a read fails.
    Read(Probability),
    /// How often writes fail, and which of their bytes are kept.
    Write(WriteConfig),
    /// How often a sync fails, including started syncs and those of SYNC writes.
    Sync(Probability),
    /// How often resizes fail, and how often one survives a crash.
    Resize(ResizeConfig),
    /// How often a removal fails.
    Remove(Probability),
    /// How often a scan fails.
    Scan(Probability),
    /// No call fails any more, and nothing pending is kept.
    Clear,
}

impl Setting {
    /// Returns the configuration with this change.
    pub fn apply(self, config: Config) -> Config
        ensures { result ≡ with_setting config self }
    {
        match self {
            Setting::Open(rate) => config.open(rate),
            Setting::Read(rate) => config.read(rate),
            Setting::Write(writes) => config.write(writes),
            Setting::Sync(rate) => config.sync(rate),
            Setting::Resize(resizes) => config.resize(resizes),
            Setting::Remove(rate) => config.remove(rate),
            Setting::Scan(rate) => config.scan(rate),
            Setting::Clear => Config::default(),
        }
    }
}

/// Returns a copy of a configuration.
pub fn copy_of(config: &Config) -> Config
    ensures { result ≡ config.now }
{
    Config {
        open_rate: config.open_rate,
        read_rate: config.read_rate,
        write_rate: config.write_rate,
        sync_rate: config.sync_rate,
        resize_rate: config.resize_rate,
        remove_rate: config.remove_rate,
        scan_rate: config.scan_rate,
    }
}

/// Parses what follows `config`. Returns `None` if it isn't a setting. Leaves the tokens after it.
pub(crate) fn read_setting(tokens: &mut Tokens) -> Option<Setting>
    ensures some { IfSome result (λ read. setting tokens.old ≡ Some (read, tokens.new)) }
    ensures none { IfNone result (setting tokens.old ≡ None) }
{
    Some(match tokens.next()? {
        "open" => Setting::Open(rate(tokens)?),
        "read" => Setting::Read(rate(tokens)?),
        "write" => Setting::Write(WriteConfig {
            failure_rate: rate(tokens)?,
            retention_rate: rate(tokens)?,
            mode: mode(tokens)?,
        }),
        "sync" => Setting::Sync(rate(tokens)?),
        "resize" => Setting::Resize(ResizeConfig {
            failure_rate: rate(tokens)?,
            partial_rate: rate(tokens)?,
        }),
        "remove" => Setting::Remove(rate(tokens)?),
        "scan" => Setting::Scan(rate(tokens)?),
        "clear" => Setting::Clear,
        _ => return None,
    })
}

fn rate(tokens: &mut Tokens) -> Option<Probability>
    ensures some { IfSome result (λ read. rate tokens.old ≡ Some (read, tokens.new)) }
    ensures none { IfNone result (rate tokens.old ≡ None) }
{
    let numerator = tokens.number().ok()?;
    let denominator = tokens.number().ok()?;
    Probability::new(numerator, denominator)
}

fn mode(tokens: &mut Tokens) -> Option<PartialWriteMode>
    ensures some { IfSome result (λ read. mode tokens.old ≡ Some (read, tokens.new)) }
    ensures none { IfNone result (mode tokens.old ≡ None) }
{
    Some(match tokens.next()? {
        "prefix" => PartialWriteMode::Prefix,
        "subset" => PartialWriteMode::Subset,
        "sectors" => PartialWriteMode::Sectors(SectorSize::new(tokens.number().ok()?)?),
        _ => return None,
    })
}
