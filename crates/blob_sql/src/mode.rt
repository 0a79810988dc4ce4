//! The faults of a mode, and what a crash keeps.
ghost use Rattle.std.specs.Prelude.{◌<◌, Some};
ghost use Rattle.blob_faulty.specs.Certain.{IsNever, partial_resizes};

use blob_base::{Probability, SectorSize};
use blob_faulty::{Config, PartialWriteMode, ResizeConfig, WriteConfig};
use rand_core::Rng;
use rand_xoshiro::Xoshiro256PlusPlus;

/// The calls that may fail in addition to crashes.
#[derive(Clone, Copy, Debug, PartialEq, Eq)]
pub enum Faults {
    /// None.
    Nothing,
    /// Writes. A failed one keeps a prefix.
    Prefixes,
    /// Writes. A failed one keeps any bytes.
    Subsets,
    /// Writes. A failed one keeps whole sectors.
    Sectors,
    Syncs,
    Reads,
    Resizes,
    /// Any of these calls.
    Anything,
}

#[derive(Clone, Copy)]
pub struct Mode {
    pub name: &'static str,
    pub faults: Faults,
    /// A commit needs one sync instead of two, since the disk guarantees that a crash leaves each byte of a write old
    /// or new.
    pub is_mixing: bool,
    /// Each file fails from some call on, as if the machine stopped, and then crashes.
    pub is_fused: bool,
}

impl Mode {
    /// Returns the number of syncs per commit.
    pub fn syncs(&self) -> &'static str {
        if self.is_mixing { "one" } else { "two" }
    }
}

pub static MODES: [Mode; 18] = [
    Mode {
        name: "crashes",
        faults: Faults::Nothing,
        is_mixing: true,
        is_fused: false,
    },
    Mode {
        name: "crashes",
        faults: Faults::Nothing,
        is_mixing: false,
        is_fused: false,
    },
    Mode {
        name: "prefixes",
        faults: Faults::Prefixes,
        is_mixing: true,
        is_fused: false,
    },
    Mode {
        name: "prefixes",
        faults: Faults::Prefixes,
        is_mixing: false,
        is_fused: false,
    },
    Mode {
        name: "subsets",
        faults: Faults::Subsets,
        is_mixing: true,
        is_fused: false,
    },
    Mode {
        name: "subsets",
        faults: Faults::Subsets,
        is_mixing: false,
        is_fused: false,
    },
    Mode {
        name: "sectors",
        faults: Faults::Sectors,
        is_mixing: true,
        is_fused: false,
    },
    Mode {
        name: "sectors",
        faults: Faults::Sectors,
        is_mixing: false,
        is_fused: false,
    },
    Mode {
        name: "syncs",
        faults: Faults::Syncs,
        is_mixing: true,
        is_fused: false,
    },
    Mode {
        name: "syncs",
        faults: Faults::Syncs,
        is_mixing: false,
        is_fused: false,
    },
    Mode {
        name: "reads",
        faults: Faults::Reads,
        is_mixing: true,
        is_fused: false,
    },
    Mode {
        name: "reads",
        faults: Faults::Reads,
        is_mixing: false,
        is_fused: false,
    },
    Mode {
        name: "resizes",
        faults: Faults::Resizes,
        is_mixing: true,
        is_fused: false,
    },
    Mode {
        name: "resizes",
        faults: Faults::Resizes,
        is_mixing: false,
        is_fused: false,
    },
    Mode {
        name: "all",
        faults: Faults::Anything,
        is_mixing: true,
        is_fused: false,
    },
    Mode {
        name: "all",
        faults: Faults::Anything,
        is_mixing: false,
        is_fused: false,
    },
    Mode {
        name: "fuses",
        faults: Faults::Nothing,
        is_mixing: true,
        is_fused: true,
    },
    Mode {
        name: "fuses",
        faults: Faults::Nothing,
        is_mixing: false,
        is_fused: true,
    },
];

/// Returns a random number below `bound`.
pub fn below(rng: &mut Xoshiro256PlusPlus, bound: u64) -> u64
    requires { 0 < bound }
    ensures { result < bound }
{
    rng.next_u64() % bound
}

fn one_in(denominator: u64) -> Probability {
    Probability::new(1, denominator).unwrap_or(Probability::ZERO)
}

fn torn(rng: &mut Xoshiro256PlusPlus, faults: Faults) -> PartialWriteMode {
    let sectors = match SectorSize::new(512) {
        Some(size) => PartialWriteMode::Sectors(size),
        None => PartialWriteMode::Subset,
    };
    match faults {
        Faults::Prefixes => PartialWriteMode::Prefix,
        Faults::Subsets => PartialWriteMode::Subset,
        Faults::Sectors => sectors,
        _ => match below(rng, 3) {
            0 => PartialWriteMode::Prefix,
            1 => PartialWriteMode::Subset,
            _ => sectors,
        },
    }
}

/// No resize fails in part: a disk of the toolchain's database must guarantee that.
fn resizes(fails: bool) -> ResizeConfig
    ensures { IsNever (partial_resizes (Some result)) }
{
    ResizeConfig {
        failure_rate: if fails { one_in(8) } else { Probability::ZERO },
        partial_rate: Probability::ZERO,
    }
}

/// Returns the rate at which unsynced bytes survive a crash: 0, 1 or 1/2.
fn retention(rng: &mut Xoshiro256PlusPlus) -> Probability {
    match below(rng, 4) {
        0 => Probability::ZERO,
        1 => Probability::ONE,
        _ => one_in(2),
    }
}

impl Faults {
    fn is_write(self) -> bool {
        matches!(
            self,
            Faults::Prefixes | Faults::Subsets | Faults::Sectors | Faults::Anything
        )
    }

    fn is_resize(self) -> bool {
        matches!(self, Faults::Resizes | Faults::Anything)
    }

    fn is_sync(self) -> bool {
        matches!(self, Faults::Syncs | Faults::Anything)
    }

    fn is_read(self) -> bool {
        matches!(self, Faults::Reads | Faults::Anything)
    }

    /// Returns the rates of a disk from one crash to the next.
    pub fn config(self, rng: &mut Xoshiro256PlusPlus) -> Config
        ensures { IsNever (partial_resizes result.resize_rate) }
    {
        let never = Probability::ZERO;
        let writes = WriteConfig {
            failure_rate: if self.is_write() { one_in(100) } else { never },
            retention_rate: retention(rng),
            mode: torn(rng, self),
        };
        Config::default()
            .write(writes)
            .resize(resizes(self.is_resize()))
            .sync(if self.is_sync() { one_in(30) } else { never })
            .read(if self.is_read() { one_in(40) } else { never })
    }
}
