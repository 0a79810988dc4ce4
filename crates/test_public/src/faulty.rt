//! The configuration of the fault wrapper, and its generator.
use blob_base::{Probability, SectorSize};
use blob_faulty::{Config, PartialWriteMode, ResizeConfig, Storage as Wrapper, WriteConfig};
use blob_lab::ScriptedRng;
use blob_memory::Storage as Memory;
use std::test::Fail;

/// No write fails; a crash keeps what half of the draws choose.
fn halves(mode: PartialWriteMode) -> WriteConfig {
    WriteConfig {
        failure_rate: Probability::ZERO,
        retention_rate: Probability::new(1, 2).unwrap_or(Probability::ZERO),
        mode,
    }
}

/// Every resize fails, in part.
fn failing_resizes() -> ResizeConfig {
    ResizeConfig {
        failure_rate: Probability::ONE,
        partial_rate: Probability::ONE,
    }
}

#[test]
fn configurations(rt: HostRuntime) {
    let one = Probability::ONE;
    let built = Config::default()
        .open(one)
        .read(one)
        .write(halves(PartialWriteMode::Prefix));
    let built = built
        .sync(one)
        .resize(failing_resizes())
        .remove(one)
        .scan(one);
    let whole = Config {
        open_rate: Some(one),
        read_rate: Some(one),
        write_rate: Some(halves(PartialWriteMode::Prefix)),
        sync_rate: Some(one),
        resize_rate: Some(failing_resizes()),
        remove_rate: Some(one),
        scan_rate: Some(one),
    };
    assert!(rt; built == whole);
}

/// Every mode by its name.
pub fn number(mode: PartialWriteMode) -> u64 {
    match mode {
        PartialWriteMode::Prefix => 0,
        PartialWriteMode::Subset => 1,
        PartialWriteMode::Sectors(size) => SectorSize::get(size),
    }
}

pub fn replace_rng(store: &mut Wrapper<Memory, ScriptedRng>, rng: ScriptedRng) -> ScriptedRng {
    store.replace_rng(rng)
}

/// A rate between takes a word, 0 and 1 take none.
#[test]
fn draws_of_a_rate(rt: HostRuntime) -> Result<(), Fail> {
    let alloc = rt.alloc();
    let mut words = Vec::new(alloc);
    words.push(0)?;
    words.push(u64::MAX)?;
    let rng = ScriptedRng::new(words);
    let mut store = Wrapper::new(alloc, Memory::new(alloc), rng, Config::default());
    let half = Probability::new(1, 2).unwrap_or(Probability::ZERO);
    assert!(rt; store.draw(Probability::ONE) && !store.draw(Probability::ZERO));
    assert!(rt; store.draw(half));
    assert!(rt; !store.draw(half));
    assert!(rt; store.rng().left() == Some(0));
    Ok(())
}
