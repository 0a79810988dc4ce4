// What a call draws, read ahead from the generator: it decides what the reply doesn't report.
ghost use Rattle.std.specs.Prelude.{◌≡◌, ◌<◌, ◌+◌, ◌^◌, true};

use crate::event::Draw;
use blob_base::{Error, Probability};
use blob_draws::faults::{ResizeFate, WriteFate, draw_resize, draw_write, draws};
use blob_faulty::Config;
use blob_lab::{Call, Lab, Reply};
use blob_lab_store::Ahead;
use std::alloc::{AllocError, Global};

/// The draws of a call, if its reply doesn't report them.
#[derive(Drop)]
pub(crate) enum Drawn {
    Nothing,
    Write(WriteFate),
    Resize(ResizeFate),
    /// Whether a started sync fails.
    Sync(bool),
}

/// Returns what a call will draw by these rates. The laboratory stays as it is. The only error is `Memory`.
pub(crate) fn draw_ahead(
    alloc: Global,
    lab: &Lab,
    config: &Config,
    call: &Call,
) -> Result<Drawn, Error> {
    match call {
        Call::Write {
            handle,
            offset,
            bytes,
            sync,
        } => {
            let len = bytes.len();
            if draws_write(*sync, *offset, len) && size_of(lab, *handle).is_some() {
                let mut rng = rng_of(lab)?;
                let fate = draw_write(alloc, config, *sync, *offset, len, &mut rng)?;
                return Ok(Drawn::Write(fate));
            }
        }
        Call::Resize { handle, len } => {
            if let Some(size) = size_of(lab, *handle) {
                let fate = draw_resize(config.resize_rate, size, *len, &mut rng_of(lab)?);
                return Ok(Drawn::Resize(fate));
            }
        }
        Call::StartSync(handle) => {
            if size_of(lab, *handle).is_some() {
                return Ok(Drawn::Sync(draws(config.sync_rate, &mut rng_of(lab)?)));
            }
        }
        _ => {}
    }
    Ok(Drawn::Nothing)
}

/// Whether a write makes draws.
fn draws_write(sync: bool, offset: u64, len: usize) -> bool
    ensures { result ≡ true → offset + len < 2 ^ 64 }
{
    (!sync || len > 0) && offset.checked_add(len as u64).is_some()
}

/// Returns the words that the laboratory takes next.
fn rng_of(lab: &Lab) -> Result<Ahead<'_>, Error> {
    Ok(lab.wrapper().rng().ahead()?)
}

/// Returns the tracked size of a handle, or None if there is no such handle. Makes no draw.
fn size_of(lab: &Lab, handle: usize) -> Option<u64> {
    match lab.size(handle) {
        Reply::Size(size) => Some(size),
        _ => None,
    }
}

/// The draws of rates of a call, as they are made ahead.
#[derive(Drop)]
struct Rates<'a> {
    rng: Ahead<'a>,
    made: Vec<Draw>,
}

impl<'a> Rates<'a> {
    /// Makes a draw of a rate. It is listed if it takes a word.
    fn draw(&mut self, word: &'static str, rate: Option<Probability>) -> Result<bool, AllocError> {
        let Some(rate) = rate else {
            return Ok(false);
        };
        let is_true = rate.sample(&mut self.rng);
        if !rate.is_zero() && rate.numerator() < rate.denominator() {
            self.made.push(Draw::Rate(word, is_true))?;
        }
        Ok(is_true)
    }

    /// Makes the draws of a write: of a failed one those of its bytes aren't listed.
    fn draw_write(&mut self, config: &Config, sync: bool) -> Result<(), AllocError> {
        let failure = match &config.write_rate {
            Some(writes) => Some(writes.failure_rate),
            None => None,
        };
        if !self.draw("write", failure)? && sync {
            self.draw("sync", config.sync_rate)?;
        }
        Ok(())
    }

    /// Makes the draws of rates of a resize.
    fn draw_resize(&mut self, config: &Config) -> Result<(), AllocError> {
        if let Some(resizes) = config.resize_rate {
            if self.draw("resize", Some(resizes.failure_rate))? {
                self.draw("partial", Some(resizes.partial_rate))?;
            } else {
                self.draw("survives", Some(resizes.failure_rate))?;
            }
        }
        Ok(())
    }
}

/// Returns the draws of rates that a call will make, if it gets so far. The laboratory stays as it is.
pub(crate) fn rates_ahead(
    alloc: Global,
    lab: &Lab,
    config: &Config,
    call: &Call,
) -> Result<Vec<Draw>, Error> {
    let mut rates = Rates {
        rng: rng_of(lab)?,
        made: Vec::new(alloc),
    };
    match call {
        Call::Open { .. } | Call::OpenLoose { .. } => {
            rates.draw("open", config.open_rate)?;
        }
        Call::Read { .. } => {
            rates.draw("read", config.read_rate)?;
        }
        Call::Sync(_) | Call::StartSync(_) => {
            rates.draw("sync", config.sync_rate)?;
        }
        Call::Remove { .. } => {
            rates.draw("remove", config.remove_rate)?;
        }
        Call::Scan { .. } => {
            rates.draw("scan", config.scan_rate)?;
        }
        Call::Write {
            offset,
            bytes,
            sync,
            ..
        } if draws_write(*sync, *offset, bytes.len()) => rates.draw_write(config, *sync)?,
        Call::Resize { .. } => rates.draw_resize(config)?,
        _ => {}
    }
    let Rates { rng: _, made } = rates;
    Ok(made)
}
