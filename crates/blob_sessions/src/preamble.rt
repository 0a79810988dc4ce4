// What a session is opened with: the lines of a script before its calls, and settings.
ghost use Rattle.std.specs.Prelude.{◌≡◌, ◌<◌, ◌+◌, ◌-◌, ◌^◌, ℕ, IfOk, IfErr, OnOk};
ghost use Rattle.blob_script.specs.Acts.{act_of};
ghost use Rattle.blob_script.specs.Readers.{lines_read};
ghost use Rattle.blob_lab.specs.Scripts.{lines_of};
ghost use Rattle.blob_sessions.specs.Preambles.{AddsSetting, BreaksAt, IsMadeOf, IsSetting, ReadsSettings, RefusesSetting};

use crate::kept::Kept;
use blob_lab::script::setting::copy_of;
use blob_lab::script::{Reader, RefusedLine};
use blob_lab::{Call, Lab, first_line};
use std::alloc::Global;

/// Why a text opens no session.
pub enum RefusedPreamble {
    /// This line, counted from 1, isn't allowed after those before it.
    BadLine(u64),
    NoMemory,
}

/// Returns a laboratory with the text's images, words, seed and settings.
pub fn start(alloc: Global, text: &[u8]) -> Result<Kept, RefusedPreamble>
    ensures ok { IfOk result (λ kept. IsMadeOf kept (lines_of text.now)) }
    ensures bad { (number : ℕ) → result ≡ Err (RefusedPreamble.BadLine number) → BreaksAt (lines_of text.now) number }
{
    let mut reader = read(alloc, text)?;
    let settings = copy_of(reader.config());
    match Lab::from_preamble(reader.begin(), copy_of(&settings)) {
        Ok(lab) => Ok(Kept::new(alloc, lab, settings)),
        Err(_) => Err(RefusedPreamble::NoMemory),
    }
}

fn read(alloc: Global, text: &[u8]) -> Result<Reader, RefusedPreamble>
    ensures ok { IfOk result (ReadsSettings (lines_of text.now)) }
    ensures bad { (number : ℕ) → result ≡ Err (RefusedPreamble.BadLine number) → BreaksAt (lines_of text.now) number }
{
    let mut reader = Reader::new(alloc);
    let mut rest = text;
    'lines: while let Some((line, others)) = first_line(rest) {
        add(&mut reader, line)?;
        rest = others;
    }
    Ok(reader)
}

/// Reads the next line. It makes no call, or sets something.
fn add(reader: &mut Reader, line: &[u8]) -> Result<(), RefusedPreamble>
    requires { lines_read reader.old < 2 ^ 64 - 1 }
    ensures ok { OnOk result (AddsSetting reader.old line.now reader.new) }
    ensures number { lines_read reader.new ≡ lines_read reader.old + 1 }
    ensures bad { (number : ℕ) → result ≡ Err (RefusedPreamble.BadLine number) → RefusesSetting reader.old line.now number }
{
    match reader.read(line) {
        Ok(None) => Ok(()),
        Ok(Some(call)) => check_setting(&call, reader.number()),
        Err(RefusedLine::BadCall) => Err(RefusedPreamble::BadLine(reader.number())),
        Err(RefusedLine::NoMemory) => Err(RefusedPreamble::NoMemory),
    }
}

/// Rejects a call that isn't a setting.
fn check_setting(call: &Call, number: u64) -> Result<(), RefusedPreamble>
    ensures ok { OnOk result (IsSetting (act_of call.now)) }
    ensures bad { IfErr result (λ refused. (refused ≡ RefusedPreamble.BadLine number) × (IsSetting (act_of call.now) → ⊥)) }
{
    match call {
        Call::Configure(_) => Ok(()),
        _ => Err(RefusedPreamble::BadLine(number)),
    }
}
