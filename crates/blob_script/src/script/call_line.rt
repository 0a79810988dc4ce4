// The lines of calls.
ghost use Rattle.std.specs.Prelude.{◌≡◌, IfOk, Some, None, option_map, codes, if◌then◌else◌};
ghost use Rattle.std.specs.Range.{range_inclusive_start, range_inclusive_end, range_inclusive_exhausted};
ghost use Rattle.blob_script.specs.Acts.{Open, OpenLoose, act_of, versions_of};
ghost use Rattle.blob_script.specs.CallLines.{call, open_form, versions, writing};
ghost use Rattle.blob_tokens.specs.Forms.{name};
ghost use Rattle.blob_tokens.specs.Tokens.{version_of};

use crate::Call;
use crate::script::RefusedLine;
use crate::script::token::{Tokens, bytes, number};
use blob_base::{BlobVersion, DEFAULT_BLOB_VERSION};
use std::alloc::Global;
use std::ops::RangeInclusive;

/// Parses a call. `word` is its first token. Leaves the tokens after the call.
pub(crate) fn call(alloc: Global, word: &str, tokens: &mut Tokens) -> Result<Call, RefusedLine>
    ensures ok { IfOk result (λ asked. call word.now tokens.old ≡ Some (act_of asked, tokens.new)) }
    ensures bad { result ≡ Err RefusedLine.BadCall → call word.now tokens.old ≡ None }
{
    match word {
        "open" => open(alloc, tokens, false),
        "loose" => open(alloc, tokens, true),
        "admit" => admit(alloc, tokens),
        "close" => Ok(Call::Close(tokens.number()? as usize)),
        "read" => read(tokens),
        "write" => write(alloc, tokens, false),
        "writes" => write(alloc, tokens, true),
        "resize" => resize(tokens),
        "size" => Ok(Call::Size(tokens.number()? as usize)),
        "sync" => Ok(Call::Sync(tokens.number()? as usize)),
        "startsync" => Ok(Call::StartSync(tokens.number()? as usize)),
        "finish" => Ok(Call::Finish(tokens.number()? as usize)),
        "remove" => remove(alloc, tokens),
        "scan" => scan(alloc, tokens),
        "crash" => Ok(Call::Crash),
        "reopen" => Ok(Call::Reopen),
        _ => Err(RefusedLine::BadCall),
    }
}

/// Parses the tokens of an open, or of a loose one.
fn open(alloc: Global, tokens: &mut Tokens, loose: bool) -> Result<Call, RefusedLine>
    ensures ok { IfOk result (λ c. open_form (if loose then OpenLoose else Open) tokens.old ≡ Some (act_of c, tokens.new)) }
    ensures bad { result ≡ Err RefusedLine.BadCall → open_form (if loose then OpenLoose else Open) tokens.old ≡ None }
{
    let (partition, name) = (tokens.text(alloc)?, tokens.bytes(alloc)?);
    let versions = versions(tokens)?;
    if loose {
        return Ok(Call::OpenLoose {
            partition,
            name,
            versions,
        });
    }
    Ok(Call::Open {
        partition,
        name,
        versions,
    })
}

fn admit(alloc: Global, tokens: &mut Tokens) -> Result<Call, RefusedLine>
    ensures ok { IfOk result (λ asked. call (codes "admit") tokens.old ≡ Some (act_of asked, tokens.new)) }
    ensures bad { result ≡ Err RefusedLine.BadCall → call (codes "admit") tokens.old ≡ None }
{
    Ok(Call::Admit {
        partition: tokens.text(alloc)?,
        name: tokens.bytes(alloc)?,
    })
}

fn read(tokens: &mut Tokens) -> Result<Call, RefusedLine>
    ensures ok { IfOk result (λ asked. call (codes "read") tokens.old ≡ Some (act_of asked, tokens.new)) }
    ensures bad { result ≡ Err RefusedLine.BadCall → call (codes "read") tokens.old ≡ None }
{
    Ok(Call::Read {
        handle: tokens.number()? as usize,
        offset: tokens.number()?,
        len: tokens.number()? as usize,
    })
}

fn write(alloc: Global, tokens: &mut Tokens, sync: bool) -> Result<Call, RefusedLine>
    ensures ok { IfOk result (λ asked. writing sync tokens.old ≡ Some (act_of asked, tokens.new)) }
    ensures bad { result ≡ Err RefusedLine.BadCall → writing sync tokens.old ≡ None }
{
    Ok(Call::Write {
        handle: tokens.number()? as usize,
        offset: tokens.number()?,
        bytes: tokens.bytes(alloc)?,
        sync,
    })
}

fn resize(tokens: &mut Tokens) -> Result<Call, RefusedLine>
    ensures ok { IfOk result (λ asked. call (codes "resize") tokens.old ≡ Some (act_of asked, tokens.new)) }
    ensures bad { result ≡ Err RefusedLine.BadCall → call (codes "resize") tokens.old ≡ None }
{
    Ok(Call::Resize {
        handle: tokens.number()? as usize,
        len: tokens.number()?,
    })
}

fn remove(alloc: Global, tokens: &mut Tokens) -> Result<Call, RefusedLine>
    ensures ok { IfOk result (λ asked. call (codes "remove") tokens.old ≡ Some (act_of asked, tokens.new)) }
    ensures bad { result ≡ Err RefusedLine.BadCall → call (codes "remove") tokens.old ≡ None }
{
    Ok(Call::Remove {
        partition: tokens.text(alloc)?,
        name: name(alloc, tokens)?,
    })
}

fn scan(alloc: Global, tokens: &mut Tokens) -> Result<Call, RefusedLine>
    ensures ok { IfOk result (λ asked. call (codes "scan") tokens.old ≡ Some (act_of asked, tokens.new)) }
    ensures bad { result ≡ Err RefusedLine.BadCall → call (codes "scan") tokens.old ≡ None }
{
    Ok(Call::Scan {
        partition: tokens.text(alloc)?,
    })
}

/// Parses the next token as bytes, if there is one.
fn name(alloc: Global, tokens: &mut Tokens) -> Result<Option<Vec<u8>>, RefusedLine>
    ensures ok { IfOk result (λ read. name tokens.old ≡ Some (option_map (λ bytes. bytes.items) read, tokens.new)) }
    ensures bad { result ≡ Err RefusedLine.BadCall → name tokens.old ≡ None }
{
    match tokens.next() {
        Some(token) => Ok(Some(bytes(alloc, token)?)),
        None => Ok(None),
    }
}

/// Parses the next two tokens as versions. If there are no tokens, returns the default version only.
fn versions(tokens: &mut Tokens) -> Result<RangeInclusive<BlobVersion>, RefusedLine>
    ensures ok { IfOk result (λ read. versions tokens.old ≡ Some (versions_of read, tokens.new)) }
    ensures bad { result ≡ Err RefusedLine.BadCall → versions tokens.old ≡ None }
{
    let Some(first) = tokens.next() else {
        return Ok(DEFAULT_BLOB_VERSION..=DEFAULT_BLOB_VERSION);
    };
    let last = tokens.next().ok_or(RefusedLine::BadCall)?;
    Ok(version(first)?..=version(last)?)
}

fn version(token: &str) -> Result<BlobVersion, RefusedLine>
    ensures ok { IfOk result (λ read. version_of token.now ≡ Some read.0) }
    ensures bad { result ≡ Err RefusedLine.BadCall → version_of token.now ≡ None }
{
    let number = number(token).ok_or(RefusedLine::BadCall)?;
    match u16::try_from(number) {
        Ok(number) => Ok(BlobVersion::new(number)),
        Err(_) => Err(RefusedLine::BadCall),
    }
}
