// The lines that set what a file system does, other than those of a script of blobs.
use blob_base::Probability;
use blob_fs::{FailedSync, FailedWrite, Keeps, Options, Profile, Syncs};
use blob_lab::script::{Line, RefusedLine, read_line};
use blob_script::script::setting::copy_of;
use blob_script::script::token::Tokens;
use std::alloc::Global;

/// A change of a file system's options. Faults are set by the lines of a script of blobs.
#[derive(Clone, Copy)]
pub enum FileSetting {
    /// What a crash may leave and a sync settles.
    Profile(Profile),
    /// Which of the edits that nothing settled a crash may keep, in place of what the profile says.
    Edits(Keeps),
    /// How often a crash keeps an edit that nothing settled.
    Keep(Probability),
    /// The limits.
    Space { bytes: u64, files: u64 },
    FailedSync(FailedSync),
    Syncs(Syncs),
    FailedWrite(FailedWrite),
}

/// What a line says that is no call on files.
#[derive(Drop)]
pub enum FileLine {
    Set(FileSetting),
    /// A line of a script of blobs.
    Shared(Line),
}

/// Returns the profile with a name.
fn profile(tokens: &mut Tokens) -> Option<Profile> {
    match tokens.next()? {
        "ext4" => Some(Profile::ext4()),
        "xfs" => Some(Profile::xfs()),
        "btrfs" => Some(Profile::btrfs()),
        "posix" => Some(Profile::posix()),
        _ => None,
    }
}

/// Returns which edits a crash may keep, by its name.
fn edits(tokens: &mut Tokens) -> Option<Keeps> {
    match tokens.next()? {
        "prefix" => Some(Keeps::Prefix),
        "any" => Some(Keeps::Any),
        "logged" => Some(Keeps::Logged),
        _ => None,
    }
}

/// Returns what a sync that fails does, by its name.
fn failed_sync(tokens: &mut Tokens) -> Option<FailedSync> {
    match tokens.next()? {
        "keeps" => Some(FailedSync::Keeps),
        "drops" => Some(FailedSync::Drops),
        _ => None,
    }
}

/// Returns whether syncs lie, by its name.
fn syncs(tokens: &mut Tokens) -> Option<Syncs> {
    match tokens.next()? {
        "honest" => Some(Syncs::Honest),
        "lie" => Some(Syncs::Lie),
        _ => None,
    }
}

/// Returns what a write that fails writes, by its name.
fn failed_write(tokens: &mut Tokens) -> Option<FailedWrite> {
    match tokens.next()? {
        "mode" => Some(FailedWrite::ByMode),
        "prefix" => Some(FailedWrite::Prefix),
        _ => None,
    }
}

fn rate(tokens: &mut Tokens) -> Result<Probability, RefusedLine> {
    let numerator = tokens.number()?;
    let denominator = tokens.number()?;
    Probability::new(numerator, denominator).ok_or(RefusedLine::BadCall)
}

/// Parses a line that is no call on files, without its line feed. The caller checks whether it is allowed after those before it.
///
/// # Errors
///
/// `BadCall` if it is no such line, `NoMemory`.
pub fn read_file_line(alloc: Global, line: &[u8]) -> Result<FileLine, RefusedLine> {
    let Ok(text) = std::str::from_utf8(line) else {
        return Err(RefusedLine::BadCall);
    };
    let mut tokens = Tokens::new(text);
    let setting = match tokens.next() {
        Some("profile") => {
            FileSetting::Profile(profile(&mut tokens).ok_or(RefusedLine::BadCall)?)
        }
        Some("edits") => FileSetting::Edits(edits(&mut tokens).ok_or(RefusedLine::BadCall)?),
        Some("keep") => FileSetting::Keep(rate(&mut tokens)?),
        Some("space") => FileSetting::Space {
            bytes: tokens.number()?,
            files: tokens.number()?,
        },
        Some("failed_sync") => {
            FileSetting::FailedSync(failed_sync(&mut tokens).ok_or(RefusedLine::BadCall)?)
        }
        Some("syncs") => FileSetting::Syncs(syncs(&mut tokens).ok_or(RefusedLine::BadCall)?),
        Some("failed_write") => {
            FileSetting::FailedWrite(failed_write(&mut tokens).ok_or(RefusedLine::BadCall)?)
        }
        _ => return Ok(FileLine::Shared(read_line(alloc, line)?)),
    };
    match tokens.next() {
        None => Ok(FileLine::Set(setting)),
        Some(_) => Err(RefusedLine::BadCall),
    }
}

/// Returns the options of a file system without settings: ext4, no fault, no limit; a crash loses all bytes that aren't synced, and
/// keeps an unsettled edit with a rate of 1/2. A sync that fails keeps the bytes unsynced, no sync lies, and a write that fails
/// writes by its mode.
pub fn first_options() -> Options {
    Options {
        profile: Profile::ext4(),
        faults: blob_faulty::Config::default(),
        edit_rate: Probability::new(1, 2).unwrap_or(Probability::ZERO),
        max_bytes: u64::MAX,
        max_files: u64::MAX,
        failed_sync: FailedSync::Keeps,
        syncs: Syncs::Honest,
        failed_write: FailedWrite::ByMode,
    }
}

/// Returns a copy of options.
pub fn copied(options: &Options) -> Options {
    Options {
        profile: options.profile,
        faults: copy_of(&options.faults),
        edit_rate: options.edit_rate,
        max_bytes: options.max_bytes,
        max_files: options.max_files,
        failed_sync: options.failed_sync,
        syncs: options.syncs,
        failed_write: options.failed_write,
    }
}

impl FileSetting {
    /// Returns the options with this change.
    pub fn apply(self, options: &Options) -> Options {
        let mut changed = copied(options);
        match self {
            FileSetting::Profile(profile) => changed.profile = profile,
            FileSetting::Edits(keeps) => changed.profile.keeps = keeps,
            FileSetting::Keep(rate) => changed.edit_rate = rate,
            FileSetting::Space { bytes, files } => {
                changed.max_bytes = bytes;
                changed.max_files = files;
            }
            FileSetting::FailedSync(does) => changed.failed_sync = does,
            FileSetting::Syncs(syncs) => changed.syncs = syncs,
            FileSetting::FailedWrite(writes) => changed.failed_write = writes,
        }
        changed
    }
}
