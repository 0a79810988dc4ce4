//! The calls of a script of files, and their words.
ghost use Rattle.std.specs.Prelude.{◌≡◌, ℕ, List, Err, IfOk, None, Some, option_map};
ghost use Rattle.blob_tokens.specs.Forms.{hex};
ghost use Rattle.blob_file_scripts.specs.CallLines.{Makes, by_number, call, entry, file, file_act, how, in_directory, file_of, moves, of_all, on_files, path, said_by};
ghost use Rattle.blob_fs.specs.Acts.{act_of, look_act, number_act};

use crate::path_text::read_path;
use blob_fs::call::{Call, LookUp, NumberCall, PathCall};
use blob_fs::{Descriptor, Rename};
use blob_tokens::RefusedLine;
use blob_tokens::token::{Tokens, number};
use std::alloc::Global;

/// A file: by a path, or by the number of a descriptor.
#[derive(Clone, Copy)]
pub enum Named<'a> {
    Path(&'a [u8]),
    Descriptor(Descriptor),
}

/// A call on a file.
#[derive(Clone, Copy)]
pub enum OnFile<'a> {
    Size,
    Sync,
    SyncData,
    Truncate(u64),
    Read { offset: u64, len: usize },
    Write { offset: u64, bytes: &'a [u8] },
}

/// The call of a line.
#[derive(Clone, Copy)]
pub enum Line<'a> {
    Call(Call<'a>),
    /// A call on a file. If the file is given by its path, it is opened before the call, and closed after it.
    On(Named<'a>, OnFile<'a>),
}

impl<'a> OnFile<'a> {
    /// Returns the call on an open file.
    pub fn through(self, file: Descriptor) -> Call<'a>
        ensures { act_of result ≡ file_act self.entry file }
    {
        let call = match self {
            OnFile::Size => return Call::LookUp(LookUp::Size(file)),
            OnFile::Sync => NumberCall::Sync(file),
            OnFile::SyncData => NumberCall::SyncData(file),
            OnFile::Truncate(length) => NumberCall::Truncate { file, length },
            OnFile::Read { offset, len } => NumberCall::Read { file, offset, len },
            OnFile::Write { offset, bytes } => NumberCall::Write {
                file,
                offset,
                bytes,
            },
        };
        Call::ByNumber(call)
    }
}

/// Parses the next token as a path, into `buffer`.
fn path<'a>(
    alloc: Global,
    tokens: &mut Tokens,
    buffer: &'a mut Vec<u8>,
) -> Result<&'a [u8], RefusedLine>
    ensures ok { IfOk result (λ read. path tokens.old ≡ Some (read.now, tokens.new)) }
    ensures bad { result ≡ Err RefusedLine.BadCall → path tokens.old ≡ None }
{
    let token = tokens.next().ok_or(RefusedLine::BadCall)?;
    *buffer = read_path(alloc, token)?;
    Ok(buffer)
}

/// Parses the next token as bytes, into `buffer`.
fn bytes<'a>(
    alloc: Global,
    tokens: &mut Tokens,
    buffer: &'a mut Vec<u8>,
) -> Result<&'a [u8], RefusedLine>
    ensures ok { IfOk result (λ read. hex tokens.old ≡ Some (read.now, tokens.new)) }
    ensures bad { result ≡ Err RefusedLine.BadCall → hex tokens.old ≡ None }
{
    *buffer = tokens.bytes(alloc)?;
    Ok(buffer)
}

/// Parses the next token as a file.
fn file<'a>(
    alloc: Global,
    tokens: &mut Tokens,
    buffer: &'a mut Vec<u8>,
) -> Result<Named<'a>, RefusedLine>
    ensures ok { IfOk result (λ read. file tokens.old ≡ Some (file_of read, tokens.new)) }
    ensures bad { result ≡ Err RefusedLine.BadCall → file tokens.old ≡ None }
{
    let token = tokens.next().ok_or(RefusedLine::BadCall)?;
    match number(token) {
        Some(descriptor) => Ok(Named::Descriptor(Descriptor::numbered(descriptor))),
        None => {
            *buffer = read_path(alloc, token)?;
            Ok(Named::Path(buffer))
        }
    }
}

/// Parses what a rename does if the new name is taken: nothing more, `noreplace` or `exchange`.
fn how(tokens: &mut Tokens) -> Result<Rename, RefusedLine>
    ensures ok { IfOk result (λ read. how tokens.old ≡ Some (read, tokens.new)) }
    ensures bad { result ≡ Err RefusedLine.BadCall → how tokens.old ≡ None }
{
    match tokens.next() {
        None => Ok(Rename::Replace),
        Some("noreplace") => Ok(Rename::NoReplace),
        Some("exchange") => Ok(Rename::Exchange),
        Some(_) => Err(RefusedLine::BadCall),
    }
}

/// Parses a call on the whole file system. Returns `None` if no call has this word.
fn of_all<'a>(word: &str) -> Option<Line<'a>>
    ensures { (tokens : List (List ℕ)) → of_all word.now tokens ≡ Some (option_map said_by result, tokens) }
{
    let call = match word {
        "sync" => Call::ByNumber(NumberCall::SyncAll),
        "settle" => Call::ByNumber(NumberCall::Settle),
        "commit" => Call::Commit,
        "crash" => Call::Crash,
        "tree" => Call::Tree,
        _ => return None,
    };
    Some(Line::Call(call))
}

/// Parses a call by the number of an inode, a directory or a descriptor, or one on the whole file system.
fn by_number<'a>(word: &str, tokens: &mut Tokens) -> Result<Option<Line<'a>>, RefusedLine>
    ensures ok { IfOk result (λ read. by_number word.now tokens.old ≡ Some (option_map said_by read, tokens.new)) }
    ensures bad { result ≡ Err RefusedLine.BadCall → by_number word.now tokens.old ≡ None }
{
    let call = match word {
        "open_inode" => NumberCall::Open(tokens.number()?),
        "open_inode_truncated" => NumberCall::OpenTruncated(tokens.number()?),
        "fsyncdir_at" => NumberCall::SyncDirectory(tokens.number()?),
        "close" => NumberCall::Close(Descriptor::numbered(tokens.number()?)),
        "listdir_at" => return Ok(Some(looks(LookUp::Names(tokens.number()?)))),
        "inode_of" => {
            let file = Descriptor::numbered(tokens.number()?);
            return Ok(Some(looks(LookUp::Inode(file))));
        }
        _ => return Ok(of_all(word)),
    };
    Ok(Some(Line::Call(Call::ByNumber(call))))
}

fn looks(call: LookUp<'_>) -> Line<'_>
    ensures { said_by result ≡ Makes (look_act call.entry) }
{
    Line::Call(Call::LookUp(call))
}

/// Parses a call on a file, or one by a number.
fn on_files<'a>(
    alloc: Global,
    word: &str,
    tokens: &mut Tokens,
    buffers: (&'a mut Vec<u8>, &'a mut Vec<u8>),
) -> Result<Option<Line<'a>>, RefusedLine>
    ensures ok { IfOk result (λ read. on_files word.now tokens.old ≡ Some (option_map said_by read, tokens.new)) }
    ensures bad { result ≡ Err RefusedLine.BadCall → on_files word.now tokens.old ≡ None }
{
    let (first, second) = buffers;
    match word {
        "size" => Ok(Some(Line::On(file(alloc, tokens, first)?, OnFile::Size))),
        "fsync" => Ok(Some(Line::On(file(alloc, tokens, first)?, OnFile::Sync))),
        "fdatasync" => Ok(Some(Line::On(file(alloc, tokens, first)?, OnFile::SyncData))),
        "truncate" => {
            let file = file(alloc, tokens, first)?;
            let length = tokens.number()?;
            Ok(Some(Line::On(file, OnFile::Truncate(length))))
        }
        "read" => {
            let file = file(alloc, tokens, first)?;
            let offset = tokens.number()?;
            let len = tokens.number()? as usize;
            Ok(Some(Line::On(file, OnFile::Read { offset, len })))
        }
        "write" => {
            let file = file(alloc, tokens, first)?;
            let offset = tokens.number()?;
            let bytes = bytes(alloc, tokens, second)?;
            Ok(Some(Line::On(file, OnFile::Write { offset, bytes })))
        }
        _ => by_number(word, tokens),
    }
}

/// Parses the next tokens as a directory's number and a name in it, into `buffer`.
fn entry<'a>(
    alloc: Global,
    tokens: &mut Tokens,
    buffer: &'a mut Vec<u8>,
) -> Result<(u64, &'a [u8]), RefusedLine>
    ensures ok { IfOk result (λ read. entry tokens.old ≡ Some ((read.0, read.1.now), tokens.new)) }
    ensures bad { result ≡ Err RefusedLine.BadCall → entry tokens.old ≡ None }
{
    let directory = tokens.number()?;
    let name = path(alloc, tokens, buffer)?;
    Ok((directory, name))
}

/// Parses the tokens of a rename by the numbers of directories.
fn rename_at<'a>(
    alloc: Global,
    tokens: &mut Tokens,
    buffers: (&'a mut Vec<u8>, &'a mut Vec<u8>),
) -> Result<NumberCall<'a>, RefusedLine>
    ensures ok { IfOk result (λ read. moves tokens.old ≡ Some (number_act read, tokens.new)) }
    ensures bad { result ≡ Err RefusedLine.BadCall → moves tokens.old ≡ None }
{
    let (first, second) = buffers;
    let (from, old) = entry(alloc, tokens, first)?;
    let (to, new) = entry(alloc, tokens, second)?;
    let how = how(tokens)?;
    Ok(NumberCall::Rename {
        from,
        old,
        to,
        new,
        how,
    })
}

/// Parses a call by the number of a directory and a name, or one of the others.
fn in_directory<'a>(
    alloc: Global,
    word: &str,
    tokens: &mut Tokens,
    buffers: (&'a mut Vec<u8>, &'a mut Vec<u8>),
) -> Result<Option<Line<'a>>, RefusedLine>
    ensures ok { IfOk result (λ read. in_directory word.now tokens.old ≡ Some (option_map said_by read, tokens.new)) }
    ensures bad { result ≡ Err RefusedLine.BadCall → in_directory word.now tokens.old ≡ None }
{
    let (first, second) = buffers;
    let call = match word {
        "create_at" => {
            let (directory, name) = entry(alloc, tokens, first)?;
            NumberCall::Create { directory, name }
        }
        "link_at" => {
            let inode = tokens.number()?;
            let (directory, name) = entry(alloc, tokens, first)?;
            NumberCall::Link {
                inode,
                directory,
                name,
            }
        }
        "unlink_at" => {
            let (directory, name) = entry(alloc, tokens, first)?;
            NumberCall::Unlink { directory, name }
        }
        "rename_at" => rename_at(alloc, tokens, (first, second))?,
        "mkdir_at" => {
            let (directory, name) = entry(alloc, tokens, first)?;
            NumberCall::MakeDirectory { directory, name }
        }
        "rmdir_at" => {
            let (directory, name) = entry(alloc, tokens, first)?;
            NumberCall::RemoveDirectory { directory, name }
        }
        "find_at" => {
            let (directory, name) = entry(alloc, tokens, first)?;
            return Ok(Some(looks(LookUp::Find { directory, name })));
        }
        _ => return on_files(alloc, word, tokens, (first, second)),
    };
    Ok(Some(Line::Call(Call::ByNumber(call))))
}

/// Parses the call of a word and the tokens after it, as many as it takes. Returns `None` if no call has this word. The call has its
/// paths and bytes in the buffers.
///
/// # Errors
///
/// `BadCall` if a token is missing or isn't what the call takes, `NoMemory`.
pub fn read_call<'a>(
    alloc: Global,
    word: &str,
    tokens: &mut Tokens,
    buffers: (&'a mut Vec<u8>, &'a mut Vec<u8>),
) -> Result<Option<Line<'a>>, RefusedLine>
    ensures ok { IfOk result (λ read. call word.now tokens.old ≡ Some (option_map said_by read, tokens.new)) }
    ensures bad { result ≡ Err RefusedLine.BadCall → call word.now tokens.old ≡ None }
{
    let (first, second) = buffers;
    let call = match word {
        "create" => PathCall::Create(path(alloc, tokens, first)?),
        "open" => PathCall::Open(path(alloc, tokens, first)?),
        "open_truncated" => PathCall::OpenTruncated(path(alloc, tokens, first)?),
        "link" => {
            let old = path(alloc, tokens, first)?;
            let to = path(alloc, tokens, second)?;
            PathCall::Link { path: old, to }
        }
        "unlink" => PathCall::Unlink(path(alloc, tokens, first)?),
        "rename" => {
            let old = path(alloc, tokens, first)?;
            let to = path(alloc, tokens, second)?;
            let how = how(tokens)?;
            PathCall::Rename { path: old, to, how }
        }
        "mkdir" => PathCall::MakeDirectory(path(alloc, tokens, first)?),
        "rmdir" => PathCall::RemoveDirectory(path(alloc, tokens, first)?),
        "listdir" => PathCall::List(path(alloc, tokens, first)?),
        "fsyncdir" => PathCall::SyncDirectory(path(alloc, tokens, first)?),
        "find" => PathCall::Find(path(alloc, tokens, first)?),
        _ => return in_directory(alloc, word, tokens, (first, second)),
    };
    Ok(Some(Line::Call(Call::ByPath(call))))
}
