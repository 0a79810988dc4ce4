// The words of lines of files, by the numbers of what they name, and all tables of words.
ghost use Rattle.std.specs.Prelude.{◌≡◌, option_map};
ghost use Rattle.blob_file_sessions.specs.Names.{CopiesWord, file_refusal_words, kind_word, profile_words, refusal_word, rename_words, tables, word_in, word_of};
ghost use Rattle.blob_sessions.specs.Typed.{by_kind};

use crate::kinds::{
    CLOSE, COMMIT, CRASH, CREATE, CREATE_AT, FIND, FIND_AT, INODE_OF, LINK, LINK_AT, LIST, LIST_AT,
    MAKE_DIRECTORY, MAKE_DIRECTORY_AT, OPEN, OPEN_INODE, OPEN_INODE_TRUNCATED, OPEN_TRUNCATED,
    READ, REMOVE_DIRECTORY, REMOVE_DIRECTORY_AT, RENAME, RENAME_AT, SETTLE, SIZE, SYNC, SYNC_ALL,
    SYNC_DATA, SYNC_DIRECTORY, SYNC_DIRECTORY_AT, TREE, TRUNCATE, UNLINK, UNLINK_AT, WRITE,
};
use crate::parts::copied;
use crate::refusals::{
    CRASHED, EXISTS, INVALID_NAME, IS_DIRECTORY, LOOP, NAME_TOO_LONG, NO_SPACE, NOT_DIRECTORY,
    NOT_EMPTY, NOT_FOUND, STALE, TOO_MANY_LINKS,
};
use blob_sessions::ran::OTHER_REPLY;
use blob_sessions::{Ran, names};

/// The table of the first words of lines of a store, by kinds.
pub const KINDS: u32 = 0;
/// The same of files.
pub const FILE_KINDS: u32 = 1;
/// The table of the words of refusals, by statuses.
pub const REFUSALS: u32 = 2;
/// The table of the words of profiles, from 0.
pub const PROFILES: u32 = 3;
/// The table of the words of partial write modes, from 0.
pub const MODES: u32 = 4;
/// The table of what renames do if the new name is taken.
pub const RENAMES: u32 = 5;

/// A table of words.
#[derive(Clone, Copy)]
pub enum Table {
    OfStore,
    OfFiles,
    OfRefusals,
    OfProfiles,
    OfModes,
    OfRenames,
}

/// Returns the first word of the lines of a kind's calls.
pub fn kind_word(kind: u32) -> Option<&'static str>
    ensures { option_map (λ word. word.now) result ≡ kind_word kind }
{
    Some(match kind {
        CREATE => "create",
        OPEN => "open",
        OPEN_TRUNCATED => "open_truncated",
        LINK => "link",
        UNLINK => "unlink",
        RENAME => "rename",
        MAKE_DIRECTORY => "mkdir",
        REMOVE_DIRECTORY => "rmdir",
        LIST => "listdir",
        SYNC_DIRECTORY => "fsyncdir",
        FIND => "find",
        CREATE_AT => "create_at",
        LINK_AT => "link_at",
        UNLINK_AT => "unlink_at",
        RENAME_AT => "rename_at",
        MAKE_DIRECTORY_AT => "mkdir_at",
        REMOVE_DIRECTORY_AT => "rmdir_at",
        LIST_AT => "listdir_at",
        SYNC_DIRECTORY_AT => "fsyncdir_at",
        FIND_AT => "find_at",
        OPEN_INODE => "open_inode",
        OPEN_INODE_TRUNCATED => "open_inode_truncated",
        CLOSE => "close",
        TRUNCATE => "truncate",
        SIZE => "size",
        SYNC => "fsync",
        SYNC_DATA => "fdatasync",
        INODE_OF => "inode_of",
        READ => "read",
        WRITE => "write",
        SYNC_ALL => "sync",
        SETTLE => "settle",
        CRASH => "crash",
        TREE => "tree",
        COMMIT => "commit",
        _ => return None,
    })
}

/// Returns the word of a refusal of files, by its status.
fn file_refusal_word(status: u32) -> Option<&'static str>
    ensures { option_map (λ word. word.now) result ≡ by_kind status file_refusal_words }
{
    Some(match status {
        EXISTS => "Exists",
        NOT_FOUND => "NotFound",
        NOT_EMPTY => "NotEmpty",
        IS_DIRECTORY => "IsDirectory",
        NOT_DIRECTORY => "NotDirectory",
        NAME_TOO_LONG => "NameTooLong",
        INVALID_NAME => "InvalidName",
        TOO_MANY_LINKS => "TooManyLinks",
        STALE => "Stale",
        NO_SPACE => "NoSpace",
        LOOP => "Loop",
        CRASHED => "Crashed",
        _ => return None,
    })
}

/// Returns the word of a refusal, by its status.
pub fn refusal_word(status: u32) -> Option<&'static str>
    ensures { option_map (λ word. word.now) result ≡ refusal_word status }
{
    if status < EXISTS {
        return names::refusal_word(status);
    }
    file_refusal_word(status)
}

/// Returns the word of a profile, by its number from 0.
pub fn profile_word(number: u32) -> Option<&'static str>
    ensures { option_map (λ word. word.now) result ≡ by_kind number profile_words }
{
    Some(match number {
        0 => "ext4",
        1 => "xfs",
        2 => "btrfs",
        3 => "posix",
        _ => return None,
    })
}

/// Returns the word of what a rename does if the new name is taken. That it replaces it has no word.
pub fn rename_word(number: u32) -> Option<&'static str>
    ensures { option_map (λ word. word.now) result ≡ by_kind number rename_words }
{
    Some(match number {
        0 => "",
        1 => "noreplace",
        2 => "exchange",
        _ => return None,
    })
}

fn table_of(table: u32) -> Option<Table>
    ensures { result ≡ by_kind table tables }
{
    Some(match table {
        KINDS => Table::OfStore,
        FILE_KINDS => Table::OfFiles,
        REFUSALS => Table::OfRefusals,
        PROFILES => Table::OfProfiles,
        MODES => Table::OfModes,
        RENAMES => Table::OfRenames,
        _ => return None,
    })
}

fn word_of(table: Table, number: u32) -> Option<&'static str>
    ensures { option_map (λ word. word.now) result ≡ word_of table number }
{
    match table {
        Table::OfStore => names::kind_word(number),
        Table::OfFiles => kind_word(number),
        Table::OfRefusals => refusal_word(number),
        Table::OfProfiles => profile_word(number),
        Table::OfModes => names::mode_word(number),
        Table::OfRenames => rename_word(number),
    }
}

/// Returns the word of a number in a table.
pub fn word(table: u32, number: u32) -> Option<&'static str>
    ensures { option_map (λ word. word.now) result ≡ word_in table number }
{
    match table_of(table) {
        Some(table) => word_of(table, number),
        None => None,
    }
}

/// Copies the word of a number in a table to the start of `into`, if it fits.
///
/// `NO_ROOM` with the length; `OTHER_REPLY` if the table has no such number.
pub fn copy_word(table: u32, number: u32, into: &mut [u8]) -> Ran
    ensures { CopiesWord table number result into.old into.new }
{
    match word(table, number) {
        Some(word) => copied(word.as_bytes(), into),
        None => Ran::stopped(OTHER_REPLY),
    }
}
