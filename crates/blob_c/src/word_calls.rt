//! The words and the lines of calls, without a session.
ghost use Rattle.blob_file_sessions.specs.CallLines as file_lines;
ghost use Rattle.blob_file_sessions.specs.Names.{CopiesWord};
ghost use Rattle.blob_sessions.specs.CallLines.{CopiesLine, call_line};

use blob_file_sessions::{FileCall, names};
use blob_sessions::{Ran, TypedCall, line_text};

/// Copies the word of a number in a table to the start of `into`: of the kinds of a store (0) or of files (1), of refusals by statuses (2),
/// of profiles (3), of partial write modes (4), or of what a rename does if the new name is taken (5).
///
/// `NO_ROOM` with the length; `OTHER_REPLY` if the table has no such number.
#[unsafe(no_mangle)]
pub extern "C" fn blobcrash_word(table: u32, number: u32, into: &mut [u8]) -> Ran
    ensures { CopiesWord table number result into.old into.new }
{
    names::copy_word(table, number, into)
}

/// Writes the line of a call on a store, without its line feed, to the start of `into`. The bytes of a write are the name.
///
/// `NO_ROOM` with the length; `BAD_CALL` if no line has the kind; `UNPRINTED`.
#[unsafe(no_mangle)]
pub extern "C" fn blobcrash_line_of(
    asked: &TypedCall,
    partition: &[u8],
    name: &[u8],
    into: &mut [u8],
) -> Ran
    ensures { CopiesLine (call_line asked.now partition.now name.now) result into.old into.new }
{
    line_text::line_of(asked, partition, name, into)
}

/// Writes the line of a call on files, without its line feed, to the start of `into`. The bytes of a write are the path.
///
/// `NO_ROOM` with the length; `BAD_CALL` if no line has the kind, or the number of a rename is above 2; `UNPRINTED`.
#[unsafe(no_mangle)]
pub extern "C" fn blobcrash_files_line_of(
    asked: &FileCall,
    path: &[u8],
    to: &[u8],
    into: &mut [u8],
) -> Ran
    ensures { CopiesLine (file_lines.call_line asked.now path.now to.now) result into.old into.new }
{
    blob_file_sessions::line_text::line_of(asked, path, to, into)
}
