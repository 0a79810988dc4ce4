// The kinds of calls on files. C can't pass an enum, so a kind is a number with a name.

/// Makes a file and opens it: path.
pub const CREATE: u32 = 0;
/// Opens a file: path.
pub const OPEN: u32 = 1;
/// Opens a file and makes it empty: path.
pub const OPEN_TRUNCATED: u32 = 2;
/// Gives a file one more path: path and to.
pub const LINK: u32 = 3;
/// Removes a name of a file: path.
pub const UNLINK: u32 = 4;
/// Moves a file or a directory: path, to, and in `first` how.
pub const RENAME: u32 = 5;
/// Makes a directory: path.
pub const MAKE_DIRECTORY: u32 = 6;
/// Removes an empty directory: path.
pub const REMOVE_DIRECTORY: u32 = 7;
/// Lists the names of a directory: path.
pub const LIST: u32 = 8;
/// Settles the edits of a directory: path.
pub const SYNC_DIRECTORY: u32 = 9;
/// Finds what a path is bound to: path.
pub const FIND: u32 = 10;
/// Makes a file in the directory `number` and opens it: a name.
pub const CREATE_AT: u32 = 16;
/// Gives the inode `first` a name in the directory `number`: a name.
pub const LINK_AT: u32 = 17;
/// Removes a name of a file in the directory `number`: a name.
pub const UNLINK_AT: u32 = 18;
/// Moves a name of the directory `number` to another one in the directory `first`: both names, and in `last` how.
pub const RENAME_AT: u32 = 19;
/// Makes a directory in the directory `number`: a name.
pub const MAKE_DIRECTORY_AT: u32 = 20;
/// Removes an empty directory in the directory `number`: a name.
pub const REMOVE_DIRECTORY_AT: u32 = 21;
/// Lists the names of the directory `number`.
pub const LIST_AT: u32 = 22;
/// Settles the edits of the directory `number`.
pub const SYNC_DIRECTORY_AT: u32 = 23;
/// Finds what a name in the directory `number` is bound to: a name.
pub const FIND_AT: u32 = 24;
/// Opens the file of the inode `number`.
pub const OPEN_INODE: u32 = 25;
/// Opens the file of the inode `number` and makes it empty.
pub const OPEN_INODE_TRUNCATED: u32 = 26;
/// Closes the descriptor `number`.
pub const CLOSE: u32 = 32;
/// Truncates the file of the descriptor `number`, or extends it, to `first` bytes.
pub const TRUNCATE: u32 = 33;
/// Returns the size of the file of the descriptor `number`.
pub const SIZE: u32 = 34;
/// Syncs the file of the descriptor `number`.
pub const SYNC: u32 = 35;
/// Syncs the data of the file of the descriptor `number`.
pub const SYNC_DATA: u32 = 36;
/// Returns the inode of the descriptor `number`.
pub const INODE_OF: u32 = 37;
/// Reads at most `last` bytes of the descriptor `number`, from the offset `first` on. It has a function of its own: as a typed call it
/// is a `BAD_CALL`.
pub const READ: u32 = 38;
/// Writes to the descriptor `number`, from the offset `first` on: the bytes are the path. As a typed call it is a `BAD_CALL`.
pub const WRITE: u32 = 39;
/// Makes the bytes of all files and all names durable.
pub const SYNC_ALL: u32 = 48;
/// The same without a draw.
pub const SETTLE: u32 = 49;
/// Crashes and recovers.
pub const CRASH: u32 = 50;
/// Returns in `size` how many paths the root reaches.
pub const TREE: u32 = 51;
/// Settles all edits and begins a new journal.
pub const COMMIT: u32 = 52;
