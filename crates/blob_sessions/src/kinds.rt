// The kinds of typed calls. C can't pass an enum, so a kind is a number with a name.

/// Opens a blob exclusively: partition, name, and the `first` and `last` version that are accepted.
pub const OPEN: u32 = 0;
/// Opens a blob that may have other handles: partition, name, and the `first` and `last` version that are accepted.
pub const OPEN_LOOSE: u32 = 1;
/// Drops what is pending of a blob: partition and name.
pub const ADMIT: u32 = 2;
/// Closes the handle `number`.
pub const CLOSE: u32 = 3;
/// Resizes through the handle `number`, to `first` bytes.
pub const RESIZE: u32 = 4;
/// Returns the size of the handle `number`.
pub const SIZE: u32 = 5;
/// Syncs the handle `number`.
pub const SYNC: u32 = 6;
/// Starts a sync of the handle `number`.
pub const START_SYNC: u32 = 7;
/// Completes the started sync `number`.
pub const FINISH: u32 = 8;
/// Removes a blob: partition and name.
pub const REMOVE_BLOB: u32 = 9;
/// Removes a partition.
pub const REMOVE_PARTITION: u32 = 10;
/// Lists the names of a partition.
pub const SCAN: u32 = 11;
/// Crashes.
pub const CRASH: u32 = 12;
/// Reopens the store, after a crash or without one.
pub const REOPEN: u32 = 13;

// Calls that have functions of their own, or a line alone. A typed call of these kinds is a `BAD_CALL`.

/// Reads `last` bytes through the handle `number`, from the offset `first` on.
pub const READ: u32 = 14;
/// Writes through the handle `number`, from the offset `first` on: the bytes are the name.
pub const WRITE: u32 = 15;
/// The same as a SYNC write.
pub const WRITE_SYNC: u32 = 16;
/// Replaces the configuration: the line `config`.
pub const CONFIGURE: u32 = 17;
