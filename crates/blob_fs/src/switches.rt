//! Switches of a file system beyond its profile: how syncs and writes fail.

/// What a sync of a file that fails does to the bytes that it was to make durable.
#[derive(Clone, Copy, Debug, PartialEq, Eq)]
pub enum FailedSync {
    /// They stay unsynced. A later sync may make them durable.
    Keeps,
    /// They are dropped, as by Linux until 2018: reads return them until the file is opened again, no later sync writes them,
    /// and no crash keeps any.
    Drops,
}

/// Whether a sync that returns Ok has made anything durable.
#[derive(Clone, Copy, Debug, PartialEq, Eq)]
pub enum Syncs {
    Honest,
    /// A sync returns Ok, makes nothing durable and draws nothing. Nor does a rename or a close flush anything.
    Lie,
}

/// Which bytes of a write that fails are written.
#[derive(Clone, Copy, Debug, PartialEq, Eq)]
pub enum FailedWrite {
    /// Those that the mode of writes selects.
    ByMode,
    /// A prefix, drawn byte by byte, as in the mode `Prefix`.
    Prefix,
}
