//! What a file system promises beyond POSIX, as switches.
ghost use Rattle.std.specs.Prelude.{◌≡◌};
ghost use Rattle.blob_directory.specs.Presets.{btrfs_row, ext4_row, posix_row, xfs_row};

/// Which of the edits that nothing settled a crash may keep.
#[derive(Clone, Copy, Debug, PartialEq, Eq)]
pub enum Keeps {
    /// Any of them, as in a file system without a journal.
    Any,
    /// Those up to some point, as in one with a journal.
    Prefix,
    /// The same. But of those that the last sync left unsettled a crash may also keep any that bind a name: the sync wrote a log, which has
    /// the names of single files and directories. Such a log follows the edits that free a name which it has, so a crash may also keep
    /// those of them before which none was lost. Later edits are kept only with all before them.
    Logged,
}

/// Which edits a sync of a file or of a directory settles.
#[derive(Clone, Copy, Debug, PartialEq, Eq)]
pub enum Settles {
    /// For a file, its truncations: the edits in its own number. For a directory, those in it.
    Own,
    /// Those of a file's names, its truncations and, upward, the makings of the directories that its names are in. For a directory
    /// also those in it, but of a file that moved into it the new name alone.
    Names,
    /// All up to the last one of the file or up to the last change of its size. A sync of its data leaves out exchanges of its name.
    /// For a directory, all up to its own last one.
    UpToLast,
    /// The same for a file. But a sync of its data settles only those up to the last change of its size, its creation among
    /// them: no link and no rename changes what such a sync writes. For a directory, all.
    UpToLastOrSize,
    /// All.
    All,
}

/// What a crash may leave, and what a sync settles.
#[derive(Clone, Copy, Debug, PartialEq, Eq)]
pub struct Profile {
    /// Which unsettled edits a crash may keep.
    pub keeps: Keeps,
    /// Which edits a sync settles.
    pub settles: Settles,
    /// After a crash a file ends at its first byte beyond its last synced size that was lost.
    pub cuts: bool,
    /// A crash that keeps a rename over an existing file leaves the new file at least as long as it was at the rename. Bytes of it
    /// that were lost are zeros.
    pub flushes: bool,
    /// Bytes by which a write makes a file longer may be lost and leave zeros, also at the end of the file.
    pub zeros: bool,
    /// A truncation also writes zeros from the new end to the end of its page of 4,096 bytes, and so does a write that begins beyond
    /// the end of the file. A crash may keep these although it loses the truncation or the write.
    pub pages: bool,
}

impl Profile {
    /// Returns what ext4 does with its default options.
    pub fn ext4() -> Profile
        ensures { result ≡ ext4_row }
    {
        Profile {
            keeps: Keeps::Prefix,
            settles: Settles::UpToLastOrSize,
            cuts: false,
            flushes: true,
            zeros: true,
            pages: true,
        }
    }

    /// Returns what XFS does.
    pub fn xfs() -> Profile
        ensures { result ≡ xfs_row }
    {
        Profile {
            keeps: Keeps::Prefix,
            settles: Settles::UpToLast,
            cuts: false,
            flushes: false,
            zeros: false,
            pages: true,
        }
    }

    /// Returns what btrfs does.
    pub fn btrfs() -> Profile
        ensures { result ≡ btrfs_row }
    {
        Profile {
            keeps: Keeps::Logged,
            settles: Settles::Names,
            cuts: false,
            flushes: false,
            zeros: true,
            pages: false,
        }
    }

    /// Returns the least that POSIX promises.
    pub fn posix() -> Profile
        ensures { result ≡ posix_row }
    {
        Profile {
            keeps: Keeps::Any,
            settles: Settles::Own,
            cuts: false,
            flushes: false,
            zeros: true,
            pages: true,
        }
    }
}

impl Default for Profile {
    fn default() -> Profile
        ensures { result ≡ ext4_row }
    {
        Profile::ext4()
    }
}
