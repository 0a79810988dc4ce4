ghost use Rattle.std.specs.Prelude.{⊤, ◌≡◌, [], ◌∷◌, ◌&&◌, ◌||◌, not, codes};
ghost use Rattle.blob_base.specs.Options.{flags_of, no_options, contains, union, without, is_sync};

use bitflags::{Flag, Flags};

/// The options of a read. There are none so far.
#[derive(Clone, Copy, Debug, Default, PartialEq, Eq)]
pub struct ReadOptions {}

/// The options of a write, a set of flags. The default is empty.
#[derive(Clone, Copy, Debug, PartialEq, Eq)]
pub struct WriteOptions {
    bits: u8,
}

static FLAGS: [Flag<WriteOptions>; 1] = [Flag {
    name: "SYNC",
    value: WriteOptions { bits: 1 },
}];

impl WriteOptions {
    /// The written bytes are durable when the write returns.
    pub const SYNC: WriteOptions = WriteOptions { bits: 1 };

    /// Returns whether `self` has all options of `other`.
    pub fn contains(self, other: WriteOptions) -> bool
        ensures { result ≡ contains self other }
    {
        Flags::contains(&self, other)
    }

    /// Returns the options of both.
    pub fn union(self, other: WriteOptions) -> WriteOptions
        ensures bits { result ≡ union self other }
        ensures sync { is_sync result ≡ (is_sync self || is_sync other) }
    {
        Flags::union(self, other)
    }

    /// Returns the options of `self` without those of `other`.
    pub fn without(self, other: WriteOptions) -> WriteOptions
        ensures bits { result ≡ without self other }
        ensures sync { is_sync result ≡ (is_sync self && not (is_sync other)) }
    {
        Flags::difference(self, other)
    }
}

impl Default for WriteOptions {
    ghost is_default = { λ o. o ≡ no_options };

    fn default() -> WriteOptions {
        WriteOptions { bits: 0 }
    }
}

impl Flags for WriteOptions {
    type Bits = u8;

    ghost exact = { ⊤ };

    ghost table = { (codes "SYNC", 1) ∷ [] };

    ghost set_of = { flags_of };

    fn flags<'a>() -> &'a [Flag<WriteOptions>] {
        &FLAGS
    }

    fn bits(&self) -> u8 {
        self.bits
    }

    fn from_bits_retain(bits: u8) -> WriteOptions {
        WriteOptions { bits }
    }
}
