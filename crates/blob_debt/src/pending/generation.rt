// Generations, and the tokens that settle them.
ghost use Rattle.std.specs.Prelude.{◌≡◌};

use std::marker::Model;

/// The open of one name. It can't be dropped: pass it to `Pending::close`.
pub struct Generation {
    pub(crate) key: (String, Vec<u8>),
    pub(crate) number: u64,
}

impl Model for Generation {
    ghost use Rattle.blob_debt.specs.History.{AdmittedOpen};
    ghost use Rattle.std.specs.String.{string_bytes};

    ghost Value = { AdmittedOpen };

    ghost view = { λ g. record { partition = string_bytes g.key.0; name = g.key.1.items; number = g.number } };
}

impl Generation {
    ghost use Rattle.std.specs.String.{string_bytes};

    /// Returns the number of this open, which stays valid after `close`.
    pub fn id(&self) -> GenerationId
        ensures { result ≡ self.now.number }
    {
        GenerationId {
            number: self.number,
        }
    }

    /// Returns its partition and name.
    pub fn key(&self) -> &(String, Vec<u8>)
        ensures partition { string_bytes result.now.0 ≡ self.now.partition }
        ensures name { result.now.1.items ≡ self.now.name }
    {
        &self.key
    }
}

/// The number of an open, which no other open of its registry has.
#[derive(Clone, Copy, PartialEq, Eq)]
pub struct GenerationId {
    pub(crate) number: u64,
}

impl Model for GenerationId {
    ghost use Rattle.std.specs.Prelude.{ℕ};

    ghost Value = { ℕ };

    ghost view = { λ g. g.number };

    ghost inverse = { λ n. record { number = n } };
}

/// Asks whether a predecessor has settled.
#[derive(Drop)]
pub struct Receiver {
    pub(crate) token: u64,
}

impl Model for Receiver {
    ghost use Rattle.std.specs.Prelude.{ℕ};

    ghost Value = { ℕ };

    ghost view = { λ r. r.token };
}

/// Settles an open that was released with work outstanding. It can't be dropped: pass it to `Pending::settle`.
pub struct Sender {
    pub(crate) token: u64,
}

impl Model for Sender {
    ghost use Rattle.std.specs.Prelude.{ℕ};

    ghost Value = { ℕ };

    ghost view = { λ s. s.token };
}
