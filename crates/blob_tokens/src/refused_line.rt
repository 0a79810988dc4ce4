ghost use Rattle.std.specs.Prelude.{◌≡◌};

use std::alloc::{AllocError, AllocFailed};

/// Why a line isn't a call.
#[derive(Clone, Copy, Debug, PartialEq, Eq)]
pub enum RefusedLine {
    /// The line isn't allowed in a script at this point.
    BadCall,
    /// The strings of the line couldn't be allocated.
    NoMemory,
}

impl From<AllocError> for RefusedLine {
    ghost use Rattle.blob_tokens.specs.declared.refused_line.RefusedLine.TheVariants.{NoMemory};

    ghost from_gives = { λ _ e. e ≡ NoMemory };

    fn from(_e: AllocError) -> RefusedLine {
        RefusedLine::NoMemory
    }
}

impl<T: Drop> From<AllocFailed<T>> for RefusedLine {
    ghost use Rattle.blob_tokens.specs.declared.refused_line.RefusedLine.TheVariants.{NoMemory};

    ghost from_gives = { λ _ e. e ≡ NoMemory };

    fn from(_e: AllocFailed<T>) -> RefusedLine {
        RefusedLine::NoMemory
    }
}
