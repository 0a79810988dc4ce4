//! Equality of write options and rates. A law is an empty function; its contract is the law.

ghost use Rattle.blob_header.specs.Values.{IsSameness};

use crate::options::WriteOptions;
use crate::probability::Probability;
pub use blob_header::value_laws::orders;

/// Two values are equal if and only if all their parts are. For layouts, versions and headers see
/// `blob_header::value_laws::equalities`, for modes `blob_model::value_laws::equalities`.
pub fn equalities()
    ensures options { IsSameness ⟦<WriteOptions as PartialEq>⟧.eq }
    ensures rates { IsSameness ⟦<Probability as PartialEq>⟧.eq }
{}
