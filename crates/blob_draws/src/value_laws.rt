//! Laws: when two configurations are equal. A law is a function that does nothing. Its contract is the law.

ghost use Rattle.blob_header.specs.Values.{IsSameness};

use crate::config::{Config, ResizeConfig, WriteConfig};

/// Configurations of writes, of resizes and of a wrapper are equal exactly if all their fields are.
pub fn equalities()
    ensures writes { IsSameness ⟦<WriteConfig as PartialEq>⟧.eq }
    ensures resizes { IsSameness ⟦<ResizeConfig as PartialEq>⟧.eq }
    ensures configs { IsSameness ⟦<Config as PartialEq>⟧.eq }
{}
