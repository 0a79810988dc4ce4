//! The result of an accepted open, in any store.

ghost use Rattle.std.specs.Prelude.{◌≡◌, ◌<◌, ℕ, List, Some};
ghost use Rattle.blob_model.specs.Opened.{OpensAreNamed, OpensAreCurrent, OpensAreDurable, CurrentGoesOn, NumbersAreBelowNext, NumbersDontFall, OneVersionIsAnswered, MissingNamesBeginEmpty};
ghost use Rattle.blob_model.specs.Places.{Place};

use crate::Durable as Shows;

/// The handle's incarnation has the requested partition and name, and is the name's current one afterwards. Its durable
/// bytes are the handle's live bytes. If the name had a current incarnation, the open continues it and nothing changes.
/// A name without a file starts empty. The next number doesn't decrease. An open for one version returns that version.
pub fn accepted_opens()
    ensures named { OpensAreNamed }
    ensures current { OpensAreCurrent }
    ensures durable { OpensAreDurable }
    ensures goes_on { CurrentGoesOn }
    ensures next { NumbersDontFall }
    ensures one_version { OneVersionIsAnswered }
    ensures missing_names_begin_empty { MissingNamesBeginEmpty }
{}

/// The number of a current incarnation is less than the next number.
pub fn numbers_are_given<S: Shows>()
    ensures current { (s : S) → NumbersAreBelowNext (S.directory s) }
    ensures durable { (s : S) (o : Place) (bytes : List ℕ) → S.durable s o ≡ Some bytes → o.number < (S.directory s).next }
{}
