//! Laws of the states of a laboratory, after any calls. A law is an empty function; its contract is the law.

ghost use Rattle.std.specs.Prelude.{◌≡◌, [], None};
ghost use Rattle.rand_core.specs.Stream.{Stream};
ghost use Rattle.blob_script.specs.Acts.{Crash};
ghost use Rattle.blob_script.specs.Told as told;
ghost use Rattle.blob_lab_model.specs.After.{after_act};
ghost use Rattle.blob_lab_model.specs.Answers.{answer};
ghost use Rattle.blob_lab_model.specs.Exclusive.{HoldNames, Sole};
ghost use Rattle.blob_lab_model.specs.Laws.{AskKeepsOtherFiles, AskKeepsTheDirectory, StaleAskChangesNothing};
ghost use Rattle.blob_lab_model.specs.Laws.{CrashAgainChangesNothing, CrashKeepsHeaders, CrashRepliesWithItsRows, CrashReplaysTheLog};
ghost use Rattle.blob_lab_model.specs.Laws.{ExclusiveRunsGoOn, ReachedRunsGoOn, RunsGoOn, StartIsReachedExclusively};
ghost use Rattle.blob_lab_model.specs.Laws.{NextNumberNeverDecreases, OpenReadsDurableBytes, OpenTracksTheirLength};
ghost use Rattle.blob_lab_model.specs.Laws.{RemovalKeepsBases, RemovalKeepsOtherFiles, RemovalKeepsOtherLogs};
ghost use Rattle.blob_lab_model.specs.Laws.{StaleStartBeginsNothing, StaleStartIsRefused, StaleStaysForEver, StaleStaysStale, StaleSyncIsRefused};
ghost use Rattle.blob_lab_model.specs.Reached.{ReachedExclusively};
ghost use Rattle.blob_lab_model.specs.States.{State};

pub mod current_handles;
pub mod persistence;
pub mod rebuilt_stores;

/// A crash that replies with its rows replays the uncut log of each incarnation over its base, in issue order, by
/// exactly these rows: one per write that the log needs. A crash changes no header. Another crash right after it
/// changes nothing, returns no row and takes no word.
pub fn crashes()
    ensures rows { CrashRepliesWithItsRows }
    ensures left { CrashReplaysTheLog }
    ensures headers { CrashKeepsHeaders }
    ensures again { (v : State) (rest : Stream) → answer (after_act v Crash None rest) Crash ≡ (told.Crashed [], rest) }
    ensures same { CrashAgainChangesNothing }
{}

/// A removal changes no base, no log of an incarnation that it doesn't end, and no file of a name that it doesn't
/// remove, including raw files.
pub fn removals()
    ensures base { RemovalKeepsBases }
    ensures files { RemovalKeepsOtherFiles }
    ensures log { RemovalKeepsOtherLogs }
{}

/// A newly opened handle reads the durable bytes and tracks their length.
pub fn opens()
    ensures live { OpenReadsDurableBytes }
    ensures size { OpenTracksTheirLength }
{}

/// An incarnation that isn't its name's current one never becomes current again, after any calls and rebuilds.
pub fn stale_stays_stale()
    ensures next { NextNumberNeverDecreases }
    ensures stale { StaleStaysStale }
    ensures ever { StaleStaysForEver }
{}

/// A call through a handle changes no directory, and durable bytes only of its own incarnation. A stale handle changes
/// none.
///
/// A sync by a stale handle fails with `BlobMissing`, unless a fault is injected. A started sync fails likewise, if a
/// number is left for a marker. Regardless of its error, it publishes nothing.
pub fn asks()
    ensures directory { AskKeepsTheDirectory }
    ensures others { AskKeepsOtherFiles }
    ensures stale { StaleAskChangesNothing }
    ensures stale_sync { StaleSyncIsRefused }
    ensures stale_start { StaleStartIsRefused }
    ensures stale_begun { StaleStartBeginsNothing }
{}

/// If all opens are exclusive, a current incarnation has at most one open handle, and the name of each handle on a
/// current incarnation is open by that handle's own registration.
pub fn opens_are_exclusive()
    ensures sole { (v : State) → ReachedExclusively v → Sole v }
    ensures names { (v : State) → ReachedExclusively v → HoldNames v }
{}

/// Two runs in sequence are one run. So calls from a reached state lead to a reached state; if all opens of both are
/// exclusive, to one that is reached exclusively. So is the state of a new laboratory.
pub fn runs_go_on()
    ensures runs { RunsGoOn }
    ensures start { StartIsReachedExclusively }
    ensures reached { ReachedRunsGoOn }
    ensures exclusively { ExclusiveRunsGoOn }
{}
