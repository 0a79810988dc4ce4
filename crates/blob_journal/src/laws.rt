//! Laws about calls that keep the journal, before and after a sync, and about the blobs of files.
ghost use Rattle.blob_journal.specs.Bindings.{FreedIsNotNamed, FreedNow, FreedOneMore, FreedSettled, KeptMayName, MayNameOneMore, MayNameSettled, WithinGiven, WithinOneMore, WithinSettled};
ghost use Rattle.blob_journal.specs.Blobs.{CurrentStays, DurableIsFound, DurableIsOpen, DurableStays, OpenIsFound, OpenIsSeen, ReadsSeen, ResizeShortens, SameTwice};
ghost use Rattle.blob_journal.specs.Fixed.{FixedIsFound};
ghost use Rattle.blob_journal.specs.Forks.{CopyIsFixed, CopyIsOpen, CopySees};
ghost use Rattle.blob_journal.specs.Settling.{KeptTwice, SettledAfter, SettledBefore};
ghost use Rattle.blob_journal.specs.Told.{GrowsOn, GrowsSame, SettledIsKept, SettledStays};

/// A settled edit that changes an entry, and that no later edit of the entry follows, stays so through later calls that don't change
/// the entry. A crash then leaves the entry as this edit made it, by every profile, whatever it loses.
pub fn told()
    ensures kept { SettledIsKept }
    ensures stays { SettledStays }
    ensures same { GrowsSame }
    ensures twice { GrowsOn }
{}

/// Of which files a crash may find a name, by the edits that were told. An edit adds those that it binds, a sync none. A file that
/// calls see no name of is freed by the edits so far: once all of them are settled, no crash finds a name of it.
pub fn bindings()
    ensures kept { KeptMayName }
    ensures one_more { MayNameOneMore }
    ensures settled { MayNameSettled }
    ensures within_one_more { WithinOneMore }
    ensures within_settled { WithinSettled }
    ensures within_given { WithinGiven }
    ensures freed { FreedNow }
    ensures freed_one_more { FreedOneMore }
    ensures freed_settled { FreedSettled }
    ensures not_named { FreedIsNotNamed }
{}

/// Calls that keep the journal, one after another, keep it. A sync settles the same edits if such calls come before it or after it.
pub fn settling<R>()
    ensures twice { KeptTwice R }
    ensures after { SettledAfter R }
    ensures before { SettledBefore R }
{}

/// The durable bytes of an open file are those of its number, and reads return them. They stay while its blob is the same. A file of
/// which calls see the durable bytes is open, and calls see the bytes of an open file. The number of an open file has its durable bytes.
pub fn blobs<R>()
    ensures found { DurableIsFound R }
    ensures reads { ReadsSeen }
    ensures current { CurrentStays R }
    ensures stays { DurableStays R }
    ensures twice { SameTwice R }
    ensures shortened { ResizeShortens }
    ensures is_open { DurableIsOpen R }
    ensures sees { OpenIsSeen R }
    ensures durable { OpenIsFound R }
{}

/// A byte of an open file that no crash changes is among the durable bytes of the file's number.
pub fn fixed<R>()
    ensures { FixedIsFound R }
{}

/// Calls see the same bytes by a copy of a handle. A copy of an open file's is open, and has the same fixed bytes.
pub fn copies<R>()
    ensures sees { CopySees }
    ensures is_open { CopyIsOpen R }
    ensures fixed { CopyIsFixed R }
{}
