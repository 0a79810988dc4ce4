//! Laws about the records of a journal, and about the names that are found.
ghost use Rattle.blob_directory.specs.Records.{NamesFit, RoundTrip};
ghost use Rattle.blob_directory.specs.Settled.{SettledIsFound};
ghost use Rattle.blob_directory.specs.Trees.{FindsAgain, FindsAll};

/// The edit of the record of an edit is that edit, settled or not. Every edit of one name or of two fits in a record, if
/// no name is longer than 255 bytes and each number is below 2^64. A name may be empty.
pub fn records()
    ensures trip { RoundTrip }
    ensures fit { NamesFit }
{}

/// If no directory that the root reaches has two names, and the root has none, exactly the names that it reaches are found. Of
/// names that were found all are found again, and no other.
pub fn found()
    ensures all { FindsAll }
    ensures again { FindsAgain }
{}

/// If a record of a journal has a settled edit of an entry, and no later record has an edit of that entry, the journal
/// gives the entry the value that this edit sets: by every profile, whatever other records were lost.
pub fn settled()
    ensures { SettledIsFound }
{}
