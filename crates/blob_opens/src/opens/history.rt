// A law about the numbers of opens.
ghost use Rattle.blob_opens.specs.OpenNames.{ClosesNoOther, OpenNumbersAreBelowNext};

/// Does nothing: its contract is a law of all histories.
///
/// An open's number is below the next one, so no later open gets it. The close of a handle ends its own open only.
pub fn a_close_ends_its_own_open()
    ensures below { OpenNumbersAreBelowNext }
    ensures others { ClosesNoOther }
{}
