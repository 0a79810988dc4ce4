//! Laws about records, and what a crash leaves of them.
ghost use Rattle.blob_packed.specs.Losses.{LeftAreFound, OneMore, OneMoreIsLeft, PackedAreFound, PackedIsLeft, Settled, SettledIsLeft};

/// Records are found as they were written. A write behind them appends a record, and a crash keeps it whole or loses it. A
/// durable write of a record again settles it. The bytes that a crash leaves have exactly the records that it didn't lose.
pub fn records()
    ensures found { PackedAreFound }
    ensures left { PackedIsLeft }
    ensures kept { LeftAreFound }
    ensures more { OneMore }
    ensures more_left { OneMoreIsLeft }
    ensures settled { Settled }
    ensures settled_left { SettledIsLeft }
{}
