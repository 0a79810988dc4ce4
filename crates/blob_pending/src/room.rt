//! Capacity that a pending list can reserve.

/// What the capacity is for.
#[derive(Clone, Copy)]
pub enum Room {
    /// An entry that isn't a marker.
    Entry,
    /// A marker.
    Mark,
    /// Durable ranges between the first and the second position. The third field is their number.
    Ranges(u64, u64, usize),
}
