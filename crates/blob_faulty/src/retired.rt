//! The result of a call that retires pending lists.

/// Returned by calls that retire the pending list of a name. It is empty and may be dropped.
#[derive(Drop)]
pub struct Retired {
    pub(crate) _private: (),
}
