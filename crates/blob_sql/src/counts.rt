//! What happened in a mode.

#[derive(Clone, Copy, Debug, Default)]
pub struct Counts {
    /// Transactions that succeeded.
    pub commits: u64,
    /// Transactions that failed.
    pub failed: u64,
    /// Opens that failed. After another crash, the next open has no faults.
    pub refused: u64,
    pub crashes: u64,
    /// Failed transactions in doubt: the next open shows whether they were applied.
    pub doubt: u64,
    /// Those of them that were applied.
    pub kept: u64,
    /// Seeds that found other rows than the committed ones, or a database that can't be opened.
    pub wrong: u64,
}

/// Increments a count.
pub fn add(count: &mut u64) {
    *count = count.wrapping_add(1);
}
