//! The choices of a crash.
ghost use Rattle.std.specs.Prelude.{◌≡◌};
ghost use Rattle.blob_draws.specs.Rows.{rows_of};

/// The choices of a crash: for each write that it drew for, sorted by number, which of its submitted bytes it kept.
#[derive(Debug, Drop, PartialEq, Eq)]
pub struct Selections {
    rows: Vec<(u64, Vec<bool>)>,
}

impl Selections {
    /// Returns the choices with these rows.
    pub fn new(rows: Vec<(u64, Vec<bool>)>) -> Selections
        ensures { rows_of result ≡ rows.items }
    {
        Selections { rows }
    }

    /// Returns pairs of a write's number and its choices, sorted by number. A choice per submitted byte: true if it was kept.
    pub fn rows(&self) -> &[(u64, Vec<bool>)]
        ensures { result.now ≡ rows_of self.now }
    {
        &self.rows
    }
}
