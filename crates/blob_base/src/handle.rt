ghost use Rattle.std.specs.Prelude.{◌≡◌};
ghost use Rattle.blob_base.specs.Handles.{outcome_of, marker_of};

use blob_header::error::Error;

/// The handle of a started sync: its outcome and, if it has one, the number of a wrapper's marker. It may be dropped
/// without being finished.
#[derive(Debug, Drop)]
pub struct Handle {
    outcome: Result<(), Error>,
    marker: Option<u64>,
}

impl Handle {
    /// Returns a handle with this outcome and no marker.
    pub fn ready(outcome: Result<(), Error>) -> Handle
        ensures outcome { outcome_of result ≡ outcome }
        ensures marker { marker_of result ≡ None }
    {
        Handle {
            outcome,
            marker: None,
        }
    }

    /// Returns a handle with outcome Ok and a wrapper's marker.
    pub fn marked(marker: u64) -> Handle
        ensures outcome { outcome_of result ≡ Ok tt }
        ensures marker { marker_of result ≡ Some marker }
    {
        Handle {
            outcome: Ok(()),
            marker: Some(marker),
        }
    }

    /// Returns the sync's outcome: Ok, or the store's error, such as `Injected`.
    pub fn outcome(&self) -> &Result<(), Error>
        ensures { result.now ≡ outcome_of self.now }
    {
        &self.outcome
    }

    /// Returns the sync's outcome and consumes the handle.
    pub fn into_outcome(self) -> Result<(), Error>
        ensures { result ≡ outcome_of self }
    {
        self.outcome
    }

    /// Returns the number of the marker, if there is one.
    pub fn marker(&self) -> Option<u64>
        ensures { result ≡ marker_of self.now }
    {
        self.marker
    }
}
