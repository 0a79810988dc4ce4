//! What is told of the calls of a script.
use blob_lab_store::Lab;
use blob_script::{Call, Reply};
use std::alloc::AllocError;

/// Is told of each call of a script. It can't change the laboratory. If it returns an error, the run ends as `NoMemory`.
pub trait Listener {
    /// Is called before each call.
    fn before(&mut self, lab: &Lab, call: &Call) -> Result<(), AllocError>;

    /// Is called after each call, before its reply is written.
    fn after(&mut self, lab: &Lab, call: &Call, reply: &Reply) -> Result<(), AllocError>;
}

/// A listener that does nothing.
#[derive(Drop)]
pub struct Silent;

impl Listener for Silent {
    fn before(&mut self, _lab: &Lab, _call: &Call) -> Result<(), AllocError> {
        Ok(())
    }

    fn after(&mut self, _lab: &Lab, _call: &Call, _reply: &Reply) -> Result<(), AllocError> {
        Ok(())
    }
}
