// The states that a laboratory may represent.
ghost use Rattle.blob_lab_store.specs.LabStands.{LabStandsFor};
ghost use Rattle.blob_lab_model.specs.States.{State};

use crate::lab::Lab;

/// The states that a value may represent. The relation is private: a contract says that a new value represents its start, and
/// that after a call it represents the state after that call. A reader who relies on the replies doesn't need the relation.
pub trait Stands {
    ghost stands_for: { Self → State → Type 0 };
}

impl Stands for Lab {
    ghost stands_for = { LabStandsFor };
}
