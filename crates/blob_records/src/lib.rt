//! Records of one length by index, over the fault wrapper. What was synced is found until its index is put again. What was
//! put since is found, or what the slot had before; never a mixture.
#![tactic(auto)]

pub mod crashes;
pub mod records;

pub use records::Records;
