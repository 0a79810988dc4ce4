//! Runs whole scripts over a laboratory, a reply per call, and `resolve`.
#![tactic(auto)]

pub mod ending;
pub mod resolution_line;
pub mod resolutions;
pub mod scripts;
pub mod streams;
pub mod text_lines;

pub use blob_debt::{Generation, GenerationId, Pending, Receiver, Sender, pending};
pub use blob_lab_model::laws;
pub use blob_lab_store::{Lab, ScriptedRng, lab, scripted_rng};
pub use blob_opens::{Opens, open, opens};
pub use blob_script::{Call, Reply, call, reply, script};
pub use ending::Ending;
pub use resolution_line::ResolutionLine;
pub use resolutions::{run_resolve, serve_resolve};
pub use scripts::{Listener, run_script, serve_script, serve_script_to};
pub use streams::{Input, Output};
pub use text_lines::first_line;
