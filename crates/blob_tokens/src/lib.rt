//! The tokens of a script's line: texts, numbers, and bytes as hex digits.
#![tactic(auto)]

mod digits;
mod hex_text;
pub mod refused_line;
pub mod token;

pub use hex_text::{decode_hex, encode_hex};
pub use refused_line::RefusedLine;
