//! Scripts: parsing lines as calls, and printing replies as lines.

pub mod call_line;
pub mod line;
pub mod preamble;
pub mod reader;
pub mod reading;
pub mod reply_line;
pub mod setting;

pub use blob_tokens::{RefusedLine, decode_hex, encode_hex, refused_line, token};
pub use line::{Line, read_line};
pub use preamble::Preamble;
pub use reader::Reader;
pub use reading::read_through;
pub use reply_line::print_reply;
pub use setting::Setting;
