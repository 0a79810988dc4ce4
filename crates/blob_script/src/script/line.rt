// One line of a script.
ghost use Rattle.std.specs.Prelude.{◌≡◌, IfOk, Some, None};
ghost use Rattle.blob_tokens.specs.Forms.{words};
ghost use Rattle.blob_script.specs.Lines.{line_of, said_by};

use crate::Call;
use crate::script::call_line::call;
use crate::script::setting::read_setting;
use crate::script::token::{Tokens, number};
use crate::script::{RefusedLine, Setting};
use std::alloc::Global;

/// The meaning of a line.
#[derive(Debug, Drop)]
pub enum Line {
    /// An empty line or a comment.
    Blank,
    /// A raw image that the store starts with. Only in the preamble.
    Image {
        partition: String,
        name: Vec<u8>,
        bytes: Vec<u8>,
    },
    /// More words for the generator. Only in the preamble.
    Words(Vec<u64>),
    /// The seed of the words after the given ones. Only in the preamble, and only once.
    Seed(u64),
    /// A change of the configuration. The caller passes the whole new configuration to `Call::Configure`.
    Configure(Setting),
    /// Any other call.
    Call(Call),
}

/// Parses a line, without its line feed. The caller checks whether a preamble line is allowed here.
///
/// Returns `BadCall` if the line isn't UTF-8, its first token is unknown, a token is missing or left over, or a number
/// is out of range. Returns `NoMemory` if its strings can't be allocated. Only spaces separate tokens. A `#` at the
/// start of the first token begins a comment.
pub fn read_line(alloc: Global, line: &[u8]) -> Result<Line, RefusedLine>
    ensures ok { IfOk result (λ read. line_of line.now ≡ Some (said_by read)) }
    ensures bad { result ≡ Err RefusedLine.BadCall → line_of line.now ≡ None }
{
    let Ok(decoded) = std::str::from_utf8(line) else {
        return Err(RefusedLine::BadCall);
    };
    let mut tokens = Tokens::new(decoded);
    let word = match tokens.next() {
        None => return Ok(Line::Blank),
        Some(word) => word,
    };
    if word.starts_with('#') {
        return Ok(Line::Blank);
    }
    let read = match word {
        "image" => Line::Image {
            partition: tokens.text(alloc)?,
            name: tokens.bytes(alloc)?,
            bytes: tokens.bytes(alloc)?,
        },
        "words" => Line::Words(words(alloc, &mut tokens)?),
        "seed" => Line::Seed(tokens.number()?),
        "config" => Line::Configure(read_setting(&mut tokens).ok_or(RefusedLine::BadCall)?),
        _ => Line::Call(call(alloc, word, &mut tokens)?),
    };
    tokens.end()?;
    Ok(read)
}

/// Parses the remaining tokens as words, at least one.
fn words(alloc: Global, tokens: &mut Tokens) -> Result<Vec<u64>, RefusedLine>
    ensures ok { IfOk result (λ read. words tokens.old ≡ Some (read.items, tokens.new)) }
    ensures bad { result ≡ Err RefusedLine.BadCall → words tokens.old ≡ None }
{
    let mut words = Vec::new(alloc);
    while let Some(token) = tokens.next() {
        let word = if token == "max" {
            u64::MAX
        } else {
            number(token).ok_or(RefusedLine::BadCall)?
        };
        words.push(word)?;
    }
    if words.is_empty() {
        return Err(RefusedLine::BadCall);
    }
    Ok(words)
}
