//! The text of what was told of a call on files.
use crate::byte_text::push_outcomes;
use crate::crash::File;
use crate::edit_text::outcome_words;
use crate::event::{Bytes, Event};
use std::alloc::AllocError;

/// Appends what is told as lines. A draw is told by what it decides.
pub(crate) fn push_event(event: &Event<'_>, text: &mut String) -> Result<(), AllocError> {
    match *event {
        Event::Draw(_) => Ok(()),
        Event::Lie => text.push_str("made nothing durable: syncs lie\n"),
        Event::Settles { settled, count } => writeln!(text, "settled {settled} of {count} edits"),
        Event::Settled(edit) => {
            let (line, words) = (edit.line, &edit.words);
            writeln!(text, "  line {line}: {words}")
        }
        Event::Unsettled => text.push_str("unsettled edits:\n"),
        Event::Edit(edit, outcome) => {
            let (line, words) = (edit.line, &edit.words);
            let outcome = outcome_words(outcome);
            writeln!(text, "  line {line}: {words}: {outcome}")
        }
        Event::Removed(file) => {
            let was = &file.path;
            writeln!(text, "{was}: removed, since no name of it was kept")
        }
        Event::Found { file, path, size } => push_sizes(file, path, size, text),
        Event::Bytes(bytes) => push_bytes(bytes, text),
    }
}

/// Appends a file's path and sizes, and the path that it had before the crash if that was another one.
fn push_sizes(file: &File, path: &str, after: u64, text: &mut String) -> Result<(), AllocError> {
    text.push_str(path)?;
    if file.path.is_empty() {
        text.push_str(", which had no name")?;
    } else if file.path.as_str() != path {
        let was = &file.path;
        write!(text, ", which was {was}")?;
    }
    let before = file.size;
    writeln!(text, ": size {before} before, {after} after")
}

/// Appends what a crash did with the bytes of a write, or with zeros.
fn push_bytes(bytes: Bytes<'_>, text: &mut String) -> Result<(), AllocError> {
    let (line, start, end) = (bytes.line, bytes.start, bytes.end);
    let word = if bytes.are_zeros { "zeros" } else { "write" };
    write!(text, "  line {line}: {word} {start}..{end}: ")?;
    match bytes.choices {
        None => text.push_str("lost\n"),
        Some(choices) => {
            push_outcomes(choices, text)?;
            text.push('\n')
        }
    }
}
