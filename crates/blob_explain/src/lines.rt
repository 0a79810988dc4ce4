// The lines of a script that make calls.
use std::alloc::{AllocError, Global};

/// A line that makes a call.
#[derive(Clone, Copy)]
pub(crate) struct Line<'a> {
    /// Its number, counted from 1.
    pub(crate) number: u64,
    /// It, without spaces around it.
    pub(crate) text: &'a str,
}

/// Whether a line makes a call. Of a script that is run no other line begins with another word, up to the first bad one.
fn is_call(line: &str) -> bool {
    let word = match line.split_once(' ') {
        None => line,
        Some((word, _)) => word,
    };
    !(word.is_empty()
        || word.starts_with('#')
        || word == "image"
        || word == "words"
        || word == "seed")
}

/// Returns the line without spaces around it.
fn trimmed(line: &str) -> &str {
    line.trim_matches(' ')
}

/// Returns the lines that make calls, up to the first that isn't UTF-8.
pub(crate) fn call_lines(alloc: Global, script: &[u8]) -> Result<Vec<Line<'_>>, AllocError> {
    let mut calls = Vec::new(alloc);
    let mut number = 0u64;
    for line in script.split(|byte| *byte == b'\n') {
        number = number.saturating_add(1);
        let Ok(line) = std::str::from_utf8(line) else {
            break;
        };
        let text = trimmed(line);
        if is_call(text) {
            calls.push(Line { number, text })?;
        }
    }
    Ok(calls)
}
