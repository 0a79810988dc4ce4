//! A file of calls that are tried with failing allocations: the rows that prepare the worlds, the rows that compare
//! them, and the calls.

use anyhow::Result;
use std::alloc::Global;

/// Lines under a heading, `KIND NAME`: `part NAME`, or a call by its name, which is `grows` if it may allocate and
/// `steady` if it must not.
#[derive(Drop)]
pub struct Section<'a> {
    pub kind: &'a str,
    pub name: &'a str,
    pub lines: Vec<&'a str>,
}

fn heading(line: &str) -> Option<(&str, &str)> {
    let (kind, name) = line.split_once(' ')?;
    match kind {
        "part" | "grows" | "steady" => Some((kind, name)),
        _ => None,
    }
}

/// Parses a file into sections. Skips empty lines and comments.
pub fn read<'a>(alloc: Global, text: &'a str) -> Result<Vec<Section<'a>>> {
    let mut sections: Vec<Section<'a>> = Vec::new(alloc);
    for line in text.lines() {
        if line.is_empty() || line.starts_with('#') {
            continue;
        }
        if let Some((kind, name)) = heading(line) {
            sections.push(Section {
                kind,
                name,
                lines: Vec::new(alloc),
            })?;
        } else if let Some(section) = sections.last_mut() {
            section.lines.push(line)?;
        }
    }
    Ok(sections)
}

/// Returns the lines of a part.
pub fn part<'s, 'a>(sections: &'s [Section<'a>], name: &str) -> &'s [&'a str] {
    for section in sections {
        if section.kind == "part" && section.name == name {
            return section.lines.as_slice();
        }
    }
    &[]
}
