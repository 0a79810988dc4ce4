//! What was told of a call on files as objects of JSON, a line each.
use crate::byte_text::{ByteOutcome, runs_of};
use crate::crash::{File, Issued};
use crate::edit_text::{EditOutcome, outcome_word};
use crate::event::{Bytes, Draw, Event};
use blob_json::Object;
use std::alloc::AllocError;

/// Appends what is told of the call of a line. That edits follow needs no object.
pub(crate) fn push_object(
    line: u64,
    event: &Event<'_>,
    to: &mut Vec<u8>,
) -> Result<(), AllocError> {
    if let Event::Unsettled = event {
        return Ok(());
    }
    let mut object = Object::new(*to.allocator())?;
    object.number("line", line)?;
    add_event(event, &mut object)?;
    object.end(to)
}

fn add_event(event: &Event<'_>, object: &mut Object) -> Result<(), AllocError> {
    match *event {
        Event::Unsettled => Ok(()),
        Event::Draw(draw) => add_draw(draw, object),
        Event::Lie => object.text("sync", "lie"),
        Event::Settles { settled, count } => {
            object.number("settled", settled as u64)?;
            object.number("among", count as u64)
        }
        Event::Settled(edit) => add_edit(edit, "settled", object),
        Event::Edit(edit, outcome) => add_edit(edit, outcome_word(outcome), object),
        Event::Removed(file) => {
            object.null("file")?;
            object.text("was", &file.path)?;
            object.number("before", file.size)?;
            object.null("after")
        }
        Event::Found { file, path, size } => {
            object.text("file", path)?;
            add_path_before(file, object)?;
            object.number("before", file.size)?;
            object.number("after", size)
        }
        Event::Bytes(bytes) => add_bytes(bytes, object),
    }
}

fn add_draw(draw: Draw, object: &mut Object) -> Result<(), AllocError> {
    match draw {
        Draw::Fails(word, is_true) => {
            object.text("draw", word)?;
            object.number("among", 2)?;
            object.truth("outcome", is_true)
        }
        Draw::Size { among, reached } => {
            object.text("draw", "size")?;
            object.number("among", among)?;
            object.number("outcome", reached)
        }
    }
}

fn add_edit(edit: &Issued, outcome: &str, object: &mut Object) -> Result<(), AllocError> {
    object.text("edit", &edit.words)?;
    object.number("of", edit.line)?;
    object.text("outcome", outcome)
}

/// Adds the path of a file before a crash, null if it had none.
fn add_path_before(file: &File, object: &mut Object) -> Result<(), AllocError> {
    if file.path.is_empty() {
        return object.null("was");
    }
    object.text("was", &file.path)
}

fn add_bytes(bytes: Bytes<'_>, object: &mut Object) -> Result<(), AllocError> {
    object.pair("bytes", Some((bytes.start, bytes.end)))?;
    object.truth("zeros", bytes.are_zeros)?;
    object.number("of", bytes.line)?;
    object.text("file", bytes.path)?;
    let Some(choices) = bytes.choices else {
        object.runs("kept", &[])?;
        object.runs("lost", &[(bytes.start, bytes.end)])?;
        return object.runs("covered", &[]);
    };
    for (name, outcome) in [
        ("kept", ByteOutcome::Kept),
        ("lost", ByteOutcome::Lost),
        ("covered", ByteOutcome::Covered),
    ] {
        object.runs(name, &runs_of(object.allocator(), choices, outcome)?)?;
    }
    Ok(())
}
