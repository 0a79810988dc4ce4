//! What a call on files drew and did, as far as its reply doesn't report it.
use crate::byte_text::Choices;
use crate::crash::{File, Issued};
use crate::edit_text::EditOutcome;
use crate::event_text::push_event;
use crate::objects::push_object;
use std::alloc::{AllocError, Global};

/// A draw that takes a word.
#[derive(Clone, Copy)]
pub(crate) enum Draw {
    /// Of the rate with this word: whether the call fails.
    Fails(&'static str, bool),
    /// Of the length that a failed truncation reaches: among how many, and which.
    Size { among: u64, reached: u64 },
}

/// What a crash did with the bytes of an unsynced write, or with zeros.
#[derive(Clone, Copy)]
pub(crate) struct Bytes<'a> {
    /// The path of its file after the crash.
    pub(crate) path: &'a str,
    /// The line of its call.
    pub(crate) line: u64,
    pub(crate) are_zeros: bool,
    pub(crate) start: u64,
    pub(crate) end: u64,
    /// `None` if no crash could keep them.
    pub(crate) choices: Option<Choices<'a>>,
}

/// Something that is told of a call.
#[derive(Clone, Copy)]
pub(crate) enum Event<'a> {
    Draw(Draw),
    /// A sync made nothing durable.
    Lie,
    /// A sync settled some of the edits that nothing had settled.
    Settles {
        settled: usize,
        count: usize,
    },
    /// One of these.
    Settled(&'a Issued),
    /// A crash found edits that nothing had settled.
    Unsettled,
    /// One of these.
    Edit(&'a Issued, EditOutcome),
    /// A file of which a crash kept no name.
    Removed(&'a File),
    /// A file that a crash changed or drew for, its path after the crash and its size.
    Found {
        file: &'a File,
        path: &'a str,
        size: u64,
    },
    Bytes(Bytes<'a>),
}

/// What was told of a call, as text, and as objects of JSON if they are wanted.
#[derive(Drop)]
pub(crate) struct Told {
    /// The line of the call, if objects are wanted.
    line: Option<u64>,
    pub(crate) text: String,
    pub(crate) objects: Vec<u8>,
}

impl Told {
    pub(crate) fn nothing(alloc: Global, line: Option<u64>) -> Told {
        Told {
            line,
            text: String::new(alloc),
            objects: Vec::new(alloc),
        }
    }

    /// Returns one of the same call.
    pub(crate) fn again(&self) -> Told {
        Told::nothing(*self.text.allocator(), self.line)
    }

    /// Adds an event.
    pub(crate) fn tell(&mut self, event: &Event<'_>) -> Result<(), AllocError> {
        push_event(event, &mut self.text)?;
        match self.line {
            None => Ok(()),
            Some(line) => push_object(line, event, &mut self.objects),
        }
    }

    /// Adds what was told in another.
    pub(crate) fn add(&mut self, more: &Told) -> Result<(), AllocError> {
        self.text.push_str(&more.text)?;
        self.objects.extend_from_slice(&more.objects)?;
        Ok(())
    }
}
