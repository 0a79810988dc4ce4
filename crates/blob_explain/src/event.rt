// What a call drew and did, as far as its reply doesn't report it.
use crate::files::{File, Write};
use crate::handles::Opened;
use crate::objects::push_objects;
use crate::outcomes::push_event;
use blob_draws::faults::ResizeFate;
use std::alloc::{AllocError, Global};

/// A draw that takes a word.
#[derive(Clone, Copy)]
pub(crate) enum Draw {
    /// Of a rate: its word, and whether it was true.
    Rate(&'static str, bool),
    /// Of the size that a failed resize reaches: among how many, and which.
    Size { among: u64, reached: u64 },
}

/// Something that is told of a call.
#[derive(Clone, Copy)]
pub(crate) enum Event<'a> {
    Draw(Draw),
    /// A crash, and a file that had something pending.
    Crashed {
        file: &'a File,
        after: &'a [u8],
    },
    /// A crash lost writes of a blob that were made at retention 0.
    Unkept {
        partition: &'a str,
        name: &'a [u8],
        count: usize,
    },
    /// A write failed and kept bytes, which are durable. It is the only entry of the file.
    FailedWrite {
        file: &'a File,
        after: &'a [u8],
    },
    /// A write failed and kept nothing.
    LostWrite {
        opened: &'a Opened,
        write: &'a Write,
    },
    /// A write through a stale handle failed. Its first kept run is live.
    StaleWrite {
        opened: &'a Opened,
        write: &'a Write,
        live: Option<(u64, u64)>,
    },
    /// The sync of a SYNC write failed. The write has a number if it is pending.
    UnsyncedWrite {
        opened: &'a Opened,
        number: Option<u64>,
        offset: u64,
        len: usize,
    },
    Resized {
        opened: &'a Opened,
        fate: ResizeFate,
        len: u64,
    },
    /// A started sync failed by its draw, or else since its handle is stale.
    FailedSync {
        opened: &'a Opened,
        number: usize,
        is_drawn: bool,
    },
}

/// What was told of a call, as text and as objects of JSON.
#[derive(Drop)]
pub(crate) struct Told {
    pub(crate) text: String,
    pub(crate) objects: Vec<u8>,
}

impl Told {
    pub(crate) fn nothing(alloc: Global) -> Told {
        Told {
            text: String::new(alloc),
            objects: Vec::new(alloc),
        }
    }

    /// Tells an event of the call of a line. Without a line there are no objects.
    pub(crate) fn tell(
        &mut self,
        line: Option<u64>,
        writes: &[u64],
        event: &Event<'_>,
    ) -> Result<(), AllocError> {
        push_event(event, &mut self.text)?;
        match line {
            None => Ok(()),
            Some(line) => push_objects(line, writes, event, &mut self.objects),
        }
    }
}
