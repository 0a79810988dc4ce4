// Telling what a call drew and did.
use crate::draws::Drawn;
use crate::event::{Draw, Event, Told};
use crate::files::{File, Item, Write};
use crate::handles::Opened;
use crate::watch::{Step, Watch};
use blob_base::Error;
use blob_draws::faults::{ResizeFate, WriteFate, retained};
use blob_draws::runs::Span;
use blob_lab::lab::Wrapper;
use blob_lab::{Call, Reply};
use blob_pending::entry::Entry;
use std::alloc::{AllocError, Global};

impl Watch {
    /// Adds the draws of a call that was made.
    pub(crate) fn tell_draws(&self, step: &Step, told: &mut Told) -> Result<(), AllocError> {
        if let Reply::NoHandle | Reply::EmptyRange | Reply::Failed(Error::Memory(..)) = step.reply {
            return Ok(());
        }
        for draw in &step.rates {
            self.tell(Event::Draw(*draw), told)?;
        }
        if let (Call::Resize { len, .. }, Drawn::Resize(ResizeFate::Reaches(reached))) = (
            step.call,
            &step.drawn,
        ) {
            let among = step
                .size
                .max(*len)
                .saturating_sub(step.size.min(*len))
                .saturating_sub(1);
            let reached = *reached;
            self.tell(Event::Draw(Draw::Size { among, reached }), told)?;
        }
        Ok(())
    }

    /// Adds what a call did that its reply doesn't report.
    pub(crate) fn tell_step(
        &self,
        wrapper: &Wrapper,
        step: &Step,
        told: &mut Told,
    ) -> Result<(), Error> {
        match step.call {
            Call::Crash => {
                self.tell_crash(wrapper, &step.files, told)?;
                Ok(self.tell_unkept(told)?)
            }
            Call::Resize { handle, len } => Ok(self.tell_resize(*handle, *len, step, told)?),
            Call::StartSync(handle) => Ok(self.tell_sync(*handle, step, told)?),
            Call::Write {
                handle,
                offset,
                bytes,
                ..
            } => {
                let write = Write {
                    number: None,
                    offset: *offset,
                    bytes: Vec::from_slice(self.alloc, bytes)?,
                    holes: Vec::new(self.alloc),
                    kept: Vec::new(self.alloc),
                };
                self.tell_write(wrapper, *handle, write, step, told)
            }
            _ => Ok(()),
        }
    }

    /// Adds each file that had something pending before a crash.
    fn tell_crash(&self, wrapper: &Wrapper, files: &[File], told: &mut Told) -> Result<(), Error> {
        for file in files {
            let after = wrapper.inner().logical_blob(&file.partition, &file.name)?;
            match after {
                Some(after) if file.is_current => {
                    self.tell(
                        Event::Crashed {
                            file,
                            after: &after,
                        },
                        told,
                    )?
                }
                _ => {
                    let after = file.before.as_slice();
                    self.tell(Event::Crashed { file, after }, told)?
                }
            }
        }
        Ok(())
    }

    /// Adds each blob that had writes which no crash keeps.
    fn tell_unkept(&self, told: &mut Told) -> Result<(), AllocError> {
        for index in 0..self.unkept.len() {
            if let Some((partition, name, count)) = self.unkept.at(index) {
                if count > 0 {
                    let event = Event::Unkept {
                        partition,
                        name,
                        count,
                    };
                    self.tell(event, told)?;
                }
            }
        }
        Ok(())
    }

    /// Adds a resize that was done or failed by its draws.
    fn tell_resize(
        &self,
        handle: usize,
        len: u64,
        step: &Step,
        told: &mut Told,
    ) -> Result<(), AllocError> {
        let is_told = match step.reply {
            Reply::Done => true,
            Reply::Failed(error) => is_injected(error),
            _ => false,
        };
        let Some(opened) = self.handles.get(handle) else {
            return Ok(());
        };
        if let Drawn::Resize(fate) = step.drawn {
            if is_told {
                self.tell(Event::Resized { opened, fate, len }, told)?;
            }
        }
        Ok(())
    }

    /// Adds a started sync that failed.
    fn tell_sync(&self, handle: usize, step: &Step, told: &mut Told) -> Result<(), AllocError> {
        let Some(opened) = self.handles.get(handle) else {
            return Ok(());
        };
        if let Reply::Started(number) = step.reply {
            if let Drawn::Sync(is_drawn) = step.drawn {
                if is_drawn || opened.is_stale {
                    let event = Event::FailedSync {
                        opened,
                        number: *number,
                        is_drawn,
                    };
                    self.tell(event, told)?;
                }
            }
        }
        Ok(())
    }

    /// Adds the outcome of a refused write, if the reply doesn't report it.
    fn tell_write(
        &self,
        wrapper: &Wrapper,
        handle: usize,
        mut write: Write,
        step: &Step,
        told: &mut Told,
    ) -> Result<(), Error> {
        let (Some(opened), Reply::Failed(error), Drawn::Write(fate)) = (
            self.handles.get(handle),
            step.reply,
            &step.drawn,
        ) else {
            return Ok(());
        };
        match fate {
            WriteFate::Failed(kept) if is_injected(error) => {
                write.kept = Vec::from_slice(self.alloc, kept)?;
                let after = self.durable_bytes(wrapper, handle)?;
                self.tell_failed_write(opened, write, step, &after, told)?;
            }
            WriteFate::Failed(kept) if is_missing(error) => {
                write.kept = Vec::from_slice(self.alloc, kept)?;
                let live = first_run(self.alloc, &write)?;
                let write = &write;
                self.tell(
                    Event::StaleWrite {
                        opened,
                        write,
                        live,
                    },
                    told,
                )?;
            }
            WriteFate::Unsynced if is_injected(error) => {
                self.tell_unsynced(wrapper, opened, &write, told)?
            }
            _ => {}
        }
        Ok(())
    }

    /// Adds a SYNC write with a failed sync.
    fn tell_unsynced(
        &self,
        wrapper: &Wrapper,
        opened: &Opened,
        write: &Write,
        told: &mut Told,
    ) -> Result<(), AllocError> {
        let is_pending = retained(self.config.write_rate).is_some();
        let event = Event::UnsyncedWrite {
            opened,
            number: if is_pending {
                newest_write(wrapper)
            } else {
                None
            },
            offset: write.offset,
            len: write.bytes.len(),
        };
        self.tell(event, told)
    }

    /// Adds a write that failed. If it kept bytes, they are shown as the only entry of its file.
    fn tell_failed_write(
        &self,
        opened: &Opened,
        write: Write,
        step: &Step,
        after: &[u8],
        told: &mut Told,
    ) -> Result<(), AllocError> {
        if !write.kept.contains(&true) {
            let write = &write;
            return self.tell(Event::LostWrite { opened, write }, told);
        }
        let alloc = self.alloc;
        let mut entries = Vec::new(alloc);
        entries.push(Item::Write(write))?;
        let file = File {
            partition: String::from_str(alloc, &opened.partition)?,
            name: Vec::from_slice(alloc, &opened.name)?,
            number: 0,
            is_current: true,
            before: Vec::from_slice(alloc, &step.before)?,
            held: 0,
            entries,
        };
        let file = &file;
        self.tell(Event::FailedWrite { file, after }, told)
    }
}

/// Returns the first run of the bytes that a write kept.
fn first_run(alloc: Global, write: &Write) -> Result<Option<(u64, u64)>, AllocError> {
    let runs = Span::of(alloc, &write.kept)?;
    let Some(run) = runs.first() else {
        return Ok(None);
    };
    let start = write.offset.saturating_add(run.start as u64);
    let end = write.offset.saturating_add(run.end as u64);
    Ok(Some((start, end)))
}

pub(crate) fn is_injected(error: &Error) -> bool {
    match error {
        Error::Injected => true,
        _ => false,
    }
}

fn is_missing(error: &Error) -> bool {
    match error {
        Error::BlobMissing(..) => true,
        _ => false,
    }
}

/// The number of the write that was recorded last.
fn newest_write(wrapper: &Wrapper) -> Option<u64> {
    let mut newest = None;
    for list in wrapper.pending() {
        if let Some(Entry::Write(write)) = list.entries.last() {
            newest = match newest {
                Some(number) if number > write.number => newest,
                _ => Some(write.number),
            };
        }
    }
    newest
}
