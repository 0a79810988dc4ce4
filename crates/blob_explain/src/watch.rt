// A run that is watched, call by call.
use crate::bases::Bases;
use crate::draws::{Drawn, draw_ahead, rates_ahead};
use crate::event::{Draw, Event, Told};
use crate::files::{File, choose, pending_files};
use crate::handles::Handles;
use crate::lines::Line;
use crate::telling::is_injected;
use crate::unkept::Unkept;
use blob_base::Error;
use blob_draws::faults::{WriteFate, retained};
use blob_draws::runs::Span;
use blob_faulty::Config;
use blob_lab::lab::Wrapper;
use blob_lab::script::setting::copy_of;
use blob_lab::{Call, Lab, Listener, Reply};
use std::alloc::{AllocError, Global};
use std::mem;

/// Everything a picture needs that neither the replies nor the store report, and the text that follows each reply.
#[derive(Drop)]
pub(crate) struct Watch {
    pub(crate) alloc: Global,
    /// The rates that are set.
    pub(crate) config: Config,
    pub(crate) handles: Handles,
    bases: Bases,
    pub(crate) unkept: Unkept,
    /// Of the call that has no reply yet.
    ahead: Ahead,
    /// The line of each call, if objects are wanted, and of each recorded write, by its number.
    calls: Vec<u64>,
    writes: Vec<u64>,
    /// What follows the reply to each call, and its objects.
    pub(crate) texts: Vec<String>,
    pub(crate) objects: Vec<Vec<u8>>,
}

/// What must be known of a call before it is made.
#[derive(Drop)]
struct Ahead {
    drawn: Drawn,
    /// The draws of rates, if objects are wanted.
    rates: Vec<Draw>,
    /// The size of the handle of a resize.
    size: u64,
    /// The durable bytes before a write that keeps bytes although it fails.
    before: Vec<u8>,
    /// What was pending before a crash.
    files: Vec<File>,
}

impl Ahead {
    fn nothing(alloc: Global) -> Ahead {
        Ahead {
            drawn: Drawn::Nothing,
            rates: Vec::new(alloc),
            size: 0,
            before: Vec::new(alloc),
            files: Vec::new(alloc),
        }
    }
}

/// A call with its reply and its draws.
#[derive(Drop)]
pub(crate) struct Step<'a> {
    pub(crate) call: &'a Call,
    pub(crate) reply: &'a Reply,
    pub(crate) drawn: Drawn,
    /// The draws of rates.
    pub(crate) rates: Vec<Draw>,
    /// The size of the handle of a resize before it.
    pub(crate) size: u64,
    /// The durable bytes before a write that keeps bytes although it fails.
    pub(crate) before: Vec<u8>,
    /// What was pending before a crash.
    pub(crate) files: Vec<File>,
}

impl Listener for Watch {
    fn before(&mut self, lab: &Lab, call: &Call) -> Result<(), AllocError> {
        match self.look_ahead(lab, call) {
            Ok(()) => Ok(()),
            Err(_) => Err(AllocError),
        }
    }

    fn after(&mut self, lab: &Lab, call: &Call, reply: &Reply) -> Result<(), AllocError> {
        let Ok(told) = self.look_back(lab, call, reply) else {
            return Err(AllocError);
        };
        let Told { text, objects } = told;
        self.texts.push(text)?;
        Ok(self.objects.push(objects)?)
    }
}

impl Watch {
    pub(crate) fn new(alloc: Global) -> Watch {
        Watch {
            alloc,
            config: Config::default(),
            handles: Handles::new(alloc),
            bases: Bases::new(alloc),
            unkept: Unkept::new(alloc),
            ahead: Ahead::nothing(alloc),
            calls: Vec::new(alloc),
            writes: Vec::new(alloc),
            texts: Vec::new(alloc),
            objects: Vec::new(alloc),
        }
    }

    /// Begins a watch that makes objects too, of these calls.
    pub(crate) fn with_objects(alloc: Global, calls: &[Line<'_>]) -> Result<Watch, AllocError> {
        let mut watch = Watch::new(alloc);
        for call in calls {
            watch.calls.push(call.number)?;
        }
        Ok(watch)
    }

    /// Returns the line of the call that is made, if objects are wanted.
    fn line(&self) -> Option<u64> {
        self.calls.get(self.texts.len()).copied()
    }

    /// Adds an event of the call that is made.
    pub(crate) fn tell(&self, event: Event<'_>, told: &mut Told) -> Result<(), AllocError> {
        told.tell(self.line(), &self.writes, &event)
    }

    /// Notes the line of a write that was recorded. After a rebuild writes are numbered from 0 on again.
    fn note_recorded(&mut self, wrapper: &Wrapper) -> Result<(), AllocError> {
        let Some(line) = self.line() else {
            return Ok(());
        };
        let next = wrapper.next_write() as usize;
        self.writes.truncate(next);
        if self.writes.len() < next {
            self.writes.resize(next, line)?;
        }
        Ok(())
    }

    /// Looks at the laboratory before a call. The only error is `Memory`.
    fn look_ahead(&mut self, lab: &Lab, call: &Call) -> Result<(), Error> {
        let alloc = self.alloc;
        let mut files = Vec::new(alloc);
        if let Call::Crash = call {
            files = pending_files(alloc, lab.wrapper(), &self.bases)?;
        }
        let drawn = draw_ahead(alloc, lab, &self.config, call)?;
        let before = self.durable_before(lab.wrapper(), call, &drawn)?;
        let mut rates = Vec::new(alloc);
        if self.line().is_some() {
            rates = rates_ahead(alloc, lab, &self.config, call)?;
        }
        self.ahead = Ahead {
            drawn,
            rates,
            size: size_before(lab, call),
            before,
            files,
        };
        Ok(())
    }

    /// Returns what is told of a call. The only error is `Memory`.
    fn look_back(&mut self, lab: &Lab, call: &Call, reply: &Reply) -> Result<Told, Error> {
        let alloc = self.alloc;
        let Ahead {
            drawn,
            rates,
            size,
            before,
            mut files,
        } = mem::replace(&mut self.ahead, Ahead::nothing(alloc));
        if let Reply::Crashed(kept) = reply {
            choose(alloc, &mut files, kept.rows())?;
        }
        self.handles.note(alloc, call, reply)?;
        let step = Step {
            call,
            reply,
            drawn,
            rates,
            size,
            before,
            files,
        };
        self.note(lab.wrapper(), &step)?;
        self.note_unkept(&step)?;
        self.note_recorded(lab.wrapper())?;
        let mut told = Told::nothing(alloc);
        self.tell_draws(&step, &mut told)?;
        self.tell_step(lab.wrapper(), &step, &mut told)?;
        if let Call::Crash | Call::Reopen = call {
            self.unkept.forget_all(None);
        }
        Ok(told)
    }

    /// Notes a write that no crash keeps, and forgets those that a call made durable or removed.
    fn note_unkept(&mut self, step: &Step) -> Result<(), Error> {
        match step.call {
            Call::Write { handle, .. } => self.note_unkept_write(*handle, step),
            Call::Sync(handle) => {
                if let Reply::Done = step.reply {
                    self.forget_unkept(*handle);
                }
                Ok(())
            }
            Call::StartSync(handle) => {
                if let Drawn::Sync(false) = step.drawn {
                    self.forget_unkept(*handle);
                }
                Ok(())
            }
            Call::Remove { partition, name } => {
                if let Reply::Done = step.reply {
                    match name {
                        None => self.unkept.forget_all(Some(partition.as_str())),
                        Some(name) => self.unkept.forget(partition, name, 0, u64::MAX),
                    }
                }
                Ok(())
            }
            _ => Ok(()),
        }
    }

    fn note_unkept_write(&mut self, handle: usize, step: &Step) -> Result<(), Error> {
        let alloc = self.alloc;
        let Some(opened) = self.handles.get(handle) else {
            return Ok(());
        };
        if opened.is_stale {
            return Ok(());
        }
        for (start, bytes) in durable_ranges(alloc, step)? {
            let end = start.saturating_add(bytes.len() as u64);
            self.unkept
                .forget(&opened.partition, &opened.name, start, end);
        }
        if let Call::Write {
            offset,
            bytes,
            sync,
            ..
        } = step.call
        {
            if is_unsynced(step, *sync)
                && retained(self.config.write_rate).is_none()
                && !bytes.is_empty()
            {
                let end = offset.saturating_add(bytes.len() as u64);
                self.unkept
                    .add(alloc, &opened.partition, &opened.name, (*offset, end))?;
            }
        }
        Ok(())
    }

    /// Forgets the writes of a handle's blob, which a sync made durable.
    fn forget_unkept(&mut self, handle: usize) {
        if let Some(opened) = self.handles.get(handle) {
            self.unkept
                .forget(&opened.partition, &opened.name, 0, u64::MAX);
        }
    }

    /// Returns the durable bytes before a write that keeps bytes although it fails; no bytes for any other call.
    fn durable_before(
        &self,
        wrapper: &Wrapper,
        call: &Call,
        drawn: &Drawn,
    ) -> Result<Vec<u8>, Error> {
        if let Call::Write { handle, .. } = call {
            if let Drawn::Write(WriteFate::Failed(kept)) = drawn {
                if kept.contains(&true) {
                    return self.durable_bytes(wrapper, *handle);
                }
            }
        }
        Ok(Vec::new(self.alloc))
    }

    pub(crate) fn durable_bytes(&self, wrapper: &Wrapper, handle: usize) -> Result<Vec<u8>, Error> {
        let bytes = match self.handles.get(handle) {
            None => None,
            Some(opened) => wrapper
                .inner()
                .logical_blob(&opened.partition, &opened.name)?,
        };
        Ok(bytes.unwrap_or(Vec::new(self.alloc)))
    }

    /// Records what a call left pending, and what it made durable over pending writes.
    fn note(&mut self, wrapper: &Wrapper, step: &Step) -> Result<(), Error> {
        let handle = match step.call {
            Call::Write { handle, .. } | Call::Resize { handle, .. } => *handle,
            Call::Configure(config) => {
                self.config = copy_of(config);
                return Ok(());
            }
            Call::Read { .. } | Call::Size(_) | Call::Scan { .. } => return Ok(()),
            _ => {
                self.bases.forget(wrapper, &self.handles, step.call);
                return Ok(());
            }
        };
        match self.handles.get(handle) {
            Some(opened) if !opened.is_stale => {
                let ranges = durable_ranges(self.alloc, step)?;
                self.bases.note(self.alloc, wrapper, opened, ranges)
            }
            _ => Ok(()),
        }
    }
}

/// Returns the size of the handle of a resize; 0 for any other call.
fn size_before(lab: &Lab, call: &Call) -> u64 {
    if let Call::Resize { handle, .. } = call {
        if let Reply::Size(size) = lab.size(*handle) {
            return size;
        }
    }
    0
}

/// Whether a write is live and not durable: a plain one, or one whose sync failed.
fn is_unsynced(step: &Step, sync: bool) -> bool {
    match (step.reply, &step.drawn) {
        (Reply::Done, _) => !sync,
        (Reply::Failed(error), Drawn::Write(WriteFate::Unsynced)) => is_injected(error),
        _ => false,
    }
}

/// The ranges that a write made durable.
fn durable_ranges(alloc: Global, step: &Step) -> Result<Vec<(u64, Vec<u8>)>, Error> {
    let mut ranges = Vec::new(alloc);
    let Call::Write {
        offset,
        bytes,
        sync,
        ..
    } = step.call
    else {
        return Ok(ranges);
    };
    match step.reply {
        Reply::Done => {
            if *sync && !bytes.is_empty() {
                ranges.push((*offset, Vec::from_slice(alloc, bytes)?))?;
            }
        }
        Reply::Failed(error) => {
            if let Drawn::Write(WriteFate::Failed(kept)) = &step.drawn {
                if is_injected(error) {
                    for run in &Span::of(alloc, kept)? {
                        let piece = bytes.get(run.start..run.end).unwrap_or(&[]);
                        let start = offset.saturating_add(run.start as u64);
                        ranges.push((start, Vec::from_slice(alloc, piece)?))?;
                    }
                }
            }
        }
        _ => {}
    }
    Ok(ranges)
}
