//! A run that is watched, call by call, and the text that follows each reply.
use crate::call::{Line, Named, OnFile};
use crate::crash::{Before, Issued, Numbers, Unsynced, push_to, tell_edits, tell_files};
use crate::edit_text::push_edit;
use crate::event::{Event, Told};
use crate::paths::Paths;
use crate::rates::{tell_failure, tell_reached};
use blob_directory::unsettled::Unsettled;
use blob_file_sessions::{KeptFiles, Reply};
use blob_fs::call::{Call, NumberCall, PathCall};
use blob_fs::{Crash, FileSystem, FsError, Syncs};
use blob_lab::ScriptedRng;
use std::alloc::{AllocError, Global};
use std::collections::BTreeMap;

/// What the run has done that no reply reports.
#[derive(Drop)]
pub(crate) struct Watch {
    alloc: Global,
    paths: Paths,
    /// The edits that nothing settled.
    edits: Vec<Issued>,
    /// The number of the next edit.
    next_edit: u64,
    /// The writes of each file that no sync made durable, by its inode.
    writes: BTreeMap<u64, Vec<Unsynced>>,
    /// The number of the next pending write before the call.
    next_write: u64,
    /// The size of the file of a truncation before the call.
    size: u64,
    /// Of a crash that has no reply yet.
    before: Option<Before>,
}

/// Returns the inode of a look-up. `None` if it found none.
fn found(looked: Result<u64, FsError>) -> Result<Option<u64>, AllocError> {
    match looked {
        Ok(inode) => Ok(Some(inode)),
        Err(FsError::Store(_)) => Err(AllocError),
        Err(_) => Ok(None),
    }
}

/// Returns the inode of a file.
fn inode_named(fs: &FileSystem<ScriptedRng>, file: &Named<'_>) -> Result<Option<u64>, AllocError> {
    match file {
        Named::Path(path) => found(fs.find(path).map(|binding| binding.inode)),
        Named::Descriptor(descriptor) => found(fs.inode_of(*descriptor)),
    }
}

/// Returns whether edits, which are sorted by number, have one with this number.
fn has(edits: &[Unsettled], number: u64) -> bool {
    let i = edits.partition_point(|edit| edit.number < number);
    match edits.get(i) {
        Some(edit) => edit.number == number,
        None => false,
    }
}

impl Watch {
    pub(crate) fn new(alloc: Global) -> Watch {
        Watch {
            alloc,
            paths: Paths::new(alloc),
            edits: Vec::new(alloc),
            next_edit: 0,
            writes: BTreeMap::new(alloc),
            next_write: 0,
            size: 0,
            before: None,
        }
    }

    /// Looks at the files before a call.
    pub(crate) fn before(&mut self, files: &KeptFiles, call: &Line<'_>) -> Result<(), AllocError> {
        let fs = files.fs();
        self.next_write = fs.store().next_write();
        self.size = 0;
        if let Line::On(file, OnFile::Truncate(_)) = call {
            if let Some(inode) = inode_named(fs, file)? {
                self.size = fs.size_of(inode);
            }
        }
        if let Line::Call(Call::Crash) = call {
            self.paths = Paths::read(self.alloc, fs)?;
            self.before = Some(Before::read(self.alloc, fs, &self.paths, &self.writes)?);
        }
        Ok(())
    }

    /// Returns what is told of the call of a line. `objects` says whether objects are wanted.
    pub(crate) fn after(
        &mut self,
        line: u64,
        files: &KeptFiles,
        call: &Line<'_>,
        reply: &str,
        objects: bool,
    ) -> Result<Told, AllocError> {
        let fs = files.fs();
        let mut told = Told::nothing(self.alloc, if objects { Some(line) } else { None });
        let is_done = reply == "ok";
        if objects {
            self.tell_draws(fs, call, reply, &mut told)?;
        }
        self.note_edit(line, fs, call)?;
        match call {
            Line::On(file, OnFile::Truncate(_)) => self.note_write(line, fs, file, 0, &[])?,
            Line::On(file, call) if is_done => self.after_file(line, fs, file, call, &mut told)?,
            Line::On(..) => {}
            Line::Call(call) => match files.reply() {
                Some(Reply::Crashed(crash)) => self.after_crash(fs, crash, &mut told)?,
                _ => self.after_names(fs, call, is_done, &mut told)?,
            },
        }
        Ok(told)
    }

    /// Tells what a call other than a crash drew.
    fn tell_draws(
        &self,
        fs: &FileSystem<ScriptedRng>,
        call: &Line<'_>,
        reply: &str,
        told: &mut Told,
    ) -> Result<(), AllocError> {
        tell_failure(fs, call, reply, told)?;
        if let Line::On(file, OnFile::Truncate(length)) = call {
            if let Some(inode) = inode_named(fs, file)? {
                tell_reached(self.size, *length, fs.size_of(inode), reply, told)?;
            }
        }
        Ok(())
    }

    /// Notes a write that returned Ok, or the zeros that a truncation wrote. Before the bytes of a write there may be zeros too.
    fn note_write(
        &mut self,
        line: u64,
        fs: &FileSystem<ScriptedRng>,
        file: &Named<'_>,
        offset: u64,
        bytes: &[u8],
    ) -> Result<(), AllocError> {
        let Some(inode) = inode_named(fs, file)? else {
            return Ok(());
        };
        let numbers = Numbers {
            first: self.next_write,
            end: fs.store().next_write(),
        };
        if bytes.is_empty() && numbers.first == numbers.end {
            return Ok(());
        }
        let write = Unsynced {
            line,
            offset,
            bytes: Vec::from_slice(self.alloc, bytes)?,
            numbers,
        };
        push_to(&mut self.writes, self.alloc, inode, write)
    }

    /// Notes a call on a file that returned Ok, and adds which edits it settled if it is a sync.
    fn after_file(
        &mut self,
        line: u64,
        fs: &FileSystem<ScriptedRng>,
        file: &Named<'_>,
        call: &OnFile<'_>,
        told: &mut Told,
    ) -> Result<(), AllocError> {
        match call {
            OnFile::Write { offset, bytes } => self.note_write(line, fs, file, *offset, bytes),
            OnFile::Sync | OnFile::SyncData => self.note_sync(fs, file, told),
            _ => Ok(()),
        }
    }

    /// Notes a sync of a file that returned Ok, and adds which edits it settled.
    fn note_sync(
        &mut self,
        fs: &FileSystem<ScriptedRng>,
        file: &Named<'_>,
        told: &mut Told,
    ) -> Result<(), AllocError> {
        if fs.options().syncs == Syncs::Lie {
            return told.tell(&Event::Lie);
        }
        if let Some(inode) = inode_named(fs, file)? {
            self.writes.remove(&inode);
        }
        self.tell_settled(fs, told)
    }

    /// Adds what a sync of names settled, and forgets edits that are settled.
    fn after_names(
        &mut self,
        fs: &FileSystem<ScriptedRng>,
        call: &Call<'_>,
        is_done: bool,
        told: &mut Told,
    ) -> Result<(), AllocError> {
        let is_lie = fs.options().syncs == Syncs::Lie;
        match call {
            Call::ByPath(PathCall::SyncDirectory(_))
            | Call::ByNumber(NumberCall::SyncDirectory(_))
            | Call::ByNumber(NumberCall::SyncAll)
                if is_done && is_lie => { told.tell(&Event::Lie) }
            Call::ByPath(PathCall::SyncDirectory(_)) | Call::ByNumber(NumberCall::SyncDirectory(_))
                if is_done => { self.tell_settled(fs, told) }
            Call::ByNumber(NumberCall::SyncAll) | Call::ByNumber(NumberCall::Settle) if is_done => {
                self.writes.clear();
                self.edits.clear();
                Ok(())
            }
            _ => {
                self.keep_unsettled(fs);
                Ok(())
            }
        }
    }

    /// Notes the edit that a call made, if it made one.
    fn note_edit(
        &mut self,
        line: u64,
        fs: &FileSystem<ScriptedRng>,
        call: &Line<'_>,
    ) -> Result<(), AllocError> {
        let Some(last) = fs.unsettled().last() else {
            return Ok(());
        };
        if last.number < self.next_edit {
            return Ok(());
        }
        let mut words = String::new(self.alloc);
        push_edit(call, fs, &last.edit, &self.paths, &mut words)?;
        self.paths.note(&last.edit)?;
        self.edits.push(Issued {
            number: last.number,
            offset: last.offset,
            line,
            words,
        })?;
        self.next_edit = last.number.saturating_add(1);
        Ok(())
    }

    /// Forgets the edits that are settled.
    fn keep_unsettled(&mut self, fs: &FileSystem<ScriptedRng>) {
        let left = fs.unsettled();
        if left.len() != self.edits.len() {
            self.edits.retain(|edit| has(left, edit.number));
        }
    }

    /// Adds which edits a sync settled, of those that nothing had settled, and forgets them.
    fn tell_settled(
        &mut self,
        fs: &FileSystem<ScriptedRng>,
        told: &mut Told,
    ) -> Result<(), AllocError> {
        let left = fs.unsettled();
        let count = self.edits.len();
        if count == 0 {
            return Ok(());
        }
        let settled = count.saturating_sub(left.len());
        told.tell(&Event::Settles { settled, count })?;
        for edit in &self.edits {
            if !has(left, edit.number) {
                told.tell(&Event::Settled(edit))?;
            }
        }
        self.keep_unsettled(fs);
        Ok(())
    }

    /// Adds what a crash kept, and forgets what it settled or lost.
    fn after_crash(
        &mut self,
        fs: &FileSystem<ScriptedRng>,
        crash: &Crash,
        told: &mut Told,
    ) -> Result<(), AllocError> {
        let alloc = self.alloc;
        self.paths = Paths::read(alloc, fs)?;
        tell_edits(alloc, crash, &self.edits, told)?;
        if let Some(before) = &self.before {
            tell_files(alloc, fs, crash, before, &self.paths, &self.writes, told)?;
        }
        self.before = None;
        self.edits.clear();
        self.writes.clear();
        Ok(())
    }
}
