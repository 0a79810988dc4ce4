// The durable bytes of each file before its pending entries, and what has become durable since.
use crate::handles::{Handles, Opened};
use blob_base::{Durable, Error};
use blob_lab::Call;
use blob_lab::lab::Wrapper;
use blob_memory::Origin;
use blob_names::names::Names;
use blob_pending::entry::Entry;
use blob_pending::incarnation::Incarnation;
use std::alloc::{AllocError, Global};

/// A range that became durable while something was pending.
#[derive(Drop)]
pub(crate) struct Range {
    pub(crate) offset: u64,
    pub(crate) bytes: Vec<u8>,
    /// The number of the last write that was pending then.
    pub(crate) after: Option<u64>,
}

/// What is remembered of a file while it has something pending.
#[derive(Drop)]
pub(crate) struct Base {
    partition: String,
    name: Vec<u8>,
    /// Its durable bytes when the first of its pending entries was issued.
    pub(crate) bytes: Vec<u8>,
    /// The ranges that became durable since, in issue order, without those that the file's pending list has: those after a pending resize.
    pub(crate) ranges: Vec<Range>,
}

/// All files that have something pending.
#[derive(Drop)]
pub(crate) struct Bases {
    all: Vec<Base>,
    /// The index of each among them.
    places: Names<usize>,
    /// Where each file's pending list was found last.
    lists: Names<usize>,
    /// The handles of the writes and resizes since the last other call. They may have left nothing pending.
    touched: Vec<usize>,
}

impl Bases {
    pub(crate) fn new(alloc: Global) -> Bases {
        Bases {
            all: Vec::new(alloc),
            places: Names::new(alloc),
            lists: Names::new(alloc),
            touched: Vec::new(alloc),
        }
    }

    pub(crate) fn get(&self, partition: &str, name: &[u8]) -> Option<&Base> {
        match self.places.get(partition, name) {
            None => None,
            Some(place) => self.all.get(*place),
        }
    }

    /// Notes a write or a resize through a current handle, with the ranges that it made durable. The only error is `Memory`.
    pub(crate) fn note(
        &mut self,
        alloc: Global,
        wrapper: &Wrapper,
        opened: &Opened,
        ranges: Vec<(u64, Vec<u8>)>,
    ) -> Result<(), Error> {
        let (partition, name) = (opened.partition.as_str(), opened.name.as_slice());
        if self.touched.last() != Some(&opened.number) {
            self.touched.push(opened.number)?;
        }
        let Some((at, list)) = self.list_of(wrapper, partition, name) else {
            return Ok(());
        };
        let mut found = at;
        if !self.lists.exchange(partition, name, &mut found) {
            self.lists.insert(partition, name, at)?;
        }
        let place = self.places.get(partition, name).copied();
        if let Some(place) = place {
            if !list.queues {
                if let Some(base) = self.all.get_mut(place) {
                    base.add(last_write(&list.entries), ranges)?;
                }
            }
        } else if has_pending(list) {
            self.add(alloc, wrapper, partition, name)?;
        }
        Ok(())
    }

    fn add(
        &mut self,
        alloc: Global,
        wrapper: &Wrapper,
        partition: &str,
        name: &[u8],
    ) -> Result<(), Error> {
        let bytes = wrapper.inner().logical_blob(partition, name)?;
        self.places.insert(partition, name, self.all.len())?;
        self.all.push(Base {
            partition: String::from_str(alloc, partition)?,
            name: Vec::from_slice(alloc, name)?,
            bytes: bytes.unwrap_or(Vec::new(alloc)),
            ranges: Vec::new(alloc),
        })?;
        Ok(())
    }

    /// Forgets the files that have nothing pending any more, after a call that isn't a write or a resize.
    pub(crate) fn forget(&mut self, wrapper: &Wrapper, handles: &Handles, call: &Call) {
        for _ in 0..self.touched.len() {
            if let Some(handle) = self.touched.pop() {
                self.forget_of(wrapper, handles.get(handle));
            }
        }
        match call {
            Call::Open {
                partition,
                name,
                ..
            } => self.forget_file(wrapper, partition, name),
            Call::OpenLoose {
                partition,
                name,
                ..
            } => self.forget_file(wrapper, partition, name),
            Call::Admit { partition, name } => self.forget_file(wrapper, partition, name),
            Call::Remove {
                partition,
                name: Some(name),
            } => self.forget_file(wrapper, partition, name),
            Call::Sync(handle) => self.forget_of(wrapper, handles.get(*handle)),
            Call::StartSync(handle) => self.forget_of(wrapper, handles.get(*handle)),
            Call::Finish(number) => self.forget_of(wrapper, handles.of_sync(*number)),
            Call::Remove { .. } => self.forget_all(wrapper),
            Call::Crash | Call::Reopen => self.forget_all(wrapper),
            _ => {}
        }
    }

    fn forget_of(&mut self, wrapper: &Wrapper, opened: Option<&Opened>) {
        if let Some(opened) = opened {
            self.forget_file(wrapper, &opened.partition, &opened.name);
        }
    }

    fn forget_file(&mut self, wrapper: &Wrapper, partition: &str, name: &[u8]) {
        if let Some(place) = self.places.get(partition, name).copied() {
            self.forget_at(wrapper, place);
        }
    }

    fn forget_all(&mut self, wrapper: &Wrapper) {
        for place in (0..self.all.len()).rev() {
            self.forget_at(wrapper, place);
        }
    }

    /// Forgets the file at an index if it has nothing pending. The last one takes its index.
    fn forget_at(&mut self, wrapper: &Wrapper, place: usize) {
        if place >= self.all.len() || !self.is_idle(wrapper, place) {
            return;
        }
        let base = self.all.swap_remove(place);
        self.places.remove(&base.partition, &base.name);
        if let Some(moved) = self.all.get(place) {
            let mut at = place;
            self.places.exchange(&moved.partition, &moved.name, &mut at);
        }
    }

    /// Returns whether the file at an index has nothing pending.
    fn is_idle(&self, wrapper: &Wrapper, place: usize) -> bool {
        match self.all.get(place) {
            None => false,
            Some(base) => match self.list_of(wrapper, &base.partition, &base.name) {
                None => true,
                Some((_, list)) => !has_pending(list),
            },
        }
    }

    /// Returns the pending list of a name's current incarnation, with its index: mostly where it was, or the last one if it is new.
    fn list_of<'a>(
        &self,
        wrapper: &'a Wrapper,
        partition: &str,
        name: &[u8],
    ) -> Option<(usize, &'a Incarnation<Origin>)> {
        let lists = wrapper.pending();
        let last = lists.len().saturating_sub(1);
        for at in [
            self.lists.get(partition, name).copied().unwrap_or(last),
            last,
        ] {
            if let Some(list) = lists.get(at) {
                if is_of(wrapper, list, partition, name) {
                    return Some((at, list));
                }
            }
        }
        for (at, list) in lists.iter().enumerate() {
            if is_of(wrapper, list, partition, name) {
                return Some((at, list));
            }
        }
        None
    }
}

impl Base {
    fn add(&mut self, after: Option<u64>, ranges: Vec<(u64, Vec<u8>)>) -> Result<(), AllocError> {
        for (offset, bytes) in ranges {
            self.ranges.push(Range {
                offset,
                bytes,
                after,
            })?;
        }
        Ok(())
    }
}

/// Whether a list is that of a name's current incarnation.
fn is_of(wrapper: &Wrapper, list: &Incarnation<Origin>, partition: &str, name: &[u8]) -> bool {
    list.origin.name() == name
        && list.origin.partition() == partition
        && wrapper.is_current(&list.origin)
}

/// Whether a crash would replay something of the list.
fn has_pending(list: &Incarnation<Origin>) -> bool {
    for entry in list.entries.iter().rev() {
        if let Entry::Marker(_) = entry {
            return false;
        }
        if entry.is_left() {
            return true;
        }
    }
    false
}

fn last_write(entries: &[Entry]) -> Option<u64> {
    for entry in entries.iter().rev() {
        if let Entry::Write(write) = entry {
            return Some(write.number);
        }
    }
    None
}
