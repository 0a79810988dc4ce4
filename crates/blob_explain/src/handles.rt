// The blob of each handle and of each started sync.
use blob_base::Error;
use blob_lab::{Call, Reply};
use blob_names::names::Names;
use std::alloc::Global;

/// The blob that a handle was opened on.
#[derive(Drop)]
pub(crate) struct Opened {
    pub(crate) number: usize,
    pub(crate) partition: String,
    pub(crate) name: Vec<u8>,
    /// Whether the blob was removed, or the store rebuilt, since the handle was opened.
    pub(crate) is_stale: bool,
    /// The handle before it that was opened on the same name.
    before: Option<usize>,
}

/// The blobs of all handles and started syncs, by their numbers.
#[derive(Drop)]
pub(crate) struct Handles {
    opened: Vec<Opened>,
    /// The last handle of each name, until the name is removed.
    last: Names<usize>,
    /// The handles of the started syncs.
    syncs: Vec<usize>,
}

impl Handles {
    pub(crate) fn new(alloc: Global) -> Handles {
        Handles {
            opened: Vec::new(alloc),
            last: Names::new(alloc),
            syncs: Vec::new(alloc),
        }
    }

    pub(crate) fn get(&self, handle: usize) -> Option<&Opened> {
        self.opened.get(handle)
    }

    /// Returns the blob of a started sync.
    pub(crate) fn of_sync(&self, number: usize) -> Option<&Opened> {
        match self.syncs.get(number) {
            None => None,
            Some(handle) => self.opened.get(*handle),
        }
    }

    /// Notes what a call did to the handles. The only error is `Memory`.
    pub(crate) fn note(&mut self, alloc: Global, call: &Call, reply: &Reply) -> Result<(), Error> {
        match call {
            Call::Open {
                partition,
                name,
                ..
            } => self.open(alloc, partition, name, reply),
            Call::OpenLoose {
                partition,
                name,
                ..
            } => self.open(alloc, partition, name, reply),
            Call::StartSync(handle) => {
                if let Reply::Started(_) = reply {
                    self.syncs.push(*handle)?;
                }
                Ok(())
            }
            Call::Remove { partition, name } => {
                if let Reply::Done = reply {
                    self.remove(partition, name.as_deref());
                }
                Ok(())
            }
            Call::Reopen => {
                if let Reply::Done = reply {
                    for opened in self.opened.iter_mut() {
                        opened.is_stale = true;
                    }
                }
                Ok(())
            }
            _ => Ok(()),
        }
    }

    fn open(
        &mut self,
        alloc: Global,
        partition: &str,
        name: &[u8],
        reply: &Reply,
    ) -> Result<(), Error> {
        if let Reply::Opened { .. } = reply {
            let number = self.opened.len();
            let before = self.last.get(partition, name).copied();
            self.last.insert(partition, name, number)?;
            self.opened.push(Opened {
                number,
                partition: String::from_str(alloc, partition)?,
                name: Vec::from_slice(alloc, name)?,
                is_stale: false,
                before,
            })?;
        }
        Ok(())
    }

    fn remove(&mut self, partition: &str, name: Option<&[u8]>) {
        match name {
            Some(name) => {
                let last = self.last.get(partition, name).copied();
                self.last.remove(partition, name);
                self.end(last);
            }
            None => {
                self.last.remove_partition(partition);
                for opened in self.opened.iter_mut() {
                    if opened.partition.as_str() == partition {
                        opened.is_stale = true;
                    }
                }
            }
        }
    }

    /// Marks a handle and those before it on the same name as stale.
    fn end(&mut self, last: Option<usize>) {
        let mut next = last;
        for _ in 0..self.opened.len() {
            let Some(handle) = next else {
                return;
            };
            let Some(opened) = self.opened.get_mut(handle) else {
                return;
            };
            opened.is_stale = true;
            next = opened.before;
        }
    }
}
