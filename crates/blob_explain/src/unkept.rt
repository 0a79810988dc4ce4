// Writes that no crash keeps, since the retention rate was 0 when they were made. There is no draw and no pending entry for them.
use blob_names::names::Names;
use std::alloc::{AllocError, Global};

/// Those of a blob, each with its start and its end.
#[derive(Drop)]
struct Writes {
    partition: String,
    name: Vec<u8>,
    ranges: Vec<(u64, u64)>,
}

/// Those of all blobs, since the last sync of each.
#[derive(Drop)]
pub(crate) struct Unkept {
    all: Vec<Writes>,
    /// The index of each blob among them.
    places: Names<usize>,
}

impl Unkept {
    pub(crate) fn new(alloc: Global) -> Unkept {
        Unkept {
            all: Vec::new(alloc),
            places: Names::new(alloc),
        }
    }

    /// Adds a write.
    pub(crate) fn add(
        &mut self,
        alloc: Global,
        partition: &str,
        name: &[u8],
        range: (u64, u64),
    ) -> Result<(), AllocError> {
        if let Some(place) = self.places.get(partition, name).copied() {
            if let Some(writes) = self.all.get_mut(place) {
                writes.ranges.push(range)?;
            }
            return Ok(());
        }
        let mut ranges = Vec::new(alloc);
        ranges.push(range)?;
        self.places.insert(partition, name, self.all.len())?;
        self.all.push(Writes {
            partition: String::from_str(alloc, partition)?,
            name: Vec::from_slice(alloc, name)?,
            ranges,
        })?;
        Ok(())
    }

    /// Forgets the writes of a blob, or those that have bytes from `start` up to, not including, `end`.
    pub(crate) fn forget(&mut self, partition: &str, name: &[u8], start: u64, end: u64) {
        let Some(place) = self.places.get(partition, name).copied() else {
            return;
        };
        let Some(writes) = self.all.get_mut(place) else {
            return;
        };
        for at in (0..writes.ranges.len()).rev() {
            let is_reached = match writes.ranges.get(at) {
                None => false,
                Some(range) => range.0 < end && start < range.1,
            };
            if is_reached {
                writes.ranges.swap_remove(at);
            }
        }
    }

    /// Forgets the writes of the blobs of a partition, or of all.
    pub(crate) fn forget_all(&mut self, partition: Option<&str>) {
        for writes in self.all.iter_mut() {
            let is_of = match partition {
                None => true,
                Some(partition) => writes.partition.as_str() == partition,
            };
            if is_of {
                writes.ranges.clear();
            }
        }
    }

    /// Returns the partition, the name and the number of writes of a blob at an index, from 0 on. `None` after the last one.
    pub(crate) fn at(&self, index: usize) -> Option<(&str, &[u8], usize)> {
        let writes = self.all.get(index)?;
        Some((
            writes.partition.as_str(),
            writes.name.as_slice(),
            writes.ranges.len(),
        ))
    }

    /// Returns how many blobs there were.
    pub(crate) fn len(&self) -> usize {
        self.all.len()
    }
}
