// A map keyed by partition and name. Lookups use borrowed keys, so only inserting a new name allocates.
ghost use Rattle.std.specs.Prelude.{◌≡◌, IfOk, OnOk, OnErr, option_copied, None, Some, is_some};
ghost use Rattle.std.specs.Bool.{OnTrue, OnFalse};
ghost use Rattle.blob_names.specs.Names.{at, with_name, with_all_names};

use crate::order::Sought;
use std::alloc::{AllocError, Global};
use std::collections::BTreeMap;

/// A map from names in partitions to values.
#[derive(Drop)]
pub struct Names<V> {
    pub(crate) partitions: BTreeMap<String, BTreeMap<Vec<u8>, V>>,
    alloc: Global,
}

impl<V: Drop> Names<V> {
    /// Returns an empty map. Doesn't allocate.
    pub fn new(alloc: Global) -> Names<V>
        ensures { at result ≡ (λ _ _. None) }
    {
        Names {
            partitions: BTreeMap::new(alloc),
            alloc,
        }
    }

    /// Returns a copy of the map. The copy of a value must equal it. The only error is out of memory.
    pub fn copy(&self) -> Result<Names<V>, AllocError>
    where
        V: Clone,
        requires { (a b : V) → V.is_clone a b → b ≡ a }
        ensures { IfOk result (λ copy. at copy ≡ at self.now) }
    {
        Ok(Names {
            partitions: self.partitions.clone()?,
            alloc: self.alloc,
        })
    }

    /// Returns the value of a name, if it has one.
    pub fn get(&self, partition: &str, name: &[u8]) -> Option<&V>
        ensures { option_copied result ≡ at self.now partition.now name.now }
    {
        match self.partitions.get(partition) {
            None => None,
            Some(names) => names.get(Sought { bytes: name }),
        }
    }

    /// Swaps `value` with the value of a name, if it has one. Returns whether it has.
    pub fn exchange(&mut self, partition: &str, name: &[u8], value: &mut V) -> bool
        ensures found { result ≡ is_some (at self.old partition.now name.now) }
        ensures given { OnTrue result (at self.new ≡ with_name (at self.old) partition.now name.now (Some value.old)) }
        ensures taken { OnTrue result (at self.old partition.now name.now ≡ Some value.new) }
        ensures same { OnFalse result (at self.new ≡ at self.old) }
        ensures kept { OnFalse result (value.new ≡ value.old) }
    {
        let Some(names) = self.partitions.get_mut(partition) else {
            return false;
        };
        let Some(kept) = names.get_mut(Sought { bytes: name }) else {
            return false;
        };
        std::mem::swap(kept, value);
        true
    }

    /// Sets the value of a name. Allocates only if the name is new. The only error is out of memory, and nothing
    /// changes then.
    pub fn insert(&mut self, partition: &str, name: &[u8], mut value: V) -> Result<(), AllocError>
        ensures ok { OnOk result (at self.new ≡ with_name (at self.old) partition.now name.now (Some value)) }
        ensures err { OnErr result (at self.new ≡ at self.old) }
    {
        if self.exchange(partition, name, &mut value) {
            return Ok(());
        }
        self.add(partition, name, value)
    }

    /// Sets the value of a name that has none. `insert` first looks for one, and allocates only if there is none. The only
    /// error is out of memory, and nothing changes then.
    pub fn add(&mut self, partition: &str, name: &[u8], value: V) -> Result<(), AllocError>
        ensures ok { OnOk result (at self.new ≡ with_name (at self.old) partition.now name.now (Some value)) }
        ensures err { OnErr result (at self.new ≡ at self.old) }
    {
        let key = Vec::from_slice(self.alloc, name)?;
        if let Some(names) = self.partitions.get_mut(partition) {
            names.insert(key, value)?;
            return Ok(());
        }
        let text = String::from_str(self.alloc, partition)?;
        let mut names = BTreeMap::new(self.alloc);
        names.insert(key, value)?;
        self.partitions.insert(text, names)?;
        Ok(())
    }

    /// Removes a name, and its partition if no name remains.
    pub fn remove(&mut self, partition: &str, name: &[u8])
        ensures { at self.new ≡ with_name (at self.old) partition.now name.now None }
    {
        let Some(names) = self.partitions.get_mut(partition) else {
            return;
        };
        names.remove(Sought { bytes: name });
        if names.is_empty() {
            self.partitions.remove(partition);
        }
    }

    /// Removes all names of a partition.
    pub fn remove_partition(&mut self, partition: &str)
        ensures { at self.new ≡ with_all_names (at self.old) None partition.now }
    {
        self.partitions.remove(partition);
    }
}
