// The items by partition and name.
ghost use Rattle.std.specs.Prelude.{◌≡◌, List, ℕ, None, Some, true, false, IsSome, IsOk, OnOk, OnErr, IfOk, option_copied};
ghost use Rattle.blob_memory.specs.Audit.{audit, IsListing};
ghost use Rattle.blob_header.specs.Checksum.{crc32c};
ghost use Rattle.blob_memory.specs.Listing.{listing_of, raw_at};
ghost use Rattle.blob_memory.specs.Partitions.{item_at, is_there, without_partition, AreItemNames, AreKeys, SetsItem, SetsPartition};
ghost use Rattle.blob_memory.specs.Numbers.{HasItemNumbers, HasNumbersIn};
ghost use Rattle.blob_memory.specs.Contents.{current_bytes};
ghost use Rattle.blob_memory.specs.Forks.{IsCopyIn};
ghost use Rattle.blob_memory.specs.TableLends.{LendsItem, LendsBytesAt};
ghost use Rattle.std.specs.Borrow.{sem};
ghost use Rattle.std.specs.Option.{option_copied_mut};

use crate::audit::audit;
use crate::item::Item;
use crate::origin::Origin;
use blob_names::order::Sought;
use blob_pages::Bytes;
use std::alloc::{AllocError, Global};
use std::collections::BTreeMap;

/// Partitions with their names. A partition stays when its last name is removed.
#[derive(Drop)]
pub struct Partitions {
    alloc: Global,
    names: BTreeMap<String, BTreeMap<Vec<u8>, Item>>,
}

/// Copies the keys of a map, in order. The only error is out of memory.
fn copied_names(alloc: Global, names: &BTreeMap<Vec<u8>, Item>) -> Result<Vec<Vec<u8>>, AllocError>
    ensures { IfOk result (λ all. AreKeys names.now all.items) }
{
    let mut all = Vec::with_capacity(alloc, names.len())?;
    for name in names.keys() {
        all.push(Vec::from_slice(alloc, name.as_slice())?)?;
    }
    Ok(all)
}

/// Returns the numbers of a map's incarnations. The only error is out of memory.
fn numbers_in(alloc: Global, names: &BTreeMap<Vec<u8>, Item>) -> Result<Vec<u64>, AllocError>
    ensures { IfOk result (λ numbers. HasNumbersIn names.now numbers.items) }
{
    let mut numbers = Vec::with_capacity(alloc, names.len())?;
    for item in names.values() {
        if let Item::Held(held) = item {
            numbers.push(held.number)?;
        }
    }
    Ok(numbers)
}

impl Partitions {
    /// Makes an empty table.
    pub fn new(alloc: Global) -> Partitions
        ensures items { (p n : List ℕ) → item_at result p n ≡ None }
        ensures partitions { (p : List ℕ) → is_there result p ≡ false }
    {
        Partitions {
            alloc,
            names: BTreeMap::new(alloc),
        }
    }

    /// Copies all partitions, names and items. The only error is out of memory.
    pub fn copy(&self) -> Result<Partitions, AllocError>
        ensures items { IfOk result (λ copy. (p n : List ℕ) → IsCopyIn (item_at self.now p n) (item_at copy p n)) }
        ensures partitions { IfOk result (λ copy. (p : List ℕ) → is_there copy p ≡ is_there self.now p) }
        ensures listing { IfOk result (λ copy. listing_of copy ≡ listing_of self.now) }
    {
        Ok(Partitions {
            alloc: self.alloc,
            names: self.names.clone()?,
        })
    }

    /// Returns whether a partition exists.
    pub fn contains(&self, partition: &str) -> bool
        ensures { result ≡ is_there self.now partition.now }
    {
        self.names.contains_key(partition)
    }

    /// Returns the item of a name.
    pub fn get(&self, partition: &str, name: &[u8]) -> Option<&Item>
        ensures { option_copied result ≡ item_at self.now partition.now name.now }
    {
        match self.names.get(partition) {
            None => None,
            Some(names) => names.get(Sought { bytes: name }),
        }
    }

    /// Returns the names of a partition, sorted by bytes, or no names if it doesn't exist. The only error is out of
    /// memory.
    pub fn names(&self, partition: &str) -> Result<Vec<Vec<u8>>, AllocError>
        ensures { IfOk result (λ names. AreItemNames self.now partition.now names.items) }
    {
        match self.names.get(partition) {
            Some(names) => copied_names(self.alloc, names),
            None => Ok(Vec::new(self.alloc)),
        }
    }

    /// Returns the numbers of a partition's incarnations, or none if it doesn't exist. The only error is out of memory.
    pub fn numbers(&self, partition: &str) -> Result<Vec<u64>, AllocError>
        ensures { IfOk result (λ numbers. HasItemNumbers self.now partition.now numbers.items) }
    {
        match self.names.get(partition) {
            Some(names) => numbers_in(self.alloc, names),
            None => Ok(Vec::new(self.alloc)),
        }
    }

    /// Returns the checksum of all blobs.
    pub fn audit(&self) -> [u8; 4]
        ensures audit { result ≡ audit crc32c (listing_of self.now) }
        ensures listing { IsListing (raw_at self.now) (listing_of self.now) }
    {
        audit(&self.names)
    }

    /// Returns the item of a name, for a change.
    pub fn get_mut(&mut self, partition: &str, name: &[u8]) -> Option<&mut Item>
        ensures* writes_back { sem 𝓛 (LendsItem self.entry partition.now name.now result) }
        ensures value { option_copied_mut result ≡ item_at self.old partition.now name.now }
    {
        match self.names.get_mut(partition) {
            None => None,
            Some(names) => names.get_mut(Sought { bytes: name }),
        }
    }

    /// Exchanges `item` and the item of a name. Does not allocate.
    pub fn exchange(&mut self, partition: &str, name: &[u8], item: &mut Item)
        requires { IsSome (item_at self.old partition.now name.now) }
        ensures old { item_at self.old partition.now name.now ≡ Some item.new }
        ensures new { SetsItem self.old self.new partition.now name.now (Some item.old) }
        ensures partitions { (q : List ℕ) → is_there self.new q ≡ is_there self.old q }
    {
        let Some(here) = self.get_mut(partition, name) else {
            return;
        };
        std::mem::swap(here, item);
    }

    /// Returns the logical bytes of an incarnation for a change, if it is current and those with numbers below `first`
    /// have ended.
    pub fn bytes_mut(&mut self, first: u64, origin: &Origin) -> Option<&mut Bytes>
        ensures* writes_back { sem 𝓛 (LendsBytesAt self.entry origin.now.partition origin.now.name result) }
        ensures value { option_copied_mut result ≡ current_bytes self.old first origin.now }
    {
        match self.get_mut(&origin.partition, &origin.name) {
            None => None,
            Some(item) => item.bytes_mut(first, origin),
        }
    }

    /// Sets the item of a name, and creates the partition if it is missing. The only error is out of memory, with
    /// nothing changed.
    pub fn insert(&mut self, partition: &str, name: &[u8], item: Item) -> Result<(), AllocError>
        ensures ok { OnOk result (SetsItem self.old self.new partition.now name.now (Some item)) }
        ensures made { OnOk result (SetsPartition self.old self.new partition.now true) }
        ensures err { OnErr result ((q m : List ℕ) → item_at self.new q m ≡ item_at self.old q m) }
        ensures unmade { OnErr result ((q : List ℕ) → is_there self.new q ≡ is_there self.old q) }
    {
        let key = Vec::from_slice(self.alloc, name)?;
        match self.names.get_mut(partition) {
            Some(names) => {
                names.insert(key, item)?;
            }
            None => {
                let text = String::from_str(self.alloc, partition)?;
                let mut names = BTreeMap::new(self.alloc);
                names.insert(key, item)?;
                self.names.insert(text, names)?;
            }
        }
        Ok(())
    }

    /// Sets the item of a name, and creates the partition if it is missing. Does not allocate if the name has an item.
    /// The only error is out of memory, with nothing changed.
    pub fn put(&mut self, partition: &str, name: &[u8], item: Item) -> Result<(), AllocError>
        ensures ok { OnOk result (SetsItem self.old self.new partition.now name.now (Some item)) }
        ensures made { OnOk result (SetsPartition self.old self.new partition.now true) }
        ensures err { OnErr result ((q m : List ℕ) → item_at self.new q m ≡ item_at self.old q m) }
        ensures unmade { OnErr result ((q : List ℕ) → is_there self.new q ≡ is_there self.old q) }
        ensures succeeds { IsSome (item_at self.old partition.now name.now) → IsOk result }
    {
        if self.get(partition, name).is_some() {
            let mut item = item;
            self.exchange(partition, name, &mut item);
            return Ok(());
        }
        self.insert(partition, name, item)
    }

    /// Removes a name. The partition stays.
    pub fn remove(&mut self, partition: &str, name: &[u8])
        ensures items { SetsItem self.old self.new partition.now name.now None }
        ensures partitions { (q : List ℕ) → is_there self.new q ≡ is_there self.old q }
    {
        if let Some(names) = self.names.get_mut(partition) {
            names.remove(Sought { bytes: name });
        }
    }

    /// Removes a partition with all its names.
    pub fn remove_partition(&mut self, partition: &str)
        ensures items { (q m : List ℕ) → item_at self.new q m ≡ without_partition (item_at self.old) partition.now q m }
        ensures partitions { SetsPartition self.old self.new partition.now false }
    {
        self.names.remove(partition);
    }
}
