//! The lists of a partition's current incarnations.
ghost use Rattle.std.specs.Prelude.{◌≡◌, nat_eq, false, not, filter};
ghost use Rattle.blob_pending.specs.Lists.{lists_of, SameLists};
ghost use Rattle.blob_pending.specs.Numbers.{AreIndexed};
ghost use Rattle.blob_pending.specs.Partition.{AreNoted, EndsIndexed, KeepsEnding, AreOfPartition, RetiresNumber, RetiresPartition};

use crate::incarnation::Incarnation;
use crate::lists::{Lists, insert_new};
use blob_base::Durable;
use indexmap::IndexSet;

/// Notes for each list whether a removal of the partition ends its incarnation.
fn note_each<S: Durable>(lists: &mut [Incarnation<S::Origin>], store: &S, partition: &str)
    ensures held { lists_of S.place lists.new ≡ lists_of S.place lists.old }
    ensures noted { AreNoted S.place (S.directory store.now) partition.now lists.new }
{
    for list in lists.iter_mut() {
        let ends = store.is_removed(&list.origin, partition, None);
        list.note(ends);
    }
}

/// Does `note_each` for the lists of a vector.
fn note_all<S: Durable>(lists: &mut Vec<Incarnation<S::Origin>>, store: &S, partition: &str)
    ensures held { lists_of S.place lists.new.items ≡ lists_of S.place lists.old.items }
    ensures noted { AreNoted S.place (S.directory store.now) partition.now lists.new.items }
{
    note_each(lists.as_mut_slice(), store, partition);
}

/// Drops the lists of which it was noted that a removal ends them.
fn drop_noted<O: Drop>(lists: &mut Vec<Incarnation<O>>)
    ensures { lists.new.items ≡ filter (λ i. not i.ends) lists.old.items }
{
    lists.retain(|list| !list.ends);
}

/// Drops the lists of incarnations with this number.
fn drop_numbered<S: Durable>(lists: &mut Vec<Incarnation<S::Origin>>, number: u64)
    ensures { lists.new.items ≡ filter (λ i. not (nat_eq (S.place i.origin).number number)) lists.old.items }
{
    lists.retain(|list| S::number_of(&list.origin) != number);
}

/// Makes an index of the lists and returns whether it can't be used.
fn index_all<S: Durable>(numbers: &mut IndexSet<u64>, lists: &[Incarnation<S::Origin>]) -> bool
    ensures { AreIndexed S.place lists.now numbers.new.keys result }
{
    numbers.clear();
    let mut searched = false;
    for list in lists {
        let number = S::number_of(&list.origin);
        let added = insert_new(numbers, number);
        searched = searched || !added;
    }
    searched
}

/// Returns whether a removal of the partition ends an incarnation with this number that has a list, found in the index.
fn has_ending<S: Durable>(
    lists: &[Incarnation<S::Origin>],
    numbers: &IndexSet<u64>,
    store: &S,
    partition: &str,
    number: &u64,
) -> bool
    ensures { EndsIndexed S.place (S.directory store.now) partition.now lists.now numbers.now.keys number.now result }
{
    let Some(i) = numbers.get_index_of(number) else {
        return false;
    };
    match lists.get(i) {
        Some(list) => store.is_removed(&list.origin, partition, None),
        None => false,
    }
}

/// Keeps the numbers of incarnations that have lists and that a removal of the partition ends.
fn keep_ending<S: Durable>(
    ending: &mut Vec<u64>,
    lists: &[Incarnation<S::Origin>],
    numbers: &IndexSet<u64>,
    store: &S,
    partition: &str,
)
    requires { AreIndexed S.place lists.now numbers.now.keys false }
    ensures { KeepsEnding S.place (S.directory store.now) partition.now lists.now ending.old.items ending.new.items }
{
    ending.retain(|number| has_ending(lists, numbers, store, partition, number));
}

impl<S: Durable> Lists<S> {
    /// Finds the lists of a partition's current incarnations. Call this before a removal of the partition. Returns their
    /// incarnations' numbers. Returns None if the index is not used or if memory for the numbers is refused, and then notes it
    /// in each list.
    pub fn find_partition(&mut self, store: &S, partition: &str) -> Option<Vec<u64>>
        ensures same { SameLists S.place self.old.all.lists.items self.new.all.lists.items }
        ensures found { AreOfPartition S.place (S.directory store.now) partition.now self.new.all.lists.items result }
    {
        if !self.searched {
            if let Ok(mut ending) = store.current_numbers(partition) {
                let all = &self.all;
                keep_ending::<S>(&mut ending, &all.lists, &self.numbers, store, partition);
                return Some(ending);
            }
        }
        note_all(&mut self.all.lists, store, partition);
        None
    }

    /// Drops the lists of the incarnations with a number. The index has at most one.
    fn retire_number(&mut self, number: u64)
        ensures { RetiresNumber S.place self.old.all.lists.items self.new.all.lists.items number }
    {
        if self.searched {
            drop_numbered::<S>(&mut self.all.lists, number);
            return;
        }
        if let Some(i) = self.numbers.get_index_of(&number) {
            self.take(i);
        }
    }

    /// Drops the lists that `find_partition` found. Call this after a removal of the partition.
    pub fn retire_partition(&mut self, ending: Option<Vec<u64>>)
        ensures { RetiresPartition S.place self.old.all.lists.items self.new.all.lists.items ending }
    {
        let Some(ending) = ending else {
            drop_noted(&mut self.all.lists);
            let all = &self.all;
            self.searched = index_all::<S>(&mut self.numbers, &all.lists);
            self.owners.clear();
            self.unmapped = true;
            return;
        };
        for number in &ending {
            self.retire_number(*number);
        }
    }
}
