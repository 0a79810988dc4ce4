//! The list of a name's current incarnation.
ghost use Rattle.std.specs.Prelude.{◌≡◌, ◌<◌, Some, option_map, IfSome, vec_len};
ghost use Rattle.blob_model.specs.Directory.{current};
ghost use Rattle.blob_model.specs.Files.{is_removed_by};
ghost use Rattle.blob_pending.specs.Lists.{IsListOf, RetiresName};
ghost use Rattle.blob_pending.specs.Shown.{RetiresCurrent};

use crate::incarnation::Incarnation;
use crate::lists::Lists;
use blob_base::Durable;

/// Returns whether an incarnation is the current one of the name, which has this number. Most others have another number.
fn is_of_name<S: Durable>(
    store: &S,
    origin: &S::Origin,
    number: u64,
    partition: &str,
    name: &[u8],
) -> bool
    requires { Some number ≡ option_map (λ o. o.number) (current (S.directory store.now) partition.now name.now) }
    ensures { result ≡ is_removed_by (S.directory store.now) partition.now (Some name.now) (S.place origin.now) }
{
    if S::number_of(origin) != number {
        return false;
    }
    store.is_removed(origin, partition, Some(name))
}

/// Returns the index of the list of a name's current incarnation, which has this number. Searches the lists one by one.
fn find_name_by_steps<S: Durable>(
    lists: &[Incarnation<S::Origin>],
    store: &S,
    number: u64,
    partition: &str,
    name: &[u8],
) -> Option<usize>
    requires { Some number ≡ option_map (λ o. o.number) (current (S.directory store.now) partition.now name.now) }
    ensures { IsListOf S.place (S.directory store.now) partition.now name.now lists.now result }
{
    for (i, list) in lists.iter().enumerate() {
        if is_of_name(store, &list.origin, number, partition, name) {
            return Some(i);
        }
    }
    None
}

impl<S: Durable> Lists<S> {
    /// Returns the index of the list of a name's current incarnation, if it has one. Call this before a removal.
    pub fn find_name(&self, store: &S, partition: &str, name: &[u8]) -> Option<usize>
        ensures { IsListOf S.place (S.directory store.now) partition.now name.now self.now.all.lists.items result }
    {
        // Most opens and removals are made while nothing is pending. The name isn't looked up for these.
        if self.all.lists.is_empty() {
            return None;
        }
        let Some(number) = store.current_number(partition, name) else {
            return None;
        };
        if self.searched {
            return find_name_by_steps(&self.all.lists, store, number, partition, name);
        }
        let Some(i) = self.numbers.get_index_of(&number) else {
            return None;
        };
        if store.is_removed(&self.all.lists[i].origin, partition, Some(name)) {
            Some(i)
        } else {
            None
        }
    }

    /// Drops the list that `find_name` found, if it found one. Call this after a removal.
    pub fn retire_found(&mut self, list: Option<usize>)
        requires { IfSome list (λ i. i < vec_len self.old.all.lists) }
        ensures { RetiresName S.place self.old.all.lists.items self.new.all.lists.items list }
    {
        if let Some(i) = list {
            self.take(i);
        }
    }

    /// Drops the list of a name's current incarnation, if it has one.
    pub fn retire_name(&mut self, store: &S, partition: &str, name: &[u8])
        ensures { RetiresCurrent S.place (S.directory store.now) partition.now name.now self.old.all self.new.all }
    {
        let list = self.find_name(store, partition, name);
        self.retire_found(list);
    }
}
