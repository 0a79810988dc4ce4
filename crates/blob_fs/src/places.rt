//! Where the pending writes are of which a crash returns rows.
ghost use Rattle.std.specs.Prelude.{◌≡◌, ◌≤◌, ◌∷◌, [], IfOk, OnOk, length, map, vec_capacity};
ghost use Rattle.blob_model.specs.Pending.{waiting};
ghost use Rattle.blob_draws.specs.Rows.{rows_of};
ghost use Rattle.blob_pending.specs.Views.{left_in};
ghost use Rattle.blob_fs.specs.PlaceMaps.{AreInodes, ArePlaces, NotesPlaces, place_of_row};

use crate::crash::Place;
use crate::file_system::{FileSystem, Store};
use blob_base::Durable;
use blob_faulty::Selections;
use blob_faulty::entries::unmarked;
use blob_faulty::entry::Entry;
use rand_core::Rng;
use std::alloc::AllocError;
use std::collections::BTreeMap;

/// Appends the place of each row's write. Allocates nothing: there is capacity for them.
pub(crate) fn find_places(
    rows: &Selections,
    pending: &BTreeMap<u64, Place>,
    places: &mut Vec<Place>,
)
    requires empty { places.old.items ≡ [] }
    requires room { length (rows_of rows.now) ≤ vec_capacity places.old }
    ensures { places.new.items ≡ map (place_of_row pending.now) (rows_of rows.now) }
{
    for (write, _) in rows.rows() {
        let place = pending.get(write).copied().unwrap_or(Place {
            inode: None,
            offset: 0,
        });
        places.push_reserved(place);
    }
}

/// Notes the place of an entry, by its number, if it is a write that a crash draws for. Fails only if memory runs out.
fn note_place(
    entry: &Entry,
    inode: Option<u64>,
    places: &mut BTreeMap<u64, Place>,
) -> Result<(), AllocError>
    ensures { OnOk result (NotesPlaces inode (waiting (left_in (entry.now ∷ []))) places.old places.new) }
{
    match entry {
        Entry::Write(write) if !write.is_covered() => {
            let place = Place {
                inode,
                offset: write.offset,
            };
            places.insert(write.number, place)?;
        }
        _ => (),
    }
    Ok(())
}

/// Notes the places of a list's writes that a crash draws for, by their numbers. Fails only if memory runs out.
fn note_places(
    entries: &[Entry],
    inode: Option<u64>,
    places: &mut BTreeMap<u64, Place>,
) -> Result<(), AllocError>
    ensures { OnOk result (NotesPlaces inode (waiting (left_in entries.now)) places.old places.new) }
{
    for entry in unmarked(entries) {
        note_place(entry, inode, places)?;
    }
    Ok(())
}

impl<R: Rng + Drop> FileSystem<R> {
    /// Returns the files by the numbers of their blobs' incarnations.
    fn inodes_by_number(&self) -> Result<BTreeMap<u64, u64>, AllocError>
        ensures { IfOk result (λ inodes. AreInodes self.now inodes) }
    {
        let mut inodes = BTreeMap::new(self.alloc);
        for (inode, file) in &self.files {
            inodes.insert(self.store.number_of_file(&file.as_ref().blob), *inode)?;
        }
        Ok(inodes)
    }

    /// Returns the place of each pending write, by the write's number. Fails only if memory runs out.
    pub(crate) fn pending_places(&self) -> Result<BTreeMap<u64, Place>, AllocError>
        ensures { IfOk result (λ places. ArePlaces self.now places) }
    {
        let inodes = self.inodes_by_number()?;
        let mut places = BTreeMap::new(self.alloc);
        for list in self.store.store().pending() {
            let number = Store::<R>::number_of(&list.origin);
            let inode = inodes.get(&number).copied();
            note_places(&list.entries, inode, &mut places)?;
        }
        Ok(places)
    }
}
