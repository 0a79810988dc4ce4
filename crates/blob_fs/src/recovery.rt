//! The recovery: the names from the journal, and the files from their blobs.
ghost use Rattle.std.specs.Prelude.{◌≡◌, ℕ, Some, IfErr, IfOk, OnOk, OnErr, is_some, true};
ghost use Rattle.std.specs.BTreeMap.{Updates, get};
ghost use Rattle.std.specs.Ordering.{nat_cmp};
ghost use Rattle.blob_directory.specs.Checkpoints.{FitsJournal};
ghost use Rattle.blob_directory.specs.Tables.{bound};
ghost use Rattle.blob_directory.specs.Trees.{has_link};
ghost use Rattle.blob_fs.specs.Bytes.{ChangesOnly, CutsFile, CutsFrom, CutsTo, FindsKnown, HasNoOrphan, HasOnlyKnown, HasOnlyLinked, KeepsBlobsOf, OpensLeft, RecoversBytes, Reopens, ReopensAll, Rewrites, Truncates};
ghost use Rattle.blob_fs.specs.Errors.{IsOutOfMemory, StopsAtLimits, TrackSizes};
ghost use Rattle.blob_fs.specs.Truncations.{lost_of};
ghost use Rattle.blob_fs.specs.Fixed.{AllFixed, AreWhole, FixesFound, IsWhole};
ghost use Rattle.blob_fs.specs.Open.{AllOpen, MayChange};
ghost use Rattle.blob_fs.specs.Named.{AllNamed, CountsLinks};
ghost use Rattle.blob_fs.specs.States.{KeepsStored};
ghost use Rattle.blob_fs.specs.Tracked.{AllPresent};
ghost use Rattle.blob_fs.specs.Files.{FindsAgain, FindsNames, FindsTold, GivesNames, GivesTold, KeepsEdits, KeepsOptions, RepresentsFiles, fresh_inode, journaled_of, keeps_of, table_of};
ghost use Rattle.blob_journal.specs.Blobs.{ChangesFile, SameFilesBut};
ghost use Rattle.blob_journal.specs.Errors.{FailsAtLimits, IsFaultless, IsReady, TracksSize};
ghost use Rattle.blob_journal.specs.Fixed.{KeepsOpenBut};
ghost use Rattle.blob_journal.specs.Journals.{GivesNames as gives_names, store_of};
ghost use Rattle.blob_journal.specs.Settling.{FindsEdits};
ghost use Rattle.blob_journal.specs.Unchanged.{KeepsNamesAndEdits, UsesFile};

use crate::boxed_file::BoxedFile;
use crate::error::FsError;
use crate::file_system::{File, FileSystem, used_by};
use crate::truncation::Kept;
use crate::truncations::{Loss, are_same, cut_start, kept_length, lost_edits, truncate_all};
use blob_base::Error;
use blob_directory::tree::Tree;
use blob_journal::laws::{bindings, blobs};
use blob_journal::{FileBlob, Journaled};
use rand_core::Rng;
use std::alloc::Global;
use std::collections::BTreeMap;

/// Cuts a file to a length, durably.
fn cut_to<R: Rng + Drop>(
    store: &mut Journaled<R>,
    blob: &mut FileBlob,
    length: u64,
) -> Result<(), Error>
    ensures uses { UsesFile blob.old store.old blob.new store.new }
    ensures cut { OnOk result (CutsTo length store.old blob.old store.new blob.new) }
    ensures others { OnOk result (ChangesFile store.old blob.old store.new) }
    ensures still { OnOk result (MayChange store.old blob.old store.new blob.new) }
    ensures errors { IsReady store.old blob.old → FailsAtLimits (store_of store.new) result }
{
    blobs::<R>();
    store.resize_file(blob, length)?;
    store.sync_file(blob)?;
    Ok(())
}

/// Makes these the bytes of a file, durably.
fn rewrite<R: Rng + Drop>(
    store: &mut Journaled<R>,
    blob: &mut FileBlob,
    bytes: &[u8],
) -> Result<(), Error>
    ensures uses { UsesFile blob.old store.old blob.new store.new }
    ensures rewritten { OnOk result (Rewrites bytes.now store.old blob.old store.new blob.new) }
    ensures others { OnOk result (ChangesOnly store.old blob.old store.new) }
    ensures still { OnOk result (MayChange store.old blob.old store.new blob.new) }
    ensures errors { IsReady store.old blob.old → FailsAtLimits (store_of store.new) result }
{
    blobs::<R>();
    store.resize_file(blob, 0)?;
    store.write_file(blob, 0, bytes)?;
    store.sync_file(blob)?;
    Ok(())
}

/// Applies the truncations of a file that a crash kept, durably.
fn truncate_left<R: Rng + Drop>(
    store: &mut Journaled<R>,
    blob: &mut FileBlob,
    inode: u64,
    old: &File,
    kept: &Kept,
    loss: &Loss,
) -> Result<(), Error>
    ensures uses { UsesFile blob.old store.old blob.new store.new }
    ensures truncated { OnOk result (Truncates kept.now loss.now inode old.now store.old blob.old store.new blob.new) }
    ensures others { OnOk result (ChangesOnly store.old blob.old store.new) }
    ensures still { OnOk result (MayChange store.old blob.old store.new blob.new) }
    ensures errors { IsReady store.old blob.old → FailsAtLimits (store_of store.new) result }
{
    blobs::<R>();
    let truncations = old.truncations.as_slice();
    if truncations.is_empty() {
        return Ok(());
    }
    let found = store.read_whole(blob)?;
    let bytes = truncate_all(kept, loss, inode, truncations, &found)?;
    if are_same(&found, &bytes) {
        return Ok(());
    }
    rewrite(store, blob, &bytes)
}

/// Truncates a file after a crash at its first byte beyond a size that isn't the live one.
fn cut_from<R: Rng + Drop>(
    store: &mut Journaled<R>,
    blob: &mut FileBlob,
    live: &FileBlob,
    start: u64,
) -> Result<(), Error>
    ensures uses { UsesFile blob.old store.old blob.new store.new }
    ensures cut { OnOk result (CutsFrom start live.now store.old blob.old store.new blob.new) }
    ensures others { OnOk result (ChangesOnly store.old blob.old store.new) }
    ensures still { OnOk result (MayChange store.old blob.old store.new blob.new) }
    ensures errors { IsReady store.old blob.old → TracksSize live.now → FailsAtLimits (store_of store.new) result }
{
    blobs::<R>();
    let size = blob.size();
    if size <= start {
        return Ok(());
    }
    let found = store.read_whole(blob)?;
    let seen = store.read_whole(live)?;
    let length = kept_length(&found, &seen, start as usize) as u64;
    if length >= size {
        return Ok(());
    }
    cut_to(store, blob, length)
}

/// Cuts a file after a crash, if the profile does.
fn cut<R: Rng + Drop>(
    store: &mut Journaled<R>,
    blob: &mut FileBlob,
    old: &File,
    loss: &Loss,
) -> Result<(), Error>
    ensures uses { UsesFile blob.old store.old blob.new store.new }
    ensures cut { OnOk result (CutsFile loss.now old.now store.old blob.old store.new blob.new) }
    ensures others { OnOk result (ChangesOnly store.old blob.old store.new) }
    ensures still { OnOk result (MayChange store.old blob.old store.new blob.new) }
    ensures errors { IsReady store.old blob.old → TracksSize old.now.blob → FailsAtLimits (store_of store.new) result }
{
    blobs::<R>();
    if !loss.cuts {
        return Ok(());
    }
    let start = cut_start(loss, old.synced, &old.truncations);
    cut_from(store, blob, &old.blob, start)
}

/// Opens the blob of a file after a crash, applies its kept truncations, and cuts it if the profile does. Returns it with the size
/// that was found: after the truncations, before the cut. The file system must have had the file before the crash.
fn open_cut<R: Rng + Drop>(
    store: &mut Journaled<R>,
    inode: u64,
    old: &BTreeMap<u64, BoxedFile>,
    kept: &Kept,
    loss: &Loss,
) -> Result<(FileBlob, u64), Error>
    requires known { is_some (get nat_cmp old.now inode) ≡ true }
    ensures keeps { KeepsStored store.old store.new }
    ensures left { IfOk result (λ r. OpensLeft store.old inode old.now kept.now loss.now store.new r.0 r.1) }
    ensures others { OnOk result (SameFilesBut inode store.old store.new) }
    ensures still { OnOk result (KeepsOpenBut inode store.old store.new) }
    ensures ready { IsFaultless store.old → IfOk result (λ r. IsReady store.new r.0) }
    ensures errors { IsFaultless store.old → TrackSizes old.now → FailsAtLimits (store_of store.new) result }
{
    blobs::<R>();
    let Some(was) = old.get(&inode) else {
        unreachable!();
    };
    let was = was.as_ref();
    let mut blob = store.open_file(inode)?;
    truncate_left(store, &mut blob, inode, was, kept, loss)?;
    let found = blob.size();
    cut(store, &mut blob, was, loss)?;
    Ok((blob, found))
}

/// The same, with its bytes made durable: no crash changes any of them until a call reaches it.
fn open_left<R: Rng + Drop>(
    store: &mut Journaled<R>,
    inode: u64,
    old: &BTreeMap<u64, BoxedFile>,
    kept: &Kept,
    loss: &Loss,
) -> Result<(FileBlob, u64), Error>
    requires known { is_some (get nat_cmp old.now inode) ≡ true }
    ensures keeps { KeepsStored store.old store.new }
    ensures left { IfOk result (λ r. OpensLeft store.old inode old.now kept.now loss.now store.new r.0 r.1) }
    ensures others { OnOk result (SameFilesBut inode store.old store.new) }
    ensures still { OnOk result (KeepsOpenBut inode store.old store.new) }
    ensures fixes { IfOk result (λ r. AllFixed store.new r.0) }
    ensures faultless { IsFaultless store.old → OnOk result (IsFaultless store.new) }
    ensures errors { IsFaultless store.old → TrackSizes old.now → FailsAtLimits (store_of store.new) result }
{
    blobs::<R>();
    let (mut blob, found) = open_cut(store, inode, old, kept, loss)?;
    store.sync_file(&mut blob)?;
    Ok((blob, found))
}

/// Opens a file after a crash.
fn reopen<R: Rng + Drop>(
    store: &mut Journaled<R>,
    inode: u64,
    old: &BTreeMap<u64, BoxedFile>,
    links: u32,
    kept: &Kept,
    loss: &Loss,
) -> Result<File, Error>
    requires known { is_some (get nat_cmp old.now inode) ≡ true }
    ensures keeps { KeepsStored store.old store.new }
    ensures left { IfOk result (λ file. Reopens store.old inode old.now kept.now loss.now store.new file) }
    ensures others { OnOk result (SameFilesBut inode store.old store.new) }
    ensures still { OnOk result (KeepsOpenBut inode store.old store.new) }
    ensures whole { IfOk result (IsWhole store.new) }
    ensures links { IfOk result (λ file. file.links ≡ links) }
    ensures faultless { IsFaultless store.old → OnOk result (IsFaultless store.new) }
    ensures errors { IsFaultless store.old → TrackSizes old.now → FailsAtLimits (store_of store.new) result }
{
    let (blob, found) = open_left(store, inode, old, kept, loss)?;
    let synced = blob.size();
    let mut file = File::new(loss.alloc, blob);
    file.links = links;
    file.synced = synced;
    file.found = found;
    Ok(file)
}

/// Adds a file to a map. The only error is out of memory.
fn put(
    alloc: Global,
    files: &mut BTreeMap<u64, BoxedFile>,
    inode: u64,
    file: File,
) -> Result<(), FsError>
    ensures updated { OnOk result (Updates nat_cmp files.old files.new inode (Some file)) }
    ensures errors { IfErr result IsOutOfMemory }
{
    files.insert(inode, BoxedFile::new(alloc, file)?)?;
    Ok(())
}

/// Opens each file that has a name.
fn reopen_all<R: Rng + Drop>(
    store: &mut Journaled<R>,
    old: &BTreeMap<u64, BoxedFile>,
    tree: &Tree,
    kept: &Kept,
    loss: &Loss,
) -> Result<BTreeMap<u64, BoxedFile>, FsError>
    requires known { (inode : ℕ) → has_link tree.now inode ≡ true → is_some (get nat_cmp old.now inode) ≡ true }
    ensures keeps { KeepsStored store.old store.new }
    ensures left { IfOk result (λ files. ReopensAll store.old old.now tree.now kept.now loss.now store.new files) }
    ensures known { IfOk result (HasOnlyKnown old.now) }
    ensures linked { IfOk result (HasOnlyLinked tree.now) }
    ensures opened { IfOk result (AllOpen store.new) }
    ensures whole { IfOk result (AreWhole store.new) }
    ensures counted { IfOk result (CountsLinks tree.now) }
    ensures present { IfOk result AllPresent }
    ensures faultless { IsFaultless store.old → OnOk result (IsFaultless store.new) }
    ensures errors { IsFaultless store.old → TrackSizes old.now → StopsAtLimits store.new result }
{
    blobs::<R>();
    let mut files = BTreeMap::new(loss.alloc);
    for (inode, links) in tree.links.iter() {
        let file = reopen(store, *inode, old, *links, kept, loss)?;
        put(loss.alloc, &mut files, *inode, file)?;
    }
    Ok(files)
}

/// Removes the blob of a file. If memory runs out, it stays until the next crash.
fn remove_blob<R: Rng + Drop>(store: &mut Journaled<R>, inode: u64)
    ensures keeps { KeepsNamesAndEdits store.old store.new }
    ensures gives { gives_names store.old → gives_names store.new }
    ensures others { SameFilesBut inode store.old store.new }
    ensures still { KeepsOpenBut inode store.old store.new }
{
    let _ = store.remove_file(inode);
}

/// Removes the blobs of files that aren't there any more.
fn remove_unnamed<R: Rng + Drop>(
    store: &mut Journaled<R>,
    old: &BTreeMap<u64, BoxedFile>,
    files: &BTreeMap<u64, BoxedFile>,
)
    ensures keeps { KeepsNamesAndEdits store.old store.new }
    ensures gives { gives_names store.old → gives_names store.new }
    ensures kept { KeepsBlobsOf files.now store.old store.new }
    ensures opened { AllOpen store.old files.now → AllOpen store.new files.now }
    ensures whole { AllOpen store.old files.now → AreWhole store.old files.now → AreWhole store.new files.now }
{
    blobs::<R>();
    for (inode, _) in old {
        if !files.contains_key(inode) {
            remove_blob(store, *inode);
        }
    }
}

impl<R: Rng + Drop> FileSystem<R> {
    /// Recovers after a crash of the layer that kept these writes. Takes the numbers of the unsettled edits, and returns of each
    /// whether it was kept.
    pub(crate) fn recover(&mut self, kept: &Kept, numbers: &[u64]) -> Result<Vec<bool>, FsError>
        ensures found { OnOk result (FindsNames self.old self.new) }
        ensures gives { OnOk result (RepresentsFiles self.old → GivesNames self.new) }
        ensures again { OnOk result (FindsAgain self.old self.new) }
        ensures refused { OnErr result (KeepsEdits self.old self.new) }
        ensures kept { OnOk result (FindsTold self.old self.new) }
        ensures told { OnOk result (GivesTold self.new) }
        ensures bytes { IfOk result (λ e. RecoversBytes kept.now (lost_of numbers.now e.items) self.old self.new) }
        ensures known { OnOk result (FindsKnown self.old self.new) }
        ensures edits { IfOk result (λ e. FindsEdits (journaled_of self.old) (keeps_of self.old) e.items) }
        ensures orphans { OnOk result (HasNoOrphan self.new) }
        ensures opened { OnOk result (AllOpen (journaled_of self.new) self.new.files) }
        ensures fixes { OnOk result (FixesFound self.old self.new) }
        ensures errors { StopsAtLimits (journaled_of self.new) result }
        ensures options { KeepsOptions self.old self.new }
    {
        bindings();
        blobs::<R>();
        let (tree, edits) = self.store.find_names(self.options.profile.keeps)?;
        let lost = lost_edits(self.alloc, numbers, &edits)?;
        let loss = Loss {
            alloc: self.alloc,
            lost,
            cuts: self.options.profile.cuts,
        };
        let files = reopen_all(&mut self.store, &self.files, &tree, kept, &loss)?;
        self.begin_life(tree, files)?;
        Ok(edits)
    }

    /// Takes the names and directories of a tree, and these files, whose blobs are open. A new journal settles the names.
    /// Removes the blobs of files that no name reaches. An error changes no name and no file.
    fn begin_life(&mut self, tree: Tree, files: BTreeMap<u64, BoxedFile>) -> Result<(), FsError>
        requires opened { AllOpen (journaled_of self.old) files }
        requires named { AllNamed (bound tree.names) files }
        requires present { AllPresent files }
        requires fits { FitsJournal tree }
        ensures names { OnOk result (table_of self.new ≡ tree.names) }
        ensures gives { OnOk result (RepresentsFiles self.old → GivesNames self.new) }
        ensures told { OnOk result (GivesTold self.new) }
        ensures refused { OnErr result (KeepsEdits self.old self.new) }
        ensures files { OnOk result (self.new.files ≡ files) }
        ensures kept { OnOk result (KeepsBlobsOf files (journaled_of self.old) (journaled_of self.new)) }
        ensures opened { OnOk result (AllOpen (journaled_of self.new) files) }
        ensures whole { OnOk result (AreWhole (journaled_of self.old) files → AreWhole (journaled_of self.new) files) }
        ensures numbers { OnOk result (fresh_inode self.new ≡ fresh_inode self.old) }
        ensures errors { IsFaultless (journaled_of self.old) → StopsAtLimits (journaled_of self.new) result }
        ensures options { KeepsOptions self.old self.new }
    {
        bindings();
        blobs::<R>();
        let directories = self.store.renew(tree)?;
        remove_unnamed(&mut self.store, &self.files, &files);
        self.used = used_by(&files);
        self.directories = directories;
        self.files = files;
        self.opens.clear();
        self.gone.clear();
        Ok(())
    }
}
