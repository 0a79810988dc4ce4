//! An edit as the bytes of one record of a journal.
ghost use Rattle.std.specs.Prelude.{◌≡◌, ◌+◌, ◌++◌, drop, is_some, IfOk, IfSome, OnOk};
ghost use Rattle.blob_packed.specs.Numbers.{number_told};
ghost use Rattle.blob_packed.specs.Records.{record_bytes};
ghost use Rattle.blob_directory.specs.Names.{change_of, edit_of};
ghost use Rattle.blob_directory.specs.Records.{binding_told, change_bytes, change_told, edit_bytes, edit_told, has_change, has_edit, inode_told, kind_byte, record_of};

use crate::edit::{Binding, Change, Edit, Kind, LONGEST};
use blob_packed::number::{put_number, take_number};
use blob_packed::record::put_record;
use std::alloc::{AllocError, Global};

fn kind_byte(to: Option<Binding>) -> u8
    ensures { result ≡ kind_byte to }
{
    match to {
        None => 0,
        Some(binding) => match binding.kind {
            Kind::File => 1,
            Kind::Directory => 2,
        },
    }
}

pub(crate) fn inode_told(to: Option<Binding>) -> u64
    ensures { result ≡ inode_told to }
{
    match to {
        None => 0,
        Some(binding) => binding.inode,
    }
}

/// Appends the bytes of a change. Fails only if memory runs out.
fn put_change(bytes: &mut Vec<u8>, change: &Change) -> Result<(), AllocError>
    ensures { OnOk result (bytes.new.items ≡ bytes.old.items ++ change_bytes (change_of change.now)) }
{
    put_number(bytes, change.entry.len() as u64)?;
    bytes.push(kind_byte(change.to))?;
    put_number(bytes, inode_told(change.to))?;
    bytes.extend_from_slice(&change.entry)
}

/// Returns how many bytes the changes of an edit take, or more.
fn room_for(edit: &Edit) -> usize {
    let second = match &edit.second {
        None => 0,
        Some(second) => second.entry.len(),
    };
    edit.first
        .entry
        .len()
        .saturating_add(second)
        .saturating_add(34)
}

/// Returns the bytes of an edit's changes. Fails only if memory runs out.
pub(crate) fn edit_bytes(alloc: Global, edit: &Edit) -> Result<Vec<u8>, AllocError>
    ensures { IfOk result (λ bytes. bytes.items ≡ edit_bytes (edit_of edit.now)) }
{
    let mut bytes = Vec::with_capacity(alloc, room_for(edit))?;
    put_change(&mut bytes, &edit.first)?;
    if let Some(second) = &edit.second {
        put_change(&mut bytes, second)?;
    }
    Ok(bytes)
}

/// Returns the record of an edit with its number. Fails only if memory runs out.
pub fn encode(
    alloc: Global,
    number: u64,
    edit: &Edit,
    is_settled: bool,
) -> Result<Vec<u8>, AllocError>
    ensures { IfOk result (λ bytes. bytes.items ≡ record_bytes number (record_of (edit_of edit.now) is_settled)) }
{
    let changes = edit_bytes(alloc, edit)?;
    let mut bytes = Vec::with_capacity(alloc, changes.len().saturating_add(17))?;
    put_record(&mut bytes, number, &changes, is_settled)?;
    Ok(bytes)
}

fn binding_told(kind: u8, inode: u64) -> Option<Binding>
    ensures { result ≡ binding_told kind inode }
{
    match kind {
        1 => Some(Binding {
            inode,
            kind: Kind::File,
        }),
        2 => Some(Binding {
            inode,
            kind: Kind::Directory,
        }),
        _ => None,
    }
}

/// Returns the change that bytes begin with, and what follows it. `None` if they begin with none. Fails only if memory
/// runs out.
fn take_change(alloc: Global, bytes: &[u8]) -> Result<Option<(Change, &[u8])>, AllocError>
    ensures found { IfOk result (λ told. is_some told ≡ has_change bytes.now) }
    ensures change { IfOk result (λ told. IfSome told (λ t. change_of t.0 ≡ change_told bytes.now)) }
    ensures rest { IfOk result (λ told. IfSome told (λ t. t.1.now ≡ drop (17 + number_told bytes.now) bytes.now)) }
{
    let Some((size, rest)) = take_number(bytes) else {
        return Ok(None);
    };
    let Some((kind, rest)) = rest.split_first() else {
        return Ok(None);
    };
    let Some((inode, rest)) = take_number(rest) else {
        return Ok(None);
    };
    let size = size as usize;
    if size == 0 || rest.len() < size {
        return Ok(None);
    }
    let (entry, rest) = rest.split_at(size);
    let entry = Vec::from_slice(alloc, entry)?;
    let to = binding_told(*kind, inode);
    Ok(Some((Change { entry, to }, rest)))
}

/// Returns the edit that a record's bytes are of, or `None` if they are of none. Fails only if memory runs out.
pub fn decode(alloc: Global, bytes: &[u8]) -> Result<Option<Edit>, AllocError>
    ensures found { IfOk result (λ told. is_some told ≡ has_edit bytes.now) }
    ensures edit { IfOk result (λ told. IfSome told (λ edit. edit_of edit ≡ edit_told bytes.now)) }
{
    if bytes.len() > LONGEST {
        return Ok(None);
    }
    let Some((first, rest)) = take_change(alloc, bytes)? else {
        return Ok(None);
    };
    let second = match take_change(alloc, rest)? {
        None => None,
        Some((second, _)) => Some(second),
    };
    Ok(Some(Edit { first, second }))
}
