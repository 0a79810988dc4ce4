//! Exclusive opens and their handles.
use blob_base::{DEFAULT_BLOB_VERSION, Error};
use blob_faulty::Storage as Wrapper;
use blob_lab::{Opens, ScriptedRng, open};
use blob_memory::Storage as Memory;

type Held = open::Blob<blob_memory::Blob>;

pub fn release(opens: &mut Opens, blob: Held) -> blob_memory::Blob {
    let (inner, registration) = blob.into_parts();
    opens.release(registration);
    inner
}

pub fn end_all(opens: &mut Opens) {
    opens.end_all();
}

/// Opens a name of the plain store.
pub fn open_plain(opens: &mut Opens, store: &mut Memory) -> Result<Held, Error> {
    let versions = DEFAULT_BLOB_VERSION..=DEFAULT_BLOB_VERSION;
    let (blob, _, _) = opens.open(store, "p", b"b", versions)?;
    Ok(blob)
}

type Faulty = Wrapper<Memory, ScriptedRng>;

type Exclusive = open::Blob<blob_faulty::Blob<blob_memory::Blob>>;

pub fn open_exclusive(store: &mut Faulty, opens: &mut Opens) -> Result<Exclusive, Error> {
    let versions = DEFAULT_BLOB_VERSION..=DEFAULT_BLOB_VERSION;
    let (blob, _, _) = store.open_exclusive(opens, "p", b"b", versions)?;
    Ok(blob)
}
