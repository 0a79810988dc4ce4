//! Each call and reply of a laboratory by its name.
use blob_lab::{Call, Reply};

/// Every call by its name and fields.
pub fn number(call: &Call) -> u64 {
    match call {
        Call::Configure(_) | Call::Crash | Call::Reopen => 0,
        Call::Open {
            partition: _,
            name: _,
            versions: _,
        } => 1,
        Call::OpenLoose {
            partition: _,
            name: _,
            versions: _,
        } => 2,
        Call::Admit {
            partition: _,
            name: _,
        } => 3,
        Call::Close(handle) | Call::Size(handle) | Call::Sync(handle) => *handle as u64,
        Call::StartSync(number) | Call::Finish(number) => *number as u64,
        Call::Read {
            handle: _,
            offset,
            len: _,
        } => *offset,
        Call::Write {
            handle: _,
            offset,
            bytes: _,
            sync: _,
        } => *offset,
        Call::Resize { handle: _, len } => *len,
        Call::Remove {
            partition: _,
            name: _,
        } => 4,
        Call::Scan { partition: _ } => 5,
    }
}

/// Every reply by its name and fields.
pub fn size(reply: &Reply) -> u64 {
    match reply {
        Reply::Done | Reply::NoHandle | Reply::EmptyRange => 0,
        Reply::Opened {
            handle: _,
            size,
            version: _,
        } => *size,
        Reply::Bytes(bytes) => bytes.len() as u64,
        Reply::Size(size) => *size,
        Reply::Names(names) => names.len() as u64,
        Reply::Started(number) => *number as u64,
        Reply::Crashed(kept) => kept.rows().len() as u64,
        Reply::Failed(_) => 0,
    }
}
