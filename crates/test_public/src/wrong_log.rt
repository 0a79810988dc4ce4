// A log with one line wrong, as short as it can be. The tests have to find what it loses or makes up.
use blob_base::{Blob, Error, IoBufs, ReadOptions, Storage, WriteOptions};
use blob_log::frame::{frame_of, scan};
use blob_log::log::{Handle, Log, Store};
use rand_core::Rng;
use std::alloc::Global;

#[derive(Clone, Copy)]
pub enum Mistake {
    /// An append isn't synced.
    NoSync,
    /// An append returns Ok before its sync: whether that succeeds isn't asked.
    EarlyOk,
    /// The open of a recovery isn't admitted.
    NoAdmit,
    /// Eight zeros are the frame of an empty record.
    ZerosPass,
}

#[derive(Drop)]
pub struct WrongLog {
    mistake: Mistake,
    blob: Handle,
    end: u64,
}

impl WrongLog {
    fn append<R: Rng>(
        &mut self,
        alloc: Global,
        store: &mut Store<R>,
        entry: &[u8],
    ) -> Result<(), Error> {
        if entry.len() > 1000 {
            return Err(Error::OffsetOverflow);
        }
        let bytes = IoBufs::from_vec(frame_of(alloc, entry)?)?;
        let end = self.end.saturating_add(bytes.remaining() as u64);
        let options = match self.mistake {
            Mistake::NoSync | Mistake::EarlyOk => WriteOptions::default(),
            Mistake::NoAdmit | Mistake::ZerosPass => WriteOptions::SYNC,
        };
        self.blob.write_at(store, self.end, bytes, options)?;
        self.end = end;
        if let Mistake::EarlyOk = self.mistake {
            let _asked = self.blob.sync(store).is_ok();
        }
        Ok(())
    }

    fn recover<R: Rng>(
        alloc: Global,
        store: &mut Store<R>,
        mistake: Mistake,
    ) -> Result<(WrongLog, Vec<Vec<u8>>), Error> {
        let (blob, size) = match mistake {
            Mistake::NoAdmit => store.open("wal", b"0")?,
            _ => store.open_admitted("wal", b"0")?,
        };
        let bytes = blob
            .read_at(store, 0, size as usize, ReadOptions::default())?
            .coalesce();
        let (records, end) = match mistake {
            Mistake::ZerosPass => scan_with_zeros(alloc, &bytes)?,
            _ => scan(alloc, &bytes)?,
        };
        let end = end as u64;
        Ok((WrongLog { mistake, blob, end }, records))
    }
}

/// Scans, and takes eight zeros for the frame of an empty record.
fn scan_with_zeros(alloc: Global, bytes: &[u8]) -> Result<(Vec<Vec<u8>>, usize), Error> {
    let (mut records, mut end) = scan(alloc, bytes)?;
    for _ in 0..bytes.len() {
        let behind = end.saturating_add(8);
        let Some(rest) = bytes.get(behind..) else {
            break;
        };
        if bytes.get(end..behind) != Some(&[0; 8]) {
            break;
        }
        records.push(Vec::new(alloc))?;
        let (more, len) = scan(alloc, rest)?;
        for record in more {
            records.push(record)?;
        }
        end = behind.saturating_add(len);
    }
    Ok((records, end))
}

/// The crate's log, or one with a mistake.
#[derive(Drop)]
pub enum Tried {
    Right(Log),
    Wrong(WrongLog),
}

impl Tried {
    pub fn append<R: Rng>(
        &mut self,
        alloc: Global,
        store: &mut Store<R>,
        entry: &[u8],
    ) -> Result<(), Error> {
        match self {
            Tried::Right(log) => log.append(store, entry),
            Tried::Wrong(log) => log.append(alloc, store, entry),
        }
    }

    pub fn recover<R: Rng>(
        alloc: Global,
        store: &mut Store<R>,
        mistake: Option<Mistake>,
    ) -> Result<(Tried, Vec<Vec<u8>>), Error> {
        match mistake {
            None => {
                let (log, found) = Log::recover(alloc, store, "wal", b"0")?;
                Ok((Tried::Right(log), found))
            }
            Some(mistake) => {
                let (log, found) = WrongLog::recover(alloc, store, mistake)?;
                Ok((Tried::Wrong(log), found))
            }
        }
    }
}
