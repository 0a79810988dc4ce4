//! A laboratory that runs lines of a script.

use blob_base::Error;
use blob_faulty::Config;
use blob_lab::script::{Reader, RefusedLine};
use blob_lab::{Call, Lab, Reply};
use std::alloc::Global;
use std::mem;
use test_player::found::{Found, bytes_of, done};
use test_player::{tokens, window};

/// A laboratory, which its first call creates, and the reader of its lines.
pub struct Laboratory {
    alloc: Global,
    words: Vec<u64>,
    lab: Option<Lab>,
    reader: Reader,
}

// Creates a laboratory with one image, and zeros or the words of a seed.
fn made(
    alloc: Global,
    partition: &str,
    name: &str,
    raw: &str,
    seed: Option<u64>,
) -> Result<Found, Error> {
    let partition = tokens::text(alloc, partition)?;
    let (name, raw) = (tokens::bytes(alloc, name)?, tokens::bytes(alloc, raw)?);
    let mut images = Vec::with_capacity(alloc, 1)?;
    images.push((partition, name, raw))?;
    window::begin(alloc);
    let answer = match seed {
        Some(seed) => Lab::seeded(images, Vec::new(alloc), seed, Config::default()),
        None => Lab::new(images, Vec::new(alloc), Config::default()),
    };
    window::end(alloc);
    match answer {
        Ok(lab) => {
            lab.end();
            Ok(done(()))
        }
        Err(e) => Err(e),
    }
}

// Returns all live bytes of a handle, if they are fewer than 32 KiB. Finds their number by trying reads.
fn all(lab: &mut Lab, handle: usize) -> Reply {
    let (offset, mut len) = (0, 0usize);
    for bit in 0..15u32 {
        let longer = len | (1usize << (14 - bit));
        let call = Call::Read {
            handle,
            offset,
            len: longer,
        };
        if let Reply::Bytes(_) = lab.apply(&call) {
            len = longer;
        }
    }
    lab.apply(&Call::Read {
        handle,
        offset,
        len,
    })
}

impl Laboratory {
    /// Returns a laboratory with these words for its generator.
    pub fn new(alloc: Global, words: Vec<u64>) -> Laboratory {
        Laboratory {
            alloc,
            words,
            lab: None,
            reader: Reader::begun(alloc, Config::default()),
        }
    }

    /// Ends the laboratory, if it was created.
    pub fn end(self) {
        let Laboratory {
            alloc: _,
            words: _,
            lab,
            reader: _,
        } = self;
        if let Some(lab) = lab {
            lab.end();
        }
    }

    fn begin(&mut self) -> Result<(), Error> {
        if self.lab.is_none() {
            let words = mem::replace(&mut self.words, Vec::new(self.alloc));
            match Lab::new(Vec::new(self.alloc), words, Config::default()) {
                Ok(lab) => {
                    if let Some(earlier) = self.lab.replace(lab) {
                        earlier.end();
                    }
                }
                Err(e) => return Err(e),
            }
        }
        Ok(())
    }

    // Parses a line as a call of a script. Returns `None` if it isn't one.
    fn call_of(&mut self, line: &str) -> Result<Option<Call>, Error> {
        match self.reader.read(line.as_bytes()) {
            Ok(call) => Ok(call),
            Err(RefusedLine::BadCall) => Ok(None),
            Err(RefusedLine::NoMemory) => Err(tokens::refused(RefusedLine::NoMemory)),
        }
    }

    fn apply(&mut self, call: &Call) -> Result<Found, Error> {
        let lab = self.lab.as_mut().ok_or(Error::Closed)?;
        window::begin(self.alloc);
        let reply = lab.apply(call);
        window::end(self.alloc);
        Ok(Found::Told(reply))
    }

    // Runs calls as one list. Returns the number of replies.
    fn run(&mut self, lines: &str) -> Result<Found, Error> {
        let mut calls = Vec::new(self.alloc);
        for line in lines.split(';') {
            calls.push(self.call_of(line)?.ok_or(Error::Closed)?)?;
        }
        let lab = self.lab.as_mut().ok_or(Error::Closed)?;
        window::begin(self.alloc);
        let answer = lab.run(&calls);
        window::end(self.alloc);
        Ok(Found::Told(Reply::Size(answer?.len() as u64)))
    }

    // Adds words behind those that are left.
    fn push_words(&mut self, words: &str) -> Result<Found, Error> {
        let mut given = Vec::new(self.alloc);
        for word in words.split(' ') {
            given.push(tokens::number(word)?)?;
        }
        let lab = self.lab.as_mut().ok_or(Error::Closed)?;
        window::begin(self.alloc);
        let answer = lab.push_words(&given);
        window::end(self.alloc);
        answer.map(done)
    }

    fn end_lab(&mut self) -> Result<Found, Error> {
        window::begin(self.alloc);
        if let Some(lab) = self.lab.take() {
            lab.end();
        }
        window::end(self.alloc);
        Ok(done(()))
    }

    fn raw(&self, partition: &str, name: &str) -> Result<Found, Error> {
        let partition = tokens::text(self.alloc, partition)?;
        let name = tokens::bytes(self.alloc, name)?;
        let lab = self.lab.as_ref().ok_or(Error::Closed)?;
        let found = lab.wrapper().inner().raw_blob(&partition, &name)?;
        Ok(bytes_of(found))
    }

    fn all(&mut self, handle: &str) -> Result<Found, Error> {
        let handle = tokens::number(handle)? as usize;
        let lab = self.lab.as_mut().ok_or(Error::Closed)?;
        Ok(Found::Told(all(lab, handle)))
    }

    /// Runs the call of a line.
    pub fn perform(&mut self, line: &str) -> Result<Found, Error> {
        self.begin()?;
        if let Some(call) = self.call_of(line)? {
            return self.apply(&call);
        }
        if let Some(lines) = line.strip_prefix("run ") {
            return self.run(lines);
        }
        if let Some(words) = line.strip_prefix("pushwords ") {
            return self.push_words(words);
        }
        let words: Vec<&str> = line.split(' ').collect(self.alloc)?;
        match words.as_slice() {
            ["made", partition, name, raw] => made(self.alloc, partition, name, raw, None),
            ["seeded", partition, name, raw] => made(self.alloc, partition, name, raw, Some(7)),
            ["end"] => self.end_lab(),
            ["raw", partition, name] => self.raw(partition, name),
            ["all", handle] => self.all(handle),
            _ => Err(Error::Closed),
        }
    }
}
