//! The arguments of a call. All are built before the call starts.

use crate::tokens;
use blob_base::{BlobVersion, Error, IoBufs, IoBufsMut, Layout};
use blob_faulty::Config;
use blob_script::script::Line;
use std::alloc::Global;
use std::mem;
use std::ops::RangeInclusive;

/// The capacity of a buffer in bytes.
pub const ROOM: usize = 16;

/// The arguments of a call.
#[derive(Drop)]
pub struct Args<'a> {
    pub alloc: Global,
    /// The numbers in order, then zeros.
    pub numbers: [u64; 4],
    given: usize,
    pub partition: String,
    pub name: Vec<u8>,
    pub bytes: Vec<u8>,
    /// Bytes in pieces.
    pub bufs: IoBufs,
    pub buf: Option<IoBufsMut>,
    pub choices: Vec<bool>,
    pub words: Vec<u64>,
    /// The last two of each.
    pub layouts: [Layout; 2],
    pub versions: [BlobVersion; 2],
    setting: Option<Line>,
    pub error: Option<Error>,
    /// The text after the call's word.
    pub text: &'a str,
}

// Returns a buffer with this capacity and other contents.
fn buffer(alloc: Global) -> Result<IoBufsMut, Error> {
    let mut buf = IoBufsMut::with_capacity(alloc, ROOM)?;
    buf.set(b"sixteen bytes...");
    Ok(buf)
}

/// Returns whether a letter takes all remaining tokens. Letters are the types of a call's arguments.
///
/// One token: `n` is a number, and `u` one with a buffer; `p` a partition, `a` a blob's name, `b` bytes, `w` those of a
/// write, `c` choices, `l` a layout, `v` a version. All remaining tokens: `W` is a write in pieces, `G` words of a
/// generator, `S` a setting, `E` an error, `T` a text.
pub fn takes_all(letter: u8) -> bool {
    letter.is_ascii_uppercase()
}

impl<'a> Args<'a> {
    /// Returns no arguments except the text.
    pub fn new(alloc: Global, text: &'a str) -> Args<'a> {
        let none = BlobVersion::new(0);
        Args {
            alloc,
            numbers: [0; 4],
            given: 0,
            partition: String::new(alloc),
            name: Vec::new(alloc),
            bytes: Vec::new(alloc),
            bufs: IoBufs::new(alloc),
            buf: None,
            choices: Vec::new(alloc),
            words: Vec::new(alloc),
            layouts: [Layout::V0; 2],
            versions: [none; 2],
            setting: None,
            error: None,
            text,
        }
    }

    fn add_number(&mut self, number: u64) {
        if let Some(slot) = self.numbers.get_mut(self.given) {
            *slot = number;
            self.given = self.given.wrapping_add(1);
        }
    }

    /// Parses the argument of a letter's type from the first of the tokens, or from all of them.
    pub fn take(&mut self, letter: u8, tokens: &[&str]) -> Result<(), Error> {
        let token = match tokens {
            [token, ..] => *token,
            [] => "",
        };
        match letter {
            b'n' => self.add_number(tokens::number(token)?),
            b'u' => {
                self.add_number(tokens::number(token)?);
                self.buf = Some(buffer(self.alloc)?);
            }
            b'p' => self.partition = tokens::text(self.alloc, token)?,
            b'a' => self.name = tokens::bytes(self.alloc, token)?,
            b'b' => self.bytes = tokens::bytes(self.alloc, token)?,
            b'w' => self.bufs = tokens::pieces(self.alloc, &[token])?,
            b'c' => self.choices = tokens::choices(self.alloc, token)?,
            b'l' => self.layouts = [self.layouts[1], tokens::layout(token)?],
            b'v' => self.versions = [self.versions[1], tokens::version(token)?],
            _ => self.take_all(letter, tokens)?,
        }
        Ok(())
    }

    fn take_all(&mut self, letter: u8, tokens: &[&str]) -> Result<(), Error> {
        match letter {
            b'W' => self.bufs = tokens::pieces(self.alloc, tokens)?,
            b'G' => self.words = tokens::numbers(self.alloc, tokens)?,
            b'S' => self.setting = Some(tokens::setting(self.alloc, self.text)?),
            b'E' => self.error = tokens::error(self.alloc, tokens)?,
            _ => {}
        }
        Ok(())
    }

    /// Returns the number of a handle, which is the first number.
    pub fn handle(&self) -> usize {
        self.numbers[0] as usize
    }

    /// Returns the configuration with the setting, which is taken.
    pub fn configured(&mut self, config: Config) -> Result<Config, Error> {
        let setting = self.setting.take().ok_or(Error::Closed)?;
        tokens::configured(self.alloc, config, setting)
    }

    /// Takes the bytes of a write.
    pub fn take_bufs(&mut self) -> IoBufs {
        mem::replace(&mut self.bufs, IoBufs::new(self.alloc))
    }

    pub fn take_bytes(&mut self) -> Vec<u8> {
        mem::replace(&mut self.bytes, Vec::new(self.alloc))
    }

    /// Returns the range of versions, or `None` if the first is greater than the last.
    pub fn versions(&self) -> Option<RangeInclusive<BlobVersion>> {
        let [first, last] = self.versions;
        if first > last {
            return None;
        }
        Some(first..=last)
    }
}
