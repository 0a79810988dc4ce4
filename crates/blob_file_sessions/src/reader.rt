// Reading the lines of files that are no calls: words, one seed, and settings after them.
ghost use Rattle.std.specs.Prelude.{◌≡◌, IfOk, None};
ghost use Rattle.blob_fs.specs.Files.{names_of};
ghost use Rattle.blob_directory.specs.Names.{Same};
ghost use Rattle.blob_file_sessions.specs.Held.{fs_of};

use crate::kept::KeptFiles;
use crate::setting::{FileLine, copied, first_options, read_file_line};
use blob_fs::{FileSystem, Options};
use blob_lab::script::setting::copy_of;
use blob_lab::script::{Line, Preamble, Reader, RefusedLine};
use blob_lab::{Call, ScriptedRng};
use std::alloc::{AllocError, Global};

/// Reads words, one seed, and settings after them. It keeps what they have given so far.
#[derive(Drop)]
pub struct FileReader {
    reader: Reader,
    options: Options,
}

impl FileReader {
    /// Returns a reader that has read nothing.
    pub fn new(alloc: Global) -> FileReader {
        FileReader {
            reader: Reader::new(alloc),
            options: first_options(),
        }
    }

    /// Returns a reader of settings alone, with these options so far.
    pub fn begun(alloc: Global, options: &Options) -> FileReader {
        FileReader {
            reader: Reader::begun(alloc, copy_of(&options.faults)),
            options: copied(options),
        }
    }

    /// Adds a line, without its line feed. Returns whether it is a setting.
    ///
    /// # Errors
    ///
    /// - `BadCall` if it is neither empty, a comment, a setting, words nor a seed, or can't follow the lines before it: words or
    ///   a seed after a setting, or a second seed.
    /// - `NoMemory` if what it gives can't be allocated.
    ///
    /// No line may follow then.
    pub fn read(&mut self, alloc: Global, line: &[u8]) -> Result<bool, RefusedLine> {
        match read_file_line(alloc, line)? {
            FileLine::Set(setting) => {
                self.reader.end_preamble();
                self.options = setting.apply(&self.options);
                Ok(true)
            }
            FileLine::Shared(line) => self.share(line),
        }
    }

    /// Adds a line of a script of blobs. Images and calls aren't allowed, except the call of a setting.
    fn share(&mut self, line: Line) -> Result<bool, RefusedLine> {
        match &self.reader.take(line)? {
            Some(Call::Configure(faults)) => {
                self.options.faults = copy_of(faults);
                Ok(true)
            }
            None if self.reader.preamble().images.is_empty() => Ok(false),
            _ => Err(RefusedLine::BadCall),
        }
    }

    /// Returns the options so far.
    pub fn options(&self) -> &Options {
        &self.options
    }

    /// Returns an empty file system with the words, the seed and the options so far. Words and a seed are rejected from then on.
    pub fn begin(&mut self, alloc: Global) -> Result<KeptFiles, AllocError>
        ensures { IfOk result (λ kept. Same (names_of (fs_of kept)) (λ _. None)) }
    {
        let Preamble {
            images: _,
            words,
            seed,
        } = self.reader.begin();
        let rng = match seed {
            None => ScriptedRng::new(words),
            Some(seed) => ScriptedRng::seeded(words, seed),
        };
        match FileSystem::new(alloc, rng, copied(&self.options)) {
            Ok(fs) => Ok(KeptFiles::new(alloc, fs)),
            Err(_) => Err(AllocError),
        }
    }
}
