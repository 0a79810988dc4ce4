// A file system with the reply to its last call.
ghost use Rattle.std.specs.Prelude.{◌≡◌, false, None, OnErr, length, option_copied};
ghost use Rattle.blob_fs.specs.Files.{KeepsNames};
ghost use Rattle.blob_file_sessions.specs.Held.{fs_of};
ghost use Rattle.blob_fs.specs.Acts.{Tree, act_of};
ghost use Rattle.blob_file_sessions.specs.Calls.{Answers, Configures, Makes, Reads, TakesWords, TellsFileWords, TellsFollowed, Writes};
ghost use Rattle.blob_file_sessions.specs.Replies.{last_reply};
ghost use Rattle.blob_statuses.specs.Powers.{always_on};

use crate::by_kind::read_kind;
use crate::call::{FileCall, FileReply};
use crate::reader::FileReader;
use crate::setting::copied;
use blob_fs::reply::{counted, done, walked};
use blob_fs::{Call, Descriptor, FileSystem, Reply};
use blob_lab::ScriptedRng;
use blob_lab::script::RefusedLine;
use blob_sessions::Ran;
use blob_sessions::power::Power;
use blob_sessions::ran::{BAD_CALL, BAD_LINE, DONE, ENDLESS, NO_MEMORY, OTHER_REPLY};
use std::alloc::Global;

/// A file system, and the reply to its last call.
pub struct KeptFiles {
    pub(crate) alloc: Global,
    pub(crate) fs: FileSystem<ScriptedRng>,
    pub(crate) last: Option<Reply>,
    pub(crate) power: Power,
}

impl Drop for KeptFiles {
    fn drop(self) {
        let KeptFiles {
            alloc: _,
            fs: _,
            last: _,
            power: _,
        } = self;
    }
}

impl KeptFiles {
    pub fn new(alloc: Global, fs: FileSystem<ScriptedRng>) -> KeptFiles
        ensures fs { fs_of result ≡ fs }
        ensures last { result.last ≡ None }
        ensures power { result.power ≡ always_on }
    {
        KeptFiles {
            alloc,
            fs,
            last: None,
            power: Power::on(),
        }
    }

    /// Makes the setting of a line.
    ///
    /// `BAD_LINE` if it is no setting, and `NO_MEMORY`: nothing has changed.
    pub fn configure(&mut self, line: &[u8]) -> u32
        ensures { Configures self.old self.new result }
    {
        match self.read_setting(line) {
            Ok(true) => DONE,
            Ok(false) | Err(RefusedLine::BadCall) => BAD_LINE,
            Err(RefusedLine::NoMemory) => NO_MEMORY,
        }
    }

    /// Makes the setting of a line. Returns whether there is one: an empty line or a comment has none.
    ///
    /// # Errors
    ///
    /// `BadCall` if it is another line, `NoMemory`. Nothing has changed then.
    pub fn read_setting(&mut self, line: &[u8]) -> Result<bool, RefusedLine>
        ensures names { KeepsNames (fs_of self.old) (fs_of self.new) }
        ensures none { result ≡ Ok false → self.new ≡ self.old }
        ensures err { OnErr result (self.new ≡ self.old) }
        ensures last { self.new.last ≡ self.old.last }
    {
        let mut reader = FileReader::begun(self.alloc, self.fs.options());
        let is_setting = reader.read(self.alloc, line)?;
        if is_setting {
            self.fs.set_options(copied(reader.options()));
        }
        Ok(is_setting)
    }

    /// Makes a call, and returns the numbers of its reply.
    ///
    /// `BAD_CALL` if the kind is unknown, or the number of a rename is above 2: nothing has changed.
    pub fn apply(&mut self, asked: &FileCall, path: &[u8], to: &[u8]) -> FileReply
        ensures answers { Answers self.old asked.now path.now to.now self.new result }
        ensures power { self.new.power ≡ self.old.power }
    {
        let Some(call) = read_kind(asked, path, to) else {
            return FileReply::stopped(BAD_CALL);
        };
        self.make(&call);
        self.last()
    }

    /// Makes a call. Its reply is then the last one.
    pub fn make(&mut self, call: &Call<'_>)
        ensures makes { Makes self.old (act_of call.now) self.new (last_reply self.new) }
        ensures power { self.new.power ≡ self.old.power }
    {
        let reply = self.fs.answer(call);
        self.last = Some(reply);
    }

    /// Returns the file system.
    pub fn fs(&self) -> &FileSystem<ScriptedRng>
        ensures { result.now ≡ fs_of self.now }
    {
        &self.fs
    }

    /// Reads all paths and the bytes of files, without a draw. That is then the last call.
    pub fn tree(&mut self)
        ensures { Makes self.old Tree self.new (last_reply self.new) }
    {
        let entries = self.fs.tree();
        self.last = Some(walked(entries));
    }

    /// Returns the reply to the last call, if there was one.
    pub fn reply(&self) -> Option<&Reply>
        ensures { option_copied result ≡ self.now.last }
    {
        self.last.as_ref()
    }

    /// Returns the numbers of the reply to the last call. Before the first call it is `DONE`.
    fn last(&self) -> FileReply
        ensures { result ≡ last_reply self.now }
    {
        match &self.last {
            Some(reply) => FileReply::of(reply),
            None => FileReply::stopped(DONE),
        }
    }

    /// Writes bytes through a descriptor, unsynced. Returns `DONE` or a refusal.
    pub fn write(&mut self, descriptor: u64, offset: u64, bytes: &[u8]) -> u32
        ensures writes { Writes self.old descriptor offset bytes.now self.new result }
        ensures power { self.new.power ≡ self.old.power }
    {
        let written = self
            .fs
            .write(Descriptor::numbered(descriptor), offset, bytes);
        self.last = Some(done(written));
        self.last().status
    }

    /// Reads bytes through a descriptor, as many as there are and as `into` takes. Returns in `len` how many.
    pub fn read(&mut self, descriptor: u64, offset: u64, into: &mut [u8]) -> Ran
        ensures reads { Reads self.old descriptor offset (length into.old) self.new result }
        ensures power { self.new.power ≡ self.old.power }
    {
        let read = self.fs.read(Descriptor::numbered(descriptor), offset, into);
        self.last = Some(counted(read));
        let numbers = self.last();
        Ran {
            status: numbers.status,
            len: numbers.size as usize,
        }
    }

    /// Returns in `len` 1 if the log of the syncs follows the unsettled edit with this index, and 0 if not.
    ///
    /// `OTHER_REPLY` if there is no such edit.
    pub fn follows(&self, index: usize) -> Ran
        ensures { TellsFollowed self.now index result }
    {
        match self.fs.unsettled().get(index) {
            None => Ran::stopped(OTHER_REPLY),
            Some(edit) => Ran {
                status: DONE,
                len: edit.is_followed as usize,
            },
        }
    }

    /// Returns how many words of the generator are left, up to the last one that isn't zero. `ENDLESS` if a seed gives the words
    /// after the given ones.
    pub fn words_left(&self) -> Ran
        ensures { TellsFileWords self.now result }
    {
        match self.fs.rng().left() {
            Some(len) => Ran { status: DONE, len },
            None => Ran::stopped(ENDLESS),
        }
    }

    /// Inserts words before those that the generator gives next.
    pub fn push_words(&mut self, words: &[u64]) -> u32
        ensures { TakesWords self.old self.new words.now result }
    {
        let empty = ScriptedRng::new(Vec::new(self.alloc));
        let mut rng = self.fs.replace_rng(empty);
        let pushed = rng.push_words(words);
        self.fs.replace_rng(rng);
        match pushed {
            Ok(()) => DONE,
            Err(_) => NO_MEMORY,
        }
    }
}
