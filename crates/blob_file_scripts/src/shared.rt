// The lines before the first draw, which all runs of a script share.
ghost use Rattle.std.specs.Prelude.{◌≡◌, IfOk, None, string_bytes};
ghost use Rattle.std.specs.Bool.{OnFalse};
ghost use Rattle.blob_directory.specs.Names.{Same};
ghost use Rattle.blob_fs.specs.Files.{names_of};
ghost use Rattle.blob_file_sessions.specs.Held.{fs_of};
ghost use Rattle.blob_file_scripts.specs.Explorations.{HasOneWord, IsForkWith};
ghost use Rattle.blob_file_scripts.specs.SharedLines.{IsShared, Ran, text_before};

use crate::explored::RefusedFiles;
use crate::taking::take_first;
use blob_file_sessions::{FileReader, KeptFiles};
use blob_lab::{ScriptedRng, first_line};
use blob_sessions::ran::DONE;
use std::alloc::{AllocError, Global};

/// Files by which the lines before the first draw were taken. Each run starts from a fork of them.
#[derive(Drop)]
pub(crate) struct Shared<'a> {
    files: KeptFiles,
    /// The number of these lines.
    count: u64,
    /// The replies to them, or the last one if only that is printed.
    pub(crate) text: String,
    /// The lines after them.
    rest: &'a [u8],
}

impl<'a> Shared<'a> {
    /// Takes the lines before the first draw. The errors are those of the script's first line that isn't allowed, and `NoMemory`.
    pub(crate) fn new(
        alloc: Global,
        script: &'a [u8],
        last: bool,
    ) -> Result<Shared<'a>, RefusedFiles>
        ensures { IfOk result (IsShared script.now last) }
    {
        let count = count_undrawn(alloc, script)?;
        let mut files = begin(alloc)?;
        let mut text = String::new(alloc);
        let rest = take_first(alloc, &mut files, script, 0, count, last, &mut text)?;
        if has_drawn(&files) {
            return Err(RefusedFiles::NoMemory);
        }
        Ok(Shared {
            files,
            count,
            text,
            rest,
        })
    }

    /// Takes the other lines in a fork, over these words and then zeros. Returns the text of its replies, and the number of words left.
    /// With `last` it is the last reply of the run.
    pub(crate) fn run(
        &self,
        alloc: Global,
        words: Vec<u64>,
        last: bool,
    ) -> Result<(String, usize), RefusedFiles>
        ensures { IfOk result (λ ran. Ran self.now last words.items (string_bytes ran.0) ran.1) }
    {
        let mut files = self.fork(alloc, words)?;
        let mut text = self.print_before(alloc, last)?;
        let rest = take_first(
            alloc,
            &mut files,
            self.rest,
            self.count,
            u64::MAX,
            last,
            &mut text,
        )?;
        if !rest.is_empty() {
            return Err(RefusedFiles::NoMemory);
        }
        let left = files.words_left();
        if left.status != DONE {
            return Err(RefusedFiles::NoMemory);
        }
        Ok((text, left.len))
    }

    /// Returns the text before that of a run's own lines: the last reply, if only the last one is printed.
    fn print_before(&self, alloc: Global, last: bool) -> Result<String, AllocError>
        ensures { IfOk result (λ text. string_bytes text ≡ text_before self.now last) }
    {
        if last {
            self.text.clone()
        } else {
            Ok(String::new(alloc))
        }
    }

    /// Returns a fork of the files whose generator gives these words and then zeros.
    fn fork(&self, alloc: Global, words: Vec<u64>) -> Result<KeptFiles, RefusedFiles>
        ensures { IfOk result (IsForkWith words.items self.now.files) }
    {
        let rng = ScriptedRng::new(words);
        match self.files.fs().fork(rng) {
            Ok(fs) => Ok(KeptFiles::new(alloc, fs)),
            Err(_) => Err(RefusedFiles::NoMemory),
        }
    }
}

/// Returns empty files. They have one word, which isn't zero: `words_left` is 1 until a call takes it.
fn begin(alloc: Global) -> Result<KeptFiles, RefusedFiles>
    ensures names { IfOk result (λ files. Same (names_of (fs_of files)) (λ _. None)) }
    ensures word { IfOk result HasOneWord }
{
    let mut files = FileReader::new(alloc).begin(alloc)?;
    if files.push_words(&[u64::MAX]) != DONE || has_drawn(&files) {
        return Err(RefusedFiles::NoMemory);
    }
    Ok(files)
}

/// Returns how many lines there are before the first one that draws.
fn count_undrawn(alloc: Global, script: &[u8]) -> Result<u64, RefusedFiles> {
    let mut files = begin(alloc)?;
    let mut text = String::new(alloc);
    let mut rest = script;
    for count in 0..u64::MAX {
        if first_line(rest).is_none() {
            return Ok(count);
        }
        rest = take_first(alloc, &mut files, rest, count, 1, true, &mut text)?;
        if has_drawn(&files) {
            return Ok(count);
        }
    }
    Err(RefusedFiles::NoMemory)
}

/// Whether the one word was taken.
fn has_drawn(files: &KeptFiles) -> bool
    ensures { OnFalse result (HasOneWord files.now) }
{
    files.words_left().len != 1
}
