//! Reading the lines of a script in order.
ghost use Rattle.std.specs.Prelude.{◌≡◌, ◌+◌, true, false, OnErr};
ghost use Rattle.std.specs.Io.Iter.{u64_saturate};
ghost use Rattle.blob_script.specs.Acts.{act_of};
ghost use Rattle.blob_script.specs.Lines.{line_of, said_by};
ghost use Rattle.blob_script.specs.Readers.{MakesCall, MakesNoCall, HasRead, IfCall, IfNoCall, IsSame, Refuses, SaysCall};
ghost use Rattle.blob_script.specs.Readers.{config_of, has_begun, lines_read, preamble_of};
ghost use Rattle.blob_script.specs.Scripts.{no_script};
ghost use Rattle.blob_script.specs.Settings.{with_setting};

use crate::Call;
use crate::script::setting::copy_of;
use crate::script::{Line, Preamble, RefusedLine, Setting, read_line};
use blob_draws::Config;
use std::alloc::Global;
use std::mem;

/// Reads the lines of a script. It keeps what they have given before the calls, the configuration so far and the number
/// of lines, and turns each line into a call, if it makes one.
///
/// Images, words and one seed come before the calls. A setting is a call with the whole configuration so far.
#[derive(Drop)]
pub struct Reader {
    preamble: Preamble,
    config: Config,
    number: u64,
    has_begun: bool,
}

impl Reader {
    /// Returns a reader that has read nothing.
    pub fn new(alloc: Global) -> Reader
        ensures script { HasRead result no_script }
        ensures number { lines_read result ≡ 0 }
        ensures begun { has_begun result ≡ false }
    {
        Reader {
            preamble: Preamble::new(alloc),
            config: Config::default(),
            number: 0,
            has_begun: false,
        }
    }

    /// Returns a reader of the lines after a preamble, with these settings so far. It rejects the lines of a preamble.
    pub fn begun(alloc: Global, config: Config) -> Reader
        ensures begun { has_begun result ≡ true }
        ensures config { config_of result ≡ config }
        ensures number { lines_read result ≡ 0 }
    {
        Reader {
            preamble: Preamble::new(alloc),
            config,
            number: 0,
            has_begun: true,
        }
    }

    /// Reads the next line, without its line feed. Returns its call, or `None` if it makes no call. The line counts also
    /// if it is rejected.
    ///
    /// # Errors
    ///
    /// - `BadCall` if it isn't a line of a script, or can't follow the lines before it.
    /// - `NoMemory` if what it gives can't be allocated.
    ///
    /// Only the number of lines changes then.
    pub fn read(&mut self, line: &[u8]) -> Result<Option<Call>, RefusedLine>
        ensures call { IfCall result (λ call. MakesCall self.old (line_of line.now) (act_of call) self.new) }
        ensures none { IfNoCall result (MakesNoCall self.old (line_of line.now) self.new) }
        ensures bad { result ≡ Err RefusedLine.BadCall → Refuses self.old (line_of line.now) }
        ensures err { OnErr result (IsSame self.old self.new) }
        ensures number { lines_read self.new ≡ u64_saturate (lines_read self.old + 1) }
    {
        self.number = self.number.saturating_add(1);
        let alloc = *self.preamble.words.allocator();
        let line = read_line(alloc, line)?;
        self.take(line)
    }

    /// Adds a line that was parsed. Returns its call, or `None` if it makes no call. Doesn't count the line.
    ///
    /// # Errors
    ///
    /// - `BadCall` if it can't follow the lines before it: a line of the preamble after a call, or a second seed.
    /// - `NoMemory` if what it gives can't be allocated.
    ///
    /// Nothing changes then. After the preamble only a call changes the reader, and only its settings.
    pub fn take(&mut self, line: Line) -> Result<Option<Call>, RefusedLine>
        ensures call { IfCall result (λ call. MakesCall self.old (Some (said_by line)) (act_of call) self.new) }
        ensures none { IfNoCall result (MakesNoCall self.old (Some (said_by line)) self.new) }
        ensures bad { result ≡ Err RefusedLine.BadCall → Refuses self.old (Some (said_by line)) }
        ensures err { OnErr result (IsSame self.old self.new) }
        ensures says { IfCall result (λ call. SaysCall self.old.config (Some (said_by line)) (act_of call) self.new.config) }
        ensures after_call { IfCall result (λ _. self.new ≡ record self.old { config = self.new.config; has_begun = true }) }
        ensures after_none { has_begun self.old ≡ true → IfNoCall result (self.new ≡ self.old) }
        ensures after_err { has_begun self.old ≡ true → OnErr result (self.new ≡ self.old) }
        ensures number { lines_read self.new ≡ lines_read self.old }
    {
        match line {
            Line::Blank => return Ok(None),
            Line::Configure(setting) => return Ok(Some(self.configure(setting))),
            Line::Call(call) => {
                self.has_begun = true;
                return Ok(Some(call));
            }
            _ if self.has_begun => return Err(RefusedLine::BadCall),
            Line::Image {
                partition,
                name,
                bytes,
            } => self.preamble.images.push((partition, name, bytes))?,
            Line::Words(words) => self.preamble.words.extend_from_slice(&words)?,
            Line::Seed(_) if self.preamble.seed.is_some() => return Err(RefusedLine::BadCall),
            Line::Seed(seed) => self.preamble.seed = Some(seed),
        }
        Ok(None)
    }

    fn configure(&mut self, setting: Setting) -> Call
        ensures whole { result ≡ Call.Configure (with_setting self.old.config setting) }
        ensures kept { self.new ≡ record self.old { config = with_setting self.old.config setting; has_begun = true } }
    {
        self.has_begun = true;
        self.config = setting.apply(copy_of(&self.config));
        Call::Configure(copy_of(&self.config))
    }

    /// Ends the preamble: its lines are rejected from then on.
    pub fn end_preamble(&mut self)
        ensures { self.new ≡ record self.old { has_begun = true } }
    {
        self.has_begun = true;
    }

    /// Takes the preamble, and ends it: its lines are rejected from then on.
    pub fn begin(&mut self) -> Preamble
        ensures preamble { result ≡ preamble_of self.old }
        ensures begun { has_begun self.new ≡ true }
        ensures config { config_of self.new ≡ config_of self.old }
        ensures number { lines_read self.new ≡ lines_read self.old }
    {
        self.end_preamble();
        let alloc = *self.preamble.words.allocator();
        mem::replace(&mut self.preamble, Preamble::new(alloc))
    }

    /// Returns the number of lines that were read: the number of the last one, counted from 1.
    pub fn number(&self) -> u64
        ensures { result ≡ lines_read self.now }
    {
        self.number
    }

    /// Returns the images, the words and the seed so far. After `begin` there are none.
    pub fn preamble(&self) -> &Preamble
        ensures { result.now ≡ preamble_of self.now }
    {
        &self.preamble
    }

    /// Returns the settings so far, applied to no rates.
    pub fn config(&self) -> &Config
        ensures { result.now ≡ config_of self.now }
    {
        &self.config
    }
}
