// A laboratory with what else its lines need.
ghost use Rattle.std.specs.Prelude.{◌≡◌, true, Some, None, OnErr};
ghost use Rattle.blob_script.specs.Acts.{Crash, act_of};
ghost use Rattle.blob_lab_store.specs.LabStands.{Performs};
ghost use Rattle.blob_script.specs.Lines.{Blank, line_of};
ghost use Rattle.blob_script.specs.Readers.{IfCall, IfNoCall, SaysCall, config_of, has_begun};

use crate::debts::{DebtCall, DebtReply, Debts};
use crate::effect::Effect;
use crate::effects::effect_of;
use crate::kinds::{
    ADMIT, CLOSE, CRASH, FINISH, OPEN, OPEN_LOOSE, REMOVE_BLOB, REMOVE_PARTITION, REOPEN, RESIZE,
    SCAN, SIZE, START_SYNC, SYNC,
};
use crate::power::Power;
use crate::ran::{
    BAD_CALL, BAD_LINE, DONE, ENDLESS, NO_MEMORY, NO_ROOM, OTHER_REPLY, POWER_LOSS, Ran, UNPRINTED,
};
use crate::refusals::{refused_status, write_status};
use crate::reply_text::{line_len, write_line};
use crate::typed::{TypedCall, TypedReply, versions};
use blob_faulty::Config;
use blob_lab::script::{Reader, RefusedLine, read_line};
use blob_lab::{Call, Lab, Reply};
use std::alloc::Global;

/// A laboratory, the reader of its lines, and the reply to its last call.
pub struct Kept {
    pub(crate) lab: Lab,
    /// It has the settings so far, and counts no lines.
    pub(crate) reader: Reader,
    pub(crate) last: Option<Reply>,
    /// A registry that no call of the laboratory changes.
    pub(crate) debts: Debts,
    pub(crate) power: Power,
    ghost begun: { has_begun reader ≡ true },
}

/// Makes a crash. It isn't inlined, since a function clears its locals each time, and a call is large.
#[inline(never)]
fn crash(lab: &mut Lab) -> Reply
    ensures { Performs lab.old Crash result lab.new }
{
    lab.apply(&Call::Crash)
}

impl Drop for Kept {
    fn drop(self) {
        let Kept {
            lab,
            reader: _,
            last: _,
            debts,
            power: _,
        } = self;
        debts.end();
        lab.end();
    }
}

impl Kept {
    ghost use Rattle.blob_sessions.specs.Applying.{Applies, HasSize};
    ghost use Rattle.blob_sessions.specs.Debts.{IsNew, MakesDebtCall};
    ghost use Rattle.blob_sessions.specs.Sessions.{RunsCall, RunsLine, AnswersRead, AnswersWrite, IsNoCall, Makes, TellsAgain};
    ghost use Rattle.blob_sessions.specs.Typed.{IsNamed, IsOpen, last_reply};
    ghost use Rattle.blob_sessions.specs.Supplies.{after_last};
    ghost use Rattle.blob_sessions.specs.Words.{TakesWords, TellsWordsLeft};
    ghost use Rattle.blob_statuses.specs.Powers.{always_on};

    pub fn new(alloc: Global, lab: Lab, config: Config) -> Kept
        ensures lab { result.lab ≡ lab }
        ensures config { config_of result.reader ≡ config }
        ensures last { result.last ≡ None }
        ensures debts { IsNew result.debts }
        ensures power { result.power ≡ always_on }
    {
        Kept {
            lab,
            reader: Reader::begun(alloc, config),
            last: None,
            debts: Debts::new(alloc),
            power: Power::on(),
        }
    }

    /// Makes a call of the registry of durability debt and returns what the registry returned. The laboratory doesn't
    /// change. The errors are those of `Debts::apply`.
    pub fn owe(
        &mut self,
        alloc: Global,
        asked: &DebtCall,
        partition: &[u8],
        name: &[u8],
    ) -> DebtReply
        ensures call { MakesDebtCall self.old.debts self.new.debts asked.now partition.now name.now result }
        ensures kept { self.new ≡ record self.old { debts = self.new.debts } }
    {
        self.debts.apply(alloc, asked, partition, name)
    }

    /// Makes the call of a line, and prints its reply. For an empty line or a comment it makes no call and prints
    /// nothing.
    ///
    /// `POWER_LOSS` if the power is off: no call was made.
    pub fn call(&mut self, alloc: Global, line: &[u8], reply: &mut [u8]) -> Ran
        ensures { RunsLine self.old self.new line.now result reply.old reply.new }
    {
        match self.read_call(alloc, line) {
            Ok(Some(call)) => self.run(&call, reply),
            Ok(None) => Ran::stopped(DONE),
            Err(RefusedLine::BadCall) => Ran::stopped(BAD_LINE),
            Err(RefusedLine::NoMemory) => Ran::stopped(NO_MEMORY),
        }
    }

    /// Makes a call and prints its reply, if the power permits it.
    fn run(&mut self, call: &Call, reply: &mut [u8]) -> Ran
        ensures { RunsCall self.old (act_of call.now) self.new result reply.old reply.new }
    {
        let effect = effect_of(call);
        if !self.power.permits(effect) {
            return Ran::stopped(POWER_LOSS);
        }
        self.make(call);
        self.follow(effect);
        self.tell(reply)
    }

    /// Prints the reply to the last call, or nothing if there was none. Allocates nothing.
    pub fn tell(&mut self, reply: &mut [u8]) -> Ran
        ensures { TellsAgain self.old self.new result reply.old reply.new }
    {
        let Some(made) = &self.last else {
            return Ran::stopped(DONE);
        };
        let Some(len) = line_len(made) else {
            return Ran::stopped(UNPRINTED);
        };
        if len > reply.len() {
            return Ran {
                status: NO_ROOM,
                len,
            };
        }
        write_line(made, reply);
        Ran { status: DONE, len }
    }

    /// Makes a typed call, and returns the numbers of its reply.
    ///
    /// `BAD_CALL` changes nothing: no call was made.
    pub fn apply(&mut self, asked: &TypedCall, partition: &[u8], name: &[u8]) -> TypedReply
        ensures applies { Applies self.old self.new asked.now partition.now name.now result }
        ensures power { self.new.power ≡ self.old.power }
    {
        if let OPEN | OPEN_LOOSE | ADMIT | REMOVE_BLOB | REMOVE_PARTITION | SCAN = asked.kind {
            return self.apply_named(asked, partition, name);
        }
        let reply = match asked.kind {
            CLOSE => self.lab.close(asked.number),
            RESIZE => self.lab.resize(asked.number, asked.first),
            SIZE => self.lab.size(asked.number),
            SYNC => self.lab.sync(asked.number),
            START_SYNC => self.lab.start_sync(asked.number),
            FINISH => self.lab.finish(asked.number),
            CRASH => crash(&mut self.lab),
            REOPEN => self.lab.reopen(),
            _ => return TypedReply::stopped(BAD_CALL),
        };
        self.last = Some(reply);
        self.last()
    }

    /// Makes a typed call by partition and name. It isn't inlined, since a function clears its locals each time.
    #[inline(never)]
    fn apply_named(&mut self, asked: &TypedCall, partition: &[u8], name: &[u8]) -> TypedReply
        requires { IsNamed asked.now.kind }
        ensures applies { Applies self.old self.new asked.now partition.now name.now result }
        ensures power { self.new.power ≡ self.old.power }
    {
        let Ok(partition) = std::str::from_utf8(partition) else {
            return TypedReply::stopped(BAD_CALL);
        };
        if let OPEN | OPEN_LOOSE = asked.kind {
            return self.apply_open(asked, partition, name);
        }
        let reply = match asked.kind {
            ADMIT => self.lab.admit(partition, name),
            REMOVE_BLOB => self.lab.remove(partition, Some(name)),
            REMOVE_PARTITION => self.lab.remove(partition, None),
            _ => self.lab.scan(partition),
        };
        self.last = Some(reply);
        self.last()
    }

    /// Makes a typed open, exclusive or not.
    fn apply_open(&mut self, asked: &TypedCall, partition: &str, name: &[u8]) -> TypedReply
        requires { IsOpen asked.now.kind }
        ensures applies { Applies self.old self.new asked.now partition.now name.now result }
        ensures power { self.new.power ≡ self.old.power }
    {
        let Some(versions) = versions(asked) else {
            return TypedReply::stopped(BAD_CALL);
        };
        let reply = if asked.kind == OPEN {
            self.lab.open(partition, name, &versions)
        } else {
            self.lab.open_loose(partition, name, &versions)
        };
        self.last = Some(reply);
        self.last()
    }

    /// Returns the numbers of the reply to the last call. Before the first call it is `DONE`.
    pub fn last(&self) -> TypedReply
        ensures { result ≡ last_reply self.now.last }
    {
        match &self.last {
            Some(reply) => TypedReply::of(reply),
            None => TypedReply::stopped(DONE),
        }
    }

    /// Returns the size that a handle tracks, as the call `size` does. The reply to the last call stays the last one.
    pub fn tracked_size(&self, handle: usize) -> TypedReply
        ensures { HasSize self.now handle result }
    {
        TypedReply::of(&self.lab.size(handle))
    }

    /// Writes bytes through a handle.
    pub fn write(&mut self, handle: usize, offset: u64, bytes: &[u8], sync: bool) -> u32
        ensures writes { AnswersWrite self.old self.new handle offset bytes.now sync result }
        ensures power { self.new.power ≡ self.old.power }
    {
        match self.lab.write(handle, offset, bytes, sync) {
            Reply::Done => {
                self.last = Some(Reply::Done);
                DONE
            }
            refused => {
                let status = write_status(&refused);
                self.last = Some(refused);
                status
            }
        }
    }

    /// Reads as many bytes through a handle as `into` has.
    pub fn read(&mut self, handle: usize, offset: u64, into: &mut [u8]) -> u32
        ensures reads { AnswersRead self.old self.new handle offset result into.old into.new }
        ensures power { self.new.power ≡ self.old.power }
    {
        match self.lab.read(handle, offset, into.len()) {
            Reply::Bytes(bytes) => {
                let is_whole = bytes.len() == into.len();
                if is_whole {
                    into.copy_from_slice(&bytes);
                }
                self.last = Some(Reply::Bytes(bytes));
                if is_whole { DONE } else { OTHER_REPLY }
            }
            refused => {
                let status = refused_status(&refused);
                self.last = Some(refused);
                status
            }
        }
    }

    /// Returns how many words of the generator are left, up to the last one that isn't zero. `ENDLESS` if a seed gives the words
    /// after the given ones.
    pub fn words_left(&self) -> Ran
        ensures { TellsWordsLeft self.now result }
    {
        match self.lab.words_left() {
            Some(len) => Ran { status: DONE, len },
            None => Ran::stopped(ENDLESS),
        }
    }

    /// Inserts words before those that the generator gives next.
    pub fn push_words(&mut self, words: &[u64]) -> u32
        ensures { TakesWords self.old self.new words.now result }
    {
        match self.lab.push_words(words) {
            Ok(()) => DONE,
            Err(_) => NO_MEMORY,
        }
    }

    /// Reads the call of a line. Returns `None` if the line is empty or a comment.
    fn read_call(&mut self, alloc: Global, line: &[u8]) -> Result<Option<Call>, RefusedLine>
        ensures call { IfCall result (λ call.
            SaysCall (config_of self.old.reader) (line_of line.now) (act_of call) (config_of self.new.reader)) }
        ensures blank { IfNoCall result (line_of line.now ≡ Some Blank) }
        ensures bad { result ≡ Err RefusedLine.BadCall → IsNoCall line.now }
        ensures nothing { IfNoCall result (self.new ≡ self.old) }
        ensures err { OnErr result (self.new ≡ self.old) }
        ensures kept { self.new ≡ record self.old { reader = self.new.reader; begun = self.new.begun } }
    {
        let line = read_line(alloc, line)?;
        self.reader.take(line)
    }

    /// Makes a call, and keeps its reply.
    fn make(&mut self, call: &Call)
        ensures made { (reply : Reply) × Makes self.old (act_of call.now) reply self.new }
        ensures reader { self.new.reader ≡ self.old.reader }
        ensures power { self.new.power ≡ self.old.power }
    {
        let reply = self.lab.apply(call);
        self.last = Some(reply);
    }

    /// Lets the power follow the last call, which had this effect.
    fn follow(&mut self, effect: Effect)
        ensures { self.new ≡ record self.old { power = after_last self.old effect } }
    {
        let is_done = self.last().status == DONE;
        self.power.follow(effect, is_done);
    }
}
