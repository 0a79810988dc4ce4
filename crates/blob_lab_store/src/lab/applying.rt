// A call as data, and the wrapper for reading.
ghost use Rattle.std.specs.Prelude.{◌≡◌, IfSome, OnErr, OnOk, is_none, is_some};
ghost use Rattle.blob_header.specs.Refusals.{IsMemory};
ghost use Rattle.blob_script.specs.Acts.{Configure, act_of};
ghost use Rattle.blob_lab_store.specs.Generators.{PushesWords, SetsWords, generator_of};
ghost use Rattle.blob_lab_store.specs.LabStands.{Performs, Wraps, wrapper_of};
ghost use Rattle.blob_tree.specs.WordsLeft.{EndsAfter};
ghost use Rattle.blob_lab_model.specs.States.{State};

use crate::ScriptedRng;
use crate::lab::{Lab, Stands, Wrapper};
use blob_base::Error;
use blob_faulty::Config;
use blob_script::script::setting::copy_of;
use blob_script::{Call, Reply};

impl Lab {
    /// Makes one call. If the laboratory represented a state, the reply is one that the call may get in it, and the laboratory then
    /// represents the state after the call.
    ///
    /// `NoHandle` and `EmptyRange` change nothing and draw nothing. `Failed(Memory)` changes nothing except the generator. It isn't
    /// a reply to `Configure`, `Admit`, `Close`, `Size`, `Finish` and `Reopen`.
    pub fn apply(&mut self, call: &Call) -> Reply
        ensures { Performs self.old (act_of call.now) result self.new }
    {
        match call {
            Call::Configure(config) => self.configure(config),
            Call::Open {
                partition,
                name,
                versions,
            } => self.open(partition, name, versions),
            Call::OpenLoose {
                partition,
                name,
                versions,
            } => self.open_loose(partition, name, versions),
            Call::Admit { partition, name } => self.admit(partition, name),
            Call::Close(handle) => self.close(*handle),
            Call::Read {
                handle,
                offset,
                len,
            } => self.read(*handle, *offset, *len),
            Call::Write {
                handle,
                offset,
                bytes,
                sync,
            } => self.write(*handle, *offset, bytes, *sync),
            Call::Resize { handle, len } => self.resize(*handle, *len),
            Call::Size(handle) => self.size(*handle),
            Call::Sync(handle) => self.sync(*handle),
            Call::StartSync(handle) => self.start_sync(*handle),
            Call::Finish(number) => self.finish(*number),
            Call::Remove { partition, name } => self.remove(partition, name.as_deref()),
            Call::Scan { partition } => self.scan(partition),
            Call::Crash => match self.wrapper.crash() {
                Ok(selections) => Reply::Crashed(selections),
                Err(e) => Reply::Failed(e),
            },
            Call::Reopen => self.reopen(),
        }
    }

    /// Returns the wrapper, for reading: its store's durable bytes, and which incarnations are current. It represents the files of
    /// any state that the laboratory represents, with that state's configuration and generator.
    pub fn wrapper(&self) -> &Wrapper
        ensures wrapper { result.now ≡ wrapper_of self.now }
        ensures stands { (v : State) → ⟦<Lab as Stands>⟧.stands_for self.now v → Wraps result.now v }
    {
        &self.wrapper
    }

    /// Returns how many words of the generator are left, up to the last one that isn't zero. `None` if a seed gives the words
    /// after the given ones.
    ///
    /// If the last given word isn't zero and the result isn't 0, then the number of given words less the result is how many were
    /// taken.
    pub fn words_left(&self) -> Option<usize>
        ensures left { IfSome result (λ n. (v : State) → ⟦<Lab as Stands>⟧.stands_for self.now v → EndsAfter v.stream n) }
        ensures none { is_some result ≡ is_none (generator_of self.now).1 }
    {
        self.wrapper.rng().left()
    }

    /// Inserts words before those that the generator gives next.
    ///
    /// The only error is `Memory`, with nothing changed.
    pub fn push_words(&mut self, words: &[u64]) -> Result<(), Error>
        ensures ok { OnOk result (PushesWords self.old words.now self.new) }
        ensures memory { OnErr result (IsMemory result) }
        ensures err { OnErr result (self.new ≡ self.old) }
    {
        let empty = ScriptedRng::new(Vec::new(self.alloc));
        let mut rng = self.wrapper.replace_rng(empty);
        let pushed = rng.push_words(words);
        self.wrapper.set_rng(rng);
        pushed?;
        Ok(())
    }

    /// Replaces the words that the generator gives next by these, followed by zeros. Drops the words and the seed that were
    /// left. Allocates nothing.
    pub fn set_words(&mut self, words: Vec<u64>)
        ensures { SetsWords self.old words.items self.new }
    {
        self.wrapper.set_rng(ScriptedRng::new(words));
    }

    fn configure(&mut self, config: &Config) -> Reply
        ensures { Performs self.old (Configure config.now) result self.new }
    {
        *self.wrapper.config() = copy_of(config);
        Reply::Done
    }
}
