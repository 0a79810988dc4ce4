// The calls before the first draw, which all runs of a script share.
ghost use Rattle.std.specs.Prelude.{◌≡◌, ◌≤◌, ◌++◌, ◌∷◌, ◌-◌, ◌^◌, [], IfOk, OnErr, length, take};
ghost use Rattle.blob_header.specs.Refusals.{IsMemory};
ghost use Rattle.blob_lab_store.specs.LabRuns.{StartsAt};
ghost use Rattle.blob_lab_store.specs.LabStands.{LabStandsFor};
ghost use Rattle.blob_choices.specs.Outcomes.{SetNoPartialResize, acts_of};
ghost use Rattle.blob_explore.specs.Explorations.{Ran};
ghost use Rattle.blob_explore.specs.SharedCalls.{AreShared, IsShared, start_with};

use crate::script::{Script, draws_size};
use blob_base::Error;
use blob_choices::laws::{leaves, outcomes, seeds, taken_words};
use blob_distinct::images::copies;
use blob_distinct::short::is_short;
use blob_faulty::Config;
use blob_lab_model::laws::runs_go_on;
use blob_lab_store::Lab;
use blob_script::{Call, Reply};
use std::alloc::{AllocError, Global};

/// A laboratory in which the calls before the first one that draws were made. Each run starts from a fork of it.
///
/// It can't be dropped: call `end`.
pub struct Shared {
    lab: Lab,
    /// The number of these calls.
    count: usize,
    pub(crate) replies: Vec<Reply>,
}

impl Shared {
    /// Makes the calls before the first draw. The only error is `Memory`, also if a call was refused it.
    pub(crate) fn new(alloc: Global, script: &Script) -> Result<Shared, Error>
        ensures made { IfOk result (IsShared script.now) }
        ensures memory { OnErr result (IsMemory result) }
    {
        let mut lab = begin(alloc, script)?;
        match make_first(&mut lab, script) {
            Ok((count, replies)) => Ok(Shared {
                lab,
                count,
                replies,
            }),
            Err(e) => {
                lab.end();
                Err(e)
            }
        }
    }

    /// Makes the other calls in a fork, over these words and then zeros. Returns their replies and the number of words
    /// left.
    pub(crate) fn run(
        &self,
        script: &Script,
        words: Vec<u64>,
    ) -> Result<(Vec<Reply>, Option<usize>), Error>
        ensures ok { IfOk result (λ ran. IsShared script.now self.now → Ran script.now.images.items
            script.now.calls.items words.items (self.now.replies.items ++ ran.0.items) ran.1) }
        ensures memory { OnErr result (IsMemory result) }
    {
        runs_go_on();
        let mut lab = self.lab.fork()?;
        lab.set_words(words);
        let from = self.count.min(script.calls.len());
        match lab.run(&script.calls[from..]) {
            Ok(replies) => {
                let left = lab.words_left();
                lab.end();
                Ok((replies, left))
            }
            Err(e) => {
                lab.end();
                Err(e)
            }
        }
    }

    /// Drops the laboratory. Allocates nothing.
    pub(crate) fn end(self) {
        let Shared {
            lab,
            count: _,
            replies: _,
        } = self;
        lab.end();
    }
}

/// Returns a laboratory in which no call was made. It has one word, which isn't zero: `words_left` is 1 until a call takes it.
fn begin(alloc: Global, script: &Script) -> Result<Lab, Error>
    ensures stands { StartsAt result (start_with script.now ((2 ^ 64 - 1) ∷ [])) }
    ensures memory { OnErr result (IsMemory result) }
{
    let images = copies(alloc, &script.images)?;
    let words = Vec::from_slice(alloc, &[u64::MAX])?;
    Lab::new(images, words, Config::default())
}

/// Makes the calls before the first one that draws. Returns their number and their replies.
///
/// The only error is `Memory`, also if a call was refused it, now or when draws were looked for.
fn make_first(lab: &mut Lab, script: &Script) -> Result<(usize, Vec<Reply>), Error>
    ensures made { IfOk result (λ made. LabStandsFor lab.old (start_with script.now ((2 ^ 64 - 1) ∷ [])) →
        AreShared script.now lab.new made.0 made.1.items) }
    ensures memory { OnErr result (IsMemory result) }
{
    outcomes();
    taken_words();
    leaves();
    seeds();
    let count = count_undrawn(lab, &script.calls)?;
    let replies = lab.run(&script.calls[..count])?;
    if is_short(&replies) {
        return Err(Error::Memory(AllocError));
    }
    match lab.words_left() {
        Some(1) => Ok((count, replies)),
        _ => Err(Error::Memory(AllocError)),
    }
}

/// Returns how many calls there are before the first one that draws. Makes them in a fork.
fn count_undrawn(lab: &Lab, calls: &[Call]) -> Result<usize, Error>
    ensures within { IfOk result (λ count. count ≤ length calls.now) }
    ensures sizes { IfOk result (λ count. SetNoPartialResize (acts_of (take count calls.now))) }
    ensures memory { OnErr result (IsMemory result) }
{
    let mut fork = lab.fork()?;
    let count = make_undrawn(&mut fork, calls);
    fork.end();
    Ok(count)
}

/// Makes calls up to the first one that draws, and returns its index. No earlier call makes a partial resize possible.
fn make_undrawn(lab: &mut Lab, calls: &[Call]) -> usize
    ensures within { result ≤ length calls.now }
    ensures sizes { SetNoPartialResize (acts_of (take result calls.now)) }
{
    for i in 0..calls.len() {
        if draws_size(&calls[i]) || draws(lab, &calls[i]) {
            return i;
        }
    }
    calls.len()
}

/// Makes the call and returns whether it took the one word that is left.
fn draws(lab: &mut Lab, call: &Call) -> bool {
    let _ = lab.apply(call);
    match lab.words_left() {
        Some(1) => false,
        _ => true,
    }
}
