// The registry of durability debt that a session has as well as its laboratory, with its opens and its tokens by number.
ghost use Rattle.std.specs.Prelude.{◌≡◌, option_copied, option_map, OnErr};
ghost use Rattle.blob_debt.specs.Debts.{IsUnchanged};
ghost use Rattle.blob_debt.specs.History.{Clear, Fail};
ghost use Rattle.blob_header.specs.Refusals.{refusal_of, error_of};
ghost use Rattle.blob_sessions.specs.Debts.{AdmitsName, ChangesOpen, ClosesOpen, Forgets, IsNew, MakesCall};
ghost use Rattle.blob_sessions.specs.Debts.{MakesDebtCall, Performs, Release, ReturnsDebtAt, ReturnsIsSettled};
ghost use Rattle.blob_sessions.specs.Debts.{flag_reply, found_reply, kept_at, no_debt, plain_refusal};
ghost use Rattle.blob_sessions.specs.Debts.{reply_of, settle_act};

use crate::ran::{BAD_CALL, DONE};
use crate::refusals::{
    BLOB_CLOSED, BLOB_INSUFFICIENT_LENGTH, GENERATIONS_EXHAUSTED, INJECTED, MEMORY, NO_HANDLE,
    OFFSET_OVERFLOW, READ_FAILED, WRITE_FAILED, status_of,
};
use blob_base::Error;
use blob_lab::{Generation, Pending, Receiver, Sender};
use std::alloc::{AllocError, Global};

/// Admits an open: partition, name, and in `flag` whether the blob existed.
pub const ADMIT: u32 = 0;
/// Releases the name of the open `number` for its next open.
pub const RELEASE: u32 = 1;
/// Settles the token `number` of an open of this partition and name: in `flag` whether debt is left, and a failure.
pub const SETTLE: u32 = 2;
/// Returns whether the open `number` owes.
pub const DEBT: u32 = 3;
/// Records the outcome of establishing the debt of the open `number`: `DONE` or a failure.
pub const CLEAR: u32 = 4;
/// Keeps a failure of the open `number`.
pub const FAIL: u32 = 5;
/// Closes the open `number`.
pub const CLOSE_OPEN: u32 = 6;
/// Forgets a name: partition and name.
pub const FORGET: u32 = 7;
/// Forgets all names of a partition.
pub const FORGET_PARTITION: u32 = 8;
/// Returns whether the predecessor `number` has settled.
pub const IS_SETTLED: u32 = 9;
/// Returns whether anything is kept of a name: partition and name.
pub const KEEPS: u32 = 10;

/// A call of the registry: its kind and numbers. A kind ignores those that it doesn't name.
#[repr(C)]
#[derive(Clone, Copy)]
pub struct DebtCall {
    /// One of the kinds above.
    pub kind: u32,
    /// `DONE`, or the status of a failure without texts.
    pub failure: u32,
    /// An open, a token or a predecessor.
    pub number: usize,
    pub flag: bool,
}

/// What the registry returns. The numbers that a call doesn't return are 0.
#[repr(C)]
#[derive(Clone, Copy)]
pub struct DebtReply {
    /// `DONE`, one of `refusals`, or one of `ran` if no call was made.
    pub status: u32,
    /// Whether a name owes, a release gave a token, a predecessor has settled or anything is kept.
    pub flag: bool,
    /// Whether an open has a predecessor that hasn't settled.
    pub has_predecessor: bool,
    /// The number of an admitted open, or of the token of a release.
    pub number: usize,
    /// The number of the predecessor.
    pub predecessor: usize,
}

impl DebtReply {
    /// Without an answer.
    pub fn stopped(status: u32) -> DebtReply
        ensures { result ≡ no_debt status }
    {
        DebtReply {
            status,
            flag: false,
            has_predecessor: false,
            number: 0,
            predecessor: 0,
        }
    }

    fn told(flag: bool) -> DebtReply
        ensures { result ≡ flag_reply flag }
    {
        let mut reply = DebtReply::stopped(DONE);
        reply.flag = flag;
        reply
    }
}

/// The registry, the opens that aren't closed, the tokens that aren't settled and the predecessors of opens.
pub struct Debts {
    pub(crate) pending: Pending,
    pub(crate) opens: Vec<Option<Generation>>,
    tokens: Vec<Option<Sender>>,
    predecessors: Vec<Receiver>,
}

impl Debts {
    /// A registry in which nothing happened. Doesn't allocate.
    pub fn new(alloc: Global) -> Debts
        ensures { IsNew result }
    {
        Debts {
            pending: Pending::new(alloc),
            opens: Vec::new(alloc),
            tokens: Vec::new(alloc),
            predecessors: Vec::new(alloc),
        }
    }

    /// Closes every open and settles every token. Doesn't allocate.
    pub fn end(self) {
        let Debts {
            mut pending,
            opens,
            tokens,
            predecessors: _,
        } = self;
        close_all(opens, &mut pending);
        settle_all(tokens, &mut pending);
    }

    /// Makes a call of the registry and returns what the registry returned.
    ///
    /// Errors, with nothing changed:
    /// - `BAD_CALL` if the kind or the failure is unknown, `FAIL` has no failure, or the partition isn't UTF-8.
    /// - `NO_HANDLE` if no open, token or predecessor is kept under the number.
    /// - `MEMORY`, or the status of the registry's error.
    pub fn apply(
        &mut self,
        alloc: Global,
        asked: &DebtCall,
        partition: &[u8],
        name: &[u8],
    ) -> DebtReply
        ensures { MakesDebtCall self.old self.new asked.now partition.now name.now result }
    {
        let Ok(partition) = std::str::from_utf8(partition) else {
            return DebtReply::stopped(BAD_CALL);
        };
        let Some(outcome) = outcome_of(asked.failure) else {
            return DebtReply::stopped(BAD_CALL);
        };
        match self.made(alloc, asked, outcome, partition, name) {
            Ok(reply) => reply,
            Err(error) => DebtReply::stopped(status_of(&error)),
        }
    }

    fn made(
        &mut self,
        alloc: Global,
        asked: &DebtCall,
        outcome: Result<(), Error>,
        partition: &str,
        name: &[u8],
    ) -> Result<DebtReply, Error>
        ensures { MakesCall self.old self.new asked.now (error_of outcome) partition.now name.now (reply_of result) }
    {
        match asked.kind {
            ADMIT => self.admit(partition, name, asked.flag),
            RELEASE => self.release(asked.number),
            SETTLE => self.settle(
                alloc,
                partition,
                name,
                asked.number,
                asked.flag,
                outcome.err(),
            ),
            DEBT => self.debt(asked.number),
            CLEAR => Ok(found(self.clear(asked.number, outcome))),
            FAIL => match outcome {
                Ok(()) => Ok(DebtReply::stopped(BAD_CALL)),
                Err(error) => Ok(found(self.fail(asked.number, error))),
            },
            CLOSE_OPEN => Ok(found(self.close(asked.number))),
            FORGET => Ok(self.forget(partition, Some(name))),
            FORGET_PARTITION => Ok(self.forget(partition, None)),
            IS_SETTLED => Ok(self.is_settled(asked.number)),
            KEEPS => Ok(DebtReply::told(self.pending.keeps(partition, name))),
            _ => Ok(DebtReply::stopped(BAD_CALL)),
        }
    }

    fn admit(&mut self, partition: &str, name: &[u8], existing: bool) -> Result<DebtReply, Error>
        ensures call { AdmitsName self.old self.new partition.now name.now existing (reply_of result) }
        ensures refused { OnErr result (IsUnchanged self.old.pending self.new.pending) }
    {
        self.opens.reserve(1)?;
        self.predecessors.reserve(1)?;
        let (generation, receiver, owes) = self.pending.admit(partition, name, existing)?;
        let number = self.opens.len();
        self.opens.push(Some(generation)).unwrap();
        let mut reply = DebtReply::told(owes);
        reply.number = number;
        if let Some(receiver) = receiver {
            reply.has_predecessor = true;
            reply.predecessor = self.predecessors.len();
            self.predecessors.push(receiver).unwrap();
        }
        Ok(reply)
    }

    fn release(&mut self, number: usize) -> Result<DebtReply, Error>
        ensures call { Performs self.old self.new (Release number) (reply_of result) }
        ensures refused { OnErr result (IsUnchanged self.old.pending self.new.pending) }
    {
        self.tokens.reserve(1)?;
        let Some(generation) = open_at(&self.opens, number) else {
            return Ok(DebtReply::stopped(NO_HANDLE));
        };
        let Some(sender) = self.pending.release(generation)? else {
            return Ok(DebtReply::told(false));
        };
        let token = self.tokens.len();
        self.tokens.push(Some(sender)).unwrap();
        let mut reply = DebtReply::told(true);
        reply.number = token;
        Ok(reply)
    }

    fn settle(
        &mut self,
        alloc: Global,
        partition: &str,
        name: &[u8],
        number: usize,
        dirty: bool,
        failure: Option<Error>,
    ) -> Result<DebtReply, Error>
        ensures call { Performs self.old self.new
            (settle_act partition.now name.now number dirty failure) (reply_of result) }
        ensures refused { OnErr result (IsUnchanged self.old.pending self.new.pending) }
    {
        let key = (
            String::from_str(alloc, partition)?,
            Vec::from_slice(alloc, name)?,
        );
        if number >= self.tokens.len() {
            return Ok(DebtReply::stopped(NO_HANDLE));
        }
        let Some(sender) = self.tokens[number].take() else {
            return Ok(DebtReply::stopped(NO_HANDLE));
        };
        self.pending.settle(&key, sender, dirty, failure);
        Ok(DebtReply::stopped(DONE))
    }

    fn debt(&self, number: usize) -> Result<DebtReply, Error>
        ensures { ReturnsDebtAt self.now number (reply_of result) }
    {
        let Some(generation) = open_at(&self.opens, number) else {
            return Ok(DebtReply::stopped(NO_HANDLE));
        };
        let owes = self.pending.debt(generation.key(), generation.id())?;
        Ok(DebtReply::told(owes))
    }

    /// Records an outcome. Returns whether there is such an open.
    fn clear(&mut self, number: usize, outcome: Result<(), Error>) -> bool
        ensures { ChangesOpen self.old self.new number (λ g. Clear g (error_of outcome)) (found_reply result) }
    {
        let Some(generation) = open_at(&self.opens, number) else {
            return false;
        };
        self.pending
            .clear(generation.key(), generation.id(), outcome);
        true
    }

    /// Keeps a failure. Returns whether there is such an open.
    fn fail(&mut self, number: usize, error: Error) -> bool
        ensures { ChangesOpen self.old self.new number (λ g. Fail g (refusal_of error)) (found_reply result) }
    {
        let Some(generation) = open_at(&self.opens, number) else {
            return false;
        };
        self.pending.fail(generation, error);
        true
    }

    /// Closes an open. Returns whether there is such an open.
    fn close(&mut self, number: usize) -> bool
        ensures { ClosesOpen self.old self.new number (found_reply result) }
    {
        if number >= self.opens.len() {
            return false;
        }
        let Some(generation) = self.opens[number].take() else {
            return false;
        };
        self.pending.close(generation);
        true
    }

    fn forget(&mut self, partition: &str, name: Option<&[u8]>) -> DebtReply
        ensures { Forgets self.old self.new partition.now (option_copied name.entry) result }
    {
        self.pending.forget(partition, name);
        DebtReply::stopped(DONE)
    }

    fn is_settled(&self, number: usize) -> DebtReply
        ensures { ReturnsIsSettled self.now number result }
    {
        match self.predecessors.get(number) {
            Some(receiver) => DebtReply::told(self.pending.is_settled(receiver)),
            None => DebtReply::stopped(NO_HANDLE),
        }
    }
}

fn found(is_there: bool) -> DebtReply
    ensures { result ≡ found_reply is_there }
{
    DebtReply::stopped(if is_there { DONE } else { NO_HANDLE })
}

fn open_at(opens: &[Option<Generation>], number: usize) -> Option<&Generation>
    ensures { option_copied result ≡ kept_at opens.now number }
{
    match opens.get(number) {
        Some(slot) => slot.as_ref(),
        None => None,
    }
}

/// Returns the outcome with this status. `None` if it is neither `DONE` nor that of a failure without texts.
fn outcome_of(status: u32) -> Option<Result<(), Error>>
    ensures { option_map error_of result ≡ plain_refusal status }
{
    match status {
        DONE => Some(Ok(())),
        OFFSET_OVERFLOW => Some(Err(Error::OffsetOverflow)),
        BLOB_INSUFFICIENT_LENGTH => Some(Err(Error::BlobInsufficientLength)),
        BLOB_CLOSED => Some(Err(Error::Closed)),
        READ_FAILED => Some(Err(Error::ReadFailed)),
        WRITE_FAILED => Some(Err(Error::WriteFailed)),
        INJECTED => Some(Err(Error::Injected)),
        MEMORY => Some(Err(Error::Memory(AllocError))),
        GENERATIONS_EXHAUSTED => Some(Err(Error::GenerationsExhausted)),
        _ => None,
    }
}

fn close_all(mut opens: Vec<Option<Generation>>, pending: &mut Pending) {
    while let Some(slot) = opens.pop() {
        if let Some(generation) = slot {
            pending.close(generation);
        }
    }
    opens.destroy_empty();
}

fn settle_all(mut tokens: Vec<Option<Sender>>, pending: &mut Pending) {
    let alloc = *tokens.allocator();
    let key = (String::new(alloc), Vec::new(alloc));
    while let Some(slot) = tokens.pop() {
        if let Some(sender) = slot {
            pending.settle(&key, sender, false, None);
        }
    }
    tokens.destroy_empty();
}
