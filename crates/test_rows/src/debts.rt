//! The registry of durability debt, with its opens and tokens.

use crate::slots::Slots;
use blob_base::Error;
use blob_lab::{Generation, GenerationId, Pending, Receiver, Sender};
use std::alloc::Global;
use std::mem;
use test_player::args::Args;
use test_player::calls::Debt;
use test_player::found::{Found, done};

type Key = (String, Vec<u8>);

/// A registry, its opens and its tokens. The number and the token of a closed open stay until another open takes its
/// slot.
pub struct Debts {
    alloc: Global,
    pending: Pending,
    opens: Slots<Generation>,
    ids: [Option<GenerationId>; 4],
    receivers: [Option<Receiver>; 4],
    senders: Slots<Sender>,
}

fn close(pending: &mut Pending, open: Option<Generation>) {
    if let Some(generation) = open {
        pending.close(generation);
    }
}

// Settles a token, without an outcome to record.
fn settle(pending: &mut Pending, key: &Key, token: Option<Sender>) {
    if let Some(sender) = token {
        pending.settle(key, sender, false, None);
    }
}

fn key(args: &mut Args<'_>) -> Key {
    let name = mem::replace(&mut args.name, Vec::new(args.alloc));
    (
        mem::replace(&mut args.partition, String::new(args.alloc)),
        name,
    )
}

impl Debts {
    /// Returns a new registry.
    pub fn new(alloc: Global) -> Debts {
        Debts {
            alloc,
            pending: Pending::new(alloc),
            opens: Slots::new(),
            ids: [None, None, None, None],
            receivers: [None, None, None, None],
            senders: Slots::new(),
        }
    }

    /// Closes all opens and settles all tokens.
    pub fn end(self) {
        let Debts {
            alloc,
            mut pending,
            opens,
            ids: _,
            receivers: _,
            senders,
        } = self;
        let key = (String::new(alloc), Vec::new(alloc));
        let Slots {
            first,
            second,
            third,
            last,
        } = opens;
        close(&mut pending, first);
        close(&mut pending, second);
        close(&mut pending, third);
        close(&mut pending, last);
        let Slots {
            first,
            second,
            third,
            last,
        } = senders;
        settle(&mut pending, &key, first);
        settle(&mut pending, &key, second);
        settle(&mut pending, &key, third);
        settle(&mut pending, &key, last);
    }

    // Starts a new registry with these first numbers.
    fn begin(&mut self, generation: u64, token: u64) -> Found {
        let mut debts = Debts::new(self.alloc);
        debts.pending = Pending::starting_at(self.alloc, generation, token);
        mem::replace(self, debts).end();
        done(())
    }

    fn admit(&mut self, args: &Args<'_>) -> Result<Found, Error> {
        let existing = args.numbers[0] != 0;
        match self.pending.admit(&args.partition, &args.name, existing) {
            Ok((generation, receiver, owes)) => {
                let (id, is_settling) = (generation.id(), receiver.is_some());
                let (number, earlier) = self.opens.put(generation);
                close(&mut self.pending, earlier);
                if let (Some(at), Some(token)) = (
                    self.ids.get_mut(number),
                    self.receivers.get_mut(number),
                ) {
                    *at = Some(id);
                    *token = receiver;
                }
                Ok(Found::Admitted(number, is_settling, owes))
            }
            Err(e) => Err(e),
        }
    }

    fn release(&mut self, number: usize) -> Result<Found, Error> {
        let generation = self.opens.get(number).ok_or(Error::Closed)?;
        match self.pending.release(generation) {
            Ok(Some(sender)) => {
                let (token, earlier) = self.senders.put(sender);
                settle(&mut self.pending, generation.key(), earlier);
                Ok(Found::Released(token))
            }
            Ok(None) => Ok(Found::Nothing),
            Err(e) => Err(e),
        }
    }

    fn settle(&mut self, args: &mut Args<'_>) -> Result<Found, Error> {
        let is_dirty = args.numbers[1] != 0;
        let (key, error) = (key(args), args.error.take());
        match self.senders.take(args.handle()) {
            Some(sender) => {
                self.pending.settle(&key, sender, is_dirty, error);
                Ok(done(()))
            }
            None => Err(Error::Closed),
        }
    }

    fn is_settled(&self, number: usize) -> Result<Found, Error> {
        match self.receivers.get(number) {
            Some(Some(receiver)) => Ok(Found::Is(self.pending.is_settled(receiver))),
            _ => Err(Error::Closed),
        }
    }

    // Runs a call by the number of an open, which may be closed.
    fn by_id(&mut self, debt: Debt, args: &mut Args<'_>) -> Result<Found, Error> {
        let Some(Some(id)) = self.ids.get(args.handle()) else {
            return Err(Error::Closed);
        };
        let (id, key) = (*id, key(args));
        match debt {
            Debt::Owes => self.pending.debt(&key, id).map(Found::Is),
            _ => {
                let outcome = match args.error.take() {
                    Some(e) => Err(e),
                    None => Ok(()),
                };
                self.pending.clear(&key, id, outcome);
                Ok(done(()))
            }
        }
    }

    fn fail(&mut self, args: &mut Args<'_>) -> Result<Found, Error> {
        let error = args.error.take().ok_or(Error::Closed)?;
        let generation = self.opens.get(args.handle()).ok_or(Error::Closed)?;
        self.pending.fail(generation, error);
        Ok(done(()))
    }

    fn close(&mut self, number: usize) -> Result<Found, Error> {
        match self.opens.take(number) {
            Some(generation) => {
                self.pending.close(generation);
                Ok(done(()))
            }
            None => Err(Error::Closed),
        }
    }

    /// Runs a call of the registry.
    pub fn call(&mut self, debt: Debt, args: &mut Args<'_>) -> Result<Found, Error> {
        match debt {
            Debt::Begin => Ok(self.begin(args.numbers[0], args.numbers[1])),
            Debt::Admit => self.admit(args),
            Debt::Release => self.release(args.handle()),
            Debt::Settle => self.settle(args),
            Debt::IsSettled => self.is_settled(args.handle()),
            Debt::Owes | Debt::Clear => self.by_id(debt, args),
            Debt::Fail => self.fail(args),
            Debt::Close => self.close(args.handle()),
            Debt::Keeps => Ok(Found::Is(self.pending.keeps(&args.partition, &args.name))),
            Debt::Forget => {
                self.pending.forget(&args.partition, Some(&args.name));
                Ok(done(()))
            }
            Debt::ForgetPartition => {
                self.pending.forget(&args.partition, None);
                Ok(done(()))
            }
        }
    }
}
