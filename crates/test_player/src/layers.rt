//! A wrapper over the memory store, and sometimes a wrapper over that one.

use crate::args::Args;
use crate::calls::Own;
use crate::found::{Found, done};
use crate::wrapper_calls::{Wrapper, WrapperPlace};
use blob_base::Error;
use blob_memory::Storage as Memory;
use std::alloc::Global;
use std::mem;

/// The wrapper over the memory store, and the one above it if there is one, which then owns the lower one.
#[derive(Drop)]
pub struct Layers {
    alloc: Global,
    pub below: WrapperPlace<Memory>,
    above: Option<WrapperPlace<Wrapper<Memory>>>,
}

// Each function that makes a wrapper over a wrapper, or takes or leaves one, is one by itself: the proof of a function that does
// more than that takes most of a minute.
fn over(
    alloc: Global,
    inner: Wrapper<Memory>,
    words: Vec<u64>,
) -> Result<WrapperPlace<Wrapper<Memory>>, Error> {
    WrapperPlace::new(alloc, inner, words, (0, 0))
}

fn parted(above: WrapperPlace<Wrapper<Memory>>) -> Result<(Wrapper<Memory>, usize), Error> {
    above.into_inner()
}

fn call_of_above(
    above: &mut WrapperPlace<Wrapper<Memory>>,
    own: Own,
    args: &mut Args<'_>,
) -> Result<Found, Error> {
    above.place.call_wrapper(own, args)
}

impl Layers {
    pub fn new(alloc: Global, below: WrapperPlace<Memory>) -> Layers {
        Layers {
            alloc,
            below,
            above: None,
        }
    }

    /// Returns the memory store below all layers.
    pub fn memory(&self) -> &Memory {
        match &self.above {
            Some(above) => above.place.store.inner().inner(),
            None => self.below.place.store.inner(),
        }
    }

    // Wraps the wrapper, with these words.
    fn wrap(&mut self, args: &mut Args<'_>) -> Result<Found, Error> {
        if self.above.is_some() {
            return Err(Error::Closed);
        }
        let words = mem::replace(&mut args.words, Vec::new(self.alloc));
        let inner = self.below.take();
        let above = over(self.alloc, inner, words)?;
        self.put(above);
        Ok(done(()))
    }

    fn put(&mut self, above: WrapperPlace<Wrapper<Memory>>) {
        self.above = Some(above);
    }

    // Takes the inner wrapper out again, for its handles. Returns how many words the outer one took.
    fn unwrap(&mut self) -> Result<Found, Error> {
        let above = self.above.take().ok_or(Error::Closed)?;
        let (inner, taken) = parted(above)?;
        self.below.put_back(inner);
        Ok(Found::Taken(taken))
    }

    /// Runs a call of the outer wrapper.
    pub fn call(&mut self, own: Own, args: &mut Args<'_>) -> Result<Found, Error> {
        match own {
            Own::Wrap => self.wrap(args),
            Own::Unwrap => self.unwrap(),
            _ => match &mut self.above {
                Some(above) => call_of_above(above, own, args),
                None => self.below.call(own, args),
            },
        }
    }
}
