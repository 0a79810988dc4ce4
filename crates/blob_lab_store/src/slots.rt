//! Values by number: from 0, in the order in which they were added. Numbers aren't reused, and a value that was taken leaves nothing.
ghost use Rattle.std.specs.Prelude.{◌≡◌, ◌++◌, ◌∷◌, [], Some, None, OnOk, IfOk, IfSome, IfNone, length, map, set, vec_len, option_copied};
ghost use Rattle.blob_lab_model.specs.Answers.{kept_at};
ghost use Rattle.blob_lab_store.specs.Numbers.{IsAscending, IsBelow};

use crate::full::full_slots;
use std::alloc::{AllocError, Global};
use std::mem;

/// How many slots are empty at least before they are dropped.
const MANY: usize = 128;

/// The slots of values. A slot is empty from when its value is taken until it is dropped with others.
#[derive(Drop)]
pub(crate) struct Slots<T> {
    pub(crate) values: Vec<Option<T>>,
    /// The number of each slot.
    numbers: Vec<usize>,
    /// How many numbers were given.
    given: usize,
    /// The number of a slot less its index, if no slot after it was dropped.
    shift: usize,
    /// How many slots are empty.
    empty: usize,
    ghost paired: { vec_len values ≡ vec_len numbers },
    ghost ascending: { IsAscending numbers.items },
    ghost below: { IsBelow numbers.items given },
}

impl<T> Slots<T> {
    ghost use Rattle.blob_lab_store.specs.Slots.{HasRoom, IsAt, by_number, values_of};

    pub(crate) fn new(alloc: Global) -> Slots<T>
        ensures { values_of result ≡ [] }
    {
        Slots {
            values: Vec::new(alloc),
            numbers: Vec::new(alloc),
            given: 0,
            shift: 0,
            empty: 0,
        }
    }

    /// Reserves a slot and a number for one more value.
    #[inline(always)]
    pub(crate) fn reserve(&mut self) -> Result<(), AllocError>
        ensures values { values_of self.new ≡ values_of self.old }
        ensures room { OnOk result (HasRoom self.new) }
    {
        if self.given == usize::MAX {
            return Err(AllocError);
        }
        if self.empty >= MANY && self.empty >= self.values.len() / 2 {
            self.drop_empty();
        }
        self.numbers.reserve(1)?;
        self.values.reserve(1)?;
        Ok(())
    }

    /// Adds a value and returns its number.
    #[inline(always)]
    pub(crate) fn add(&mut self, value: T) -> usize
        requires { HasRoom self.old }
        ensures number { result ≡ length (values_of self.old) }
        ensures values { values_of self.new ≡ values_of self.old ++ Some value ∷ [] }
    {
        let number = self.given;
        self.numbers.push(number).unwrap();
        self.values.push(Some(value)).unwrap();
        self.given = number + 1;
        number
    }

    /// Returns the index of a number's slot. `None` if the slot was dropped, or there is none yet.
    #[inline(always)]
    pub(crate) fn index(&self, number: usize) -> Option<usize>
        ensures some { IfSome result (λ i. IsAt self.now number i) }
        ensures none { IfNone result (kept_at (values_of self.now) number ≡ None) }
    {
        let guess = number.wrapping_sub(self.shift);
        if guess < self.numbers.len() && self.numbers[guess] == number {
            return Some(guess);
        }
        self.search(number)
    }

    #[inline(never)]
    fn search(&self, number: usize) -> Option<usize>
        ensures some { IfSome result (λ i. IsAt self.now number i) }
        ensures none { IfNone result (kept_at (values_of self.now) number ≡ None) }
    {
        if number < self.numbers.len() && self.numbers[number] == number {
            return Some(number);
        }
        let i = self.numbers.partition_point(|n| *n < number);
        if i < self.numbers.len() && self.numbers[i] == number {
            return Some(i);
        }
        None
    }

    #[inline(always)]
    pub(crate) fn get(&self, number: usize) -> Option<&T>
        ensures { option_copied result ≡ kept_at (values_of self.now) number }
    {
        match self.index(number) {
            Some(i) => self.values[i].as_ref(),
            None => None,
        }
    }

    /// Takes a value out of its slot.
    pub(crate) fn take(&mut self, number: usize) -> Option<T>
        ensures value { result ≡ kept_at (values_of self.old) number }
        ensures taken { IfSome result (λ x. values_of self.new ≡ set (values_of self.old) number None) }
        ensures none { IfNone result (values_of self.new ≡ values_of self.old) }
    {
        let Some(i) = self.index(number) else {
            return None;
        };
        let taken = self.values[i].take();
        if taken.is_some() {
            self.empty = self.empty.saturating_add(1);
        }
        taken
    }

    /// Drops all values.
    pub(crate) fn clear(&mut self)
    where
        T: Drop,
        ensures { values_of self.new ≡ map (λ value. None) (values_of self.old) }
    {
        self.values.clear();
        self.numbers.clear();
        self.shift = self.given;
        self.empty = 0;
    }

    /// Returns the slots without their numbers.
    pub(crate) fn into_values(self) -> Vec<Option<T>> {
        let Slots {
            values,
            numbers: _,
            given: _,
            shift: _,
            empty: _,
        } = self;
        values
    }

    /// Returns a copy of the numbers of the slots, for `with_values`. It is separate so that it can fail before values are copied
    /// that can't be dropped.
    pub(crate) fn numbers(&self) -> Result<Vec<usize>, AllocError>
        ensures { IfOk result (λ numbers. numbers.items ≡ self.now.numbers.items) }
    {
        Vec::from_slice(*self.numbers.allocator(), &self.numbers)
    }

    /// Returns a table with other values in slots of the same numbers, of which as many are empty.
    pub(crate) fn with_values(&self, numbers: Vec<usize>, values: Vec<Option<T>>) -> Slots<T>
        requires numbers { numbers.items ≡ self.now.numbers.items }
        requires paired { vec_len values ≡ vec_len self.now.values }
        ensures { values_of result ≡ by_number self.now.numbers.items values.items self.now.given }
    {
        Slots {
            values,
            numbers,
            given: self.given,
            shift: self.shift,
            empty: self.empty,
        }
    }

    /// Drops the empty slots. If memory runs out, they stay.
    fn drop_empty(&mut self)
        ensures values { values_of self.new ≡ values_of self.old }
        ensures given { self.new.given ≡ self.old.given }
    {
        let alloc = *self.numbers.allocator();
        let Ok(numbers) = Vec::with_capacity(alloc, self.values.len()) else {
            return;
        };
        let Ok(values) = Vec::with_capacity(alloc, self.values.len()) else {
            return;
        };
        let old = mem::replace(&mut self.values, Vec::new(alloc));
        let (numbers, values) = full_slots(&self.numbers, old, numbers, values);
        self.shift = self.given.saturating_sub(values.len());
        self.empty = 0;
        self.numbers = numbers;
        let unused = mem::replace(&mut self.values, values);
        unused.destroy_empty();
    }
}
