//! The numbers of a pending list's markers. A sync without a marker is completed without a search of the entries.
ghost use Rattle.std.specs.Prelude.{◌≡◌, ◌≤◌, ◌==◌, drop, length, position, vec_len, true};
ghost use Rattle.std.specs.List.Sorted.{IsNonDecreasing};

use std::alloc::{AllocError, Global};

/// The numbers of the markers that are left, in issue order.
#[derive(Drop)]
pub struct Marks {
    /// Numbers of dropped markers, and then those that are left. The former are removed in bulk.
    pub numbers: Vec<u64>,
    /// How many are of dropped markers.
    pub dropped: usize,
    /// Whether the numbers are known to be sorted. They are if markers are added in the order of their numbers.
    pub sorted: bool,
    ghost inside: { dropped ≤ length numbers.items },
    ghost rising: { sorted ≡ true → IsNonDecreasing numbers.items },
}

/// Removes the first `count` numbers.
fn remove_front(numbers: &mut Vec<u64>, count: usize)
    requires { count ≤ vec_len numbers.old }
    ensures { numbers.new.items ≡ drop count numbers.old.items }
{
    numbers.drain(..count);
}

/// Returns the index of a number, searched by halves.
fn place_by_halves(marks: &[u64], number: u64) -> Option<usize>
    requires { IsNonDecreasing marks.now }
    ensures { result ≡ position (λ mark. mark == number) marks.now }
{
    let i = marks.partition_point(|mark| *mark < number);
    if i < marks.len() && marks[i] == number {
        return Some(i);
    }
    None
}

/// Returns the index of a number, searched one by one.
fn place_by_steps(marks: &[u64], number: u64) -> Option<usize>
    ensures { result ≡ position (λ mark. mark == number) marks.now }
{
    marks.iter().position(|mark| *mark == number)
}

impl Marks {
    ghost use Rattle.std.specs.Prelude.{◌<◌, ◌++◌, ◌∷◌, [], OnOk, vec_capacity};
    ghost use Rattle.blob_pending.specs.Marks.{left_marks, AreFinished};

    /// Returns no numbers.
    pub fn new(alloc: Global) -> Marks
        ensures { left_marks result ≡ [] }
    {
        Marks {
            numbers: Vec::new(alloc),
            dropped: 0,
            sorted: true,
        }
    }

    /// Reserves capacity for one more number. After an error the numbers are unchanged.
    pub fn reserve(&mut self) -> Result<(), AllocError>
        ensures same { left_marks self.new ≡ left_marks self.old }
        ensures ok { OnOk result (vec_len self.new.numbers < vec_capacity self.new.numbers) }
    {
        self.numbers.reserve(1)
    }

    /// Appends a number. There is capacity for it.
    pub fn push(&mut self, number: u64)
        requires { vec_len self.old.numbers < vec_capacity self.old.numbers }
        ensures { left_marks self.new ≡ left_marks self.old ++ number ∷ [] }
    {
        if let Some(last) = self.numbers.last() {
            self.sorted = self.sorted && *last <= number;
        }
        self.numbers.push(number).unwrap();
    }

    /// Returns the index of a number among those that are left.
    pub fn place_of(&self, number: u64) -> Option<usize>
        ensures { result ≡ position (λ mark. mark == number) (left_marks self.now) }
    {
        let left = self.left();
        if self.sorted {
            return place_by_halves(left, number);
        }
        place_by_steps(left, number)
    }

    /// Returns those that are left.
    pub fn left(&self) -> &[u64]
        ensures { result.now ≡ left_marks self.now }
    {
        &self.numbers[self.dropped..]
    }

    /// Returns those that are left up to and including a number, none if it isn't among them.
    pub fn through(&self, number: u64) -> &[u64]
        ensures { AreFinished number (left_marks self.now) result.now }
    {
        let count = match self.place_of(number) {
            Some(place) => place + 1,
            None => 0,
        };
        &self.left()[..count]
    }

    /// Drops the first `count` of those that are left. Removes the dropped ones once they are more than half.
    pub fn drop_front(&mut self, count: usize)
        requires { count ≤ length (left_marks self.old) }
        ensures { left_marks self.new ≡ drop count (left_marks self.old) }
    {
        self.dropped += count;
        if self.dropped > self.numbers.len() / 2 {
            remove_front(&mut self.numbers, self.dropped);
            self.dropped = 0;
        }
    }
}
