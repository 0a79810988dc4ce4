//! Slots for values that must be consumed.

/// Four slots. A value gets the first free slot, and keeps its number until it is taken.
pub struct Slots<T> {
    pub first: Option<T>,
    pub second: Option<T>,
    pub third: Option<T>,
    pub last: Option<T>,
}

impl<T> Slots<T> {
    pub fn new() -> Slots<T> {
        Slots {
            first: None,
            second: None,
            third: None,
            last: None,
        }
    }

    /// Stores a value. Returns its number, and the earlier value if no slot was free: then the last slot is reused.
    pub fn put(&mut self, value: T) -> (usize, Option<T>) {
        if self.first.is_none() {
            return (0, self.first.replace(value));
        }
        if self.second.is_none() {
            return (1, self.second.replace(value));
        }
        if self.third.is_none() {
            return (2, self.third.replace(value));
        }
        (3, self.last.replace(value))
    }

    pub fn get(&self, number: usize) -> Option<&T> {
        match number {
            0 => self.first.as_ref(),
            1 => self.second.as_ref(),
            2 => self.third.as_ref(),
            3 => self.last.as_ref(),
            _ => None,
        }
    }

    pub fn get_mut(&mut self, number: usize) -> Option<&mut T> {
        match number {
            0 => self.first.as_mut(),
            1 => self.second.as_mut(),
            2 => self.third.as_mut(),
            3 => self.last.as_mut(),
            _ => None,
        }
    }

    pub fn take(&mut self, number: usize) -> Option<T> {
        match number {
            0 => self.first.take(),
            1 => self.second.take(),
            2 => self.third.take(),
            3 => self.last.take(),
            _ => None,
        }
    }
}
