//! A generator with given first words.
use crate::machine::{Machine, Name};
use rand_core::utils::NextWord;
use rand_core::{Rng, utils};
use std::marker::Model;
use std::rc::Rc;

/// Returns the given words in order, and then zeros. The machine counts them.
#[derive(Drop)]
pub struct Words {
    words: Vec<u64>,
    at: usize,
    name: Name,
    machine: Rc<Machine>,
}

impl Model for Words {
    ghost use Rattle.std.specs.Prelude.{ℕ, List, drop};

    ghost Value = { List ℕ };

    ghost view = { λ w. drop w.at w.words.items };
}

impl Words {
    pub fn new(words: Vec<u64>, name: Name, machine: Rc<Machine>) -> Words {
        Words {
            words,
            at: 0,
            name,
            machine,
        }
    }
}

impl NextWord<u64> for Words {
    ghost use Rattle.blob_sql_explored.specs.Words.{next_of};

    ghost step = { next_of };

    fn next_word(&mut self) -> u64 {
        self.machine.count_draw(self.name);
        if self.at >= self.words.len() {
            return 0;
        }
        let word = self.words[self.at];
        self.at += 1;
        word
    }
}

impl Rng for Words {
    ghost use Rattle.blob_sql_explored.specs.Words.{words_stream};

    ghost stream = { words_stream };

    fn next_u32(&mut self) -> u32 {
        let word = self.next_word();
        (word % (1 << 32)) as u32
    }

    fn next_u64(&mut self) -> u64 {
        self.next_word()
    }

    fn fill_bytes(&mut self, dst: &mut [u8]) {
        utils::fill_bytes_via_u64(self, dst)
    }
}
