//! The first lines of a case.

use blob_base::Error;
use blob_lab::script::Reader;
use std::alloc::Global;
use test_player::tokens::number;

/// What calls work on.
#[derive(Clone, Copy)]
pub enum Layer {
    /// The memory store itself.
    Memory,
    /// A wrapper over another memory store.
    Wrapper,
    /// Exclusive opens over that wrapper.
    Opens,
    /// A laboratory that runs lines of a script.
    Laboratory,
}

/// The layer of the calls, the words of generators, and the first numbers.
#[derive(Drop)]
pub struct Preamble {
    pub layer: Layer,
    pub words: Vec<u64>,
    pub next: u64,
    pub next_marker: u64,
}

/// Returns the layer that a line selects, if it selects one.
pub fn layer_of(line: &str) -> Option<Layer> {
    Some(match line {
        "over memory" => Layer::Memory,
        "over wrapper" => Layer::Wrapper,
        "over opens" => Layer::Opens,
        "over laboratory" => Layer::Laboratory,
        _ => return None,
    })
}

impl Preamble {
    pub fn new(alloc: Global) -> Preamble {
        Preamble {
            layer: Layer::Memory,
            words: Vec::new(alloc),
            next: 0,
            next_marker: 0,
        }
    }

    /// Starts another case: the same layer, no words, and numbers from 0.
    pub fn clear(&mut self) {
        self.words.clear();
        self.next = 0;
        self.next_marker = 0;
    }

    /// Parses a line, if it belongs to a preamble: `over LAYER`, which holds for later cases too, `numbers N`, `numbers
    /// N M`, or a script's `words`.
    pub fn read(&mut self, alloc: Global, line: &str) -> Result<bool, Error> {
        if let Some(layer) = layer_of(line) {
            self.layer = layer;
            return Ok(true);
        }
        let tokens: Vec<&str> = line.split(' ').collect(alloc)?;
        match tokens.as_slice() {
            ["numbers", next] => self.next = number(next)?,
            ["numbers", next, next_marker] => {
                self.next = number(next)?;
                self.next_marker = number(next_marker)?;
            }
            _ => {
                let mut reader = Reader::new(alloc);
                if reader.read(line.as_bytes()).is_err() || reader.preamble().words.is_empty() {
                    return Ok(false);
                }
                self.words = reader.begin().words;
            }
        }
        Ok(true)
    }
}
