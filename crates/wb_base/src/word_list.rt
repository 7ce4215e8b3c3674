//! The words of a command line.
ghost use Rattle.std.specs.Prelude.{◌≡◌, ◌<◌, [], ◌∷◌, ◌++◌, OnOk, OnErr, length, slice_get, Some};

use crate::{OutOfMemory, Text};
use std::alloc::Global;
use std::marker::Model;

/// A list of words, each a list of bytes. To contracts it is that list of lists.
#[derive(Drop)]
pub struct Words {
    words: Vec<Text>,
}

impl Model for Words {
    ghost use Rattle.std.specs.Prelude.{ℕ, List};

    ghost Value = { List (List ℕ) };

    ghost view = { λ list. list.words.items };
}

impl Words {
    /// A list without words, which takes no memory yet and grows by this allocator.
    pub fn new(alloc: Global) -> Words
        ensures { result ≡ [] }
    {
        Words {
            words: Vec::new(alloc),
        }
    }

    /// Adds a copy of a word at the end. Where no memory is found, the list is as it was.
    pub fn add(&mut self, word: &[u8]) -> Result<(), OutOfMemory>
        ensures ok { OnOk result (self.new ≡ self.old ++ word.now ∷ []) }
        ensures err { OnErr result (self.new ≡ self.old) }
    {
        let mut copy = Text::new(*self.words.allocator());
        copy.push_all(word)?;
        self.words.push(copy)?;
        Ok(())
    }

    /// How many words there are.
    pub fn count(&self) -> usize
        ensures { result ≡ length self.now }
    {
        self.words.len()
    }

    /// The word at this place, from 0.
    pub fn word(&self, index: usize) -> &[u8]
        requires { index < length self.now }
        ensures { slice_get self.now index ≡ Some result.now }
    {
        self.words[index].bytes()
    }
}
