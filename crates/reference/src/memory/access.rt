// Reading and writing a memory.
ghost use Rattle.std.specs.Prelude.{◌≡◌, MatchResult};
ghost use Rattle.isa.specs.Manual.{store};
ghost use Rattle.reference.specs.Memory.{words_of};

use super::Memory;
use std::alloc::{AllocError, Global};
use std::collections::BTreeMap;

impl Memory {
    // A memory with nothing written.
    pub fn new(heap: Global) -> Memory
        ensures { words_of result ≡ (λ _. 0) }
    {
        Memory {
            words: BTreeMap::new(heap),
        }
    }

    pub fn get(&self, number: u32) -> u32
        ensures { result ≡ words_of self.now number }
    {
        self.words.get(&number).copied().unwrap_or(0)
    }

    // On an error it is as it was.
    pub fn set(&mut self, number: u32, word: u32) -> Result<(), AllocError>
        ensures { MatchResult result (λ _. words_of self.new ≡ store (words_of self.old) number word) (λ _. words_of self.new ≡ words_of self.old) }
    {
        self.words.insert(number, word)?;
        Ok(())
    }
}
