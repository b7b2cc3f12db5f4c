//! Words that are 0 until they are stored. Their memory is taken when they are opened, and touched only up to the last that was stored.
ghost use Rattle.std.specs.Prelude.{◌≡◌, ◌<◌, ◌≤◌, ◌-◌, ◌++◌, ◌∷◌, [], length, slice_get, slice_set, replicate, vec_capacity, Some, IfOk};

use std::alloc::{AllocError, Global};
use std::marker::Model;

/// So many words, which contracts see as the list of them. Each is 0 until it is stored.
#[derive(Drop)]
pub struct ZeroedWords {
    /// The words up to the last that was stored.
    words: Vec<u64>,
    /// How many words there are.
    count: usize,
}

impl Model for ZeroedWords {
    ghost use Rattle.std.specs.Prelude.{ℕ, List, ◌≤◌, ◌-◌, ◌++◌, length, replicate, vec_capacity};

    ghost Value = { List ℕ };

    ghost view = { λ z. z.words.items ++ replicate (z.count - length z.words.items) 0 };

    ghost invariant = { λ z. (z.count ≤ vec_capacity z.words) × (length z.words.items ≤ z.count) };
}

/// Puts a word at the end, where room was taken for it.
fn put(words: &mut Vec<u64>, word: u64)
    requires { length words.old.items < vec_capacity words.old }
    ensures items { words.new.items ≡ words.old.items ++ word ∷ [] }
    ensures room { vec_capacity words.old ≤ vec_capacity words.new }
{
    let Ok(()) = words.push(word) else {
        unreachable!()
    };
}

/// Puts words that are 0 at the end, until there are so many.
fn fill(words: &mut Vec<u64>, count: usize)
    requires more { length words.old.items ≤ count }
    requires fits { count ≤ vec_capacity words.old }
    ensures items { words.new.items ≡ words.old.items ++ replicate (count - length words.old.items) 0 }
    ensures room { vec_capacity words.old ≤ vec_capacity words.new }
{
    for _ in words.len()..count {
        put(words, 0);
    }
}

impl ZeroedWords {
    /// So many words that are 0.
    pub fn open(alloc: Global, count: usize) -> Result<ZeroedWords, AllocError>
        ensures { IfOk result (λ words. words ≡ replicate count 0) }
    {
        let words = Vec::with_capacity(alloc, count)?;
        Ok(ZeroedWords { words, count })
    }

    /// The word at a place.
    pub fn get(&self, at: usize) -> u64
        requires { at < length self.now }
        ensures { slice_get self.now at ≡ Some result }
    {
        match self.words.get(at) {
            Some(word) => *word,
            None => 0,
        }
    }

    /// Stores a word at a place. The words before it that weren't stored yet are touched too, and none behind it.
    pub fn set(&mut self, at: usize, value: u64)
        requires { at < length self.old }
        ensures { self.new ≡ slice_set self.old at value }
    {
        if at < self.words.len() {
            self.words[at] = value;
        } else {
            fill(&mut self.words, at);
            put(&mut self.words, value);
        }
    }
}
