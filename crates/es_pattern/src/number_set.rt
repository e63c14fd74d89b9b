// Sets of numbers below a bound, as the bits of words.
ghost use Rattle.std.specs.Prelude.{◌≡◌, ◌/◌, ◌<◌, ℕ, IfOk, IsTrue, length, false, ◌⊎◌};
ghost use Rattle.es_pattern.specs.NumberSet.{Has, has};

use std::alloc::{AllocError, Global};

// A set of numbers.
#[derive(Drop)]
pub(crate) struct NumberSet {
    pub words: Vec<u64>,
}

impl NumberSet {
    // An empty set with room for the numbers up to `last`.
    pub(crate) fn new(alloc: Global, last: usize) -> Result<NumberSet, AllocError>
        ensures room { IfOk result (λ set. last / 64 < length set.words.items) }
        ensures empty { IfOk result (λ set. (n : ℕ) → has set.words.items n ≡ false) }
    {
        Ok(NumberSet {
            words: vec![in alloc; 0u64; last / 64 + 1]?,
        })
    }

    pub(crate) fn contains(&self, number: usize) -> bool
        ensures { result ≡ has self.now.words.items number }
    {
        match self.words.get(number / 64) {
            Some(word) => (*word >> (number % 64)) & 1 == 1,
            None => false,
        }
    }

    // Adds a number, where there is room for it.
    pub(crate) fn insert(&mut self, number: usize)
        ensures size { length self.new.words.items ≡ length self.old.words.items }
        ensures added { number / 64 < length self.old.words.items
            → Has self.new.words.items number }
        ensures kept { (n : ℕ) → Has self.old.words.items n → Has self.new.words.items n }
        ensures none_else { (n : ℕ) → Has self.new.words.items n
            → (number ≡ n) ⊎ Has self.old.words.items n }
    {
        let at = number / 64;
        if at < self.words.len() {
            self.words[at] = self.words[at] | (1u64 << (number % 64));
        }
    }

    pub(crate) fn clear(&mut self)
        ensures size { length self.new.words.items ≡ length self.old.words.items }
        ensures empty { (n : ℕ) → has self.new.words.items n ≡ false }
    {
        self.words.fill(0);
    }
}
