//! Sets of labels.

ghost use Rattle.std.specs.Prelude.{◌↔◌, ◌⊎◌, ◌≡◌, ◌≤◌, ◌/◌, ◌<◌, ◌+◌, ℕ, IsTrue, OnOk, IfOk, false, true};
ghost use Rattle.std.specs.Prelude.{◌^◌, length, vec_len, bit_or};
ghost use Rattle.types.specs.Run.{bind};
ghost use Rattle.effects.specs.Least.{IsLeast};

use std::alloc::{AllocError, Global};
use types::code::Label;

/// A set of labels: one bit for each label from 0 to the largest label in the set, and some more
/// bits.
#[derive(Drop)]
pub struct LabelSet {
    words: Vec<u64>,
    ghost within: { length words.items ≤ 67108864 },
}

impl LabelSet {
    ghost use Rattle.effects.specs.LabelSets.{HasLabel, HasNew, HasNewBit, words_of};

    /// Returns an empty set. It allocates no memory.
    pub fn new(alloc: Global) -> LabelSet
        ensures { (l : ℕ) → HasLabel result l → ⊥ }
    {
        LabelSet {
            words: Vec::new(alloc),
        }
    }

    /// Returns whether the set contains a label.
    pub fn has(&self, label: Label) -> bool
        ensures { IsTrue result ↔ HasLabel self.now label }
    {
        match self.words.get(label as usize / 64) {
            Some(word) => (*word >> (label % 64)) & 1 == 1,
            None => false,
        }
    }

    /// Returns the smallest label.
    pub fn least(&self) -> Option<Label>
        ensures { IsLeast (HasLabel self.now) result }
    {
        for (k, word) in self.words.iter().enumerate() {
            if *word != 0 {
                return Some(k as Label * 64 + word.trailing_zeros());
            }
        }
        None
    }

    /// Returns an upper bound: each label of the set is smaller.
    pub fn end(&self) -> usize
        ensures behind { (l : ℕ) → HasLabel self.now l → l < result }
        ensures within { result ≤ 2 ^ 32 }
    {
        self.words.len() * 64
    }

    /// Adds a label.
    pub fn insert(&mut self, label: Label) -> Result<(), AllocError>
        ensures { OnOk result ((l : ℕ)
            → HasLabel self.new l ↔ (HasLabel self.old l ⊎ (l ≡ label))) }
    {
        let k = label as usize / 64;
        self.reserve(k + 1)?;
        let _new = self.unite_word(k, 1 << (label % 64));
        Ok(())
    }

    /// Adds the labels of another set. Returns false if all of them were already in this set.
    pub fn unite(&mut self, other: &LabelSet) -> Result<bool, AllocError>
        ensures both { OnOk result ((l : ℕ)
            → HasLabel self.new l ↔ (HasLabel self.old l ⊎ HasLabel other.now l)) }
        ensures grown { IfOk result (λ grown. grown ≡ false
            → (l : ℕ) → HasLabel other.now l → HasLabel self.old l) }
        ensures new { IfOk result (λ grown. grown ≡ true
            → HasNew (HasLabel self.old) (HasLabel other.now)) }
    {
        self.reserve(other.words.len())?;
        let mut grown = false;
        for (k, word) in other.words.iter().enumerate() {
            grown |= self.unite_word(k, *word);
        }
        Ok(grown)
    }

    /// Returns a copy.
    pub fn copied(&self, alloc: Global) -> Result<LabelSet, AllocError>
        ensures { IfOk result (λ s. (l : ℕ) → HasLabel s l ↔ HasLabel self.now l) }
    {
        let words = Vec::from_slice(alloc, &self.words)?;
        Ok(LabelSet { words })
    }

    /// Makes room for this number of words. The set keeps its labels.
    fn reserve(&mut self, count: usize) -> Result<(), AllocError>
        requires { count ≤ 67108864 }
        ensures same { OnOk result (words_of self.new ≡ words_of self.old) }
        ensures room { OnOk result (count ≤ vec_len self.new.words) }
    {
        if count <= self.words.len() {
            return Ok(());
        }
        self.words.resize(count, 0)?;
        Ok(())
    }

    /// Adds the labels of a word. Returns whether one of them is new.
    fn unite_word(&mut self, k: usize, word: u64) -> bool
        requires { k < vec_len self.old.words }
        ensures word { words_of self.new ≡ bind k (bit_or (words_of self.old k) word) (words_of self.old) }
        ensures grown { result ≡ false → bit_or (words_of self.old k) word ≡ words_of self.old k }
        ensures new { result ≡ true → HasNewBit (words_of self.old k) word }
        ensures length { vec_len self.new.words ≡ vec_len self.old.words }
    {
        let mine = self.words[k];
        let both = mine | word;
        self.words[k] = both;
        both != mine
    }
}
