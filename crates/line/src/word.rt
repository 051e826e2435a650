// A line of 64 places in one machine word.
ghost use Rattle.std.specs.Prelude.{◌≡◌, ◌≤◌};
ghost use Rattle.line.specs.Meaning.{fresh, no_memory};

use crate::{Line, admit};
use refusal::Refusal;
use std::marker::Model;

const PLACES: usize = 64;

/// A word: the oldest level is the lowest bit.
// All levels stand in one machine word, with no array; so their number stands beside it.
#[derive(Drop)]
pub struct Word {
    levels: u64,
    count: usize,
    last: bool,
    // no part of the model's invariant, since the view reads it
    ghost within: { count ≤ 64 },
}

impl Model for Word {
    ghost use Rattle.std.specs.Prelude.{◌<◌, ◌^◌, refl};
    ghost use Rattle.line.specs.Kinds.{word_of};
    ghost use Rattle.line.specs.Meaning.{Queue};
    ghost use Rattle.line.specs.Soundness.{word_sound};

    ghost Value = { Queue 64 };

    ghost view = { λ s. record {
      meaning = word_of s.levels s.count s.last;
      sound = word_sound s.levels s.count s.last s.within;
      sized = refl;
    } };

    // no bit stands above those that wait
    ghost invariant = { λ s. s.levels < 2 ^ s.count };
}

impl Word {
    /// Empty, with level last taken 1.
    pub fn new() -> Self
        ensures { result.meaning ≡ fresh 64 }
    {
        Word {
            levels: 0,
            count: 0,
            last: true,
        }
    }
}

impl Line for Word {
    ghost meaning = { λ s. s.meaning };

    ghost sound = { λ s. s.sound };

    ghost memory = { λ _. no_memory };

    ghost written = { λ _ _. no_memory };

    #[tactic(auto, using(crate::proofs::Shifting::put_lemmas))]
    fn put(&mut self, level: u8) -> Result<u8, Refusal> {
        let answer = admit(level, self.count(), self.places())?;
        self.levels |= u64::from(level) << self.count;
        self.count += 1;
        Ok(answer)
    }

    #[tactic(auto, using(crate::proofs::Shifting::take_lemmas))]
    fn take(&mut self) -> Result<u8, Refusal> {
        if self.count == 0 {
            return Err(Refusal::LineEmpty);
        }
        self.last = self.levels % 2 == 1;
        self.levels /= 2;
        self.count -= 1;
        Ok(u8::from(self.last))
    }

    #[tactic(auto, using(crate::specs::Soundness::length_counted))]
    fn count(&self) -> usize {
        self.count
    }

    fn places(&self) -> usize {
        PLACES
    }

    fn last_taken(&self) -> u8 {
        u8::from(self.last)
    }

    #[tactic(auto, using(crate::proofs::Counting::counted_lemmas))]
    fn level_at(&self, k: usize) -> Option<u8> {
        if k >= self.count {
            return None;
        }
        Some(((self.levels >> k) % 2) as u8)
    }
}
