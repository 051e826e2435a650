// A line of one place.
ghost use Rattle.std.specs.Prelude.{◌≡◌};
ghost use Rattle.line.specs.Meaning.{fresh, no_memory};

use crate::{Line, admit};
use refusal::Refusal;
use std::marker::Model;

/// A jumper: the level that waits, if one does, and the level last taken.
#[derive(Drop)]
pub struct Jumper {
    held: Option<bool>,
    last: bool,
}

impl Model for Jumper {
    ghost use Rattle.std.specs.Prelude.{refl};
    ghost use Rattle.line.specs.Kinds.{jumper_of};
    ghost use Rattle.line.specs.Meaning.{Queue};
    ghost use Rattle.line.specs.Soundness.{jumper_sound};

    ghost Value = { Queue 1 };

    ghost view = { λ s. record { meaning = jumper_of s.held s.last; sound = jumper_sound s.held s.last; sized = refl } };
}

impl Jumper {
    /// Empty, with level last taken 1.
    pub fn new() -> Self
        ensures { result.meaning ≡ fresh 1 }
    {
        Jumper {
            held: None,
            last: true,
        }
    }
}

impl Line for Jumper {
    ghost meaning = { λ s. s.meaning };

    ghost sound = { λ s. s.sound };

    ghost memory = { λ _. no_memory };

    ghost written = { λ _ _. no_memory };

    fn put(&mut self, level: u8) -> Result<u8, Refusal> {
        let answer = admit(level, self.count(), self.places())?;
        self.held = Some(level == 1);
        Ok(answer)
    }

    fn take(&mut self) -> Result<u8, Refusal> {
        let high = self.held.take().ok_or(Refusal::LineEmpty)?;
        self.last = high;
        Ok(u8::from(high))
    }

    fn count(&self) -> usize {
        usize::from(self.held.is_some())
    }

    fn places(&self) -> usize {
        1
    }

    fn last_taken(&self) -> u8 {
        u8::from(self.last)
    }

    fn level_at(&self, k: usize) -> Option<u8> {
        if k == 0 {
            self.held.map(u8::from)
        } else {
            None
        }
    }
}
