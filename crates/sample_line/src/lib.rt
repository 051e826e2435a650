// A line of two places: an example of a line of one's own (docs/WRITING_A_LINE.md).
#![tactic(auto)]

ghost use Rattle.std.specs.Prelude.{◌≡◌};
ghost use Rattle.line.specs.Meaning.{fresh, no_memory};

use line::{Line, admit};
use refusal::Refusal;
use std::marker::Model;

// The levels that wait, oldest first, each true for 1. Two `Option`s would have a fourth form, with a second level and no first.
#[derive(Clone, Copy)]
enum Held {
    Nothing,
    One(bool),
    Two(bool, bool),
}

/// A line of two places.
#[derive(Drop)]
pub struct TwoPlaces {
    held: Held,
    last: bool,
}

impl Model for TwoPlaces {
    ghost use Rattle.std.specs.Prelude.{refl};
    ghost use Rattle.line.specs.Meaning.{Queue};
    ghost use Rattle.sample_line.specs.TwoPlaces.{two_places, two_places_sound};

    ghost Value = { Queue 2 };

    ghost view = { λ s. record {
      meaning = two_places s.held s.last;
      sound = two_places_sound s.held s.last;
      sized = refl;
    } };
}

impl TwoPlaces {
    /// Empty, with level last taken 1.
    pub fn new() -> Self
        ensures { result.meaning ≡ fresh 2 }
    {
        TwoPlaces {
            held: Held::Nothing,
            last: true,
        }
    }
}

impl Line for TwoPlaces {
    ghost meaning = { λ s. s.meaning };

    ghost sound = { λ s. s.sound };

    ghost memory = { λ _. no_memory };

    ghost written = { λ _ _. no_memory };

    fn put(&mut self, level: u8) -> Result<u8, Refusal> {
        let answer = admit(level, self.count(), self.places())?;
        let high = level == 1;
        self.held = match self.held {
            Held::Nothing => Held::One(high),
            Held::One(oldest) => Held::Two(oldest, high),
            Held::Two(..) => unreachable!(),
        };
        Ok(answer)
    }

    fn take(&mut self) -> Result<u8, Refusal> {
        let (oldest, rest) = match self.held {
            Held::Nothing => return Err(Refusal::LineEmpty),
            Held::One(oldest) => (oldest, Held::Nothing),
            Held::Two(oldest, newest) => (oldest, Held::One(newest)),
        };
        self.held = rest;
        self.last = oldest;
        Ok(u8::from(oldest))
    }

    fn count(&self) -> usize {
        match self.held {
            Held::Nothing => 0,
            Held::One(_) => 1,
            Held::Two(_, _) => 2,
        }
    }

    fn places(&self) -> usize {
        2
    }

    fn last_taken(&self) -> u8 {
        u8::from(self.last)
    }

    fn level_at(&self, k: usize) -> Option<u8> {
        match self.held {
            Held::One(oldest) if k == 0 => Some(u8::from(oldest)),
            Held::Two(oldest, _) if k == 0 => Some(u8::from(oldest)),
            Held::Two(_, newest) if k == 1 => Some(u8::from(newest)),
            _ => None,
        }
    }
}
