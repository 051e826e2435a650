// A pair of wires crossed over: every level of the line below, inverted.
ghost use Rattle.std.specs.Prelude.{◌≡◌};
ghost use Rattle.layers.specs.Layers.{crossed, inverted};
ghost use Rattle.layers.specs.Soundness.{crossed_sound};

use crate::invert;
use line::{Line, check_level};
use refusal::Refusal;

/// The crossed pair over any line.
// No model: the clauses speak of the line below, which a view would have to keep.
#[derive(Drop)]
pub struct Crossed<L> {
    below: L,
}

impl<L: Line> Crossed<L> {
    /// Over any line, which may hold levels already.
    pub fn new(below: L) -> Self
        ensures { result.below ≡ below }
    {
        Crossed { below }
    }
}

impl<L: Line> Line for Crossed<L> {
    ghost meaning = { λ s. crossed (L.Line.meaning s.below) };

    ghost sound = { λ s. crossed_sound (L.Line.meaning s.below) (L.Line.sound s.below) };

    ghost memory = { λ s. L.Line.memory s.below };

    ghost written = { λ s level. L.Line.written s.below (inverted level) };

    #[tactic(auto, using(crate::proofs::Crossing::crossed_lemmas))]
    fn put(&mut self, level: u8) -> Result<u8, Refusal> {
        check_level(level)?;
        self.below.put(invert(level))
    }

    fn take(&mut self) -> Result<u8, Refusal> {
        self.below.take().map(invert)
    }

    #[tactic(auto, using(crate::proofs::Crossing::crossed_lemmas))]
    fn count(&self) -> usize {
        self.below.count()
    }

    fn places(&self) -> usize {
        self.below.places()
    }

    fn last_taken(&self) -> u8 {
        invert(self.below.last_taken())
    }

    fn level_at(&self, k: usize) -> Option<u8> {
        self.below.level_at(k).map(invert)
    }
}
