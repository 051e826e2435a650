// Non-return-to-zero inverted: 1 keeps the level below, 0 changes it.
ghost use Rattle.std.specs.Prelude.{◌≡◌, ◌≤◌, true, ◌∷◌};
ghost use Rattle.line.specs.Levels.{level_of, level_low};
ghost use Rattle.layers.specs.Layers.{decoded, encoded, encoded_on, nrzi_meaning, nrzi_put_below};
ghost use Rattle.layers.specs.Laws.{NrziExample, NrziRule};
ghost use Rattle.line.specs.Meaning.{if_accepted, put_answer, put_after, take_answer, take_after, newest_level};
ghost use Rattle.layers.specs.Soundness.{nrzi_sound};
ghost use Rattle.std.specs.List.{slice_get};

use crate::invert;
use line::{Line, check_level};
use refusal::Refusal;

/// NRZI over any line, and the level that it answered last.
// No model: the clauses speak of the line below, which a view would have to keep.
#[derive(Drop)]
pub struct Nrzi<L> {
    below: L,
    answered: bool,
}

impl<L: Line> Nrzi<L> {
    /// Over any line, which may hold levels already; its own level last taken is 1.
    pub fn new(below: L) -> Self
        ensures below { result.below ≡ below }
        ensures answered { result.answered ≡ true }
        ensures rule { NrziRule }
        ensures example { NrziExample }
    {
        Nrzi {
            below,
            answered: true,
        }
    }
}

// The level before the one at k: the level last taken before the oldest.
fn level_before<L: Line>(line: &L, k: usize) -> Option<u8>
    ensures { result ≡ slice_get ((L.Line.meaning line.now).last ∷ (L.Line.meaning line.now).waiting) k }
{
    if k == 0 {
        Some(line.last_taken())
    } else {
        line.level_at(k - 1)
    }
}

// The newest level: the last that waits, else the level last taken.
#[tactic(auto, using(crate::proofs::Differences::newest_at))]
fn newest<L: Line>(line: &L) -> u8
    ensures { result ≡ newest_level (L.Line.meaning line.now).last (L.Line.meaning line.now).waiting }
{
    level_before(line, line.count()).unwrap()
}

// 1 if the level is the one before it.
fn decode(before: u8, level: u8) -> u8
    ensures { result ≡ decoded before level }
{
    u8::from(before == level)
}

// The level before for 1, and the other for 0.
fn encode(before: u8, level: u8) -> u8
    requires { before ≤ 1 }
    ensures { result ≡ encoded before level }
{
    if level == 1 { before } else { invert(before) }
}

impl<L: Line> Line for Nrzi<L> {
    ghost meaning = { λ s. nrzi_meaning L.Line.meaning s };

    ghost sound = { λ s. nrzi_sound (L.Line.meaning s.below) (level_of s.answered) (L.Line.sound s.below) (level_low s.answered) };

    ghost memory = { λ s. L.Line.memory s.below };

    ghost written = { λ s level. L.Line.written s.below (encoded_on (L.Line.meaning s.below) level) };

    // An impl's own clauses stand in place of the trait's, so put and take say these again, to add `below`.
    // The line below is put the newest level for 1, and the other for 0.
    fn put(&mut self, level: u8) -> Result<u8, Refusal>
        ensures answer { result ≡ put_answer (nrzi_meaning L.Line.meaning self.old) level }
        ensures after { nrzi_meaning L.Line.meaning self.new ≡ put_after (nrzi_meaning L.Line.meaning self.old) level }
        ensures stored { L.Line.memory self.new.below
            ≡ if_accepted (put_answer (nrzi_meaning L.Line.meaning self.old) level)
            (L.Line.written self.old.below (encoded_on (L.Line.meaning self.old.below) level)) (L.Line.memory self.old.below) }
        ensures below { L.Line.meaning self.new.below ≡ nrzi_put_below (L.Line.meaning self.old.below) level }
    {
        check_level(level)?;
        let before = newest(&self.below);
        self.below.put(encode(before, level))
    }

    fn take(&mut self) -> Result<u8, Refusal>
        ensures answer { result ≡ take_answer (nrzi_meaning L.Line.meaning self.old) }
        ensures after { nrzi_meaning L.Line.meaning self.new ≡ take_after (nrzi_meaning L.Line.meaning self.old) }
        ensures stored { L.Line.memory self.new.below ≡ L.Line.memory self.old.below }
        ensures below { L.Line.meaning self.new.below ≡ take_after (L.Line.meaning self.old.below) }
    {
        let before = self.below.last_taken();
        let level = self.below.take()?;
        self.answered = before == level;
        Ok(self.last_taken())
    }

    #[tactic(auto, using(crate::specs::Soundness::decoded_length))]
    fn count(&self) -> usize {
        self.below.count()
    }

    fn places(&self) -> usize {
        self.below.places()
    }

    fn last_taken(&self) -> u8 {
        u8::from(self.answered)
    }

    #[tactic(auto, using(crate::proofs::Differences::decoded_lemmas))]
    fn level_at(&self, k: usize) -> Option<u8> {
        let level = self.below.level_at(k)?;
        let before = level_before(&self.below, k)?;
        Some(decode(before, level))
    }
}
